//! The out side of a call, run by its two ends.

ghost use Rattle.std.specs.Prelude.{◌≡◌, IfOk, OnOk};
ghost use Rattle.lane.specs.End.{of_end};

use account::{CallEvent, OutItem};
use anyhow::{Context, Result, ensure};
use bytes::Bytes;
use callbox::{GivenShut, Giver, InPiece, Sender, open_call, settle_out};
use lane::{End, Lane, RingLane};
use lists::{Field, Sequence};
use lpm::{MAX_MESSAGE_LEN, is_frame};
use std::alloc::Global;
use zeros::ZeroTail;

/// Room for the items of a row.
const ROOM: usize = 64;

const STREAM: u32 = 1;

/// The bytes before those of a message: its flag and its length (gRPC over HTTP/2,
/// "Length-Prefixed-Message").
const PREFIX_LEN: usize = 5;

/// Gives an item, where it is in place.
fn give_open<L: Lane<Item = OutItem>>(
    alloc: Global,
    giver: Giver<L>,
    item: &OutItem,
    given: &mut Vec<OutItem>,
) -> Result<End<Giver<L>, GivenShut<L>>>
    ensures { IfOk result
        (λ end. of_end (λ g. L.in_name g.tx) (λ s. L.shut_name s.shut) end ≡ L.in_name giver.tx) }
{
    let mut giver = giver;
    match item {
        OutItem::Head(fields) => give_head::<L>(&mut giver, fields, given)?,
        OutItem::Message(message) => give_message::<L>(alloc, &mut giver, message, given)?,
        OutItem::Trailers(fields) => {
            given.push(item.copy()?)?;
            return Ok(End::Shut(giver.trailers(fields.copy()?)));
        }
        OutItem::Left => {
            given.push(OutItem::Left)?;
            return Ok(End::Shut(giver.leave()));
        }
    }
    Ok(End::Open(giver))
}

/// Gives a head, where none was given.
fn give_head<L: Lane<Item = OutItem>>(
    giver: &mut Giver<L>,
    fields: &Sequence<Field>,
    given: &mut Vec<OutItem>,
) -> Result<()>
    ensures { OnOk result (L.in_name giver.new.tx ≡ L.in_name giver.old.tx) }
{
    if !giver.has_head() {
        given.push(OutItem::Head(fields.copy()?))?;
        giver.head(fields.copy()?).context("a head is refused")?;
    }
    Ok(())
}

/// Gives a message after a head, where the bytes are one.
fn give_message<L: Lane<Item = OutItem>>(
    alloc: Global,
    giver: &mut Giver<L>,
    message: &ZeroTail,
    given: &mut Vec<OutItem>,
) -> Result<()>
    ensures { OnOk result (L.in_name giver.new.tx ≡ L.in_name giver.old.tx) }
{
    let (framed, zeros) = message.parts();
    if giver.has_head() && zeros == 0 && is_frame(framed) {
        let bytes = framed.get(PREFIX_LEN..).context("no prefix")?;
        ensure!(bytes.len() <= MAX_MESSAGE_LEN, "a message is too long");
        given.push(OutItem::Message(message.clone()?))?;
        giver
            .give(Bytes::copy_from_slice(alloc, bytes)?)
            .context("a message is refused")?;
    }
    Ok(())
}

/// Gives an item, where neither trailers nor that the call was left was given.
fn give<L: Lane<Item = OutItem>>(
    alloc: Global,
    end: End<Giver<L>, GivenShut<L>>,
    item: &OutItem,
    given: &mut Vec<OutItem>,
) -> Result<End<Giver<L>, GivenShut<L>>>
    ensures { IfOk result (λ new. of_end (λ g. L.in_name g.tx) (λ s. L.shut_name s.shut) new
        ≡ of_end (λ g. L.in_name g.tx) (λ s. L.shut_name s.shut) end) }
{
    match end {
        End::Open(giver) => give_open::<L>(alloc, giver, item, given),
        End::Shut(shut) => Ok(End::Shut(shut)),
    }
}

fn send<L: Lane<Item = OutItem>>(sender: &mut Sender<L>, sent: &mut Vec<OutItem>) -> Result<()>
    ensures { OnOk result (L.out_name sender.new.rx ≡ L.out_name sender.old.rx) }
{
    if let Some(item) = sender.next() {
        sent.push(item.copy()?)?;
    }
    Ok(())
}

fn has_trailers(items: &[OutItem]) -> bool {
    matches!(items.last(), Some(OutItem::Trailers(_)))
}

/// Settles the two ends, whose counts have to be those of what was given and sent.
fn settle<L: Lane<Item = OutItem>>(
    end: End<Giver<L>, GivenShut<L>>,
    sender: Sender<L>,
    given: &[OutItem],
    sent: &[OutItem],
) -> Result<()>
    requires { of_end (λ g. L.in_name g.tx) (λ s. L.shut_name s.shut) end ≡ L.out_name sender.rx }
{
    let account = settle_out(end, sender);
    ensure!(
        account.given == given.len() as u64
            && account.sent == sent.len() as u64
            && account.trailers_given == has_trailers(given)
            && account.trailers_sent == has_trailers(sent),
        "settled as {account:?}"
    );
    Ok(())
}

/// Runs the out side's events of a row, in order: what was given and what was sent.
pub fn run_out<L: Lane<Item = OutItem>>(
    alloc: Global,
    events: &[CallEvent],
) -> Result<(Vec<OutItem>, Vec<OutItem>)> {
    let (_, _, giver, mut sender) = open_call::<RingLane<InPiece>, L>(alloc, STREAM, 0, ROOM)?;
    let mut end = End::Open(giver);
    let mut given = Vec::new(alloc);
    let mut sent = Vec::new(alloc);
    for event in events {
        match event {
            CallEvent::Give(item) => end = give::<L>(alloc, end, item, &mut given)?,
            CallEvent::Send => send::<L>(&mut sender, &mut sent)?,
            CallEvent::Feed(_) | CallEvent::Shut(_) | CallEvent::Take => {}
        }
    }
    settle::<L>(end, sender, given.as_slice(), sent.as_slice())?;
    Ok((given, sent))
}
