//! The two ends of the out side, over a ring.
ghost use Rattle.std.specs.Prelude.{◌≡◌, []};

use account::OutItem;
use anyhow::Result;
use bytes::Bytes;
use callbox::{FramedFault, Giver, InPiece, OutAccount, Sender, open_call, settle_out};
use lane::{End, Lane, RingLane};
use lists::{Field, Octets, Sequence};
use std::alloc::{AllocError, Global};
use zeros::ZeroTail;

/// The frame of the one byte 0x41.
pub const FRAMED: &[u8] = &[0, 0, 0, 0, 1, 0x41];

const OTHER_FRAMED: &[u8] = &[0, 0, 0, 0, 1, 0x42];

/// One field, `:status 200`.
pub fn fields(alloc: Global) -> Result<Sequence<Field>, AllocError> {
    let field = Field {
        name: Octets::from(b":status".to_vec(alloc)?),
        value: Octets::from(b"200".to_vec(alloc)?),
    };
    let mut all = Vec::new(alloc);
    all.push(field)?;
    Ok(Sequence::from(all))
}

/// The bytes of a message, or those of the value of the first field.
pub fn bytes_of(item: &OutItem) -> &[u8] {
    match item {
        OutItem::Message(message) => message.parts().0,
        OutItem::Head(fields) | OutItem::Trailers(fields) => match fields.as_slice().first() {
            Some(field) => field.value.as_slice(),
            None => &[],
        },
        OutItem::Left => &[],
    }
}

/// What became of bytes that were given as a frame.
#[derive(Clone, Copy, PartialEq, Eq)]
enum FramedOutcome {
    Given,
    NotAFrame,
    Refused,
    /// No head was given, so nothing may be.
    Headless,
}

/// Gives bytes as a frame.
fn give_framed<L: Lane<Item = OutItem>>(giver: &mut Giver<L>, bytes: &'static [u8]) -> FramedOutcome
    ensures { L.in_name giver.new.tx ≡ L.in_name giver.old.tx }
{
    if !giver.has_head() {
        return FramedOutcome::Headless;
    }
    match giver.give_framed(ZeroTail::from(Bytes::from_static(bytes))) {
        Ok(()) => FramedOutcome::Given,
        Err(FramedFault::NotAFrame(_)) => FramedOutcome::NotAFrame,
        Err(FramedFault::Refused(_)) => FramedOutcome::Refused,
    }
}

/// Gives a head and a message.
fn begins<L: Lane<Item = OutItem>>(giver: &mut Giver<L>, head: Sequence<Field>) -> bool
    requires { L.put_in giver.old.tx ≡ [] }
    ensures { L.in_name giver.new.tx ≡ L.in_name giver.old.tx }
{
    let is_begun = giver.head(head).is_ok();
    if !giver.has_head() {
        return false;
    }
    giver.give(Bytes::from_static(&[0x41])).is_ok() && is_begun
}

/// Gives another message, and what is refused: what is no frame, and a frame for which there is no
/// room.
fn goes_on<L: Lane<Item = OutItem>>(giver: &mut Giver<L>) -> bool
    ensures { L.in_name giver.new.tx ≡ L.in_name giver.old.tx }
{
    let unframed = give_framed(giver, &[0x42]);
    let has_room = giver.check_room() == Ok(());
    let framed = give_framed(giver, OTHER_FRAMED);
    let refused = give_framed(giver, &[0, 0, 0, 0, 0]);
    let is_full = giver.check_room() == Err(3);
    unframed == FramedOutcome::NotAFrame
        && has_room
        && framed == FramedOutcome::Given
        && refused == FramedOutcome::Refused
        && is_full
}

/// Whether the next item that is sent has these bytes.
fn sends<L: Lane<Item = OutItem>>(sender: &mut Sender<L>, bytes: &[u8]) -> bool
    ensures { L.out_name sender.new.rx ≡ L.out_name sender.old.rx }
{
    sender.next().map(bytes_of) == Some(bytes)
}

pub fn send_what_is_given(alloc: Global) -> Result<bool> {
    let head = fields(alloc)?;
    let trailers = fields(alloc)?;
    let (_, _, mut giver, mut sender) = open_call::<RingLane<InPiece>, RingLane<OutItem>>(
        alloc, 7, 0, 3,
    )?;
    let is_given = begins(&mut giver, head) && goes_on(&mut giver);
    if !giver.has_head() {
        return Ok(false);
    }
    let shut = giver.trailers(trailers);
    let is_sent = sends(&mut sender, b"200")
        && sends(&mut sender, FRAMED)
        && sends(&mut sender, OTHER_FRAMED)
        && sends(&mut sender, b"200");
    let wanted = OutAccount {
        given: 4,
        sent: 4,
        trailers_given: true,
        trailers_sent: true,
    };
    Ok(is_given && is_sent && settle_out(End::Shut(shut), sender) == wanted)
}
