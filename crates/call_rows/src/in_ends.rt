//! The in side of a call, run by its two ends.

ghost use Rattle.std.specs.Prelude.{◌≡◌, IfOk, OnOk};
ghost use Rattle.lane.specs.End.{of_end};

use account::{CallEvent, OutItem, RequestEnd, Shut};
use anyhow::{Context, Result, bail, ensure};
use bytes::Bytes;
use callbox::{FedShut, Feeder, InAccount, InPiece, Taken, Taker, open_call, settle_in};
use lane::{End, Lane, RingLane};
use lpm::LpmFault;
use std::alloc::Global;

/// Room for the pieces of a row.
const ROOM: usize = 64;

/// What was fed, taken and told.
#[derive(Drop)]
pub struct InOutcome {
    pub fed: Vec<u8>,
    pub shut: Option<Shut>,
    pub taken: Vec<Bytes>,
    pub told: Option<RequestEnd>,
}

/// Feeds a piece, where the half isn't shut.
fn feed<L: Lane<Item = InPiece>>(
    end: End<Feeder<L>, FedShut<L>>,
    piece: &Bytes,
    fed: &mut Vec<u8>,
) -> Result<End<Feeder<L>, FedShut<L>>>
    ensures { IfOk result (λ new. of_end (λ f. L.in_name f.tx) (λ s. L.shut_name s.shut) new
        ≡ of_end (λ f. L.in_name f.tx) (λ s. L.shut_name s.shut) end) }
{
    match end {
        End::Open(mut feeder) => {
            fed.extend_from_slice(piece.as_slice())?;
            feeder.feed(piece.clone()?).context("a piece is refused")?;
            Ok(End::Open(feeder))
        }
        End::Shut(shut) => Ok(End::Shut(shut)),
    }
}

/// Shuts the half, where it isn't shut.
fn shut_half<L: Lane<Item = InPiece>>(
    end: End<Feeder<L>, FedShut<L>>,
    shut: Shut,
) -> End<Feeder<L>, FedShut<L>>
    ensures { of_end (λ f. L.in_name f.tx) (λ s. L.shut_name s.shut) result
        ≡ of_end (λ f. L.in_name f.tx) (λ s. L.shut_name s.shut) end }
{
    match end {
        End::Open(feeder) => End::Shut(match shut {
            Shut::End => feeder.end(),
            Shut::Reset(code) => feeder.reset(code),
        }),
        End::Shut(shut) => End::Shut(shut),
    }
}

fn take<L: Lane<Item = InPiece>>(taker: &mut Taker<L>, taken: &mut Vec<Bytes>) -> Result<()>
    ensures { OnOk result (L.out_name taker.new.rx ≡ L.out_name taker.old.rx) }
{
    match taker.take() {
        Taken::Message(message) => taken.push(message)?,
        Taken::Fault(LpmFault::OutOfMemory) => bail!("out of memory"),
        Taken::Nothing | Taken::End | Taken::Reset(_) | Taken::Fault(_) => {}
    }
    Ok(())
}

/// Settles the two ends, whose counts have to be those of what was fed and taken.
fn settled<L: Lane<Item = InPiece>>(
    end: End<Feeder<L>, FedShut<L>>,
    taker: Taker<L>,
    fed: Vec<u8>,
    taken: Vec<Bytes>,
) -> Result<InOutcome>
    requires { of_end (λ f. L.in_name f.tx) (λ s. L.shut_name s.shut) end ≡ L.out_name taker.rx }
{
    let account: InAccount = settle_in(end, taker);
    ensure!(
        account.fed == fed.len() as u64 && account.taken == taken.len() as u64,
        "settled as {account:?}"
    );
    Ok(InOutcome {
        fed,
        shut: account.shut,
        taken,
        told: account.told,
    })
}

/// Runs the in side's events of a row, in order.
pub fn run_in<L: Lane<Item = InPiece>>(alloc: Global, events: &[CallEvent]) -> Result<InOutcome> {
    let (feeder, mut taker, _, _) = open_call::<L, RingLane<OutItem>>(alloc, 1, ROOM, 0)?;
    let mut end = End::Open(feeder);
    let mut fed = Vec::new(alloc);
    let mut taken = Vec::new(alloc);
    for event in events {
        match event {
            CallEvent::Feed(piece) => end = feed::<L>(end, piece, &mut fed)?,
            CallEvent::Shut(shut) => end = shut_half::<L>(end, *shut),
            CallEvent::Take => take::<L>(&mut taker, &mut taken)?,
            CallEvent::Give(_) | CallEvent::Send => {}
        }
    }
    settled::<L>(end, taker, fed, taken)
}
