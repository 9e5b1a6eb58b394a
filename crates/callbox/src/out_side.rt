//! The two ends of a call's out side, brought together.
//!
//! Neither end counts: the numbers come from `Lane::settle`. Trailers were sent exactly where they
//! were placed and nothing is left.

ghost use Rattle.std.specs.Prelude.{◌≡◌, [], IfOk};
ghost use Rattle.lane.specs.End.{of_end};
ghost use Rattle.callbox.specs.OutAccounts.{CountsOut};

use crate::{GivenShut, Giver, Sender};
use account::OutItem;
use lane::{End, Lane};
use std::alloc::{AllocError, Global};

/// The out side of a call's account, counted. A number over the greatest `u64` counts as that.
#[derive(Clone, Copy, Debug, PartialEq, Eq)]
pub struct OutAccount {
    /// How many items were given.
    pub given: u64,
    /// How many of them were sent.
    pub sent: u64,
    /// Whether trailers were given: exactly where there was a place for them in the lane.
    pub trailers_given: bool,
    /// Whether the trailers were sent.
    pub trailers_sent: bool,
}

/// Brings the two ends of one call's out side together.
pub fn settle_out<L: Lane<Item = OutItem>>(
    end: End<Giver<L>, GivenShut<L>>,
    sender: Sender<L>,
) -> OutAccount
    requires one_call { of_end (λ g. L.in_name g.tx) (λ s. L.shut_name s.shut) end
        ≡ L.out_name sender.rx }
    ensures account { CountsOut (of_end (λ g. L.put_in g.tx) (λ s. L.put_shut s.shut) end)
        (L.got sender.rx) result }
{
    match end {
        End::Open(giver) => settle_open(giver, sender),
        End::Shut(shut) => settle_shut(shut, sender),
    }
}

fn settle_open<L: Lane<Item = OutItem>>(giver: Giver<L>, sender: Sender<L>) -> OutAccount
    requires one_call { L.in_name giver.tx ≡ L.out_name sender.rx }
    ensures account { CountsOut (L.put_in giver.tx) (L.got sender.rx) result }
{
    let settled = L::settle(End::Open(giver.tx), sender.rx);
    OutAccount {
        given: settled.put,
        sent: settled.got,
        trailers_given: false,
        trailers_sent: false,
    }
}

fn settle_shut<L: Lane<Item = OutItem>>(shut: GivenShut<L>, sender: Sender<L>) -> OutAccount
    requires one_call { L.shut_name shut.shut ≡ L.out_name sender.rx }
    ensures account { CountsOut (L.put_shut shut.shut) (L.got sender.rx) result }
{
    let trailers_given = shut.has_trailers();
    let settled = L::settle(End::Shut(shut.shut), sender.rx);
    OutAccount {
        given: settled.put,
        sent: settled.got,
        trailers_given,
        trailers_sent: trailers_given && settled.left == 0,
    }
}

/// The two ends of a call's out side, over one lane with this room.
pub(crate) fn open_out<L: Lane<Item = OutItem>>(
    alloc: Global,
    id: u32,
    room: usize,
) -> Result<(Giver<L>, Sender<L>), AllocError>
    ensures one_call { IfOk result (λ r. L.in_name r.0.tx ≡ L.out_name r.1.rx) }
    ensures room { IfOk result (λ r. L.room_of (L.in_name r.0.tx) ≡ room) }
    ensures nothing { IfOk result (λ r. (L.put_in r.0.tx ≡ []) × (L.got r.1.rx ≡ [])) }
    ensures id { IfOk result (λ r. r.1.id ≡ id) }
{
    let (tx, rx) = L::open(alloc, room)?;
    Ok((Giver::new(alloc, tx), Sender::new(id, rx)))
}
