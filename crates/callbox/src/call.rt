//! Opening a call.

ghost use Rattle.std.specs.Prelude.{◌≡◌, [], None, IfOk};
ghost use Rattle.callbox.specs.InSides.{TakesMessages};

use crate::in_side::open_in;
use crate::out_side::open_out;
use crate::{Feeder, Giver, InPiece, Sender, Taker};
use account::OutItem;
use lane::Lane;
use std::alloc::{AllocError, Global};

/// The four ends of one call, over two lanes with these rooms, where `id` is the number of its
/// stream.
///
/// Any threads may hold them. The taker takes what the feeder is fed, and the sender sends what the
/// giver gives.
pub fn open_call<I: Lane<Item = InPiece>, O: Lane<Item = OutItem>>(
    alloc: Global,
    id: u32,
    room_in: usize,
    room_out: usize,
) -> Result<(Feeder<I>, Taker<I>, Giver<O>, Sender<O>), AllocError>
    ensures one_in { IfOk result (λ r. I.in_name r.0.tx ≡ I.out_name r.1.rx) }
    ensures one_out { IfOk result (λ r. O.in_name r.2.tx ≡ O.out_name r.3.rx) }
    ensures room_in { IfOk result (λ r. I.room_of (I.in_name r.0.tx) ≡ room_in) }
    ensures room_out { IfOk result (λ r. O.room_of (O.in_name r.2.tx) ≡ room_out) }
    ensures unfed { IfOk result (λ r. (I.put_in r.0.tx ≡ []) × (I.got r.1.rx ≡ [])) }
    ensures took { IfOk result (λ r. TakesMessages (I.got r.1.rx) r.1.progress []) }
    ensures owed { IfOk result (λ r. r.1.progress.owed ≡ 0) }
    ensures told { IfOk result (λ r. r.1.progress.told ≡ None) }
    ensures ungiven { IfOk result (λ r. (O.put_in r.2.tx ≡ []) × (O.got r.3.rx ≡ [])) }
    ensures id { IfOk result (λ r. r.3.id ≡ id) }
{
    let (feeder, taker) = open_in(alloc, room_in)?;
    let (giver, sender) = open_out(alloc, id, room_out)?;
    Ok((feeder, taker, giver, sender))
}
