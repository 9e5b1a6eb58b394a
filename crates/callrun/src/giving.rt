//! How an item is given, and why one is refused.
//!
//! The bytes of an item are made only where there is room for it, so each is made once, and a turn
//! that finds the lane full takes no memory.

ghost use Rattle.std.specs.Prelude.{
  ◌≡◌,
  ◌+◌,
  ◌≤◌,
  ◌<◌,
  [],
  true,
  length,
  IfErr,
  IfOk,
  OnOk,
  MatchResult,
};
ghost use Rattle.callbox.specs.OutSides.{has_head};
ghost use Rattle.lpm.specs.Messages.{frame, IsFrame};
ghost use Rattle.handlers.specs.Replies.{reply_bytes};
ghost use Rattle.callrun.specs.Responses.{head_item, reply_item};
ghost use Rattle.callrun.specs.Giving.{Gives, without_item};

use crate::framed::framed;
use account::OutItem;
use callbox::{FramedFault, GiveFault, Giver};
use callhead::{CallHead, response_fields};
use handlers::Reply;
use lane::{Lane, PutFault};
use lists::Sequence;
use std::alloc::Global;

/// Why an item was not given.
#[derive(Clone, Copy, Debug, PartialEq, Eq)]
pub(crate) enum GiveRefusal {
    /// There is no room for it now.
    Full,
    /// Memory for it was wanting.
    OutOfMemory,
    /// Its place was taken already.
    NotTaken,
}

/// The result without the item that was handed back.
fn without_item<T: Drop>(given: Result<(), GiveFault<T>>) -> Result<(), GiveRefusal>
    ensures { result ≡ without_item given }
{
    match given {
        Ok(()) => Ok(()),
        Err(PutFault::Full { .. }) => Err(GiveRefusal::Full),
        Err(PutFault::OutOfMemory(_)) => Err(GiveRefusal::OutOfMemory),
        Err(PutFault::NotTaken(_)) => Err(GiveRefusal::NotTaken),
    }
}

/// Gives the head of the response.
pub(crate) fn give_head<O: Lane<Item = OutItem>>(
    giver: &mut Giver<O>,
    alloc: Global,
    head: &CallHead,
) -> Result<(), GiveRefusal>
    requires { O.put_in giver.old.tx ≡ [] }
    ensures name { O.in_name giver.new.tx ≡ O.in_name giver.old.tx }
    ensures gives { Gives result O.MayMiss (O.room_of (O.in_name giver.old.tx))
        (O.seen_taken giver.new.tx) (O.put_in giver.old.tx) (head_item head.now)
        (O.put_in giver.new.tx) }
{
    if let Err(_waiting) = giver.check_room() {
        return Err(GiveRefusal::Full);
    }
    let Ok(fields) = response_fields(alloc, &head.echo_initial) else {
        return Err(GiveRefusal::OutOfMemory);
    };
    without_item(giver.head(Sequence::from(fields)))
}

/// Gives a reply. A reply that is too long for a message counts as want of memory; no method has
/// such a reply.
pub(crate) fn give_reply<O: Lane<Item = OutItem>>(
    giver: &mut Giver<O>,
    alloc: Global,
    reply: Reply,
) -> Result<(), GiveRefusal>
    requires { has_head (O.put_in giver.old.tx) ≡ true }
    ensures name { O.in_name giver.new.tx ≡ O.in_name giver.old.tx }
    ensures gives { Gives result O.MayMiss (O.room_of (O.in_name giver.old.tx))
        (O.seen_taken giver.new.tx) (O.put_in giver.old.tx) (reply_item reply)
        (O.put_in giver.new.tx) }
{
    if let Err(_waiting) = giver.check_room() {
        return Err(GiveRefusal::Full);
    }
    let Ok(message) = framed(alloc, reply) else {
        return Err(GiveRefusal::OutOfMemory);
    };
    match giver.give_framed(message) {
        Ok(()) => Ok(()),
        Err(FramedFault::Refused(fault)) => without_item(Err(fault)),
        Err(FramedFault::NotAFrame(_)) => Err(GiveRefusal::OutOfMemory),
    }
}
