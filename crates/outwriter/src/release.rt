//! The senders that are given back.
//!
//! A call is through where its end was written, or a Reset of it was taken: nothing more is written
//! on its stream, but perhaps a reset. The core no longer asks for what is ahead of its sender, so
//! whoever gets the sender polls that away.

ghost use Rattle.std.specs.Prelude.{◌≡◌, true, false, IfSome, IfNone, OnSome};

use crate::out_core::OutCore;
use crate::sending::Sending;
use crate::states::StreamStates;
use account::OutItem;
use callbox::Sender;
use h2frame::StreamId;
use lane::Lane;

impl<L: Lane<Item = OutItem>> OutCore<L> {
    ghost use Rattle.outwriter.specs.Cores.{LeadsOn};
    ghost use Rattle.outwriter.specs.Releases.{IsThrough, HasNone, Releases, HasEnded};
    ghost use Rattle.outwriter.specs.RunState.{SameButOpen};
    ghost use Rattle.outwriter.specs.Steps.{Returned};

    /// Gives back the sender of a call that is through: its stream isn't open any more, and no
    /// header block of it is unfinished. It takes no memory, and looks through the senders. A
    /// stream that was opened twice has two.
    pub fn release(&mut self, id: StreamId) -> Option<Sender<L>>
        // The next step of the run is that the sender is given back, with what it has given.
        ensures leads { IfSome result
            (λ sender. LeadsOn L.got (Returned id (L.got sender.rx)) self.old self.new) }

        // It is the first of this stream's senders that are kept, and the last sender takes its
        // place.
        ensures releases { IfSome result
            (λ sender. Releases id sender self.old.sending.senders.items
            self.new.sending.senders.items) }

        // A sender is given back exactly where its call is through, and so has ended or was reset.
        ensures through { OnSome result (IsThrough id self.old) }
        ensures none { IfNone result (IsThrough id self.old
            → HasNone id self.old.sending.senders.items) }
        ensures ended { OnSome result (HasEnded L.got id self.old) }
        ensures unchanged { IfNone result (self.new ≡ self.old) }
        ensures rest { self.new ≡ record
            self.old {
              sending = record self.old.sending {
                senders = self.new.sending.senders;
                outbound = self.new.sending.outbound;
              };
            } }

        // Nothing else changes but the place of the sender that takes its place.
        ensures same { SameButOpen self.old.sending.outbound self.new.sending.outbound }
    {
        if self.sending.outbound.states.is_open(id) || self.sending.is_in_block(id) {
            return None;
        }
        let place = self.sending.place_of(id)?;
        let (_id, sender) = self.sending.senders.swap_remove(place);
        move_last(
            &mut self.sending.outbound.states,
            self.sending.senders.as_slice(),
            place,
        );
        Some(sender)
    }
}

impl<L: Lane<Item = OutItem>> Sending<L> {
    ghost use Rattle.outwriter.specs.Releases.{HasNone, HasNoneBelow, IsAt, IsWhole};

    /// Whether a header block of this stream is unfinished.
    fn is_in_block(&self, id: StreamId) -> bool
        ensures whole { result ≡ false → IsWhole id self.now.outbound.block }
        ensures unfinished { result ≡ true → ¬ IsWhole id self.now.outbound.block }
    {
        match &self.outbound.block {
            Some(block) => block.id == id,
            None => false,
        }
    }

    /// The place of the first sender of this stream.
    pub(crate) fn place_of(&self, id: StreamId) -> Option<usize>
        ensures some { IfSome result (λ place. IsAt id place self.now.senders.items) }
        ensures first { IfSome result (λ place. HasNoneBelow place id self.now.senders.items) }
        ensures none { IfNone result (HasNone id self.now.senders.items) }
    {
        for place in 0..self.senders.len() {
            if let Some((stream, _)) = self.senders.get(place) {
                if *stream == id {
                    return Some(place);
                }
            }
        }
        None
    }
}

ghost use Rattle.outwriter.specs.Releases.{MovedTo};
ghost use Rattle.outwriter.specs.States.{StandAs, open_at};

/// The last sender moves to a place, unless that was its own.
fn move_last<L: Lane<Item = OutItem>>(
    states: &mut StreamStates,
    senders: &[(StreamId, Sender<L>)],
    place: usize,
)
    ensures moved { MovedTo place senders.now (open_at states.old) (open_at states.new) }
    ensures stands { StandAs states.old states.new }
{
    let last = senders.len();
    match senders.get(place) {
        Some(call) => states.move_place(call.0, last, place),
        None => {}
    }
}
