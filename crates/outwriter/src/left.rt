//! Which calls were left without trailers, as their senders say.

ghost use Rattle.std.specs.Prelude.{◌≡◌, length, IfNone, IfSome};

use crate::out_core::OutCore;
use account::OutItem;
use h2frame::StreamId;
use lane::Lane;

impl<L: Lane<Item = OutItem>> OutCore<L> {
    ghost use Rattle.outwriter.specs.Cores.{LeadsStill, calls, lanes};
    ghost use Rattle.outwriter.specs.LeftCalls.{WasLeft, WasNotLeftAt};

    /// How many senders are kept.
    pub fn calls(&self) -> usize
        ensures { result ≡ length self.now.sending.senders.items }
    {
        self.sending.senders.len()
    }

    /// The stream of the call whose sender is at this place, if the sender gave last that the call
    /// was left: so all else that it gave was taken. It takes no memory.
    pub fn left_at(&mut self, place: usize) -> Option<StreamId>
        ensures left { IfSome result (λ id. WasLeft id
            (calls L.got self.new.sending.senders.items)) }
        ensures not_left { IfNone result (WasNotLeftAt place
            (calls L.got self.new.sending.senders.items)) }

        // No sender gives anything more, so whatever run led to the core still does.
        ensures calls { calls L.got self.new.sending.senders.items
            ≡ calls L.got self.old.sending.senders.items }
        ensures senders { lanes L.out_name self.new.sending.senders.items
            ≡ lanes L.out_name self.old.sending.senders.items }
        ensures leads { LeadsStill L.got self.old self.new }
        ensures rest { self.new ≡ record
            self.old {
              sending = record self.old.sending { senders = self.new.sending.senders };
            } }
    {
        let call = self.sending.senders.get_mut(place)?;
        if call.1.was_left() {
            Some(call.0)
        } else {
            None
        }
    }
}
