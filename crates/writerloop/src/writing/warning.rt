//! How the writing side warns the peer of a connection's end while calls go on.

ghost use Rattle.std.specs.Prelude.{◌≡◌, ℕ, false, List, Option};
ghost use Rattle.lane.specs.RingLane.{got};
ghost use Rattle.outwriter.specs.Steps.{Step, order_of};
ghost use Rattle.writerloop.specs.Orders.{IsWarning, Warns};
ghost use Rattle.writerloop.specs.Wrote.{Wrote};
ghost use Rattle.writerloop.specs.Written.{LeadsOn};

use super::Writing;
use crate::order_outcome::OrderOutcome;
use callbox::Sender;
use callparts::{Naming, OutLane};
use connbook::ClosedBook;
use device::ConnWrite;
use h2frame::{ErrorCode, StreamId};
use outwriter::WriterOrder;
use reasons::Reason;

/// The greatest number of a stream (RFC 9113, section 5.1.1).
const GREATEST_STREAM: StreamId = 2_147_483_647;

/// The eight bytes of the PING that goes with a warning: "draining".
const DRAINING: [u8; 8] = [100, 114, 97, 105, 110, 105, 110, 103];

impl<J: Naming, W: ConnWrite + Drop> Writing<J, W> {
    /// Warns the peer, once, that this side is to end the connection while calls go on, since the
    /// book says that no more are admitted (RFC 9113, section 6.8). The warning is a GOAWAY without an error that names stream 2^31 - 1, unless a
    /// GOAWAY was ordered before, and a PING. Without memory, or once an order was lost, it may be
    /// left out.
    pub fn warn(&mut self, _word: &ClosedBook)
        ensures leads { LeadsOn W.contents W.failed self.old self.new }
        ensures inbox { self.new.inbox ≡ self.old.inbox }
    {
        if !self.inbox.has_lost {
            self.warn_by_goaway();
            self.warn_by_ping();
        }
    }

    /// Warns the peer by the GOAWAY.
    fn warn_by_goaway(&mut self)
        requires kept { self.old.inbox.has_lost ≡ false }
        ensures leads { LeadsOn W.contents W.failed self.old self.new }
        ensures inbox { self.new.inbox ≡ self.old.inbox }
    {
        if self.frames.may_leave() {
            let (last, reason) = (GREATEST_STREAM, Reason::Code(ErrorCode::NoError));
            self.warn_by(WriterOrder::Goaway { last, reason });
        }
    }

    /// Warns the peer by the PING.
    fn warn_by_ping(&mut self)
        requires kept { self.old.inbox.has_lost ≡ false }
        ensures leads { LeadsOn W.contents W.failed self.old self.new }
        ensures inbox { self.new.inbox ≡ self.old.inbox }
    {
        if self.frames.may_probe() {
            self.warn_by(WriterOrder::Probe(DRAINING));
        }
    }

    /// Gives the core a warning. Answers whether it was taken.
    fn warn_by(&mut self, warning: WriterOrder<Sender<OutLane>>) -> bool
        requires kept { self.old.inbox.has_lost ≡ false }
        requires own { IsWarning warning }
        requires warns { (before : Option (List ℕ)) (run : List Step)
            → Wrote got W.contents W.failed before run self.old.frames
            → Warns (order_of warning) run }
        ensures leads { LeadsOn W.contents W.failed self.old self.new }
        ensures inbox { self.new.inbox ≡ self.old.inbox }
    {
        let taking = self.give(warning, GREATEST_STREAM);
        matches!(taking, OrderOutcome::Done)
    }
}
