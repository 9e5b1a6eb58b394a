//! The writing side's end of the ring of orders.

use lane::RingOut;
use outwriter::WriterOrder;

/// The orders that came for the writer. `S` is what comes with a call that begins.
#[derive(Drop)]
pub struct Inbox<S: Drop> {
    pub ring: RingOut<WriterOrder<S>>,
    /// An order that waits, or can't be taken yet. The others wait after it.
    pub set_aside: Option<WriterOrder<S>>,
    /// Whether an order was lost, for want of memory.
    pub has_lost: bool,
}

impl<S: Drop> Inbox<S> {
    ghost use Rattle.std.specs.Prelude.{◌≡◌, false, None};
    ghost use Rattle.writerloop.specs.Orders.{Gives, Keeps};

    /// An inbox of which no order was given.
    pub fn new(ring: RingOut<WriterOrder<S>>) -> Inbox<S>
        ensures ring { result.ring ≡ ring }
        ensures none { (result.set_aside ≡ None) × (result.has_lost ≡ false) }
    {
        Inbox {
            ring,
            set_aside: None,
            has_lost: false,
        }
    }

    /// Sets the next order aside, where one waits.
    pub(crate) fn look(&mut self)
        ensures keeps { Keeps self.old self.new }
    {
        if self.set_aside.is_none() {
            self.set_aside = self.ring.take();
        }
    }

    /// The order that was set aside, or else the next that waits.
    pub(crate) fn next(&mut self) -> Option<WriterOrder<S>>
        ensures gives { Gives result self.old self.new }
    {
        match self.set_aside.take() {
            Some(order) => Some(order),
            None => self.ring.take(),
        }
    }
}
