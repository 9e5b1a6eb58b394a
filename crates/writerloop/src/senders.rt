//! What the writing side hands back once no more is to be written.

ghost use Rattle.std.specs.Prelude.{◌≡◌};
ghost use Rattle.writerloop.specs.Keys.{Keys_set};
ghost use Rattle.writerloop.specs.Sent.{core_keys, keys};

use crate::opening::split;
use crate::sends::Sends;
use crate::writer_ending::WriterEnding;
use callbox::Sender;
use callparts::{Naming, OpeningCall, Order, OutLane, ReturningCall};
use device::ConnWrite;
use h2frame::StreamId;
use lane::{RingIn, RingOut};

/// What a writer hands back: how it ended, or nothing where all was written, what it wrote to, its
/// end of the ring of orders, and the senders that didn't go back before.
#[derive(Drop)]
pub struct WriterResult<J: Naming, W: ConnWrite + Drop> {
    pub ending: Option<WriterEnding>,
    pub device: W,
    pub orders: RingOut<Order<J>>,
    pub senders: Senders<J>,
}

/// The senders that a writer had at its end, and its end of the ring on which the others went back.
#[derive(Drop)]
pub struct Senders<J: Naming> {
    pub(crate) sends: Sends<J>,
    pub(crate) core: Vec<(StreamId, Sender<OutLane>)>,
    /// An order that was set aside.
    pub(crate) aside: Option<Order<J>>,
    ghost aligned: { keys sends.calls.items
        ≡ core_keys core.items } by { Keys_set (keys sends.calls.items) (core_keys core.items) },
}

impl<J: Naming> Senders<J> {
    ghost use Rattle.std.specs.Prelude.{[], None, IfNone, IfSome};
    ghost use Rattle.writerloop.specs.Orders.{order_in};
    ghost use Rattle.writerloop.specs.Rest.{HandsOver, rest_numbers};
    ghost use Rattle.writerloop.specs.Sent.{opens};

    /// The next sender.
    pub fn next(&mut self) -> Option<ReturningCall<J>>
        ensures some { IfSome result (HandsOver self.old self.new) }
        ensures none { IfNone result (rest_numbers self.old ≡ []) }
        ensures way { self.new.sends.home ≡ self.old.sends.home }
    {
        match self.next_aside() {
            Some(returning) => Some(returning),
            None => self.next_in_core(),
        }
    }

    /// The sender of the order that was set aside, if it opens a call.
    fn next_aside(&mut self) -> Option<ReturningCall<J>>
        ensures some { IfSome result (HandsOver self.old self.new) }
        ensures none { IfNone result (opens (order_in self.old.aside) ≡ []) }
        ensures aside { self.new.aside ≡ None }
        ensures sends { self.new.sends ≡ self.old.sends }
        ensures core { self.new.core ≡ self.old.core }
    {
        let order = self.aside.take()?;
        match split(order) {
            Ok(_plain) => None,
            Err((_id, opening)) => {
                let OpeningCall { sending, .. } = opening;
                Some(ReturningCall { sending })
            }
        }
    }

    /// The sender of the last call that the core had.
    fn next_in_core(&mut self) -> Option<ReturningCall<J>>
        requires { self.old.aside ≡ None }
        ensures some { IfSome result (HandsOver self.old self.new) }
        ensures none { IfNone result (rest_numbers self.old ≡ []) }
        ensures way { self.new.sends.home ≡ self.old.sends.home }
    {
        match self.core.pop() {
            Some(last) => {
                let (_id, sender) = last;
                Some(self.sends.take_last(sender))
            }
            None => None,
        }
    }

    /// The putting end of the ring of senders.
    pub fn into_home(self) -> RingIn<ReturningCall<J>>
        ensures { result ≡ self.sends.home }
    {
        let Senders { sends, .. } = self;
        sends.into_home()
    }
}
