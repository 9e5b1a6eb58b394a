//! How the writing side takes orders.

ghost use Rattle.std.specs.Prelude.{
  ◌≡◌,
  ◌≢◌,
  ◌⊎◌,
  ◌||◌,
  ℕ,
  true,
  false,
  List,
  Option,
  None,
  Some,
  IfSome,
};
ghost use Rattle.lane.specs.Ring.{in_name, put_in};
ghost use Rattle.lane.specs.RingLane.{got};
ghost use Rattle.outwriter.specs.declared.control.WriterOrder.TheVariants as orders;
ghost use Rattle.outwriter.specs.Steps.{Step, order_of};
ghost use Rattle.writerloop.specs.declared.ended.EndedStream.{EndedStream};
ghost use Rattle.writerloop.specs.declared.steps.OrderStep.TheVariants as took;
ghost use Rattle.writerloop.specs.declared.steps.WaitingOrder.TheVariants as waiting;
ghost use Rattle.writerloop.specs.Orders.{OpensNone, WaitsWithoutWindow, closes, waiting_of};
ghost use Rattle.writerloop.specs.OwnOrders.{Blamed, steps_of};
ghost use Rattle.writerloop.specs.Sent.{SameCalls};
ghost use Rattle.writerloop.specs.Wrote.{WritesOn, Wrote};
ghost use Rattle.writerloop.specs.Written.{
  Begins,
  Heeds,
  core_of,
  LeadsOn,
  Parts,
  PassesOver,
  Stays,
  Takes,
};

use super::Writing;
use crate::ended::EndedStream;
use crate::opening::{begin, split};
use crate::order_outcome::OrderOutcome;
use crate::steps::{OrderStep, WaitingOrder};
use callbox::Sender;
use callparts::{Naming, OpeningCall, Order, OutLane};
use connbook::LastAdmitted;
use device::ConnWrite;
use h2frame::StreamId;
use outwriter::WriterOrder;
use reasons::Reason;

impl<J: Naming, W: ConnWrite + Drop> Writing<J, W> {
    /// Which order is to be taken next.
    pub fn look(&mut self) -> WaitingOrder
        ensures stays { Stays W.contents W.failed self.old self.new }
        ensures rest { self.new ≡ record self.old { inbox = self.new.inbox } }
        ensures waiting { result ≡ waiting_of self.new.inbox.set_aside }
        ensures nothing { result ≡ waiting.Nothing → self.new.inbox.set_aside ≡ None }
        ensures plain { result ≡ waiting.Other → WaitsWithoutWindow self.new.inbox }
        ensures leaves { result ≡ waiting.Goaway → WaitsWithoutWindow self.new.inbox }
    {
        self.inbox.look();
        self.waiting()
    }

    /// Which order is set aside.
    fn waiting(&self) -> WaitingOrder
        ensures waiting { result ≡ waiting_of self.now.inbox.set_aside }
        ensures nothing { result ≡ waiting.Nothing → self.now.inbox.set_aside ≡ None }
        ensures plain { result ≡ waiting.Other → WaitsWithoutWindow self.now.inbox }
        ensures leaves { result ≡ waiting.Goaway → WaitsWithoutWindow self.now.inbox }
    {
        match &self.inbox.set_aside {
            None => WaitingOrder::Nothing,
            Some(WriterOrder::Settings(_) | WriterOrder::Window(..)) => WaitingOrder::Window,
            Some(WriterOrder::Goaway { .. }) => WaitingOrder::Goaway,
            Some(_) => WaitingOrder::Other,
        }
    }

    /// Takes the next order. A GOAWAY of the writer's own names `last` (RFC 9113, section 6.8).
    /// Once an order was lost only Close is taken.
    pub fn take_next(&mut self, last: Option<LastAdmitted>) -> OrderStep
        requires asked { last ≡ None → WaitsWithoutWindow self.old.inbox }
        ensures leads { LeadsOn W.contents W.failed self.old self.new }
        ensures lost { result ≡ took.Lost → self.new.inbox.has_lost ≡ true }
        ensures stops { result ≡ took.Stops → self.new.blames ≡ true }
    {
        let Some(order) = self.inbox.next() else {
            return OrderStep::Nothing;
        };
        let last = named(last);
        if self.inbox.has_lost {
            return self.pass_over(order, last);
        }
        match split(order) {
            Ok(control) => self.take(control, last),
            Err((id, opening)) => self.begin(id, opening),
        }
    }

    /// Takes an order that opens no call; none was lost.
    fn take(&mut self, order: WriterOrder<Sender<OutLane>>, last: StreamId) -> OrderStep
        requires plain { OpensNone order }
        requires kept { self.old.inbox.has_lost ≡ false }
        ensures takes { Takes W.contents W.failed (order_of order) self.old self.new }
        ensures inbox { self.new.inbox
            ≡ record self.old.inbox { has_lost = self.new.inbox.has_lost } }
        ensures heeds { Heeds (order_of order) self.old self.new }
        ensures way { in_name self.new.sends.home ≡ in_name self.old.sends.home }
        ensures lost { result ≡ took.Lost → self.new.inbox.has_lost ≡ true }
        ensures stops { result ≡ took.Stops → self.new.blames ≡ true }
    {
        self.note(&order);
        match self.give(order, last) {
            OrderOutcome::Done => OrderStep::One,
            OrderOutcome::Ended(id) => self.end(id),
            OrderOutcome::Unanswered(_) => self.lose(),
            OrderOutcome::HandedBack(_) => self.lose(),
        }
    }

    /// Gives the core an order that opens no call.
    pub(super) fn give(
        &mut self,
        order: WriterOrder<Sender<OutLane>>,
        last: StreamId,
    ) -> OrderOutcome<Sender<OutLane>>
        requires plain { OpensNone order }
        ensures wrote { WritesOn got W.contents W.failed (steps_of (order_of order) last result)
            self.old.frames self.new.frames }
        ensures blamed { (before : Option (List ℕ)) (run : List Step)
            → Wrote got W.contents W.failed before run self.old.frames
            → Blamed result order run }
        ensures core { core_of self.new ≡ core_of self.old }
        ensures sends { self.new.sends ≡ self.old.sends }
        ensures inbox { self.new.inbox ≡ self.old.inbox }
        ensures input { self.new.input_ended ≡ self.old.input_ended }
        ensures closed { self.new.closed ≡ self.old.closed }
        ensures blames { self.new.blames ≡ self.old.blames }
    {
        self.frames.take(order, last)
    }

    /// A call begins; no order was lost. Without memory its order is set aside.
    fn begin(&mut self, id: StreamId, opening: OpeningCall<J>) -> OrderStep
        requires kept { self.old.inbox.has_lost ≡ false }
        requires none_aside { self.old.inbox.set_aside ≡ None }
        ensures begins { self.new.inbox.has_lost ≡ false
            → Begins W.contents W.failed (orders.Open id opening) self.old self.new }
        ensures waits { self.new.inbox.has_lost ≡ true
            → self.new.inbox.set_aside ≡ Some (orders.Open id opening) }
        ensures parts { self.new.inbox.has_lost ≡ true
            → Parts W.contents W.failed self.old self.new }
        ensures ring { self.new.inbox.ring ≡ self.old.inbox.ring }
        ensures way { in_name self.new.sends.home ≡ in_name self.old.sends.home }
        ensures one { self.new.inbox.has_lost ≡ false → self.new.inbox ≡ self.old.inbox }
        ensures input { self.new.input_ended ≡ self.old.input_ended }
        ensures closed { self.new.closed ≡ self.old.closed }
        ensures lost { result ≡ took.Lost → self.new.inbox.has_lost ≡ true }
        ensures goes { result ≢ took.Stops }
    {
        match begin(&mut self.frames, &mut self.sends, id, opening) {
            Ok(()) => OrderStep::One,
            Err(order) => {
                self.inbox.set_aside = Some(order);
                self.lose()
            }
        }
    }

    /// Takes an order after one that was lost. Any but a Close is lost too, and the sender of its
    /// call goes back.
    fn pass_over(&mut self, order: Order<J>, last: StreamId) -> OrderStep
        requires lost { self.old.inbox.has_lost ≡ true }
        requires none_aside { self.old.inbox.set_aside ≡ None }
        ensures passes { result ≡ took.One
            → PassesOver W.contents W.failed order self.old self.new }
        ensures inbox { result ≡ took.One → self.new.inbox ≡ self.old.inbox }

        // If the order waits, nothing else changes.
        ensures waits { result ≡ took.Early → self.new.inbox
            ≡ record self.old.inbox { set_aside = Some order } }
        ensures same { result ≡ took.Early → (self.new.sends.calls ≡ self.old.sends.calls)
            × (put_in self.new.sends.home ≡ put_in self.old.sends.home) }
        ensures frames { result ≡ took.Early → self.new.frames ≡ self.old.frames }
        ensures closed { result ≡ took.Early → self.new.closed ≡ self.old.closed }
        ensures either { result ≢ took.One → result ≡ took.Early }
        ensures heeds { self.new.closed ≡ (closes (order_of order) || self.old.closed) }
        ensures way { in_name self.new.sends.home ≡ in_name self.old.sends.home }
        ensures input { self.new.input_ended ≡ self.old.input_ended }
        ensures blames { self.new.blames ≡ self.old.blames }
    {
        match order {
            WriterOrder::Open(id, opening) => self.turn_back(id, opening),
            WriterOrder::Close => {
                self.close(last);
                OrderStep::One
            }
            _ => OrderStep::One,
        }
    }

    /// Hands back the sender of a call whose order is lost. Without a place for it the order waits.
    fn turn_back(&mut self, id: StreamId, opening: OpeningCall<J>) -> OrderStep
        ensures passes { result ≡ took.One
            → PassesOver W.contents W.failed (orders.Open id opening) self.old self.new }
        ensures inbox { result ≡ took.One → self.new.inbox ≡ self.old.inbox }
        ensures waits { result ≡ took.Early → self.new.inbox
            ≡ record self.old.inbox { set_aside = Some (orders.Open id opening) } }
        ensures put { result ≡ took.Early
            → put_in self.new.sends.home ≡ put_in self.old.sends.home }
        ensures either { result ≢ took.One → result ≡ took.Early }
        ensures way { in_name self.new.sends.home ≡ in_name self.old.sends.home }
        ensures calls { self.new.sends.calls ≡ self.old.sends.calls }
        ensures frames { self.new.frames ≡ self.old.frames }
        ensures input { self.new.input_ended ≡ self.old.input_ended }
        ensures closed { self.new.closed ≡ self.old.closed }
        ensures blames { self.new.blames ≡ self.old.blames }
    {
        match self.sends.turn_back(opening) {
            Ok(()) => OrderStep::One,
            Err(opening) => {
                self.inbox.set_aside = Some(WriterOrder::Open(id, opening));
                OrderStep::Early
            }
        }
    }

    /// No more orders come, after one that was lost. Answers whether the core took the Close.
    fn close(&mut self, last: StreamId) -> bool
        ensures passes { PassesOver W.contents W.failed orders.Close self.old self.new }
        ensures way { in_name self.new.sends.home ≡ in_name self.old.sends.home }
        ensures inbox { self.new.inbox ≡ self.old.inbox }
        ensures input { self.new.input_ended ≡ self.old.input_ended }
        ensures closed { self.new.closed ≡ true }
        ensures blames { self.new.blames ≡ self.old.blames }
    {
        self.closed = true;
        let taking = self.give(WriterOrder::Close, last);
        matches!(taking, OrderOutcome::Done)
    }

    /// Notes what ends by an order.
    fn note(&mut self, order: &WriterOrder<Sender<OutLane>>)
        ensures heeds { Heeds (order_of order.now) self.old self.new }
        ensures calls { SameCalls self.old.sends.calls.items self.new.sends.calls.items }
        ensures way { self.new.sends.home ≡ self.old.sends.home }
        ensures frames { self.new.frames ≡ self.old.frames }
        ensures inbox { self.new.inbox ≡ self.old.inbox }
        ensures blames { self.new.blames ≡ self.old.blames }
    {
        match order {
            WriterOrder::InputEnded => self.input_ended = true,
            WriterOrder::Close => self.closed = true,
            WriterOrder::Reset { id, .. } => self.sends.note_through(*id),
            _ => {}
        }
    }

    /// The writer has ended a stream, or at 0 the connection.
    fn end(&mut self, id: StreamId) -> OrderStep
        ensures calls { SameCalls self.old.sends.calls.items self.new.sends.calls.items }
        ensures way { self.new.sends.home ≡ self.old.sends.home }
        ensures frames { self.new.frames ≡ self.old.frames }
        ensures inbox { self.new.inbox ≡ self.old.inbox }
        ensures input { self.new.input_ended ≡ self.old.input_ended }
        ensures closed { self.new.closed ≡ self.old.closed }
        ensures blames { self.new.blames ≡ true → (id ≡ 0) ⊎ (self.old.blames ≡ true) }
        ensures spares { self.new.blames ≡ false → (id ≢ 0) × (self.old.blames ≡ false) }
        ensures stops { result ≡ took.Stops → self.new.blames ≡ true }
        ensures ends { result ≢ took.Lost }
        ensures whose { (ended : EndedStream) → result ≡ took.Ends ended → ended.id ≡ id }
    {
        if id == 0 {
            self.blames = true;
            return OrderStep::Stops;
        }
        self.sends.note_through(id);
        OrderStep::Ends(EndedStream { id })
    }

    /// An order was lost, or the answer to it.
    fn lose(&mut self) -> OrderStep
        ensures lost { result ≡ took.Lost }
        ensures rest { self.new ≡ record
            self.old { inbox = record self.old.inbox { has_lost = true } } }
    {
        self.inbox.has_lost = true;
        OrderStep::Lost
    }

    /// Ends the connection once an order was lost: by GOAWAY, if there is memory for it. Nothing is
    /// written after that.
    pub fn give_up(&mut self, last: LastAdmitted)
        requires lost { self.old.inbox.has_lost ≡ true }
        ensures leads { LeadsOn W.contents W.failed self.old self.new }
    {
        if !self.part(last.id()) {
            self.frames.stop();
        }
    }

    /// Gives the core a GOAWAY of the writer's own. Answers whether it was taken.
    fn part(&mut self, last: StreamId) -> bool
        ensures parts { Parts W.contents W.failed self.old self.new }
        ensures way { in_name self.new.sends.home ≡ in_name self.old.sends.home }
        ensures inbox { self.new.inbox ≡ self.old.inbox }
        ensures input { self.new.input_ended ≡ self.old.input_ended }
        ensures closed { self.new.closed ≡ self.old.closed }
    {
        let reason = Reason::Memory;
        let taking = self.give(WriterOrder::Goaway { last, reason }, last);
        matches!(taking, OrderOutcome::Done)
    }

    /// Wakes the worker of the call of a stream that the writer has ended. The call is cut before,
    /// so the worker sees that.
    pub fn wake(&self, id: StreamId) {
        self.sends.wake(id);
    }

    /// Wakes the workers that wait for room and have something of their calls in the buffer, since
    /// items were taken for that.
    pub fn wake_for_room(&self) {
        for id in self.frames.streams() {
            self.sends.wake_for_room(*id);
        }
    }

    /// Wakes all workers that wait for room. No call is live then, and they see that.
    pub fn wake_all(&self) {
        self.sends.wake_all();
    }
}

/// The stream that a GOAWAY of the writer's own names. Where it is None, none is made.
fn named(last: Option<LastAdmitted>) -> StreamId
    ensures { IfSome last (λ admitted. result ≡ admitted.id) }
{
    match last {
        Some(last) => last.id(),
        None => 0,
    }
}
