//! The writing thread of a connection. It runs a `Writing`, takes the lock for it, rings and waits.

ghost use Rattle.std.specs.Prelude.{
  ◌≡◌,
  ◌⊎◌,
  ℕ,
  List,
  [],
  ◌∷◌,
  Option,
  IfErr,
  IfOk,
  None,
  OnErr,
  OnOk,
  OnSome,
  ◌≢◌,
  true,
};
ghost use Rattle.lane.specs.Ring.{in_name, out_name, put_in, taken};
ghost use Rattle.writerloop.specs.declared.fill_end.FillEnd.TheVariants as filling;
ghost use Rattle.outwriter.specs.declared.control.WriterOrder.TheVariants as controls;
ghost use Rattle.writerloop.specs.declared.steps.WaitingOrder.TheVariants as waits;
ghost use Rattle.writerloop.specs.Ended.{HasStopped};
ghost use Rattle.writerloop.specs.Endings.{ending_told};
ghost use Rattle.writerloop.specs.Orders.{WaitsWithoutWindow};
ghost use Rattle.writerloop.specs.Written.{
  HasSent,
  IsFlushed,
  Led,
  LedOut,
  LeadsOn,
  LeadsOutTo,
  LeadsTo,
  Stays,
};
ghost use Rattle.connection.specs.Puts.{Closed, Ordered};

use crate::orders::{Orders, Route};
use crate::outlet::Outlet;
use callparts::{Naming, Order, ReturningCall};
use callworker::{Gate, STACK};
use connbook::{BookKey, LastAdmitted, StoppedBook};
use device::ConnWrite;
use lane::{RingIn, RingOut};
use outwriter::WriterOrder;
use std::alloc::Global;
use std::snapshot::Snapshot;
use std::sync::ledger::{Ledger, Share};
use std::sync::{Arc, Wait};
use std::thread::{Builder, Promise, PromisedHandle, Threads};
use std::time::Duration;
use writerloop::{
    AfterWrite, EndedStream, FillEnd, MarkedEnds, OrderStep, WaitingOrder, WriterResult, Writing,
};

/// How long the writer waits at most before it looks again, in milliseconds.
const STEP: u64 = 1000;

/// How many turns that write something come between two looks for calls that were left. Such a look
/// goes over each call.
const TURNS: u32 = 16;

/// What the writing thread of a connection has.
#[derive(Drop)]
struct Writer<A: Ledger, B: Ledger, C: Ledger, J: Naming, W: ConnWrite, G: Drop> {
    outlet: Outlet<A, B, C>,
    gate: Arc<G>,
    writing: Writing<J, W>,
    /// The book's word that the writer has stopped it, once it has.
    stopped: Option<StoppedBook>,
    /// How many more turns that write something come before the next look for calls that were left.
    turns: u32,
}

impl<A, B, C, J, W, G> Writer<A, B, C, J, W, G>
where
    A: Ledger,
    B: Ledger,
    C: Ledger,
    J: Naming,
    W: ConnWrite + Drop,
    G: Gate + Drop,
{
    /// Writes until no more is to be written.
    fn write(self, rt: &impl Wait) -> WriterParts<C, J, W>
        // The run granted as much credit on the connection as the share counts.
        ensures sent { (before : Option (List ℕ))
            → Led W.contents W.failed before self.outlet self.writing
            → HasSent W.contents W.failed before result.announced.amount
            (taken result.written.orders) result.written.senders
            (ending_told result.written.ending) result.written.device }
        ensures name { out_name result.written.orders ≡ out_name self.writing.inbox.ring }
        ensures way { in_name result.written.senders.sends.home ≡ in_name self.writing.sends.home }
        ensures parts { result.announced.parts ≡ C.parts }
    {
        let mut writer = self;
        'turns: for _ in rt.forever() {
            if writer.turn(rt) {
                return writer.part();
            }
        }
        unreachable!()
    }

    /// What is handed back once no more is to be written.
    // (kept out of its caller, whose frame is on the stack of each connection that lives)
    #[inline(never)]
    fn part(self) -> WriterParts<C, J, W>
        requires flushed { IsFlushed self.writing }
        ensures sent { (before : Option (List ℕ)) (credit : ℕ)
            → LedOut W.contents W.failed before credit self.writing
            → HasSent W.contents W.failed before credit
            (taken result.written.orders) result.written.senders
            (ending_told result.written.ending) result.written.device }
        ensures name { out_name result.written.orders ≡ out_name self.writing.inbox.ring }
        ensures way { in_name result.written.senders.sends.home ≡ in_name self.writing.sends.home }
        ensures share { (result.announced.amount ≡ self.outlet)
            × (result.announced.parts ≡ C.parts) }
    {
        let Writer {
            outlet,
            writing,
            ..
        } = self;
        WriterParts {
            written: writing.into_end(),
            announced: outlet.into_share(),
        }
    }

    /// Writes what can be written, and waits where that is nothing. Answers whether no more is to
    /// be written.
    fn turn(&mut self, rt: &impl Wait) -> bool
        ensures leads { LeadsTo W.contents W.failed self.old.outlet self.old.writing
            self.new.outlet self.new.writing }
        ensures over { result ≡ true → LeadsOutTo W.contents W.failed
            self.old.outlet self.old.writing
            self.new.outlet self.new.writing }
        ensures flushed { result ≡ true → IsFlushed self.new.writing }
    {
        let mark = self.outlet.shared().writer.mark();
        let (filled, is_silent) = self.write_once(rt);
        match self.writing.after_write(filled, is_silent) {
            AfterWrite::None => {
                self.reset_between(rt);
                return false;
            }
            AfterWrite::Over => return true,
            AfterWrite::StoppedOver => {
                self.stop(rt);
                self.tell_ended();
                return true;
            }
            AfterWrite::Stopped => {
                self.stop(rt);
                self.tell_ended();
            }
            AfterWrite::Idle => {
                self.idle(rt);
                self.reset_left(rt, mark);
                return false;
            }
        }
        self.wait(rt, mark);
        false
    }

    /// Resets the calls that were left without trailers. Where there is none it waits.
    fn reset_left(&mut self, rt: &impl Wait, mark: u64)
        ensures outlet { self.new.outlet ≡ self.old.outlet }
        ensures leads { LeadsOn W.contents W.failed self.old.writing self.new.writing }
    {
        if self.writing.reset_left() {
            return;
        }
        self.wait(rt, mark);
    }

    /// After a turn that wrote something: once in `TURNS` such turns takes the orders that wait,
    /// and resets the calls that were left without trailers.
    fn reset_between(&mut self, rt: &impl Wait)
        ensures outlet { self.new.outlet ≡ self.old.outlet }
        ensures leads { LeadsOn W.contents W.failed self.old.writing self.new.writing }
    {
        if self.turns > 0 {
            self.turns -= 1;
            return;
        }
        self.drain(rt);
        if !self.writing.reset_left() {
            self.turns = TURNS;
        }
    }

    /// Waits for what is to be written.
    fn wait(&self, rt: &impl Wait, mark: u64) {
        self.outlet
            .shared()
            .writer
            .wait_past(rt, mark, Duration::from_millis(STEP));
    }

    /// Takes the orders that wait, and writes a buffer's worth of frames. Answers why there aren't
    /// more, and whether there was none.
    fn write_once(&mut self, rt: &impl Wait) -> (FillEnd, bool)
        ensures leads { LeadsTo W.contents W.failed self.old.outlet self.old.writing
            self.new.outlet self.new.writing }
        ensures over { result.0 ≡ filling.Over → LeadsOutTo W.contents W.failed
            self.old.outlet self.old.writing
            self.new.outlet self.new.writing }
        ensures stopped { result.0 ≡ filling.Stopped → LeadsOutTo W.contents W.failed
            self.old.outlet self.old.writing
            self.new.outlet self.new.writing }
        ensures flushed { IsFlushed self.new.writing }
    {
        self.drain(rt);
        self.grant_due(rt);
        let filled = self.writing.fill();
        self.say_last(rt, filled);
        let is_silent = self.writing.is_flushed();
        self.writing.wake_for_room();
        self.release_all();
        self.flush(rt);
        (filled, is_silent)
    }

    /// Takes all orders that wait.
    fn drain(&mut self, rt: &impl Wait)
        ensures outlet { self.new.outlet ≡ self.old.outlet }
        ensures leads { LeadsOn W.contents W.failed self.old.writing self.new.writing }
    {
        let mut some = false;
        'orders: for _ in rt.forever() {
            if !self.take_next(rt) {
                if some {
                    self.tell_taken();
                }
                return;
            }
            some = true;
        }
    }

    /// Orders were taken: there is room for others. Wakes the call that one of them opened after
    /// the writer had stopped.
    fn tell_taken(&self) {
        self.outlet.shared().reader.ring();
        if self.outlet.shared().has_stopped() {
            self.writing.wake_all();
        }
    }

    /// Takes the next order. It may take none where none waits, or where one is set aside.
    fn take_next(&mut self, rt: &impl Wait) -> bool
        ensures outlet { self.new.outlet ≡ self.old.outlet }
        ensures leads { LeadsOn W.contents W.failed self.old.writing self.new.writing }
    {
        let waiting = self.writing.look();
        if waiting == WaitingOrder::Nothing {
            return false;
        }
        let last = self.prepare(rt, waiting);
        match self.writing.take_next(last) {
            OrderStep::Nothing => return false,
            OrderStep::Early => {
                self.outlet.shared().reader.ring();
                return false;
            }
            OrderStep::One => {}
            OrderStep::Ends(ended) => self.cut(rt, ended),
            OrderStep::Stops => self.stop(rt),
            OrderStep::Lost => self.give_up(rt),
        }
        true
    }

    /// Before an order is taken: warns the peer where it is a GOAWAY. Answers the greatest stream
    /// that was admitted, which a GOAWAY of the writer's own would name, where the order may lead to
    /// one.
    fn prepare(&mut self, rt: &impl Wait, waiting: WaitingOrder) -> Option<LastAdmitted>
        requires plain { waiting ≢ waits.Window → WaitsWithoutWindow self.old.writing.inbox }
        ensures asked { result ≡ None → WaitsWithoutWindow self.new.writing.inbox }
        ensures outlet { self.new.outlet ≡ self.old.outlet }
        ensures leads { LeadsOn W.contents W.failed self.old.writing self.new.writing }
    {
        match waiting {
            WaitingOrder::Window => Some(self.outlet.last(rt)),
            WaitingOrder::Goaway => {
                self.warn(rt);
                None
            }
            WaitingOrder::Nothing | WaitingOrder::Other => None,
        }
    }

    /// Warns the peer, where the server drains, before the GOAWAY that names the last call.
    fn warn(&mut self, rt: &impl Wait)
        ensures outlet { self.new.outlet ≡ self.old.outlet }
        ensures inbox { self.new.writing.inbox ≡ self.old.writing.inbox }
        ensures leads { LeadsOn W.contents W.failed self.old.writing self.new.writing }
    {
        if let Some(word) = self.outlet.closed(rt) {
            self.writing.warn(&word);
        }
    }

    /// The writer has ended a stream. Cuts its call, and only then wakes its worker, which so sees
    /// the cut.
    fn cut(&self, rt: &impl Wait, ended: EndedStream) {
        self.cut_in_book(rt, ended);
        self.writing.wake(ended.id());
    }

    /// Cuts the call of a stream that the writer has ended.
    fn cut_in_book(&self, rt: &impl Wait, ended: EndedStream) {
        let outlet = &self.outlet;
        let mut book = outlet.shared().book.lock(rt);
        self.writing.cut(&mut book, ended);
    }

    /// An order was lost for want of memory: nothing more is written but a GOAWAY.
    fn give_up(&mut self, rt: &impl Wait)
        requires lost { self.old.writing.inbox.has_lost ≡ true }
        ensures outlet { self.new.outlet ≡ self.old.outlet }
        ensures leads { LeadsOn W.contents W.failed self.old.writing self.new.writing }
    {
        let last = self.outlet.last(rt);
        self.writing.give_up(last);
        self.stop(rt);
    }

    /// Grants the peer the credit that is due, and warns the peer where the server drains.
    fn grant_due(&mut self, rt: &impl Wait)
        ensures leads { LeadsTo W.contents W.failed self.old.outlet self.old.writing
            self.new.outlet self.new.writing }
    {
        let Writer {
            outlet,
            writing,
            ..
        } = self;
        if let Some(word) = outlet.grant_due(rt, writing) {
            writing.warn(&word);
        }
    }

    /// Writes the last word of a writer that had no memory for a frame.
    fn say_last(&mut self, rt: &impl Wait, filled: FillEnd)
        ensures outlet { self.new.outlet ≡ self.old.outlet }
        ensures stays { Stays W.contents W.failed self.old.writing self.new.writing }
    {
        if filled != FillEnd::Stopped {
            return;
        }
        let last = self.outlet.last(rt);
        self.writing.say_last(last);
    }

    /// Hands back the senders of calls that are through.
    fn release_all(&mut self)
        ensures outlet { self.new.outlet ≡ self.old.outlet }
        ensures stays { Stays W.contents W.failed self.old.writing self.new.writing }
    {
        if self.writing.release_all() {
            self.outlet.shared().reader.ring();
        }
    }

    /// Writes what is in the buffer. The calls whose last frame is in it take no more DATA.
    fn flush(&mut self, rt: &impl Wait)
        ensures outlet { self.new.outlet ≡ self.old.outlet }
        ensures stays { Stays W.contents W.failed self.old.writing self.new.writing }
        ensures flushed { IsFlushed self.new.writing }
    {
        let marked = self.mark_ends(rt);
        match self.writing.flush(marked) {
            Ok(()) => self.tell_gate(),
            Err(_fault) => self.stop(rt),
        }
    }

    /// The calls whose last frame is in the buffer take no more DATA.
    fn mark_ends(&self, rt: &impl Wait) -> MarkedEnds
        ensures marked { result.streams.value.items ≡ self.now.writing.frames.ended.items }
    {
        let outlet = &self.outlet;
        let mut book = outlet.shared().book.lock(rt);
        self.writing.mark_ends(&mut book)
    }

    /// Reports to the gate the streams whose last frame was in the buffer.
    fn tell_gate(&self) {
        for id in self.writing.flushed_ends() {
            self.gate.trailers_written(*id);
        }
    }

    /// Nothing can be written now. Once the input has ended no window opens, so the calls that wait
    /// for one are cut. Where the writer has ended the connection, it reports to the gate that all
    /// is written.
    fn idle(&self, rt: &impl Wait) {
        self.tell_ended();
        let outlet = &self.outlet;
        let mut book = outlet.shared().book.lock(rt);
        self.writing.cut_stuck(&mut book);
    }

    /// Reports to the gate that the writer has ended the connection, once it has.
    fn tell_ended(&self) {
        if let Some(stopped) = &self.stopped {
            self.gate.writing_ended(stopped);
        }
    }

    /// Where the writer has ended nothing more is written: no call is live, and the workers that
    /// wait for room are woken to see that.
    fn stop(&mut self, rt: &impl Wait)
        ensures rest { self.new ≡ record self.old { stopped = self.new.stopped } }
    {
        let Some(stopped) = self.stop_book(rt) else {
            return;
        };
        self.outlet.shared().stop();
        self.writing.wake_all();
        self.stopped = Some(stopped);
    }

    /// Stops the book, where the writer has ended.
    fn stop_book(&self, rt: &impl Wait) -> Option<StoppedBook>
        ensures over { OnSome result (HasStopped self.now.writing) }
    {
        let outlet = &self.outlet;
        let mut book = outlet.shared().book.lock(rt);
        self.writing.stop(&mut book)
    }
}

/// What a writing thread hands back at its end, with the share in which announced credit counts.
#[derive(Drop)]
pub(crate) struct WriterParts<C: Ledger, J: Naming, W: ConnWrite + Drop> {
    pub(crate) written: WriterResult<J, W>,
    pub(crate) announced: Share<C>,
}

/// The device and the rings of a writer, as they were before. The writer's promise by them: it
/// wrote the frames of a lawful run, which obeyed the orders that it took and granted as much
/// credit on the connection as its share counts; and no sender is lost.
#[derive(Drop)]
pub(crate) struct WriterPromise<J: Naming, W: ConnWrite> {
    pub(crate) device: Snapshot<W>,
    pub(crate) orders: Snapshot<RingOut<Order<J>>>,
    pub(crate) home: Snapshot<RingIn<ReturningCall<J>>>,
}

impl<C: Ledger, J: Naming, W: ConnWrite + Drop> Promise<WriterParts<C, J, W>>
    for WriterPromise<J, W> {
    ghost kept_by = { λ begun r. (out_name r.written.orders ≡ out_name begun.orders.value)
        × (in_name r.written.senders.sends.home ≡ in_name begun.home.value)
        × HasSent W.contents W.failed (W.contents begun.device.value) r.announced.amount
        (taken r.written.orders) r.written.senders (ending_told r.written.ending)
        r.written.device
        × (r.announced.parts ≡ C.parts) };
}

/// The thread that writes, with its promise.
pub(crate) type WriterHand<C, J, W> = PromisedHandle<WriterParts<C, J, W>, WriterPromise<J, W>>;

/// Starts the thread that writes. If it can't be made, the one order is that the input has ended,
/// and the caller's thread writes what is to be written then. So Close, for which there may be no
/// memory, isn't the first order.
// (kept out of its caller, whose frame is on the stack of each connection that lives)
#[inline(never)]
pub(crate) fn start<A, B, C, J, N, W, G, R>(
    rt: R,
    alloc: Global,
    taking: RingOut<Order<J>>,
    home: RingIn<ReturningCall<J>>,
    outlet: Outlet<A, B, C>,
    gate: Arc<G>,
    key: BookKey,
    device: W,
    orders: &mut Orders<A, B, C, J, N>,
) -> Result<WriterHand<C, J, W>, WriterParts<C, J, W>>
where
    A: Ledger + Send + Sync + 'static,
    B: Ledger + Send + Sync + 'static,
    C: Ledger + Send + Sync + 'static,
    J: Naming + Send + Sync + 'static,
    N: Route,
    W: ConnWrite + Send + Drop + 'static,
    G: Gate + Send + Sync + Drop + 'static,
    R: Threads + Wait + Copy + Send + Sync + Drop + 'static,
    requires unused { (taken taking ≡ []) × (put_in home ≡ []) × (outlet ≡ 0) }
    ensures begun { IfOk result (λ writing. (writing.promise.orders.value ≡ taking)
        × (writing.promise.home.value ≡ home)
        × (W.contents writing.promise.device.value ≡ W.contents device)
        × (orders.new ≡ orders.old)) }
    ensures closed { OnErr result ((orders.new.backlog.items ≡ [])
        × (Ordered [] orders.old → Closed (controls.InputEnded ∷ []) orders.new)) }
    ensures own { IfErr result (λ parted. (out_name parted.written.orders ≡ out_name taking)
        × (parted.announced.parts ≡ C.parts)) }
    ensures sent { IfErr result (λ parted. HasSent W.contents W.failed (W.contents device)
        parted.announced.amount (taken parted.written.orders) parted.written.senders
        (ending_told parted.written.ending) parted.written.device) }
{
    let begun = WriterPromise {
        device: Snapshot::of(&device),
        orders: Snapshot::of(&taking),
        home: Snapshot::of(&home),
    };
    let writing = Writing::new(alloc, key, taking, home, device, &begun.device);
    let writer = Writer {
        outlet,
        gate,
        writing,
        stopped: None,
        turns: TURNS,
    };
    let write = move || -> WriterParts<C, J, W>
        ensures name { out_name result.written.orders ≡ out_name writer.writing.inbox.ring }
        ensures way { in_name result.written.senders.sends.home
            ≡ in_name writer.writing.sends.home }
        ensures sent { (before : Option (List ℕ))
            → Led W.contents W.failed before writer.outlet writer.writing
            → HasSent W.contents W.failed before result.announced.amount
            (taken result.written.orders) result.written.senders
            (ending_told result.written.ending) result.written.device }
        ensures parts { result.announced.parts ≡ C.parts }
    { writer.write(&rt) };
    match Builder::new()
        .stack_size(STACK)
        .spawn_with(&rt, begun, write)
    {
        Ok(handle) => Ok(handle),
        Err(refused) => {
            orders.put(&rt, WriterOrder::InputEnded);
            orders.close(&rt);
            let write_here = refused.value;
            Err(write_here())
        }
    }
}
