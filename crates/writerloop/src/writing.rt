//! What the writing side of a connection has, and its steps.

ghost use Rattle.std.specs.Prelude.{◌≡◌};
ghost use Rattle.writerloop.specs.Keys.{Keys_set};
ghost use Rattle.writerloop.specs.Sent.{core_keys, keys};

mod in_book;
mod left_calls;
mod orders;
mod warning;

use crate::ended::MarkedEnds;
use crate::fill_end::FillEnd;
use crate::frames::Frames;
use crate::inbox::Inbox;
use crate::senders::{Senders, WriterResult};
use crate::sends::Sends;
use crate::standing::Standing;
use crate::steps::AfterWrite;
use crate::writer_ending::WriterEnding;
use callparts::{Naming, OpeningCall, Order, OutLane, ReturningCall};
use connbook::{BookKey, DueCredit, LastAdmitted};
use device::{ConnWrite, DeviceFault};
use h2frame::{ErrorCode, StreamId};
use lane::{RingIn, RingOut};
use std::alloc::Global;
use std::snapshot::Snapshot;

/// What the writing side of a connection has.
#[derive(Drop)]
pub struct Writing<J: Naming, W: ConnWrite> {
    /// By which it ends calls in the book.
    key: BookKey,
    inbox: Inbox<OpeningCall<J>>,
    frames: Frames<OutLane, W>,
    /// The calls whose senders the core has.
    sends: Sends<J>,
    /// Whether no more comes from the peer.
    input_ended: bool,
    /// Whether no more orders come.
    closed: bool,
    /// Whether the writer has ended the connection by itself, because a window of the peer's would
    /// be too large.
    blames: bool,
    ghost aligned: { keys sends.calls.items
        ≡ core_keys frames.core.sending.senders.items } by { Keys_set (keys sends.calls.items)
            (core_keys frames.core.sending.senders.items) },
}

impl<J: Naming, W: ConnWrite + Drop> Writing<J, W> {
    ghost use Rattle.std.specs.Prelude.{
      ◌≢◌,
      ◌+◌,
      ℕ,
      nat_eq,
      if◌then◌else◌,
      true,
      false,
      List,
      [],
      length,
      Option,
      None,
      Some,
      IfNone,
      IfSome,
      OnErr,
      OnOk,
    };
    ghost use Rattle.lane.specs.Ring.{put_in, taken};
    ghost use Rattle.h2frame.specs.declared.error_code.ErrorCode.{ErrorCode as Code};
    ghost use Rattle.h2frame.specs.declared.error_code.ErrorCode.TheVariants.{FlowControlError};
    ghost use Rattle.outwriter.specs.Cores.{takes_credit};
    ghost use Rattle.callparts.specs.declared.report.Ending.TheVariants as ending;
    ghost use Rattle.writerloop.specs.declared.fill_end.FillEnd.TheVariants as filling;
    ghost use Rattle.writerloop.specs.declared.standing.Standing.TheVariants as stands;
    ghost use Rattle.writerloop.specs.declared.steps.AfterWrite.TheVariants as rest;
    ghost use Rattle.writerloop.specs.Endings.{ending_told};
    ghost use Rattle.writerloop.specs.Written.{
      HasSent,
      IsFlushed,
      Led,
      LedOut,
      LeadsOn,
      LeadsOut,
      LeadsTo,
      Stays,
      rest_of,
    };

    /// A writer that has taken no order, handed no sender back, and written nothing to the device.
    pub fn new(
        alloc: Global,
        key: BookKey,
        orders: RingOut<Order<J>>,
        home: RingIn<ReturningCall<J>>,
        device: W,
        was: &Snapshot<W>,
    ) -> Writing<J, W>
        requires was { was.now.value ≡ device }
        requires none { taken orders ≡ [] }
        requires none_back { put_in home ≡ [] }
        ensures led { Led W.contents W.failed (W.contents was.now.value) 0 result }
        ensures ring { result.inbox.ring ≡ orders }
        ensures way { result.sends.home ≡ home }
    {
        let frames = Frames::new(alloc, device);
        Writing {
            key,
            inbox: Inbox::new(orders),
            frames,
            sends: Sends::new(alloc, home),
            input_ended: false,
            closed: false,
            blames: false,
        }
    }

    // ---- frames

    /// Whether credit that is granted on a stream counts: the order that opens it was taken, and
    /// none that resets it. On the connection, which is stream 0, credit always counts.
    pub fn takes_credit(&self, id: StreamId) -> bool
        ensures { result ≡ takes_credit self.now.frames.core id }
    {
        self.frames.core.takes_credit(id)
    }

    /// Owes the peer the credit that the book announces.
    pub fn grant(&mut self, credit: DueCredit)
        // On the connection just that much more credit was granted.
        ensures leads { (had has : ℕ)
            → has ≡ had + (if nat_eq credit.id 0 then credit.increment else 0)
            → LeadsTo W.contents W.failed had self.old has self.new }
    {
        self.frames.grant(credit.id(), credit.increment());
    }

    /// Puts frames into the buffer, until none comes or the longest might not fit.
    pub fn fill(&mut self) -> FillEnd
        ensures leads { LeadsOn W.contents W.failed self.old self.new }
        ensures over { result ≡ filling.Over → LeadsOut W.contents W.failed self.old self.new }
        ensures stopped { result ≡ filling.Stopped
            → LeadsOut W.contents W.failed self.old self.new }
    {
        self.frames.fill()
    }

    /// Puts the last word of a core that had no memory for a frame into the buffer: a GOAWAY of the
    /// writer's own.
    pub fn say_last(&mut self, last: LastAdmitted)
        ensures stays { Stays W.contents W.failed self.old self.new }
    {
        if self.frames.part(last.id()) {
            self.inbox.has_lost = true;
        }
    }

    /// Whether nothing is in the buffer.
    pub fn is_flushed(&self) -> bool
        ensures none { result ≡ true → self.now.frames.buffer.items ≡ [] }
        ensures some { result ≡ false → self.now.frames.buffer.items ≢ [] }
    {
        self.frames.buffer.is_empty()
    }

    /// Hands back the senders of calls that are through, before the peer can see their last frames.
    /// Answers whether there was one.
    pub fn release_all(&mut self) -> bool
        ensures stays { Stays W.contents W.failed self.old self.new }
    {
        let mut has_one = false;
        'ended: for index in 0..self.frames.ended.len() {
            if self.release_ended_at(index) {
                has_one = true;
            }
        }
        if self.release_through() {
            has_one = true;
        }
        has_one
    }

    /// Hands back the sender of the call whose END_STREAM is in the buffer, by its place there.
    fn release_ended_at(&mut self, index: usize) -> bool
        ensures stays { Stays W.contents W.failed self.old self.new }
    {
        match self.frames.ended.get(index).copied() {
            Some(id) => self.release(id),
            None => false,
        }
    }

    /// Hands back the senders of calls that were reset, and those for which there was no place
    /// before.
    fn release_through(&mut self) -> bool
        ensures stays { Stays W.contents W.failed self.old self.new }
    {
        if !self.sends.are_some_through() {
            return false;
        }
        self.sends.look_through();
        let mut has_one = false;
        let count = self.sends.len();
        'calls: for place in 1..=count {
            if self.release_through_at(count - place) {
                has_one = true;
            }
        }
        has_one
    }

    /// Hands back the sender of the call at this place, if it is to go back.
    fn release_through_at(&mut self, place: usize) -> bool
        ensures stays { Stays W.contents W.failed self.old self.new }
    {
        match self.sends.through_at(place) {
            Some(id) => self.release(id),
            None => false,
        }
    }

    /// Hands back the sender of a call, or notes that it is to go back: there may be no place for
    /// it, or the call isn't through because a full buffer has cut a header block of it.
    fn release(&mut self, id: StreamId) -> bool
        ensures stays { Stays W.contents W.failed self.old self.new }
    {
        if !self.sends.has_place() {
            self.sends.note_through(id);
            return false;
        }
        match self.frames.release(id) {
            Some(sender) => {
                self.sends.hand_back(id, sender);
                true
            }
            None => {
                self.sends.note_through(id);
                false
            }
        }
    }

    /// Writes what is in the buffer, once the ends of the calls that it ends are marked
    /// (`mark_ends`). After a fault nothing more is written, and the connection is to be stopped.
    pub fn flush(&mut self, marked: MarkedEnds) -> Result<(), DeviceFault>
        requires marked { marked.streams.value.items ≡ self.old.frames.ended.items }
        ensures stays { Stays W.contents W.failed self.old self.new }
        ensures flushed { IsFlushed self.new }
        ensures went { OnOk result (self.new.frames.standing ≢ stands.Broken) }
        ensures broken { OnErr result (self.new.frames.standing ≡ stands.Broken) }
    {
        self.frames.flush()
    }

    /// The streams whose END_STREAM the last flush wrote.
    pub fn flushed_ends(&self) -> &[StreamId]
        ensures { result.now ≡ self.now.frames.flushed_ends.items }
    {
        self.frames.flushed_ends.as_slice()
    }

    // ---- the end

    /// What the owner does once the buffer was filled and written. `is_silent` says that it was
    /// empty.
    pub fn after_write(&self, filled: FillEnd, is_silent: bool) -> AfterWrite
        ensures rest { result ≡ rest_of filled is_silent self.now.closed }
        ensures over { result ≡ rest.Over → filled ≡ filling.Over }
        ensures stopped { result ≡ rest.StoppedOver → filled ≡ filling.Stopped }
    {
        match filled {
            FillEnd::Full => AfterWrite::None,
            FillEnd::Idle if !is_silent => AfterWrite::None,
            FillEnd::Idle => AfterWrite::Idle,
            FillEnd::Stopped if self.closed => AfterWrite::StoppedOver,
            FillEnd::Stopped => AfterWrite::Stopped,
            FillEnd::Over => AfterWrite::Over,
        }
    }

    /// What is handed back once no more is to be written.
    pub fn into_end(self) -> WriterResult<J, W>
        requires flushed { IsFlushed self }
        // With the senders of all calls, which tell what was sent of each.
        ensures sent { (before : Option (List ℕ)) (credit : ℕ)
            → LedOut W.contents W.failed before credit self
            → HasSent W.contents W.failed before credit (taken result.orders) result.senders
            (ending_told result.ending) result.device }
        ensures ring { result.orders ≡ self.inbox.ring }
        ensures way { result.senders.sends.home ≡ self.sends.home }
    {
        let ending = self.ending();
        let Writing {
            inbox,
            frames,
            sends,
            ..
        } = self;
        let (core, device) = frames.into_parts();
        let Inbox {
            ring,
            set_aside,
            ..
        } = inbox;
        WriterResult {
            ending,
            device,
            orders: ring,
            senders: Senders {
                sends,
                core,
                aside: set_aside,
            },
        }
    }

    /// How the writer ended; nothing, where all was written.
    fn ending(&self) -> Option<WriterEnding>
        ensures memory { self.now.frames.standing ≡ stands.OutOfMemory
            → ending_told result ≡ Some ending.OutOfMemory }
        ensures broken { ending_told result ≡ Some ending.WriteFailed
            → self.now.frames.standing ≡ stands.Broken }
        ensures each { ending_told result ≢ Some ending.OutOfMemory
            → ending_told result ≢ Some ending.WriteFailed
            → self.now.inbox.has_lost ≡ false }
        ensures going { ending_told result ≢ Some ending.OutOfMemory
            → ending_told result ≢ Some ending.WriteFailed
            → self.now.frames.standing ≡ stands.Going }
        ensures blames { (code : Code) → ending_told result ≡ Some (ending.ProtocolError code)
            → (code ≡ FlowControlError) × (self.now.blames ≡ true) }
        ensures unblamed { ending_told result ≡ None → self.now.blames ≡ false }
    {
        if self.inbox.has_lost {
            return Some(WriterEnding::OutOfMemory);
        }
        match self.frames.standing() {
            Standing::OutOfMemory => Some(WriterEnding::OutOfMemory),
            Standing::Broken => Some(WriterEnding::WriteFailed),
            Standing::Going if self.blames => {
                Some(WriterEnding::ProtocolError(ErrorCode::FlowControlError))
            }
            Standing::Going => None,
        }
    }
}
