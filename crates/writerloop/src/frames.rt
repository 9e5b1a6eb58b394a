//! The writer of a connection.
//!
//! `fill` stops where a frame of the greatest length might not fit, so the buffer never has more
//! bytes than seven of those. It is used again for the next frames.

ghost use Rattle.std.specs.Prelude.{
  ◌≡◌,
  ◌≢◌,
  ◌≤◌,
  ◌<◌,
  ◌+◌,
  ℕ,
  true,
  false,
  not,
  ◌&&◌,
  List,
  [],
  ◌∷◌,
  Option,
  Some,
  IsErr,
  OnOk,
  OnErr,
  OnSome,
  IfSome,
  IfNone,
  length,
  vec_len,
  vec_capacity,
};
ghost use Rattle.std.specs.Io.KnownBytes.{Appends};
ghost use Rattle.device.specs.Bytes.{AppendsPrefix};
ghost use Rattle.outwriter.specs.Calls.{TellFronts, TellReturned, TellOthers};
ghost use Rattle.outwriter.specs.Cores.{calls, lanes, IsUnused};
ghost use Rattle.outwriter.specs.Drains.{is_going_away, was_probed};
ghost use Rattle.outwriter.specs.Frames.{IsSound, ends_stream};
ghost use Rattle.outwriter.specs.LeftCalls.{GaveLeft, WasLeft, WasNotLeftAt};
ghost use Rattle.outwriter.specs.Polls.{coming};
ghost use Rattle.outwriter.specs.Releases.{IsThrough, HasNone, Releases};
ghost use Rattle.outwriter.specs.Steps.{Step, Taken, Granted, Returned, order_of, frames_of};
ghost use Rattle.writerloop.specs.declared.standing.Standing.TheVariants as stands;
ghost use Rattle.writerloop.specs.declared.fill_end.FillEnd.TheVariants as filled;
ghost use Rattle.writerloop.specs.OwnOrders.{
  own_control,
  own_order,
  parting,
  steps_of,
  Blamed,
  IsOfOrder,
  Stops,
};
ghost use Rattle.writerloop.specs.Spelled.{IsFront, IsAll};
ghost use Rattle.writerloop.specs.Wrote.{Wrote, WritesOn, BringsBy, Fills, Puts};

use crate::fill_end::FillEnd;
use crate::order_outcome::OrderOutcome;
use crate::standing::Standing;
use account::OutItem;
use callbox::Sender;
use device::{ConnWrite, DeviceFault, write_all};
use h2frame::{ErrorCode, Flags, FrameKind, StreamId};
use lane::Lane;
use outwriter::{Next, OutCore, OutFault, OutFrame, WriterOrder};
use reasons::Reason;
use std::alloc::{AllocError, Global};
use std::mem;
use zeros::ZeroBuffer;

/// The most bytes that the buffer has: those of seven frames of the greatest length.
const BUFFER: usize = 114_751;

/// The bytes of the longest frame, its head included (RFC 9113, sections 4.1 and 4.2).
const LONGEST_FRAME: usize = 16_393;

/// The writer of a connection.
#[derive(Drop)]
pub struct Frames<L: Lane<Item = OutItem>, W: ConnWrite> {
    pub(crate) core: OutCore<L>,
    /// The bytes of frames that weren't written yet.
    pub(crate) buffer: ZeroBuffer,
    /// The streams whose END_STREAM is in the buffer: from the next flush on they may have left.
    pub(crate) ended: Vec<StreamId>,
    /// The streams whose END_STREAM the last flush wrote.
    pub(crate) flushed_ends: Vec<StreamId>,
    /// The streams of which DATA or HEADERS are in the buffer, each once.
    pub(crate) streams: Vec<StreamId>,
    pub(crate) standing: Standing,
    pub(crate) device: W,
}

impl<L: Lane<Item = OutItem>, W: ConnWrite> Frames<L, W> {
    /// The writer of a connection on which nothing was written. It takes no memory yet.
    pub fn new(alloc: Global, device: W) -> Frames<L, W>
        ensures wrote { Wrote L.got W.contents W.failed (W.contents device) [] result }
        ensures going { result.standing ≡ stands.Going }
        ensures empty { result.buffer.items ≡ [] }
        ensures ended { result.ended.items ≡ [] }
        ensures senders { result.core.sending.senders.items ≡ [] }
    {
        Frames {
            core: OutCore::new(alloc),
            buffer: ZeroBuffer::new(alloc),
            ended: Vec::new(alloc),
            flushed_ends: Vec::new(alloc),
            streams: Vec::new(alloc),
            standing: Standing::Going,
            device,
        }
    }

    /// How it stands.
    pub fn standing(&self) -> Standing
        ensures { result ≡ self.now.standing }
    {
        self.standing
    }

    /// The streams of which DATA or HEADERS are in the buffer: the core took items of their calls.
    pub fn streams(&self) -> &[StreamId]
        ensures { result.now ≡ self.now.streams.items }
    {
        self.streams.as_slice()
    }

    /// The stream of the call whose sender is at this place, if the sender gave last that the call
    /// was left: so all else that the call gave was taken. It takes no memory.
    pub fn left_at(&mut self, place: usize) -> Option<StreamId>
        ensures left { IfSome result (λ id. WasLeft id
            (calls L.got self.new.core.sending.senders.items)) }
        ensures not_left { IfNone result (WasNotLeftAt place
            (calls L.got self.new.core.sending.senders.items)) }

        // No sender gives anything more, and nothing else changes.
        ensures calls { calls L.got self.new.core.sending.senders.items
            ≡ calls L.got self.old.core.sending.senders.items }
        ensures senders { lanes L.out_name self.new.core.sending.senders.items
            ≡ lanes L.out_name self.old.core.sending.senders.items }
        ensures wrote { WritesOn L.got W.contents W.failed [] self.old self.new }
        ensures rest { self.new ≡ record self.old { core = self.new.core } }
    {
        self.core.left_at(place)
    }

    /// Whether a GOAWAY that warns the peer may be sent: none was before (RFC 9113, section 6.8).
    pub fn may_leave(&self) -> bool
        ensures unsaid { result ≡ true → (before : Option (List ℕ)) (run : List Step)
            → Wrote L.got W.contents W.failed before run self.now
            → is_going_away run ≡ false }
        ensures value { result ≡ (not self.now.core.is_dead && not self.now.core.is_leaving) }
    {
        self.core.may_leave()
    }

    /// Whether a PING of this side's own may be the first.
    pub fn may_probe(&self) -> bool
        ensures unsaid { result ≡ true → (before : Option (List ℕ)) (run : List Step)
            → Wrote L.got W.contents W.failed before run self.now → was_probed run ≡ false }
        ensures value { result ≡ (not self.now.core.is_dead && not self.now.core.has_probed) }
    {
        self.core.may_probe()
    }

    /// Takes an order. Where the peer's window overflows by it, the writer ends the stream or the
    /// connection by an order of its own; `last` is the greatest stream that was looked at, which a
    /// GOAWAY then tells.
    pub fn take(
        &mut self,
        control: WriterOrder<Sender<L>>,
        last: StreamId,
    ) -> OrderOutcome<Sender<L>>
        // The order is the next step of the run, unless it is handed back, and the writer's own
        // order follows it.
        ensures wrote { IsUnused L.got control
            → WritesOn L.got W.contents W.failed
            (steps_of (order_of control) last result) self.old self.new }

        // The writer ends a stream or the connection exactly where a window would be over 2^31 - 1
        // bytes.
        ensures blamed { (before : Option (List ℕ)) (run : List Step)
            → Wrote L.got W.contents W.failed before run self.old → Blamed result control run }
        ensures whose { IsOfOrder result control }
        ensures stands { Stops result self.old.standing self.new.standing }

        // The sender of an Open that is taken comes after the others, and nothing else changes
        // them.
        ensures brings { BringsBy result control self.old.core.sending.senders.items
            self.new.core.sending.senders.items }
        ensures rest { self.new ≡ record
            self.old { core = self.new.core; standing = self.new.standing } }
    {
        match self.core.control(control) {
            Ok(()) => OrderOutcome::Done,
            Err(OutFault::OutOfMemory(Some(back))) => OrderOutcome::HandedBack(back),
            Err(OutFault::OutOfMemory(None)) => unreachable!(),
            Err(OutFault::PeerWindow(id)) => match self.end(id, last) {
                Ok(()) => OrderOutcome::Ended(id),
                Err(_e) => OrderOutcome::Unanswered(id),
            },
        }
    }

    /// Owes n bytes more of credit, on a stream, or on the connection where it is 0.
    pub fn grant(&mut self, id: StreamId, n: u32)
        ensures wrote { WritesOn L.got W.contents W.failed (Granted id n ∷ []) self.old self.new }
        ensures senders { self.new.core.sending.senders ≡ self.old.core.sending.senders }
        ensures rest { self.new ≡ record self.old { core = self.new.core } }
    {
        self.core.grant(id, n);
    }

    /// Gives back the sender of a call that is through: its stream isn't open any more, and no
    /// header block of it is unfinished. The call's last frames may still be in the buffer.
    pub fn release(&mut self, id: StreamId) -> Option<Sender<L>>
        // The next step of the run is that the sender is given back, with what it has given.
        ensures wrote { IfSome result
            (λ sender. WritesOn L.got W.contents W.failed
            (Returned id (L.got sender.rx) ∷ []) self.old self.new) }
        ensures releases { IfSome result
            (λ sender. Releases id sender self.old.core.sending.senders.items
            self.new.core.sending.senders.items) }
        ensures through { OnSome result (IsThrough id self.old.core) }
        ensures none { IfNone result (IsThrough id self.old.core
            → HasNone id self.old.core.sending.senders.items) }
        ensures unchanged { IfNone result (self.new ≡ self.old) }
        ensures lives { self.new.core.is_dead ≡ self.old.core.is_dead }
        ensures rest { self.new ≡ record self.old { core = self.new.core } }
    {
        self.core.release(id)
    }

    /// Puts frames into the buffer, until none comes or the longest might not fit. The buffer never
    /// has more than 114,751 bytes.
    pub fn fill(&mut self) -> FillEnd
        // Frames are the next steps of the run. Where none comes, all is written that can be.
        ensures wrote { Fills L.got (coming L.got L.ahead) W.contents W.failed
            (Some result) self.old self.new }

        // Each sender stays at its place, an end of the same lane, and none forgets that its call
        // was left.
        ensures senders { lanes L.out_name self.new.core.sending.senders.items
            ≡ lanes L.out_name self.old.core.sending.senders.items }
        ensures gave { (id : ℕ) → GaveLeft id (calls L.got self.old.core.sending.senders.items)
            → GaveLeft id (calls L.got self.new.core.sending.senders.items) }
        ensures room { length self.old.buffer.items ≤ 114751
            → length self.new.buffer.items ≤ 114751 }
        ensures device { self.new.device ≡ self.old.device }
        ensures left { self.new.flushed_ends ≡ self.old.flushed_ends }
        ensures goes { result ≢ filled.Stopped → self.new.standing ≡ stands.Going }
        ensures stopped { self.old.standing ≢ stands.Going
            → (result ≡ filled.Stopped) × (self.new ≡ self.old) }
    {
        match self.standing {
            Standing::Going => self.fill_on(),
            Standing::OutOfMemory | Standing::Broken => FillEnd::Stopped,
        }
    }

    /// Writes the whole buffer to the device. At a fault it has written a prefix, and the writer is
    /// broken: each later flush writes nothing and answers a fault.
    pub fn flush(&mut self) -> Result<(), DeviceFault>
        ensures wrote { WritesOn L.got W.contents W.failed [] self.old self.new }
        ensures ok { OnOk result
            (Appends (W.contents self.old.device)
            (W.contents self.new.device) self.old.buffer.items) }
        ensures prefix { OnErr result (self.old.standing ≢ stands.Broken
            → AppendsPrefix (W.contents self.old.device)
            (W.contents self.new.device) self.old.buffer.items) }
        ensures empty { OnOk result (self.new.buffer.items ≡ []) }
        ensures ended { OnOk result ((self.new.ended.items ≡ [])
            × (self.new.flushed_ends.items ≡ self.old.ended.items)) }
        ensures stands { OnOk result (self.new.standing ≡ self.old.standing) }
        ensures broken { OnErr result (self.new.standing ≡ stands.Broken) }
        ensures unmarked { OnOk result (W.failed self.new.device ≡ W.failed self.old.device) }
        ensures marked { OnErr result (self.old.standing ≢ stands.Broken
            → W.failed self.new.device ≡ true) }
        ensures core { self.new.core ≡ self.old.core }

        // What is broken stays as it is, its device too.
        ensures never_again { self.old.standing ≡ stands.Broken
            → (self.new ≡ self.old) × IsErr result }
    {
        if let Standing::Broken = self.standing {
            return Err(DeviceFault);
        }
        match write_all(&mut self.device, self.buffer.as_slice()) {
            Ok(()) => {
                self.buffer.clear();
                self.flushed_ends.clear();
                self.streams.clear();
                mem::swap(&mut self.flushed_ends, &mut self.ended);
                Ok(())
            }
            Err(fault) => {
                self.standing = Standing::Broken;
                Err(fault)
            }
        }
    }

    /// Makes no more frames, as without memory. An owner calls it who has no memory for an order.
    pub fn stop(&mut self)
        ensures wrote { WritesOn L.got W.contents W.failed [] self.old self.new }
        ensures stops { self.new.standing ≢ stands.Going }
        ensures dead { self.old.standing ≡ stands.Going → self.new.standing ≡ stands.OutOfMemory }
        ensures rest { self.new ≡ record self.old { standing = self.new.standing } }
    {
        if let Standing::Going = self.standing {
            self.standing = Standing::OutOfMemory;
        }
    }

    /// Puts the last word of a writer whose core ran out of memory into the buffer, once: GOAWAY
    /// with INTERNAL_ERROR (RFC 9113, section 6.8), if the core may still say one and there is room
    /// and memory for it. Answers whether it is there.
    pub fn part(&mut self, last: StreamId) -> bool
        // The order for it and then the GOAWAY are the next steps of the run; if it isn't there,
        // nothing is.
        ensures wrote { WritesOn L.got W.contents W.failed (parting last result) self.old self.new }
        ensures senders { self.new.core.sending.senders ≡ self.old.core.sending.senders }
        ensures dead { result ≡ true → (self.old.standing ≡ stands.OutOfMemory)
            × (self.old.core.is_dead ≡ true) }

        // After it nothing more is said.
        ensures once { result ≡ true → self.new.core.may_part ≡ false }
        ensures spent { self.old.core.may_part ≡ false → result ≡ false }
        ensures room { length self.old.buffer.items ≤ 114751
            → length self.new.buffer.items ≤ 114751 }
        ensures unsaid { result ≡ false → self.new.buffer.items ≡ self.old.buffer.items }
        ensures lives { self.new.core.is_dead ≡ self.old.core.is_dead }
        ensures rest { self.new ≡ record
            self.old { core = self.new.core; buffer = self.new.buffer } }
    {
        if self.standing != Standing::OutOfMemory || self.buffer.len() > BUFFER - LONGEST_FRAME {
            return false;
        }
        let Ok(()) = self.buffer.reserve(LONGEST_FRAME) else {
            return false;
        };
        let Some(frame) = self.core.farewell(last, Reason::Memory) else {
            return false;
        };
        frame.append_to(&mut self.buffer);
        true
    }

    /// The senders that are kept, and the device.
    pub fn into_parts(self) -> (Vec<(StreamId, Sender<L>)>, W)
        ensures senders { result.0 ≡ self.core.sending.senders }
        ensures device { result.1 ≡ self.device }

        // The frames of each call begin what the items spell that its sender gave, also where the
        // sender was given back. A stream that was never opened has no frame, a reset, or what a
        // Refuse asked for.
        ensures fronts { (before : Option (List ℕ)) (run : List Step)
            → Wrote L.got W.contents W.failed before run self
            → TellFronts run (calls L.got result.0.items) }
        ensures returned { (before : Option (List ℕ)) (run : List Step)
            → Wrote L.got W.contents W.failed before run self → TellReturned run }
        ensures others { (before : Option (List ℕ)) (run : List Step)
            → Wrote L.got W.contents W.failed before run self → TellOthers run }

        // The device got a prefix of the spelled frames of the run. Where no write failed and the
        // buffer is empty it got all of them, even if memory ran out.
        ensures prefix { (before : Option (List ℕ)) (run : List Step)
            → Wrote L.got W.contents W.failed before run self
            → IsFront (frames_of run) before (W.contents result.1) }
        ensures all { self.standing ≢ stands.Broken → self.buffer.items ≡ []
            → (before : Option (List ℕ)) (run : List Step)
            → Wrote L.got W.contents W.failed before run self
            → IsAll (frames_of run) before (W.contents result.1) }
    {
        let Frames { core, device, .. } = self;
        (core.into_senders(), device)
    }

    /// Ends the stream whose window overflowed, or at 0 the connection. Out of memory, the writer
    /// stops.
    fn end(&mut self, id: StreamId, last: StreamId) -> Result<(), AllocError>
        ensures wrote { OnOk result
            (WritesOn L.got W.contents W.failed
            (Taken (own_order last id) ∷ []) self.old self.new) }
        ensures still { OnErr result (WritesOn L.got W.contents W.failed [] self.old self.new) }
        ensures senders { self.new.core.sending.senders.items
            ≡ self.old.core.sending.senders.items }
        ensures stands { OnOk result (self.new.standing ≡ self.old.standing) }
        ensures stops { OnErr result (self.new.standing ≢ stands.Going) }
        ensures rest { self.new ≡ record
            self.old { core = self.new.core; standing = self.new.standing } }
    {
        match self.core.control(own_order(id, last)) {
            Ok(()) => Ok(()),
            Err(OutFault::OutOfMemory(_)) => {
                self.stop();
                Err(AllocError)
            }
            Err(OutFault::PeerWindow(_)) => unreachable!(),
        }
    }

    /// Puts frames into the buffer.
    fn fill_on(&mut self) -> FillEnd
        requires { self.old.standing ≡ stands.Going }
        ensures wrote { Fills L.got (coming L.got L.ahead) W.contents W.failed
            (Some result) self.old self.new }
        ensures senders { lanes L.out_name self.new.core.sending.senders.items
            ≡ lanes L.out_name self.old.core.sending.senders.items }
        ensures gave { (id : ℕ) → GaveLeft id (calls L.got self.old.core.sending.senders.items)
            → GaveLeft id (calls L.got self.new.core.sending.senders.items) }
        ensures room { length self.old.buffer.items ≤ 114751
            → length self.new.buffer.items ≤ 114751 }
        ensures device { self.new.device ≡ self.old.device }
        ensures left { self.new.flushed_ends ≡ self.old.flushed_ends }
        ensures goes { result ≢ filled.Stopped → self.new.standing ≡ stands.Going }
    {
        'frames: while self.buffer.len() <= BUFFER - LONGEST_FRAME {
            if let Some(filled) = self.add_frame() {
                return filled;
            }
        }
        FillEnd::Full
    }

    /// Puts the next frame into the buffer, or answers why there is none.
    fn add_frame(&mut self) -> Option<FillEnd>
        requires { self.old.standing ≡ stands.Going }
        ensures wrote { Fills L.got (coming L.got L.ahead) W.contents W.failed result self.old
            self.new }
        ensures senders { lanes L.out_name self.new.core.sending.senders.items
            ≡ lanes L.out_name self.old.core.sending.senders.items }
        ensures gave { (id : ℕ) → GaveLeft id (calls L.got self.old.core.sending.senders.items)
            → GaveLeft id (calls L.got self.new.core.sending.senders.items) }
        ensures grows { IfNone result (length self.old.buffer.items
            < length self.new.buffer.items) }
        ensures fits { length self.new.buffer.items ≤ length self.old.buffer.items + 16393 }
        ensures goes { result ≢ Some filled.Stopped → self.new.standing ≡ stands.Going }
        ensures device { self.new.device ≡ self.old.device }
        ensures left { self.new.flushed_ends ≡ self.old.flushed_ends }
    {
        // There is room for a frame before the core answers it, so that none is lost.
        let Ok(()) = make_room(&mut self.buffer, &mut self.ended, &mut self.streams) else {
            self.stop();
            return Some(FillEnd::Stopped);
        };
        match self.core.next_frame() {
            Ok(Next::Frame(frame)) => {
                self.put(frame);
                None
            }
            Ok(Next::Idle) => Some(FillEnd::Idle),
            Ok(Next::Over) => Some(FillEnd::Over),
            Err(_fault) => {
                self.stop();
                Some(FillEnd::Stopped)
            }
        }
    }

    /// Puts a frame into the buffer.
    fn put(&mut self, frame: OutFrame)
        requires sound { IsSound frame }
        requires room_in_buffer { 16393 ≤ self.old.buffer.spare }
        requires room { vec_len self.old.ended < vec_capacity self.old.ended }
        requires room_to_note { vec_len self.old.streams < vec_capacity self.old.streams }
        ensures puts { Puts frame self.old self.new }
        ensures fits { length self.new.buffer.items ≤ length self.old.buffer.items + 16393 }
        ensures left { self.new.flushed_ends ≡ self.old.flushed_ends }
    {
        frame.append_to(&mut self.buffer);
        let head = frame.head();
        if ends_stream(&frame) {
            self.ended.push_reserved(head.stream);
        }
        if carries_items(&frame) {
            note(&mut self.streams, head.stream);
        }
    }
}

/// Makes room for one more frame, and for one more stream in each list. A buffer without memory
/// gets all that it needs at once, so that it never moves.
fn make_room(
    buffer: &mut ZeroBuffer,
    ended: &mut Vec<StreamId>,
    streams: &mut Vec<StreamId>,
) -> Result<(), AllocError>
    ensures bytes { buffer.new.items ≡ buffer.old.items }
    ensures items { ended.new.items ≡ ended.old.items }
    ensures room_in_buffer { OnOk result (16393 ≤ buffer.new.spare) }
    ensures room { OnOk result (vec_len ended.new < vec_capacity ended.new) }
    ensures room_to_note { OnOk result (vec_len streams.new < vec_capacity streams.new) }
{
    let bytes = if buffer.is_empty() {
        BUFFER
    } else {
        LONGEST_FRAME
    };
    buffer.reserve(bytes)?;
    ended.reserve(1)?;
    streams.reserve(1)
}

/// Notes a stream, unless it is noted.
fn note(streams: &mut Vec<StreamId>, id: StreamId)
    requires room { vec_len streams.old < vec_capacity streams.old }
{
    if !streams.as_slice().contains(&id) {
        streams.push_reserved(id);
    }
}

/// Whether a frame has something of an item of a call.
fn carries_items(frame: &OutFrame) -> bool {
    matches!(frame.head().kind, FrameKind::Data | FrameKind::Headers)
}

/// The order that ends a stream, or at 0 the connection.
fn own_order<S>(id: StreamId, last: StreamId) -> WriterOrder<S>
    ensures { result ≡ own_control last id }
{
    if id == 0 {
        let reason = Reason::Window;
        return WriterOrder::Goaway { last, reason };
    }
    WriterOrder::Reset {
        id,
        code: ErrorCode::FlowControlError,
        written: true,
    }
}

/// Whether a frame ends its stream (RFC 9113, sections 6.1 and 6.2).
fn ends_stream(frame: &OutFrame) -> bool
    ensures { result ≡ ends_stream frame.now }
{
    let head = frame.head();
    match head.kind {
        FrameKind::Data | FrameKind::Headers => head.flags.contains(Flags::END_STREAM),
        _ => false,
    }
}
