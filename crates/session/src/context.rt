//! What the frames of a connection mean, one after another (RFC 9113, sections 3.4, 4.3 and 6).

ghost use Rattle.std.specs.Prelude.{◌≡◌, ◌≢◌, ◌<◌, true, [], ◌∷◌, ◌++◌, None, Some, IfOk, IsSome};
ghost use Rattle.h2frame.specs.FrameList.{Whole, NoIncrement, IsLawful, answered, refused};
ghost use Rattle.h2frame.specs.declared.fault.FrameFault.TheVariants.{OutOfMemory};
ghost use Rattle.hpack_codec.specs.Table.{empty_table};
ghost use Rattle.reasons.specs.declared.Reason.TheVariants as reason;
ghost use Rattle.streamstates.specs.Halves.{Stands, half_of};
ghost use Rattle.session.specs.declared.context.Position.TheVariants.{Inside};
ghost use Rattle.session.specs.Streams.{is_accepted};
ghost use Rattle.session.specs.Frames.{fatal};
ghost use Rattle.session.specs.CoreStates.{
  IsSound,
  IsSoundNext,
  Advances,
  Begins,
  Collected,
  IsEnd,
  position_behind,
};

use crate::block::block_events;
use crate::event::InEvent;
use crate::header_block::{FragmentFault, HeaderBlock};
use crate::judge::{credit_head, frame_events, judge, judge_credit, refuse};
use h2frame::{Flags, Frame, FrameFault, FrameHead, FrameKind, StreamId};
use hpack_codec::Decoder;
use reasons::Reason;
use std::alloc::{AllocError, Global};
use streamstates::{FrameAction, Halves};

/// Where the frames after a connection's preface have led.
#[derive(Drop)]
pub enum Position {
    /// None came. The first has to be SETTINGS.
    First,
    /// No header block is unfinished.
    Between,
    /// A header block isn't whole yet. Its HEADERS had this verdict.
    Inside(HeaderBlock, FrameAction),
}

/// What is kept of the frames before.
#[derive(Drop)]
pub struct Context {
    pub alloc: Global,
    pub halves: Halves,
    pub decoder: Decoder,
}

impl Context {
    /// Before the first frame.
    pub fn new(alloc: Global) -> Context
        ensures halves { Stands [] result.halves }
        ensures decoder { result.decoder ≡ Some empty_table }
    {
        Context {
            alloc,
            halves: Halves::new(alloc),
            decoder: Decoder::new(alloc),
        }
    }

    /// Adds the events of the frame reader's next answer to those before it. No position follows
    /// the end of the connection.
    pub fn entry(
        &mut self,
        at: Position,
        answer: Result<Frame, FrameFault>,
        events: &mut Vec<InEvent>,
    ) -> Result<Option<Position>, AllocError>
        requires lawful { IfOk answer IsLawful }
        requires sound { IsSound at self.old.halves }
        ensures sound { IfOk result (λ next. IsSoundNext next self.new.halves) }
        ensures entry { IfOk result
            (λ next. answered (Some answer) ≢ []
            → Advances at self.old.halves self.old.decoder events.old.items
            (answered (Some answer)) next self.new.halves self.new.decoder events.new.items) }

        // A fault that is no entry of the frame list ends the connection.
        ensures none { IfOk result (λ next. answered (Some answer) ≡ [] → next ≡ None) }
        ensures fatal { IfOk result
            (λ _. answered (Some answer) ≡ [] → IsEnd answer events.old.items events.new.items) }
    {
        match answer {
            Ok(frame) => self.frame(at, frame, events),
            Err(fault) => self.fault(at, fault, events),
        }
    }

    /// The events of the next frame.
    fn frame(
        &mut self,
        at: Position,
        frame: Frame,
        events: &mut Vec<InEvent>,
    ) -> Result<Option<Position>, AllocError>
        requires lawful { IsLawful frame }
        requires sound { IsSound at self.old.halves }
        ensures sound { IfOk result (λ next. IsSoundNext next self.new.halves) }
        ensures follows { IfOk result
            (λ next. Advances at self.old.halves self.old.decoder events.old.items
            (Whole frame ∷ [])
            next self.new.halves self.new.decoder events.new.items) }
    {
        match at {
            Position::First => {
                if frame.head.kind == FrameKind::Settings {
                    self.begin(frame, events)
                } else {
                    end(Reason::First, events)
                }
            }
            Position::Between => self.begin(frame, events),
            Position::Inside(block, verdict) => self.go_on(block, verdict, &frame, events),
        }
    }

    /// A fault of the frame reader comes in place of the next frame.
    fn fault(
        &mut self,
        at: Position,
        fault: FrameFault,
        events: &mut Vec<InEvent>,
    ) -> Result<Option<Position>, AllocError>
        ensures sound { IfOk result (λ next. IsSoundNext next self.new.halves) }

        // A fault that is an entry of the frame list leads on as a frame does.
        ensures entry { IfOk result
            (λ next. refused fault ≢ []
            → Advances at self.old.halves self.old.decoder events.old.items (refused fault)
            next self.new.halves self.new.decoder events.new.items) }
        ensures none { IfOk result (λ next. refused fault ≡ [] → next ≡ None) }
        ensures fatal { IfOk result
            (λ _. refused fault ≡ [] → events.new.items
            ≡ events.old.items ++ fatal (reason.Frame fault)) }
        ensures memory { IfOk result (λ _. fault ≢ OutOfMemory) }
    {
        match fault {
            FrameFault::ZeroIncrement(id) if id != 0 => self.credit(at, id, events),
            FrameFault::OutOfMemory => Err(AllocError),
            _ => end(Reason::Frame(fault), events),
        }
    }

    /// The next frame is WINDOW_UPDATE without an increment on a stream.
    fn credit(
        &mut self,
        at: Position,
        id: StreamId,
        events: &mut Vec<InEvent>,
    ) -> Result<Option<Position>, AllocError>
        requires { 0 < id }
        ensures sound { IfOk result (λ next. IsSoundNext next self.new.halves) }
        ensures follows { IfOk result
            (λ next. Advances at self.old.halves self.old.decoder events.old.items
            (NoIncrement id ∷ [])
            next self.new.halves self.new.decoder events.new.items) }
    {
        match at {
            Position::First => return end(Reason::First, events),
            Position::Inside(_, _) => return end(Reason::Interrupted, events),
            Position::Between => {}
        }
        let verdict = judge_credit(&mut self.halves, id)?;
        refuse(verdict, &credit_head(id), events)?;
        Ok(between(events))
    }

    /// A frame that doesn't go on with a header block.
    fn begin(
        &mut self,
        frame: Frame,
        events: &mut Vec<InEvent>,
    ) -> Result<Option<Position>, AllocError>
        requires { IsLawful frame }
        ensures sound { IfOk result (λ next. IsSoundNext next self.new.halves) }
        ensures follows { IfOk result
            (λ next. Begins self.old.halves self.old.decoder events.old.items frame
            next self.new.halves self.new.decoder events.new.items) }
    {
        if frame.head.kind != FrameKind::Headers {
            frame_events(self.alloc, &mut self.halves, frame, events)?;
            return Ok(between(events));
        }
        let verdict = judge(&mut self.halves, &frame.head)?;
        if let FrameAction::ConnectionError(error) = verdict {
            return end(Reason::Stream(frame.head.kind, error), events);
        }
        if frame.head.flags.contains(Flags::END_HEADERS) {
            return self.whole(&frame.head, verdict, frame.content.as_slice(), events);
        }
        let block = HeaderBlock::begin(self.alloc, &frame)?;
        self.collect(block, verdict, events)
    }

    /// A frame inside a header block.
    fn go_on(
        &mut self,
        block: HeaderBlock,
        verdict: FrameAction,
        frame: &Frame,
        events: &mut Vec<InEvent>,
    ) -> Result<Option<Position>, AllocError>
        requires { IsSound (Inside block verdict) self.old.halves }
        ensures sound { IfOk result (λ next. IsSoundNext next self.new.halves) }
        ensures follows { IfOk result
            (λ next. Advances (Inside block verdict) self.old.halves self.old.decoder
            events.old.items (Whole frame.now ∷ [])
            next self.new.halves self.new.decoder events.new.items) }
    {
        let mut block = block;
        match block.add(frame) {
            Ok(()) => self.collect(block, verdict, events),
            Err(fault) => match fault {
                FragmentFault::OutOfMemory => Err(AllocError),
                _ => end(fault.reason(), events),
            },
        }
    }

    /// A header block gives its events once it is whole.
    fn collect(
        &mut self,
        block: HeaderBlock,
        verdict: FrameAction,
        events: &mut Vec<InEvent>,
    ) -> Result<Option<Position>, AllocError>
        requires { is_accepted verdict ≡ true → IsSome (half_of self.old.halves block.head.stream) }
        ensures sound { IfOk result (λ next. IsSoundNext next self.new.halves) }
        ensures follows { IfOk result
            (λ next. Collected block verdict self.old.halves self.old.decoder events.old.items
            next self.new.halves self.new.decoder events.new.items) }
    {
        if !block.is_whole() {
            return Ok(Some(Position::Inside(block, verdict)));
        }
        self.whole(block.head(), verdict, block.as_slice(), events)
    }

    /// A whole header block, by the head of its HEADERS and its bytes.
    fn whole(
        &mut self,
        head: &FrameHead,
        verdict: FrameAction,
        block: &[u8],
        events: &mut Vec<InEvent>,
    ) -> Result<Option<Position>, AllocError>
        requires { is_accepted verdict ≡ true → IsSome (half_of self.old.halves head.now.stream) }
        ensures sound { IfOk result (λ next. IsSoundNext next self.new.halves) }
        ensures follows { IfOk result
            (λ next. Collected (record { head = head.now; block = block.now; whole = true }) verdict
            self.old.halves self.old.decoder events.old.items next self.new.halves self.new.decoder
            events.new.items) }
    {
        block_events(
            self.alloc,
            &mut self.halves,
            &mut self.decoder,
            head,
            verdict,
            block,
            events,
        )?;
        Ok(between(events))
    }
}

/// The connection ends for this reason.
fn end(reason: Reason, events: &mut Vec<InEvent>) -> Result<Option<Position>, AllocError>
    ensures none { IfOk result (λ next. next ≡ None) }
    ensures events { IfOk result (λ _. events.new.items ≡ events.old.items ++ fatal reason) }
{
    events.push(InEvent::Fatal(reason))?;
    Ok(None)
}

/// The position after these events.
fn between(events: &[InEvent]) -> Option<Position>
    ensures { result ≡ position_behind events.now }
{
    match events.last() {
        Some(InEvent::Fatal(_)) => None,
        _ => Some(Position::Between),
    }
}
