//! Which frame is next.
//!
//! Streams that had something when they were last looked at take turns. Of the other open streams
//! one is looked at with each frame. A stream that a window holds takes no turns, so it costs the
//! others no more than that look.

ghost use Rattle.std.specs.Prelude.{
  ◌≡◌,
  ◌<◌,
  ℕ,
  List,
  true,
  false,
  None,
  Err,
  IfOk,
  IfErr,
  IfSome,
  IfNone,
};

use crate::control::OutFault;
use crate::out_core::OutCore;
use crate::out_frame::OutFrame;
use crate::sending::Sending;
use crate::states::StreamStates;
use crate::stream::{NextData, NextItem};
use account::OutItem;
use callbox::Sender;
use h2frame::StreamId;
use lane::Lane;
use std::alloc::AllocError;
use std::collections::VecDeque;

/// What a writer does next.
#[derive(Debug, Drop)]
pub enum Next {
    /// It writes this frame.
    Frame(OutFrame),
    /// Nothing can be written now.
    Idle,
    /// Nothing can be written any more.
    Over,
}

impl<L: Lane<Item = OutItem>> OutCore<L> {
    ghost use Rattle.outwriter.specs.declared.control.OutFault.TheVariants as out_fault;
    ghost use Rattle.outwriter.specs.declared.next.Next.TheVariants as next_kind;
    ghost use Rattle.h2frame.specs.declared.frame.Frame.{Frame as FrameOf};
    ghost use Rattle.outwriter.specs.Frames.{IsSound};
    ghost use Rattle.outwriter.specs.Cores.{Leads, LeadsNext, RestsNext, calls, lanes};
    ghost use Rattle.outwriter.specs.LeftCalls.{GaveLeft};
    ghost use Rattle.outwriter.specs.Polls.{coming};
    ghost use Rattle.outwriter.specs.Steps.{Step};

    /// The next frame, of at most 16,384 bytes. Once it was out of memory the core is dead, and
    /// answers that again. A field whose name or value has more than 4,294,967,295 bytes counts as
    /// want of memory.
    pub fn next_frame(&mut self) -> Result<Next, OutFault<Sender<L>>>
        // The frame is the next step of the run.
        ensures leads { LeadsNext L.got result self.old self.new }

        // The frame keeps the rules of its type, so that `write_frame` takes it.
        ensures sound { IfOk result (λ next. (frame : FrameOf) → next ≡ next_kind.Frame frame
            → IsSound frame) }
        ensures dead { self.old.is_dead ≡ true → result ≡ Err (out_fault.OutOfMemory None) }
        ensures lives { IfOk result (λ next. self.new.is_dead ≡ false) }
        ensures dies { IfErr result (λ fault. (fault ≡ out_fault.OutOfMemory None)
            × (self.new.is_dead ≡ true)) }
        ensures over { IfOk result (λ next. next ≡ next_kind.Over → self.new.closed ≡ true) }

        // Each sender stays at its place, an end of the same lane.
        ensures senders { lanes L.out_name self.new.sending.senders.items
            ≡ lanes L.out_name self.old.sending.senders.items }

        // No sender forgets that its call was left.
        ensures left { (id : ℕ) → GaveLeft id (calls L.got self.old.sending.senders.items)
            → GaveLeft id (calls L.got self.new.sending.senders.items) }

        // Where no frame comes, all was written that could be, including what was found ahead of
        // the senders. It is over exactly where a Close was taken; an InputEnded isn't enough.
        ensures rests { IfOk result (λ next. (run : List Step) → Leads L.got run self.old
            → RestsNext (coming L.got L.ahead) run next self.new) }
    {
        if self.is_dead {
            return Err(OutFault::OutOfMemory(None));
        }
        let may_part = self.sending.outbound.is_between();
        match self.sending.choose() {
            Ok(Some(frame)) => Ok(Next::Frame(frame)),
            Ok(None) if self.closed => Ok(Next::Over),
            Ok(None) => Ok(Next::Idle),
            Err(_e) => {
                self.is_dead = true;
                self.may_part = may_part;
                Err(OutFault::OutOfMemory(None))
            }
        }
    }
}

impl<L: Lane<Item = OutItem>> Sending<L> {
    ghost use Rattle.outwriter.specs.Frames.{IsSound};
    ghost use Rattle.outwriter.specs.Polls.{coming};
    ghost use Rattle.outwriter.specs.StreamLooks.{
      AllStuck,
      GetsQuiet,
      GetsStuck,
      Gives,
      HoldsOn,
      LooksAt,
      Picks,
      frame_in,
    };
    ghost use Rattle.outwriter.specs.RunState.{IsSpent, Progresses, IsBetween};

    /// Chooses the next frame: SETTINGS first; then the rest of a header block; what is due;
    /// credit; and then the streams.
    pub(crate) fn choose(&mut self) -> Result<Option<OutFrame>, AllocError>
        ensures sound { IfOk result (λ o. IfSome o IsSound) }
        ensures frame { IfOk result (λ o. Progresses o self.old.outbound self.new.outbound) }
        ensures spent { IfOk result (λ o. IfNone o (IsSpent self.new.outbound)) }
        ensures served { IfOk result (λ o. HoldsOn L.got o self.old self.new) }
        ensures gives { Gives L.got L.out_name self.old self.new }
        ensures quiet { IfOk result
            (λ o. IfNone o (GetsQuiet L.got (coming L.got L.ahead) self.old self.new)) }
    {
        if self.outbound.gone {
            return Ok(None);
        }
        if !self.outbound.begun {
            return Ok(Some(self.outbound.first_frame()));
        }
        if let Some(frame) = self.outbound.own_frame()? {
            return Ok(Some(frame));
        }
        self.stream_frame()
    }

    /// A frame of an open stream: of one out of turn, so that no stream is overlooked, or else of
    /// the first in turn that has one.
    fn stream_frame(&mut self) -> Result<Option<OutFrame>, AllocError>
        requires { IsBetween self.old.outbound }
        ensures picks { IfOk result (λ o. Picks L.got o self.old self.new) }
        ensures gives { Gives L.got L.out_name self.old self.new }
        ensures quiet { IfOk result
            (λ o. IfNone o (AllStuck L.got (coming L.got L.ahead) self.old self.new)) }
    {
        if let Some(frame) = self.frame_out_of_turn()? {
            return Ok(Some(frame));
        }
        if let Some(frame) = self.frame_in_turn()? {
            return Ok(Some(frame));
        }
        self.frame_of_any()
    }

    /// A frame of the stream at the cursor, unless the stream is in the queue. Where all senders'
    /// streams are in the queue, none is out of turn.
    fn frame_out_of_turn(&mut self) -> Result<Option<OutFrame>, AllocError>
        requires { IsBetween self.old.outbound }
        ensures picks { IfOk result (λ o. Picks L.got o self.old self.new) }
        ensures gives { Gives L.got L.out_name self.old self.new }
    {
        if self.ready.len() >= self.senders.len() {
            return Ok(None);
        }
        let next = if self.cursor < self.senders.len() {
            self.cursor
        } else {
            0
        };
        self.cursor = next.saturating_add(1);
        let id = match self.senders.get(next) {
            Some((id, _)) if self.outbound.states.waits(*id) => *id,
            _ => return Ok(None),
        };
        self.frame_of(id)
    }

    /// A frame of the first stream in the queue that has one. That stream goes to the end of the
    /// queue; those that have none leave it.
    fn frame_in_turn(&mut self) -> Result<Option<OutFrame>, AllocError>
        requires { IsBetween self.old.outbound }
        ensures picks { IfOk result (λ o. Picks L.got o self.old self.new) }
        ensures gives { Gives L.got L.out_name self.old self.new }
    {
        for _ in 0..self.ready.len() {
            let Some(id) = self.ready.pop_front() else {
                return Ok(None);
            };
            if let Some(frame) = self.look(id)? {
                self.ready.push_back(id)?;
                return Ok(Some(frame));
            }
            self.outbound.states.turn(id, false);
        }
        Ok(None)
    }

    /// A frame of the first open stream that has one, in the order of the senders. Each open stream
    /// has its own.
    fn frame_of_any(&mut self) -> Result<Option<OutFrame>, AllocError>
        requires { IsBetween self.old.outbound }
        ensures picks { IfOk result (λ o. Picks L.got o self.old self.new) }
        ensures gives { Gives L.got L.out_name self.old self.new }
        ensures quiet { IfOk result
            (λ o. IfNone o (AllStuck L.got (coming L.got L.ahead) self.old self.new)) }
    {
        for index in 0..self.senders.len() {
            let id = match self.senders.get(index) {
                Some((id, _)) => *id,
                None => return Ok(None),
            };
            if let Some(frame) = self.frame_of(id)? {
                return Ok(Some(frame));
            }
        }
        Ok(None)
    }

    /// A frame of this stream, which takes turns from then on.
    fn frame_of(&mut self, id: StreamId) -> Result<Option<OutFrame>, AllocError>
        requires { IsBetween self.old.outbound }
        ensures picks { IfOk result (λ o. Picks L.got o self.old self.new) }
        ensures gives { Gives L.got L.out_name self.old self.new }
        ensures quiet { IfOk result
            (λ o. IfNone o (GetsStuck L.got (coming L.got L.ahead) id self.old self.new)) }
    {
        let Some(frame) = self.look(id)? else {
            return Ok(None);
        };
        take_turns(&mut self.outbound.states, &mut self.ready, id)?;
        Ok(Some(frame))
    }

    /// A frame of this stream, if it is open and has one that may be written now. A message without
    /// bytes has no frame. More than 4,294,967,295 such messages, one after another, count as want
    /// of memory.
    fn look(&mut self, id: StreamId) -> Result<Option<OutFrame>, AllocError>
        requires { IsBetween self.old.outbound }
        ensures picks { IfOk result (λ o. Picks L.got o self.old self.new) }
        ensures gives { Gives L.got L.out_name self.old self.new }
        ensures quiet { IfOk result
            (λ o. IfNone o (GetsStuck L.got (coming L.got L.ahead) id self.old self.new)) }
    {
        for _ in 0..u32::MAX {
            match self.look_once(id)? {
                NextData::Frame(frame) => return Ok(Some(frame)),
                NextData::Nothing => return Ok(None),
                NextData::Empty => {}
            }
        }
        Err(AllocError)
    }

    /// A frame of what is next on this stream, or that this is a message without bytes.
    fn look_once(&mut self, id: StreamId) -> Result<NextData, AllocError>
        requires { IsBetween self.old.outbound }
        ensures picks { IfOk result (λ l. Picks L.got (frame_in l) self.old self.new) }
        ensures gives { Gives L.got L.out_name self.old self.new }
        ensures looks { IfOk result
            (λ l. LooksAt L.got (coming L.got L.ahead) id l self.old self.new) }
    {
        let found = self
            .outbound
            .states
            .next_on(id, &mut self.senders, &mut self.outbound.encoder)?;
        match found {
            NextItem::Nothing => Ok(NextData::Nothing),
            NextItem::Message(looked) => Ok(looked),
            NextItem::Block { bytes, ends } => {
                Ok(NextData::Frame(self.outbound.headers_frame(id, ends, bytes)?))
            }
        }
    }
}

ghost use Rattle.outwriter.specs.OpenStreams.{SameHands};
ghost use Rattle.outwriter.specs.States.{StandAs, open_at as open_of};

/// Puts a stream after all others that take turns, if it is still open.
fn take_turns(
    states: &mut StreamStates,
    ready: &mut VecDeque<StreamId>,
    id: StreamId,
) -> Result<(), AllocError>
    ensures stands { StandAs states.old states.new }
    ensures hands { SameHands (open_of states.old) (open_of states.new) }
{
    if states.turn(id, true) {
        ready.push_back(id)?;
    }
    Ok(())
}
