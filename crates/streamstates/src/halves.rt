//! The receiving halves of streams (RFC 9113, section 5.1).
//!
//! Streams begin in the order of their numbers: HEADERS on an odd number that isn't above the
//! greatest begun begin nothing. There is no state for skipped streams: what isn't in the map is
//! idle or skipped, and there the only lawful frame is HEADERS on an odd number above the greatest.
//! Once 4,096 streams were begun, what comes on an odd number above the greatest is dropped, and
//! nothing of it is kept. So memory is bounded, whatever a client sends. `HalfState` is public
//! since contracts see it.
//!
//! `cut` requires that the stream was begun. `on` says so for each answer that is neither Discard
//! nor an error of the connection (clause `begun`).

ghost use Rattle.std.specs.Prelude.{
  ◌≡◌,
  ◌<◌,
  ◌≤◌,
  ◌⊎◌,
  true,
  false,
  ◌&&◌,
  length,
  nat_eq,
  nat_lt,
  List,
  [],
  ◌∷◌,
  None,
  Some,
  IfOk,
  OnErr,
  IsSome,
  IsTrue,
  MatchOption,
};
ghost use Rattle.std.specs.Map.{lookup, set_value};
ghost use Rattle.streamstates.specs.declared.halves.FrameAction.TheVariants.{Open};
ghost use Rattle.streamstates.specs.Halves.{
  Event,
  Received,
  Cut,
  IsJudged,
  Stands,
  begins,
  begun,
  ends,
  half_after,
  half_of,
  is_error,
  may_be_unbegun,
  is_headers,
  is_odd,
  half_of_new,
  on_begun,
  verdict,
};

use h2frame::{ErrorCode, Flags, FrameHead, FrameKind, StreamId};
use indexmap::IndexMap;
use limits::MAX_STREAMS;
use std::alloc::{AllocError, Global};
use std::marker::Model;

/// The state of the receiving half of a begun stream.
#[derive(Clone, Copy, Debug, PartialEq, Eq)]
pub enum HalfState {
    /// More frames may come.
    Opened,
    /// The client sent its last frame.
    Ended,
    /// Either side reset the stream.
    Reset,
}

/// What is to become of a frame.
#[derive(Clone, Copy, Debug, PartialEq, Eq)]
pub enum FrameAction {
    /// It opens its stream.
    Open,
    /// It is lawful on its stream.
    Accept,
    /// It came on a stream that is over, or after the last one that is served, and is dropped.
    Discard,
    /// Its stream is to be reset with this code.
    StreamError(ErrorCode),
    /// The connection is to be ended with this code.
    ConnectionError(ErrorCode),
}

/// The receiving half of each stream, judged by the client's frames and the server's resets alone.
#[derive(Drop)]
pub struct Halves {
    greatest: StreamId,
    halves: IndexMap<StreamId, HalfState>,
}

impl Model for Halves {
    ghost use Rattle.streamstates.specs.Halves.{Streams, IsSmall};

    ghost Value = { Streams };

    ghost view = { λ s. record { greatest = s.greatest; halves = s.halves.entries } };

    ghost invariant = { λ s. IsSmall s.halves.entries };
}

impl Halves {
    /// A new connection, on which every stream is idle. It takes no memory yet.
    pub fn new(alloc: Global) -> Halves
        ensures stands { Stands [] result }
        ensures few { length result.halves ≤ MAX_STREAMS }
    {
        Halves {
            greatest: 0,
            halves: IndexMap::new(alloc),
        }
    }

    /// Judges a frame by what came before it. Only the HEADERS that open a stream take memory.
    pub fn on(&mut self, head: &FrameHead) -> Result<FrameAction, AllocError>
        requires { IsJudged head.now }
        ensures verdict { IfOk result
            (λ answer. (history : List Event) → Stands history self.old → answer
            ≡ verdict history head.now) }
        ensures follows { IfOk result
            (λ _. (history : List Event) → Stands history self.old
            → Stands (Received head.now ∷ history) self.new) }
        ensures error { IfOk result (λ answer. is_error answer ≡ true → self.new ≡ self.old) }
        ensures begun { IfOk result
            (λ answer. may_be_unbegun answer ≡ false → IsSome (half_of self.new head.now.stream)) }

        // A stream is kept only once it was begun, and no more than 4,096 are ever kept.
        ensures forgets { IfOk result
            (λ answer. half_of self.old head.now.stream ≡ None → (answer ≡ Open)
            ⊎ (self.new ≡ self.old)) }
        ensures few { length self.new.halves ≤ MAX_STREAMS }
        ensures unchanged { OnErr result (self.new ≡ self.old) }
        ensures memory { OnErr result
            ((history : List Event) → Stands history self.old
            → IsTrue (begins (Received head.now) (begun history))) }
    {
        if let Some(action) = judge_begun(&mut self.halves, head) {
            return Ok(action);
        }
        if !may_begin(head.stream, self.greatest) {
            return Ok(FrameAction::ConnectionError(ErrorCode::ProtocolError));
        }
        if self.halves.len() >= MAX_STREAMS {
            return Ok(FrameAction::Discard);
        }
        if head.kind != FrameKind::Headers {
            return Ok(FrameAction::ConnectionError(ErrorCode::ProtocolError));
        }
        self.halves.insert(head.stream, new_half(head))?;
        self.greatest = head.stream;
        Ok(FrameAction::Open)
    }

    /// Marks a begun stream as reset by the server.
    pub fn cut(&mut self, id: StreamId)
        requires { IsSome (half_of self.old id) }
        ensures follows { (history : List Event) → Stands history self.old
            → Stands (Cut id ∷ history) self.new }
        ensures few { length self.new.halves ≤ MAX_STREAMS }
    {
        if let Some(half) = self.halves.get_mut(&id) {
            *half = HalfState::Reset;
        }
    }
}

/// Judges a frame on a begun stream, and moves its half on. On another stream there is no verdict.
fn judge_begun(halves: &mut IndexMap<StreamId, HalfState>, head: &FrameHead) -> Option<FrameAction>
    ensures begun { MatchOption (lookup (nat_eq head.now.stream) halves.old.entries) (result ≡ None)
        (λ half. result ≡ Some (on_begun half head.now)) }
    ensures half { MatchOption (lookup (nat_eq head.now.stream) halves.old.entries)
        (halves.new.entries ≡ halves.old.entries) (λ half. halves.new.entries
        ≡ set_value (nat_eq head.now.stream) halves.old.entries
        (half_after half (Received head.now))) }
{
    let half = halves.get_mut(&head.stream)?;
    let action = half.verdict(head);
    *half = half.after(head);
    Some(action)
}

impl HalfState {
    /// The verdict of a frame on a stream with this half.
    fn verdict(self, head: &FrameHead) -> FrameAction
        ensures { result ≡ on_begun self head.now }
    {
        match (self, head.kind) {
            (HalfState::Reset, _) => FrameAction::Discard,
            (HalfState::Ended, FrameKind::Data | FrameKind::Headers) => {
                FrameAction::StreamError(ErrorCode::StreamClosed)
            }
            (HalfState::Opened, FrameKind::Headers) if !is_last(head) => {
                FrameAction::StreamError(ErrorCode::ProtocolError)
            }
            _ => FrameAction::Accept,
        }
    }

    /// The half after a frame.
    fn after(self, head: &FrameHead) -> HalfState
        ensures { result ≡ half_after self (Received head.now) }
    {
        match self {
            HalfState::Reset => HalfState::Reset,
            _ if head.kind == FrameKind::RstStream => HalfState::Reset,
            HalfState::Opened if is_last(head) => HalfState::Ended,
            half => half,
        }
    }
}

/// Whether the frame is the client's last on its stream.
fn is_last(head: &FrameHead) -> bool
    ensures { result ≡ ends (Received head.now) }
{
    match head.kind {
        FrameKind::Data | FrameKind::Headers => head.flags.contains(Flags::END_STREAM),
        _ => false,
    }
}

/// Whether HEADERS may begin this stream, after the greatest that was begun.
fn may_begin(id: StreamId, greatest: StreamId) -> bool
    ensures { result ≡ is_odd id && nat_lt greatest id }
{
    id % 2 == 1 && id > greatest
}

/// The half of a stream after the HEADERS that begin it.
fn new_half(head: &FrameHead) -> HalfState
    ensures { result ≡ half_of_new (Received head.now) }
{
    if is_last(head) {
        HalfState::Ended
    } else {
        HalfState::Opened
    }
}
