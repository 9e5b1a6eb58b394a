//! The reading core of a connection: its bytes go in, in any pieces, and their events come out.
//!
//! `feed` says what a piece leads to, for every list of bytes and events that led to the core
//! before. The loop that feeds the pieces names the list, and `laws::answers` then gives the
//! events. After `Fatal` no piece is kept.

ghost use Rattle.std.specs.Prelude.{
  ◌≡◌,
  List,
  ℕ,
  [],
  ◌++◌,
  length,
  true,
  IfOk,
  IsErrOf,
  IsOk,
  OnErr,
};
ghost use Rattle.std.specs.Io.KnownBytes.{Consumes, IsAtEnd, Keeps};
ghost use Rattle.device.specs.Bytes.{ConsumesSome};
ghost use Rattle.device.specs.declared.whole.ReadFault.TheVariants.{Device};
ghost use Rattle.session.specs.declared.event.InEvent.{InEvent as InEventOf};
ghost use Rattle.session.specs.declared.in_core.InStage.TheVariants.{Dead, Greeting, Reading};
ghost use Rattle.session.specs.CoreStates.{
  Reached,
  IsSound,
  IsSoundStage,
  Feeds,
  ReadsWaiting,
  core_of,
};

use crate::context::{Context, Position};
use crate::event::InEvent;
use crate::preface::Preface;
use device::{ConnRead, ReadFault};
use h2frame::FrameReader;
use reasons::Reason;
use std::alloc::{AllocError, Global};
use std::marker::Model;
use std::mem;

/// How many bytes are read at a time until the preface is whole.
const FIRST_PIECE: usize = 1_024;

/// What the bytes so far have come to.
#[derive(Drop)]
pub enum InStage {
    /// The preface isn't whole yet.
    Greeting(Preface),
    /// Frames are read.
    Reading(Position),
    /// The connection has ended, or the core ran out of memory. Nothing more is read.
    Dead,
}

/// Reads a connection.
#[derive(Drop)]
pub struct InCore {
    stage: InStage,
    reader: FrameReader,
    context: Context,
}

impl Model for InCore {
    ghost use Rattle.session.specs.CoreStates.{Core, IsSoundStage};

    ghost Value = { Core };

    ghost view = { λ c. record {
      stage = c.stage;
      waiting = c.reader;
      streams = c.context.halves;
      kept = c.context.decoder;
    } };

    ghost invariant = { λ c. IsSoundStage c.stage c.context.halves };
}

impl InCore {
    /// No bytes came yet. It takes no memory.
    pub fn new(alloc: Global) -> InCore
        ensures { Reached [] [] result }
    {
        InCore {
            stage: InStage::Greeting(Preface::new()),
            reader: FrameReader::new(alloc),
            context: Context::new(alloc),
        }
    }

    /// Reads once. Answers how many bytes came, none at the end of the input, and their events, as
    /// `feed` does. Once the preface is whole, what comes isn't copied: contents of 256 bytes and
    /// more are parts of the block that was read into.
    pub fn read_from<I: ConnRead>(
        &mut self,
        input: &mut I,
    ) -> Result<(usize, Vec<InEvent>), ReadFault>
        ensures events { IfOk result (λ given. (came : List ℕ) × (length came ≡ given.0)
            × Consumes (I.remaining input.old) (I.remaining input.new) came
            × ((bytes : List ℕ) (before : List InEventOf) → Reached bytes before self.old
            → Reached (bytes ++ came) (before ++ given.1.items) self.new)) }
        ensures end { IfOk result (λ given. given.0 ≡ 0 → IsAtEnd (I.remaining input.new)) }
        ensures prefix { OnErr result
            (ConsumesSome (I.remaining input.old) (I.remaining input.new)) }
        ensures kept { IsErrOf result Device
            → Keeps (I.remaining input.old) (I.remaining input.new) }
        ensures marked { IsErrOf result Device → I.failed input.new ≡ true }
        ensures unmarked { ¬ (IsErrOf result Device)
            → I.failed input.new ≡ I.failed input.old }
    {
        let mut events = Vec::new(self.context.alloc);
        let stage = mem::replace(&mut self.stage, InStage::Dead);
        let (next, count) = advance_from(
            stage,
            &mut self.reader,
            &mut self.context,
            input,
            &mut events,
        )?;
        self.stage = next;
        Ok((count, events))
    }

    /// The events of the next piece of the connection's bytes. After `Fatal` and after an `Err`
    /// there are none.
    pub fn feed(&mut self, piece: &[u8]) -> Result<Vec<InEvent>, AllocError>
        // However the bytes before the piece were cut, they and the piece have the events before
        // and these.
        ensures events { IfOk result (λ given. (bytes : List ℕ) (before : List InEventOf) →
            Reached bytes before self.old
            → Reached (bytes ++ piece.now) (before ++ given.items) self.new) }
        ensures dead { self.old.stage ≡ Dead → IsOk result
            × IfOk result (λ given. (given.items ≡ []) × (self.new.stage ≡ Dead)) }
        ensures err { OnErr result (self.new.stage ≡ Dead) }
    {
        let mut events = Vec::new(self.context.alloc);
        let stage = mem::replace(&mut self.stage, InStage::Dead);
        self.stage = advance(
            stage,
            &mut self.reader,
            &mut self.context,
            piece,
            &mut events,
        )?;
        Ok(events)
    }
}

/// What a stage comes to by one read. Answers how many bytes came, too.
fn advance_from<I: ConnRead>(
    stage: InStage,
    reader: &mut FrameReader,
    context: &mut Context,
    input: &mut I,
    events: &mut Vec<InEvent>,
) -> Result<(InStage, usize), ReadFault>
    requires { IsSoundStage stage context.old.halves }
    ensures feeds { IfOk result (λ next. (came : List ℕ) × (length came ≡ next.1)
        × Consumes (I.remaining input.old) (I.remaining input.new) came
        × Feeds (core_of stage reader.old context.old.halves context.old.decoder) came
        events.old.items
        (core_of next.0 reader.new context.new.halves context.new.decoder) events.new.items) }
    ensures end { IfOk result (λ next. next.1 ≡ 0 → IsAtEnd (I.remaining input.new)) }
    ensures prefix { OnErr result
        (ConsumesSome (I.remaining input.old) (I.remaining input.new)) }
    ensures kept { IsErrOf result Device
        → Keeps (I.remaining input.old) (I.remaining input.new) }
    ensures marked { IsErrOf result Device → I.failed input.new ≡ true }
    ensures unmarked { ¬ (IsErrOf result Device)
        → I.failed input.new ≡ I.failed input.old }
{
    match stage {
        InStage::Reading(position) => {
            let count = reader.read_from(input)?;
            let next = read_waiting(position, reader, context, events)?;
            Ok((next, count))
        }
        stage => {
            let mut piece = [0u8; FIRST_PIECE];
            let count = input.read(&mut piece)?;
            let next = advance(stage, reader, context, &piece[..count], events)?;
            Ok((next, count))
        }
    }
}

/// What a stage comes to by a piece.
fn advance(
    stage: InStage,
    reader: &mut FrameReader,
    context: &mut Context,
    piece: &[u8],
    events: &mut Vec<InEvent>,
) -> Result<InStage, AllocError>
    requires { IsSoundStage stage context.old.halves }
    ensures feeds { IfOk result
        (λ next. Feeds (core_of stage reader.old context.old.halves context.old.decoder) piece.now
        events.old.items
        (core_of next reader.new context.new.halves context.new.decoder) events.new.items) }
    ensures dead { stage ≡ Dead → IsOk result
        × IfOk result (λ next. (next ≡ Dead) × (events.new.items ≡ events.old.items)) }
{
    match stage {
        InStage::Greeting(preface) => greet(preface, reader, context, piece, events),
        InStage::Reading(position) => read(position, reader, context, piece, events),
        InStage::Dead => Ok(InStage::Dead),
    }
}

/// Takes what is due of the preface, and reads what follows it.
fn greet(
    preface: Preface,
    reader: &mut FrameReader,
    context: &mut Context,
    piece: &[u8],
    events: &mut Vec<InEvent>,
) -> Result<InStage, AllocError>
    ensures feeds { IfOk result
        (λ next. Feeds (core_of (Greeting preface) reader.old context.old.halves
        context.old.decoder) piece.now events.old.items
        (core_of next reader.new context.new.halves context.new.decoder) events.new.items) }
{
    let mut preface = preface;
    let Ok(rest) = preface.take(piece) else {
        events.push(InEvent::Fatal(Reason::Preface))?;
        return Ok(InStage::Dead);
    };
    if !preface.is_whole() {
        return Ok(InStage::Greeting(preface));
    }
    read(Position::First, reader, context, rest, events)
}

/// Reads the frames that a piece makes whole.
fn read(
    position: Position,
    reader: &mut FrameReader,
    context: &mut Context,
    piece: &[u8],
    events: &mut Vec<InEvent>,
) -> Result<InStage, AllocError>
    requires { IsSound position context.old.halves }
    ensures feeds { IfOk result
        (λ next. Feeds (core_of (Reading position) reader.old context.old.halves
        context.old.decoder) piece.now events.old.items
        (core_of next reader.new context.new.halves context.new.decoder) events.new.items) }
{
    let Ok(()) = reader.feed(piece) else {
        return Err(AllocError);
    };
    read_waiting(position, reader, context, events)
}

/// Reads the frames that are whole.
fn read_waiting(
    position: Position,
    reader: &mut FrameReader,
    context: &mut Context,
    events: &mut Vec<InEvent>,
) -> Result<InStage, AllocError>
    requires { IsSound position context.old.halves }
    ensures reads { IfOk result
        (λ next. ReadsWaiting position reader.old context.old.halves context.old.decoder
        events.old.items
        next reader.new context.new.halves context.new.decoder events.new.items) }
{
    let mut at = position;
    loop {
        let Some(answer) = reader.next() else {
            return Ok(InStage::Reading(at));
        };
        let Some(next) = context.entry(at, answer, events)? else {
            return Ok(InStage::Dead);
        };
        at = next;
    }
}
