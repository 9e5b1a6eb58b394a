//! Reading frames from bytes that come in pieces.
//!
//! The reader keeps no mark of a fault. The faulty bytes stay at the front, and each call judges
//! them again, in constant time. What is fed after them isn't kept.
//!
//! `read_from` reads into the reader's own block, so that the contents of what was read aren't
//! copied.
//!
//! A content shares the block that the reader's bytes stand in, and holds it as long as it is held
//! itself. So one of few bytes is copied, into a small block that it shares with others of few
//! bytes: what waits to be taken holds at most some hundred times its own bytes, and where all of
//! them wait, little more than these.
//!
//! A ZeroIncrement of a stream is the entry `NoIncrement`; `answered` says which answers are
//! entries.

ghost use Rattle.std.specs.Prelude.{
  ◌≡◌,
  ◌≢◌,
  ◌+◌,
  ◌^◌,
  ◌<◌,
  ◌≤◌,
  ◌↔◌,
  List,
  ℕ,
  [],
  ◌∷◌,
  ◌++◌,
  length,
  take,
  drop,
  true,
  Some,
  Err,
  IsNone,
  IfNone,
  IfOk,
  IfErr,
  IfSome,
  IsErrOf,
  OnOk,
  OnErr,
  ◌⊎◌,
};
ghost use Rattle.std.specs.Io.KnownBytes.{Consumes, IsAtEnd, Keeps};
ghost use Rattle.device.specs.declared.whole.ReadFault.TheVariants.{Device};
ghost use Rattle.h2frame.specs.FrameList.{
  Entry,
  Whole,
  Joined,
  IsUnfinished,
  IsFaulty,
  IsLawful,
  answered,
  HasCause,
};
ghost use Rattle.h2frame.specs.Reading.{IsSpelledAt, IsStep};

use crate::frame::lacks_increment;
use crate::room::{BLOCK, FIRST_BLOCK, make_room, read_into};
use crate::small::{SMALL_BLOCK, SmallContents};
use crate::span::{HEAD_LEN, Span, span_at};
use crate::{Frame, FrameFault, FrameKind};
use bytes::{Bytes, BytesMut};
use device::{ConnRead, ReadFault};
use std::alloc::{AllocError, Global};
use std::marker::Model;

/// From how many bytes on a piece gets a block of its own, if the buffer has no room.
const LARGE_PIECE: usize = 4096;

/// Reads the frames of bytes that come in pieces, from the end of the connection's preface on. A
/// clause sees the bytes that were fed and aren't used up.
#[derive(Drop)]
pub struct FrameReader {
    buffer: BytesMut,
    small: SmallContents,
    /// A read filled the room that it had.
    is_large: bool,
}

impl Model for FrameReader {
    ghost use Rattle.std.specs.Prelude.{List, ℕ};

    ghost Value = { List ℕ };

    ghost view = { λ reader. reader.buffer.items };
}

impl FrameReader {
    /// A reader that was fed nothing yet.
    pub fn new(alloc: Global) -> FrameReader
        ensures { result ≡ [] }
    {
        FrameReader {
            buffer: BytesMut::new(alloc),
            small: SmallContents::new(alloc),
            is_large: false,
        }
    }

    /// Takes the next piece of the bytes, and copies it once. With a fault at the front it takes
    /// nothing any more, and answers the fault.
    pub fn feed(&mut self, piece: &[u8]) -> Result<(), FrameFault>
        ensures ok { OnOk result (self.new ≡ self.old ++ piece.now) }

        // However the bytes before were cut, the piece is added as if all had come at once.
        ensures list { OnOk result ((bytes : List ℕ) (entries : List Entry) →
            Joined bytes entries self.old → Joined (bytes ++ piece.now) entries self.new) }

        // A fault at the front is answered and stays, and nothing of the piece is kept.
        ensures faulty { (fault : FrameFault) →
            IsFaulty fault self.old → (result ≡ Err fault) × (self.new ≡ self.old) }
        ensures err { OnErr result (self.new ≡ self.old) }
        ensures cause { IfErr result
            (λ fault. (fault ≡ FrameFault.OutOfMemory) ⊎ IsFaulty fault self.old) }
    {
        if let Some(fault) = standing_fault(self.buffer.as_slice()) {
            return Err(fault);
        }
        extend(&mut self.buffer, piece)?;
        Ok(())
    }

    /// Reads once, and takes what came as `feed` does, without a copy. Answers how many bytes came:
    /// none at the end of the input. A read has room for 1,024 bytes until one fills that, then for
    /// 32,832 to 65,664. After an `Err` nothing was read.
    pub fn read_from<I: ConnRead>(&mut self, input: &mut I) -> Result<usize, ReadFault>
        ensures ok { IfOk result (λ n. (came : List ℕ) × (length came ≡ n)
            × Consumes (I.remaining input.old) (I.remaining input.new) came
            × (self.new ≡ self.old ++ came)
            × ((bytes : List ℕ) (entries : List Entry) →
            Joined bytes entries self.old → Joined (bytes ++ came) entries self.new)) }
        ensures end { IfOk result (λ n. n ≡ 0 → IsAtEnd (I.remaining input.new)) }
        ensures err { OnErr result ((self.new ≡ self.old)
            × Keeps (I.remaining input.old) (I.remaining input.new)) }
        ensures marked { IsErrOf result Device → I.failed input.new ≡ true }
        ensures unmarked { ¬ (IsErrOf result Device)
            → I.failed input.new ≡ I.failed input.old }
    {
        let block = if self.is_large { BLOCK } else { FIRST_BLOCK };
        let most = make_room(&mut self.buffer, block)?;
        let count = read_into(&mut self.buffer, most, input)?;
        self.is_large = self.is_large || count == most;
        Ok(count)
    }

    /// The next frame or fault of the bytes so far, or nothing while none is there. A frame's
    /// content shares the reader's memory, or is a copy where it has under 256 bytes. After
    /// `OutOfMemory`, which only a content that isn't empty can meet, it may be called again.
    pub fn next(&mut self) -> Option<Result<Frame, FrameFault>>
        // The answer is the next entry after those before it, however the bytes were cut.
        ensures list { (bytes : List ℕ) (entries : List Entry) →
            Joined bytes entries self.old → Joined bytes (entries ++ answered result) self.new }
        ensures unfinished { IsNone result ↔ IsUnfinished self.old }

        ensures lawful { IfSome result (λ r. IfOk r IsLawful) }
        ensures stream { (stream : ℕ) →
            result ≡ Some (Err (FrameFault.ZeroIncrement stream)) → stream < 2 ^ 31 }

        // A fault at the front is answered, and stays.
        ensures repeats { (fault : FrameFault) →
            IsFaulty fault self.old → (result ≡ Some (Err fault)) × (self.new ≡ self.old) }
        ensures cause { IfSome result (λ r. IfErr r (λ fault. HasCause fault self.old)) }
        ensures kept { answered result ≡ [] → self.new ≡ self.old }
    {
        step(&mut self.buffer, &mut self.small)
    }
}

/// Appends the piece, or changes nothing.
fn extend(buffer: &mut BytesMut, piece: &[u8]) -> Result<(), AllocError>
    ensures ok { OnOk result (buffer.new.items ≡ buffer.old.items ++ piece.now) }
    ensures err { OnErr result (buffer.new.items ≡ buffer.old.items) }
{
    if piece.len() < LARGE_PIECE || buffer.try_reclaim(piece.len()) {
        return buffer.extend_from_slice(piece);
    }
    *buffer = joined(buffer, piece)?;
    Ok(())
}

/// The bytes of the buffer and of the piece, in a new block without further room. A buffer that
/// grows would fill its new room with zeros first.
fn joined(buffer: &BytesMut, piece: &[u8]) -> Result<BytesMut, AllocError>
    ensures { IfOk result (λ all. all.items ≡ buffer.now.items ++ piece.now) }
{
    let alloc = *buffer.allocator();
    let mut all = Vec::with_capacity(alloc, buffer.len().saturating_add(piece.len()))?;
    all.extend_from_slice(buffer.as_slice())?;
    all.extend_from_slice(piece)?;
    Ok(BytesMut::from_vec(all))
}

/// The fault at the front, after which nothing can be read.
fn standing_fault(bytes: &[u8]) -> Option<FrameFault>
    ensures none { IfNone result ((fault : FrameFault) → ¬ IsFaulty fault bytes.now) }
    ensures some { IfSome result (λ fault. IsFaulty fault bytes.now) }
{
    let span = match span_at(bytes)? {
        Ok(span) => span,
        Err(fault) => return Some(fault),
    };
    if span.head.stream != 0 {
        return None;
    }
    if lacks_increment(span.head.kind, span.content_of(bytes)) {
        return Some(FrameFault::ZeroIncrement(span.head.stream));
    }
    None
}

/// Answers what is at the front, and takes it off if it is an entry.
fn step(buffer: &mut BytesMut, small: &mut SmallContents) -> Option<Result<Frame, FrameFault>>
    ensures { IsStep result buffer.old.items buffer.new.items }
{
    let span = match span_at(buffer.as_slice())? {
        Ok(span) => span,
        Err(fault) => return Some(Err(fault)),
    };
    Some(take_frame(buffer, small, &span))
}

fn take_frame(
    buffer: &mut BytesMut,
    small: &mut SmallContents,
    span: &Span,
) -> Result<Frame, FrameFault>
    requires spelled { IsSpelledAt span.now buffer.old.items }
    requires within { span.now.start + span.now.len ≤ 9 + span.now.head.length }
    requires whole { 9 + span.now.head.length ≤ length buffer.old.items }
    requires credit { span.now.head.kind ≡ FrameKind.WindowUpdate → span.now.len ≡ 4 }
    ensures { IsStep (Some result) buffer.old.items buffer.new.items }
{
    if lacks_increment(span.head.kind, span.content_of(buffer.as_slice())) {
        let of_stream = span.head.stream != 0;
        if of_stream {
            buffer.advance(HEAD_LEN + span.head.length as usize);
        }
        return Err(FrameFault::ZeroIncrement(span.head.stream));
    }
    let content = cut(buffer, small, span)?;
    Ok(Frame {
        head: span.head,
        content,
    })
}

/// Cuts the frame off the front, and keeps its content: a copy of few bytes, or a part of the
/// buffer's block.
fn cut(buffer: &mut BytesMut, small: &mut SmallContents, span: &Span) -> Result<Bytes, AllocError>
    requires within { span.now.start + span.now.len ≤ 9 + span.now.head.length }
    requires whole { 9 + span.now.head.length ≤ length buffer.old.items }
    ensures content { IfOk result
        (λ content. content ≡ take span.now.len (drop span.now.start buffer.old.items)) }
    ensures rest { OnOk result
        (buffer.new.items ≡ drop (9 + span.now.head.length) buffer.old.items) }
    ensures err { OnErr result (buffer.new.items ≡ buffer.old.items) }
    ensures some { OnErr result (0 < span.now.len) }
{
    let end = HEAD_LEN + span.head.length as usize;
    if span.len == 0 {
        buffer.advance(end);
        return Ok(Bytes::new());
    }
    if span.len < SMALL_BLOCK {
        let content = small.content(span.content_of(buffer.as_slice()))?;
        buffer.advance(end);
        return Ok(content);
    }
    let mut text = buffer.freeze_to(end)?;
    text.advance(span.start);
    text.truncate(span.len);
    Ok(text)
}
