//! Messages out of pieces.
//!
//! `next` copies the bytes of an unfinished message out of their pieces. Sharing them would save
//! one copy, but let one byte keep a whole buffer. They are copied once, into room for the whole
//! message, which is made once its prefix is known.
//!
//! `Splitter::end` reads the waiting bytes again, in time linear in the pieces and messages that
//! wait. It is called once for each gRPC call, when little waits.

ghost use Rattle.std.specs.Prelude.{
  ◌≡◌,
  ℕ,
  ◌<◌,
  ◌≤◌,
  List,
  [],
  ◌++◌,
  length,
  All,
  IfErr,
  IfSome,
  OnErr,
  OnOk,
  IfNone,
  IfOk,
  Ok,
};
ghost use Rattle.lpm.specs.declared.fault.LpmFault.TheVariants.{CutAtEnd, OutOfMemory};
ghost use Rattle.lpm.specs.Messages.{frames, IsCut, IsMessage, IsNotCut};
ghost use Rattle.lpm.specs.Splits.{Answers, Continues};
ghost use Rattle.lpm.specs.Fronts.{TakesFront, extent_of, waiting, left_over};

use crate::LpmFault;
use crate::front::{PREFIX_LEN, frame_len};
use crate::joined::JoinedBytes;
use crate::tail::Tail;
use bytes::Bytes;
use std::alloc::{AllocError, Global};
use std::collections::VecDeque;
use std::marker::Model;

/// What is at the front of the bytes that a `Splitter` was given.
#[derive(Debug, Drop)]
pub enum Split {
    /// The next message, without its prefix.
    Message(Bytes),
    /// The next message isn't whole yet.
    More,
    /// No message can follow, or there is no memory.
    Fault(LpmFault),
}

/// Splits the DATA bytes of a call into messages, in whatever pieces they come.
///
/// A contract sees it as a list: the bytes that it was given, without those of the messages that it
/// answered. A message in one shared piece is a slice of the piece. A message that is cut over
/// pieces is joined, once.
#[derive(Drop)]
pub struct Splitter {
    /// The bytes of a message that is cut over pieces, as far as they were looked at.
    joined: JoinedBytes,
    /// The rest of the piece that follows them, which wasn't looked at yet.
    piece: Bytes,
    /// The pieces that follow it.
    later: VecDeque<Bytes>,
}

impl Model for Splitter {
    ghost use Rattle.std.specs.Prelude.{ℕ, List};
    ghost use Rattle.lpm.specs.Fronts.{waiting};

    ghost Value = { List ℕ };

    ghost view = { λ s. waiting s.joined.bytes.items s.piece s.later.items };
}

impl Splitter {
    /// A splitter that was given nothing. It takes no memory yet.
    pub fn new(alloc: Global) -> Splitter
        ensures { result ≡ [] }
    {
        Splitter {
            joined: JoinedBytes::new(alloc),
            piece: Bytes::new(),
            later: VecDeque::new(alloc),
        }
    }

    /// Takes the next piece of the bytes, and copies it once.
    pub fn push(&mut self, piece: &[u8]) -> Result<(), LpmFault>
        ensures ok { OnOk result (self.new ≡ self.old ++ piece.now) }
        ensures unchanged { OnErr result (self.new ≡ self.old) }
        ensures memory { IfErr result (λ fault. fault ≡ OutOfMemory) }
    {
        let copy = Bytes::copy_from_slice(self.joined.allocator(), piece)?;
        self.push_shared(copy)
    }

    /// Takes the next piece of the bytes, and shares it: nothing is copied.
    pub fn push_shared(&mut self, piece: Bytes) -> Result<(), LpmFault>
        ensures ok { OnOk result (self.new ≡ self.old ++ piece) }
        ensures unchanged { OnErr result (self.new ≡ self.old) }
        ensures memory { IfErr result (λ fault. fault ≡ OutOfMemory) }
    {
        if self.piece.is_empty() && self.later.is_empty() {
            self.piece = piece;
            return Ok(());
        }
        if !piece.is_empty() {
            self.later.push_back(piece)?;
        }
        Ok(())
    }

    /// The next message, or why there is none. It answers `More` only where what is left is
    /// unfinished.
    ///
    /// A fault of the bytes stays at their front, and each later call answers it again.
    /// `Fault(OutOfMemory)` loses nothing: it may be called again.
    pub fn next(&mut self) -> Split
        ensures answer { Answers self.old result self.new }
        // For all bytes that were given so far, however they were cut into pieces.
        ensures however_cut { (bytes : List ℕ) (messages : List (List ℕ)) → All IsMessage messages
            → bytes ≡ frames messages ++ self.old → Continues bytes messages result self.new }
    {
        loop {
            if let Some(split) = turn(&mut self.joined, &mut self.piece, &mut self.later) {
                return split;
            }
        }
    }
}

impl Splitter {
    ghost use Rattle.lpm.specs.Tails.{Leaves, IsFaultySomewhere};

    /// Whether the bytes that were given so far end without cutting a message.
    ///
    /// It is `Err(CutAtEnd)` exactly where the bytes end inside a message, whether or not `next`
    /// has answered the messages before it. Bytes with a fault aren't cut. It takes no memory.
    pub fn end(&self) -> Result<(), LpmFault>
        ensures ok { OnOk result (IsNotCut self.now) }
        ensures cut { OnErr result (IsCut self.now) }
        ensures fault { IfErr result (λ fault. fault ≡ CutAtEnd) }
    {
        match self.tail() {
            Ok(tail) => tail.end(),
            Err(_fault) => Ok(()),
        }
    }

    /// What is left after the last whole message, or the fault there.
    fn tail(&self) -> Result<Tail, LpmFault>
        ensures ok { IfOk result (Leaves self.now) }
        ensures fault { IfErr result (IsFaultySomewhere self.now) }
    {
        let mut tail = Tail::new();
        tail.read(self.joined.as_slice())?;
        tail.read(self.piece.as_slice())?;
        tail.read_pieces(&self.later)?;
        Ok(tail)
    }
}

/// One step of `next`: an answer, or more bytes are ready to be looked at.
fn turn(joined: &mut JoinedBytes, piece: &mut Bytes, later: &mut VecDeque<Bytes>) -> Option<Split>
    ensures answer { IfSome result
        (λ split. Answers (waiting joined.old.bytes.items piece.old later.old.items)
        split (waiting joined.new.bytes.items piece.new later.new.items)) }
    ensures same { IfNone result (waiting joined.new.bytes.items piece.new later.new.items
        ≡ waiting joined.old.bytes.items piece.old later.old.items) }
    ensures smaller { IfNone result
        (left_over piece.new later.new.items < left_over piece.old later.old.items) }
{
    let known = joined.as_slice();
    let len = match frame_len(known) {
        Ok(len) => len,
        Err(fault) => return Some(Split::Fault(fault)),
    };
    if len <= known.len() {
        return Some(take_joined(joined));
    }
    if piece.is_empty() {
        let Some(next) = later.pop_front() else {
            return Some(Split::More);
        };
        *piece = next;
        return None;
    }
    if known.is_empty() {
        return start(joined, piece);
    }
    join(joined, piece, len)
}

/// A message begins at the front of a piece: it is a slice of the piece, or its bytes are to be
/// joined.
fn start(joined: &mut JoinedBytes, piece: &mut Bytes) -> Option<Split>
    requires begins { joined.old.bytes.items ≡ [] }
    requires some { 0 < length piece.old }
    ensures answer { (rest : List ℕ)
        → IfSome result (λ split. Answers (joined.old.bytes.items ++ (piece.old ++ rest))
        split (joined.new.bytes.items ++ (piece.new ++ rest))) }
    ensures same { IfNone result
        (joined.new.bytes.items ++ piece.new ≡ joined.old.bytes.items ++ piece.old) }
    ensures smaller { IfNone result (length piece.new < length piece.old) }
{
    let len = match frame_len(piece.as_slice()) {
        Ok(len) => len,
        Err(fault) => return Some(Split::Fault(fault)),
    };
    if len <= piece.len() {
        return Some(take_piece(piece, len));
    }
    if joined.reserve(len).is_err() {
        return Some(Split::Fault(LpmFault::OutOfMemory));
    }
    join(joined, piece, PREFIX_LEN)
}

/// Moves bytes of the piece to the end of the joined ones, up to the end of the prefix or of the
/// message that it announces.
fn join(joined: &mut JoinedBytes, piece: &mut Bytes, len: usize) -> Option<Split>
    requires extent { extent_of joined.old.bytes.items ≡ Ok len }
    requires unfinished { length joined.old.bytes.items < len }
    requires some { 0 < length piece.old }
    ensures same { joined.new.bytes.items ++ piece.new ≡ joined.old.bytes.items ++ piece.old }
    ensures smaller { IfNone result (length piece.new < length piece.old) }
    ensures memory { IfSome result (λ split. split ≡ Split.Fault OutOfMemory) }
{
    match joined.append(piece, len) {
        Ok(()) => None,
        Err(AllocError) => Some(Split::Fault(LpmFault::OutOfMemory)),
    }
}

/// Answers the message that was joined.
fn take_joined(joined: &mut JoinedBytes) -> Split
    requires prefix { 5 ≤ length joined.old.bytes.items }
    ensures { TakesFront joined.old.bytes.items (length joined.old.bytes.items)
        result joined.new.bytes.items }
{
    match joined.take() {
        Ok(mut message) => {
            message.advance(PREFIX_LEN);
            Split::Message(message)
        }
        Err(AllocError) => Split::Fault(LpmFault::OutOfMemory),
    }
}

/// Answers the message at the front of a piece, and shares its bytes.
fn take_piece(piece: &mut Bytes, len: usize) -> Split
    requires prefix { 5 ≤ len }
    requires whole { len ≤ length piece.old }
    ensures { TakesFront piece.old len result piece.new }
{
    match piece.split_to(len) {
        Ok(mut message) => {
            message.advance(PREFIX_LEN);
            Split::Message(message)
        }
        Err(AllocError) => Split::Fault(LpmFault::OutOfMemory),
    }
}
