//! A header block over its frames (RFC 9113, section 4.3).

ghost use Rattle.std.specs.Prelude.{
  ◌≡◌,
  ◌≤◌,
  ◌↔◌,
  ◌++◌,
  ◌∷◌,
  [],
  false,
  length,
  List,
  IfOk,
  IfErr,
  OnOk,
  OnErr,
  IsTrue,
};
ghost use Rattle.h2frame.specs.declared.frame.Frame.{Frame as FrameOf};
ghost use Rattle.h2frame.specs.declared.kind.FrameKind.TheVariants.{Headers};
ghost use Rattle.session.specs.declared.header_block.FragmentFault.TheVariants.{OutOfMemory};
ghost use Rattle.session.specs.HeaderBlocks.{Collects, IsContinuation, Stands, fragment_reason};

use h2frame::{Flags, Frame, FrameHead, FrameKind, StreamId};
use reasons::Reason;
use std::alloc::{AllocError, Global};
use std::marker::Model;
use thiserror::Error;

/// The most bytes of a header block that the server takes.
pub const MAX_BLOCK: usize = 65_536;

/// Why a header block doesn't go on.
#[derive(Clone, Copy, Debug, PartialEq, Eq, Error)]
pub enum FragmentFault {
    /// Another frame came inside it.
    #[error("a frame stands inside a header block")]
    Interrupted,
    /// It would be over 65,536 bytes.
    #[error("the header block is over 65536 bytes")]
    TooLong,
    #[error("out of memory")]
    OutOfMemory,
}

impl FragmentFault {
    /// Why the connection ends.
    pub fn reason(self) -> Reason
        ensures { result ≡ fragment_reason self }
    {
        match self {
            FragmentFault::Interrupted => Reason::Interrupted,
            FragmentFault::TooLong => Reason::BlockTooLong,
            FragmentFault::OutOfMemory => Reason::Memory,
        }
    }
}

impl From<AllocError> for FragmentFault {
    ghost from_gives = { λ _ fault. fault ≡ OutOfMemory };

    fn from(_e: AllocError) -> FragmentFault {
        FragmentFault::OutOfMemory
    }
}

/// A header block whose frames come one after another. A clause sees the head of its HEADERS, its
/// bytes so far, and whether they are all of them.
#[derive(Drop)]
pub struct HeaderBlock {
    head: FrameHead,
    bytes: Vec<u8>,
    whole: bool,
}

impl Model for HeaderBlock {
    ghost use Rattle.session.specs.HeaderBlocks.{PendingBlock};

    ghost Value = { PendingBlock };

    ghost view = { λ b. record { head = b.head; block = b.bytes.items; whole = b.whole } };
}

impl HeaderBlock {
    /// The block that HEADERS begin.
    pub fn begin(alloc: Global, frame: &Frame) -> Result<HeaderBlock, AllocError>
        requires headers { frame.now.head.kind ≡ Headers }
        requires short { length frame.now.content ≤ 16384 }
        ensures { IfOk result (λ block. Collects (frame.now ∷ []) block) }
    {
        Ok(HeaderBlock {
            head: frame.head,
            bytes: Vec::from_slice(alloc, frame.content.as_slice())?,
            whole: frame.head.flags.contains(Flags::END_HEADERS),
        })
    }

    /// Takes the next frame of the connection, which has to go on with the block.
    pub fn add(&mut self, frame: &Frame) -> Result<(), FragmentFault>
        requires { self.old.whole ≡ false }
        ensures ok { OnOk result
            ((frames : List FrameOf) → Collects frames self.old
            → Collects (frames ++ frame.now ∷ []) self.new) }
        ensures err { IfErr result (λ fault. Stands fault self.old frame.now) }
        ensures head { self.new.head ≡ self.old.head }
        ensures unchanged { OnErr result (self.new ≡ self.old) }
    {
        if !goes_on(frame, self.head.stream) {
            return Err(FragmentFault::Interrupted);
        }
        let content = frame.content.as_slice();
        if self.bytes.len() + content.len() > MAX_BLOCK {
            return Err(FragmentFault::TooLong);
        }
        self.bytes.extend_from_slice(content)?;
        self.whole = frame.head.flags.contains(Flags::END_HEADERS);
        Ok(())
    }

    /// Whether its last frame came.
    pub fn is_whole(&self) -> bool
        ensures { result ≡ self.now.whole }
    {
        self.whole
    }

    /// The head of its HEADERS.
    pub fn head(&self) -> &FrameHead
        ensures { result.now ≡ self.now.head }
    {
        &self.head
    }

    /// The bytes so far.
    pub fn as_slice(&self) -> &[u8]
        ensures { result.now ≡ self.now.block }
    {
        self.bytes.as_slice()
    }
}

/// Whether the frame is CONTINUATION of this stream.
fn goes_on(frame: &Frame, id: StreamId) -> bool
    ensures { IsTrue result ↔ IsContinuation id frame.now }
{
    match frame.head.kind {
        FrameKind::Continuation => frame.head.stream == id,
        _ => false,
    }
}
