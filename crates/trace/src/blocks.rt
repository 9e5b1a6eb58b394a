//! The header blocks of one side, over their frames (RFC 9113, section 4.3).

ghost use Rattle.std.specs.Prelude.{◌≡◌, ◌++◌, [], IfOk, IfErr, OnOk};
ghost use Rattle.hpack_codec.specs.Codec.{Reads, IsFirstFault};

use crate::content::{content_of, promise_of};
use crate::frame_meaning::{Block, FrameMeaning};
use crate::spelling::spellings;
use callhead::read_status;
use capture::Side;
use h2frame::{Flags, FrameFault, FrameHead, FrameKind};
use hpack_codec::{Decoder, HpackFault};
use lists::Field;
use std::alloc::{AllocError, Global};
use std::mem;

/// Reads the header blocks of one side, in order.
#[derive(Drop)]
pub struct Blocks {
    alloc: Global,
    side: Side,
    decoder: Decoder,
    /// Which frame began the block that isn't whole, and the fragments so far.
    begun: Option<FrameHead>,
    bytes: Vec<u8>,
}

impl Blocks {
    /// None came. It takes no memory yet.
    pub fn new(alloc: Global, side: Side) -> Blocks {
        Blocks {
            alloc,
            side,
            decoder: Decoder::new(alloc),
            begun: None,
            bytes: Vec::new(alloc),
        }
    }

    /// What HEADERS, PUSH_PROMISE or CONTINUATION mean.
    pub fn take(&mut self, head: &FrameHead, payload: &[u8]) -> Result<FrameMeaning, AllocError> {
        match head.kind {
            FrameKind::Continuation => self.next_frame(head, payload),
            FrameKind::PushPromise => self.first_frame(head, promise_of(head, payload)),
            _ => self.first_frame(head, content_of(head, payload)),
        }
    }

    fn first_frame(
        &mut self,
        head: &FrameHead,
        fragment: Option<&[u8]>,
    ) -> Result<FrameMeaning, AllocError> {
        let Some(fragment) = fragment else {
            return Ok(FrameMeaning::Fault(FrameFault::BadPadding));
        };
        self.begin(*head, fragment)?;
        self.told(head, *head)
    }

    fn next_frame(
        &mut self,
        head: &FrameHead,
        fragment: &[u8],
    ) -> Result<FrameMeaning, AllocError> {
        let Some(begun) = self.begun else {
            return Ok(FrameMeaning::NoBlock);
        };
        if begun.stream != head.stream {
            return Ok(FrameMeaning::NoBlock);
        }
        self.go_on(fragment)?;
        self.told(head, begun)
    }

    /// What the frame with this head means, which has a fragment of the block that another frame
    /// began.
    fn told(&mut self, head: &FrameHead, begun: FrameHead) -> Result<FrameMeaning, AllocError> {
        if !head.flags.contains(Flags::END_HEADERS) {
            return Ok(FrameMeaning::Fragment);
        }
        let block = self.end(begun)?;
        Ok(FrameMeaning::Block(block))
    }

    /// A frame begins a block.
    fn begin(&mut self, head: FrameHead, fragment: &[u8]) -> Result<(), AllocError>
        ensures { OnOk result (self.new.bytes.items ≡ fragment.now) }
    {
        self.begun = Some(head);
        self.bytes.clear();
        self.bytes.extend_from_slice(fragment)
    }

    /// A frame goes on with it.
    fn go_on(&mut self, fragment: &[u8]) -> Result<(), AllocError>
        ensures { OnOk result (self.new.bytes.items ≡ self.old.bytes.items ++ fragment.now) }
    {
        self.bytes.extend_from_slice(fragment)
    }

    /// The block that this frame began is whole: its fields, over the table of this side, or the
    /// first fault.
    fn end(&mut self, head: FrameHead) -> Result<Block, AllocError>
        ensures bytes { IfOk result (λ block. block.bytes.items ≡ self.old.bytes.items) }
        ensures fields { IfOk result (λ block. IfOk block.fields (λ fields.
            Reads self.old.decoder self.old.bytes.items fields.items self.new.decoder)) }
        ensures fault { IfOk result (λ block. IfErr block.fields (λ fault.
            IsFirstFault fault self.old.decoder self.old.bytes.items)) }
        ensures empty { OnOk result (self.new.bytes.items ≡ []) }
    {
        self.begun = None;
        let bytes = mem::replace(&mut self.bytes, Vec::new(self.alloc));
        let spellings = spellings(self.alloc, bytes.as_slice())?;
        let fields = fields_of(&mut self.decoder, bytes.as_slice())?;
        let status = status_of(self.alloc, self.side, &head, &fields)?;
        Ok(Block {
            head,
            bytes,
            spellings,
            fields,
            status,
        })
    }
}

/// The fields of a block, or its first fault. Want of memory isn't a fault of the block.
fn fields_of(
    decoder: &mut Decoder,
    block: &[u8],
) -> Result<Result<Vec<Field>, HpackFault>, AllocError>
    ensures fields { IfOk result (λ read. IfOk read (λ fields.
        Reads decoder.old block.now fields.items decoder.new)) }
    ensures fault { IfOk result (λ read. IfErr read (λ fault.
        IsFirstFault fault decoder.old block.now)) }
{
    match decoder.block(block) {
        Ok(fields) => Ok(Ok(fields)),
        Err(HpackFault::OutOfMemory) => Err(AllocError),
        Err(fault) => Ok(Err(fault)),
    }
}

/// The status of the call that the server ends by HEADERS with these fields, if they have one.
fn status_of(
    alloc: Global,
    side: Side,
    head: &FrameHead,
    fields: &Result<Vec<Field>, HpackFault>,
) -> Result<Option<(u32, String)>, AllocError> {
    let is_end = head.kind == FrameKind::Headers && head.flags.contains(Flags::END_STREAM);
    match fields {
        Ok(fields) if is_end && side == Side::Server => read_status(alloc, fields.as_slice()),
        _ => Ok(None),
    }
}
