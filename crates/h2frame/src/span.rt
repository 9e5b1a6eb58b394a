//! Where a frame's content is in the bytes from which it is read.

ghost use Rattle.std.specs.Prelude.{◌≡◌, ◌+◌, ◌≤◌, length, IfOk, IfSome};
ghost use Rattle.h2frame.specs.Faults.{overhead};
ghost use Rattle.h2frame.specs.Reading.{head_at, content_at, frame_at, span_at, frame_in, IsFront};

use crate::{Flags, FrameFault, FrameHead, FrameKind};

/// The bytes of a frame's head.
pub(crate) const HEAD_LEN: usize = 9;

/// A frame at the front of bytes that is whole and has no fault up to its content.
#[derive(Clone, Copy, Debug)]
pub(crate) struct Span {
    pub(crate) head: FrameHead,
    /// Where its content begins, from the first byte of the head on.
    pub(crate) start: usize,
    /// The bytes of its content.
    pub(crate) len: usize,
}

impl Span {
    /// The content of the frame at the front of the bytes.
    pub(crate) fn content_of<'a>(&self, bytes: &'a [u8]) -> &'a [u8]
        requires { self.now.start + self.now.len ≤ length bytes.now }
        ensures value { result.now ≡ (frame_in self.now bytes.now).content }
        ensures len { length result.now ≡ self.now.len }
    {
        &bytes[self.start..self.start + self.len]
    }
}

/// The frame at the front: nothing while it isn't whole, or the first fault by RFC 9113, sections
/// 4.2 and 6. A fault of the head is answered before the payload is there, a fault of the padding
/// once it is.
#[tactic(auto, unfolding(crate::specs::Reading::span_at))]
pub(crate) fn span_at(bytes: &[u8]) -> Option<Result<Span, FrameFault>>
    ensures span { result ≡ span_at bytes.now }
    ensures front { IsFront bytes.now result }
    ensures within { IfSome result (λ r. IfOk r
        (λ span. span.start + span.len ≤ 9 + span.head.length)) }
    ensures whole { IfSome result (λ r. IfOk r
        (λ span. 9 + span.head.length ≤ length bytes.now)) }
    ensures credit { IfSome result (λ r. IfOk r
        (λ span. span.head.kind ≡ FrameKind.WindowUpdate → span.len ≡ 4)) }
{
    if bytes.len() < HEAD_LEN {
        return None;
    }
    frame_at(head_at(bytes), bytes)
}

#[tactic(auto, unfolding(crate::specs::Reading::head_at))]
fn head_at(bytes: &[u8]) -> FrameHead
    requires { 9 ≤ length bytes.now }
    ensures { result ≡ head_at bytes.now }
{
    let stream = u32::from_be_bytes([bytes[5], bytes[6], bytes[7], bytes[8]]);
    FrameHead {
        kind: FrameKind::from_code(bytes[3]),
        flags: Flags { bits: bytes[4] },
        stream: stream & 0x7fff_ffff,
        length: u32::from_be_bytes([0, bytes[0], bytes[1], bytes[2]]),
    }
}

#[tactic(auto, unfolding(crate::specs::Reading::frame_at))]
fn frame_at(head: FrameHead, bytes: &[u8]) -> Option<Result<Span, FrameFault>>
    ensures frame { result ≡ frame_at head bytes.now }
    ensures within { IfSome result (λ r. IfOk r
        (λ span. span.start + span.len ≤ 9 + span.head.length)) }
    ensures whole { IfSome result (λ r. IfOk r
        (λ span. 9 + span.head.length ≤ length bytes.now)) }
    ensures credit { IfSome result (λ r. IfOk r
        (λ span. span.head.kind ≡ FrameKind.WindowUpdate → span.len ≡ 4)) }
{
    if let Some(fault) = head.fault() {
        return Some(Err(fault));
    }
    if bytes.len() < HEAD_LEN + head.length as usize {
        return None;
    }
    Some(content_at(head, bytes))
}

#[tactic(auto, unfolding(crate::specs::Reading::content_at))]
fn content_at(head: FrameHead, bytes: &[u8]) -> Result<Span, FrameFault>
    requires room { overhead head ≤ head.length }
    requires whole { 9 + head.length ≤ length bytes.now }
    requires credit { head.kind ≡ FrameKind.WindowUpdate → head.length ≡ 4 }
    ensures content { result ≡ content_at head bytes.now }
    ensures head { IfOk result (λ span. span.head ≡ head) }
    ensures within { IfOk result (λ span. span.start + span.len ≤ 9 + head.length) }
    ensures credit { IfOk result (λ span. head.kind ≡ FrameKind.WindowUpdate → span.len ≡ 4) }
{
    let overhead = head.overhead() as usize;
    let padding = if head.is_padded() {
        usize::from(bytes[HEAD_LEN])
    } else {
        0
    };
    let length = head.length as usize;
    if length < overhead + padding {
        return Err(FrameFault::BadPadding);
    }
    Ok(Span {
        head,
        start: HEAD_LEN + overhead,
        len: length - (overhead + padding),
    })
}
