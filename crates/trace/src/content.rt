//! What is in a payload beside padding and priority (RFC 9113, section 6).

ghost use Rattle.std.specs.Prelude.{◌≡◌, ◌++◌, ℕ, List, [], ◌∷◌, length, true, IfSome, IfNone};
ghost use Rattle.h2frame.specs.Flags.{has_priority};
ghost use Rattle.trace.specs.Contents.{HasPadding, HasPriority, IsContent};

use h2frame::{Flags, FrameHead};

/// The bytes of priority that HEADERS may have.
const PRIORITY_LEN: usize = 5;

/// The bytes of the promised stream in a PUSH_PROMISE.
const PROMISED_LEN: usize = 4;

/// The bytes of a parameter of SETTINGS (section 6.5.1).
pub const PARAMETER_LEN: usize = 6;

/// The content of a frame, without padding and the priority of HEADERS. Nothing if these are longer
/// than the payload.
pub fn content_of<'a>(head: &FrameHead, payload: &'a [u8]) -> Option<&'a [u8]>
    ensures { IfSome result (λ content. IsContent head.now payload.now content.now) }
{
    let (padding, rest) = padding_of(head.is_padded(), payload)?;
    let behind = behind_priority(head, rest)?;
    let content = before_padding(behind, padding)?;
    Some(content)
}

/// The header block's fragment in a PUSH_PROMISE, after the promised stream.
pub fn promise_of<'a>(head: &FrameHead, payload: &'a [u8]) -> Option<&'a [u8]> {
    let is_padded = head.flags.contains(Flags::PADDED);
    let (padding, rest) = padding_of(is_padded, payload)?;
    let (_promised, fragment) = rest.split_at_checked(PROMISED_LEN)?;
    before_padding(fragment, padding)
}

/// How many bytes of padding there are, and what is after the byte that says so.
fn padding_of(is_padded: bool, payload: &[u8]) -> Option<(usize, &[u8])>
    ensures some { IfSome result (λ pair. HasPadding is_padded payload.now pair.0 pair.1.now) }
    ensures none { IfNone result (payload.now ≡ []) }
{
    if !is_padded {
        return Some((0, payload));
    }
    let (first, rest) = payload.split_first()?;
    Some((usize::from(*first), rest))
}

/// What is after the priority, where there is one.
fn behind_priority<'a>(head: &FrameHead, payload: &'a [u8]) -> Option<&'a [u8]>
    ensures some { IfSome result
        (λ rest. HasPriority (has_priority head.now) payload.now rest.now) }
{
    if !head.has_priority() {
        return Some(payload);
    }
    let (_priority, rest) = payload.split_at_checked(PRIORITY_LEN)?;
    Some(rest)
}

/// What is before the last bytes, which are padding.
fn before_padding(payload: &[u8], padding: usize) -> Option<&[u8]>
    ensures { IfSome result (λ content. (last : List ℕ)
        × (payload.now ≡ content.now ++ last) × (length last ≡ padding)) }
{
    let length = payload.len().checked_sub(padding)?;
    let (content, _padding) = payload.split_at_checked(length)?;
    Some(content)
}

/// The number in four bytes from this place on, or 0 if they aren't there.
pub fn number_at(bytes: &[u8], at: usize) -> u32 {
    match bytes.get(at..) {
        Some([a, b, c, d, ..]) => u32::from_be_bytes([*a, *b, *c, *d]),
        _ => 0,
    }
}
