//! The frames of one direction of a connection, in whatever pieces their bytes come (RFC 9113,
//! sections 4.1 and 6).
//!
//! DATA are handed on as they come, without a copy. Of any other frame the payload is, once it is
//! whole. A frame that is whole in one piece isn't copied either.

ghost use Rattle.std.specs.Prelude.{◌≡◌, ◌≤◌, length, IfOk, IfSome};

use h2frame::{Flags, FrameFault, FrameHead, FrameKind};
use std::alloc::{AllocError, Global};

/// The bytes before a frame's payload.
const HEAD_LEN: usize = 9;

/// A part of what was sent.
#[derive(Clone, Copy)]
pub enum Part<'a> {
    /// A frame that isn't DATA, with its payload.
    Frame(FrameHead, &'a [u8]),
    /// DATA begin.
    Data(FrameHead),
    /// Bytes of the content of DATA, and whether they are the frame's last.
    Content(FrameHead, &'a [u8], bool),
    /// A frame that can't be read. If its padding is too long, the number is the padding's bytes.
    Fault(FrameHead, FrameFault, u8),
}

/// DATA whose payload isn't there yet.
#[derive(Clone, Copy)]
struct Data {
    head: FrameHead,
    /// How many bytes of the payload came.
    came: usize,
    /// How many of its bytes are padding.
    padding: u8,
}

/// Walks over the frames of one direction.
#[derive(Drop)]
pub struct Walk {
    /// What came of a frame that isn't whole.
    kept: Vec<u8>,
    /// Whether what is kept was handed on.
    is_told: bool,
    data: Option<Data>,
}

impl Walk {
    /// It takes no memory yet.
    pub fn new(alloc: Global) -> Walk {
        Walk {
            kept: Vec::new(alloc),
            is_told: false,
            data: None,
        }
    }

    /// Takes bytes off the front of a piece, and answers how many, and the part that ends with
    /// them.
    pub fn step<'a>(&'a mut self, piece: &'a [u8]) -> Result<(usize, Option<Part<'a>>), AllocError>
        ensures fits { IfOk result (λ taken. taken.0 ≤ length piece.now) }
    {
        if self.is_told {
            self.kept.clear();
            self.is_told = false;
        }
        if let Some(data) = self.data {
            let (count, part) = self.content(data, piece);
            return Ok((count, Some(part)));
        }
        if self.kept.is_empty() {
            if let Some(head) = head_of(piece) {
                if is_told_by_head(&head) {
                    return Ok((HEAD_LEN, Some(self.begin(head))));
                }
                let whole = HEAD_LEN + head.length as usize;
                if let Some((front, _)) = piece.split_at_checked(whole) {
                    let payload = front.get(HEAD_LEN..).unwrap_or(b"".as_slice());
                    return Ok((whole, Some(Part::Frame(head, payload))));
                }
            }
        }
        self.keep(piece)
    }

    /// What a head says by itself: a fault, or that DATA begin.
    fn begin(&mut self, head: FrameHead) -> Part<'static> {
        if let Some(fault) = head.fault() {
            return Part::Fault(head, fault, 0);
        }
        if head.length > 0 {
            self.data = Some(Data {
                head,
                came: 0,
                padding: 0,
            });
        }
        Part::Data(head)
    }

    /// Keeps bytes of a frame that isn't whole, and answers how many, and the frame if they make it
    /// whole.
    fn keep<'a>(&'a mut self, piece: &[u8]) -> Result<(usize, Option<Part<'a>>), AllocError>
        ensures fits { IfOk result (λ taken. taken.0 ≤ length piece.now) }
    {
        let wanted = match head_of(self.kept.as_slice()) {
            Some(head) => HEAD_LEN + head.length as usize,
            None => HEAD_LEN,
        };
        let count = wanted.saturating_sub(self.kept.len()).min(piece.len());
        self.kept.extend_from_slice(&piece[..count])?;
        let Some(head) = head_of(self.kept.as_slice()) else {
            return Ok((count, None));
        };
        if is_told_by_head(&head) {
            self.is_told = true;
            return Ok((count, Some(self.begin(head))));
        }
        if self.kept.len() < HEAD_LEN + head.length as usize {
            return Ok((count, None));
        }
        self.is_told = true;
        let payload = self.kept.get(HEAD_LEN..).unwrap_or(b"".as_slice());
        Ok((count, Some(Part::Frame(head, payload))))
    }

    /// Bytes of the payload of DATA.
    fn content<'a>(&mut self, data: Data, piece: &'a [u8]) -> (usize, Part<'a>)
        ensures fits { result.0 ≤ length piece.now }
    {
        let Data {
            head,
            came,
            padding,
        } = data;
        let length = head.length as usize;
        let count = length.saturating_sub(came).min(piece.len());
        let bytes = &piece[..count];
        let padding = match bytes.first() {
            Some(first) if came == 0 && head.is_padded() => *first,
            _ => padding,
        };
        let front = usize::from(head.is_padded());
        let content = length.saturating_sub(usize::from(padding));
        if content < front {
            self.data = None;
            return (count, Part::Fault(head, FrameFault::BadPadding, padding));
        }
        let now = came.saturating_add(count);
        let is_last = now >= length;
        self.data = (!is_last).then_some(Data {
            head,
            came: now,
            padding,
        });
        let start = front.max(came) - came;
        let end = content.saturating_sub(came).min(count);
        let shown = bytes.get(start..end).unwrap_or(b"".as_slice());
        (count, Part::Content(head, shown, is_last))
    }
}

/// Whether the frame needn't be whole to be handed on.
fn is_told_by_head(head: &FrameHead) -> bool {
    head.kind == FrameKind::Data || head.fault().is_some()
}

/// What a frame's first nine bytes say of it, if they are there.
fn head_of(bytes: &[u8]) -> Option<FrameHead>
    ensures there { IfSome result (λ _. 9 ≤ length bytes.now) }
{
    if bytes.len() < HEAD_LEN {
        return None;
    }
    Some(FrameHead {
        kind: FrameKind::from_code(bytes[3]),
        flags: Flags { bits: bytes[4] },
        stream: u32::from_be_bytes([bytes[5], bytes[6], bytes[7], bytes[8]]) & 0x7fff_ffff,
        length: u32::from_be_bytes([0, bytes[0], bytes[1], bytes[2]]),
    })
}

/// The content of HEADERS, without padding and priority; or how much padding there is, if that is
/// too much.
pub fn fragment_of<'a>(head: &FrameHead, payload: &'a [u8]) -> Result<&'a [u8], u8> {
    let mut rest = payload;
    let mut padding = 0;
    if head.is_padded() {
        if let Some((first, behind)) = rest.split_first() {
            padding = *first;
            rest = behind;
        }
    }
    if head.has_priority() {
        rest = rest.get(5..).unwrap_or(b"".as_slice());
    }
    let Some(length) = rest.len().checked_sub(usize::from(padding)) else {
        return Err(padding);
    };
    Ok(rest.get(..length).unwrap_or(rest))
}
