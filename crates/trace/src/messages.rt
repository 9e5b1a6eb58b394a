//! Where messages begin and end in the DATA of one side of a call (gRPC over HTTP/2,
//! "Length-Prefixed-Message").

ghost use Rattle.std.specs.Prelude.{◌≤◌, length};

use std::alloc::{AllocError, Global};

/// The bytes of a prefix: a flag, and the length in four.
const PREFIX: usize = 5;

/// What DATA have of one message.
#[derive(Clone, Copy, Debug, PartialEq, Eq)]
pub struct Part {
    /// Which message of this side of the call it is, from 1 on.
    pub number: u64,
    /// What the prefix says, if all of it came.
    pub prefix: Option<Prefix>,
    /// How many bytes of the message there are, without those of the prefix.
    pub bytes: usize,
    /// Whether the message ends there.
    pub is_end: bool,
}

/// What a prefix says.
#[derive(Clone, Copy, Debug, PartialEq, Eq)]
pub struct Prefix {
    /// 0, or 1 if the message is compressed.
    pub flag: u8,
    pub length: u32,
}

/// The messages of one side of a call.
#[derive(Clone, Copy, Debug, PartialEq, Eq)]
pub struct Messages {
    /// How many have begun.
    begun: u64,
    /// The first bytes of the next prefix, as many as came.
    prefix: [u8; PREFIX],
    prefixed: usize,
    /// What the prefix of the message in hand says, and how many of its bytes are to come.
    current: Option<(Prefix, u32)>,
}

impl Messages {
    /// None came.
    pub const NONE: Messages = Messages {
        begun: 0,
        prefix: [0; PREFIX],
        prefixed: 0,
        current: None,
    };

    /// Takes the content of DATA, and answers what it has of each message.
    pub fn take(&mut self, alloc: Global, content: &[u8]) -> Result<Vec<Part>, AllocError> {
        let mut parts = Vec::new(alloc);
        let mut rest = content;
        while let Some((first, behind)) = rest.split_first() {
            let (part, left) = self.part(*first, behind);
            if let Some(part) = part {
                parts.push(part)?;
            }
            rest = left;
        }
        if self.prefixed > 0 && !content.is_empty() {
            parts.push(self.begun_part())?;
        }
        Ok(parts)
    }

    /// Whether a message has begun and not ended.
    pub fn is_inside(&self) -> bool {
        self.prefixed > 0 || self.current.is_some()
    }

    /// What a byte and those after it have of the message in hand, or of the next one, and what is
    /// left of them. A byte of a prefix that isn't whole has nothing.
    fn part<'b>(&mut self, first: u8, behind: &'b [u8]) -> (Option<Part>, &'b [u8])
        ensures { length result.1.now ≤ length behind.now }
    {
        if let Some((prefix, left)) = self.current {
            let (part, rest) = self.more(prefix, 1, left.saturating_sub(1), behind);
            return (Some(part), rest);
        }
        let Some(prefix) = self.prefix_by(first) else {
            return (None, behind);
        };
        let (part, rest) = self.more(prefix, 0, prefix.length, behind);
        (Some(part), rest)
    }

    /// What bytes have of the message with this prefix, of which `left` are to come, beside those
    /// that were taken.
    fn more<'b>(
        &mut self,
        prefix: Prefix,
        taken: usize,
        left: u32,
        bytes: &'b [u8],
    ) -> (Part, &'b [u8])
        ensures { length result.1.now ≤ length bytes.now }
    {
        let count = bytes.len().min(left as usize);
        let (_here, behind) = bytes.split_at(count);
        let still = left - count as u32;
        self.current = (still > 0).then_some((prefix, still));
        let part = Part {
            number: self.begun,
            prefix: Some(prefix),
            bytes: taken.saturating_add(count),
            is_end: still == 0,
        };
        (part, behind)
    }

    /// A message whose prefix isn't whole.
    fn begun_part(&self) -> Part {
        Part {
            number: self.begun,
            prefix: None,
            bytes: 0,
            is_end: false,
        }
    }

    /// The next byte of a prefix comes. Answers what the prefix says, if it is whole now.
    fn prefix_by(&mut self, byte: u8) -> Option<Prefix> {
        if self.prefixed == 0 {
            self.begun = self.begun.saturating_add(1);
        }
        if self.prefixed < PREFIX {
            self.prefix[self.prefixed] = byte;
            self.prefixed += 1;
        }
        if self.prefixed < PREFIX {
            return None;
        }
        self.prefixed = 0;
        let [flag, a, b, c, d] = self.prefix;
        let length = u32::from_be_bytes([a, b, c, d]);
        Some(Prefix { flag, length })
    }
}
