//! The length-prefixed messages in the DATA of one side of a call (gRPC over HTTP/2,
//! "Length-Prefixed-Message"): how many came, and which rule the first bad prefix breaks.

/// The bytes of a prefix.
const PREFIX: usize = 5;

/// The most bytes of a message that the server takes.
const MOST: u32 = 4_194_304;

/// What is wrong with a prefix.
#[derive(Clone, Copy, Debug, PartialEq, Eq)]
pub enum PrefixFault {
    /// The flag says that the message is compressed.
    Compressed,
    /// The flag is this byte.
    Flag(u8),
    /// The prefix says this many bytes.
    TooLong(u32),
}

/// How a stream ended inside a message.
#[derive(Clone, Copy, Debug, PartialEq, Eq)]
pub enum CutMessage {
    /// After this many bytes of the prefix.
    InPrefix(usize),
    /// The prefix said one length, and another number of bytes came.
    InMessage { said: u32, came: u32 },
}

/// The messages of one side of a call.
#[derive(Clone, Copy, Debug, PartialEq, Eq)]
pub struct Messages {
    /// How many are whole.
    pub count: u64,
    /// Their bytes, with five of prefix each.
    pub bytes: u64,
    pub fault: Option<PrefixFault>,
    flag: u8,
    /// How many bytes of a prefix came.
    prefixed: usize,
    /// What the prefix says, and how much of that is still to come.
    said: u32,
    left: u32,
}

impl Messages {
    /// None came.
    pub const NONE: Messages = Messages {
        count: 0,
        bytes: 0,
        fault: None,
        flag: 0,
        prefixed: 0,
        said: 0,
        left: 0,
    };

    /// Bytes come. After a fault none is looked at.
    pub fn feed(&mut self, bytes: &[u8]) {
        let mut rest = bytes;
        for _ in 0..bytes.len() {
            let (_content, behind) = self.step(rest);
            if behind.is_empty() {
                return;
            }
            rest = behind;
        }
    }

    /// Takes a byte of a prefix off the front of bytes that come, or what they have of a message,
    /// and answers the latter, and what follows. After a fault that is nothing.
    pub fn step<'a>(&mut self, bytes: &'a [u8]) -> (&'a [u8], &'a [u8]) {
        let none = b"".as_slice();
        let Some((first, behind)) = bytes.split_first() else {
            return (none, none);
        };
        if self.fault.is_some() {
            return (none, none);
        }
        if self.left == 0 {
            self.prefix(*first);
            return (none, behind);
        }
        let count = bytes.len().min(self.left as usize);
        self.take(count as u32);
        bytes.split_at(count)
    }

    /// Their bytes without those of prefixes.
    pub fn content(&self) -> u64 {
        self.bytes.saturating_sub(self.count.saturating_mul(5))
    }

    /// `count` bytes of a message come.
    fn take(&mut self, count: u32) {
        self.left = self.left.saturating_sub(count);
        if self.left == 0 {
            self.end();
        }
    }

    /// A message is whole.
    fn end(&mut self) {
        self.count = self.count.saturating_add(1);
        self.bytes = self
            .bytes
            .saturating_add(5)
            .saturating_add(u64::from(self.said));
    }

    /// A byte of a prefix comes.
    fn prefix(&mut self, byte: u8) {
        if self.prefixed == 0 {
            self.flag = byte;
            self.said = 0;
        } else {
            self.said = (self.said << 8) | u32::from(byte);
        }
        self.prefixed = self.prefixed.saturating_add(1);
        if self.prefixed < PREFIX {
            return;
        }
        self.prefixed = 0;
        self.fault = match self.flag {
            0 if self.said > MOST => Some(PrefixFault::TooLong(self.said)),
            0 => None,
            1 => Some(PrefixFault::Compressed),
            flag => Some(PrefixFault::Flag(flag)),
        };
        self.left = self.said;
        if self.said == 0 && self.fault.is_none() {
            self.end();
        }
    }

    /// Where the bytes so far end inside a message, if they do.
    pub fn cut(&self) -> Option<CutMessage> {
        if self.prefixed > 0 {
            return Some(CutMessage::InPrefix(self.prefixed));
        }
        if self.left == 0 {
            return None;
        }
        Some(CutMessage::InMessage {
            said: self.said,
            came: self.said.saturating_sub(self.left),
        })
    }
}
