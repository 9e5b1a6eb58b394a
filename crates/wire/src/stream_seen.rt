//! What came on a stream.

use crate::fault::WireFault;
use callhead::{first_value, read_status};
use lists::Field;
use lpm::{Split, Splitter};
use std::alloc::{AllocError, Global};

/// More messages than any case asks for at once.
const TOO_MANY: usize = 100_000;

/// The least `:status` that means an error (RFC 9110, section 15.5).
const LEAST_ERROR: u32 = 400;

/// What came on a stream.
#[derive(Drop)]
pub struct StreamSeen {
    alloc: Global,
    /// The bytes of the first header block.
    pub front: Vec<u8>,
    /// The fields of the first header block, and of the last.
    pub head: Vec<Field>,
    pub trailers: Vec<Field>,
    pub blocks: u64,
    /// How many bytes of DATA came, without padding.
    pub count: u64,
    splitter: Splitter,
    /// How many whole messages came, and the last of them.
    pub messages: u64,
    pub message: Vec<u8>,
    pub ended: bool,
    pub reset: Option<u32>,
    /// What the server granted by WINDOW_UPDATE.
    pub credit: u64,
}

impl StreamSeen {
    pub fn new(alloc: Global) -> StreamSeen {
        StreamSeen {
            alloc,
            front: Vec::new(alloc),
            head: Vec::new(alloc),
            trailers: Vec::new(alloc),
            blocks: 0,
            count: 0,
            splitter: Splitter::new(alloc),
            messages: 0,
            message: Vec::new(alloc),
            ended: false,
            reset: None,
            credit: 0,
        }
    }

    /// Whether the server ended or reset it.
    pub fn is_over(&self) -> bool {
        self.ended || self.reset.is_some()
    }

    /// Whether nothing came on it.
    pub fn is_empty(&self) -> bool {
        self.blocks == 0 && self.count == 0 && self.reset.is_none() && !self.ended
    }

    /// Takes DATA.
    pub fn data(&mut self, content: &[u8], last: bool) -> Result<(), WireFault> {
        self.count = self.count.saturating_add(content.len() as u64);
        self.ended = self.ended || last;
        if self.splitter.push(content).is_err() {
            return Err(WireFault::OutOfMemory);
        }
        for _ in 0..TOO_MANY {
            let Split::Message(message) = self.splitter.next() else {
                return Ok(());
            };
            self.messages = self.messages.saturating_add(1);
            self.message = Vec::from_slice(self.alloc, message.as_slice())?;
        }
        Ok(())
    }

    /// Takes a header block and its fields. Interim responses are passed over (RFC 9113, section
    /// 8.1).
    pub fn block(&mut self, block: &[u8], fields: Vec<Field>, last: bool) -> Result<(), WireFault> {
        if !last && is_interim(fields.as_slice()) {
            return Ok(());
        }
        if self.blocks == 0 {
            self.front = Vec::from_slice(self.alloc, block)?;
            self.head = fields.clone()?;
        }
        self.trailers = fields;
        self.blocks = self.blocks.saturating_add(1);
        self.ended = self.ended || last;
        Ok(())
    }

    /// The `:status` of the response, if it is a number.
    pub fn http_status(&self) -> Option<u32> {
        let value = first_value(self.head.as_slice(), b":status")?;
        str::from_utf8(value).ok()?.parse::<u32>().ok()
    }

    /// The status of gRPC with which it ended, if its response is `:status` 200.
    pub fn status(&self) -> Result<Option<u32>, AllocError> {
        if !self.ended || self.http_status() != Some(200) {
            return Ok(None);
        }
        match read_status(self.alloc, self.trailers.as_slice())? {
            Some((code, _)) => Ok(Some(code)),
            None => Ok(None),
        }
    }

    /// Whether it was reset by an error.
    pub fn was_refused(&self) -> bool {
        match self.reset {
            Some(code) => code != 0,
            None => false,
        }
    }

    /// Whether its response means an error: by a status or a `:status`.
    pub fn is_rejected(&self) -> Result<bool, AllocError> {
        match self.http_status() {
            Some(status) if status >= LEAST_ERROR => return Ok(true),
            _ => {}
        }
        Ok(match self.status()? {
            Some(code) => code != 0,
            None => false,
        })
    }

    /// Whether the server refused the call: by its response, or a reset.
    pub fn has_failed(&self) -> Result<bool, AllocError> {
        if self.reset.is_some() && !self.ended {
            return Ok(true);
        }
        if self.is_rejected()? {
            return Ok(true);
        }
        Ok(self.status()?.is_none() && self.was_refused())
    }

    /// Adds what came on it, in words.
    pub fn describe(&self, text: &mut String) -> Result<(), AllocError> {
        if let Some(code) = self.reset {
            write!(text, "RST_STREAM {code}")?;
            if !self.ended {
                return Ok(());
            }
            text.push_str(" after ")?;
        }
        if let Some(status) = self.status()? {
            write!(text, "status {status}")?;
            return self.describe_message(text);
        }
        match self.http_status() {
            Some(status) => write!(text, ":status {status}")?,
            None => text.push_str("no response")?,
        }
        self.describe_message(text)?;
        if !self.ended {
            text.push_str(" without an end")?;
        }
        Ok(())
    }

    fn describe_message(&self, text: &mut String) -> Result<(), AllocError> {
        let count = self.count;
        if count > 0 {
            write!(text, " and {count} bytes of DATA")?;
        }
        Ok(())
    }
}

/// Whether a header block is that of an interim response (RFC 9110, section 15.2).
fn is_interim(fields: &[Field]) -> bool {
    begins_with(fields, ":status", "1")
}

/// Whether there is a field with this name and value.
pub fn has_field(fields: &[Field], name: &str, value: &str) -> bool {
    for field in fields {
        if field.name.as_slice() == name.as_bytes() && field.value.as_slice() == value.as_bytes() {
            return true;
        }
    }
    false
}

/// Whether there is a field with this name whose value begins so.
pub fn begins_with(fields: &[Field], name: &str, front: &str) -> bool {
    for field in fields {
        let value = field.value.as_slice();
        if field.name.as_slice() == name.as_bytes() && value.starts_with(front.as_bytes()) {
            return true;
        }
    }
    false
}

/// Whether these bytes stand somewhere in others.
pub fn has_bytes(bytes: &[u8], wanted: &[u8]) -> bool {
    let mut rest = bytes;
    for _ in 0..bytes.len() {
        if rest.starts_with(wanted) {
            return true;
        }
        let Some((_, behind)) = rest.split_first() else {
            return false;
        };
        rest = behind;
    }
    wanted.is_empty()
}
