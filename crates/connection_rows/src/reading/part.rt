//! Bytes and their events, as a line spells them: items with spaces between them, `=>`, and the
//! events.
//!
//! An item is a name, pairs of hexadecimal digits, such digits with a number of times (`20*16384`),
//! or `heads*N`: HEADERS of N streams with the numbers 1, 3, 5 .. whose heads are those of no call.

use anyhow::{Context, Result};
use std::alloc::{AllocError, Global};

/// HEADERS of a stream, before its number: 3 bytes, with END_HEADERS.
const HEADERS: &[u8] = &[0, 0, 3, 1, 4];

/// `:method: POST`, `:scheme: http` and `:path: /`.
const HEAD_OF_NO_CALL: &[u8] = &[0x83, 0x86, 0x84];

/// Bytes and their events.
#[derive(Drop)]
pub struct Part {
    pub bytes: Vec<u8>,
    pub events: String,
}

/// A part that has a name.
#[derive(Drop)]
pub struct NamedPart {
    pub name: String,
    pub part: Part,
}

impl Part {
    /// What a line spells.
    pub fn read(alloc: Global, names: &[NamedPart], line: &str) -> Result<Part> {
        let (items, events) = line.split_once("=>").unwrap_or((line, ""));
        let mut part = Part {
            bytes: Vec::new(alloc),
            events: String::new(alloc),
        };
        for item in items.split_whitespace() {
            part.add(alloc, names, item)?;
        }
        let events = events.trim();
        if !events.is_empty() {
            part.events.push(' ')?;
            part.events.push_str(events)?;
        }
        Ok(part)
    }

    fn add(&mut self, alloc: Global, names: &[NamedPart], item: &str) -> Result<()> {
        if let Some(named) = names.iter().find(|named| named.name.as_str() == item) {
            self.bytes.extend_from_slice(named.part.bytes.as_slice())?;
            self.events.push_str(named.part.events.as_str())?;
            return Ok(());
        }
        let (repeated, times) = item.split_once('*').unwrap_or((item, "1"));
        let times = times
            .parse::<u16>()
            .context("a number of times is not one")?;
        if repeated == "heads" {
            self.add_heads(times)?;
            return Ok(());
        }
        let bytes = hex::decode(alloc, repeated).context(
            "an item that is no name, as hexadecimal digits",
        )?;
        for _ in 0..times {
            self.bytes.extend_from_slice(bytes.as_slice())?;
        }
        Ok(())
    }

    fn add_heads(&mut self, count: u16) -> Result<(), AllocError> {
        for index in 0..count {
            let id = 2 * u32::from(index) + 1;
            self.bytes.extend_from_slice(HEADERS)?;
            self.bytes.extend_from_slice(&id.to_be_bytes())?;
            self.bytes.extend_from_slice(HEAD_OF_NO_CALL)?;
            write!(self.events, " BadHead({id}, NotGrpc)")?;
        }
        Ok(())
    }
}
