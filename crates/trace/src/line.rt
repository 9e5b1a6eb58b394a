//! The line of a frame.

use crate::content::{PARAMETER_LEN, number_at};
use crate::frame_meaning::{Block, FrameMeaning};
use crate::item::Item;
use crate::messages::{Part, Prefix};
use crate::names::{FlagNames, SettingName};
use crate::spelling::Spelling;
use crate::text::{Digits, QuotedBytes, front_of};
use crate::windows::Change;
use capture::Side;
use figures::{ErrorName, GroupedNumber, KindName, byte_count};
use h2frame::{FrameFault, FrameHead, FrameKind, SettingId};
use lists::Field;
use std::fmt;

/// The microseconds of a second.
const SECOND: u64 = 1_000_000;

/// How many messages in one frame of DATA a short line shows at most.
const MOST_PARTS: usize = 8;

/// How much a line says.
#[derive(Clone, Copy, Debug, PartialEq, Eq)]
pub enum Form {
    /// Fronts of long values.
    Short,
    /// All bytes of values; of fields their sizes too, and how they are spelled.
    Full,
}

/// A piece of what a side sent, and what it means.
#[derive(Debug, Drop, PartialEq, Eq)]
pub struct Line {
    /// How many microseconds the connection has gone on.
    pub time: u64,
    /// Who sent it.
    pub side: Side,
    pub item: Item,
    pub told: FrameMeaning,
}

/// A line, as it is written.
#[derive(Clone, Copy)]
pub struct ShownLine<'a> {
    pub line: &'a Line,
    pub form: Form,
}

impl fmt::Display for ShownLine<'_> {
    fn fmt<W: fmt::Write>(&self, f: &mut fmt::Formatter<W>) -> fmt::Result {
        let Line { time, side, .. } = self.line;
        let (seconds, micros) = (*time / SECOND, *time % SECOND);
        write!(f, "{seconds}.{micros:06} {side}")?;
        match &self.line.item {
            Item::Preface => write!(f, " preface, 24 bytes"),
            Item::Rest(bytes) => {
                let (count, bytes) = (byte_count(bytes.len()), self.bytes(bytes.as_slice()));
                write!(f, " {count}, no whole frame: {bytes}")
            }
            Item::Frame(head, payload) => self.frame(f, head, payload.as_slice()),
        }
    }
}

impl ShownLine<'_> {
    fn frame<W: fmt::Write>(
        &self,
        f: &mut fmt::Formatter<W>,
        head: &FrameHead,
        payload: &[u8],
    ) -> fmt::Result {
        if head.stream != 0 {
            let stream = head.stream;
            write!(f, " stream {stream}")?;
        }
        let (kind, flags) = (KindName(head.kind), FlagNames(*head));
        let count = byte_count(payload.len());
        write!(f, " {kind}{flags}, {count}")?;
        if let FrameMeaning::Fault(fault) = &self.line.told {
            let bytes = self.bytes(payload);
            write_fault(f, *fault)?;
            return write!(f, ": {bytes}");
        }
        self.payload(f, head, payload)?;
        self.told(f, &self.line.told)
    }

    /// Bytes of the line, in hexadecimal digits.
    fn bytes<'b>(&self, bytes: &'b [u8]) -> ShortenedBytes<Digits<'b>> {
        let (front, is_whole) = self.front(bytes);
        ShortenedBytes {
            front: Digits(front),
            is_whole,
        }
    }

    /// Bytes of the line, between quotes.
    fn text<'b>(&self, bytes: &'b [u8]) -> ShortenedBytes<QuotedBytes<'b>> {
        let (front, is_whole) = self.front(bytes);
        ShortenedBytes {
            front: QuotedBytes(front),
            is_whole,
        }
    }

    fn front<'b>(&self, bytes: &'b [u8]) -> (&'b [u8], bool) {
        match self.form {
            Form::Short => front_of(bytes),
            Form::Full => (bytes, true),
        }
    }

    /// What a payload says by itself.
    fn payload<W: fmt::Write>(
        &self,
        f: &mut fmt::Formatter<W>,
        head: &FrameHead,
        payload: &[u8],
    ) -> fmt::Result {
        match head.kind {
            FrameKind::Settings => write_settings(f, payload),
            FrameKind::WindowUpdate => {
                let credit = GroupedNumber(u64::from(number_at(payload, 0) & 0x7fff_ffff));
                write!(f, ": +{credit}")
            }
            FrameKind::RstStream => write_error(f, number_at(payload, 0)),
            FrameKind::Ping => {
                let bytes = Digits(payload);
                write!(f, ": {bytes}")
            }
            FrameKind::GoAway => self.goaway(f, payload),
            FrameKind::Priority => write_priority(f, payload),
            FrameKind::Unknown(_) if !payload.is_empty() => {
                let bytes = self.bytes(payload);
                write!(f, ": {bytes}")
            }
            _ => Ok(()),
        }
    }

    fn goaway<W: fmt::Write>(&self, f: &mut fmt::Formatter<W>, payload: &[u8]) -> fmt::Result {
        let last = number_at(payload, 0) & 0x7fff_ffff;
        write_error(f, number_at(payload, 4))?;
        write!(f, ", last stream {last}")?;
        match payload.get(8..) {
            Some(debug) if !debug.is_empty() => {
                let debug = self.text(debug);
                write!(f, ", {debug}")
            }
            _ => Ok(()),
        }
    }

    /// Writes what the frame means.
    fn told<W: fmt::Write>(&self, f: &mut fmt::Formatter<W>, told: &FrameMeaning) -> fmt::Result {
        match told {
            FrameMeaning::Nothing => Ok(()),
            FrameMeaning::Fault(fault) => write_fault(f, *fault),
            FrameMeaning::Fragment => write!(f, ": the header block goes on"),
            FrameMeaning::NoBlock => write!(f, ": it goes on with no header block"),
            FrameMeaning::Block(block) => self.block(f, block),
            FrameMeaning::Data {
                parts,
                connection,
                stream,
                is_cut,
            } => {
                self.parts(f, parts.as_slice())?;
                if *is_cut {
                    write!(f, ": the stream ends inside it")?;
                }
                write!(f, "; windows: connection {connection}, stream {stream}")
            }
            FrameMeaning::Credit(change) => write!(f, ": {change}"),
            FrameMeaning::Resized(change) => write!(f, "; windows of streams: {change}"),
        }
    }

    /// What DATA have of messages. Of many only the first are shown, unless all bytes are wanted.
    fn parts<W: fmt::Write>(&self, f: &mut fmt::Formatter<W>, parts: &[Part]) -> fmt::Result {
        let count = match self.form {
            Form::Short => MOST_PARTS,
            Form::Full => parts.len(),
        };
        for part in parts.iter().take(count) {
            write!(f, ": {part}")?;
        }
        let more = parts.len().saturating_sub(count);
        if more == 0 {
            return Ok(());
        }
        let more = GroupedNumber(more as u64);
        write!(f, ": {more} more messages")
    }

    fn block<W: fmt::Write>(&self, f: &mut fmt::Formatter<W>, block: &Block) -> fmt::Result {
        match &block.fields {
            Ok(fields) => {
                self.fields(f, fields.as_slice(), block.spellings.as_slice())?;
                self.status(f, &block.status)
            }
            Err(fault) => {
                let bytes = self.bytes(block.bytes.as_slice());
                write!(f, ": no header block, {fault}: {bytes}")
            }
        }
    }

    fn fields<W: fmt::Write>(
        &self,
        f: &mut fmt::Formatter<W>,
        fields: &[Field],
        spellings: &[Spelling],
    ) -> fmt::Result {
        write!(f, ":")?;
        for (place, field) in fields.iter().enumerate() {
            let name = self.text(field.name.as_slice());
            let value = self.text(field.value.as_slice());
            write!(f, " {name}={value}")?;
            if self.form == Form::Full {
                write_spelling(f, field, spellings.get(place))?;
            }
        }
        Ok(())
    }

    /// How the call ends.
    fn status<W: fmt::Write>(
        &self,
        f: &mut fmt::Formatter<W>,
        status: &Option<(u32, String)>,
    ) -> fmt::Result {
        let Some((code, text)) = status else {
            return Ok(());
        };
        let text = self.text(text.as_bytes());
        write!(f, "; the call ends with status {code} {text}")
    }
}

/// Bytes of which only a front may be shown.
#[derive(Clone, Copy)]
struct ShortenedBytes<T> {
    front: T,
    is_whole: bool,
}

impl<T: fmt::Display> fmt::Display for ShortenedBytes<T> {
    fn fmt<W: fmt::Write>(&self, f: &mut fmt::Formatter<W>) -> fmt::Result {
        let front = &self.front;
        write!(f, "{front}")?;
        if self.is_whole {
            return Ok(());
        }
        write!(f, " ..")
    }
}

/// The size of a field (RFC 7541, section 4.1), and how it is spelled.
fn write_spelling<W: fmt::Write>(
    f: &mut fmt::Formatter<W>,
    field: &Field,
    spelling: Option<&Spelling>,
) -> fmt::Result {
    let length = field
        .name
        .as_slice()
        .len()
        .saturating_add(field.value.as_slice().len());
    let size = byte_count(length.saturating_add(32));
    match spelling {
        Some(spelling) => write!(f, " ({size}, {spelling})"),
        None => write!(f, " ({size})"),
    }
}

fn write_settings<W: fmt::Write>(f: &mut fmt::Formatter<W>, payload: &[u8]) -> fmt::Result {
    for (place, parameter) in payload.chunks(PARAMETER_LEN).enumerate() {
        let id = (number_at(parameter, 0) >> 16) as u16;
        let name = SettingName(SettingId::from_code(id));
        let value = GroupedNumber(u64::from(number_at(parameter, 2)));
        if place == 0 {
            write!(f, ":")?;
        }
        write!(f, " {name} {value}")?;
    }
    Ok(())
}

fn write_error<W: fmt::Write>(f: &mut fmt::Formatter<W>, code: u32) -> fmt::Result {
    let name = ErrorName(code);
    write!(f, ": code {code} {name}")
}

/// The dependency of a stream (RFC 7540, section 5.3).
fn write_priority<W: fmt::Write>(f: &mut fmt::Formatter<W>, payload: &[u8]) -> fmt::Result {
    let word = number_at(payload, 0);
    let (stream, weight) = (word & 0x7fff_ffff, payload.get(4).copied().unwrap_or(0));
    let weight = u32::from(weight).saturating_add(1);
    write!(f, ": after stream {stream}, weight {weight}")?;
    if word > 0x7fff_ffff {
        write!(f, ", exclusive")?;
    }
    Ok(())
}

/// The rule that a frame breaks.
fn write_fault<W: fmt::Write>(f: &mut fmt::Formatter<W>, fault: FrameFault) -> fmt::Result {
    match fault {
        FrameFault::WrongStream => write!(f, ": on a stream that such frames may not be on"),
        FrameFault::BadLength => write!(f, ": of a length that such frames may not have"),
        FrameFault::BadPadding => write!(f, ": padding or priority are longer than the payload"),
        other => write!(f, ": {other}"),
    }
}

impl fmt::Display for Part {
    fn fmt<W: fmt::Write>(&self, f: &mut fmt::Formatter<W>) -> fmt::Result {
        let (number, here) = (self.number, GroupedNumber(self.bytes as u64));
        let Some(Prefix { flag, length }) = self.prefix else {
            return write!(f, "message {number}, inside its prefix");
        };
        let length = byte_count(length as usize);
        write!(f, "message {number} of {length}, {here} of them")?;
        if flag != 0 {
            write!(f, ", flag {flag}")?;
        }
        if self.is_end {
            write!(f, ", whole")?;
        }
        Ok(())
    }
}

impl fmt::Display for Change {
    fn fmt<W: fmt::Write>(&self, f: &mut fmt::Formatter<W>) -> fmt::Result {
        let (before, after) = (SignedNumber(self.before), SignedNumber(self.after));
        write!(f, "{before} to {after}")
    }
}

/// A number that may be below zero, with commas.
#[derive(Clone, Copy)]
struct SignedNumber(i64);

impl fmt::Display for SignedNumber {
    fn fmt<W: fmt::Write>(&self, f: &mut fmt::Formatter<W>) -> fmt::Result {
        let size = GroupedNumber(self.0.unsigned_abs());
        if self.0 < 0 {
            write!(f, "-")?;
        }
        write!(f, "{size}")
    }
}
