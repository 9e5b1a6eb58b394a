//! The client's bytes, as what they tell (RFC 9113).

ghost use Rattle.std.specs.Prelude.{◌≡◌, ◌<◌, ◌^◌};
ghost use Rattle.h2frame.specs.declared.kind.FrameKind.TheVariants.{Headers};

use crate::breach::{FRAME_TOO_LONG, LOST_CONTINUATION, PUSHED, UNREADABLE_BLOCK};
use crate::halt::Halt;
use bytes::Bytes;
use h2frame::{Flags, Frame, FrameKind, FrameReader, MAX_PAYLOAD, StreamId, increment};
use hpack_codec::Decoder;
use session::{HeaderBlock, Preface};
use std::alloc::Global;

/// A header block of the newest entry of the dynamic table, whose index is 62 (RFC 7541, section
/// 2.3.3).
const NEWEST_ENTRY: &[u8] = &[0x80 | 62];

/// The first byte of a header block that begins with a change of the table's size to 0 (RFC 7541,
/// section 6.3).
const NO_TABLE: u8 = 0x20;

/// What a frame or a header block says.
#[derive(Drop)]
pub enum FrameNews {
    /// A whole header block of a stream; whether nothing follows on it; and whether it begins with
    /// the change of the table's size to 0.
    Head(StreamId, bool, bool),
    /// DATA of a stream, and whether nothing follows on it; and how many bytes count against the
    /// windows.
    Data(StreamId, bool, u32, Bytes),
    /// RST_STREAM with a code.
    Reset(StreamId, u32),
    /// The content of SETTINGS.
    Settings(Bytes),
    /// SETTINGS were acknowledged.
    SettingsAck,
    /// The content of a PING.
    Ping(Bytes),
    /// The content of the answer of a PING.
    Pong(u64),
    /// GOAWAY with a code.
    GoAway(u32),
    /// Credit for a stream, or for the connection, which is 0.
    Credit(StreamId, u32),
}

/// The reading of a connection.
#[derive(Drop)]
pub struct Intake {
    alloc: Global,
    preface: Preface,
    reader: FrameReader,
    decoder: Decoder,
    /// A header block that isn't whole yet.
    block: Option<HeaderBlock>,
}

impl Intake {
    /// Nothing came yet.
    pub fn new(alloc: Global) -> Intake {
        Intake {
            alloc,
            preface: Preface::new(),
            reader: FrameReader::new(alloc),
            decoder: Decoder::new(alloc),
            block: None,
        }
    }

    /// Takes what came.
    pub fn feed(&mut self, piece: &[u8]) -> Result<(), Halt> {
        let rest = self.preface.take(piece)?;
        self.reader.feed(rest)?;
        Ok(())
    }

    /// What comes next, if something does.
    pub fn next(&mut self) -> Result<Option<FrameNews>, Halt> {
        for _ in 0..u64::MAX {
            let Some(answer) = self.reader.next() else {
                return Ok(None);
            };
            let told = self.take(answer?)?;
            if told.is_some() {
                return Ok(told);
            }
        }
        Ok(None)
    }

    /// Takes a frame, and what it says.
    fn take(&mut self, frame: Frame) -> Result<Option<FrameNews>, Halt> {
        if let Some(block) = self.block.take() {
            return self.go_on(block, &frame);
        }
        match frame.head.kind {
            FrameKind::Headers => self.begin(&frame),
            FrameKind::PushPromise => Err(Halt::Broke(PUSHED)),
            FrameKind::Continuation => Err(Halt::Broke(LOST_CONTINUATION)),
            FrameKind::Priority | FrameKind::Unknown(_) => Ok(None),
            FrameKind::Data | FrameKind::RstStream => Ok(told_of_stream(frame)),
            FrameKind::Settings | FrameKind::Ping | FrameKind::GoAway | FrameKind::WindowUpdate =>
                Ok(told_of_connection(frame)),
        }
    }

    fn begin(&mut self, frame: &Frame) -> Result<Option<FrameNews>, Halt>
        requires { frame.now.head.kind ≡ Headers }
    {
        if frame.content.len() > MAX_PAYLOAD as usize {
            return Err(Halt::Broke(FRAME_TOO_LONG));
        }
        let block = HeaderBlock::begin(self.alloc, frame)?;
        self.keep(block)
    }

    fn go_on(&mut self, mut block: HeaderBlock, frame: &Frame) -> Result<Option<FrameNews>, Halt> {
        if block.is_whole() {
            return Err(Halt::Broke(UNREADABLE_BLOCK));
        }
        block.add(frame)?;
        self.keep(block)
    }

    /// Whether the client's header blocks have put an entry into the dynamic table. No block is
    /// read afterwards.
    pub fn has_entries(&mut self) -> bool {
        self.decoder.block(NEWEST_ENTRY).is_ok()
    }

    /// Reads a block that is whole, and keeps another.
    fn keep(&mut self, block: HeaderBlock) -> Result<Option<FrameNews>, Halt> {
        if !block.is_whole() {
            self.block = Some(block);
            return Ok(None);
        }
        self.decoder.block(block.as_slice())?;
        let head = *block.head();
        let is_updated = block.as_slice().first() == Some(&NO_TABLE);
        let last = head.flags.contains(Flags::END_STREAM);
        Ok(Some(FrameNews::Head(head.stream, last, is_updated)))
    }
}

/// What DATA or RST_STREAM says.
fn told_of_stream(frame: Frame) -> Option<FrameNews> {
    let Frame { head, content } = frame;
    match head.kind {
        FrameKind::Data => {
            let last = head.flags.contains(Flags::END_STREAM);
            Some(FrameNews::Data(head.stream, last, head.length, content))
        }
        FrameKind::RstStream => Some(FrameNews::Reset(
            head.stream,
            number_at(content.as_slice(), 0),
        )),
        _ => None,
    }
}

/// What a frame of the connection says.
fn told_of_connection(frame: Frame) -> Option<FrameNews> {
    let Frame { head, content } = frame;
    let is_ack = head.flags.contains(Flags::ACK);
    match head.kind {
        FrameKind::Settings if is_ack => Some(FrameNews::SettingsAck),
        FrameKind::Settings => Some(FrameNews::Settings(content)),
        FrameKind::Ping if is_ack => Some(FrameNews::Pong(long_number(content.as_slice()))),
        FrameKind::Ping => Some(FrameNews::Ping(content)),
        FrameKind::GoAway => Some(FrameNews::GoAway(number_at(content.as_slice(), 4))),
        FrameKind::WindowUpdate => {
            let bytes = content.as_slice();
            if bytes.len() != 4 {
                return None;
            }
            Some(FrameNews::Credit(head.stream, increment(bytes)))
        }
        _ => None,
    }
}

/// The number of four bytes that begins there, or 0 where there are none.
fn number_at(bytes: &[u8], at: usize) -> u32
    requires { at < 16 }
{
    if bytes.len() < at + 4 {
        return 0;
    }
    u32::from_be_bytes([bytes[at], bytes[at + 1], bytes[at + 2], bytes[at + 3]])
}

/// The number of the first eight bytes, or 0 where there are fewer.
fn long_number(bytes: &[u8]) -> u64 {
    let high = number_at(bytes, 0);
    let low = number_at(bytes, 4);
    u64::from(high) * 0x1_0000_0000 + u64::from(low)
}
