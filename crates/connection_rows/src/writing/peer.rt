//! What a peer reads of what is written, as text.

ghost use Rattle.h2frame.specs.Spelling.{IsWritable};

use anyhow::{Result, bail};
use h2frame::{Flags, Frame, FrameHead, FrameKind, FrameReader};
use hpack_codec::Decoder;
use outwriter::OutFrame;
use std::alloc::Global;
use zeros::ZeroBuffer;

/// The bytes of a frame's head (RFC 9113, section 4.1).
const HEAD_LEN: usize = 9;

/// Reads frames, and the header blocks in them, and writes them as text.
#[derive(Drop)]
pub struct Peer {
    reader: FrameReader,
    decoder: Decoder,
    /// The header block that was begun.
    block: Vec<u8>,
    /// The bytes of the frame that is read.
    bytes: ZeroBuffer,
    told: String,
}

impl Peer {
    pub fn new(alloc: Global) -> Peer {
        Peer {
            reader: FrameReader::new(alloc),
            decoder: Decoder::new(alloc),
            block: Vec::new(alloc),
            bytes: ZeroBuffer::new(alloc),
            told: String::new(alloc),
        }
    }

    /// The text since it was last cleared, with spaces between words.
    pub fn told(&self) -> &str {
        self.told.as_str().trim_end()
    }

    pub fn forget(&mut self) {
        self.told.clear();
    }

    /// Adds a word.
    pub fn tell(&mut self, word: &str) -> Result<()> {
        self.told.push_str(word)?;
        self.told.push(' ')?;
        Ok(())
    }

    /// Adds why a control was refused.
    pub fn tell_fault(&mut self, code: u32) -> Result<()> {
        write!(self.told, "fault{code} ")?;
        Ok(())
    }

    /// Adds the bytes of a frame, in hexadecimal digits.
    pub fn tell_bytes(&mut self, frame: &OutFrame) -> Result<()>
        requires { IsWritable frame.now }
    {
        self.spell(frame)?;
        for byte in self.bytes.as_slice() {
            write!(self.told, "{byte:02x}")?;
        }
        self.tell("")
    }

    /// Adds a sender that came back: the stream on which it was opened, and its own.
    pub fn tell_sender(&mut self, stream: u32, own: u32) -> Result<()> {
        write!(self.told, "sender{stream}:{own} ")?;
        Ok(())
    }

    /// Reads the bytes of a frame.
    pub fn read(&mut self, frame: &OutFrame) -> Result<()>
        requires { IsWritable frame.now }
    {
        self.spell(frame)?;
        self.reader.feed(self.bytes.as_slice())?;
        let Some(read) = self.reader.next() else {
            bail!("a frame isn't whole");
        };
        self.tell_frame(&read?)
    }

    /// Spells a frame alone.
    fn spell(&mut self, frame: &OutFrame) -> Result<()>
        requires { IsWritable frame.now }
    {
        self.bytes.clear();
        self.bytes.reserve(HEAD_LEN + frame.head().length as usize)?;
        frame.append_to(&mut self.bytes);
        Ok(())
    }

    fn tell_frame(&mut self, frame: &Frame) -> Result<()> {
        tell_head(&mut self.told, frame)?;
        if is_block(frame.head.kind) {
            self.block.extend_from_slice(frame.content.as_slice())?;
            if frame.head.flags.contains(Flags::END_HEADERS) {
                self.tell_block()?;
            }
        }
        if ends_stream(&frame.head) {
            let id = frame.head.stream;
            write!(self.told, "end{id} ")?;
        }
        Ok(())
    }

    /// The fields of a whole block: for each its name, and the length of its value.
    fn tell_block(&mut self) -> Result<()> {
        let fields = self.decoder.block(self.block.as_slice())?;
        self.block.clear();
        for field in fields.as_slice() {
            tell_field(&mut self.told, field.name.as_slice(), field.value.len())?;
        }
        Ok(())
    }
}

fn tell_field(told: &mut String, name: &[u8], len: usize) -> Result<()> {
    for byte in name {
        told.push(char::from(*byte))?;
    }
    write!(told, "={len} ")?;
    Ok(())
}

/// A frame's name, with its stream and a number of it where it has them.
fn tell_head(told: &mut String, frame: &Frame) -> Result<()> {
    told.push_str(name_of(&frame.head))?;
    if let Some(stream) = stream_of(frame) {
        write!(told, "{stream}")?;
    }
    if let Some(number) = number_of(frame) {
        write!(told, ":{number}")?;
    }
    told.push(' ')?;
    Ok(())
}

fn name_of(head: &FrameHead) -> &'static str {
    let ack = head.flags.contains(Flags::ACK);
    match head.kind {
        FrameKind::Settings if ack => "ack",
        FrameKind::Settings => "settings",
        FrameKind::Ping if ack => "pong",
        FrameKind::Ping => "ping",
        FrameKind::Data => "data",
        FrameKind::Headers => "head",
        FrameKind::Continuation => "more",
        FrameKind::RstStream => "reset",
        FrameKind::WindowUpdate => "update",
        FrameKind::GoAway => "goaway",
        _ => "other",
    }
}

/// The stream in the text: the frame's own, or the last one of GOAWAY.
fn stream_of(frame: &Frame) -> Option<u32> {
    match frame.head.kind {
        FrameKind::Settings | FrameKind::Ping => None,
        FrameKind::GoAway => Some(number_at(frame, 0)),
        _ => Some(frame.head.stream),
    }
}

/// The number in the text: an error, credit, the last byte of a PING, or the length of the payload.
fn number_of(frame: &Frame) -> Option<u32> {
    match frame.head.kind {
        FrameKind::Settings => None,
        FrameKind::Ping | FrameKind::GoAway => Some(number_at(frame, 4)),
        FrameKind::RstStream | FrameKind::WindowUpdate => Some(number_at(frame, 0)),
        _ => Some(frame.head.length),
    }
}

/// The number that four bytes of a frame's payload are from a place on.
fn number_at(frame: &Frame, from: usize) -> u32 {
    frame
        .content
        .as_slice()
        .iter()
        .skip(from)
        .take(4)
        .fold(0, |n: u32, byte| {
            n.wrapping_mul(256).wrapping_add(u32::from(*byte))
        })
}

fn is_block(kind: FrameKind) -> bool {
    matches!(kind, FrameKind::Headers | FrameKind::Continuation)
}

fn ends_stream(head: &FrameHead) -> bool {
    matches!(head.kind, FrameKind::Headers | FrameKind::Data)
        && head.flags.contains(Flags::END_STREAM)
}
