//! What was written on a connection, as text, stream by stream.

use h2frame::{Flags, Frame, FrameKind, StreamId};
use hpack_codec::Decoder;
use std::alloc::{AllocError, Global};
use std::collections::BTreeMap;

/// What was written on a stream.
#[derive(Drop)]
struct StreamText {
    text: String,
    /// DATA since its last other frame.
    data: Vec<u8>,
}

/// The streams of a connection.
#[derive(Drop)]
pub struct Streams {
    alloc: Global,
    decoder: Decoder,
    /// The header block that was begun, and whether it ends its stream.
    block: Vec<u8>,
    ends_stream: bool,
    streams: BTreeMap<StreamId, StreamText>,
}

impl Streams {
    pub fn new(alloc: Global) -> Streams {
        Streams {
            alloc,
            decoder: Decoder::new(alloc),
            block: Vec::new(alloc),
            ends_stream: false,
            streams: BTreeMap::new(alloc),
        }
    }

    /// Writes a frame as text, but for WINDOW_UPDATE.
    pub fn tell(&mut self, frame: &Frame) -> Result<(), AllocError> {
        match frame.head.kind {
            FrameKind::WindowUpdate => Ok(()),
            FrameKind::Data => self.tell_data(frame),
            FrameKind::Headers | FrameKind::Continuation => self.tell_block(frame),
            _ => {
                let text = self.stream(frame.head.stream)?;
                tell_other(text, frame)
            }
        }
    }

    /// All streams in ascending order.
    pub fn into_text(self) -> Result<String, AllocError> {
        let mut text = String::new(self.alloc);
        for (id, mut stream) in self.streams {
            stream.tell_data()?;
            writeln!(text, "stream {id}")?;
            text.push_str(stream.text.as_str())?;
        }
        Ok(text)
    }

    /// The text of a stream, to which its next frame other than DATA is to be added.
    fn stream(&mut self, id: StreamId) -> Result<&mut String, AllocError> {
        let stream = self.entry(id)?;
        stream.tell_data()?;
        Ok(&mut stream.text)
    }

    fn entry(&mut self, id: StreamId) -> Result<&mut StreamText, AllocError> {
        if !self.streams.contains_key(&id) {
            let stream = StreamText {
                text: String::new(self.alloc),
                data: Vec::new(self.alloc),
            };
            self.streams.insert(id, stream)?;
        }
        self.streams.get_mut(&id).ok_or(AllocError)
    }

    fn tell_data(&mut self, frame: &Frame) -> Result<(), AllocError> {
        let stream = self.entry(frame.head.stream)?;
        stream.data.extend_from_slice(frame.content.as_slice())
    }

    fn tell_block(&mut self, frame: &Frame) -> Result<(), AllocError> {
        if frame.head.kind == FrameKind::Headers {
            self.ends_stream = frame.head.flags.contains(Flags::END_STREAM);
        }
        self.block.extend_from_slice(frame.content.as_slice())?;
        if !frame.head.flags.contains(Flags::END_HEADERS) {
            return Ok(());
        }
        let Ok(fields) = self.decoder.block(self.block.as_slice()) else {
            return Err(AllocError);
        };
        self.block.clear();
        let ends = self.ends_stream;
        let text = self.stream(frame.head.stream)?;
        text.push_str(if ends { "headers end\n" } else { "headers\n" })?;
        for field in fields.as_slice() {
            text.push_str("  ")?;
            push_octets(text, field.name.as_slice())?;
            text.push_str(": ")?;
            push_octets(text, field.value.as_slice())?;
            text.push('\n')?;
        }
        Ok(())
    }
}

impl StreamText {
    /// Writes the DATA that came since the last other frame.
    fn tell_data(&mut self) -> Result<(), AllocError> {
        if self.data.is_empty() {
            return Ok(());
        }
        write!(self.text, "data {} ", self.data.len())?;
        push_hex(&mut self.text, self.data.as_slice())?;
        self.data.clear();
        self.text.push('\n')
    }
}

/// Writes a frame without DATA or a header block.
fn tell_other(text: &mut String, frame: &Frame) -> Result<(), AllocError> {
    let content = frame.content.as_slice();
    let ack = frame.head.flags.contains(Flags::ACK);
    match frame.head.kind {
        FrameKind::Settings if ack => text.push_str("settings ack")?,
        FrameKind::Settings => tell_settings(text, content)?,
        FrameKind::Ping => {
            text.push_str("ping ack ")?;
            push_hex(text, content)?;
        }
        FrameKind::GoAway => {
            let (last, code) = (number_at(content, 0), number_at(content, 4));
            write!(text, "goaway {last} {code}")?;
        }
        FrameKind::RstStream => {
            let code = number_at(content, 0);
            write!(text, "reset {code}")?;
        }
        _ => text.push_str("other")?,
    }
    text.push('\n')
}

/// Writes the parameters of SETTINGS, by their numbers.
fn tell_settings(text: &mut String, content: &[u8]) -> Result<(), AllocError> {
    text.push_str("settings")?;
    for parameter in content.chunks_exact(6) {
        let id = number_at(parameter, 0) >> 16;
        let value = number_at(parameter, 2);
        write!(text, " {id}={value}")?;
    }
    Ok(())
}

/// The four bytes from a place on as a number, 0 where there are fewer.
fn number_at(content: &[u8], place: usize) -> u32 {
    match content.get(place..) {
        Some([a, b, c, d, ..]) => u32::from_be_bytes([*a, *b, *c, *d]),
        _ => 0,
    }
}

fn push_hex(text: &mut String, bytes: &[u8]) -> Result<(), AllocError> {
    for byte in bytes {
        write!(text, "{byte:02x}")?;
    }
    Ok(())
}

fn push_octets(text: &mut String, octets: &[u8]) -> Result<(), AllocError> {
    for octet in octets {
        text.push(char::from(*octet))?;
    }
    Ok(())
}
