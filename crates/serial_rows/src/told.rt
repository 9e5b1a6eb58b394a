//! What a peer reads of what is written, stream by stream.

use anyhow::{Context, Result};
use h2frame::{Flags, Frame, FrameKind, FrameReader, StreamId};
use hpack_codec::Decoder;
use lists::Field;
use std::alloc::Global;
use std::collections::BTreeMap;

/// How far a stream has come.
#[derive(Clone, Copy, PartialEq, Eq)]
enum Course {
    /// No header block came.
    Fresh,
    /// The response's headers came, and its trailers didn't.
    Begun,
    /// END_STREAM or RST_STREAM came.
    Through,
}

/// What was written on a stream.
#[derive(Drop)]
struct StreamText {
    text: String,
    /// All its DATA, and how many of them the text has.
    data: Vec<u8>,
    told: usize,
    course: Course,
}

/// The streams of a connection.
#[derive(Drop)]
pub struct Streams {
    alloc: Global,
    decoder: Decoder,
    /// The header block that was begun, and whether it ends its stream.
    block: Vec<u8>,
    ends_stream: bool,
    streams: BTreeMap<StreamId, StreamText>,
    /// All frames in the order in which they came: the stream and the kind of each; how many bytes
    /// DATA have, and by how much a WINDOW_UPDATE opens a window.
    pub frames: String,
    /// Whether some stream had another thing than a header block, DATA and trailers, in this order,
    /// or one RST_STREAM in place of the trailers; or something after these.
    pub is_unlawful: bool,
}

impl Streams {
    /// What these bytes tell. Bytes that begin a frame and don't end it tell nothing.
    pub fn read(alloc: Global, written: &[u8]) -> Result<Streams> {
        let mut streams = Streams {
            alloc,
            decoder: Decoder::new(alloc),
            block: Vec::new(alloc),
            ends_stream: false,
            streams: BTreeMap::new(alloc),
            frames: String::new(alloc),
            is_unlawful: false,
        };
        let mut reader = FrameReader::new(alloc);
        reader.feed(written)?;
        while let Some(frame) = reader.next() {
            streams.tell(&frame?)?;
        }
        for stream in streams.streams.values_mut() {
            stream.tell_data()?;
        }
        Ok(streams)
    }

    /// Whether the DATA of the disturbed stream begin what came on it in the other; all other
    /// streams have to be equal.
    pub fn begins(&self, other: &Streams, disturbed: StreamId) -> bool {
        self.streams.iter().all(|(id, stream)| match other.streams.get(id) {
            Some(whole) if *id == disturbed => {
                whole.data.as_slice().starts_with(stream.data.as_slice())
            }
            Some(whole) => stream.text.as_str() == whole.text.as_str(),
            None => false,
        })
    }

    /// Writes all streams from this one on in ascending order, after stream 0.
    pub fn push_text(&self, text: &mut String, from: StreamId) -> Result<()> {
        for (id, stream) in self.streams.iter() {
            if *id == 0 || *id >= from {
                writeln!(text, "stream {id}")?;
                text.push_str(stream.text.as_str())?;
            }
        }
        Ok(())
    }

    /// Writes a frame as text.
    fn tell(&mut self, frame: &Frame) -> Result<()> {
        let (id, kind) = (frame.head.stream, frame.head.kind);
        let content = frame.content.as_slice();
        write!(self.frames, "{id} {kind:?}")?;
        match kind {
            FrameKind::Data => write!(self.frames, " {}", content.len())?,
            FrameKind::WindowUpdate => write!(self.frames, " {}", number_at(content, 0))?,
            _ => {}
        }
        self.frames.push('\n')?;
        match kind {
            FrameKind::WindowUpdate => Ok(()),
            FrameKind::Data => {
                let ends = frame.head.flags.contains(Flags::END_STREAM);
                let stream = self.entry(id)?;
                let is_lawful = stream.course == Course::Begun && !ends;
                stream.data.extend_from_slice(content)?;
                self.is_unlawful = self.is_unlawful || !is_lawful;
                Ok(())
            }
            FrameKind::Headers | FrameKind::Continuation => self.tell_block(frame),
            _ => self.tell_other(frame),
        }
    }

    fn entry(&mut self, id: StreamId) -> Result<&mut StreamText> {
        if !self.streams.contains_key(&id) {
            let stream = StreamText {
                text: String::new(self.alloc),
                data: Vec::new(self.alloc),
                told: 0,
                course: Course::Fresh,
            };
            self.streams.insert(id, stream)?;
        }
        self.streams.get_mut(&id).context("no stream")
    }

    /// Writes the fields of a header block, once it has ended.
    fn tell_block(&mut self, frame: &Frame) -> Result<()> {
        let flags = frame.head.flags;
        if frame.head.kind == FrameKind::Headers {
            self.ends_stream = flags.contains(Flags::END_STREAM);
        }
        self.block.extend_from_slice(frame.content.as_slice())?;
        if !flags.contains(Flags::END_HEADERS) {
            return Ok(());
        }
        let fields = self.decoder.block(self.block.as_slice())?;
        self.block.clear();
        let ends = self.ends_stream;
        let stream = self.entry(frame.head.stream)?;
        let is_lawful = match stream.course {
            Course::Fresh => true,
            Course::Begun => ends,
            Course::Through => false,
        };
        stream.course = if ends { Course::Through } else { Course::Begun };
        stream.tell_data()?;
        let text = &mut stream.text;
        text.push_str(if ends { "headers end\n" } else { "headers\n" })?;
        for field in &fields {
            push_field(text, field)?;
        }
        self.is_unlawful = self.is_unlawful || !is_lawful;
        Ok(())
    }

    /// Writes a frame without DATA or a header block.
    fn tell_other(&mut self, frame: &Frame) -> Result<()> {
        let content = frame.content.as_slice();
        let stream = self.entry(frame.head.stream)?;
        stream.tell_data()?;
        let text = &mut stream.text;
        let mut is_lawful = true;
        match frame.head.kind {
            FrameKind::Settings if frame.head.flags.contains(Flags::ACK) => {
                text.push_str("settings ack")?;
            }
            FrameKind::Settings => {
                text.push_str("settings")?;
                for parameter in content.chunks_exact(6) {
                    let (name, value) = (number_at(parameter, 0) >> 16, number_at(parameter, 2));
                    write!(text, " {name}={value}")?;
                }
            }
            FrameKind::Ping => {
                text.push_str("ping ack ")?;
                push_hex(text, content)?;
            }
            FrameKind::GoAway => {
                let (last, code) = (number_at(content, 0), number_at(content, 4));
                write!(text, "goaway {last} {code}")?;
            }
            FrameKind::RstStream => {
                let code = number_at(content, 0);
                write!(text, "reset {code}")?;
                is_lawful = stream.course != Course::Through;
                stream.course = Course::Through;
            }
            _ => text.push_str("other")?,
        }
        stream.text.push('\n')?;
        self.is_unlawful = self.is_unlawful || !is_lawful;
        Ok(())
    }
}

impl StreamText {
    /// Writes the DATA that came since the last other frame.
    fn tell_data(&mut self) -> Result<()> {
        let data = &self.data[self.told..];
        if !data.is_empty() {
            write!(self.text, "data {} ", data.len())?;
            push_hex(&mut self.text, data)?;
            self.text.push('\n')?;
        }
        self.told = self.data.len();
        Ok(())
    }
}

/// Writes a field.
fn push_field(text: &mut String, field: &Field) -> Result<()> {
    text.push_str("  ")?;
    push_octets(text, field.name.as_slice())?;
    text.push_str(": ")?;
    push_octets(text, field.value.as_slice())?;
    text.push('\n')?;
    Ok(())
}

fn push_octets(text: &mut String, octets: &[u8]) -> Result<()> {
    for octet in octets {
        text.push(char::from(*octet))?;
    }
    Ok(())
}

fn push_hex(text: &mut String, bytes: &[u8]) -> Result<()> {
    for byte in bytes {
        write!(text, "{byte:02x}")?;
    }
    Ok(())
}

/// The four bytes from a place on as a number, 0 where there are fewer.
fn number_at(content: &[u8], place: usize) -> u32 {
    match content.get(place..) {
        Some([a, b, c, d, ..]) => u32::from_be_bytes([*a, *b, *c, *d]),
        _ => 0,
    }
}
