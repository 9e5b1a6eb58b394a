//! A connection to the server under test: what is written to it as it stands, and what comes back,
//! frame by frame.
//!
//! SETTINGS and PINGs of the server are acknowledged as they come. No credit is given but what the
//! case writes. What is said waits until something is waited for, and leaves in one write then.

ghost use Rattle.std.specs.Prelude.{◌≡◌, ◌<◌, false};
ghost use Rattle.h2frame.specs.declared.kind.FrameKind.TheVariants.{Headers};

use crate::fault::WireFault;
use crate::frame::{
    ACK, CONTINUATION, DATA, END_HEADERS, HEADERS, PING, PREFACE, PUSH_PROMISE, SETTINGS,
    push_frame,
};
use crate::reaction::LawfulReaction;
use crate::report::push_difference;
use crate::seen_frames::SeenFrames;
use crate::server::{Pace, Server};
use crate::stream_seen::StreamSeen;
use h2frame::{
    Flags, Frame, FrameFault, FrameKind, FrameReader, MAX_PAYLOAD, SettingId, increment,
};
use hpack_codec::{Decoder, HpackFault};
use session::{FragmentFault, HeaderBlock, Parameter};
use std::alloc::{AllocError, Global};
use std::collections::BTreeMap;
use std::io::{ErrorKind, Read, Write};
use std::net::OpenStream;
use std::time::Duration;

/// More frames than a server sends that ever ends.
pub const MANY_FRAMES: usize = 1_000_000;

/// More reads than a frame comes in.
const MANY_READS: usize = 1_000_000;

/// The connection's window while the server granted nothing (RFC 9113, section 6.9.2).
const FIRST_WINDOW: u64 = 65_535;

/// SETTINGS_ENABLE_PUSH 0: the server must send no PUSH_PROMISE (RFC 9113, section 6.5.2).
const NO_PUSH: [u8; 6] = [0, 2, 0, 0, 0, 0];

/// What a wait ended with.
#[derive(Clone, Copy)]
pub enum WaitEnd {
    Frame,
    /// Nothing came in time.
    Silence,
    /// Nothing comes any more.
    Closed,
}

/// What comes next in what was read.
#[derive(Drop)]
enum Next {
    Frame(Frame),
    Silence,
    Closed,
}

/// What is known of how far the server has read.
#[derive(Clone, Copy)]
enum Fence {
    /// Something was said after which no PING was sent.
    Open,
    /// A PING was sent after all that was said.
    Asked,
    /// It was answered, at this time: the server has read all that was said.
    Passed(u64),
}

#[derive(Drop)]
pub struct Talk<'a, V: Server> {
    alloc: Global,
    pub server: &'a V,
    socket: V::Line,
    pub pace: Pace,
    /// When the connection was made.
    begun: u64,
    reader: FrameReader,
    decoder: Decoder,
    pub seen: SeenFrames,
    /// All that was to be sent. `written` is how many of its bytes were written.
    pub sent: Vec<u8>,
    written: usize,
    /// Whether a write failed: nothing more is written, though something may still come.
    mute: bool,
    fence: Fence,
    /// How many PINGs have asked whether all was read.
    asked: u32,
    /// How many frames came.
    heard: usize,
    /// Whether a header block was begun and not ended.
    in_block: bool,
    /// Whether a wait for a reaction ended in silence, and nothing was said or came since.
    pub was_silent: bool,
    /// Whether a header block set the size of the server's table.
    pub has_told_table: bool,
    /// How many bytes of DATA were said, on all streams and on each.
    spent: u64,
    spent_on: BTreeMap<u32, u64>,
}

impl<'a, V: Server> Talk<'a, V> {
    pub fn new(
        alloc: Global,
        server: &'a V,
        socket: V::Line,
        pace: Pace,
    ) -> Result<Talk<'a, V>, WireFault> {
        Ok(Talk {
            alloc,
            server,
            socket,
            pace,
            begun: server.now().ok_or(WireFault::ClockFailed)?,
            reader: FrameReader::new(alloc),
            decoder: Decoder::new(alloc),
            seen: SeenFrames::new(alloc),
            sent: Vec::new(alloc),
            written: 0,
            mute: false,
            fence: Fence::Open,
            asked: 0,
            heard: 0,
            in_block: false,
            was_silent: false,
            has_told_table: false,
            spent: 0,
            spent_on: BTreeMap::new(alloc),
        })
    }

    /// How many milliseconds the connection has lasted.
    pub fn now(&self) -> Result<u64, WireFault> {
        let now = self.server.now().ok_or(WireFault::ClockFailed)?;
        Ok(now.saturating_sub(self.begun))
    }

    /// When the time of silence is over, if nothing comes from now on.
    pub fn silence(&self) -> Result<u64, WireFault> {
        Ok(self.now()?.saturating_add(self.pace.silence))
    }

    /// When a server that has read all has done what it does by itself, or when the time of silence
    /// is over where it hasn't. The wait began at this time.
    pub fn moment(&self, begun: u64) -> Result<u64, WireFault> {
        match self.fence {
            Fence::Passed(at) => Ok(at.max(begun).saturating_add(self.pace.moment())),
            Fence::Open | Fence::Asked => self.silence(),
        }
    }

    /// Whether the server has read all that was said.
    pub fn has_passed(&self) -> bool {
        matches!(self.fence, Fence::Passed(_))
    }

    /// Has the recording of the connection say that none of the lawful reactions came.
    pub fn tell_fault(&self, lawful: &[LawfulReaction]) -> Result<(), AllocError> {
        let mut text = String::new(self.alloc);
        push_difference(&mut text, lawful, &self.seen)?;
        self.server.fault(&self.socket, text.as_str());
        Ok(())
    }

    /// Says the preface and SETTINGS, and waits for the server's.
    pub fn greet(&mut self) -> Result<(), WireFault> {
        self.say(PREFACE)?;
        self.say_frame(SETTINGS, 0, 0, &NO_PUSH)?;
        for _ in 0..MANY_FRAMES {
            if self.seen.greeted || !self.hears_one()? {
                return Ok(());
            }
        }
        Ok(())
    }

    /// Says bytes.
    pub fn say(&mut self, bytes: &[u8]) -> Result<(), WireFault> {
        self.fence = Fence::Open;
        self.was_silent = false;
        self.sent.extend_from_slice(bytes)?;
        Ok(())
    }

    /// Says a frame.
    pub fn say_frame(
        &mut self,
        kind: u8,
        flags: u8,
        stream: u32,
        payload: &[u8],
    ) -> Result<(), WireFault> {
        self.fence = Fence::Open;
        self.was_silent = false;
        if matches!(kind, HEADERS | PUSH_PROMISE | CONTINUATION) {
            self.in_block = flags & END_HEADERS == 0;
        }
        push_frame(&mut self.sent, kind, flags, stream, payload)
    }

    /// Asks by a PING whether all was read, if it isn't known. Inside a header block nothing is
    /// asked: a PING there is an error.
    pub fn ask(&mut self) -> Result<(), WireFault> {
        if self.in_block || !matches!(self.fence, Fence::Open) {
            return Ok(());
        }
        self.seen.synced = false;
        self.asked = self.asked.saturating_add(1);
        self.say_frame(PING, 0, 0, &fence_content(self.asked))?;
        self.fence = Fence::Asked;
        Ok(())
    }

    /// How many bytes of DATA the server's windows have room for on a stream (RFC 9113, section
    /// 6.9.1).
    pub fn room(&self, stream: u32) -> u64 {
        let granted = match self.seen.streams.get(&stream) {
            Some(seen) => seen.credit,
            None => 0,
        };
        let of_stream = u64::from(self.seen.announced.window).saturating_add(granted);
        let of_connection = self.seen.credit.saturating_add(FIRST_WINDOW);
        let spent = self.spent_on.get(&stream).copied().unwrap_or(0);
        of_connection
            .saturating_sub(self.spent)
            .min(of_stream.saturating_sub(spent))
    }

    /// Says a DATA frame, whose payload counts on the server's windows.
    pub fn say_data(&mut self, flags: u8, stream: u32, payload: &[u8]) -> Result<(), WireFault> {
        let count = payload.len() as u64;
        let spent = self.spent_on.get(&stream).copied().unwrap_or(0);
        self.spent_on.insert(stream, spent.saturating_add(count))?;
        self.spent = self.spent.saturating_add(count);
        self.say_frame(DATA, flags, stream, payload)
    }

    /// Writes what was said. After a write that failed nothing more is written.
    pub fn flush(&mut self) {
        for _ in 0..MANY_READS {
            let Some(rest) = self.sent.as_slice().get(self.written..) else {
                return;
            };
            if rest.is_empty() || self.mute {
                return;
            }
            match self.socket.write(rest) {
                Ok(0) => self.mute = true,
                Ok(count) => self.written = self.written.saturating_add(count),
                Err(error) => {
                    if error.kind() != ErrorKind::Interrupted {
                        self.mute = true;
                    }
                }
            }
        }
        self.mute = true;
    }

    /// Writes what was said, waits for a frame until then, and notes what it brings.
    pub fn hear(&mut self, until: u64) -> Result<WaitEnd, WireFault> {
        self.flush();
        if self.heard >= MANY_FRAMES {
            self.seen.endless = true;
            return Ok(WaitEnd::Silence);
        }
        match self.next(until)? {
            Next::Frame(frame) => {
                self.heard = self.heard.saturating_add(1);
                self.was_silent = false;
                self.take(&frame)?;
                Ok(WaitEnd::Frame)
            }
            Next::Silence => Ok(WaitEnd::Silence),
            Next::Closed => Ok(WaitEnd::Closed),
        }
    }

    /// Waits for a frame until the time of silence is over, and answers whether one came.
    pub fn hears_one(&mut self) -> Result<bool, WireFault> {
        let until = self.silence()?;
        Ok(matches!(self.hear(until)?, WaitEnd::Frame))
    }

    /// The next frame. Bytes that aren't a frame end the connection.
    fn next(&mut self, until: u64) -> Result<Next, WireFault> {
        if self.seen.closed {
            return Ok(Next::Closed);
        }
        for _ in 0..MANY_READS {
            match self.reader.next() {
                Some(Ok(frame)) => return Ok(Next::Frame(frame)),
                Some(Err(FrameFault::OutOfMemory)) => return Err(WireFault::OutOfMemory),
                Some(Err(_)) => {
                    self.give_up("what is no frame");
                    return Ok(Next::Closed);
                }
                None => {}
            }
            match self.read(until)? {
                WaitEnd::Frame => {}
                WaitEnd::Silence => return Ok(Next::Silence),
                WaitEnd::Closed => return Ok(Next::Closed),
            }
        }
        Ok(Next::Silence)
    }

    /// Reads what there is, or comes until then. A connection whose time is up is read no more.
    fn read(&mut self, until: u64) -> Result<WaitEnd, WireFault> {
        let now = self.now()?;
        let limit = self.pace.limit;
        if now >= limit {
            self.seen.endless = true;
            return Ok(WaitEnd::Silence);
        }
        let patience = until.min(limit).saturating_sub(now);
        if patience == 0 {
            return Ok(WaitEnd::Silence);
        }
        // A connection on which no time can be set is broken, and a read reports that.
        let _set = self
            .socket
            .set_read_timeout(Some(Duration::from_millis(patience)));
        self.read_now()
    }

    /// Reads what there is, or comes in the time that is set.
    fn read_now(&mut self) -> Result<WaitEnd, WireFault> {
        let mut piece = [0u8; 16384];
        match self.socket.read(&mut piece) {
            Ok(0) => self.seen.closed = true,
            Ok(count) => {
                let piece = &piece[..count];
                if !self.seen.any_frame && piece.starts_with(b"HTTP/1") {
                    self.seen.text = true;
                    self.seen.closed = true;
                    return Ok(WaitEnd::Closed);
                }
                if self.reader.feed(piece).is_err() {
                    self.give_up("what is no frame");
                    return Ok(WaitEnd::Closed);
                }
                return Ok(WaitEnd::Frame);
            }
            Err(error) => match error.kind() {
                ErrorKind::Interrupted => return Ok(WaitEnd::Frame),
                ErrorKind::WouldBlock | ErrorKind::TimedOut => return Ok(WaitEnd::Silence),
                _ => self.seen.closed = true,
            },
        }
        Ok(WaitEnd::Closed)
    }

    /// Notes what no server may do. Nothing is read any more.
    fn give_up(&mut self, wrong: &'static str) {
        self.seen.wrong = Some(wrong);
        self.seen.closed = true;
    }

    /// Notes what a frame brings.
    fn take(&mut self, frame: &Frame) -> Result<(), WireFault> {
        let kind = frame.head.kind;
        self.seen.keep(frame.head, code_of(frame))?;
        if !self.seen.any_frame {
            self.seen.any_frame = true;
            self.seen.first_settings = kind == FrameKind::Settings
                && !frame.head.flags.contains(Flags::ACK);
        }
        match kind {
            FrameKind::Data => self.data(frame),
            FrameKind::Headers => self.headers(frame),
            FrameKind::RstStream => self.reset(frame),
            FrameKind::Settings => self.settings(frame),
            FrameKind::Ping => self.pinged(frame),
            FrameKind::GoAway => {
                self.seen.goaway = Some(number_at(frame.content.as_slice(), 4));
                Ok(())
            }
            FrameKind::WindowUpdate => self.credited(frame),
            FrameKind::PushPromise | FrameKind::Continuation => {
                self.give_up("a frame that is out of place");
                Ok(())
            }
            FrameKind::Priority | FrameKind::Unknown(_) => Ok(()),
        }
    }

    fn data(&mut self, frame: &Frame) -> Result<(), WireFault> {
        let head = frame.head;
        self.seen.largest = self.seen.largest.max(u64::from(head.length));
        if let Some(seen) = self.seen.streams.get_mut(&head.stream) {
            if seen.is_over() {
                self.seen.note_late(head);
                return Ok(());
            }
            if seen.blocks > 0 {
                let last = head.flags.contains(Flags::END_STREAM);
                return seen.data(frame.content.as_slice(), last);
            }
        }
        self.give_up("DATA that are out of place");
        Ok(())
    }

    /// What is noted of a stream, from now on if it wasn't before.
    fn begin(&mut self, stream: u32) -> Result<(), WireFault> {
        if !self.seen.streams.contains_key(&stream) {
            self.seen
                .streams
                .insert(stream, StreamSeen::new(self.alloc))?;
        }
        Ok(())
    }

    fn reset(&mut self, frame: &Frame) -> Result<(), WireFault> {
        self.begin(frame.head.stream)?;
        if let Some(seen) = self.seen.streams.get_mut(&frame.head.stream) {
            seen.reset = Some(number_at(frame.content.as_slice(), 0));
        }
        Ok(())
    }

    fn credited(&mut self, frame: &Frame) -> Result<(), WireFault> {
        let content = frame.content.as_slice();
        if content.len() != 4 {
            return Ok(());
        }
        let credit = u64::from(increment(content));
        let stream = frame.head.stream;
        if stream == 0 {
            self.seen.credit = self.seen.credit.saturating_add(credit);
            return Ok(());
        }
        self.begin(stream)?;
        if let Some(seen) = self.seen.streams.get_mut(&stream) {
            seen.credit = seen.credit.saturating_add(credit);
        }
        Ok(())
    }

    fn pinged(&mut self, frame: &Frame) -> Result<(), WireFault> {
        let content = frame.content.as_slice();
        if !frame.head.flags.contains(Flags::ACK) {
            return self.acknowledge(PING, content);
        }
        self.seen.echo(content)?;
        if matches!(self.fence, Fence::Asked) && content == fence_content(self.asked).as_slice() {
            self.fence = Fence::Passed(self.now()?);
            self.seen.synced = true;
        }
        Ok(())
    }

    /// Acknowledges a frame. That the server has read all else stays known.
    fn acknowledge(&mut self, kind: u8, content: &[u8]) -> Result<(), WireFault> {
        push_frame(&mut self.sent, kind, ACK, 0, content)
    }

    fn settings(&mut self, frame: &Frame) -> Result<(), WireFault> {
        if frame.head.flags.contains(Flags::ACK) {
            self.seen.acks = self.seen.acks.saturating_add(1);
            return Ok(());
        }
        for piece in frame.content.as_slice().chunks(6) {
            if piece.len() == 6 {
                let id = u16::from_be_bytes([piece[0], piece[1]]);
                self.seen.parameter(&Parameter {
                    id: SettingId::from_code(id),
                    value: number_at(piece, 2),
                });
            }
        }
        self.seen.greeted = true;
        self.acknowledge(SETTINGS, &[])
    }

    /// A header block, with the frames that go on with it.
    fn headers(&mut self, frame: &Frame) -> Result<(), WireFault>
        requires { frame.now.head.kind ≡ Headers }
    {
        if frame.content.len() > MAX_PAYLOAD as usize {
            self.give_up("what is no frame");
            return Ok(());
        }
        let mut block = HeaderBlock::begin(self.alloc, frame)?;
        for _ in 0..MANY_FRAMES {
            if block.is_whole() {
                return self.block(frame, block.as_slice());
            }
            if !self.go_on(&mut block)? {
                return Ok(());
            }
        }
        self.seen.endless = true;
        self.give_up("a header block that isn't ended");
        Ok(())
    }

    /// Adds the next frame to a header block, and answers whether it is one of it.
    fn go_on(&mut self, block: &mut HeaderBlock) -> Result<bool, WireFault>
        requires { block.old.whole ≡ false }
    {
        let until = self.silence()?;
        let Next::Frame(next) = self.next(until)? else {
            self.give_up("a header block that isn't ended");
            return Ok(false);
        };
        self.seen.keep(next.head, None)?;
        match block.add(&next) {
            Ok(()) => Ok(true),
            Err(FragmentFault::OutOfMemory) => Err(WireFault::OutOfMemory),
            Err(_) => {
                self.give_up("a frame inside a header block, or one that is too long");
                Ok(false)
            }
        }
    }

    /// A whole header block on the stream of its HEADERS.
    fn block(&mut self, frame: &Frame, block: &[u8]) -> Result<(), WireFault> {
        let stream = frame.head.stream;
        let last = frame.head.flags.contains(Flags::END_STREAM);
        let fields = match self.decoder.block(block) {
            Ok(fields) => fields,
            Err(HpackFault::OutOfMemory) => return Err(WireFault::OutOfMemory),
            Err(_) => {
                self.give_up("a header block that can't be read");
                return Ok(());
            }
        };
        self.begin(stream)?;
        if let Some(seen) = self.seen.streams.get_mut(&stream) {
            if !seen.is_over() {
                return seen.block(block, fields, last);
            }
        }
        self.seen.note_late(frame.head);
        Ok(())
    }
}

/// What a PING carries that asks for the so-manieth time whether all was read.
fn fence_content(asked: u32) -> [u8; 8] {
    let [a, b, c, d] = asked.to_be_bytes();
    [0x66, 0x65, 0x6e, 0x63, a, b, c, d]
}

/// The error of RST_STREAM or GOAWAY.
fn code_of(frame: &Frame) -> Option<u32> {
    match frame.head.kind {
        FrameKind::RstStream => Some(number_at(frame.content.as_slice(), 0)),
        FrameKind::GoAway => Some(number_at(frame.content.as_slice(), 4)),
        _ => None,
    }
}

/// The number of four bytes that begins there, or 0 where there are none.
fn number_at(bytes: &[u8], at: usize) -> u32
    requires { at < 16 }
{
    if bytes.len() < at + 4 {
        return 0;
    }
    u32::from_be_bytes([bytes[at], bytes[at + 1], bytes[at + 2], bytes[at + 3]])
}
