//! What the server's frames mean (RFC 9113, sections 3.4, 4.3, 5.1 and 6).

ghost use Rattle.std.specs.Prelude.{◌≡◌, ◌<◌, ◌^◌, length};
ghost use Rattle.h2frame.specs.declared.kind.FrameKind.TheVariants.{Headers};

use crate::connection::{Arrival, Connection, Content};
use crate::credit::{CreditStep, WindowViolation};
use crate::fault::{Fault, OwnBound};
use crate::fields::{FieldFault, ResponseHead, judge_head, judge_trailers};
use crate::line::Line;
use crate::outgoing::Outgoing;
use crate::response::Phase;
use crate::settings::read_setting;
use crate::silence::WaitGoal;
use crate::violation::{BlockViolation, Violation};
use bytes::Bytes;
use figures::shown;
use h2frame::{
    Flags, Frame, FrameHead, FrameKind, MAX_PAYLOAD, PeerSetting, StreamId, increment, ping_bytes,
};
use hpack_codec::HpackFault;
use lists::Field;
use sendwindows::WindowFault;
use session::{FragmentFault, HeaderBlock};

/// The bytes of a parameter in SETTINGS.
const PARAMETER_LEN: usize = 6;

impl<S: Line> Connection<S> {
    /// Reads a frame, and keeps what it brings on a stream.
    pub(crate) fn read_frame(&mut self) -> Result<(), Fault> {
        let frame = self.next_frame()?;
        self.begin(&frame.head)?;
        self.take(frame)
    }

    /// The server's first frame is SETTINGS (section 3.4).
    fn begin(&mut self, head: &FrameHead) -> Result<(), Fault> {
        if self.has_begun {
            return Ok(());
        }
        let is_ack = head.flags.contains(Flags::ACK);
        if head.kind != FrameKind::Settings || is_ack {
            let is_ack = head.kind == FrameKind::Settings;
            return Err(Fault::Violation(Violation::FirstFrame {
                head: *head,
                is_ack,
            }));
        }
        self.has_begun = true;
        Ok(())
    }

    fn take(&mut self, frame: Frame) -> Result<(), Fault> {
        let head = frame.head;
        match head.kind {
            FrameKind::Data => self.data(frame),
            FrameKind::Headers => self.headers(&frame),
            FrameKind::RstStream => self.reset_by_server(&frame),
            FrameKind::Settings => self.settings(&frame),
            FrameKind::Ping => self.pinged(frame),
            FrameKind::GoAway => self.going_away(&frame),
            FrameKind::WindowUpdate => self.credited(&frame),
            FrameKind::PushPromise => Err(Fault::Violation(Violation::PushPromise(head.stream))),
            FrameKind::Continuation => Err(Fault::from(BlockViolation::Lone(head))),
            FrameKind::Priority | FrameKind::Unknown(_) => Ok(()),
        }
    }

    /// DATA, within the windows (sections 5.2 and 6.9.1).
    fn data(&mut self, frame: Frame) -> Result<(), Fault> {
        let Frame { head, content } = frame;
        let taken = self.streams.judge(&head)?;
        self.credit.receive(head.stream, head.length)?;
        self.streams.count(head.stream, head.length);
        if taken.is_some() {
            let last = self.advance(&head);
            if last || !content.is_empty() {
                self.arrived.push_back(Arrival {
                    stream: head.stream,
                    content: Content::Data(content),
                    last,
                })?;
            }
        }
        match self.credit.came(head.stream) {
            // A PING that is still unanswered asks this already.
            CreditStep::Ask if self.pings.is_open() => Ok(()),
            step => self.take_step(step),
        }
    }

    /// A frame of a stream is taken. Answers whether the server says nothing more on the stream.
    fn advance(&mut self, head: &FrameHead) -> bool {
        self.streams.take(head);
        let last = head.kind == FrameKind::RstStream || head.flags.contains(Flags::END_STREAM);
        if last {
            self.credit.end(head.stream);
        }
        last
    }

    /// HEADERS, with the frames that go on with them. Each block is decoded, also where its fields
    /// are dropped.
    fn headers(&mut self, frame: &Frame) -> Result<(), Fault>
        requires { frame.now.head.kind ≡ Headers }
    {
        let head = frame.head;
        let phase = self.streams.judge(&head)?;
        let fields = self.header_block(frame)?;
        let Some(phase) = phase else {
            return Ok(());
        };
        let last = head.flags.contains(Flags::END_STREAM);
        let judged = match phase {
            Phase::Waiting => judge_head(self.alloc, fields.as_slice(), last),
            _ => match judge_trailers(self.alloc, fields.as_slice()) {
                Ok(()) => Ok(ResponseHead::Final),
                Err(fault) => Err(fault),
            },
        };
        match judged {
            Ok(ResponseHead::Final) => self.arrive(&head, fields),
            Ok(ResponseHead::Informational) => {
                self.has_informed = true;
                Ok(())
            }
            Err(FieldFault::Rule(violation)) => {
                Err(Fault::Violation(Violation::Field(head.stream, violation)))
            }
            Err(FieldFault::OutOfMemory) => Err(Fault::OutOfMemory),
        }
    }

    /// Fields begin or end a response.
    fn arrive(&mut self, head: &FrameHead, fields: Vec<Field>) -> Result<(), Fault> {
        let last = self.advance(head);
        self.arrived.push_back(Arrival {
            stream: head.stream,
            content: Content::Fields(fields),
            last,
        })?;
        Ok(())
    }

    /// The fields of a header block (section 4.3).
    fn header_block(&mut self, frame: &Frame) -> Result<Vec<Field>, Fault>
        requires { frame.now.head.kind ≡ Headers }
    {
        let stream = frame.head.stream;
        if frame.content.len() > MAX_PAYLOAD as usize {
            return Err(Fault::OwnBound(OwnBound::Block(stream)));
        }
        let mut block = HeaderBlock::begin(self.alloc, frame)?;
        let before = self.await_next(WaitGoal::Block(stream));
        for _ in 0..u64::MAX {
            if block.is_whole() {
                let _block = self.await_next(before);
                return self.decode(stream, block.as_slice());
            }
            let next = self.next_frame()?;
            match block.add(&next) {
                Ok(()) => {}
                Err(FragmentFault::Interrupted) => {
                    return Err(Fault::from(BlockViolation::Interrupted(stream, next.head)));
                }
                Err(FragmentFault::TooLong) => {
                    return Err(Fault::OwnBound(OwnBound::Block(stream)));
                }
                Err(FragmentFault::OutOfMemory) => return Err(Fault::OutOfMemory),
            }
        }
        Err(Fault::OwnBound(OwnBound::Block(stream)))
    }

    /// The fields of a whole header block (RFC 7541).
    fn decode(&mut self, stream: StreamId, block: &[u8]) -> Result<Vec<Field>, Fault> {
        match self.decoder.block(block) {
            Ok(fields) => Ok(fields),
            Err(HpackFault::OutOfMemory) => Err(Fault::OutOfMemory),
            Err(HpackFault::TooLarge) => Err(Fault::OwnBound(OwnBound::Fields(stream))),
            Err(HpackFault::Integer) => Err(Fault::OwnBound(OwnBound::Integer(stream))),
            Err(fault) => Err(Fault::from(BlockViolation::Hpack {
                stream,
                length: block.len(),
                fault,
            })),
        }
    }

    /// RST_STREAM.
    fn reset_by_server(&mut self, frame: &Frame) -> Result<(), Fault> {
        let head = frame.head;
        if self.streams.judge(&head)?.is_none() {
            return Ok(());
        }
        let last = self.advance(&head);
        self.arrived.push_back(Arrival {
            stream: head.stream,
            content: Content::Reset(number_at(frame.content.as_slice(), 0)),
            last,
        })?;
        Ok(())
    }

    /// The server's SETTINGS hold from now on, and are acknowledged (section 6.5.3).
    fn settings(&mut self, frame: &Frame) -> Result<(), Fault> {
        if frame.head.flags.contains(Flags::ACK) {
            self.is_acknowledged = true;
            return Ok(());
        }
        let mut rest = frame.content.as_slice();
        while rest.len() >= PARAMETER_LEN {
            let (text, behind) = rest.split_at(PARAMETER_LEN);
            rest = behind;
            match read_setting(text)? {
                Some(PeerSetting::TableSize(size)) => self.encoder.limit(size),
                Some(PeerSetting::WindowSize(size)) => {
                    if self.windows.initial(size).is_err() {
                        return Err(Fault::from(WindowViolation::InitialOverflow { size }));
                    }
                }
                None => {}
            }
        }
        self.write(Outgoing::SettingsAck, 0, Bytes::new())
    }

    /// PING is answered; one with ACK has to have the bytes of the client's own (section 6.7).
    fn pinged(&mut self, frame: Frame) -> Result<(), Fault> {
        let Frame { head, content } = frame;
        if !head.flags.contains(Flags::ACK) {
            return self.write(Outgoing::PingAck, 0, content);
        }
        if content.len() != 8 {
            return Ok(());
        }
        if !self.pings.end(ping_bytes(content.as_slice()))? {
            return Ok(());
        }
        let step = self.credit.answered();
        self.take_step(step)
    }

    /// Does what is to be done of the windows.
    fn take_step(&mut self, step: CreditStep) -> Result<(), Fault> {
        match step {
            CreditStep::Nothing => Ok(()),
            CreditStep::Ask => self.ask(),
            CreditStep::OpenOne(stream) => {
                self.give_credit(stream)?;
                self.ask()
            }
            CreditStep::OpenBoth(stream) => {
                self.give_credit(stream)?;
                self.give_credit(0)
            }
        }
    }

    /// Gives the credit that is due on a stream, or on the connection where it is 0.
    fn give_credit(&mut self, stream: StreamId) -> Result<(), Fault> {
        let increment = self.credit.take_due_credit(stream);
        if increment == 0 || stream >= 0x8000_0000 {
            return Ok(());
        }
        let content = Bytes::copy_from_slice(self.alloc, &increment.to_be_bytes())?;
        self.write(Outgoing::Credit, stream, content)
    }

    /// GOAWAY: one without an error is kept, and may not be followed by one with a greater last
    /// stream (section 6.8).
    fn going_away(&mut self, frame: &Frame) -> Result<(), Fault> {
        let content = frame.content.as_slice();
        let last = number_at(content, 0) & 0x7fff_ffff;
        let code = number_at(content, 4);
        if let Some(before) = self.goaway {
            if last > before {
                return Err(Fault::Violation(Violation::GoAwayRises { before, last }));
            }
        }
        if code != 0 {
            let text = match content.split_at_checked(8) {
                Some((_, text)) => shown(self.alloc, text)?,
                None => String::new(self.alloc),
            };
            return Err(Fault::Violation(Violation::GoAway { code, last, text }));
        }
        self.goaway = Some(last);
        Ok(())
    }

    /// More may be written (section 6.9).
    fn credited(&mut self, frame: &Frame) -> Result<(), Fault> {
        let head = frame.head;
        let content = frame.content.as_slice();
        if head.stream != 0 && self.streams.judge(&head)?.is_none() {
            return Ok(());
        }
        if content.len() != 4 {
            return Ok(());
        }
        let stream = head.stream;
        let increment = increment(content);
        match self.windows.credit(stream, increment) {
            Err(WindowFault::Overflow) => {
                Err(Fault::from(WindowViolation::Overflow { stream, increment }))
            }
            _ => Ok(()),
        }
    }
}

/// The number of four bytes that begins there, or 0 where there are none.
fn number_at(bytes: &[u8], at: usize) -> u32
    requires { at < 16 }
{
    if bytes.len() < at + 4 {
        return 0;
    }
    u32::from_be_bytes([bytes[at], bytes[at + 1], bytes[at + 2], bytes[at + 3]])
}
