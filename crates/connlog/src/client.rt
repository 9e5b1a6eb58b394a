//! What the client's frames say, judged as the server judges them (RFC 9113, sections 3.4 to 6).

use crate::call::Call;
use crate::cause::{BlockCause, Cause, FrameCause, StreamCause, WindowCause};
use crate::conn_state::{ConnState, traffic_of};
use crate::fields::{request_fault, trailers_fault};
use crate::line::Event;
use crate::place::place_of;
use crate::text::escaped;
use crate::walk::{Part, fragment_of};
use h2frame::{ErrorCode, Flags, FrameFault, FrameHead, FrameKind, SettingId, StreamId};
use hpack_codec::HpackFault;
use limits::MAX_WINDOW;
use lists::Field;
use std::alloc::AllocError;
use streamstates::FrameAction;

/// The most bytes of a header block.
const MOST_BLOCK: usize = 65_536;

/// The bytes of a parameter in SETTINGS.
const PARAMETER_LEN: usize = 6;

impl ConnState {
    /// The client sent this.
    pub fn client_sent(&mut self, part: Part<'_>) -> Result<(), AllocError> {
        match part {
            Part::Frame(head, payload) => self.request_frame(head, payload),
            Part::Data(head) => self.request_data(head),
            Part::Content(head, bytes, is_last) => {
                if self.is_taken {
                    self.request_content(&head, bytes, is_last)?;
                }
                Ok(())
            }
            Part::Fault(head, fault, padding) => {
                let cause = FrameCause::Fault(head, fault, padding);
                self.fail(fault.error_code(), Cause::Frame(cause))
            }
        }
    }

    /// Whether a frame may not come where it does; then the connection ends.
    fn is_misplaced(&mut self, head: &FrameHead) -> Result<bool, AllocError> {
        let cause = if !self.has_settings && head.kind != FrameKind::Settings {
            Cause::Frame(FrameCause::First(*head))
        } else if let Some((begun, _)) = self.request.begun {
            if head.kind == FrameKind::Continuation && head.stream == begun.stream {
                return Ok(false);
            }
            Cause::Block(BlockCause::Interrupted(begun.stream, *head))
        } else if head.kind == FrameKind::Continuation {
            Cause::Block(BlockCause::Lone(head.stream))
        } else if head.kind == FrameKind::PushPromise {
            Cause::Frame(FrameCause::PushPromise(head.stream))
        } else {
            return Ok(false);
        };
        self.fail(ErrorCode::ProtocolError, cause)?;
        Ok(true)
    }

    fn request_frame(&mut self, head: FrameHead, payload: &[u8]) -> Result<(), AllocError> {
        if self.is_misplaced(&head)? {
            return Ok(());
        }
        match head.kind {
            FrameKind::Headers => self.request_headers(head, payload),
            FrameKind::Continuation => self.request_continuation(&head, payload),
            FrameKind::RstStream => self.client_reset(&head, payload),
            FrameKind::WindowUpdate => self.client_credit(&head, payload),
            FrameKind::Settings => self.client_settings(&head, payload),
            FrameKind::GoAway => self.client_goaway(payload),
            _ => Ok(()),
        }
    }

    // ---- header blocks

    fn request_headers(&mut self, head: FrameHead, payload: &[u8]) -> Result<(), AllocError> {
        let fragment = match fragment_of(&head, payload) {
            Ok(fragment) => fragment,
            Err(padding) => {
                let fault = FrameFault::BadPadding;
                let cause = Cause::Frame(FrameCause::Fault(head, fault, padding));
                return self.fail(fault.error_code(), cause);
            }
        };
        let verdict = self.judge(&head)?;
        if self.is_over {
            return Ok(());
        }
        if head.flags.contains(Flags::END_HEADERS) {
            return self.request_block(&head, verdict, fragment);
        }
        self.request.bytes.clear();
        self.request.bytes.extend_from_slice(fragment)?;
        self.request.begun = Some((head, verdict));
        Ok(())
    }

    fn request_continuation(&mut self, head: &FrameHead, payload: &[u8]) -> Result<(), AllocError> {
        let Some((begun, verdict)) = self.request.begun else {
            return Ok(());
        };
        let length = self.request.bytes.len().saturating_add(payload.len());
        if length > MOST_BLOCK {
            let cause = Cause::Block(BlockCause::TooLong(begun.stream, length));
            return self.fail(ErrorCode::EnhanceYourCalm, cause);
        }
        self.request.bytes.extend_from_slice(payload)?;
        if !head.flags.contains(Flags::END_HEADERS) {
            return Ok(());
        }
        self.request.begun = None;
        let bytes = std::mem::replace(&mut self.request.bytes, Vec::new(self.alloc));
        self.request_block(&begun, verdict, bytes.as_slice())
    }

    /// A header block is whole, whose HEADERS had this verdict.
    fn request_block(
        &mut self,
        head: &FrameHead,
        verdict: FrameAction,
        block: &[u8],
    ) -> Result<(), AllocError> {
        if let (FrameAction::Open, Some(method)) = (verdict, self.plain_requests.get(block)) {
            return self.begin_call(head, Call::plain(self.alloc, method, self.now));
        }
        let fields = match self.requests.block(block) {
            Ok(fields) => fields,
            Err(HpackFault::OutOfMemory) => return Err(AllocError),
            Err(fault) => return self.block_fault(head.stream, block, fault),
        };
        if verdict != FrameAction::Open {
            self.plain_requests.learn(block, None)?;
        }
        match verdict {
            FrameAction::Open => self.begin(head, block, fields.as_slice()),
            FrameAction::Accept => self.client_trailers(head, fields.as_slice()),
            FrameAction::StreamError(error) => {
                let cause = match error {
                    ErrorCode::StreamClosed => StreamCause::BehindEnd(*head),
                    _ => StreamCause::OpenTrailers,
                };
                self.blame(head.stream, error, Cause::Stream(cause))
            }
            _ => Ok(()),
        }
    }

    /// A header block has this fault.
    fn block_fault(
        &mut self,
        stream: StreamId,
        block: &[u8],
        fault: HpackFault,
    ) -> Result<(), AllocError> {
        let error = match fault {
            HpackFault::TooLarge => ErrorCode::EnhanceYourCalm,
            _ => ErrorCode::CompressionError,
        };
        let cause = BlockCause::Hpack {
            stream,
            length: block.len(),
            fault,
            place: place_of(self.alloc, block, fault),
        };
        self.fail(error, Cause::Block(cause))
    }

    /// A stream begins with these fields, which are those of the block.
    fn begin(
        &mut self,
        head: &FrameHead,
        block: &[u8],
        fields: &[Field],
    ) -> Result<(), AllocError> {
        let stream = head.stream;
        self.greatest = self.greatest.max(stream);
        if let Some(fault) = request_fault(self.alloc, fields)? {
            self.plain_requests.learn(block, None)?;
            self.cut(stream)?;
            return self.blame(stream, ErrorCode::ProtocolError, Cause::Fields(fault));
        }
        let call = Call::begin(self.alloc, fields, self.now)?;
        self.plain_requests.learn(block, call.plain_method())?;
        self.begin_call(head, call)
    }

    /// A stream begins with the head of this call.
    fn begin_call(&mut self, head: &FrameHead, call: Call) -> Result<(), AllocError> {
        let mut call = call;
        self.greatest = self.greatest.max(head.stream);
        let method = call.method;
        call.has_end = head.flags.contains(Flags::END_STREAM);
        let _before = self.calls.insert(head.stream, call)?;
        let Some(method) = method else {
            return Ok(());
        };
        self.begun = self.begun.saturating_add(1);
        self.tell(head.stream, Event::Opened(method), None)
    }

    fn client_trailers(&mut self, head: &FrameHead, fields: &[Field]) -> Result<(), AllocError> {
        if let Some(fault) = trailers_fault(self.alloc, fields)? {
            self.cut(head.stream)?;
            return self.blame(head.stream, ErrorCode::ProtocolError, Cause::Fields(fault));
        }
        self.end_half(head.stream);
        Ok(())
    }

    /// The client has ended its half of a stream.
    fn end_half(&mut self, stream: StreamId) {
        let now = self.now;
        let is_answered = match self.calls.get_mut(&stream) {
            Some(call) => {
                call.has_end = true;
                call.heard = now;
                call.is_answered
            }
            None => return,
        };
        if is_answered {
            self.forget(stream);
        }
    }

    // ---- DATA

    fn request_data(&mut self, head: FrameHead) -> Result<(), AllocError> {
        self.is_taken = false;
        if self.is_misplaced(&head)? {
            return Ok(());
        }
        let verdict = self.judge(&head)?;
        if self.is_over {
            return Ok(());
        }
        // The server's credit may be shown after what it let come.
        let (left, length) = (self.came, i64::from(head.length));
        self.came = left.saturating_sub(length);
        if length > left {
            let cause = Cause::Window(WindowCause::Connection(head, left));
            self.blame(0, ErrorCode::FlowControlError, cause)?;
        }
        match verdict {
            FrameAction::Accept => self.data_of_call(&head),
            FrameAction::StreamError(error) => {
                let cause = Cause::Stream(StreamCause::BehindEnd(head));
                self.blame(head.stream, error, cause)
            }
            _ => Ok(()),
        }
    }

    /// DATA that are lawful on their stream begin.
    fn data_of_call(&mut self, head: &FrameHead) -> Result<(), AllocError> {
        let now = self.now;
        let Some(call) = self.calls.get_mut(&head.stream) else {
            return Ok(());
        };
        call.heard = now;
        let left = call.came;
        call.came = left.saturating_sub(i64::from(head.length));
        if i64::from(head.length) > left {
            let cause = Cause::Window(WindowCause::Stream(*head, left));
            self.blame(head.stream, ErrorCode::FlowControlError, cause)?;
        }
        self.is_taken = true;
        if head.length == 0 && head.flags.contains(Flags::END_STREAM) {
            self.end_half(head.stream);
        }
        Ok(())
    }

    /// Bytes of DATA for a call.
    fn request_content(
        &mut self,
        head: &FrameHead,
        bytes: &[u8],
        is_last: bool,
    ) -> Result<(), AllocError> {
        let alloc = self.alloc;
        if let Some(call) = self.calls.get_mut(&head.stream) {
            call.request(alloc, bytes)?;
        }
        if is_last && head.flags.contains(Flags::END_STREAM) {
            self.end_half(head.stream);
        }
        Ok(())
    }

    // ---- frames that carry numbers

    fn client_reset(&mut self, head: &FrameHead, payload: &[u8]) -> Result<(), AllocError> {
        if self.judge(head)? != FrameAction::Accept {
            return Ok(());
        }
        let stream = head.stream;
        let Some(call) = self.calls.get(&stream) else {
            return Ok(());
        };
        let (method, is_answered, traffic) = (call.method, call.is_answered, traffic_of(call));
        let Some(method) = method else {
            // What refuses it may be on its way.
            self.end_half(stream);
            return Ok(());
        };
        self.forget(stream);
        if is_answered {
            return Ok(());
        }
        let event = Event::Cancelled(method, number(payload), traffic);
        self.tell(stream, event, None)
    }

    /// The client says that it begins no more calls.
    fn client_goaway(&mut self, payload: &[u8]) -> Result<(), AllocError> {
        let last = number(payload) & MAX_WINDOW;
        let code = number(payload.get(4..).unwrap_or(b"".as_slice()));
        let debug = escaped(self.alloc, payload.get(8..).unwrap_or(b"".as_slice()))?;
        self.tell(0, Event::ClientGoAway { code, last, debug }, None)
    }

    fn client_credit(&mut self, head: &FrameHead, payload: &[u8]) -> Result<(), AllocError> {
        let increment = number(payload) & MAX_WINDOW;
        let stream = head.stream;
        if stream == 0 && increment == 0 {
            let fault = FrameFault::ZeroIncrement(0);
            let cause = Cause::Frame(FrameCause::Fault(*head, fault, 0));
            return self.fail(fault.error_code(), cause);
        }
        if stream == 0 {
            let window = self.sends;
            self.sends = window.saturating_add(i64::from(increment));
            return self.check_credit(0, increment, window);
        }
        if self.judge(head)? != FrameAction::Accept {
            return Ok(());
        }
        if increment == 0 {
            self.cut(stream)?;
            let cause = Cause::Stream(StreamCause::ZeroIncrement);
            return self.blame(stream, ErrorCode::ProtocolError, cause);
        }
        let (now, initial) = (self.now, self.initial);
        let Some(call) = self.calls.get_mut(&stream) else {
            return Ok(());
        };
        call.heard = now;
        let window = initial.saturating_add(call.credit);
        call.credit = call.credit.saturating_add(i64::from(increment));
        self.check_credit(stream, increment, window)
    }

    /// Notes credit that takes a window of this size over 2^31 - 1.
    fn check_credit(
        &mut self,
        stream: StreamId,
        increment: u32,
        window: i64,
    ) -> Result<(), AllocError> {
        if window.saturating_add(i64::from(increment)) <= i64::from(MAX_WINDOW) {
            return Ok(());
        }
        let cause = WindowCause::Credit {
            stream,
            increment,
            window,
        };
        self.blame(stream, ErrorCode::FlowControlError, Cause::Window(cause))
    }

    fn client_settings(&mut self, head: &FrameHead, payload: &[u8]) -> Result<(), AllocError> {
        self.has_settings = true;
        if head.flags.contains(Flags::ACK) {
            return Ok(());
        }
        let mut rest = payload;
        for _ in 0..payload.len() {
            let Some((parameter, behind)) = rest.split_at_checked(PARAMETER_LEN) else {
                return Ok(());
            };
            rest = behind;
            let id = number(parameter) >> 16;
            let value = number(parameter.get(2..).unwrap_or(b"".as_slice()));
            self.client_setting(id as u16, value)?;
            if self.is_over {
                return Ok(());
            }
        }
        Ok(())
    }

    fn client_setting(&mut self, id: u16, value: u32) -> Result<(), AllocError> {
        let (is_lawful, error) = match SettingId::from_code(id) {
            SettingId::EnablePush => (value <= 1, ErrorCode::ProtocolError),
            SettingId::InitialWindowSize => (value <= MAX_WINDOW, ErrorCode::FlowControlError),
            SettingId::MaxFrameSize => (
                16_384 <= value && value <= 16_777_215,
                ErrorCode::ProtocolError,
            ),
            _ => return Ok(()),
        };
        if !is_lawful {
            let cause = Cause::Frame(FrameCause::Setting { id, value });
            return self.fail(error, cause);
        }
        if id == SettingId::InitialWindowSize.code() {
            return self.resize(value);
        }
        Ok(())
    }

    /// The windows of streams begin with this size from here on, and those that are there move with
    /// it.
    fn resize(&mut self, size: u32) -> Result<(), AllocError> {
        self.initial = i64::from(size);
        let most = self
            .calls
            .values()
            .map(|call| call.credit)
            .max()
            .unwrap_or(0);
        let grown = self.initial.saturating_add(most);
        if grown <= i64::from(MAX_WINDOW) {
            return Ok(());
        }
        let cause = Cause::Window(WindowCause::Initial { size, grown });
        self.blame(0, ErrorCode::FlowControlError, cause)
    }
}

/// The number in the first four bytes.
pub fn number(bytes: &[u8]) -> u32 {
    match bytes {
        [a, b, c, d, ..] => u32::from_be_bytes([*a, *b, *c, *d]),
        _ => 0,
    }
}
