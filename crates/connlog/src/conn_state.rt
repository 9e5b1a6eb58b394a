//! What is known of a connection by the frames of both sides, and the lines about it.

ghost use Rattle.std.specs.Prelude.{◌≡◌, ◌<◌, ◌≤◌, ◌%◌, OnOk};
ghost use Rattle.std.specs.List.{IsAmong};
ghost use Rattle.connlog.specs.declared.cause.StreamCause.TheVariants as causes;

use crate::call::{Call, MethodName};
use crate::cause::{Cause, ServerCause, StreamCause};
use crate::known_block::KnownBlock;
use crate::line::{CallWait, ConnEnding, Event, Line, Status, Traffic};
use h2frame::{ErrorCode, Flags, FrameHead, FrameKind, StreamId};
use hpack_codec::Decoder;
use indexmap::IndexMap;
use limits::INITIAL_WINDOW;
use std::alloc::{AllocError, Global};
use streamstates::{FrameAction, Halves};

/// How many seconds a call waits before a line says so.
const PATIENCE: u64 = 5;

/// The last stream of a GOAWAY that says no more than that more will follow (RFC 9113, section
/// 6.8).
const GREATEST_STREAM: StreamId = 2_147_483_647;

/// How many causes wait at most for what the server does about them.
const MOST_BLAMES: usize = 64;

/// A header block over its frames.
#[derive(Drop)]
pub struct Block {
    /// The head of its HEADERS and their verdict, while it isn't whole.
    pub begun: Option<(FrameHead, FrameAction)>,
    pub bytes: Vec<u8>,
}

/// A cause, and what is to follow from it: the error of a stream, or at 0 of the connection.
#[derive(Drop)]
struct Blame {
    stream: StreamId,
    error: ErrorCode,
    cause: Cause,
}

/// What is known of a connection.
#[derive(Drop)]
pub struct ConnState {
    pub alloc: Global,
    pub requests: Decoder,
    pub responses: Decoder,
    /// Blocks that were read before: of requests that say no more than their method, and of
    /// trailers that have no more than a code.
    pub plain_requests: KnownBlock<MethodName>,
    pub plain_trailers: KnownBlock<u32>,
    /// The blocks that the client and the server have begun.
    pub request: Block,
    pub response: Block,
    pub halves: Halves,
    /// The streams that neither side has ended for good.
    pub calls: IndexMap<StreamId, Call>,
    /// The greatest that the client began, and how many it did.
    pub greatest: StreamId,
    pub begun: u64,
    /// Whether the first SETTINGS came.
    pub has_settings: bool,
    /// Whether the server said that it stops.
    is_draining: bool,
    /// Whether the call of the DATA that come takes them.
    pub is_taken: bool,
    /// Whether the client has ended the connection by an error.
    pub is_over: bool,
    /// How many bytes of DATA the client may send on the connection.
    pub came: i64,
    /// How many the server may send on the connection, and at first on each stream.
    pub sends: i64,
    pub initial: i64,
    pub now: u64,
    pub lines: Vec<Line>,
    blames: Vec<Blame>,
}

impl ConnState {
    /// A new connection. It takes no memory yet.
    pub fn new(alloc: Global) -> ConnState {
        ConnState {
            alloc,
            requests: Decoder::new(alloc),
            responses: Decoder::new(alloc),
            plain_requests: KnownBlock::new(alloc),
            plain_trailers: KnownBlock::new(alloc),
            request: Block::new(alloc),
            response: Block::new(alloc),
            halves: Halves::new(alloc),
            calls: IndexMap::new(alloc),
            greatest: 0,
            begun: 0,
            has_settings: false,
            is_draining: false,
            is_taken: false,
            is_over: false,
            came: i64::from(INITIAL_WINDOW),
            sends: i64::from(INITIAL_WINDOW),
            initial: i64::from(INITIAL_WINDOW),
            now: 0,
            lines: Vec::new(alloc),
            blames: Vec::new(alloc),
        }
    }

    /// Notes why the server will end a stream with this error, or at 0 the connection.
    pub fn blame(
        &mut self,
        stream: StreamId,
        error: ErrorCode,
        cause: Cause,
    ) -> Result<(), AllocError>
        ensures noted { OnOk result (IsAmong self.new.blames.items
            (record { stream = stream; error = error; cause = cause })) }
    {
        if self.blames.len() >= MOST_BLAMES {
            self.blames.clear();
        }
        self.blames.push(Blame {
            stream,
            error,
            cause,
        })?;
        Ok(())
    }

    /// Notes why the connection ends with this error. Nothing that the client sends after that is
    /// looked at.
    pub fn fail(&mut self, error: ErrorCode, cause: Cause) -> Result<(), AllocError>
        ensures noted { OnOk result (IsAmong self.new.blames.items
            (record { stream = 0; error = error; cause = cause })) }
    {
        self.is_over = true;
        self.blame(0, error, cause)
    }

    /// Why a stream, or at 0 the connection, has ended with this error: the first cause that was
    /// noted.
    pub fn cause_of(&mut self, stream: StreamId, error: ErrorCode) -> Option<Cause> {
        let at = self
            .blames
            .iter()
            .position(|blame| blame.stream == stream && blame.error == error)?;
        if at < self.blames.len() {
            let Blame { cause, .. } = self.blames.remove(at);
            return Some(cause);
        }
        None
    }

    /// The server won't end a stream, or at 0 the connection, with this error for what was noted so
    /// far.
    pub fn excuse(&mut self, stream: StreamId, error: ErrorCode) {
        if !self.blames.is_empty() {
            self.blames
                .retain(|blame| blame.stream != stream || blame.error != error);
        }
    }

    /// The verdict of a frame by the states of streams. An error of the stream resets it.
    pub fn judge(&mut self, head: &FrameHead) -> Result<FrameAction, AllocError> {
        if head.stream == 0 {
            return Ok(FrameAction::Discard);
        }
        let verdict = match head.kind {
            FrameKind::Data | FrameKind::Headers | FrameKind::RstStream | FrameKind::WindowUpdate =>
                self.halves.on(head)?,
            _ => FrameAction::Discard,
        };
        match verdict {
            FrameAction::StreamError(_) => self.cut(head.stream)?,
            FrameAction::ConnectionError(error) => {
                let cause = Cause::Stream(self.state_cause(*head));
                self.fail(error, cause)?;
            }
            _ => {}
        }
        Ok(verdict)
    }

    /// Why a frame is an error of the connection by the state of its stream.
    fn state_cause(&self, head: FrameHead) -> StreamCause
        ensures even { head.stream % 2 ≡ 0 → result ≡ causes.Even head }
        ensures idle { head.stream % 2 ≡ 1 → self.entry.now.greatest < head.stream
            → result ≡ causes.Idle head }
        ensures skipped { head.stream % 2 ≡ 1 → head.stream ≤ self.entry.now.greatest
            → result ≡ causes.Skipped head self.entry.now.greatest }
    {
        if head.stream % 2 == 0 {
            StreamCause::Even(head)
        } else if head.stream > self.greatest {
            StreamCause::Idle(head)
        } else {
            StreamCause::Skipped(head, self.greatest)
        }
    }

    /// The server has reset the stream, or will.
    pub fn cut(&mut self, stream: StreamId) -> Result<(), AllocError> {
        if stream == 0 {
            return Ok(());
        }
        let reset = FrameHead {
            kind: FrameKind::RstStream,
            flags: Flags::NONE,
            stream,
            length: 4,
        };
        let _verdict = self.halves.on(&reset)?;
        Ok(())
    }

    /// A line of a stream, or at 0 of the connection.
    pub fn tell(
        &mut self,
        stream: StreamId,
        event: Event,
        why: Option<Cause>,
    ) -> Result<(), AllocError> {
        self.lines.push(Line { stream, event, why })?;
        Ok(())
    }

    /// The server ended the stream with this status.
    pub fn answer(&mut self, stream: StreamId, status: Status) -> Result<(), AllocError> {
        let Some(call) = self.calls.get_mut(&stream) else {
            return Ok(());
        };
        call.is_answered = true;
        let why = call.why(status.text());
        let event = match call.method {
            Some(method) => Event::Answered(method, status, traffic_of(call)),
            None => Event::Refused(status),
        };
        if call.has_end {
            self.forget(stream);
        }
        self.tell(stream, event, why)
    }

    /// The server reset the stream.
    pub fn reset(&mut self, stream: StreamId, code: u32) -> Result<(), AllocError> {
        self.forget(stream);
        self.cut(stream)?;
        let error = ErrorCode::from_code(code);
        let why = self
            .cause_of(stream, error)
            .or(own_cause(error, self.is_draining));
        self.tell(stream, Event::Reset(code), why)
    }

    /// The server sent GOAWAY.
    pub fn go_away(&mut self, code: u32, last: StreamId) -> Result<(), AllocError> {
        let error = ErrorCode::from_code(code);
        let why = match error {
            ErrorCode::NoError => {
                self.is_draining = self.is_draining || last == GREATEST_STREAM;
                let cause = if self.is_draining {
                    ServerCause::Drain
                } else {
                    ServerCause::AllStreams
                };
                Some(Cause::Server(cause))
            }
            _ => self.cause_of(0, error),
        };
        self.tell(0, Event::GoAway(code, last), why)
    }

    /// Both sides have ended the stream, or one has reset it.
    pub fn forget(&mut self, stream: StreamId) {
        let _call = self.calls.swap_remove(&stream);
    }

    /// A second has gone by: a line for each call that has waited long enough.
    pub fn tick(&mut self) -> Result<(), AllocError> {
        self.now = self.now.saturating_add(1);
        for (stream, call) in self.calls.iter_mut() {
            let waited = self.now.saturating_sub(call.heard);
            let Some(method) = call.method else {
                continue;
            };
            if !call.is_answered && call.has_passed(self.now) {
                let waiting = waiting_of(call, method, self.sends, self.initial);
                if waiting.is_window() {
                    self.lines.push(Line {
                        stream: *stream,
                        event: Event::Overdue(method, waiting),
                        why: None,
                    })?;
                }
            }
            if call.is_answered || waited != PATIENCE + 1 {
                continue;
            }
            let waiting = waiting_of(call, method, self.sends, self.initial);
            self.lines.push(Line {
                stream: *stream,
                event: Event::Waits(method, PATIENCE, waiting),
                why: None,
            })?;
        }
        Ok(())
    }

    /// The connection has ended: a line of each call that has not, and one of it.
    pub fn end(&mut self, how: ConnEnding, is_followed: bool) -> Result<(), AllocError> {
        for (stream, call) in self.calls.iter() {
            if call.is_answered {
                continue;
            }
            if let Some(method) = call.method {
                self.lines.push(Line {
                    stream: *stream,
                    event: Event::Left(method, traffic_of(call)),
                    why: None,
                })?;
            }
        }
        let calls = self.begun;
        let event = Event::Ended {
            how,
            calls,
            is_followed,
        };
        self.tell(0, event, None)
    }
}

impl Block {
    fn new(alloc: Global) -> Block {
        Block {
            begun: None,
            bytes: Vec::new(alloc),
        }
    }
}

/// The messages of a call so far.
pub fn traffic_of(call: &Call) -> Traffic {
    Traffic {
        requests: call.requests,
        replies: call.replies,
    }
}

/// Why the server resets a stream whose client broke no rule. `is_draining` says whether the server
/// stops.
fn own_cause(error: ErrorCode, is_draining: bool) -> Option<Cause> {
    match error {
        ErrorCode::RefusedStream if is_draining => Some(Cause::Server(ServerCause::Drain)),
        ErrorCode::RefusedStream => Some(Cause::Server(ServerCause::LiveCalls)),
        ErrorCode::EnhanceYourCalm => Some(Cause::Server(ServerCause::NoRoom)),
        ErrorCode::Cancel => Some(Cause::Server(ServerCause::InputEnded)),
        ErrorCode::InternalError => Some(Cause::Server(ServerCause::Left)),
        _ => None,
    }
}

/// What a call waits for, by the bytes that the server may send on the connection, and at first on
/// each stream. Before the client's end only a full-duplex call may have something to send.
fn waiting_of(call: &Call, method: MethodName, sends: i64, initial: i64) -> CallWait {
    let window = initial.saturating_add(call.credit);
    let may_send = method == MethodName::FullDuplexCall && call.requests.count > 0;
    if !call.has_end && !may_send {
        CallWait::End(call.requests.count)
    } else if window <= 0 {
        CallWait::Stream(window)
    } else if sends <= 0 {
        CallWait::Connection(sends)
    } else if !call.has_end {
        CallWait::End(call.requests.count)
    } else {
        CallWait::Method
    }
}
