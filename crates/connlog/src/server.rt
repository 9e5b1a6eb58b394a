//! What the server's frames say.

use crate::client::number;
use crate::conn_state::ConnState;
use crate::line::Status;
use crate::tables::keeps_tables;
use crate::walk::Part;
use callhead::{first_value, read_status};
use h2frame::{ErrorCode, Flags, FrameHead, FrameKind};
use limits::MAX_WINDOW;
use lists::Field;
use std::alloc::{AllocError, Global};
use streamstates::FrameAction;

impl ConnState {
    /// The server sent this.
    pub fn server_sent(&mut self, part: Part<'_>) -> Result<(), AllocError> {
        match part {
            Part::Frame(head, payload) => self.reply_frame(head, payload),
            Part::Data(head) => {
                self.reply_data(&head);
                Ok(())
            }
            Part::Content(head, bytes, _) => {
                if let Some(call) = self.calls.get_mut(&head.stream) {
                    call.replies.feed(bytes);
                }
                Ok(())
            }
            Part::Fault(..) => Ok(()),
        }
    }

    fn reply_frame(&mut self, head: FrameHead, payload: &[u8]) -> Result<(), AllocError> {
        match head.kind {
            FrameKind::Headers if head.flags.contains(Flags::END_HEADERS) => {
                self.reply_block(&head, payload)
            }
            FrameKind::Headers => {
                self.response.bytes.clear();
                self.response.begun = Some((head, FrameAction::Accept));
                self.response.bytes.extend_from_slice(payload)
            }
            FrameKind::Continuation => self.reply_continuation(&head, payload),
            FrameKind::RstStream => self.reset(head.stream, number(payload)),
            FrameKind::GoAway => {
                let code = number(payload.get(4..).unwrap_or(b"".as_slice()));
                self.go_away(code, number(payload) & MAX_WINDOW)
            }
            FrameKind::WindowUpdate => {
                self.server_credit(&head, i64::from(number(payload)));
                Ok(())
            }
            _ => Ok(()),
        }
    }

    fn reply_continuation(&mut self, head: &FrameHead, payload: &[u8]) -> Result<(), AllocError> {
        self.response.bytes.extend_from_slice(payload)?;
        if !head.flags.contains(Flags::END_HEADERS) {
            return Ok(());
        }
        let Some((begun, _)) = self.response.begun.take() else {
            return Ok(());
        };
        let bytes = std::mem::replace(&mut self.response.bytes, Vec::new(self.alloc));
        self.reply_block(&begun, bytes.as_slice())
    }

    /// A header block of the server is whole.
    fn reply_block(&mut self, head: &FrameHead, block: &[u8]) -> Result<(), AllocError> {
        let is_last = head.flags.contains(Flags::END_STREAM);
        if is_last {
            if let Some(code) = self.plain_trailers.get(block) {
                return self.answer(head.stream, Status::Grpc(code, String::new(self.alloc)));
            }
        } else {
            let now = self.now;
            if let Some(call) = self.calls.get_mut(&head.stream) {
                call.heard = now;
            }
            if keeps_tables(block) {
                return Ok(());
            }
        }
        let Ok(fields) = self.responses.block(block) else {
            return Err(AllocError);
        };
        if !is_last {
            return self.plain_trailers.learn(block, None);
        }
        let status = status_of(self.alloc, fields.as_slice())?;
        self.plain_trailers.learn(block, plain_code(&status))?;
        self.answer(head.stream, status)
    }

    /// DATA of the server begin.
    fn reply_data(&mut self, head: &FrameHead) {
        let length = i64::from(head.length);
        self.sends = self.sends.saturating_sub(length);
        let now = self.now;
        if let Some(call) = self.calls.get_mut(&head.stream) {
            call.heard = now;
            call.credit = call.credit.saturating_sub(length);
        }
    }

    /// The server gives credit for DATA. If the DATA were shown before it, they weren't a fault.
    fn server_credit(&mut self, head: &FrameHead, increment: i64) {
        let window = if head.stream == 0 {
            self.came = self.came.saturating_add(increment);
            self.came
        } else if let Some(call) = self.calls.get_mut(&head.stream) {
            call.came = call.came.saturating_add(increment);
            call.came
        } else {
            return;
        };
        if window >= 0 {
            self.excuse(head.stream, ErrorCode::FlowControlError);
        }
    }
}

/// The code of a status without a text.
fn plain_code(status: &Status) -> Option<u32> {
    match status {
        Status::Grpc(code, text) if text.is_empty() => Some(*code),
        _ => None,
    }
}

/// What the fields that end a stream answer.
fn status_of(alloc: Global, fields: &[Field]) -> Result<Status, AllocError> {
    if let Some((code, text)) = read_status(alloc, fields)? {
        return Ok(Status::Grpc(code, text));
    }
    Ok(Status::Http(http_status(first_value(fields, b":status").unwrap_or(b"".as_slice()))))
}

/// The number that is written in these digits.
fn http_status(digits: &[u8]) -> u32 {
    digits.iter().fold(0u32, |number, digit| {
        number
            .saturating_mul(10)
            .saturating_add(u32::from(digit.saturating_sub(b'0')))
    })
}
