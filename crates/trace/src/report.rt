//! The lines of a connection as text.

use crate::input::SentBytes;
use crate::line::{Form, Line, ShownLine};
use crate::tracing::Trace;
use std::alloc::AllocError;

/// Pushes the line of each frame of what the sides of a connection sent, and then of what each has
/// left over.
pub fn push_frames(text: &mut String, sent: &[SentBytes], form: Form) -> Result<(), AllocError> {
    let mut trace = Trace::new(*text.allocator());
    let mut last = 0;
    for piece in sent {
        let lines = trace.sent(piece.time, piece.side, piece.bytes.as_slice())?;
        push_lines(text, lines.as_slice(), form)?;
        last = piece.time;
    }
    let lines = trace.end(last)?;
    push_lines(text, lines.as_slice(), form)
}

/// Pushes lines, with an end of line after each.
pub fn push_lines(text: &mut String, lines: &[Line], form: Form) -> Result<(), AllocError> {
    for line in lines {
        let line = ShownLine { line, form };
        writeln!(text, "{line}").map_err(|_| AllocError)?;
    }
    Ok(())
}
