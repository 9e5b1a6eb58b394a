//! Events as the rows have them, each after a space. Of a head the path, the timeout in
//! nanoseconds, and the echoes.

use callhead::{CallHead, Encoding};
use session::{InEvent, PeerControl};
use std::alloc::{AllocError, Global};

const DIGITS: &[u8; 16] = b"0123456789abcdef";

/// The digits of bytes.
pub fn push_bytes(out: &mut String, bytes: &[u8]) -> Result<(), AllocError> {
    for byte in bytes {
        out.push(char::from(DIGITS[usize::from(*byte / 16)]))?;
        out.push(char::from(DIGITS[usize::from(*byte % 16)]))?;
    }
    Ok(())
}

fn push_head(out: &mut String, head: &CallHead) -> Result<(), AllocError> {
    for byte in head.path.as_slice() {
        out.push(char::from(*byte))?;
    }
    write!(out, ", {:?}, [", head.timeout)?;
    if head.encoding != Encoding::Identity {
        out.push_str("compressed ")?;
    }
    for echo in head.echo_initial.as_slice() {
        out.push_str(echo.as_str())?;
    }
    out.push_str("], [")?;
    for echo in head.echo_trailing.as_slice() {
        push_bytes(out, echo.as_slice())?;
    }
    out.push(']')
}

fn push_control(out: &mut String, control: &PeerControl) -> Result<(), AllocError> {
    match control {
        PeerControl::Settings(settings) => write!(out, " Settings{:?}", settings.as_slice()),
        PeerControl::Window(id, more) => write!(out, " Window({id}, {more})"),
        PeerControl::Ping(bytes) => {
            out.push_str(" Ping(")?;
            push_bytes(out, bytes.as_slice())?;
            out.push(')')
        }
    }
}

/// An event, after a space.
pub fn push_event(out: &mut String, event: &InEvent) -> Result<(), AllocError> {
    match event {
        InEvent::Open(id, head) => {
            write!(out, " Open({id}, ")?;
            push_head(out, head)?;
            out.push(')')
        }
        InEvent::Data(id, piece, counted) => {
            write!(out, " Data({id}, ")?;
            push_bytes(out, piece.as_slice())?;
            write!(out, ", {counted})")
        }
        InEvent::Control(control) => push_control(out, control),
        InEvent::Fatal(reason) => write!(out, " Fatal({:?})", reason.code()),
        other => write!(out, " {other:?}"),
    }
}

/// Events, one after the other.
pub fn text_of(alloc: Global, events: &[InEvent]) -> Result<String, AllocError> {
    let mut out = String::new(alloc);
    for event in events {
        push_event(&mut out, event)?;
    }
    Ok(out)
}
