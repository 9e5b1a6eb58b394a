//! The lines that are printed.

use crate::case::Case;
use crate::outcome::CaseOutcome;
use crate::reaction::{LawfulReaction, Reaction, push_codes};
use crate::seen_frames::{SeenFrame, SeenFrames, stream_of};
use h2frame::FrameKind;
use results::{Outcome, Verdict};
use std::alloc::{AllocError, Global};

/// The most bytes of what a case writes that are printed.
const SHOWN: usize = 400;

/// Adds the line of `--list` for a case.
pub fn push_entry(text: &mut String, case: &Case) -> Result<(), AllocError> {
    let group = case.group.name();
    let number = case.number;
    let title = case.title;
    let level = case.level.name();
    let section = case.section;
    writeln!(text, "{group}/{number} {title} ({level}; {section})")
}

/// The lines that are printed of a case that was run, and one more if the server answers no more.
/// If `is_verbose`, they also have its section, what was written and what was read.
pub fn text_of(alloc: Global, ended: &CaseOutcome, is_verbose: bool) -> Result<String, AllocError> {
    let mut text = String::new(alloc);
    push_line(&mut text, &ended.outcome)?;
    if is_verbose {
        push_details(&mut text, ended)?;
    }
    if !ended.is_alive {
        text.push_str("wire: the server answers no more\n")?;
    }
    Ok(text)
}

/// The line that is printed of a case for which there was no connection.
pub fn lost_text(alloc: Global, outcome: &Outcome) -> Result<String, AllocError> {
    let mut text = String::new(alloc);
    push_line(&mut text, outcome)?;
    Ok(text)
}

/// Adds the line of a case.
fn push_line(text: &mut String, outcome: &Outcome) -> Result<(), AllocError> {
    let name = outcome.name.as_str();
    let title = words_of(&outcome.title);
    let wanted = words_of(&outcome.wanted);
    let came = words_of(&outcome.came);
    write!(text, "wire {name} {title}")?;
    match outcome.verdict {
        Verdict::Ok => text.push_str(" .. ok")?,
        Verdict::NotApplicable | Verdict::NotTested => {
            let verdict = outcome.verdict.name();
            let why = words_of(&outcome.reason);
            write!(text, " .. {verdict}: {why}")?;
        }
        Verdict::Failed => {
            write!(text, ": wanted {wanted}, came {came} -- failed")?;
            push_level(text, outcome)?;
            push_rule(text, outcome)?;
        }
        Verdict::Unsteady => {
            let tries = outcome.tries;
            let failed = tries.saturating_sub(outcome.passed);
            write!(text, ": wanted {wanted}, came {came} in {failed}")?;
            write!(text, " of {tries} tries -- unsteady")?;
            push_level(text, outcome)?;
        }
    }
    text.push_str("\n")
}

fn words_of(text: &Option<String>) -> &str {
    match text {
        Some(text) => text.as_str(),
        None => "",
    }
}

/// Adds how binding the case is.
fn push_level(text: &mut String, outcome: &Outcome) -> Result<(), AllocError> {
    match outcome.level {
        Some(level) => {
            let level = level.name();
            write!(text, " ({level})")
        }
        None => Ok(()),
    }
}

/// Adds what the case rests on: the standard and the section, and the sentence where it is known.
fn push_rule(text: &mut String, outcome: &Outcome) -> Result<(), AllocError> {
    let Some(rule) = &outcome.rule else {
        return Ok(());
    };
    let place = rule.place.as_str();
    write!(text, ": {place}")?;
    match &rule.sentence {
        Some(sentence) => {
            let sentence = sentence.as_str();
            write!(text, ": {sentence}")
        }
        None => Ok(()),
    }
}

/// Adds what `--verbose` says of a case: its section, what came, what was written and which frames
/// were read.
fn push_details(text: &mut String, ended: &CaseOutcome) -> Result<(), AllocError> {
    let CaseOutcome { case, outcome, .. } = ended;
    let rule = case.section;
    let level = case.level.name();
    let milliseconds = outcome.milliseconds;
    writeln!(text, "  {level}: {rule}")?;
    match &outcome.came {
        Some(came) => {
            let came = came.as_str();
            writeln!(text, "  came {came}, in {milliseconds} ms")?;
        }
        None => writeln!(text, "  it took {milliseconds} ms")?,
    }
    if let Some(sent) = &outcome.sent {
        push_sent(text, sent.as_slice())?;
    }
    push_frames(text, outcome.frames.as_slice())
}

/// Adds a line of each frame that was read.
fn push_frames(text: &mut String, frames: &[String]) -> Result<(), AllocError> {
    for frame in frames {
        text.push_str("  read ")?;
        text.push_str(frame.as_str())?;
        text.push_str("\n")?;
    }
    Ok(())
}

/// Adds the line of the bytes that were sent.
fn push_sent(text: &mut String, sent: &[u8]) -> Result<(), AllocError> {
    text.push_str("  sent ")?;
    push_hex(text, sent.get(..SHOWN).unwrap_or(sent))?;
    if sent.len() > SHOWN {
        let more = sent.len() - SHOWN;
        write!(text, " and {more} bytes more")?;
    }
    text.push_str("\n")
}

/// Adds a frame that was read: its type, its stream, its flags, its length, and its error if it
/// says one.
pub fn push_frame_line(text: &mut String, frame: &SeenFrame) -> Result<(), AllocError> {
    let head = frame.head;
    match head.kind {
        FrameKind::Unknown(kind) => write!(text, "type {kind}")?,
        kind => text.push_str(kind_name(kind))?,
    }
    let stream = head.stream;
    let flags = head.flags.bits;
    let length = head.length;
    write!(text, " stream {stream} flags {flags:02x} length {length}")?;
    match frame.code {
        Some(code) => write!(text, " error {code}"),
        None => Ok(()),
    }
}

/// The name of a type (RFC 9113, section 6).
pub fn kind_name(kind: FrameKind) -> &'static str {
    match kind {
        FrameKind::Data => "DATA",
        FrameKind::Headers => "HEADERS",
        FrameKind::Priority => "PRIORITY",
        FrameKind::RstStream => "RST_STREAM",
        FrameKind::Settings => "SETTINGS",
        FrameKind::PushPromise => "PUSH_PROMISE",
        FrameKind::Ping => "PING",
        FrameKind::GoAway => "GOAWAY",
        FrameKind::WindowUpdate => "WINDOW_UPDATE",
        FrameKind::Continuation => "CONTINUATION",
        FrameKind::Unknown(_) => "unknown",
    }
}

/// Adds the ways to pass, in words.
pub fn push_ways(text: &mut String, ways: &[LawfulReaction]) -> Result<(), AllocError> {
    for (place, lawful) in ways.iter().enumerate() {
        if place > 0 {
            text.push_str(" or ")?;
        }
        lawful.describe(text)?;
    }
    Ok(())
}

/// Adds what was wanted, and what came.
pub fn push_difference(
    text: &mut String,
    ways: &[LawfulReaction],
    seen: &SeenFrames,
) -> Result<(), AllocError> {
    text.push_str("wanted ")?;
    push_ways(text, ways)?;
    text.push_str(", came ")?;
    seen.describe(text)
}

impl LawfulReaction {
    /// Adds its reactions, in words. Where all are of stream 1, it isn't named.
    pub fn describe(&self, text: &mut String) -> Result<(), AllocError> {
        let is_first = self.is_of_first();
        for (place, reaction) in self.all.as_slice().iter().enumerate() {
            if place > 0 {
                text.push_str(" and ")?;
            }
            reaction.describe(text, is_first)?;
        }
        Ok(())
    }

    /// Whether all its reactions are of stream 1, or of none.
    fn is_of_first(&self) -> bool {
        for reaction in self.all.as_slice() {
            if reaction.stream() > 1 {
                return false;
            }
        }
        true
    }
}

impl Reaction {
    /// Adds it in words, with its stream, where that isn't the first and only one.
    fn describe(&self, text: &mut String, is_first: bool) -> Result<(), AllocError> {
        match self {
            Reaction::Connection(codes) => push_coded(text, "connection error", codes),
            Reaction::Goaway(codes) => push_coded(text, "GOAWAY", codes),
            Reaction::Crowded(codes) => {
                push_coded(text, "RST_STREAM", codes)?;
                text.push_str(" on some stream")
            }
            Reaction::Acks(count) => write!(text, "{count} acknowledgements of SETTINGS"),
            Reaction::Orderly => text.push_str("no DATA or HEADERS on a stream after its end"),
            Reaction::Closed => text.push_str("the end of the connection"),
            Reaction::Ignored => text.push_str("nothing but an answer to PING"),
            Reaction::Text => text.push_str("text of HTTP/1"),
            Reaction::First => text.push_str("SETTINGS as the first frame"),
            Reaction::Settings => text.push_str("SETTINGS with lawful values"),
            Reaction::Ping(content) => push_bytes(text, "PING with ACK and", content),
            Reaction::Silent(content) => push_bytes(text, "no PING with ACK and", content),
            Reaction::Total(count) => write!(text, "{count} bytes of DATA on all streams"),
            Reaction::Most { stream: 0, count } => {
                write!(text, "at most {count} bytes of DATA on all streams")
            }
            Reaction::Largest(most) => write!(text, "no DATA frame of over {most} bytes"),
            Reaction::Same { stream, other } => {
                write!(text, "the same statuses on streams {stream} and {other}")
            }
            _ => {
                self.describe_on_stream(text)?;
                push_stream(text, self.stream(), is_first)
            }
        }
    }

    /// Adds what is wanted on a stream, in words, without the stream.
    fn describe_on_stream(&self, text: &mut String) -> Result<(), AllocError> {
        match self {
            Reaction::Reset { codes, .. } => push_coded(text, "RST_STREAM", codes),
            Reaction::Stream { codes, .. } => push_coded(text, "stream error", codes),
            Reaction::Status { codes, .. } => push_coded(text, "status", codes),
            Reaction::Http { codes, .. } => push_coded(text, ":status", codes),
            Reaction::Answered(_) => text.push_str("the whole response"),
            Reaction::Rejected(_) => text.push_str("an error response"),
            Reaction::Failed(_) => text.push_str("an error response, RST_STREAM"),
            Reaction::Open(_) => text.push_str("no end and no RST_STREAM"),
            Reaction::Live(_) => text.push_str("no RST_STREAM"),
            Reaction::Nothing(_) => text.push_str("nothing"),
            Reaction::Begun(_) => text.push_str("some DATA"),
            Reaction::Single(_) => text.push_str("one header block and no DATA"),
            Reaction::Data { count, .. } => write!(text, "{count} bytes of DATA"),
            Reaction::Most { count, .. } => write!(text, "at most {count} bytes of DATA"),
            Reaction::Replies { count: 1, .. } => text.push_str("one message"),
            Reaction::Replies { count, .. } => write!(text, "{count} messages"),
            Reaction::Reply { content, .. } => push_bytes(text, "a last message of", content),
            Reaction::Has { content, .. } => push_bytes(text, "a message with", content),
            Reaction::Block { front, .. } => push_bytes(text, "a header block from", front),
            Reaction::Head { name, value, .. } => write!(text, "{name}: {value} in the head"),
            Reaction::Begins { name, value, .. } => write!(text, "{name}: {value}.. in the head"),
            Reaction::Trailer { name, value, .. } => {
                write!(text, "{name}: {value} in the trailers")
            }
            Reaction::Without { name, .. } => write!(text, "no {name}"),
            _ => Ok(()),
        }
    }

    /// The stream of a reaction that has one.
    fn stream(&self) -> u32 {
        match self {
            Reaction::Reset { stream, .. }
            | Reaction::Stream { stream, .. }
            | Reaction::Data { stream, .. }
            | Reaction::Most { stream, .. } => *stream,
            Reaction::Open(stream) | Reaction::Live(stream) | Reaction::Nothing(stream) => *stream,
            _ => stream_of(self),
        }
    }
}

/// Adds the stream of what is wanted, but for the first and only one.
fn push_stream(text: &mut String, stream: u32, is_first: bool) -> Result<(), AllocError> {
    if is_first {
        return Ok(());
    }
    write!(text, " on stream {stream}")
}

/// Adds numbers of which one is wanted, if any are named.
fn push_coded(text: &mut String, what: &str, codes: &[u32]) -> Result<(), AllocError> {
    text.push_str(what)?;
    if codes.is_empty() {
        return Ok(());
    }
    text.push_str(" ")?;
    push_codes(text, codes)
}

/// Adds bytes that are wanted, in hexadecimal.
fn push_bytes(text: &mut String, what: &str, bytes: &[u8]) -> Result<(), AllocError> {
    text.push_str(what)?;
    text.push_str(if bytes.is_empty() { " no bytes" } else { " " })?;
    push_hex(text, bytes)
}

/// Adds bytes in hexadecimal.
fn push_hex(text: &mut String, bytes: &[u8]) -> Result<(), AllocError> {
    for byte in bytes {
        write!(text, "{byte:02x}")?;
    }
    Ok(())
}
