//! Verdicts on frames by what came before them: `verdicts.rows` has each kind of frame in each
//! state of its stream, and `streams.rows` the course of a connection on which as many streams
//! begin as may.

ghost use Rattle.std.specs.Prelude.{◌≡◌, ◌<◌, IfOk};
ghost use Rattle.streamstates.specs.Halves.{IsJudged};

use anyhow::{Context, Result, bail, ensure};
use streamstates::{FrameAction, Halves};
use h2frame::{ErrorCode, Flags, FrameHead, FrameKind, StreamId};
use rows::number;
use std::alloc::Global;

/// The frames that are judged, with END_STREAM or without, in the order of the columns of
/// `verdicts.rows`.
const KINDS: [&str; 6] = [
    "DATA",
    "DATA+END_STREAM",
    "HEADERS",
    "HEADERS+END_STREAM",
    "RST_STREAM",
    "WINDOW_UPDATE",
];

fn head_of(frame: &str, stream: StreamId) -> Result<FrameHead>
    requires { 0 < stream }
    ensures judged { IfOk result IsJudged }
    ensures stream { IfOk result (λ head. head.stream ≡ stream) }
{
    let last = Flags::END_STREAM;
    let (kind, flags) = match frame {
        "DATA" => (FrameKind::Data, Flags::NONE),
        "DATA+END_STREAM" => (FrameKind::Data, last),
        "HEADERS" => (FrameKind::Headers, Flags::END_HEADERS),
        "HEADERS+END_STREAM" => (FrameKind::Headers, Flags::END_HEADERS.with(last)),
        "RST_STREAM" => (FrameKind::RstStream, Flags::NONE),
        "WINDOW_UPDATE" => (FrameKind::WindowUpdate, Flags::NONE),
        _ => bail!("{frame} is no frame that is judged"),
    };
    Ok(FrameHead {
        kind,
        flags,
        stream,
        length: 4,
    })
}

/// The word of the files for a verdict.
fn name_of(verdict: FrameAction) -> &'static str {
    match verdict {
        FrameAction::Open => "open",
        FrameAction::Accept => "accept",
        FrameAction::Discard => "discard",
        FrameAction::ConnectionError(ErrorCode::ProtocolError) => "unlawful",
        FrameAction::StreamError(ErrorCode::ProtocolError) => "bad-trailers",
        FrameAction::StreamError(ErrorCode::StreamClosed) => "closed",
        FrameAction::ConnectionError(_) => "another connection error",
        FrameAction::StreamError(_) => "another stream error",
    }
}

/// Judges a frame, upon which the server may reset its stream.
fn judge(halves: &mut Halves, frame: &str, stream: StreamId, resets: bool) -> Result<FrameAction> {
    ensure!(stream > 0, "frames of stream 0 aren't judged");
    let verdict = halves.on(&head_of(frame, stream)?)?;
    if resets {
        match verdict {
            FrameAction::Discard | FrameAction::ConnectionError(_) => {
                bail!("stream {stream} can't be reset")
            }
            _ => halves.cut(stream),
        }
    }
    Ok(verdict)
}

/// Takes a step of a connection: a frame on a stream, which the server may reset upon it, or on
/// each stream from one to another in steps of two, which all have one verdict.
fn step(halves: &mut Halves, words: &[&str]) -> Result<FrameAction> {
    let [frame, first, rest @ ..] = words else {
        bail!("that is no step");
    };
    let first = number(first)?;
    let (last, resets) = match rest {
        [] => (first, false),
        ["reset"] => (first, true),
        ["to", last] => (number(last)?, false),
        _ => bail!("that is no step"),
    };
    let verdict = judge(halves, frame, first, resets)?;
    for stream in first..=last {
        if stream > first && stream % 2 == first % 2 {
            let other = judge(halves, frame, stream, false)?;
            ensure!(other == verdict, "{other:?} on stream {stream}");
        }
    }
    Ok(verdict)
}

/// The verdict on a frame after steps, which are listed with commas.
fn verdict_after(alloc: Global, steps: &str, frame: &str, stream: StreamId) -> Result<FrameAction> {
    let mut halves = Halves::new(alloc);
    for text in steps.split(',') {
        let words: Vec<&str> = text.split_whitespace().collect(alloc)?;
        if !words.is_empty() {
            step(&mut halves, words.as_slice())?;
        }
    }
    judge(&mut halves, frame, stream, false)
}

/// What came before, and the verdict of each kind of frame on a stream.
pub fn table(alloc: Global, given: &str, answer: &mut String) -> Result<()> {
    let (steps, stream) = given.split_once(':').context("the row has no colon")?;
    let stream = number(stream.trim())?;
    for frame in KINDS {
        if !answer.is_empty() {
            answer.push(' ')?;
        }
        answer.push_str(name_of(verdict_after(alloc, steps, frame, stream)?))?;
    }
    Ok(())
}

/// A connection from its first frame on: a step, and the verdict.
pub fn streams(halves: &mut Halves, words: &[&str], answer: &mut String) -> Result<()> {
    answer.push_str(name_of(step(halves, words)?))?;
    Ok(())
}
