//! Judging frames by the receiving halves of their streams, where few are open and where many are.

ghost use Rattle.std.specs.Prelude.{◌<◌};
ghost use Rattle.streamstates.specs.Halves.{IsJudged};

use crate::sizes::{number16, number32};
use anyhow::Result;
use streamstates::{FrameAction, Halves};
use h2frame::{Flags, FrameHead, FrameKind, StreamId};
use std::alloc::{AllocError, Global};
use std::rt::Clock;
use std::time::Instant;

/// How many heads were judged, and how many of them were lawful on their stream.
#[derive(Clone, Copy)]
struct Count {
    heads: u64,
    accepted: u64,
}

fn data(stream: StreamId) -> FrameHead
    requires { 0 < stream }
    ensures { IsJudged result }
{
    FrameHead {
        kind: FrameKind::Data,
        flags: Flags::NONE,
        stream,
        length: 100,
    }
}

fn headers(stream: StreamId) -> FrameHead
    requires { 0 < stream }
    ensures { IsJudged result }
{
    FrameHead {
        kind: FrameKind::Headers,
        flags: Flags::END_HEADERS,
        stream,
        length: 100,
    }
}

/// A connection on which this many streams are open.
fn opened(alloc: Global, streams: u16) -> Result<Halves, AllocError> {
    let mut halves = Halves::new(alloc);
    for index in 0..streams {
        halves.on(&headers(2 * u32::from(index) + 1))?;
    }
    Ok(halves)
}

/// Judges DATA on each of the streams in turn, so often.
fn judge(halves: &mut Halves, streams: u16, rounds: u32) -> Result<Count, AllocError> {
    let mut count = Count {
        heads: 0,
        accepted: 0,
    };
    for _ in 0..rounds {
        for index in 0..streams {
            let verdict = halves.on(&data(2 * u32::from(index) + 1))?;
            count.heads = count.heads.wrapping_add(1);
            if verdict == FrameAction::Accept {
                count.accepted = count.accepted.wrapping_add(1);
            }
        }
    }
    Ok(count)
}

/// Judges a number of times on a number of streams, and answers the nanoseconds too.
fn judge_timed(
    rt: &(impl Clock + AllocGlobal),
    streams: u16,
    rounds: u32,
) -> Result<(Count, u128)> {
    let mut halves = opened(rt.alloc(), streams)?;
    timed_over(rt, &mut halves, streams, rounds)
}

fn timed_over(
    rt: &impl Clock,
    halves: &mut Halves,
    streams: u16,
    rounds: u32,
) -> Result<(Count, u128)> {
    let start = Instant::now(rt)?;
    let count = judge(halves, streams, rounds)?;
    Ok((count, start.elapsed(rt)?.as_nanos()))
}

/// `flow-halves STREAMS ROUNDS`: prints the heads that were judged, those that were lawful and the
/// nanoseconds.
pub fn timed(rt: &(impl Clock + AllocGlobal + Print), sizes: &[String]) -> Result<()> {
    let (count, nanos) = judge_timed(rt, number16(sizes, 0)?, number32(sizes, 1)?)?;
    let heads = count.heads;
    let accepted = count.accepted;
    println!(rt; "{heads} {accepted} {nanos}")?;
    Ok(())
}

fn judge_few(alloc: Global) -> Result<Count, AllocError> {
    let mut halves = opened(alloc, 16)?;
    judge(&mut halves, 16, 10)
}

pub fn small(rt: &(impl AllocGlobal + Print)) -> Result<()> {
    let count = judge_few(rt.alloc())?;
    let heads = count.heads;
    let accepted = count.accepted;
    println!(rt; "flow-halves: {heads} heads, {accepted} accepted")?;
    Ok(())
}
