//! Writing the frames of calls: one stream of long replies, 64 streams of small ones, and one small
//! reply at a time on a stream of 64 or of one, over windows that don't bind.

ghost use Rattle.h2frame.specs.Spelling.{IsWritable};

use crate::sizes::number;
use account::OutItem;
use anyhow::{Context, Result};
use bytes::Bytes;
use callbox::{Giver, InPiece, Sender, open_call};
use limits::{INITIAL_WINDOW, MAX_WINDOW};
use h2frame::{PeerSetting, PeerSettings};
use lane::RingLane;
use lists::{Field, Octets, Sequence};
use outwriter::{Next, OutCore, OutFrame, WriterOrder};
use std::alloc::Global;
use std::rt::Clock;
use std::time::{Duration, Instant};
use zeros::ZeroBuffer;

type Ring = RingLane<OutItem>;

/// The items that a call's lane has room for.
const ROOM: usize = 256;

/// The bytes of a frame's head (RFC 9113, section 4.1).
const HEAD_LEN: usize = 9;

/// How many bytes are written at once.
const ENOUGH: usize = 65_536;

/// The streams of small replies, and the replies of each.
const STREAMS: u32 = 64;

const SMALL_REPLIES: usize = 250;

const SMALL_LEN: usize = 5;

/// The length of a long reply.
const LONG_LEN: usize = 1_048_576;

/// What was written: how many frames, and their bytes.
#[derive(Clone, Copy)]
struct Count {
    frames: u64,
    bytes: u64,
}

const NOTHING: Count = Count {
    frames: 0,
    bytes: 0,
};

/// A list of one field.
fn field(alloc: Global, name: &str, value: &str) -> Result<Sequence<Field>> {
    let field = Field {
        name: Octets::from(name.as_bytes().to_vec(alloc)?),
        value: Octets::from(value.as_bytes().to_vec(alloc)?),
    };
    let mut fields = Vec::new(alloc);
    fields.push(field)?;
    Ok(Sequence::from(fields))
}

/// The two ends of a call's response.
fn open_response(alloc: Global, id: u32) -> Result<(Giver<Ring>, Sender<Ring>)> {
    let (_feeder, _taker, giver, sender) = open_call::<RingLane<InPiece>, Ring>(
        alloc, id, 1, ROOM,
    )?;
    Ok((giver, sender))
}

/// The sender of a call that gave a head, a number of replies of one length, and trailers.
fn sender(alloc: Global, id: u32, replies: usize, len: usize) -> Result<Sender<Ring>> {
    let (giver, sender) = open_response(alloc, id)?;
    give_all(alloc, giver, replies, len)?;
    Ok(sender)
}

/// Gives a head, a number of replies, and trailers.
fn give_all(alloc: Global, mut giver: Giver<Ring>, replies: usize, len: usize) -> Result<()> {
    give_some(alloc, &mut giver, replies, len)?;
    let _shut = giver.trailers(field(alloc, "grpc-status", "0")?);
    Ok(())
}

/// Gives a head and a number of replies.
fn give_some(alloc: Global, giver: &mut Giver<Ring>, replies: usize, len: usize) -> Result<()> {
    give_head(alloc, giver)?;
    for _ in 0..replies {
        give(
            giver,
            Bytes::from_vec(vec![in alloc; 0; len.min(LONG_LEN)]?)?,
        )?;
    }
    Ok(())
}

fn give_head(alloc: Global, giver: &mut Giver<Ring>) -> Result<()> {
    let head = field(alloc, ":status", "200")?;
    if !giver.has_head() {
        giver.head(head).ok().context("the head is refused")?;
    }
    Ok(())
}

/// Gives a reply after the head.
fn give(giver: &mut Giver<Ring>, reply: Bytes) -> Result<()> {
    if giver.has_head() && reply.len() <= LONG_LEN {
        giver.give(reply).ok().context("a reply is refused")?;
    }
    Ok(())
}

/// Opens the windows of a core, so that 2^31 - 1 bytes may be written.
fn widen(alloc: Global, core: &mut OutCore<Ring>) -> Result<()> {
    let mut settings = Vec::new(alloc);
    settings.push(PeerSetting::WindowSize(MAX_WINDOW))?;
    tell(core, WriterOrder::Settings(PeerSettings::from(settings)))?;
    tell(core, WriterOrder::Window(0, MAX_WINDOW - INITIAL_WINDOW))
}

fn tell(core: &mut OutCore<Ring>, control: WriterOrder<Sender<Ring>>) -> Result<()> {
    core.control(control).ok().context("a control is refused")
}

/// Appends a frame.
fn push_frame(frame: &OutFrame, out: &mut ZeroBuffer) -> Result<()>
    requires { IsWritable frame.now }
{
    out.reserve(HEAD_LEN + frame.head().length as usize)?;
    frame.append_to(out);
    Ok(())
}

/// Writes all there is, into one buffer that is emptied when it is full enough.
fn write_all(alloc: Global, core: &mut OutCore<Ring>) -> Result<Count> {
    let mut out = ZeroBuffer::new(alloc);
    let mut count = NOTHING;
    write_some(core, &mut out, &mut count)?;
    count.bytes = count.bytes.wrapping_add(out.len() as u64);
    Ok(count)
}

/// Writes what there is now. The bytes that left the buffer are counted.
fn write_some(core: &mut OutCore<Ring>, out: &mut ZeroBuffer, count: &mut Count) -> Result<()> {
    for _ in 0..u64::MAX {
        let next = core.next_frame().ok().context("no memory is left")?;
        let Next::Frame(frame) = next else {
            break;
        };
        push_frame(&frame, out)?;
        count.frames = count.frames.wrapping_add(1);
        if out.len() >= ENOUGH {
            count.bytes = count.bytes.wrapping_add(out.len() as u64);
            out.clear();
        }
    }
    Ok(())
}

/// A number of calls with a number of replies each, which are all given.
#[derive(Clone, Copy)]
struct Calls {
    streams: u32,
    replies: usize,
    len: usize,
}

/// Opens the calls on a core with wide windows.
fn fill(alloc: Global, core: &mut OutCore<Ring>, calls: Calls) -> Result<()> {
    widen(alloc, core)?;
    for index in 0..calls.streams {
        let id = index.wrapping_mul(2).wrapping_add(1);
        let sender = sender(alloc, id, calls.replies, calls.len)?;
        tell(core, WriterOrder::Open(id, sender))?;
    }
    Ok(())
}

/// What is written of these calls, and the time that writing took.
fn written(rt: &(impl Clock + AllocGlobal), calls: Calls) -> Result<(Count, Duration)> {
    let mut core = OutCore::<Ring>::new(rt.alloc());
    write_calls(rt, &mut core, calls)
}

fn write_calls(
    rt: &(impl Clock + AllocGlobal),
    core: &mut OutCore<Ring>,
    calls: Calls,
) -> Result<(Count, Duration)> {
    fill(rt.alloc(), core, calls)?;
    let start = Instant::now(rt)?;
    let count = write_all(rt.alloc(), core)?;
    Ok((count, start.elapsed(rt)?))
}

/// `outwriter-long REPLIES`: prints the frames, their bytes and the nanoseconds of writing REPLIES
/// replies of 1 MiB on one stream.
pub fn long(rt: &(impl Clock + AllocGlobal + Print), sizes: &[String]) -> Result<()> {
    let replies = number(sizes, 0)?;
    let (count, spent) = written(rt, long_calls(replies))?;
    print_count(rt, count, spent)
}

fn long_calls(replies: usize) -> Calls {
    Calls {
        streams: 1,
        replies,
        len: LONG_LEN,
    }
}

/// `outwriter-small TIMES`: prints the frames, their bytes and the nanoseconds of TIMES connections
/// of 64 streams with small replies.
pub fn small_replies(rt: &(impl Clock + AllocGlobal + Print), sizes: &[String]) -> Result<()> {
    let mut count = NOTHING;
    let mut spent = Duration::ZERO;
    for _ in 0..number(sizes, 0)? {
        let (more, time) = written(rt, small_calls(STREAMS, SMALL_REPLIES))?;
        count.frames = count.frames.wrapping_add(more.frames);
        count.bytes = count.bytes.wrapping_add(more.bytes);
        spent = spent.saturating_add(time);
    }
    print_count(rt, count, spent)
}

fn small_calls(streams: u32, replies: usize) -> Calls {
    Calls {
        streams,
        replies,
        len: SMALL_LEN,
    }
}

/// Opens calls that give their heads, and no more yet.
fn stand(
    alloc: Global,
    core: &mut OutCore<Ring>,
    givers: &mut Vec<Giver<Ring>>,
    streams: u32,
) -> Result<()> {
    widen(alloc, core)?;
    for index in 0..streams {
        let id = index.wrapping_mul(2).wrapping_add(1);
        givers.push(opened(alloc, core, id)?)?;
    }
    Ok(())
}

/// Opens a call that gives its head.
fn opened(alloc: Global, core: &mut OutCore<Ring>, id: u32) -> Result<Giver<Ring>> {
    let (mut giver, sender) = open_response(alloc, id)?;
    tell(core, WriterOrder::Open(id, sender))?;
    give_head(alloc, &mut giver)?;
    Ok(giver)
}

/// Gives a number of small replies, each on the stream after the last one's, and writes each before
/// it gives the next.
fn write_each(
    alloc: Global,
    core: &mut OutCore<Ring>,
    givers: &mut Vec<Giver<Ring>>,
    replies: usize,
) -> Result<Count> {
    let reply = Bytes::from_vec(vec![in alloc; 0; SMALL_LEN]?)?;
    let mut out = ZeroBuffer::new(alloc);
    let mut count = NOTHING;
    for index in 0..replies {
        let place = index.checked_rem(givers.len()).unwrap_or(0);
        let giver = givers.get_mut(place).context("no call stands")?;
        give(giver, reply.clone()?)?;
        write_some(core, &mut out, &mut count)?;
    }
    count.bytes = count.bytes.wrapping_add(out.len() as u64);
    Ok(count)
}

/// What is written of a number of replies, one at a time, while a number of calls are open, and the
/// time that giving and writing took.
fn each_written(
    rt: &(impl Clock + AllocGlobal),
    streams: u32,
    replies: usize,
) -> Result<(Count, Duration)> {
    let mut core = OutCore::<Ring>::new(rt.alloc());
    let mut givers = Vec::new(rt.alloc());
    stand(rt.alloc(), &mut core, &mut givers, streams)?;
    each_timed(rt, &mut core, &mut givers, replies)
}

fn each_timed(
    rt: &(impl Clock + AllocGlobal),
    core: &mut OutCore<Ring>,
    givers: &mut Vec<Giver<Ring>>,
    replies: usize,
) -> Result<(Count, Duration)> {
    let _heads = write_all(rt.alloc(), core)?;
    let start = Instant::now(rt)?;
    let count = write_each(rt.alloc(), core, givers, replies)?;
    Ok((count, start.elapsed(rt)?))
}

/// `outwriter-each REPLIES`: prints the frames, their bytes and the nanoseconds of REPLIES small
/// replies, one at a time, of 64 calls in turn.
pub fn each(rt: &(impl Clock + AllocGlobal + Print), sizes: &[String]) -> Result<()> {
    let (count, spent) = each_written(rt, STREAMS, number(sizes, 0)?)?;
    print_count(rt, count, spent)
}

/// `outwriter-one REPLIES`: prints what `outwriter-each` does, with one call.
pub fn one(rt: &(impl Clock + AllocGlobal + Print), sizes: &[String]) -> Result<()> {
    let (count, spent) = each_written(rt, 1, number(sizes, 0)?)?;
    print_count(rt, count, spent)
}

fn print_count(rt: &impl Print, count: Count, spent: Duration) -> Result<()> {
    let Count { frames, bytes } = count;
    let nanos = spent.as_nanos();
    println!(rt; "{frames} {bytes} {nanos}")?;
    Ok(())
}

pub fn small(rt: &(impl Clock + AllocGlobal + Print)) -> Result<()> {
    let (Count { frames, bytes }, _spent) = written(rt, long_calls(2))?;
    println!(rt; "outwriter-long: {frames} frames, {bytes} bytes")?;
    let (Count { frames, bytes }, _spent) = written(rt, small_calls(3, 4))?;
    println!(rt; "outwriter-small: {frames} frames, {bytes} bytes")?;
    let (Count { frames, bytes }, _spent) = each_written(rt, 3, 4)?;
    println!(rt; "outwriter-each: {frames} frames, {bytes} bytes")?;
    Ok(())
}
