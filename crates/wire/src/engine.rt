//! One try of a case, over one connection: its steps in order, and then a wait for a lawful
//! reaction.

ghost use Rattle.std.specs.Prelude.{◌≡◌, false, IfOk, IsTrue};
ghost use Rattle.std.specs.List.{All, Any};
ghost use Rattle.wire.specs.Reactions.{IsLawful, IsUnlawful, was_shut};

use crate::case::Case;
use crate::content::{Reading, push_size};
use crate::fault::WireFault;
use crate::frame::{DATA, END_HEADERS, HEADERS, PADDED, PRIORITY, RST_STREAM};
use crate::reaction::{LawfulReaction, Reaction};
use crate::seen_frames::SeenFrames;
use crate::server::{Pace, Server};
use crate::server_settings::{Need, ServerSettings};
use crate::step::{OwnFrame, Script, WireStep, opening_of, read_script};
use crate::talk::{MANY_FRAMES, Talk, WaitEnd};
use h2frame::MAX_PAYLOAD;
use std::alloc::Global;

/// A frame of `padded`: the length of the padding, one byte, and the padding.
const PADDED_LEN: u64 = 257;

/// The greatest number of streams that a step opens.
const MOST_STREAMS: u64 = 10_000;

/// How many connections are made if the server ends each before it says anything.
const MOST_CONNECTIONS: usize = 3;

/// The greatest number of a stream, without the reserved bit.
const STREAM_MASK: u32 = 0x7fff_ffff;

/// The error of a call that is cancelled (RFC 9113, section 7).
const CANCEL: u32 = 8;

/// The bytes of a HEADERS frame's priority (RFC 9113, section 6.2).
const PRIORITY_LEN: usize = 5;

/// Why a case can't be tried on a server.
#[derive(Clone, Copy)]
pub enum UnfitReason {
    /// The server's SETTINGS aren't what it rests on.
    Setting(Need),
    /// The server's windows have no room for this many bytes of DATA.
    Window(u64),
}

/// What came of a try.
#[derive(Clone, Copy)]
pub enum TryOutcome {
    Passed,
    Failed,
    Unfit(UnfitReason),
}

/// A try of a case.
#[derive(Drop)]
pub struct Try {
    pub judgment: TryOutcome,
    /// What was read for it: the lawful reactions.
    pub lawful: Vec<LawfulReaction>,
    pub seen: SeenFrames,
    /// All that was written to the server, the preface too.
    pub sent: Vec<u8>,
}

/// Tries a case over a connection of its own: as it stands, or without its fault.
///
/// # Errors
///
/// `NoConnection` where there is no connection to the server, or where it ends each before it says
/// anything.
pub fn try_case<V: Server>(
    alloc: Global,
    case: Case,
    pace: Pace,
    server: &V,
    is_control: bool,
) -> Result<Try, WireFault> {
    let mut reading = Reading {
        announced: ServerSettings::FIRST,
        is_control,
    };
    let is_bare = is_bare(alloc, case, &reading)?;
    let mut talk = open(alloc, server, pace, is_bare)?;
    if !is_bare {
        reading.announced = talk.seen.announced;
    }
    let mut lawful = Vec::new(alloc);
    let judgment = play(alloc, case, &mut talk, &reading, is_bare, &mut lawful)?;
    Ok(Try {
        judgment,
        lawful,
        seen: talk.seen,
        sent: talk.sent,
    })
}

/// Sees whether there is a further connection.
fn try_connection<V: Server>(alloc: Global, server: &V, pace: Pace) -> Result<(), WireFault> {
    let _greeted = open(alloc, server, pace, false)?;
    Ok(())
}

/// Whether the preface and SETTINGS are the case's own.
fn is_bare(alloc: Global, case: Case, reading: &Reading) -> Result<bool, WireFault> {
    let script = read_script(alloc, case.script, reading)?;
    Ok(matches!(script.steps.as_slice().first(), Some(WireStep::Bare)))
}

/// Plays a case over a connection, and puts the lawful reactions into `lawful`.
fn play<V: Server>(
    alloc: Global,
    case: Case,
    talk: &mut Talk<'_, V>,
    reading: &Reading,
    is_bare: bool,
    lawful: &mut Vec<LawfulReaction>,
) -> Result<TryOutcome, WireFault> {
    let script = read_script(alloc, case.script, reading)?;
    let judgment = judge_script(alloc, case, talk, reading, is_bare, &script)?;
    if matches!(judgment, TryOutcome::Failed) && !reading.is_control {
        talk.tell_fault(script.lawful.as_slice())?;
    }
    *lawful = script.lawful;
    if is_bare && talk.seen.was_shut() {
        // It may have ended the connection for what the case said, or whatever is said.
        try_connection(alloc, talk.server, talk.pace)?;
    }
    Ok(judgment)
}

/// Takes the steps of a case, and judges what comes.
fn judge_script<V: Server>(
    alloc: Global,
    case: Case,
    talk: &mut Talk<'_, V>,
    reading: &Reading,
    is_bare: bool,
    script: &Script,
) -> Result<TryOutcome, WireFault> {
    let unfit = match script.unmet {
        Some(need) => Some(UnfitReason::Setting(need)),
        None => take_all(alloc, talk, script.steps.as_slice(), reading)?,
    };
    if let Some(unfit) = unfit {
        return Ok(TryOutcome::Unfit(unfit));
    }
    let passed = judge(talk, script.lawful.as_slice())?;
    if passed && (is_bare || talk.seen.greeted) {
        return Ok(TryOutcome::Passed);
    }
    failure_of(alloc, case, &talk.seen, reading.is_control)
}

/// A connection, on which the client greets the server, or leaves that to the case. A server that
/// ends a connection before it says anything may have too many: another is tried.
fn open<'a, V: Server>(
    alloc: Global,
    server: &'a V,
    pace: Pace,
    is_bare: bool,
) -> Result<Talk<'a, V>, WireFault>
    // Nothing is judged over a connection that was ended before anything came.
    ensures greeted { IfOk result (λ talk. is_bare ≡ false → was_shut talk.seen ≡ false) }
{
    for _ in 0..MOST_CONNECTIONS {
        let mut talk = Talk::new(alloc, server, server.connect()?, pace)?;
        if is_bare {
            return Ok(talk);
        }
        talk.greet()?;
        if !talk.seen.was_shut() {
            return Ok(talk);
        }
    }
    let why = "the server ends each connection before its first frame";
    Err(WireFault::NoConnection(String::from_str(alloc, why)?))
}

/// What a try without a lawful reaction is. A case that began before the server's SETTINGS came is
/// read by them now.
fn failure_of(
    alloc: Global,
    case: Case,
    seen: &SeenFrames,
    is_control: bool,
) -> Result<TryOutcome, WireFault> {
    let reading = Reading {
        announced: seen.announced,
        is_control,
    };
    let script = read_script(alloc, case.script, &reading)?;
    Ok(match script.unmet {
        Some(need) => TryOutcome::Unfit(UnfitReason::Setting(need)),
        None => TryOutcome::Failed,
    })
}

/// Takes steps, and answers why the server can't be tried by them, if it can't.
fn take_all<V: Server>(
    alloc: Global,
    talk: &mut Talk<'_, V>,
    steps: &[WireStep],
    reading: &Reading,
) -> Result<Option<UnfitReason>, WireFault> {
    for step in steps {
        let unfit = take(alloc, talk, step, reading)?;
        if unfit.is_some() || talk.seen.endless {
            return Ok(unfit);
        }
    }
    Ok(None)
}

/// Takes a step, and answers why the server can't be tried by it, if it can't.
fn take<V: Server>(
    alloc: Global,
    talk: &mut Talk<'_, V>,
    step: &WireStep,
    reading: &Reading,
) -> Result<Option<UnfitReason>, WireFault> {
    match step {
        WireStep::Bare => {}
        WireStep::Write(bytes) => talk.say(bytes.as_slice())?,
        WireStep::Drip(bytes) => drip(talk, bytes.as_slice())?,
        WireStep::Frame(frame) => return write_frame(alloc, talk, frame),
        WireStep::Await(reaction) => wait_for(talk, reaction)?,
        WireStep::Quiet => wait_for_quiet(talk)?,
        WireStep::Sync => sync(talk)?,
        WireStep::Upload {
            stream,
            count,
            padded,
        } => upload(alloc, talk, *stream, *count, *padded)?,
        WireStep::Crowd(method) => {
            let count = reading.announced.amount("streams+1")?;
            open_many(alloc, talk, count, method, reading)?;
        }
        WireStep::Many { count, method } => open_many(alloc, talk, *count, method, reading)?,
        WireStep::Cancel(count) => cancel_many(talk, *count)?,
    }
    Ok(None)
}

/// Writes each byte by itself.
fn drip<V: Server>(talk: &mut Talk<'_, V>, bytes: &[u8]) -> Result<(), WireFault> {
    for piece in bytes.chunks(1) {
        talk.flush();
        talk.say(piece)?;
    }
    talk.flush();
    Ok(())
}

/// Writes a frame; DATA once the server's windows have room for it. It answers where they have
/// none.
fn write_frame<V: Server>(
    alloc: Global,
    talk: &mut Talk<'_, V>,
    frame: &OwnFrame,
) -> Result<Option<UnfitReason>, WireFault> {
    let payload = frame.payload.as_slice();
    if frame.kind == HEADERS {
        let payload = with_table_size(alloc, talk, frame)?;
        talk.say_frame(frame.kind, frame.flags, frame.stream, payload.as_slice())?;
        return Ok(None);
    }
    if frame.kind != DATA {
        talk.say_frame(frame.kind, frame.flags, frame.stream, payload)?;
        return Ok(None);
    }
    let count = payload.len() as u64;
    for _ in 0..MANY_FRAMES {
        if count <= talk.room(frame.stream & STREAM_MASK) {
            talk.say_data(frame.flags, frame.stream, payload)?;
            return Ok(None);
        }
        if !talk.hears_one()? {
            break;
        }
    }
    Ok(Some(UnfitReason::Window(count)))
}

/// The payload of HEADERS. Where the server's table is smaller than tables are at first, its first
/// block begins with a change of the table's size to that (RFC 7541, section 4.2).
fn with_table_size<V: Server>(
    alloc: Global,
    talk: &mut Talk<'_, V>,
    frame: &OwnFrame,
) -> Result<Vec<u8>, WireFault> {
    let payload = frame.payload.as_slice();
    let table = talk.seen.announced.table;
    if talk.has_told_table || table >= ServerSettings::FIRST.table {
        return Ok(Vec::from_slice(alloc, payload)?);
    }
    talk.has_told_table = true;
    let padding = usize::from(frame.flags & PADDED != 0);
    let priority = if frame.flags & PRIORITY != 0 {
        PRIORITY_LEN
    } else {
        0
    };
    let (front, block) = payload.split_at(payload.len().min(padding + priority));
    let mut bytes = Vec::from_slice(alloc, front)?;
    push_size(&mut bytes, u64::from(table))?;
    bytes.extend_from_slice(block)?;
    Ok(bytes)
}

/// Waits until a reaction is there, or can't come, or nothing comes.
fn wait_for<V: Server>(talk: &mut Talk<'_, V>, reaction: &Reaction) -> Result<(), WireFault> {
    for _ in 0..MANY_FRAMES {
        if talk.seen.holds(reaction)? || talk.seen.is_lost(reaction)? {
            return Ok(());
        }
        let until = talk.silence()?;
        match talk.hear(until)? {
            WaitEnd::Frame => {}
            WaitEnd::Silence => {
                talk.was_silent = true;
                return Ok(());
            }
            WaitEnd::Closed => return Ok(()),
        }
    }
    Ok(())
}

/// Waits until the server has read all that was said, and a moment longer, whatever comes.
fn wait_for_quiet<V: Server>(talk: &mut Talk<'_, V>) -> Result<(), WireFault> {
    talk.ask()?;
    let begun = talk.now()?;
    for _ in 0..MANY_FRAMES {
        let until = talk.moment(begun)?;
        if !matches!(talk.hear(until)?, WaitEnd::Frame) {
            return Ok(());
        }
    }
    Ok(())
}

/// Waits until the server has read all that was said.
fn sync<V: Server>(talk: &mut Talk<'_, V>) -> Result<(), WireFault> {
    talk.ask()?;
    for _ in 0..MANY_FRAMES {
        if talk.has_passed() || !talk.hears_one()? {
            return Ok(());
        }
    }
    Ok(())
}

/// Opens a number of streams, from 1 on, and ends none.
fn open_many<V: Server>(
    alloc: Global,
    talk: &mut Talk<'_, V>,
    count: u64,
    method: &str,
    reading: &Reading,
) -> Result<(), WireFault> {
    if count > MOST_STREAMS {
        return Err(WireFault::BadRow);
    }
    for place in 0..count {
        let opening = opening_of(alloc, method, (2 * place + 1) as u32, reading)?;
        let payload = with_table_size(alloc, talk, &opening)?;
        talk.say_frame(HEADERS, END_HEADERS, opening.stream, payload.as_slice())?;
    }
    Ok(())
}

/// Resets a number of streams, from 1 on.
fn cancel_many<V: Server>(talk: &mut Talk<'_, V>, count: u64) -> Result<(), WireFault> {
    if count > MOST_STREAMS {
        return Err(WireFault::BadRow);
    }
    for place in 0..count {
        let stream = (2 * place + 1) as u32;
        talk.say_frame(RST_STREAM, 0, stream, &CANCEL.to_be_bytes())?;
    }
    Ok(())
}

/// Sends zero bytes as DATA, as the server's windows let them through.
fn upload<V: Server>(
    alloc: Global,
    talk: &mut Talk<'_, V>,
    stream: u32,
    count: u64,
    padded: bool,
) -> Result<(), WireFault> {
    let zeros = [0u8; 16384];
    let mut padding = Vec::new(alloc);
    padding.push(255)?;
    padding.resize(PADDED_LEN as usize, 0)?;
    let mut rest = count;
    for _ in 0..MANY_FRAMES {
        if rest == 0 {
            return Ok(());
        }
        let room = talk.room(stream);
        if padded && room >= PADDED_LEN {
            talk.say_data(PADDED, stream, padding.as_slice())?;
            rest -= 1;
        } else if !padded && room > 0 {
            let size = room.min(rest).min(u64::from(MAX_PAYLOAD));
            talk.say_data(0, stream, &zeros[..size as usize])?;
            rest -= size;
        } else if !talk.hears_one()? {
            return Ok(());
        }
    }
    Ok(())
}

/// Waits for a lawful reaction, and answers whether there was one. Once the server has read all
/// that was said, only an answer of a call is waited for until nothing comes, unless that was
/// waited for already; what a server does by itself comes within a moment.
fn judge<V: Server>(talk: &mut Talk<'_, V>, lawful: &[LawfulReaction]) -> Result<bool, WireFault>
    ensures passed { IfOk result
        (λ passed. IsTrue passed → Any (IsLawful talk.new.seen) lawful.now) }
    ensures failed { IfOk result
        (λ passed. passed ≡ false → All (IsUnlawful talk.new.seen) lawful.now) }
{
    let was_silent = talk.was_silent;
    talk.ask()?;
    talk.flush();
    let begun = talk.now()?;
    for _ in 0..MANY_FRAMES {
        if talk.seen.is_one_lawful(lawful)? {
            return Ok(true);
        }
        if !talk.seen.may_be_lawful(lawful)? {
            break;
        }
        let until = if !was_silent && talk.seen.may_be_answered(lawful)? {
            talk.silence()?
        } else {
            talk.moment(begun)?
        };
        if !matches!(talk.hear(until)?, WaitEnd::Frame) {
            break;
        }
    }
    talk.seen.is_one_lawful(lawful)
}
