//! The steps of a case, as the rows have them.
//!
//! A line is a step. Most write a frame: its type, its stream, its flags as two hexadecimal digits,
//! and its content (`content`): `data 1 01 00 00000000`. The flags are those of RFC 9113, section
//! 6: 01 END_STREAM or ACK, 04 END_HEADERS, 08 PADDED, 20 PRIORITY. The others:
//!
//! - `bare`, first: the preface and SETTINGS are the case's own; nothing is written for it.
//! - `raw BYTES`: these bytes. `drip BYTES`: each by a write of its own. `preface`: the 24 bytes of
//!   the preface.
//! - `request S`: a call of EmptyCall. `fetch S`: a call of UnaryCall for a reply with a body of
//!   100,000 bytes.
//! - `upload S N`: N zero bytes as DATA, as the server's windows let them through. `padded S N`:
//!   each in a frame with 255 bytes of padding.
//! - `await REACTION`: waits for it (`reaction`). `sync`: a PING, and waits for its
//!   acknowledgement.
//! - `quiet`: a PING, and waits a moment after its acknowledgement, whatever comes.
//! - `crowd METHOD`: opens one call of the method more than the server's SETTINGS allow.
//! - `many N METHOD`: opens N calls, none of them ended; fields may come after METHOD.
//!   `several N METHOD`: opens N calls too, so few and short that other cases go on beside them.
//!   `cancel N`: RST_STREAM with CANCEL on each of the first N streams. A case with `crowd` or
//!   `many` is run while no other is, since a server may have no thread left for their calls.
//!
//! What a case rests on stands first:
//!
//! - `rounds N`: a try goes over N connections, one after another, and fails at the first over
//!   which the case does. It is for what a server does only sometimes.
//! - `needs NAME at least N`, `needs NAME at most N`: if the server's setting of this name
//!   (`server_settings`) isn't so, the case is not applicable. A setting that wasn't announced has
//!   its initial value; without one it counts as at least any number, and as at most none.
//! - `control REACTION and REACTION ..`: the case is first tried without its fault, over a
//!   connection of its own: lines and words that begin with `!` are left out (`content`), and those
//!   that begin with `~` stand there alone. Where these reactions don't all come then, the case is
//!   not applicable. So a case of a malformed head is
//!
//!       control answered 1
//!       headers 1 04 call:EmptyCall !X-a=b
//!       data 1 01 0000000000
//!       want stream 1 1
//!
//! DATA is written once the server's windows have room for it. Where they have none, the case is
//! not applicable. All that is written between two waits leaves in one write.

use crate::content::{Reading, read_content};
use crate::fault::WireFault;
use crate::frame::{DATA, END_HEADERS, END_STREAM, HEADERS, PREFACE, kind_named};
use crate::reaction::{
    LawfulReaction, Reaction, first_word, read_count, read_lawful, read_reaction, read_stream,
};
use crate::server_settings::Need;
use std::alloc::Global;

#[derive(Drop)]
pub enum WireStep {
    Bare,
    Write(Vec<u8>),
    Drip(Vec<u8>),
    Frame(OwnFrame),
    Upload {
        stream: u32,
        count: u64,
        padded: bool,
    },
    Await(Reaction),
    Sync,
    Quiet,
    Crowd(&'static str),
    Many {
        count: u64,
        method: &'static str,
    },
    Cancel(u64),
}

/// A frame that a case writes.
#[derive(Drop)]
pub struct OwnFrame {
    pub kind: u8,
    pub flags: u8,
    pub stream: u32,
    pub payload: Vec<u8>,
}

/// What a case does, and which reactions are lawful.
#[derive(Drop)]
pub struct Script {
    pub steps: Vec<WireStep>,
    /// The ways to pass; where it is tried without its fault, what has to come then.
    pub lawful: Vec<LawfulReaction>,
    /// What the case needs of the server's SETTINGS and they don't have. Nothing more is read then.
    pub unmet: Option<Need>,
}

/// Whether the lines of a case say that it is tried without its fault first.
pub fn has_control(text: &str) -> bool {
    for line in text.lines() {
        if line.trim().starts_with("control ") {
            return true;
        }
    }
    false
}

/// Over how many connections a try of a case goes: one, where its lines say nothing of it.
pub fn rounds_of(text: &str) -> Result<u64, WireFault> {
    for line in text.lines() {
        if let Some(number) = line.trim().strip_prefix("rounds ") {
            return read_count(number);
        }
    }
    Ok(1)
}

/// Reads the lines of a case.
pub fn read_script(
    alloc: Global,
    text: &'static str,
    reading: &Reading,
) -> Result<Script, WireFault> {
    let mut script = Script {
        steps: Vec::new(alloc),
        lawful: Vec::new(alloc),
        unmet: None,
    };
    read_lines(alloc, &mut script, text, reading)?;
    if script.unmet.is_none() && script.lawful.is_empty() {
        return Err(WireFault::BadRow);
    }
    Ok(script)
}

fn read_lines(
    alloc: Global,
    script: &mut Script,
    text: &'static str,
    reading: &Reading,
) -> Result<(), WireFault> {
    for line in text.lines() {
        if let Some(line) = reading.unmarked(line.trim()) {
            read_line(alloc, script, line, reading)?;
        }
        if script.unmet.is_some() {
            break;
        }
    }
    Ok(())
}

fn read_line(
    alloc: Global,
    script: &mut Script,
    line: &'static str,
    reading: &Reading,
) -> Result<(), WireFault> {
    let (word, rest) = first_word(line);
    match word {
        "rounds" => {}
        "want" if reading.is_control => {}
        "control" if !reading.is_control => {}
        "want" | "control" => script.lawful.push(read_lawful(alloc, rest, reading)?)?,
        "needs" => {
            let need = Need::read(rest)?;
            if !need.is_met(&reading.announced) {
                script.unmet = Some(need);
            }
        }
        _ => push_steps(alloc, &mut script.steps, word, rest, reading)?,
    }
    Ok(())
}

/// Adds the steps of a line.
fn push_steps(
    alloc: Global,
    steps: &mut Vec<WireStep>,
    word: &'static str,
    rest: &'static str,
    reading: &Reading,
) -> Result<(), WireFault> {
    match word {
        "request" => push_call(alloc, steps, "EmptyCall", rest, "0000000000", reading),
        "fetch" => {
            let data = "00 00000004 10a08d06";
            push_call(alloc, steps, "UnaryCall", rest, data, reading)
        }
        _ => {
            steps.push(read_step(alloc, word, rest, reading)?)?;
            Ok(())
        }
    }
}

fn read_step(
    alloc: Global,
    word: &'static str,
    rest: &'static str,
    reading: &Reading,
) -> Result<WireStep, WireFault> {
    match word {
        "bare" => Ok(WireStep::Bare),
        "sync" => Ok(WireStep::Sync),
        "quiet" => Ok(WireStep::Quiet),
        "raw" => Ok(WireStep::Write(read_content(alloc, rest, reading)?)),
        "drip" => Ok(WireStep::Drip(read_content(alloc, rest, reading)?)),
        "preface" => Ok(WireStep::Write(Vec::from_slice(alloc, PREFACE)?)),
        "await" => Ok(WireStep::Await(read_reaction(alloc, rest, reading)?)),
        "crowd" => Ok(WireStep::Crowd(rest)),
        "many" | "several" => {
            let (count, method) = first_word(rest);
            let count = reading.announced.amount(count)?;
            Ok(WireStep::Many { count, method })
        }
        "cancel" => Ok(WireStep::Cancel(reading.announced.amount(rest)?)),
        "upload" | "padded" => {
            let (stream, count) = first_word(rest);
            Ok(WireStep::Upload {
                stream: read_stream(stream)?,
                count: reading.announced.amount(count)?,
                padded: word == "padded",
            })
        }
        _ => Ok(WireStep::Frame(frame_of(alloc, word, rest, reading)?)),
    }
}

/// The frame of a line.
fn frame_of(
    alloc: Global,
    word: &str,
    rest: &'static str,
    reading: &Reading,
) -> Result<OwnFrame, WireFault> {
    let kind = kind_named(word).ok_or(WireFault::BadRow)?;
    let (stream, rest) = first_word(rest);
    let (flags, rest) = first_word(rest);
    Ok(OwnFrame {
        kind,
        flags: u8::from_str_radix(flags, 16).ok().ok_or(WireFault::BadRow)?,
        stream: read_stream(stream)?,
        payload: read_content(alloc, rest, reading)?,
    })
}

/// HEADERS that open a call of a method.
pub fn opening_of(
    alloc: Global,
    method: &str,
    stream: u32,
    reading: &Reading,
) -> Result<OwnFrame, WireFault> {
    let head = format!(in alloc; "call:{method}")?;
    Ok(OwnFrame {
        kind: HEADERS,
        flags: END_HEADERS,
        stream,
        payload: read_content(alloc, head.as_str(), reading)?,
    })
}

/// Adds a call of a method with this DATA.
fn push_call(
    alloc: Global,
    steps: &mut Vec<WireStep>,
    method: &str,
    stream: &str,
    data: &str,
    reading: &Reading,
) -> Result<(), WireFault> {
    let stream = read_stream(stream)?;
    steps.push(WireStep::Frame(opening_of(alloc, method, stream, reading)?))?;
    steps.push(WireStep::Frame(OwnFrame {
        kind: DATA,
        flags: END_STREAM,
        stream,
        payload: read_content(alloc, data, reading)?,
    }))?;
    Ok(())
}
