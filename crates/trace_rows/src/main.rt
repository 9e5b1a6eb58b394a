//! Traces and captures of connections, for tests.
//!
//! Standard input has what the sides of a connection sent, as `trace::sent_of` reads it. By its
//! words the program prints something else of it:
//!
//! - `short`, `full`: the line of each frame.
//! - `cut N`: what `short` prints, for these bytes in pieces of N.
//! - `capture`: a capture of them in hexadecimal digits, between port 40000 of one host and port
//!   50051 of another; `capture6`: over IPv6.
//!
//! And of a file that standard input has in hexadecimal digits:
//!
//! - `file`: the line of each frame, as `short`.
//! - `read`: lines `MICROSECONDS client DIGITS`, or `server`, of what each side sent at a time.
#![tactic(auto)]

ghost use Rattle.std.specs.Prelude.{◌<◌};

use anyhow::{Context, Result, bail};
use bytes::Bytes;
use capture::{Conversation, Hosts, Path, Time, file_head};
use std::alloc::Global;
use std::env;
use std::rt::Env;
use trace::{Form, SentBytes, push_frames, sent_of};

const V4: Hosts = Hosts::V4 {
    from: [127, 0, 0, 1],
    to: [127, 0, 0, 2],
};

const V6: Hosts = Hosts::V6 {
    from: [0x20, 1, 0x0d, 0xb8, 0, 0, 0, 0, 0, 0, 0, 0, 0, 0, 0, 1],
    to: [0x20, 1, 0x0d, 0xb8, 0, 0, 0, 0, 0, 0, 0, 0, 0, 0, 0, 2],
};

const SECOND: u64 = 1_000_000;

fn print_frames(rt: &(impl Print + AllocGlobal), sent: &[SentBytes], form: Form) -> Result<()> {
    let mut text = String::new(rt.alloc());
    push_frames(&mut text, sent, form)?;
    print!(rt; "{text}")?;
    Ok(())
}

/// The bytes in pieces of at most `most`.
fn cut(alloc: Global, sent: &[SentBytes], most: usize) -> Result<Vec<SentBytes>>
    requires { 0 < most }
{
    let mut pieces = Vec::new(alloc);
    for one in sent {
        for bytes in one.bytes.as_slice().chunks(most) {
            pieces.push(SentBytes {
                time: one.time,
                side: one.side,
                bytes: Bytes::copy_from_slice(alloc, bytes)?,
            })?;
        }
    }
    Ok(pieces)
}

fn time_of(micros: u64) -> Result<Time> {
    Ok(Time {
        seconds: u32::try_from(micros / SECOND)?,
        micros: (micros % SECOND) as u32,
    })
}

fn print_capture(rt: &(impl Print + AllocGlobal), sent: &[SentBytes], hosts: Hosts) -> Result<()> {
    let alloc = rt.alloc();
    let path = Path {
        hosts,
        from_port: 40_000,
        to_port: 50_051,
    };
    let mut file = Vec::from_slice(alloc, &file_head())?;
    let mut last = Time {
        seconds: 0,
        micros: 0,
    };
    let (mut talk, text) = Conversation::open(alloc, path, last, 0)?;
    file.extend_from_slice(&text)?;
    for piece in sent {
        last = time_of(piece.time)?;
        file.extend_from_slice(&talk.send(alloc, last, piece.side, piece.bytes.as_slice())?)?;
    }
    file.extend_from_slice(&talk.close(alloc, last)?)?;
    let digits = hex::encode(alloc, file.as_slice())?;
    println!(rt; "{digits}")?;
    Ok(())
}

fn print_sent(rt: &(impl Print + AllocGlobal), sent: &[SentBytes]) -> Result<()> {
    for piece in sent {
        let (time, side) = (piece.time, piece.side);
        let digits = hex::encode(rt.alloc(), piece.bytes.as_slice())?;
        println!(rt; "{time} {side} {digits}")?;
    }
    Ok(())
}

fn read_input(rt: &HostRuntime) -> Result<String> {
    let mut text = String::new(rt.alloc());
    for _ in 0..u64::MAX {
        let mut line = String::new(rt.alloc());
        if rt.read_line(&mut line)? == 0 {
            break;
        }
        text.push_str(line.as_str())?;
    }
    Ok(text)
}

/// What a file has that standard input has in digits.
fn decoded(alloc: Global, text: &str) -> Result<Vec<SentBytes>> {
    let file = hex::decode(alloc, text.trim())?;
    Ok(sent_of(alloc, file.as_slice())?)
}

fn main(rt: HostRuntime) -> Result<()> {
    let alloc = rt.alloc();
    let words: Vec<String> = env::args(&rt)?.skip(1).collect(alloc)?;
    let text = read_input(&rt)?;
    let word = words.first().map(String::as_str).unwrap_or("short");
    match word {
        "file" => return print_frames(&rt, &decoded(alloc, text.as_str())?, Form::Short),
        "read" => return print_sent(&rt, &decoded(alloc, text.as_str())?),
        _ => {}
    }
    let sent = sent_of(alloc, text.as_bytes())?;
    match word {
        "short" => print_frames(&rt, &sent, Form::Short),
        "full" => print_frames(&rt, &sent, Form::Full),
        "capture" => print_capture(&rt, &sent, V4),
        "capture6" => print_capture(&rt, &sent, V6),
        "cut" => {
            let most = words.get(1).context("no number")?.parse::<usize>()?;
            print_frames(&rt, &cut(alloc, &sent, most.max(1))?, Form::Short)
        }
        _ => bail!("no such word"),
    }
}
