//! The words of an act, and what the act does to a writer's core.

use super::calls::{Ring, fields, sender};
use super::peer::Peer;
use anyhow::{Context, Result, bail};
use callbox::Sender;
use h2frame::{ErrorCode, PeerSetting, PeerSettings, StreamId};
use outwriter::{Next, OutCore, OutFault, WriterOrder};
use reasons::Reason;
use std::alloc::Global;
use std::mem;

pub type Core = OutCore<Ring>;

type Order = WriterOrder<Sender<Ring>>;

/// Performs an act: takes a control, owes credit, asks or writes.
pub fn perform(alloc: Global, core: &mut Core, peer: &mut Peer, act: &str) -> Result<()> {
    let words: Vec<&str> = act.split_whitespace().collect(alloc)?;
    let words = words.as_slice();
    match word(words, 0)? {
        "write" => write_all(core, peer, number(words, 1)?),
        "grant" => grant(core, peer, number(words, 1)?, number(words, 2)?),
        "held" => {
            let is_held = core.held(number(words, 1)?);
            peer.tell(if is_held { "held" } else { "free" })
        }
        "bytes" => tell_bytes(core, peer),
        "senders" => tell_senders(mem::replace(core, Core::new(alloc)), peer),
        _ => take(core, peer, order(alloc, words)?),
    }
}

/// Owes credit, where it counts.
fn grant(core: &mut Core, peer: &mut Peer, id: StreamId, n: u32) -> Result<()> {
    if !core.takes_credit(id) {
        return peer.tell("stays");
    }
    core.grant(id, n);
    Ok(())
}

/// Takes a control. One that is refused for what it says appears in the text.
fn take(core: &mut Core, peer: &mut Peer, order: Order) -> Result<()> {
    match core.control(order) {
        Ok(()) => Ok(()),
        Err(OutFault::OutOfMemory(_)) => bail!("no memory is left"),
        Err(fault) => peer.tell_fault(fault.code()),
    }
}

/// Writes until nothing is left, up to a number of frames.
fn write_all(core: &mut Core, peer: &mut Peer, frames: u32) -> Result<()> {
    for _ in 0..frames {
        match next(core)? {
            Next::Frame(frame) => peer.read(&frame)?,
            Next::Idle => return peer.tell("idle"),
            Next::Over => return peer.tell("over"),
        }
    }
    Ok(())
}

fn next(core: &mut Core) -> Result<Next> {
    core.next_frame().ok().context("no memory is left")
}

/// The bytes of the next frame, if one comes.
fn tell_bytes(core: &mut Core, peer: &mut Peer) -> Result<()> {
    match next(core)? {
        Next::Frame(frame) => peer.tell_bytes(&frame),
        Next::Idle | Next::Over => peer.tell("none"),
    }
}

/// The senders that a core has in the end.
fn tell_senders(core: Core, peer: &mut Peer) -> Result<()> {
    for (id, sender) in core.into_senders().iter() {
        peer.tell_sender(*id, sender.id())?;
    }
    Ok(())
}

/// The control of an act's words.
fn order(alloc: Global, words: &[&str]) -> Result<Order> {
    match word(words, 0)? {
        "settings" => settings(alloc, words),
        "ping" => Ok(WriterOrder::Ping(ping_bytes(words)?)),
        "probe" => Ok(WriterOrder::Probe(ping_bytes(words)?)),
        "window" => Ok(WriterOrder::Window(number(words, 1)?, number(words, 2)?)),
        "open" => open(alloc, words),
        "refuse" => refuse(alloc, words),
        "reset" => reset(words),
        "goaway" => goaway(words),
        "close" => Ok(WriterOrder::Close),
        _ => bail!("there is no such act"),
    }
}

fn settings(alloc: Global, words: &[&str]) -> Result<Order> {
    let mut settings = Vec::new(alloc);
    for word in words.iter().skip(1) {
        settings.push(setting(*word)?)?;
    }
    Ok(WriterOrder::Settings(PeerSettings::from(settings)))
}

/// `window=N` or `table=N`.
fn setting(word: &str) -> Result<PeerSetting> {
    let (name, value) = word.split_once('=').context("a setting has no value")?;
    let value = value.parse::<u32>()?;
    match name {
        "window" => Ok(PeerSetting::WindowSize(value)),
        "table" => Ok(PeerSetting::TableSize(value)),
        _ => bail!("there is no such setting"),
    }
}

/// The bytes of a PING, the last of them by an act.
fn ping_bytes(words: &[&str]) -> Result<[u8; 8]> {
    let last = u8::try_from(number(words, 1)?)?;
    Ok([0, 0, 0, 0, 0, 0, 0, last])
}

fn open(alloc: Global, words: &[&str]) -> Result<Order> {
    let id = number(words, 1)?;
    let ended = words.get(3).copied() == Some("ended");
    Ok(WriterOrder::Open(id, sender(alloc, id, word(words, 2)?, ended)?))
}

fn refuse(alloc: Global, words: &[&str]) -> Result<Order> {
    let len = number(words, 2)? as usize;
    Ok(WriterOrder::Refuse(number(words, 1)?, fields(alloc, ":status", len)?))
}

fn reset(words: &[&str]) -> Result<Order> {
    Ok(WriterOrder::Reset {
        id: number(words, 1)?,
        code: ErrorCode::from_code(number(words, 2)?),
        written: words.get(3).is_none(),
    })
}

fn goaway(words: &[&str]) -> Result<Order> {
    Ok(WriterOrder::Goaway {
        last: number(words, 1)?,
        reason: Reason::Code(ErrorCode::from_code(number(words, 2)?)),
    })
}

fn word<'a>(words: &[&'a str], at: usize) -> Result<&'a str> {
    words.get(at).copied().context("a word is missing")
}

fn number(words: &[&str], at: usize) -> Result<u32> {
    Ok(word(words, at)?.parse::<u32>()?)
}
