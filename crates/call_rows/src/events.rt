//! The events of a row.

use account::{CallEvent, OutItem, Shut};
use anyhow::{Context, Result, bail};
use bytes::Bytes;
use lists::{Field, Octets, Sequence};
use std::alloc::Global;
use zeros::ZeroTail;

/// The first word of a text, and what follows it.
fn first_word(text: &str) -> (&str, &str) {
    match text.split_once(' ') {
        Some((word, rest)) => (word, rest.trim()),
        None => (text, ""),
    }
}

/// The bytes that a word spells: `empty`, or pairs of hexadecimal digits.
fn bytes_of(alloc: Global, word: &str) -> Result<Bytes> {
    if word == "empty" {
        return Ok(Bytes::new());
    }
    let bytes = hex::decode(alloc, word).context("bytes in hexadecimal digits")?;
    Ok(Bytes::from_vec(bytes)?)
}

/// How many times an event stands, which is once where no number does.
fn times(rest: &str) -> Result<u32> {
    if rest.is_empty() {
        return Ok(1);
    }
    Ok(rest.parse::<u32>()?)
}

/// The fields whose names and values stand in turn.
fn fields_of(alloc: Global, text: &str) -> Result<Sequence<Field>> {
    let words: Vec<&str> = text.split_ascii_whitespace().collect(alloc)?;
    let mut fields = Vec::new(alloc);
    for pair in words.as_slice().chunks(2) {
        let [name, value] = pair else {
            bail!("a name without a value");
        };
        fields.push(Field {
            name: Octets::from(name.as_bytes().to_vec(alloc)?),
            value: Octets::from(value.as_bytes().to_vec(alloc)?),
        })?;
    }
    Ok(Sequence::from(fields))
}

fn item_of(alloc: Global, text: &str) -> Result<OutItem> {
    let (name, rest) = first_word(text);
    match name {
        "head" => Ok(OutItem::Head(fields_of(alloc, rest)?)),
        "message" => Ok(OutItem::Message(ZeroTail::from(bytes_of(alloc, rest)?))),
        "trailers" => Ok(OutItem::Trailers(fields_of(alloc, rest)?)),
        "left" => Ok(OutItem::Left),
        _ => bail!("an item that isn't known"),
    }
}

fn push_feeds(events: &mut Vec<CallEvent>, alloc: Global, words: &str) -> Result<()> {
    for word in words.split_ascii_whitespace() {
        events.push(CallEvent::Feed(bytes_of(alloc, word)?))?;
    }
    Ok(())
}

fn push_takes(events: &mut Vec<CallEvent>, count: u32) -> Result<()> {
    for _ in 0..count {
        events.push(CallEvent::Take)?;
    }
    Ok(())
}

fn push_sends(events: &mut Vec<CallEvent>, count: u32) -> Result<()> {
    for _ in 0..count {
        events.push(CallEvent::Send)?;
    }
    Ok(())
}

fn push_events(events: &mut Vec<CallEvent>, alloc: Global, text: &str) -> Result<()> {
    let (name, rest) = first_word(text);
    match name {
        "feed" => push_feeds(events, alloc, rest)?,
        "end" => events.push(CallEvent::Shut(Shut::End))?,
        "reset" => events.push(CallEvent::Shut(Shut::Reset(rest.parse::<u32>()?)))?,
        "take" => push_takes(events, times(rest)?)?,
        "give" => events.push(CallEvent::Give(item_of(alloc, rest)?))?,
        "send" => push_sends(events, times(rest)?)?,
        _ => bail!("an event that isn't known"),
    }
    Ok(())
}

/// The events of a row, which semicolons part.
pub fn events_of(alloc: Global, text: &str) -> Result<Vec<CallEvent>> {
    let mut events = Vec::new(alloc);
    for part in text.split(';') {
        push_events(&mut events, alloc, part.trim())?;
    }
    Ok(events)
}
