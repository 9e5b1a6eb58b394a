//! An account as rows have it: its parts in order, which semicolons part. What is empty or isn't
//! there has no part.

use account::{Account, OutItem};
use anyhow::Result;
use lists::{Field, Sequence};
use std::alloc::Global;
use zeros::ZeroTail;

fn push_name(text: &mut String, name: &str) -> Result<()> {
    if !text.is_empty() {
        text.push_str("; ")?;
    }
    text.push_str(name)?;
    Ok(())
}

fn push_bytes(text: &mut String, bytes: &[u8]) -> Result<()> {
    if bytes.is_empty() {
        text.push_str(" empty")?;
        return Ok(());
    }
    text.push(' ')?;
    for byte in bytes {
        write!(text, "{byte:02x}")?;
    }
    Ok(())
}

/// All bytes of a message, also the zeros at its end.
fn push_message(text: &mut String, message: &ZeroTail) -> Result<()> {
    let (front, zeros) = message.parts();
    push_bytes(text, front)?;
    for _ in 0..zeros {
        text.push_str("00")?;
    }
    Ok(())
}

fn push_text(text: &mut String, bytes: &[u8]) -> Result<()> {
    text.push(' ')?;
    for byte in bytes {
        text.push(char::from(*byte))?;
    }
    Ok(())
}

fn push_fields(text: &mut String, fields: &Sequence<Field>) -> Result<()> {
    for field in fields.as_slice() {
        push_text(text, field.name.as_slice())?;
        push_text(text, field.value.as_slice())?;
    }
    Ok(())
}

fn push_items(text: &mut String, name: &str, items: &Sequence<OutItem>) -> Result<()> {
    for item in items.as_slice() {
        push_name(text, name)?;
        match item {
            OutItem::Head(fields) => {
                text.push_str(" head")?;
                push_fields(text, fields)?;
            }
            OutItem::Message(message) => {
                text.push_str(" message")?;
                push_message(text, message)?;
            }
            OutItem::Trailers(fields) => {
                text.push_str(" trailers")?;
                push_fields(text, fields)?;
            }
            OutItem::Left => text.push_str(" left")?,
        }
    }
    Ok(())
}

/// The in side of an account.
fn push_in(text: &mut String, account: &Account) -> Result<()> {
    if !account.fed.is_empty() {
        push_name(text, "fed")?;
        push_bytes(text, account.fed.as_slice())?;
    }
    if let Some(shut) = account.shut {
        push_name(text, "shut")?;
        write!(text, " {shut:?}")?;
    }
    for message in account.taken.as_slice() {
        push_name(text, "took")?;
        push_bytes(text, message.as_slice())?;
    }
    if let Some(told) = account.told {
        push_name(text, "told")?;
        write!(text, " {told:?}")?;
    }
    Ok(())
}

/// The text of an account.
pub fn text_of(alloc: Global, account: &Account) -> Result<String> {
    let mut text = String::new(alloc);
    push_in(&mut text, account)?;
    push_items(&mut text, "gave", &account.given)?;
    push_items(&mut text, "sent", &account.sent)?;
    Ok(text)
}
