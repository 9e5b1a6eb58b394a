//! Rows of `pbwire`: varints and fields, as they are read and written.

use super::rows::Subject;
use super::words::{joined_bytes, push_bytes};
use anyhow::{Result, bail, ensure};
use pbwire::{
    FieldItem, FieldValue, Fields, WireFault, read_fields, read_varint, varint_len, write_field,
    write_varint,
};
use std::alloc::Global;

/// The greatest number of a field.
const MAX_FIELD_NUMBER: u32 = 536_870_911;

/// The number and the length of the varint at the front, or its fault.
fn varint_text(alloc: Global, bytes: &[u8]) -> Result<String> {
    Ok(match read_varint(bytes) {
        Ok((number, len)) => format!(in alloc; "{number} in {len}")?,
        Err(fault) => format!(in alloc; "{fault:?}")?,
    })
}

/// Bytes that begin with a varint.
#[derive(Drop)]
pub struct Varints;

impl Subject for Varints {
    fn answer(&self, alloc: Global, given: &str) -> Result<String> {
        varint_text(alloc, joined_bytes(alloc, given)?.as_slice())
    }
}

/// Bytes that are a varint, which is written as these bytes.
#[derive(Drop)]
pub struct ShortVarints;

impl Subject for ShortVarints {
    fn answer(&self, alloc: Global, given: &str) -> Result<String> {
        let bytes = joined_bytes(alloc, given)?;
        let text = varint_text(alloc, bytes.as_slice())?;
        if let Ok((number, _)) = read_varint(bytes.as_slice()) {
            let mut out = Vec::new(alloc);
            write_varint(number, &mut out)?;
            let len = varint_len(number);
            ensure!(
                out.as_slice() == bytes.as_slice(),
                "{number} is written as {out:?}"
            );
            ensure!(len == bytes.len(), "{number} is written in {len} bytes");
        }
        Ok(text)
    }
}

/// The text of a field: its number, the kind of its content, and what it holds.
fn push_field(text: &mut String, item: &FieldItem<'_>) -> Result<()> {
    let number = item.number;
    write!(text, "{number}: ")?;
    match item.value {
        FieldValue::Varint(value) => write!(text, "varint {value}")?,
        FieldValue::EightBytes(value) => write!(text, "eight bytes {value:016x}")?,
        FieldValue::Bytes(content) => {
            write!(text, "bytes ")?;
            push_bytes(text, content)?;
        }
        FieldValue::FourBytes(value) => write!(text, "four bytes {value:08x}")?,
    }
    text.push_str("; ")?;
    Ok(())
}

/// The text of the fields of a message, one after another, and of their fault or their end.
fn fields_text(alloc: Global, bytes: &[u8]) -> Result<String> {
    let reading = read_fields(alloc, bytes)?;
    let mut text = String::new(alloc);
    for item in &reading.fields {
        push_field(&mut text, item)?;
    }
    match reading.fault {
        Some(fault) => write!(text, "{fault:?}")?,
        None => text.push_str("end")?,
    }
    Ok(text)
}

/// Whether a fault is answered again.
fn repeats(fields: &mut Fields<'_>, fault: WireFault) -> bool {
    fields.next() == Some(Err(fault)) && fields.next() == Some(Err(fault))
}

/// Whether the end is answered again.
fn stays_at_end(fields: &mut Fields<'_>) -> bool {
    fields.next().is_none() && fields.next().is_none()
}

/// The text of fields that are asked for one by one. What ends them is answered again.
fn steps_text(alloc: Global, bytes: &[u8]) -> Result<String> {
    let mut text = String::new(alloc);
    let mut fields = Fields::new(bytes);
    for _ in 0..=bytes.len() {
        match fields.next() {
            Some(Ok(item)) => push_field(&mut text, &item)?,
            Some(Err(fault)) => {
                ensure!(repeats(&mut fields, fault), "{fault:?} is answered once");
                write!(text, "{fault:?}")?;
                return Ok(text);
            }
            None => {
                ensure!(stays_at_end(&mut fields), "the end is answered once");
                text.push_str("end")?;
                return Ok(text);
            }
        }
    }
    bail!("more fields than bytes")
}

/// Messages of any spelling.
#[derive(Drop)]
pub struct FieldLists;

impl Subject for FieldLists {
    fn answer(&self, alloc: Global, given: &str) -> Result<String> {
        let bytes = joined_bytes(alloc, given)?;
        let text = fields_text(alloc, bytes.as_slice())?;
        let steps = steps_text(alloc, bytes.as_slice())?;
        ensure!(steps.as_str() == text.as_str(), "one by one {steps}");
        Ok(text)
    }
}

/// Messages whose fields are written as these bytes.
#[derive(Drop)]
pub struct ShortFields;

impl Subject for ShortFields {
    fn answer(&self, alloc: Global, given: &str) -> Result<String> {
        let bytes = joined_bytes(alloc, given)?;
        let mut out = Vec::new(alloc);
        for item in &read_fields(alloc, bytes.as_slice())?.fields {
            let number = item.number;
            ensure!(
                1 <= number && number <= MAX_FIELD_NUMBER,
                "a field {number}"
            );
            write_field(number, &item.value, &mut out)?;
        }
        ensure!(out.as_slice() == bytes.as_slice(), "written as {out:?}");
        FieldLists.answer(alloc, given)
    }
}
