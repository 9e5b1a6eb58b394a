//! Rows for `lpm`, `pbwire`, `testproto`, `handlers` and `callrun`: bytes and the messages, fields
//! and values that they are, the calls of the seven methods with what each is answered, and calls
//! by their turns. A row is what is given, an arrow, and what is wanted.
//!
//! To be read in this order: `rows` for what a row is, and `words` for how bytes are written in
//! one; then a module for each crate, `bodies` (`lpm`), `fields` (`pbwire`), `test_messages` with
//! `text_form` (`testproto`), `calls` (`handlers`) and `turns` (`callrun`); `faults` has the
//! numbers and texts of all their faults.

use anyhow::Result;
use handlers::{
    EmptyCall, FullDuplexCall, Method, Methods, StreamingInputCall, StreamingOutputCall, UnaryCall,
};
use std::rt::Files;

mod bodies;
mod calls;
mod faults;
mod fields;
mod rows;
mod test_messages;
mod text_form;
mod turns;
mod words;

/// Length-prefixed messages.
fn try_bodies(rt: &(impl Files + Print + AllocGlobal)) -> Result<u32> {
    let bodies = rows::try_file(rt, "bodies.rows", bodies::Bodies)?;
    let pieces = rows::try_file(rt, "pieces.rows", bodies::Pieces)?;
    let frames = rows::try_file(rt, "frames.rows", bodies::Frames)?;
    Ok(bodies.saturating_add(pieces).saturating_add(frames))
}

/// Varints and fields.
fn try_fields(rt: &(impl Files + Print + AllocGlobal)) -> Result<u32> {
    let varints = rows::try_file(rt, "varints.rows", fields::ShortVarints)?;
    let others = rows::try_file(rt, "varints-read.rows", fields::Varints)?;
    let fields = rows::try_file(rt, "fields.rows", fields::ShortFields)?;
    let read = rows::try_file(rt, "fields-read.rows", fields::FieldLists)?;
    Ok(
        varints
            .saturating_add(others)
            .saturating_add(fields)
            .saturating_add(read),
    )
}

/// The test messages.
fn try_messages(rt: &(impl Files + Print + AllocGlobal)) -> Result<u32> {
    let messages = rows::try_file(rt, "messages.rows", test_messages::Canonical)?;
    let read = rows::try_file(rt, "messages-read.rows", test_messages::AnySpelling)?;
    let faults = rows::try_file(rt, "message-faults.rows", test_messages::Faulty)?;
    Ok(messages.saturating_add(read).saturating_add(faults))
}

/// The seven methods.
fn try_calls(rt: &(impl Files + Print + AllocGlobal)) -> Result<u32> {
    let alloc = rt.alloc();
    let mut methods: Vec<Box<dyn Method>> = Vec::new(alloc);
    methods.push(Box::new(alloc, EmptyCall)?)?;
    methods.push(Box::new(alloc, StreamingInputCall)?)?;
    let methods = Methods::new(methods);
    let calls = rows::try_file(rt, "calls.rows", calls::Calls)?;
    let sums = rows::try_file(rt, "sums.rows", calls::Sums)?;
    let paths = rows::try_file(rt, "paths.rows", calls::Paths { methods: &methods })?;
    Ok(calls.saturating_add(sums).saturating_add(paths))
}

/// Calls by their turns.
fn try_turns(rt: &(impl Files + Print + AllocGlobal)) -> Result<u32> {
    let alloc = rt.alloc();
    let mut methods: Vec<Box<dyn Method>> = Vec::new(alloc);
    methods.push(Box::new(alloc, EmptyCall)?)?;
    methods.push(Box::new(alloc, UnaryCall)?)?;
    methods.push(Box::new(alloc, StreamingInputCall)?)?;
    methods.push(Box::new(alloc, StreamingOutputCall)?)?;
    methods.push(Box::new(alloc, FullDuplexCall)?)?;
    let methods = Methods::new(methods);
    rows::try_file(rt, "turns.rows", turns::Turns { methods: &methods })
}

/// Tries the rows of all files; answers how many differ.
pub fn try_all(rt: &(impl Files + Print + AllocGlobal)) -> Result<u32> {
    let of_bodies = try_bodies(rt)?;
    let of_fields = try_fields(rt)?;
    let of_messages = try_messages(rt)?;
    let of_calls = try_calls(rt)?;
    let of_turns = try_turns(rt)?;
    let of_faults = rows::try_file(rt, "faults.rows", faults::Faults)?;
    Ok(
        of_bodies
            .saturating_add(of_fields)
            .saturating_add(of_messages)
            .saturating_add(of_calls)
            .saturating_add(of_turns)
            .saturating_add(of_faults),
    )
}
