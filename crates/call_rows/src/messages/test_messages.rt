//! Rows of `testproto`: test messages, as they are read and written, and the faults of bytes that
//! are none.

use super::rows::Subject;
use super::text_form::{HasTextForm, TextForm};
use super::words::joined_bytes;
use anyhow::{Context, Result, bail, ensure};
use std::alloc::Global;
use testproto::{
    BoolValue, EchoStatus, Empty, Message, Payload, ResponseParameters, SimpleRequest,
    SimpleResponse, StreamingInputCallRequest, StreamingInputCallResponse,
    StreamingOutputCallRequest, StreamingOutputCallResponse,
};

/// What is asked of the bytes of a row.
#[derive(Clone, Copy)]
enum Question {
    /// The text form of the message that they are.
    TextForm,
    /// The bytes are a message's, and what is written of the message.
    Written,
    /// Why they are no message.
    Fault,
}

/// The text form of the message that the bytes are.
fn text_of<'a, M: Message<'a> + HasTextForm>(
    alloc: Global,
    bytes: &'a [u8],
    written: bool,
) -> Result<String> {
    let message = M::decode(alloc, bytes)?;
    if written {
        let again = message.encode(alloc)?;
        ensure!(
            again.as_slice() == bytes,
            "written in {} bytes",
            again.len()
        );
    }
    let mut form = TextForm::new(alloc);
    message.show(&mut form)?;
    Ok(form.into_text())
}

/// The fault of bytes that are no such message.
fn fault_of<'a, M: Message<'a>>(alloc: Global, bytes: &'a [u8]) -> Result<String> {
    match M::decode(alloc, bytes) {
        Ok(_) => Ok(String::from_str(alloc, "no fault")?),
        Err(fault) => Ok(format!(in alloc; "{fault:?}")?),
    }
}

fn answer_of<'a, M: Message<'a> + HasTextForm>(
    alloc: Global,
    bytes: &'a [u8],
    question: Question,
) -> Result<String> {
    match question {
        Question::TextForm => text_of::<M>(alloc, bytes, false),
        Question::Written => text_of::<M>(alloc, bytes, true),
        Question::Fault => fault_of::<M>(alloc, bytes),
    }
}

/// The answer for the message of this name.
fn named_answer(alloc: Global, name: &str, bytes: &[u8], question: Question) -> Result<String> {
    match name {
        "Empty" => answer_of::<Empty>(alloc, bytes, question),
        "Payload" => answer_of::<Payload>(alloc, bytes, question),
        "BoolValue" => answer_of::<BoolValue>(alloc, bytes, question),
        "EchoStatus" => answer_of::<EchoStatus>(alloc, bytes, question),
        "SimpleRequest" => answer_of::<SimpleRequest>(alloc, bytes, question),
        "SimpleResponse" => answer_of::<SimpleResponse>(alloc, bytes, question),
        "ResponseParameters" => answer_of::<ResponseParameters>(alloc, bytes, question),
        _ => streaming_answer(alloc, name, bytes, question),
    }
}

/// The answer for the messages of streaming calls.
fn streaming_answer(alloc: Global, name: &str, bytes: &[u8], question: Question) -> Result<String> {
    match name {
        "StreamingInputCallRequest" => {
            answer_of::<StreamingInputCallRequest>(alloc, bytes, question)
        }
        "StreamingInputCallResponse" => {
            answer_of::<StreamingInputCallResponse>(alloc, bytes, question)
        }
        "StreamingOutputCallRequest" => {
            answer_of::<StreamingOutputCallRequest>(alloc, bytes, question)
        }
        "StreamingOutputCallResponse" => {
            answer_of::<StreamingOutputCallResponse>(alloc, bytes, question)
        }
        _ => bail!("no message {name}"),
    }
}

/// The answer to a row: the name of a message, and bytes.
fn row_answer(alloc: Global, given: &str, question: Question) -> Result<String> {
    let (name, word) = given.split_once(' ').context("a name and bytes")?;
    let bytes = joined_bytes(alloc, word)?;
    named_answer(alloc, name, bytes.as_slice(), question)
}

/// Messages of any spelling.
#[derive(Drop)]
pub struct AnySpelling;

impl Subject for AnySpelling {
    fn answer(&self, alloc: Global, given: &str) -> Result<String> {
        row_answer(alloc, given, Question::TextForm)
    }
}

/// Messages that are written as these bytes.
#[derive(Drop)]
pub struct Canonical;

impl Subject for Canonical {
    fn answer(&self, alloc: Global, given: &str) -> Result<String> {
        row_answer(alloc, given, Question::Written)
    }
}

/// The messages whose faults are asked for where a row says `every`.
const MESSAGES: [&str; 11] = [
    "Empty",
    "Payload",
    "BoolValue",
    "EchoStatus",
    "SimpleRequest",
    "SimpleResponse",
    "StreamingInputCallRequest",
    "StreamingInputCallResponse",
    "ResponseParameters",
    "StreamingOutputCallRequest",
    "StreamingOutputCallResponse",
];

/// The one fault that the bytes have as each of the messages.
fn common_fault(alloc: Global, bytes: &[u8]) -> Result<String> {
    let common = named_answer(alloc, "Empty", bytes, Question::Fault)?;
    for name in MESSAGES {
        let fault = named_answer(alloc, name, bytes, Question::Fault)?;
        ensure!(fault.as_str() == common.as_str(), "as {name}: {fault}");
    }
    Ok(common)
}

/// Bytes that are no message.
#[derive(Drop)]
pub struct Faulty;

impl Subject for Faulty {
    fn answer(&self, alloc: Global, given: &str) -> Result<String> {
        match given.strip_prefix("every ") {
            Some(word) => common_fault(alloc, joined_bytes(alloc, word)?.as_slice()),
            None => row_answer(alloc, given, Question::Fault),
        }
    }
}
