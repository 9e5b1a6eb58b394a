//! Rows of `handlers`: whole calls of the seven methods, and the paths that name methods.

use super::rows::Subject;
use super::words::{all_bytes, bytes_of, push_bytes};
use anyhow::{Context, Result, bail, ensure};
use handlers::{
    CacheableUnaryCall, EmptyCall, FullDuplexCall, HalfDuplexCall, Method, MethodState, MethodStep,
    Methods, Replies, StreamingInputCall, StreamingOutputCall, UnaryCall, run,
};
use std::alloc::Global;

/// What begins the path of each method.
const SERVICE: &str = "/grpc.testing.TestService/";

/// Replies, each with a `;` after it.
fn push_replies(text: &mut String, alloc: Global, mut replies: Replies) -> Result<()> {
    for _ in 0..u64::MAX {
        let Some(reply) = replies.first() else {
            break;
        };
        push_bytes(text, reply.bytes(alloc)?.as_slice())?;
        text.push_str("; ")?;
        replies.pass();
    }
    Ok(())
}

/// The replies of a call, and its status or `open`.
fn push_answer(text: &mut String, alloc: Global, answer: MethodStep) -> Result<()> {
    push_replies(text, alloc, answer.replies)?;
    match &answer.ends {
        Some(status) => write!(text, "{} {}", status.code.number(), status.text.as_str())?,
        None => text.push_str("open")?,
    }
    Ok(())
}

/// What a method answers to these messages, and to their end if `ended`. Its path has to end with
/// this name.
fn call_text(
    alloc: Global,
    method: &dyn Method,
    name: &str,
    messages: &[&[u8]],
    ended: bool,
) -> Result<String> {
    let path = format!(in alloc; "{SERVICE}{name}")?;
    ensure!(method.path() == path.as_str(), "another path");
    let answer = run(alloc, method, messages, ended)?;
    let mut text = String::new(alloc);
    push_answer(&mut text, alloc, answer)?;
    Ok(text)
}

/// What the method with this name answers.
fn named_call(alloc: Global, name: &str, messages: &[&[u8]], ended: bool) -> Result<String> {
    match name {
        "EmptyCall" => call_text(alloc, &EmptyCall, name, messages, ended),
        "UnaryCall" => call_text(alloc, &UnaryCall, name, messages, ended),
        "CacheableUnaryCall" => call_text(alloc, &CacheableUnaryCall, name, messages, ended),
        "StreamingOutputCall" => call_text(alloc, &StreamingOutputCall, name, messages, ended),
        "StreamingInputCall" => call_text(alloc, &StreamingInputCall, name, messages, ended),
        "FullDuplexCall" => call_text(alloc, &FullDuplexCall, name, messages, ended),
        "HalfDuplexCall" => call_text(alloc, &HalfDuplexCall, name, messages, ended),
        _ => bail!("no method {name}"),
    }
}

/// Whether the messages have ended, by the word of a row.
fn is_ended(word: &str) -> Result<bool> {
    match word {
        "ended" => Ok(true),
        "open" => Ok(false),
        _ => bail!("{word} is neither ended nor open"),
    }
}

/// A call: the name of its method, `ended` or `open`, and its messages.
#[derive(Drop)]
pub struct Calls;

impl Subject for Calls {
    fn answer(&self, alloc: Global, given: &str) -> Result<String> {
        let mut words = given.splitn(3, ' ');
        let name = words.next().context("the name of a method")?;
        let ended = is_ended(words.next().context("ended or open")?)?;
        let messages = all_bytes(alloc, words.next().unwrap_or(""))?;
        let mut slices = Vec::new(alloc);
        for message in &messages {
            slices.push(message.as_slice())?;
        }
        named_call(alloc, name, slices.as_slice(), ended)
    }
}

/// What StreamingInputCall answers to this message after others with this sum.
fn sum_text(alloc: Global, sum: u32, message: &[u8]) -> Result<String> {
    let mut state = MethodState::Sum(sum);
    let step = StreamingInputCall.message(alloc, &mut state, message)?;
    let mut text = String::new(alloc);
    push_answer(&mut text, alloc, step)?;
    Ok(text)
}

/// A sum so far, and a request that is added to it.
#[derive(Drop)]
pub struct Sums;

impl Subject for Sums {
    fn answer(&self, alloc: Global, given: &str) -> Result<String> {
        let (sum, word) = given.split_once(' ').context("a sum and a message")?;
        let sum = sum.parse::<u32>()?;
        sum_text(alloc, sum, bytes_of(alloc, word)?.as_slice())
    }
}

/// A path: the index of the method that it finds, or `none`.
#[derive(Drop)]
pub struct Paths<'a> {
    pub methods: &'a Methods,
}

impl Subject for Paths<'_> {
    fn answer(&self, alloc: Global, given: &str) -> Result<String> {
        let path = if given == "-" { "" } else { given };
        Ok(match self.methods.find(path.as_bytes()) {
            Some(index) => format!(in alloc; "{index}")?,
            None => String::from_str(alloc, "none")?,
        })
    }
}
