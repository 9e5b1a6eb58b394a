//! What became of a run.

use crate::devices::{Sink, Source};
use crate::gates::MOST;
use account::RequestEnd;
use anyhow::Result;
use connection::{Accounts, CallAccount, ServedConn, Traffic};
use std::alloc::Global;

/// Prints what became of a connection that was read from here. Where there is no memory for that it
/// prints nothing.
pub fn print_served(
    rt: &impl Print,
    alloc: Global,
    source: &Source,
    served: &ServedConn<Sink>,
) -> Result<()> {
    print_written(rt, alloc, &served.output)?;
    println!(rt; "read {}{}", source.at, failure(source.has_failed))?;
    println!(rt; "ending {}", served.report.ending.code())?;
    print_calls(rt, &served.report.calls)?;
    println!(rt; "over")?;
    Ok(())
}

/// Prints whether a gate needn't have given up, how often it was asked in vain, and what became of
/// the calls after it.
pub fn print_held(rt: &impl Print, times: u32, served: &ServedConn<Sink>) -> Result<()> {
    println!(rt; "held {}", times < MOST)?;
    print_calls(rt, &served.report.calls)?;
    println!(rt; "over")?;
    Ok(())
}

fn print_written(rt: &impl Print, alloc: Global, sink: &Sink) -> Result<()> {
    let digits = hex::encode(alloc, sink.bytes.as_slice())?;
    println!(rt; "written {digits}")?;
    println!(rt; "wrote {}{}", sink.bytes.len(), failure(sink.has_failed))?;
    Ok(())
}

fn print_calls(rt: &impl Print, calls: &Accounts) -> Result<()> {
    println!(rt; "calls {}", calls.len())?;
    for place in 0..calls.len() {
        if let Some(call) = calls.get(place) {
            print_call(rt, call)?;
        }
    }
    Ok(())
}

fn failure(has_failed: bool) -> &'static str {
    if has_failed { " failed" } else { "" }
}

/// How many items the call was given, and how many of them were sent. Without trailers the last
/// item is that the call was left, which doesn't count.
fn items_of(call: &CallAccount) -> (u64, u64) {
    let (given, sent) = (call.output.given, call.output.sent);
    if call.output.trailers_given {
        return (given, sent);
    }
    let given = given.saturating_sub(1);
    (given, sent.min(given))
}

/// How far the trailers came.
fn trailers_of(call: &CallAccount) -> &'static str {
    match (call.output.trailers_given, call.output.trailers_sent) {
        (_, true) => "sent",
        (true, false) => "given",
        (false, false) => "none",
    }
}

fn print_call(rt: &impl Print, call: &CallAccount) -> Result<()> {
    let CallAccount {
        id,
        method,
        input,
        traffic,
        ..
    } = call;
    let messages = input.taken;
    let (given, sent) = items_of(call);
    let Traffic {
        bytes,
        replies,
        reply_bytes,
    } = traffic;
    let told = match input.told {
        Some(RequestEnd::End) => "end",
        Some(RequestEnd::Reset(_)) => "reset",
        Some(RequestEnd::Fault(_)) => "fault",
        None => "nothing",
    };
    print!(rt; "call {id} {method} {messages} {bytes} {told} {replies} {reply_bytes} ")?;
    print!(rt; "{given} {sent} {} ", trailers_of(call))?;
    match call.status {
        Some(status) => println!(rt; "{status}")?,
        None => println!(rt; "left")?,
    }
    Ok(())
}
