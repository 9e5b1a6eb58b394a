//! Worked calls and their messages: rows in the files of `data/`, and runs that have no rows. What
//! differs is printed.
//!
//! A row of `data/ends.rows` is a line `EVENTS => ACCOUNT`, whose words that file explains. It is
//! run through the serial core (`account::replay`), and through the four ends of a call, over rings
//! and over rows of cells.
//!
//! Read `events` first, which reads the events of a row, and `account_text`, which writes an
//! account as rows have it; then `in_ends` and `out_ends`, which run the two sides of a call by its
//! ends. `messages` has the rows of messages, fields and methods; `runs` tries what has no rows:
//! lists, queues, bells, devices, and ends in threads.
#![tactic(auto)]

use account::{Account, CallEvent, OutItem, replay};
use account_text::text_of;
use anyhow::{Context, Result, ensure};
use callbox::InPiece;
use events::events_of;
use in_ends::run_in;
use lane::{Lane, RingLane, RowLane};
use lists::{Octets, Sequence};
use out_ends::run_out;
use std::alloc::Global;
use std::fs;
use std::rt::Files;

mod account_text;
mod events;
mod in_ends;
mod messages;
mod out_ends;
mod runs;

const FILES: [&str; 1] = ["ends.rows"];

/// What the ends of a call did and told, over lanes of this kind.
fn account_of_ends<I: Lane<Item = InPiece>, O: Lane<Item = OutItem>>(
    alloc: Global,
    events: &[CallEvent],
) -> Result<Account> {
    let heard = run_in::<I>(alloc, events)?;
    let (given, sent) = run_out::<O>(alloc, events)?;
    Ok(Account {
        fed: Octets::from(heard.fed),
        shut: heard.shut,
        taken: Sequence::from(heard.taken),
        told: heard.told,
        given: Sequence::from(given),
        sent: Sequence::from(sent),
    })
}

/// The text of the account that events make through the serial core, and of that over rings or over
/// rows of cells.
fn serial_text(alloc: Global, events: &[CallEvent]) -> Result<String> {
    let account = replay(alloc, events)?;
    text_of(alloc, &account)
}

fn ring_text(alloc: Global, events: &[CallEvent]) -> Result<String> {
    let account = account_of_ends::<RingLane<InPiece>, RingLane<OutItem>>(alloc, events)?;
    text_of(alloc, &account)
}

fn row_text(alloc: Global, events: &[CallEvent]) -> Result<String> {
    let account = account_of_ends::<RowLane<InPiece>, RowLane<OutItem>>(alloc, events)?;
    text_of(alloc, &account)
}

/// Runs one row, and says whether each way made the wanted account.
fn is_met(rt: &(impl Print + AllocGlobal), row: &str, place: &str) -> Result<bool> {
    let (events, wanted) = row.split_once("=>").context("no `=>`")?;
    let wanted = wanted.trim();
    let events = events_of(rt.alloc(), events)?;
    let serial = serial_text(rt.alloc(), events.as_slice())?;
    let by_serial = is_same(rt, "serial", place, serial.as_str(), wanted)?;
    let ring = ring_text(rt.alloc(), events.as_slice())?;
    let by_ring = is_same(rt, "ring", place, ring.as_str(), wanted)?;
    let row = row_text(rt.alloc(), events.as_slice())?;
    let by_row = is_same(rt, "row", place, row.as_str(), wanted)?;
    Ok(by_serial && by_ring && by_row)
}

/// Whether a way made the wanted account, which is printed if it didn't.
fn is_same(rt: &impl Print, way: &str, place: &str, got: &str, wanted: &str) -> Result<bool> {
    if got != wanted {
        println!(rt; "{place}, {way}\n  wanted {wanted}\n  got {got}")?;
    }
    Ok(got == wanted)
}

/// Runs the rows of a file, and answers how many differ.
fn run_file(rt: &(impl Print + Files + AllocGlobal), name: &str) -> Result<u64> {
    let text = fs::read_to_string(rt, name)?;
    let (rows, differing) = run_lines(rt, name, text.as_str())?;
    println!(rt; "{name}: {rows} rows")?;
    Ok(differing)
}

/// How many rows the text of a file has, and how many of them differ.
fn run_lines(rt: &(impl Print + AllocGlobal), name: &str, text: &str) -> Result<(u64, u64)> {
    let mut rows = 0_u64;
    let mut differing = 0_u64;
    for (number, line) in text.lines().enumerate() {
        let row = line.trim();
        if row.is_empty() || row.starts_with('#') {
            continue;
        }
        let place = format!(in rt.alloc(); "{name}, line {}", number.saturating_add(1))?;
        rows = rows.saturating_add(1);
        if !is_met(rt, row, place.as_str()).context(place.as_str())? {
            differing = differing.saturating_add(1);
        }
    }
    Ok((rows, differing))
}

fn main(rt: HostRuntime) -> Result<()> {
    for name in FILES {
        let differing = run_file(&rt, name)?;
        ensure!(differing == 0, "{differing} rows of {name} differ");
    }
    let differing = messages::try_all(&rt)?;
    ensure!(differing == 0, "{differing} rows of messages differ");
    runs::run_all(&rt)
}
