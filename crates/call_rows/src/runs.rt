//! Runs that have no rows: what was put into a queue is found, waits at a bell end, the ends of a
//! call settle over rings and in threads, and signals don't end a read or a write. No clause says
//! that these calls succeed while there is memory.

use anyhow::{Result, ensure};
use std::rt::Clock;
use std::sync::Wait;
use std::thread::Threads;

mod bells;
mod borders;
mod devices;
mod four_threads;
mod in_ends;
mod lanes;
mod messages;
mod methods;
mod out_ends;
mod protobuf;
mod replies;
mod rings;
mod threads;
mod values;

/// Prints what holds, and fails where it doesn't.
fn tell(rt: &impl Print, what: &str, holds: bool) -> Result<()> {
    ensure!(holds, "this does not hold: {what}");
    println!(rt; "{what}")?;
    Ok(())
}

/// Tries all of them.
pub fn run_all<R: Threads + Wait + Sync + Clock + Print + AllocGlobal>(rt: &R) -> Result<()> {
    run_lists(rt)?;
    run_queues(rt)?;
    run_ends(rt)?;
    run_threads(rt)
}

fn run_lists<R: Print + AllocGlobal>(rt: &R) -> Result<()> {
    let alloc = rt.alloc();
    tell(rt, "octets are their bytes", values::octets(alloc)?)?;
    tell(
        rt,
        "octets share their bytes",
        values::shared_octets(alloc)?,
    )?;
    tell(
        rt,
        "fields and sequences are copied whole",
        values::fields(alloc)?,
    )?;
    tell(
        rt,
        "the longest message is written and split",
        messages::the_longest(alloc)?,
    )?;
    tell(
        rt,
        "a message that is too long is refused",
        messages::too_long(alloc)?,
    )?;
    tell(
        rt,
        "a message that is written is read again",
        protobuf::is_read_again(alloc)?,
    )?;
    tell(
        rt,
        "signals end no read and no write",
        devices::pass_over_signals(alloc)?,
    )?;
    tell(rt, "a device that fails is marked", devices::fail(alloc)?)
}

fn run_queues<R: Print + AllocGlobal>(rt: &R) -> Result<()> {
    let alloc = rt.alloc();
    tell(rt, "lanes fill and empty", lanes::fill_and_empty(alloc)?)?;
    tell(rt, "rows stay full", lanes::rows_stay_full(alloc)?)?;
    tell(
        rt,
        "items are found in lanes of each room",
        lanes::are_found(alloc)?,
    )?;
    tell(rt, "a ring has room again", rings::has_room_again(alloc)?)?;
    tell(
        rt,
        "a meeting keeps what is lent",
        rings::meeting_keeps(alloc)?,
    )?;
    tell(rt, "a ring moves its items", rings::moves(alloc)?)?;
    run_borders(rt)?;
    tell(
        rt,
        "faults of queues have texts",
        lanes::fault_texts(alloc)?,
    )
}

fn run_borders<R: Print + AllocGlobal>(rt: &R) -> Result<()> {
    let alloc = rt.alloc();
    tell(rt, "a full lane is read back", borders::wait_all(alloc)?)?;
    tell(
        rt,
        "a lane is read as it is filled",
        borders::come_one_by_one(alloc)?,
    )?;
    tell(
        rt,
        "a reader follows over each border",
        borders::follow(alloc)?,
    )?;
    tell(rt, "ends meet at each border", borders::meet(alloc)?)
}

fn run_ends<R: Print + AllocGlobal>(rt: &R) -> Result<()> {
    let alloc = rt.alloc();
    tell(
        rt,
        "what was polled is kept",
        in_ends::keep_what_was_polled(alloc)?,
    )?;
    tell(
        rt,
        "what was polled is credited",
        in_ends::credit_what_was_polled(alloc)?,
    )?;
    tell(
        rt,
        "what is given is sent",
        out_ends::send_what_is_given(alloc)?,
    )?;
    tell(
        rt,
        "replies are read back in their order",
        replies::are_read_back(alloc)?,
    )
}

fn run_threads<R: Threads + Wait + Sync + Clock + Print + AllocGlobal>(rt: &R) -> Result<()> {
    let alloc = rt.alloc();
    tell(
        rt,
        "a wait ends by an earlier ring or the limit",
        bells::wait_ends(rt)?,
    )?;
    tell(rt, "two take turns at a bell", bells::two_take_turns(rt)?)?;
    tell(
        rt,
        "two ring and two wait",
        bells::two_ring_and_two_wait(rt)?,
    )?;
    tell(
        rt,
        "items cross threads in order",
        lanes::cross_threads(rt, alloc)?,
    )?;
    tell(
        rt,
        "two threads share methods",
        methods::are_shared(rt, alloc)?,
    )?;
    tell(
        rt,
        "a call's four ends settle in threads",
        threads::four_ends(rt, alloc)?,
    )
}
