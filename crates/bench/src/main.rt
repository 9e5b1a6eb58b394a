//! Measurements, for the scripts of `bench/`.
//!
//! The first word chooses one, and the numbers after it its size: it prints how long it took, in
//! nanoseconds. Without words each runs once, small, and prints what it did but no time.
//!
//! Each module measures one library: `lane_bench` and `lane_opened`, `h2frame_feed`,
//! `hpack_blocks`, `hpack_writing`, `flow_halves`, `protobuf_messages`, `handlers_calls`,
//! `session_reading` and `outbound_frames`; `sizes` reads the numbers.
#![tactic(auto)]

mod flow_halves;
mod h2frame_feed;
mod handlers_calls;
mod hpack_blocks;
mod hpack_writing;
mod lane_bench;
mod lane_opened;
mod outbound_frames;
mod protobuf_messages;
mod session_reading;
mod sizes;

use anyhow::{Result, bail};
use std::env;
use std::sync::Wait;
use std::thread::Threads;
use std::time::Clock;

fn main(rt: HostRuntime) -> Result<()> {
    let words: Vec<String> = env::args(&rt)?.skip(1).collect(rt.alloc())?;
    match words.as_slice() {
        [] => run_all(&rt),
        [name, sizes @ ..] => run_one(&rt, name.as_str(), sizes),
    }
}

/// Each measurement once, small.
fn run_all<R: Threads + Wait + Sync + AllocGlobal + Print + Clock>(rt: &R) -> Result<()> {
    lane_bench::run_all(rt, rt.alloc())?;
    lane_opened::small(rt)?;
    h2frame_feed::small(rt)?;
    hpack_blocks::small(rt)?;
    hpack_writing::small(rt)?;
    flow_halves::small(rt)?;
    protobuf_messages::small(rt)?;
    handlers_calls::small(rt)?;
    session_reading::small(rt)?;
    outbound_frames::small(rt)
}

/// The measurement of a name.
fn run_one<R: Threads + Wait + Sync + AllocGlobal + Print + Clock>(
    rt: &R,
    name: &str,
    sizes: &[String],
) -> Result<()> {
    match name {
        "flow-halves" => flow_halves::timed(rt, sizes),
        "handlers-reply" => handlers_calls::reply(rt, sizes),
        "handlers-request" => handlers_calls::one_request(rt, sizes),
        "h2frame-feed" => h2frame_feed::timed(rt, sizes),
        "hpack-huffman" => hpack_blocks::huffman(rt, sizes),
        "hpack-evictions" => hpack_blocks::evictions(rt, sizes),
        "hpack-heads" => hpack_writing::heads(rt, sizes),
        "hpack-random" => hpack_writing::random(rt, sizes),
        "lane-opened" => lane_opened::opened(rt, sizes),
        "lane-relay" => lane_bench::relayed(rt, rt.alloc(), sizes),
        "lane-ring" => lane_bench::rings(rt, sizes),
        "lane-ring-awaited" => lane_bench::rings_awaited(rt, sizes),
        "outwriter-each" => outbound_frames::each(rt, sizes),
        "outwriter-long" => outbound_frames::long(rt, sizes),
        "outwriter-one" => outbound_frames::one(rt, sizes),
        "outwriter-small" => outbound_frames::small_replies(rt, sizes),
        "session-calls" => session_reading::calls(rt, sizes),
        "session-data" => session_reading::data(rt, sizes),
        "testproto-body" => protobuf_messages::one_body(rt, sizes),
        "testproto-many" => protobuf_messages::many(rt, sizes),
        _ => bail!("there is no such measurement"),
    }
}
