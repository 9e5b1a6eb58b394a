//! The server's connections over devices that fail, or that move little at a time, and over clocks
//! that stand still, leap or can't be read.
//!
//! A line of standard input is a run: what the client sends, in hexadecimal digits, and then words
//! (`plan` reads both). A run serves it by `serve_connection`, and prints what became of it, line
//! by line:
//!
//! - `written` and what was written, in hexadecimal digits;
//! - `wrote N`, `read N`, in bytes; after the number ` failed` where a write or a read failed;
//! - `ending N`, in the numbers of `Ending::code`;
//! - `calls N`, and of each its stream, its method by its place in `main`, messages and bytes
//!   taken, what was told after them (`end`, `reset`, `fault`, `nothing`), messages and bytes of
//!   replies, items given and sent, whether trailers were `sent`, `given` alone or `none`, and its
//!   status, or `left`;
//! - `over`.
//!
//! With a gate other than the open one, where the schedule decides what is written first, a run
//! prints only its calls, and before them `held true` if the gate had no need to give up. One that
//! drains prints `answered` and `turns`, each with `true` where it is so: each call was answered
//! with status 0 at whichever turn its connection was drained, and there were three turns at least.
#![tactic(auto)]

ghost use Rattle.std.specs.Prelude.{◌≡◌, ◌<◌};

mod clock;
mod devices;
mod drained;
mod gates;
mod plan;
mod report;

use anyhow::Result;
use clock::TimedRuntime;
use connection::{Drainer, Gate, OpenGate, ServedConn, serve_connection};
use devices::{DrainedSource, Sink, Source};
use drained::drain_at_each_turn;
use gates::{KeepGate, RefuseGate};
use handlers::{
    CacheableUnaryCall, EmptyCall, FullDuplexCall, HalfDuplexCall, Method, Methods,
    StreamingInputCall, StreamingOutputCall, UnaryCall,
};
use plan::{Hold, Plan};
use report::{print_held, print_served};
use std::alloc::Global;
use std::marker::Brand;
use std::sync::ledger::{Blank, Ledger};
use std::sync::{Arc, Wait};
use std::thread::Threads;
use std::time::Clock;

/// How many calls a connection has that is drained at each turn: a gate has a turn of each at
/// least.
const CALLS: u32 = 3;

/// Runs a line, and prints what became of it.
fn run<R>(rt: R, alloc: Global, methods: &Arc<Methods>, line: &str) -> Result<()>
where
    R: Threads + Wait + Clock + Print + Copy + Send + Sync + Drop + 'static,
{
    let plan = Plan::read(alloc, line)?;
    let theirs = Arc::try_clone(methods)?;
    match plan.hold {
        Hold::Open => {
            let gate = Arc::new(alloc, OpenGate)?;
            let (source, served) = serve(rt, alloc, theirs, plan, gate)?;
            print_served(&rt, alloc, &source, &served)
        }
        Hold::Refusing => {
            let gate = Arc::new(alloc, RefuseGate::new())?;
            let (_, served) = serve(rt, alloc, theirs, plan, Arc::try_clone(&gate)?)?;
            print_held(&rt, gate.refusals(), &served)
        }
        Hold::Keeping => {
            let gate = Arc::new(alloc, KeepGate::new(rt))?;
            let (_, served) = serve(rt, alloc, theirs, plan, Arc::try_clone(&gate)?)?;
            print_held(&rt, gate.turns(), &served)
        }
        Hold::Draining => {
            let (are_answered, turns) = drain_at_each_turn(rt, alloc, methods, line)?;
            println!(rt; "answered {are_answered}\nturns {}\nover", turns >= CALLS)?;
            Ok(())
        }
    }
}

/// Serves the connection of a plan through its gate. Answers what was read from, and what became of
/// it.
fn serve<R, G>(
    rt: R,
    alloc: Global,
    methods: Arc<Methods>,
    plan: Plan,
    gate: Arc<G>,
) -> Result<(Source, ServedConn<Sink>)>
where
    R: Threads + Wait + Clock + Copy + Send + Sync + Drop + 'static,
    G: Gate + Send + Sync + Drop + 'static,
{
    let blanks = (Blank::new(1), Blank::new(1), Blank::new(1));
    serve_over::<Brand, Brand, Brand, R, G>(rt, alloc, blanks, methods, plan, gate)
}

/// Serves the connection of a run over these ledgers.
fn serve_over<A, B, C, R, G>(
    rt: R,
    alloc: Global,
    blanks: (Blank, Blank, Blank),
    methods: Arc<Methods>,
    plan: Plan,
    gate: Arc<G>,
) -> Result<(Source, ServedConn<Sink>)>
where
    A: Ledger + Send + Sync + 'static,
    B: Ledger + Send + Sync + 'static,
    C: Ledger + Send + Sync + 'static,
    R: Threads + Wait + Clock + Copy + Send + Sync + Drop + 'static,
    G: Gate + Send + Sync + Drop + 'static,
    requires received { (blanks.0.name ≡ A.name) × (blanks.0.parts ≡ A.parts) × (0 < A.parts) }
    requires admitted { (blanks.1.name ≡ B.name) × (blanks.1.parts ≡ B.parts) × (0 < B.parts) }
    requires announced { (blanks.2.name ≡ C.name) × (blanks.2.parts ≡ C.parts) × (0 < C.parts) }
{
    let Plan {
        source,
        sink,
        pace,
        drain,
        ..
    } = plan;
    let timed = TimedRuntime { rt, pace };
    let (drainer, handle) = Drainer::<A, B, C>::new(alloc, blanks)?;
    if drain == Some(0) {
        drainer.drain(&rt);
    }
    let mut input = DrainedSource {
        rt,
        source,
        drainer,
        left: drain,
    };
    let served = serve_connection(timed, alloc, &mut input, sink, methods, gate, handle);
    Ok((input.source, served))
}

fn main(rt: HostRuntime) -> Result<()> {
    let alloc = rt.alloc();
    let mut methods: Vec<Box<dyn Method>> = Vec::new(alloc);
    methods.push(Box::new(alloc, EmptyCall)?)?;
    methods.push(Box::new(alloc, UnaryCall)?)?;
    methods.push(Box::new(alloc, CacheableUnaryCall)?)?;
    methods.push(Box::new(alloc, StreamingInputCall)?)?;
    methods.push(Box::new(alloc, StreamingOutputCall)?)?;
    methods.push(Box::new(alloc, FullDuplexCall)?)?;
    methods.push(Box::new(alloc, HalfDuplexCall)?)?;
    let methods = Arc::new(alloc, Methods::new(methods))?;
    for _ in 0..u64::MAX {
        let mut line = String::new(alloc);
        if rt.read_line(&mut line)? == 0 {
            break;
        }
        run(rt, alloc, &methods, line.as_str())?;
    }
    Ok(())
}
