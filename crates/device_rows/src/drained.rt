//! A connection that another thread drains at a turn of its gate.

ghost use Rattle.std.specs.Prelude.{◌≡◌, ◌<◌};

use crate::devices::Sink;
use crate::gates::{DrainGate, MOST};
use crate::plan::Plan;
use anyhow::{Context, Result};
use connection::{Drainer, Ending, ServedConn, serve_connection};
use handlers::Methods;
use std::alloc::Global;
use std::marker::Brand;
use std::sync::ledger::{Blank, Ledger};
use std::sync::{Arc, Wait};
use std::thread;
use std::thread::Threads;
use std::time::Clock;

/// Whether each call of a line's connection is answered with status 0, at whichever turn of the
/// gate it is drained, and how many turns there were.
pub fn drain_at_each_turn<R>(
    rt: R,
    alloc: Global,
    methods: &Arc<Methods>,
    line: &str,
) -> Result<(bool, u32)>
where
    R: Threads + Wait + Clock + Copy + Send + Sync + Drop + 'static,
{
    for at in 0..MOST {
        let gate = Arc::new(alloc, DrainGate::new(rt, at))?;
        let plan = Plan::read(alloc, line)?;
        let served = drain_at(rt, alloc, Arc::try_clone(methods)?, plan, &gate)?;
        if !are_answered(&served) {
            return Ok((false, at));
        }
        if !gate.has_turned() {
            return Ok((true, at));
        }
    }
    Ok((true, MOST))
}

/// Whether the connection ended with its input or by the drain, and each call that was admitted is
/// answered.
fn are_answered(served: &ServedConn<Sink>) -> bool {
    if !matches!(served.report.ending, Ending::InputEnded | Ending::Drained) {
        return false;
    }
    let calls = &served.report.calls;
    for place in 0..calls.len() {
        if let Some(call) = calls.get(place) {
            if !call.output.trailers_sent || call.status != Some(0) {
                return false;
            }
        }
    }
    true
}

/// Serves a plan's connection, which another thread drains at the gate's turn, or else after the
/// connection.
fn drain_at<R>(
    rt: R,
    alloc: Global,
    methods: Arc<Methods>,
    plan: Plan,
    gate: &Arc<DrainGate<R>>,
) -> Result<ServedConn<Sink>>
where
    R: Threads + Wait + Clock + Copy + Send + Sync + Drop + 'static,
{
    let blanks = (Blank::new(1), Blank::new(1), Blank::new(1));
    drain_over::<Brand, Brand, Brand, R>(rt, alloc, blanks, methods, plan, gate)
}

/// Serves it over these ledgers.
fn drain_over<A, B, C, R>(
    rt: R,
    alloc: Global,
    blanks: (Blank, Blank, Blank),
    methods: Arc<Methods>,
    plan: Plan,
    gate: &Arc<DrainGate<R>>,
) -> Result<ServedConn<Sink>>
where
    A: Ledger + Send + Sync + 'static,
    B: Ledger + Send + Sync + 'static,
    C: Ledger + Send + Sync + 'static,
    R: Threads + Wait + Clock + Copy + Send + Sync + Drop + 'static,
    requires received { (blanks.0.name ≡ A.name) × (blanks.0.parts ≡ A.parts) × (0 < A.parts) }
    requires admitted { (blanks.1.name ≡ B.name) × (blanks.1.parts ≡ B.parts) × (0 < B.parts) }
    requires announced { (blanks.2.name ≡ C.name) × (blanks.2.parts ≡ C.parts) × (0 < C.parts) }
{
    let Plan {
        mut source,
        sink,
        ..
    } = plan;
    let (drainer, handle) = Drainer::<A, B, C>::new(alloc, blanks)?;
    let (theirs, ours) = (Arc::try_clone(gate)?, Arc::try_clone(gate)?);
    let draining = thread::spawn(&rt, move || {
        theirs.wait_for_wish();
        drainer.drain(&rt);
        theirs.tell_drained();
    });
    let draining = draining.ok().context("no thread")?;
    let served = serve_connection(rt, alloc, &mut source, sink, methods, ours, handle);
    gate.want();
    draining.join(&rt);
    Ok(served)
}
