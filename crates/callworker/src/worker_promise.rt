//! A worker in a thread of its own, and what it promises.

ghost use Rattle.std.specs.Prelude.{◌≡◌, IfSome};
ghost use Rattle.handlers.specs.Listed.{listed};
ghost use Rattle.lane.specs.RingEnds.{consumer_name, producer_name};
ghost use Rattle.rtrb.specs.Ring.{received, sent};
ghost use Rattle.callparts.specs.Workers.{IsKnown};
ghost use Rattle.callworker.specs.Works.{HasHandedBack, IsUnused};

use crate::gate::Gate;
use crate::ways::Ways;
use crate::worker::Worker;
use callparts::{Answering, Naming};
use handlers::Methods;
use std::snapshot::Snapshot;
use std::sync::ledger::Ledger;
use std::sync::{Arc, Wait};
use std::thread::{Builder, Promise, PromisedHandle, Threads};
use std::time::Clock;

/// How large the stacks of a connection's threads are, in bytes. They need less than 20,000: no
/// function calls itself. Stacks of the usual size, 8 MiB, take address space, and longer to make.
pub const STACK: usize = 262_144;

/// What a worker was given. It promises to hand back the ends of these rings, and that it has
/// handed back each call that it took, in order.
#[derive(Drop)]
pub struct WorkerPromise<J: Naming, M: Answering> {
    pub ways: Snapshot<Ways<J, M>>,
}

impl<J: Naming, M: Answering> Promise<Ways<J, M>> for WorkerPromise<J, M> {
    ghost kept_by = { λ hired ways.
        (consumer_name ways.tasks ≡ consumer_name hired.ways.value.tasks)
        × (producer_name ways.done ≡ producer_name hired.ways.value.done)
        × HasHandedBack (λ job. job.number.value) (λ finished. finished.number.value)
        (received ways.tasks) (sent ways.done) };
}

/// The thread of a worker.
pub type WorkerThread<J, M> = PromisedHandle<Ways<J, M>, WorkerPromise<J, M>>;

/// Starts a worker. None where no thread can be made: then the ends are dropped.
pub fn hire<A, B, C, G, J, M, R>(
    rt: R,
    worker: Worker<A, B, C, G>,
    methods: Arc<Methods>,
    ways: Ways<J, M>,
) -> Option<WorkerThread<J, M>>
where
    A: Ledger + Send + Sync + 'static,
    B: Ledger + Send + Sync + 'static,
    C: Ledger + Send + Sync + 'static,
    G: Gate + Send + Sync + Drop + 'static,
    J: Naming + Send + Sync + 'static,
    M: Answering + Send + Sync + 'static,
    R: Threads + Wait + Clock + Copy + Send + Sync + Drop + 'static,
    requires known { IsKnown M.known (λ m. answers (m.vtable, m.value)) (listed methods.value) }
    requires unused { IsUnused (received ways.tasks) (sent ways.done) }
    ensures ways { IfSome result (λ handle. handle.promise.ways.value ≡ ways) }
{
    let hired: WorkerPromise<J, M> = WorkerPromise {
        ways: Snapshot::of(&ways),
    };
    let work = move || -> Ways<J, M>
        requires known { IsKnown M.known (λ m. answers (m.vtable, m.value)) (listed methods.value) }
        requires unused { IsUnused (received ways.tasks) (sent ways.done) }
        ensures tasks { consumer_name result.tasks ≡ consumer_name ways.tasks }
        ensures done { producer_name result.done ≡ producer_name ways.done }
        ensures handed_back { HasHandedBack (λ job. job.number.value)
            (λ finished. finished.number.value) (received result.tasks) (sent result.done) }
    { worker.work::<J, M, R>(&rt, &methods, ways) };
    match Builder::new()
        .stack_size(STACK)
        .spawn_with(&rt, hired, work)
    {
        Ok(handle) => Some(handle),
        Err(_refused) => None,
    }
}
