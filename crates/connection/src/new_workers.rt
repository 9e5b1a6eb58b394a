//! New workers.

ghost use Rattle.std.specs.Prelude.{◌≡◌};
ghost use Rattle.handlers.specs.Listed.{listed};
ghost use Rattle.callparts.specs.Workers.{IsWithin};
ghost use Rattle.connection.specs.Methods.{answers_of};

use callparts::{Answering, EachAnswered, EachFresh, Line, Naming, PLACES};
use callworker::{Gate, SharedConn, Ways, Worker, WorkerThread, hire};
use handlers::{Method, Methods};
use readerloop::WorkerHandle;
use rtrb::RingBuffer;
use std::alloc::{AllocError, Global};
use std::sync::ledger::Ledger;
use std::sync::{Arc, Wait};
use std::thread::Threads;
use std::time::{Clock, Instant};

/// Starts a worker in a thread of its own. If no thread can be made, it answers want of memory.
pub(crate) fn open_worker<A, B, C, G, J, M, R>(
    rt: R,
    alloc: Global,
    shared: &Arc<SharedConn<A, B, C>>,
    gate: &Arc<G>,
    methods: &Arc<Methods>,
    start: Option<Instant>,
) -> Result<(WorkerHandle<J, M>, WorkerThread<J, M>), AllocError>
where
    A: Ledger + Send + Sync + 'static,
    B: Ledger + Send + Sync + 'static,
    C: Ledger + Send + Sync + 'static,
    G: Gate + Send + Sync + Drop + 'static,
    J: Naming + Send + Sync + 'static,
    M: Answering + Send + Sync + 'static,
    R: Threads + Wait + Clock + Copy + Send + Sync + Drop + 'static,
    requires known { IsWithin M.known
        (answers_of ⟦<dyn Method as Method>⟧ (listed methods.now.value)) }
{
    let line = Arc::new(alloc, Line::new())?;
    let worker = Worker {
        alloc,
        line: Arc::try_clone(&line)?,
        shared: Arc::try_clone(shared)?,
        gate: Arc::try_clone(gate)?,
        start,
    };
    let methods = Arc::try_clone(methods)?;
    let (tasks, taking) = RingBuffer::with_protocol::<Global, EachFresh>(alloc, PLACES)?;
    let (giving, done) = RingBuffer::with_protocol::<Global, EachAnswered<M>>(alloc, PLACES)?;
    let ways = Ways {
        tasks: taking,
        done: giving,
    };
    let Some(thread) = hire(rt, worker, methods, ways) else {
        return Err(AllocError);
    };
    Ok((WorkerHandle::new(line, tasks, done), thread))
}
