//! The workers of a connection, as its reading side has them.

ghost use Rattle.std.specs.Prelude.{
  ◌≡◌,
  ◌<◌,
  ◌≤◌,
  ℕ,
  true,
  false,
  None,
  Some,
  IfSome,
  IsSome,
  OnOk,
  slice_get,
  vec_capacity,
  vec_len,
  length,
};
ghost use Rattle.rtrb.specs.Ring.{IsPair, known_free, sent};
ghost use Rattle.callparts.specs.Workers.{IsFreshWork};
ghost use Rattle.readerloop.specs.Calls.{HasAnswered};

use callparts::{Answering, DoneIn, DoneOut, FinishedJob, Job, Line, Naming, TasksIn, TasksOut};
use limits::MAX_LIVE;
use std::alloc::{AllocError, Global};
use std::sync::Arc;

/// A worker.
#[derive(Drop)]
pub struct WorkerHandle<J: Naming, M: Answering> {
    line: Arc<Line>,
    pub(crate) tasks: TasksIn<J>,
    done: DoneOut<J, M>,
    /// Whether each call that it was handed came back.
    is_free: bool,
    /// Whether it knows that no more calls come.
    is_ended: bool,
    /// Whether its bell is still to be rung.
    is_noted: bool,
    /// Until it knows, its ring has a place for that word.
    ghost place_for_end: { is_ended ≡ false → 0 < known_free tasks },
}

impl<J: Naming, M: Answering> WorkerHandle<J, M> {
    ghost use Rattle.readerloop.specs.WorkerHandles.{HasPlaces};

    /// A worker that was handed nothing yet.
    pub fn new(line: Arc<Line>, tasks: TasksIn<J>, done: DoneOut<J, M>) -> WorkerHandle<J, M>
        requires place { 0 < known_free tasks }
        ensures tasks { result.tasks ≡ tasks }
    {
        WorkerHandle {
            line,
            tasks,
            done,
            is_free: true,
            is_ended: false,
            is_noted: false,
        }
    }

    /// What wakes it.
    pub(crate) fn line(&self) -> &Arc<Line> {
        &self.line
    }

    /// Whether it is free: there is a place for a call, and then for the word that no more come.
    fn is_free(&mut self) -> bool
        ensures places { result ≡ true → HasPlaces self.new }
    {
        if !self.is_free || self.is_ended {
            return false;
        }
        self.tasks.slots() >= 2
    }

    /// Hands it a call. Its bell is still to be rung.
    pub(crate) fn hand(&mut self, job: Job<J>)
        requires places { HasPlaces self.old }
        requires fresh { IsFreshWork job.work }
    {
        self.tasks.push_reserved(Some(job));
        self.is_free = false;
        self.is_noted = true;
    }

    /// The call that it has handed back, if it has.
    fn finished(&mut self) -> Option<FinishedJob<J>>
        ensures answered { IfSome result (HasAnswered M.known) }
    {
        if self.is_free {
            return None;
        }
        let Ok(finished) = self.done.pop() else {
            return None;
        };
        self.is_free = true;
        Some(finished)
    }

    /// Sends it word that no more calls come, and rings its bell.
    fn end(&mut self) {
        self.tell_end();
        self.is_noted = true;
        self.ring_noted();
    }

    /// Sends it word that no more calls come, unless it knows.
    fn tell_end(&mut self) {
        if self.is_ended {
            return;
        }
        self.tasks.push_reserved(None);
        self.is_ended = true;
    }

    /// Rings its bell, where that is still to be.
    fn ring_noted(&mut self) {
        if self.is_noted {
            self.is_noted = false;
            self.line.bell.ring();
        }
    }

    /// It has ended, and hands back its ends of the rings: it took all that it was handed, and what
    /// it handed back is there.
    pub(crate) fn meet(&mut self, tasks: TasksOut<J>, done: DoneIn<J, M>) {
        let _tasks = tasks;
        let _done = done;
    }
}

/// All workers: at most 64, the most calls that may be live.
#[derive(Drop)]
pub struct WorkerPool<J: Naming, M: Answering> {
    pub(crate) workers: Vec<WorkerHandle<J, M>>,
}

impl<J: Naming, M: Answering> WorkerPool<J, M> {
    ghost use Rattle.readerloop.specs.WorkerHandles.{HasPlaces, HasPlacesAt};

    pub(crate) fn new(alloc: Global) -> WorkerPool<J, M> {
        WorkerPool {
            workers: Vec::new(alloc),
        }
    }

    /// How many there are.
    pub(crate) fn len(&self) -> usize
        ensures { result ≡ length self.now.workers.items }
    {
        self.workers.len()
    }

    /// Whether there are 64.
    pub(crate) fn is_full(&self) -> bool
        ensures room { result ≡ false → length self.now.workers.items < 64 }
    {
        self.workers.len() >= MAX_LIVE
    }

    /// Makes room for one worker more.
    pub(crate) fn reserve(&mut self) -> Result<(), AllocError>
        ensures room { OnOk result (vec_len self.new.workers < vec_capacity self.new.workers) }
        ensures workers { self.new.workers.items ≡ self.old.workers.items }
    {
        self.workers.reserve(1)
    }

    /// Adds a worker, for which there is room. Its number.
    pub(crate) fn add(&mut self, handle: WorkerHandle<J, M>) -> usize
        requires room { vec_len self.old.workers < vec_capacity self.old.workers }
        ensures places { HasPlaces handle → HasPlacesAt result self.new }
    {
        let number = self.workers.len();
        self.workers.push_reserved(handle);
        number
    }

    /// The number of the first worker that is free.
    pub(crate) fn free(&mut self) -> Option<usize>
        ensures places { IfSome result (λ number. HasPlacesAt number self.new) }
    {
        for number in 0..self.workers.len() {
            if self.is_free(number) {
                return Some(number);
            }
        }
        None
    }

    /// Whether the worker of this number is free.
    fn is_free(&mut self, number: usize) -> bool
        ensures places { result ≡ true → HasPlacesAt number self.new }
    {
        let Some(worker) = self.workers.get_mut(number) else {
            return false;
        };
        worker.is_free()
    }

    /// What wakes the worker of this number.
    pub(crate) fn line(&self, number: usize) -> Option<&Arc<Line>> {
        Some(self.workers.get(number)?.line())
    }

    /// Hands a call to the worker of this number, which is free. Its bell is still to be rung.
    pub(crate) fn hand(&mut self, number: usize, job: Job<J>)
        requires places { HasPlacesAt number self.old }
        requires fresh { IsFreshWork job.work }
    {
        if let Some(worker) = self.workers.get_mut(number) {
            worker.hand(job);
        }
    }

    /// The call that the worker of this number has handed back, if it has.
    pub(crate) fn finished(&mut self, number: usize) -> Option<FinishedJob<J>>
        ensures answered { IfSome result (HasAnswered M.known) }
    {
        self.workers.get_mut(number)?.finished()
    }

    /// Notes that this worker's bell is to be rung, once all that came with the present bytes is
    /// there.
    pub(crate) fn note(&mut self, number: Option<usize>) {
        if let Some(number) = number {
            if let Some(worker) = self.workers.get_mut(number) {
                worker.is_noted = true;
            }
        }
    }

    /// Rings the bells of the workers for which something came.
    pub(crate) fn ring_noted(&mut self) {
        for worker in self.workers.iter_mut() {
            worker.ring_noted();
        }
    }

    /// No more calls come.
    pub(crate) fn end(&mut self) {
        for worker in self.workers.iter_mut() {
            worker.end();
        }
    }

    /// The worker of this number has ended, and hands back its ends of the rings.
    pub(crate) fn meet(&mut self, number: usize, tasks: TasksOut<J>, done: DoneIn<J, M>) {
        if let Some(worker) = self.workers.get_mut(number) {
            worker.meet(tasks, done);
        }
    }
}
