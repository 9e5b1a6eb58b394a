//! The two rings by which a worker gets its calls and hands them back, and what is known of each
//! item that goes through them.

use crate::answering::Answering;
use crate::job::{FinishedJob, Task};
use crate::register::Naming;
use rtrb::{Consumer, Producer, Protocol, RingBuffer};
use std::alloc::{AllocError, Global};
use std::marker::PhantomData;

/// Each call that is to be answered is fresh: its ends are unused.
pub struct EachFresh;

impl<J: Naming> Protocol<Task<J>> for EachFresh {
    ghost use Rattle.std.specs.Prelude.{IfSome};
    ghost use Rattle.callparts.specs.Workers.{IsFreshWork};

    ghost allows = { λ _ next. IfSome next (λ job. IsFreshWork job.work) };
}

/// Each call that comes back was answered as its request asks.
pub struct EachAnswered<M: Answering> {
    known: PhantomData<M>,
}

impl<J: Naming, M: Answering> Protocol<FinishedJob<J>> for EachAnswered<M> {
    ghost use Rattle.lane.specs.RingLane.{got, put_shut};
    ghost use Rattle.callparts.specs.Workers.{AnswersAt};

    ghost allows = { λ _ next. AnswersAt M.known next.number.seen.log next.number.value
        (got next.taker.rx) next.taker.progress (put_shut next.given.shut) next.status };
}

/// The putting end of a ring of tasks.
pub type TasksIn<J> = Producer<Task<J>, Global, EachFresh>;

/// The taking end of a ring of tasks.
pub type TasksOut<J> = Consumer<Task<J>, Global, EachFresh>;

/// The putting end of a ring of finished calls.
pub type DoneIn<J, M> = Producer<FinishedJob<J>, Global, EachAnswered<M>>;

/// The taking end of a ring of finished calls.
pub type DoneOut<J, M> = Consumer<FinishedJob<J>, Global, EachAnswered<M>>;

/// How many places the rings of a worker have. It gets a call only once the call before was taken
/// back, and at last the word that no more come.
pub const PLACES: usize = 2;
