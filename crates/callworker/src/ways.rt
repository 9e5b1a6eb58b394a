//! The rings through which a worker gets its calls and hands them back.

use callparts::{Answering, DoneIn, Naming, TasksOut};

/// A worker's ends of the ring of tasks and of the ring of finished calls.
#[derive(Drop)]
pub struct Ways<J: Naming, M: Answering> {
    pub tasks: TasksOut<J>,
    pub done: DoneIn<J, M>,
}
