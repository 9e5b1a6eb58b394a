//! One worker thread of a connection, which answers one call after another.
//!
//! - `worker`: the loops from call to call and from turn to turn of a call, which wait.
//! - `pace`: how long a call waits, and when the writer is rung for it.
//! - `ways`: how a worker is handed its calls, and hands them back; `worker_promise`: a worker in a
//!   thread of its own, and its promise.
//! - `jobs`: where a worker waits for its next call.
//! - `shared_conn`: the connection's lock and bells; `gate`: when a call may go on.
//!
//! `callrun` decides what a call is answered, a turn at a time, without waiting.
#![tactic(auto)]

pub mod gate;
pub mod jobs;
mod pace;
pub mod shared_conn;
pub mod ways;
pub mod worker;
pub mod worker_promise;

pub use gate::{Gate, OpenGate};
pub use jobs::next_job;
pub use shared_conn::SharedConn;
pub use ways::Ways;
pub use worker::{Worker, moment};
pub use worker_promise::{STACK, WorkerPromise, WorkerThread, hire};
