//! Serves one connection with its threads. Bytes come in, calls are answered, bytes go out.
//!
//! `serve_connection` reads in its caller's thread. One more thread writes, and each worker answers
//! one call after another. The threads share one lock, which holds the connection's credit book,
//! and rings and bells from one thread to another. Each call has lanes of its own.
//!
//! | Ring | from | to | of |
//! |---|---|---|---|
//! | orders | reader | writer | what the writer is to do; a call that begins, with its sender |
//! | home | writer | reader | the senders of calls that are through |
//! | tasks, one a worker | reader | worker | a call, with its taker and its giver |
//! | done, one a worker | worker | reader | the same of a call that is over |
//!
//! Machines without threads decide what becomes of a stream: `readerloop` for the side that reads,
//! `callrun` for a call, `writerloop` for the side that writes. `callworker` runs calls in threads
//! of workers, and waits there; it has the lock and the bells, too. This crate runs the two sides,
//! hires the workers, and joins all threads.
//!
//! - `drain`: how a server ends a connection while its calls go on.
//! - `intake`: the reader's hold on the credit book, `outlet` the writer's.
//! - `new_workers`: new workers. `orders`: the reader's end of the ring of orders.
//! - `reader`: the reading thread, with `reader::streams` for streams that begin and `reader::end`
//!   for calls that come back and for the end; `writer`: the writing thread.
//! - `served_conn`: the report of a connection; `serve`: one connection from its first byte to its
//!   last.
//! - `laws`, `credit`, `sent`: laws that follow from the report.
#![tactic(auto)]

pub mod credit;
mod drain;
mod intake;
pub mod laws;
mod new_workers;
mod orders;
mod outlet;
mod reader;
pub mod sent;
mod serve;
mod served_conn;
mod writer;

pub use callparts::{Accounts, CallAccount, ConnReport, Ending, Traffic};
pub use callworker::{Gate, OpenGate, STACK};
pub use drain::{DrainHandle, Drainer};
pub use serve::{serve_connection, serve_undrained};
pub use served_conn::ServedConn;
