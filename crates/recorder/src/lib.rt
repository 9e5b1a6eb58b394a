//! Writes traces, captures and recordings while connections go on.
//!
//! A `Recorder` has the places, which all connections share. An `Eye` looks at one connection, as
//! the `Tap` of its devices. If two threads read and write the connection, each has an `Eye` of it.
//! What is known of a connection is under a lock, so that what is written of it has one order. The
//! connection's end is written when the last of its eyes is dropped.
//!
//! A recorder that can't write says so on standard error, once, and writes no more: the connections
//! go on. They also go on if no one reads the lines on standard error: these wait for a thread of
//! their own, and too many are left out.
//!
//! Read `notes` for what is made of what passes, without threads or files; `outputs`, `backlog`,
//! `transcript` and `places` for where it is written; `eye` for connections, `watched_net` for a
//! network all of whose connections are looked at; `start` and `ends` for times and addresses.
#![tactic(auto)]

mod backlog;
mod ends;
mod eye;
mod fault;
mod notes;
mod outputs;
mod places;
mod start;
mod transcript;
mod watched_net;

pub use eye::{Eye, Line, Sight, look_and_record, look_at_server};
pub use fault::RecorderFault;
pub use places::Recorder;
pub use watched_net::{WatchedListener, WatchedNet};
