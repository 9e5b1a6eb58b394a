//! Rows of what a connection's writer does, each act against what its peer has to read.
//!
//! `rows` runs a file; `acts` has the words of an act and what it does to the writer's core;
//! `calls` the calls that it opens; `peer` reads frames and writes them as text.

mod acts;
mod calls;
mod peer;
mod rows;

pub use rows::run_file;

pub const FILES: [&str; 2] = ["runs.rows", "turns.rows"];
