//! Connections in one thread, over what the server's threads run: `readerloop` decides what the
//! reader does, `writerloop` what the writer does, and each worker answers its calls by `callrun`,
//! or by the whole of `callworker`. Each step of the reader, of the workers and of the writer comes
//! in an order that a row gives, or that follows from a number. `data/README.md` says how rows are
//! written.
//!
//! Read `serial`, what a connection has; `reader`, `worker` and `writer`, its steps; `pipe`, the
//! device that it writes to; `runs`, the orders; `told`, what a peer reads of what was written;
//! `digits`, `words` and `subject`, the rows.
#![tactic(auto)]

use anyhow::{Result, ensure};
use handlers::{
    CacheableUnaryCall, EmptyCall, FullDuplexCall, HalfDuplexCall, Method, Methods,
    StreamingInputCall, StreamingOutputCall, UnaryCall,
};
use rows::try_file;

mod digits;
mod pipe;
mod reader;
mod runs;
mod serial;
mod subject;
mod told;
mod words;
mod worker;
mod writer;

fn main(rt: HostRuntime) -> Result<()> {
    let alloc = rt.alloc();
    let mut methods: Vec<Box<dyn Method>> = Vec::new(alloc);
    methods.push(Box::new(alloc, EmptyCall)?)?;
    methods.push(Box::new(alloc, UnaryCall)?)?;
    methods.push(Box::new(alloc, CacheableUnaryCall)?)?;
    methods.push(Box::new(alloc, StreamingInputCall)?)?;
    methods.push(Box::new(alloc, StreamingOutputCall)?)?;
    methods.push(Box::new(alloc, FullDuplexCall)?)?;
    methods.push(Box::new(alloc, HalfDuplexCall)?)?;
    let methods = Methods::new(methods);
    let mut connections = subject::Connections {
        rt: &rt,
        methods: &methods,
    };
    let differing = try_file(&rt, "connections.rows", &mut connections)?;
    ensure!(differing == 0, "{differing} rows differ");
    Ok(())
}
