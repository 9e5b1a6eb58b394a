//! Methods that two threads share.

use anyhow::Result;
use handlers::uses::by_index::run_one;
use handlers::{EmptyCall, Method, Methods, Replies, UnaryCall};
use std::alloc::Global;
use std::sync::Arc;
use std::thread;
use std::thread::Threads;

/// How many calls each thread makes.
const CALLS: u32 = 200;

/// Whether the method with this path answers a call of this message by one reply of these bytes.
fn is_answered(
    alloc: Global,
    methods: &Methods,
    path: &str,
    message: &[u8],
    wanted: &[u8],
) -> bool {
    let Some(index) = methods.find(path.as_bytes()) else {
        return false;
    };
    let Ok(step) = run_one(alloc, methods, index, message) else {
        return false;
    };
    is_one(alloc, step.replies, wanted)
}

/// Whether there is one reply, of these bytes.
fn is_one(alloc: Global, mut replies: Replies, wanted: &[u8]) -> bool {
    let Some(reply) = replies.first() else {
        return false;
    };
    replies.pass();
    let is_same = match reply.bytes(alloc) {
        Ok(bytes) => bytes.as_slice() == wanted,
        Err(_) => false,
    };
    is_same && replies.is_empty()
}

/// Calls both methods a few times.
fn call_both(alloc: Global, methods: &Methods) -> bool {
    for _ in 0..CALLS {
        let empty = is_answered(
            alloc,
            methods,
            "/grpc.testing.TestService/EmptyCall",
            &[],
            &[],
        );
        let zeros = is_answered(
            alloc,
            methods,
            "/grpc.testing.TestService/UnaryCall",
            &[0x10, 2],
            &[0x0a, 4, 0x12, 2, 0, 0],
        );
        if !empty || !zeros {
            return false;
        }
    }
    true
}

/// Two threads that hold the methods, of which one holds them longer than the other.
pub fn are_shared<R: Threads>(rt: &R, alloc: Global) -> Result<bool> {
    let mut methods: Vec<Box<dyn Method>> = Vec::new(alloc);
    methods.push(Box::new(alloc, EmptyCall)?)?;
    methods.push(Box::new(alloc, UnaryCall)?)?;
    let ours = Arc::new(alloc, Methods::new(methods))?;
    let theirs = Arc::try_clone(&ours)?;
    let child = thread::spawn(rt, move || call_both(alloc, &theirs))?;
    let here = call_both(alloc, &ours);
    let there = child.join(rt);
    Ok(here && there)
}
