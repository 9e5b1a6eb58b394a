//! How a worker is woken.

use lane::Bell;
use std::sync::atomic::{AtomicBool, Ordering};

/// The bell of a worker. No proof rests on it: a worker that was woken looks by itself what there
/// is.
#[derive(Drop)]
pub struct Line {
    /// Rung when a call comes, when something comes for the worker's call, or when there is room
    /// for what the call gives.
    pub bell: Bell,
    /// Whether the worker waits for room for what its call gives.
    wants_room: AtomicBool,
}

impl Line {
    pub fn new() -> Line {
        Line {
            bell: Bell::new(),
            wants_room: AtomicBool::new(false),
        }
    }

    /// The worker found no room for what it gives. It is to look once more before it sleeps. Room
    /// that the writer made before it saw this flag is there then, since both exchange the flag.
    /// For room that it makes later the writer rings.
    pub fn want_room(&self) {
        self.wants_room.swap(true, Ordering::SeqCst);
    }

    /// Rings the bell, where the worker waits for room.
    pub fn ring_for_room(&self) {
        if self.wants_room.swap(false, Ordering::SeqCst) {
            self.bell.ring();
        }
    }
}
