//! What the threads of a connection share.

use connbook::ConnBook;
use lane::Bell;
use std::alloc::{AllocError, Global};
use std::sync::atomic::{AtomicBool, Ordering};
use std::sync::ledger::Ledger;
use std::sync::{Arc, Mutex};

/// The lock of a connection, and the bells at which its threads wait.
#[derive(Drop)]
pub struct SharedConn<A: Ledger, B: Ledger, C: Ledger> {
    /// The credit of the connection and of its calls, and which calls are live.
    pub book: Mutex<ConnBook<A, B, C>>,
    /// Rung after each change that the writer is to look at.
    pub writer: Bell,
    /// Rung for what the reader may wait for: room, or a worker.
    pub reader: Bell,
    /// Whether the writer writes nothing more.
    stopped: AtomicBool,
}

impl<A: Ledger, B: Ledger, C: Ledger> SharedConn<A, B, C> {
    /// What the threads of a connection with this book share.
    pub fn new(
        alloc: Global,
        book: ConnBook<A, B, C>,
    ) -> Result<Arc<SharedConn<A, B, C>>, AllocError> {
        Ok(Arc::new(
            alloc,
            SharedConn {
                book: Mutex::new(book),
                writer: Bell::new(),
                reader: Bell::new(),
                stopped: AtomicBool::new(false),
            },
        )?)
    }

    /// Whether the writer writes nothing more.
    pub fn has_stopped(&self) -> bool {
        self.stopped.load(Ordering::SeqCst)
    }

    /// The writer writes nothing more.
    pub fn stop(&self) {
        self.stopped.store(true, Ordering::SeqCst);
    }
}
