//! The credit book that the threads of a connection share, under one lock.
//!
//! The reader of a connection counts what comes and admits calls. Each call's worker gives bytes
//! back. The writer announces them to the peer, and stops the book when it can write no more.
//! `ConnBook` is the value under their lock: the `Book` of `creditbook`, whether the writer has
//! stopped, and three ledgers. Whichever thread adds to one of the book's numbers holds the share
//! of its ledger: the reader those of the bytes that came and of the calls that were admitted, the
//! writer that of the bytes that were announced. So when they meet again, each share is what the
//! book has.
//!
//! - `answers`: what the book answers, `Receipt` and `AdmitFault`; `words`: what it said, as values
//!   that nobody else makes; `keys`: who may end a call.
//! - `steps`: the steps on the credit book alone.
//! - `conn_book`: the value under the lock.
//! - `uses::three_threads`: a reader, a worker and a writer over one lock.
#![tactic(auto)]

mod answers;
mod conn_book;
mod keys;
mod steps;
pub mod uses;
mod words;

pub use answers::{AdmitFault, Receipt};
pub use conn_book::{ConnBook, OpenedBook};
pub use keys::{BookKey, CallKey, DrainKey};
pub use words::{
    ClosedBook, CountedData, DrainedBook, DueCredit, LastAdmitted, NotLive, RefusedCall,
    StoppedBook,
};
