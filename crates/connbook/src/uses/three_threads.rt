//! A reader, a worker and a writer over one lock.
//!
//! It states what the shares and the book say together, once the three have met again. The reader
//! admits a call and counts the pieces of DATA that come on it, the worker returns them, and the
//! writer announces a number of times and then stops.

ghost use Rattle.std.specs.Prelude.{◌≡◌, ℕ, ◌+◌, ◌*◌, ◌^◌, ◌<◌, ◌≤◌, sum, length};

use crate::conn_book::{ConnBook, OpenedBook};
use crate::keys::{BookKey, CallKey};
use h2frame::StreamId;
use std::alloc::Global;
use std::marker::Brand;
use std::sync::ledger::{Blank, Ledger, Share};
use std::sync::{Mutex, Wait};
use std::thread;
use std::thread::Threads;

/// The one call.
const CALL: StreamId = 1;

/// Admits the call, and counts the pieces that come on it.
#[tactic(auto, using(crate::proofs::StepLemmas::counted_within))]
fn read<A: Ledger, B: Ledger, C: Ledger, R: Wait>(
    rt: &R,
    book: &Mutex<ConnBook<A, B, C>>,
    came: Share<A>,
    calls: Share<B>,
    pieces: &[u32],
) -> (Share<A>, Share<B>)
    requires came { (came.parts ≡ A.parts) × (0 < came.parts) }
    requires calls { (calls.parts ≡ B.parts) × (0 < calls.parts) }
    ensures came { (result.0.parts ≡ came.parts)
        × (result.0.amount ≤ came.amount + sum pieces.now) }
    ensures calls { result.1.parts ≡ calls.parts }
{
    let mut came = came;
    let mut calls = calls;
    let _ = book.lock(rt).admit(CALL, &mut calls);
    for piece in pieces {
        let _ = book.lock(rt).receive(CALL, *piece, 0, &mut came);
    }
    (came, calls)
}

/// Returns the pieces, as far as they have come.
fn work<A: Ledger, B: Ledger, C: Ledger, R: Wait>(
    rt: &R,
    book: &Mutex<ConnBook<A, B, C>>,
    call: &CallKey,
    pieces: &[u32],
) {
    for piece in pieces {
        let _ = book.lock(rt).return_credit(call, *piece);
    }
}

/// Announces `times` times, and stops. Answers how many bytes were announced on the connection.
fn write<A: Ledger, B: Ledger, C: Ledger, R: Wait>(
    rt: &R,
    book: &Mutex<ConnBook<A, B, C>>,
    key: &BookKey,
    told: Share<C>,
    times: u32,
) -> (Share<C>, u64)
    requires some { 0 < told.parts }
    requires none { told.amount ≡ 0 }
    ensures parts { result.0.parts ≡ told.parts }
    ensures amount { result.0.amount ≡ result.1 }
{
    let mut told = told;
    let mut credit = 0;
    for _i in 0..times {
        if let Some(due) = book.lock(rt).take_due_credit(0, &mut told) {
            credit += u64::from(due.increment());
        }
    }
    let _stopped = book.lock(rt).stop(key);
    (told, credit)
}

/// Runs the three over ledgers of their own.
fn run_over<
    A: Ledger + Send + Sync,
    B: Ledger + Send + Sync,
    C: Ledger + Send + Sync,
    R: Threads + Wait + Sync,
>(rt: &R, alloc: Global, blanks: (Blank, Blank, Blank), pieces: &[u32], times: u32) -> u64
    requires received { (blanks.0.name ≡ A.name) × (blanks.0.parts ≡ A.parts) × (0 < A.parts) }
    requires admitted { (blanks.1.name ≡ B.name) × (blanks.1.parts ≡ B.parts) × (0 < B.parts) }
    requires announced { (blanks.2.name ≡ C.name) × (blanks.2.parts ≡ C.parts) × (0 < C.parts) }
    ensures { result ≤ sum pieces.now }
{
    let (received, came) = blanks.0.open::<A>();
    let (admitted, calls) = blanks.1.open::<B>();
    let (announced, told) = blanks.2.open::<C>();
    let OpenedBook {
        book,
        reader_key,
        writer_key,
        ..
    } = ConnBook::new(alloc, received, admitted, announced);
    let book = Mutex::new(book);
    let (shared, call, key) = (&book, &reader_key.of_call(CALL), &writer_key);
    let (read_all, written) = thread::join(
        rt,
        || -> (Share<A>, Share<B>)
            requires came { (came.parts ≡ A.parts) × (0 < came.parts) }
            requires calls { (calls.parts ≡ B.parts) × (0 < calls.parts) }
            ensures came { (result.0.parts ≡ came.parts)
                × (result.0.amount ≤ came.amount + sum pieces.entry.now) }
            ensures calls { result.1.parts ≡ calls.parts }
        { read(rt, shared, came, calls, pieces) },
        || -> (Share<C>, u64)
            requires some { 0 < told.parts }
            requires none { told.amount ≡ 0 }
            ensures parts { result.0.parts ≡ told.parts }
            ensures amount { result.0.amount ≡ result.1 }
        { work_and_write(rt, shared, call, key, told, pieces, times) },
    );
    let (mut came, mut calls) = read_all;
    let (mut told, credit) = written;
    book.lock(rt).audit(&mut came, &mut calls, &mut told);
    credit
}

/// Runs the worker, and the writer in a thread beside it.
fn work_and_write<
    A: Ledger + Send + Sync,
    B: Ledger + Send + Sync,
    C: Ledger + Send + Sync,
    R: Threads + Wait + Sync,
>(
    rt: &R,
    book: &Mutex<ConnBook<A, B, C>>,
    call: &CallKey,
    key: &BookKey,
    told: Share<C>,
    pieces: &[u32],
    times: u32,
) -> (Share<C>, u64)
    requires some { 0 < told.parts }
    requires none { told.amount ≡ 0 }
    ensures parts { result.0.parts ≡ told.parts }
    ensures amount { result.0.amount ≡ result.1 }
{
    let ((), written) = thread::join(
        rt,
        || work(rt, book, call, pieces),
        || -> (Share<C>, u64)
            requires some { 0 < told.parts }
            requires none { told.amount ≡ 0 }
            ensures parts { result.0.parts ≡ told.parts }
            ensures amount { result.0.amount ≡ result.1 }
        { write(rt, book, key, told, times) },
    );
    written
}

/// Runs a reader of these pieces, a worker and a writer over one book, and answers how many bytes
/// the writer announced on the connection: no more than came.
pub fn run<R: Threads + Wait + Sync>(rt: &R, alloc: Global, pieces: &[u32], times: u32) -> u64
    ensures credit { result ≤ sum pieces.now }
{
    let blanks = (Blank::new(1), Blank::new(1), Blank::new(1));
    run_over::<Brand, Brand, Brand, R>(rt, alloc, blanks, pieces, times)
}
