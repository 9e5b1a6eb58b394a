//! One connection from its first byte to its last.

ghost use mathlib.Core.List.{IsPrefix};
ghost use Rattle.std.specs.Prelude.{
  ◌≡◌,
  ◌<◌,
  ◌≤◌,
  ◌++◌,
  ℕ,
  Bool,
  List,
  [],
  Option,
  None,
  Some,
  IfErr,
  IfOk,
  false,
  length,
  true,
};
ghost use Rattle.std.specs.Io.KnownBytes.{Consumes};
ghost use Rattle.callparts.specs.Blocks.{items_of};
ghost use Rattle.callparts.specs.declared.report.Ending.TheVariants as ending;
ghost use Rattle.handlers.specs.Listed.{listed};
ghost use Rattle.lane.specs.Ring.{in_name, out_name, taken};
ghost use Rattle.readerloop.specs.Calls.{SentItems};
ghost use Rattle.connection.specs.Begins.{AreNew, IsUnused};
ghost use Rattle.connection.specs.Endings.{EndsAs, HasMet, ended_by, unless_lacked};
ghost use Rattle.connection.specs.Heard.{AreCarried, Hears};
ghost use Rattle.connection.specs.Methods.{AreKnownBy, answers_of, paths_of};
ghost use Rattle.connection.specs.Puts.{put_of};
ghost use Rattle.connection.specs.Readers.{HasBegun, HasReadOut, HasTakenBack};
ghost use Rattle.connection.specs.Served.{IsServed};

use crate::drain::{DrainHandle, Drainer};
use crate::intake::Intake;
use crate::orders::{ORDERS, Orders, Route};
use crate::outlet::Outlet;
use crate::reader::Reader;
use crate::served_conn::ServedConn;
use crate::writer;
use crate::writer::{WriterHand, WriterParts};
use callparts::{
    Accounts, Answering, ConnReport, Ending, HOME, Naming, NewRegister, Order, ReturningCall,
};
use callworker::{Gate, SharedConn};
use device::{ConnRead, ConnWrite};
use handlers::{Method, Methods};
use lane::{Ring, RingIn, RingOut};
use std::alloc::{AllocError, Global};
use std::marker::Brand;
use std::sync::ledger::{Blank, Ledger};
use std::sync::{Arc, Wait};
use std::thread;
use std::thread::Threads;
use std::time::{Clock, Duration, Instant};
use writerloop::{WriterEnding, WriterResult};

/// Serves one connection, and answers what became of it. The caller's thread reads, one more thread
/// writes, and up to 64 answer calls. It returns once the input has ended, or the connection ended
/// with an error or was drained, and all that could be written was.
///
/// These methods answer the calls, which go on when this gate lets them. The function waits for a
/// peer that neither reads nor closes. The drainer of the handle ends the connection while calls go
/// on.
pub fn serve_connection<A, B, C, I, O, G, R>(
    rt: R,
    alloc: Global,
    input: &mut I,
    output: O,
    methods: Arc<Methods>,
    gate: Arc<G>,
    handle: DrainHandle<A, B, C>,
) -> ServedConn<O>
where
    A: Ledger + Send + Sync + 'static,
    B: Ledger + Send + Sync + 'static,
    C: Ledger + Send + Sync + 'static,
    I: ConnRead,
    O: ConnWrite + Send + Drop + 'static,
    G: Gate + Send + Sync + Drop + 'static,
    R: Threads + Wait + Clock + Copy + Send + Sync + Drop + 'static,
    requires handle { IsUnused A.parts B.parts C.parts handle }
    // Over one list of what was heard, one of what was ordered, and one run of the writer.
    ensures served { (came : List ℕ) × Consumes (I.remaining input.old) (I.remaining input.new) came
        × IsServed (λ calls. items_of calls.full calls.last) O.contents O.failed
        (answers_of ⟦<dyn Method as Method>⟧ (listed methods.value))
        (paths_of ⟦<dyn Method as Method>⟧ (listed methods.value))
        came (I.remaining input.new) (O.contents output) (I.failed input.new)
        result.report.ending result.report.calls result.output }
{
    let register = NewRegister::new();
    serve_named::<A, B, C, Brand, Brand, I, O, G, R>(
        rt, alloc, handle, register, input, output, methods, gate,
    )
}

/// Serves a connection that nobody drains.
pub fn serve_undrained<I, O, G, R>(
    rt: R,
    alloc: Global,
    input: &mut I,
    output: O,
    methods: Arc<Methods>,
    gate: Arc<G>,
) -> ServedConn<O>
where
    I: ConnRead,
    O: ConnWrite + Send + Drop + 'static,
    G: Gate + Send + Sync + Drop + 'static,
    R: Threads + Wait + Clock + Copy + Send + Sync + Drop + 'static,
    ensures served { (came : List ℕ) × Consumes (I.remaining input.old) (I.remaining input.new) came
        × IsServed (λ calls. items_of calls.full calls.last) O.contents O.failed
        (answers_of ⟦<dyn Method as Method>⟧ (listed methods.value))
        (paths_of ⟦<dyn Method as Method>⟧ (listed methods.value))
        came (I.remaining input.new) (O.contents output) (I.failed input.new)
        result.report.ending result.report.calls result.output }
{
    let blanks = (Blank::new(1), Blank::new(1), Blank::new(1));
    serve_ledgers::<Brand, Brand, Brand, I, O, G, R>(
        rt, alloc, blanks, input, output, methods, gate,
    )
}

/// Serves a connection over these ledgers, which have counted nothing.
fn serve_ledgers<A, B, C, I, O, G, R>(
    rt: R,
    alloc: Global,
    blanks: (Blank, Blank, Blank),
    input: &mut I,
    output: O,
    methods: Arc<Methods>,
    gate: Arc<G>,
) -> ServedConn<O>
where
    A: Ledger + Send + Sync + 'static,
    B: Ledger + Send + Sync + 'static,
    C: Ledger + Send + Sync + 'static,
    I: ConnRead,
    O: ConnWrite + Send + Drop + 'static,
    G: Gate + Send + Sync + Drop + 'static,
    R: Threads + Wait + Clock + Copy + Send + Sync + Drop + 'static,
    requires received { (blanks.0.name ≡ A.name) × (blanks.0.parts ≡ A.parts) × (0 < A.parts) }
    requires admitted { (blanks.1.name ≡ B.name) × (blanks.1.parts ≡ B.parts) × (0 < B.parts) }
    requires announced { (blanks.2.name ≡ C.name) × (blanks.2.parts ≡ C.parts) × (0 < C.parts) }
    ensures served { (came : List ℕ) × Consumes (I.remaining input.old) (I.remaining input.new) came
        × IsServed (λ calls. items_of calls.full calls.last) O.contents O.failed
        (answers_of ⟦<dyn Method as Method>⟧ (listed methods.value))
        (paths_of ⟦<dyn Method as Method>⟧ (listed methods.value))
        came (I.remaining input.new) (O.contents output) (I.failed input.new)
        result.report.ending result.report.calls result.output }
{
    let Ok((_drainer, handle)) = Drainer::<A, B, C>::new(alloc, blanks) else {
        return unserved(alloc, output);
    };
    serve_connection(rt, alloc, input, output, methods, gate, handle)
}

/// Out of memory before the connection began.
fn unserved<O: Drop>(alloc: Global, output: O) -> ServedConn<O>
    ensures ending { result.report.ending ≡ ending.OutOfMemory }
    ensures output { result.output ≡ output }
    ensures calls { items_of result.report.calls.full result.report.calls.last ≡ [] }
{
    ServedConn {
        report: ConnReport {
            calls: Accounts::new(alloc),
            ending: Ending::OutOfMemory,
        },
        output,
    }
}

/// The rings between a connection's reader and its writer.
#[derive(Drop)]
struct Rings<J: Naming> {
    /// The reader's orders to the writer.
    orders: (RingIn<Order<J>>, RingOut<Order<J>>),
    /// The senders that go back.
    senders: (RingIn<ReturningCall<J>>, RingOut<ReturningCall<J>>),
}

impl<J: Naming> Rings<J> {
    fn open(alloc: Global) -> Result<Rings<J>, AllocError>
        ensures fresh { IfOk result (λ rings. AreNew rings) }
    {
        Ok(Rings {
            orders: Ring::open(alloc, ORDERS)?,
            senders: Ring::open(alloc, HOME)?,
        })
    }
}

/// What the parts of a connection are begun with, and when it began, where the clock told that.
#[derive(Drop)]
struct Common<A: Ledger, B: Ledger, C: Ledger, G: Drop> {
    for_reader: Arc<SharedConn<A, B, C>>,
    for_orders: Arc<SharedConn<A, B, C>>,
    for_writer: Arc<SharedConn<A, B, C>>,
    gate: Arc<G>,
    start: Option<Instant>,
}

impl<A: Ledger, B: Ledger, C: Ledger, G: Drop> Common<A, B, C, G> {
    /// Over what the threads share. Where the clock can't be read, the connection goes on without
    /// deadlines.
    fn new(
        rt: &impl Clock,
        shared: Arc<SharedConn<A, B, C>>,
        gate: &Arc<G>,
    ) -> Result<Common<A, B, C, G>, AllocError> {
        Ok(Common {
            for_orders: Arc::try_clone(&shared)?,
            for_writer: Arc::try_clone(&shared)?,
            for_reader: shared,
            gate: Arc::try_clone(gate)?,
            start: match Instant::now(rt) {
                Ok(start) => Some(start),
                Err(_) => None,
            },
        })
    }
}

/// Serves a connection with an empty register of calls.
fn serve_named<A, B, C, J, M, I, O, G, R>(
    rt: R,
    alloc: Global,
    handle: DrainHandle<A, B, C>,
    register: NewRegister,
    input: &mut I,
    output: O,
    methods: Arc<Methods>,
    gate: Arc<G>,
) -> ServedConn<O>
where
    A: Ledger + Send + Sync + 'static,
    B: Ledger + Send + Sync + 'static,
    C: Ledger + Send + Sync + 'static,
    J: Naming + Send + Sync + 'static,
    M: Answering + Send + Sync + 'static,
    I: ConnRead,
    O: ConnWrite + Send + Drop + 'static,
    G: Gate + Send + Sync + Drop + 'static,
    R: Threads + Wait + Clock + Copy + Send + Sync + Drop + 'static,
    requires handle { IsUnused A.parts B.parts C.parts handle }
    requires methods { AreKnownBy ⟦<dyn Method as Method>⟧ (listed methods.value)
        M.known M.names }
    requires book { register.seen.book ≡ J.book }
    ensures served { (came : List ℕ) × Consumes (I.remaining input.old) (I.remaining input.new) came
        × IsServed (λ calls. items_of calls.full calls.last) O.contents O.failed M.known M.names
        came (I.remaining input.new) (O.contents output) (I.failed input.new)
        result.report.ending result.report.calls result.output }
{
    let Ok(rings) = Rings::open(alloc) else {
        let _ends = register.named::<J>();
        return unserved(alloc, output);
    };
    serve_over::<A, B, C, J, M, Brand, I, O, G, R>(
        rt, alloc, handle, rings, register, input, output, methods, gate,
    )
}

/// Serves a connection over the rings between its threads.
fn serve_over<A, B, C, J, M, N, I, O, G, R>(
    rt: R,
    alloc: Global,
    handle: DrainHandle<A, B, C>,
    rings: Rings<J>,
    register: NewRegister,
    input: &mut I,
    output: O,
    methods: Arc<Methods>,
    gate: Arc<G>,
) -> ServedConn<O>
where
    A: Ledger + Send + Sync + 'static,
    B: Ledger + Send + Sync + 'static,
    C: Ledger + Send + Sync + 'static,
    J: Naming + Send + Sync + 'static,
    M: Answering + Send + Sync + 'static,
    N: Route,
    I: ConnRead,
    O: ConnWrite + Send + Drop + 'static,
    G: Gate + Send + Sync + Drop + 'static,
    R: Threads + Wait + Clock + Copy + Send + Sync + Drop + 'static,
    requires handle { IsUnused A.parts B.parts C.parts handle }
    requires methods { AreKnownBy ⟦<dyn Method as Method>⟧ (listed methods.value)
        M.known M.names }
    requires rings { (N.ring ≡ Some (in_name rings.orders.0)) × AreNew rings }
    requires book { register.seen.book ≡ J.book }
    ensures served { (came : List ℕ) × Consumes (I.remaining input.old) (I.remaining input.new) came
        × IsServed (λ calls. items_of calls.full calls.last) O.contents O.failed M.known M.names
        came (I.remaining input.new) (O.contents output) (I.failed input.new)
        result.report.ending result.report.calls result.output }
{
    let begun = match begin::<A, B, C, J, M, N, O, G, R>(
        rt, alloc, handle, rings, register, output, gate,
    ) {
        Ok(begun) => begun,
        Err(served) => return served,
    };
    let BegunConn {
        mut reader,
        mut intake,
        writing,
    } = begun;
    let read = reader.read(&mut intake, input, &methods);
    end(rt, reader, intake, writing, read)
}

/// A connection that was begun: its reader, the reader's hold on the credit book, and the thread
/// that writes.
#[derive(Drop)]
struct BegunConn<
    A: Ledger,
    B: Ledger,
    C: Ledger,
    J: Naming,
    M: Answering,
    N: Route,
    O: ConnWrite + Drop,
    R,
    G: Drop,
> {
    reader: Reader<A, B, C, J, M, N, R, G>,
    intake: Intake<A, B, C>,
    writing: WriterHand<C, J, O>,
}

/// Begins a connection. Without memory for that, it serves the connection to its end.
// (kept out of its caller, whose frame is on the stack of each connection that lives)
#[inline(never)]
fn begin<A, B, C, J, M, N, O, G, R>(
    rt: R,
    alloc: Global,
    handle: DrainHandle<A, B, C>,
    rings: Rings<J>,
    register: NewRegister,
    output: O,
    gate: Arc<G>,
) -> Result<BegunConn<A, B, C, J, M, N, O, R, G>, ServedConn<O>>
where
    A: Ledger + Send + Sync + 'static,
    B: Ledger + Send + Sync + 'static,
    C: Ledger + Send + Sync + 'static,
    J: Naming + Send + Sync + 'static,
    M: Answering + Send + Sync + 'static,
    N: Route,
    O: ConnWrite + Send + Drop + 'static,
    G: Gate + Send + Sync + Drop + 'static,
    R: Threads + Wait + Clock + Copy + Send + Sync + Drop + 'static,
    requires handle { IsUnused A.parts B.parts C.parts handle }
    requires rings { (N.ring ≡ Some (in_name rings.orders.0)) × AreNew rings }
    requires book { register.seen.book ≡ J.book }
    ensures begun { IfOk result (λ begun. HasBegun M.known M.names N.ring (O.contents output)
        (O.contents begun.writing.promise.device.value) begun.writing.promise.orders.value
        begun.writing.promise.home.value begun.intake begun.reader) }
    ensures served { IfErr result (λ served. (rest : Option (List ℕ)) (read_failed : Bool)
        → IsServed
        (λ calls. items_of calls.full calls.last) O.contents O.failed M.known M.names
        [] rest (O.contents output) read_failed served.report.ending served.report.calls
        served.output) }
{
    let (register, front) = register.named::<J>();
    let DrainHandle {
        shared,
        came,
        calls,
        announced,
        reader_key,
        writer_key,
    } = handle;
    let Ok(common) = Common::new(&rt, shared, &gate) else {
        return Err(unserved(alloc, output));
    };
    let Rings { orders, senders } = rings;
    let (putting, taking) = orders;
    let (giving, home) = senders;
    let outlet = Outlet::new(common.for_writer, announced);
    let intake = Intake::new(common.for_reader, came, calls);
    let mut orders: Orders<A, B, C, J, N> = Orders::new(alloc, putting, common.for_orders);
    match writer::start(
        rt,
        alloc,
        taking,
        giving,
        outlet,
        common.gate,
        writer_key,
        output,
        &mut orders,
    ) {
        Ok(writing) => {
            Ok(BegunConn {
                reader: Reader::new(
                    rt,
                    alloc,
                    orders,
                    reader_key,
                    register,
                    front,
                    home,
                    gate,
                    common.start,
                ),
                intake,
                writing,
            })
        }
        Err(WriterParts { written, announced }) => {
            intake.audit(&rt, announced);
            let WriterResult {
                ending,
                device,
                orders: rx,
                ..
            } = written;
            let calls = Accounts::new(alloc);
            let read = Ending::OutOfMemory;
            Err(meet(&rt, read, ending, calls, orders, rx, device))
        }
    }
}

/// Ends a connection after its reader has read to the end.
#[inline(never)]
fn end<A, B, C, J, M, N, O, G, R>(
    rt: R,
    reader: Reader<A, B, C, J, M, N, R, G>,
    intake: Intake<A, B, C>,
    writing: WriterHand<C, J, O>,
    read: Ending,
) -> ServedConn<O>
where
    A: Ledger + Send + Sync + 'static,
    B: Ledger + Send + Sync + 'static,
    C: Ledger + Send + Sync + 'static,
    J: Naming + Send + Sync + 'static,
    M: Answering + Send + Sync + 'static,
    N: Route,
    O: ConnWrite + Send + Drop + 'static,
    G: Gate + Send + Sync + Drop + 'static,
    R: Threads + Wait + Clock + Copy + Send + Sync + Drop + 'static,
    requires route { N.ring ≡ Some (out_name writing.promise.orders.value) }
    requires way { out_name reader.reading.home ≡ in_name writing.promise.home.value }
    requires heard { Hears M.known M.names reader.reading reader.orders }
    // The connection is served, whatever was heard, for the senders that came back by then. The
    // report has an account for each call that was admitted.
    ensures served { (sent : List SentItems) × AreCarried sent (taken reader.reading.home)
        × ((came : List ℕ) (rest : Option (List ℕ)) (read_failed : Bool)
        → HasReadOut M.known M.names sent read came rest read_failed intake reader
        → IsServed (λ calls. items_of calls.full calls.last) O.contents O.failed M.known M.names
        came rest (O.contents writing.promise.device.value) read_failed result.report.ending
        result.report.calls result.output
        × (intake.calls ≤ length (items_of result.report.calls.full result.report.calls.last))) }
{
    let mut reader = reader;
    reader.end();
    let WriterParts { written, announced } = writing.join(&rt);
    intake.audit(&rt, announced);
    meet_writer(rt, reader, written, read)
}

/// What became of a connection: its reader meets its writer, and takes back the senders that the
/// writer had.
fn meet_writer<A, B, C, J, M, N, O, G, R>(
    rt: R,
    reader: Reader<A, B, C, J, M, N, R, G>,
    written: WriterResult<J, O>,
    read: Ending,
) -> ServedConn<O>
where
    A: Ledger + Send + Sync + 'static,
    B: Ledger + Send + Sync + 'static,
    C: Ledger + Send + Sync + 'static,
    J: Naming + Send + Sync + 'static,
    M: Answering + Send + Sync + 'static,
    N: Route,
    O: ConnWrite + Send + Drop + 'static,
    G: Gate + Send + Sync + Drop + 'static,
    R: Threads + Wait + Clock + Copy + Send + Sync + Drop + 'static,
    requires route { N.ring ≡ Some (out_name written.orders) }
    requires way { out_name reader.reading.home ≡ in_name written.senders.sends.home }
    requires none_left { reader.orders.backlog.items ≡ [] }
    ensures back { HasTakenBack M.known M.names written.senders
        (items_of result.report.calls.full result.report.calls.last) reader }
    ensures met { HasMet read written reader.orders result }
{
    let WriterResult {
        ending,
        device,
        orders: rx,
        senders,
    } = written;
    let (calls, orders) = reader.meet(senders);
    meet(&rt, read, ending, calls, orders, rx, device)
}

/// What became of a connection, by what its reader and its writer each saw.
fn meet<A, B, C, J, N, O, R>(
    rt: &R,
    read: Ending,
    written: Option<WriterEnding>,
    calls: Accounts,
    orders: Orders<A, B, C, J, N>,
    rx: RingOut<Order<J>>,
    output: O,
) -> ServedConn<O>
where
    A: Ledger,
    B: Ledger,
    C: Ledger,
    J: Naming,
    N: Route,
    O: ConnWrite + Send + Drop + 'static,
    R: Wait + Clock,
    requires route { N.ring ≡ Some (out_name rx) }
    requires none_left { orders.backlog.items ≡ [] }
    // The orders that the run obeyed begin those that were put.
    ensures obeyed { IsPrefix (taken rx) (put_of orders) }
    ensures keeps { (result.output ≡ output) × (result.report.calls ≡ calls) }
    ensures ends { EndsAs read written orders.has_stopped orders.has_dropped
        result.report.ending }
{
    let (has_dropped, has_stopped) = (orders.has_dropped, orders.has_stopped);
    orders.meet(rx);
    if has_stopped && !has_dropped && written.is_none() {
        wait_for_ever(rt);
    }
    let ending = of_both(read, written, has_dropped);
    ServedConn {
        report: ConnReport { calls, ending },
        output,
    }
}

/// Waits for ever: the reader saw that the writer had stopped, and the writer didn't say why. That
/// doesn't come, since a writer that stops says why; and no ending would be true.
fn wait_for_ever<R: Wait + Clock>(rt: &R)
    ensures never { ⊥ }
{
    'waits: for _ in rt.forever() {
        thread::sleep(rt, Duration::from_secs(1));
    }
    unreachable!()
}

/// How a connection ended, by what its reader saw, how its writer ended, and whether orders were
/// dropped for want of memory.
fn of_both(read: Ending, written: Option<WriterEnding>, has_dropped: bool) -> Ending
    ensures { result ≡ ended_by read written has_dropped }
{
    if has_dropped {
        return Ending::OutOfMemory;
    }
    match written {
        None => read,
        Some(end) => by_writer(read, end.ending()),
    }
}

/// How a connection ended whose writer ended so, and no order was dropped: want of memory comes
/// first.
fn by_writer(read: Ending, end: Ending) -> Ending
    ensures { result ≡ unless_lacked read end }
{
    match read {
        Ending::InputEnded => end,
        Ending::PeerGoaway => end,
        Ending::ProtocolError(_) => end,
        Ending::ReadFailed => end,
        Ending::WriteFailed => end,
        Ending::OutOfMemory => Ending::OutOfMemory,
        Ending::Drained => end,
    }
}
