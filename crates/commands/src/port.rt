//! The threads that serve a port.
//!
//! One thread takes connections, and starts a thread for each. If the server serves all that come,
//! the first of these threads also take further connections once theirs have ended. So a client
//! that makes a connection for each call seldom waits for a thread to start. If it serves only a
//! number of connections, each has a thread of its own. If the system has too few threads, or too
//! little memory, `room` says how many connections are served at a time.

use crate::log::ended_of;
use crate::room::Room;
use crate::stopping::{Connection, Stop};
use crate::stream::{EndedConn, Link, serve_stream};
use crate::witness::Witness;
use connection::{Ending, STACK};
use handlers::Methods;
use std::alloc::{AllocError, Global};
use std::fs::File;
use std::net::{TcpListener, TcpStream};
use std::rt::Files;
use std::sync::atomic::{AtomicU64, Ordering};
use std::sync::{Arc, Wait};
use std::thread::{Builder, JoinHandle, Threads};
use std::time::{Clock, Duration};
use std::{io, thread};

/// How long the server waits after a connection could not be taken, in milliseconds.
const PAUSE: u64 = 10;

/// What serves all connections to a port.
#[derive(Drop)]
pub struct Service<W> {
    pub methods: Arc<Methods>,
    /// What sees the connections and their calls.
    pub witness: Arc<W>,
    /// How it stops, if it does before the program is interrupted.
    pub stop: Option<Arc<Stop>>,
}

/// A port, and how connections to it are served.
#[derive(Drop)]
struct Port<W> {
    listener: TcpListener,
    service: Service<W>,
    /// How many connections were taken.
    taken: AtomicU64,
    room: Room,
}

/// What a thread does once the connection that it was started for has ended.
#[derive(Clone, Copy)]
enum Afterwards {
    /// It takes more connections, if it is among the first.
    MayTakeMore,
    /// It ends.
    Ends,
    /// It stops the server, since that connection was the last, and ends.
    StopsServer,
}

/// Serves connections that come, until the server has stopped, if it does: then a thread of its own
/// takes them. Answers which connections are left when its patience ended.
pub fn serve_port<R, W>(
    rt: R,
    alloc: Global,
    listener: TcpListener,
    service: Service<W>,
) -> io::Result<Vec<Connection>>
where
    R: Files<File = File> + Print + Eprint + Threads + Wait + Clock,
    R: Copy + Send + Sync + Drop + 'static,
    R::Dir: Send + Sync,
    W: Witness + Send + Sync + Drop + 'static,
{
    let stop = match &service.stop {
        Some(stop) => Some(Arc::try_clone(stop)?),
        None => None,
    };
    let port = Port {
        listener,
        service,
        taken: AtomicU64::new(0),
        room: Room::new(),
    };
    let port = Arc::new(alloc, port)?;
    let Some(stop) = stop else {
        take_all(rt, alloc, &port);
        return Ok(Vec::new(alloc));
    };
    let connections = stop.connections;
    let taken = Arc::try_clone(&port)?;
    let _taking = thread::spawn(&rt, move || {
        // (kept first, as in `serve_next`)
        let port = taken;
        match connections {
            Some(count) => take_some(rt, alloc, &port, count),
            None => take_all(rt, alloc, &port),
        }
    })?;
    Ok(stop.wait(&rt, alloc))
}

/// Serves a connection in a thread of its own. If no thread can be made, it answers want of memory.
pub fn serve_apart<R, W>(
    rt: R,
    alloc: Global,
    listener: TcpListener,
    service: Service<W>,
) -> Result<JoinHandle<()>, AllocError>
where
    R: Files<File = File> + Print + Eprint + Threads + Wait + Clock,
    R: Copy + Send + Sync + Drop + 'static,
    R::Dir: Send + Sync,
    W: Witness + Send + Sync + Drop + 'static,
{
    let serving = thread::spawn(&rt, move || {
        // (kept first, as in `serve_next`)
        let service = service;
        let _served = serve_port(rt, alloc, listener, service);
    });
    match serving {
        Ok(thread) => Ok(thread),
        Err(_refused) => Err(AllocError),
    }
}

/// Takes all connections that come. The threads that serve the first of them stay.
fn take_all<R, W>(rt: R, alloc: Global, port: &Arc<Port<W>>)
where
    R: Files<File = File> + Print + Eprint + Threads + Wait + Clock,
    R: Copy + Send + Sync + Drop + 'static,
    R::Dir: Send + Sync,
    W: Witness + Send + Sync + Drop + 'static,
{
    for _ in rt.forever() {
        if !port.room.has_place(&rt)
            || serve_next(rt, alloc, port, Afterwards::MayTakeMore).is_err()
        {
            pause(&rt);
        }
    }
    unreachable!()
}

/// Sleeps until another connection may be taken, or another thread started.
fn pause(rt: &impl Clock) {
    let _ = thread::sleep(rt, Duration::from_millis(PAUSE));
}

/// Takes a number of connections. Once the last of them has ended, the server stops.
fn take_some<R, W>(rt: R, alloc: Global, port: &Arc<Port<W>>, count: u16)
where
    R: Files<File = File> + Print + Eprint + Threads + Wait + Clock,
    R: Copy + Send + Sync + Drop + 'static,
    R::Dir: Send + Sync,
    W: Witness + Send + Sync + Drop + 'static,
{
    let mut left = count;
    for _ in rt.forever() {
        if left == 0 {
            return;
        }
        let afterwards = match left {
            1 => Afterwards::StopsServer,
            _ => Afterwards::Ends,
        };
        if port.room.has_place(&rt) && serve_next(rt, alloc, port, afterwards).is_ok() {
            left -= 1;
        } else {
            pause(&rt);
        }
    }
}

/// Takes the next connection, and starts a thread that serves it. A connection for which no thread
/// can be made is ended, and so is one that comes while the server stops.
fn serve_next<R, W>(
    rt: R,
    alloc: Global,
    port: &Arc<Port<W>>,
    afterwards: Afterwards,
) -> io::Result<()>
where
    R: Files<File = File> + Print + Eprint + Threads + Wait + Clock,
    R: Copy + Send + Sync + Drop + 'static,
    R::Dir: Send + Sync,
    W: Witness + Send + Sync + Drop + 'static,
{
    let shared = Arc::try_clone(port)?;
    let Some((stream, connection)) = port.take_next(&rt)? else {
        return Ok(());
    };
    let serving = Builder::new().stack_size(STACK).spawn(&rt, move || {
        // (it is kept first: what shows that a thread may have it gives up where this comes last)
        let port = shared;
        serve_first(rt, alloc, &port, stream, connection, afterwards);
    });
    if serving.is_err() {
        port.note_ended(&rt, connection, true);
        return Err(io::Error::from(io::ErrorKind::OutOfMemory));
    }
    Ok(())
}

/// Serves the connection that a thread was started for to its end, and then does what comes
/// afterwards.
fn serve_first<R, W>(
    rt: R,
    alloc: Global,
    port: &Port<W>,
    stream: TcpStream,
    connection: Connection,
    afterwards: Afterwards,
)
where
    R: Files<File = File> + Print + Eprint + Threads + Wait + Clock,
    R: Copy + Send + Sync + Drop + 'static,
    W: Witness + Send + Sync + Drop + 'static,
{
    let lacks = serve_one(rt, alloc, &port.service, stream, connection);
    if let Afterwards::StopsServer = afterwards {
        port.service.stop_all(&rt);
    }
    port.note_ended(&rt, connection, lacks);
    if let Afterwards::MayTakeMore = afterwards {
        if port.room.stay(&rt) {
            take_more(rt, alloc, port);
        }
    }
}

/// Takes one connection after another, and serves each to its end, until there are too few threads
/// for that.
fn take_more<R, W>(rt: R, alloc: Global, port: &Port<W>)
where
    R: Files<File = File> + Print + Eprint + Threads + Wait + Clock,
    R: Copy + Send + Sync + Drop + 'static,
    W: Witness + Send + Sync + Drop + 'static,
{
    for _ in rt.forever() {
        if serve_taken(rt, alloc, port).is_err() {
            pause(&rt);
        }
        if port.room.gives_up(&rt) {
            return;
        }
    }
    unreachable!()
}

/// Takes the next connection and serves it, unless the server stops. It fails if none could be
/// taken.
fn serve_taken<R, W>(rt: R, alloc: Global, port: &Port<W>) -> io::Result<()>
where
    R: Files<File = File> + Print + Eprint + Threads + Wait + Clock,
    R: Copy + Send + Sync + Drop + 'static,
    W: Witness + Send + Sync + Drop + 'static,
{
    let Some((stream, connection)) = port.take_next(&rt)? else {
        return Ok(());
    };
    let lacks = serve_one(rt, alloc, &port.service, stream, connection);
    port.note_ended(&rt, connection, lacks);
    Ok(())
}

impl<W> Port<W> {
    /// Takes the next connection. One that comes while the server stops is closed at once, so that
    /// its client looks for another server.
    fn take_next(&self, rt: &impl Wait) -> io::Result<Option<(TcpStream, Connection)>> {
        let (stream, peer) = self.listener.accept()?;
        let number = self.taken.fetch_add(1, Ordering::SeqCst).wrapping_add(1);
        let connection = Connection { number, peer };
        if let Some(stop) = &self.service.stop {
            if !stop.take(rt, connection)? {
                return Ok(None);
            }
        }
        self.room.enter(rt);
        Ok(Some((stream, connection)))
    }

    /// A connection has ended, and was reported on, or couldn't be served for want of threads or
    /// memory.
    fn note_ended(&self, rt: &(impl Wait + Clock), connection: Connection, lacks: bool) {
        self.room.leave(rt, lacks);
        if let Some(stop) = &self.service.stop {
            stop.let_go(rt, connection.number);
        }
    }
}

impl<W> Service<W> {
    /// The server stops, if it can.
    fn stop_all(&self, rt: &impl Wait) {
        if let Some(stop) = &self.stop {
            stop.begin(rt);
        }
    }
}

/// Serves a connection to its end, and reports on it and its calls if that is wanted. One that was
/// drained has all its frames by then, and is read on for a moment. Answers whether threads or
/// memory were lacking.
fn serve_one<R, W>(
    rt: R,
    alloc: Global,
    service: &Service<W>,
    stream: TcpStream,
    connection: Connection,
) -> bool
where
    R: Files<File = File> + Print + Eprint + Threads + Wait + Clock,
    R: Copy + Send + Sync + Drop + 'static,
    W: Witness + Send + Sync + Drop + 'static,
{
    let Ok(reporting) = service.witness.reporting(&service.methods, connection) else {
        return true;
    };
    let logged = service.witness.begin(&rt, alloc, connection);
    let eye = service.witness.look(rt, &stream, connection);
    let served = serve_stream(
        rt,
        alloc,
        stream,
        &service.methods,
        &logged,
        eye,
        &reporting,
        &service.stop,
    );
    if let Some(logged) = &logged {
        logged.end(&rt, how_of(&served));
    }
    let (ended, drained) = match served {
        Ok(served) => served,
        Err(error) => return error.kind() == io::ErrorKind::OutOfMemory,
    };
    let lacks = ended.ending == Ending::OutOfMemory;
    if let Some(link) = &drained {
        link.finish();
    }
    if let Some(reporting) = &reporting {
        let file = service.witness.file_of(connection);
        reporting.end(&rt, alloc, &ended, &file);
    }
    if let Some(link) = &drained {
        link.part(&rt);
    }
    lacks
}

/// How a connection ended, as its log says it.
fn how_of(served: &io::Result<(EndedConn, Option<Arc<Link>>)>) -> connlog::ConnEnding {
    match served {
        Ok((ended, _)) => ended_of(ended.ending),
        Err(_) => connlog::ConnEnding::ReadFailed,
    }
}
