//! A connection to the server under test, or why there is none.

use cases::{Failure, Limit, TICK};
use std::alloc::Global;
use std::io::ErrorKind;
use std::net::{Net, OpenStream, TcpStream, ToSocketAddrs};
use std::time::{Clock, Duration};
use std::{fmt, io};

/// Where a server is.
#[derive(Clone, Copy, Debug, PartialEq, Eq)]
pub struct ServerPlace<'a> {
    /// Its address, without brackets, or a name for it.
    host: &'a str,
    port: u16,
}

impl<'a> ServerPlace<'a> {
    /// An IPv6 address may stand in brackets, as the line `listening` has it.
    pub fn new(host: &'a str, port: u16) -> ServerPlace<'a> {
        ServerPlace {
            host: without_brackets(host),
            port,
        }
    }
}

/// The host without the brackets of an IPv6 address.
pub fn without_brackets(host: &str) -> &str {
    match host.strip_prefix("[") {
        Some(rest) => rest.strip_suffix("]").unwrap_or(host),
        None => host,
    }
}

impl<'a> fmt::Display for ServerPlace<'a> {
    fn fmt<W: fmt::Write>(&self, f: &mut fmt::Formatter<W>) -> fmt::Result {
        let ServerPlace { host, port } = *self;
        if host.bytes().any(|byte| byte == b':') {
            write!(f, "[{host}]:{port}")
        } else {
            write!(f, "{host}:{port}")
        }
    }
}

/// A connection whose reads and writes fail after a tick, and whose small frames leave at once.
/// Each address of the host is tried.
pub(crate) fn connect<R: Net + Clock>(
    rt: &R,
    alloc: Global,
    place: ServerPlace<'_>,
    limit: Limit,
) -> Result<R::Stream, Failure> {
    let addresses = match (place.host, place.port).to_socket_addrs(rt) {
        Ok(addresses) => addresses,
        Err(error) => return Err(no_connection(alloc, place, Why::Unknown(error))),
    };
    let mut why = Why::NoAddress;
    for address in addresses {
        let left = limit.left(rt);
        if left.is_zero() {
            why = Why::TimedOut;
            break;
        }
        match TcpStream::connect_timeout(rt, &address, left) {
            Ok(stream) => {
                return match set_ticks(&stream) {
                    Ok(()) => Ok(stream),
                    Err(error) => Err(no_connection(alloc, place, Why::Failed(error))),
                };
            }
            Err(error) => why = Why::of(error),
        }
    }
    Err(no_connection(alloc, place, why))
}

/// Has reads and writes fail after a tick, and small frames leave at once.
pub fn set_ticks<S: OpenStream>(stream: &S) -> io::Result<()> {
    let tick = Duration::from_millis(TICK);
    stream.set_read_timeout(Some(tick))?;
    stream.set_write_timeout(Some(tick))?;
    stream.set_nodelay(true)
}

/// Why there is no connection.
#[derive(Drop)]
enum Why {
    /// The host wasn't found.
    Unknown(io::Error),
    /// It has no address.
    NoAddress,
    Refused,
    TimedOut,
    Failed(io::Error),
}

impl Why {
    fn of(error: io::Error) -> Why {
        match error.kind() {
            ErrorKind::ConnectionRefused => Why::Refused,
            ErrorKind::TimedOut => Why::TimedOut,
            _ => Why::Failed(error),
        }
    }
}

impl fmt::Display for Why {
    fn fmt<W: fmt::Write>(&self, f: &mut fmt::Formatter<W>) -> fmt::Result {
        match self {
            Why::Unknown(error) => write!(f, "no such host: {error}"),
            Why::NoAddress => write!(f, "no such host: it has no address"),
            Why::Refused => write!(f, "refused: nothing listens there"),
            Why::TimedOut => write!(f, "timed out"),
            Why::Failed(error) => write!(f, "{error}"),
        }
    }
}

fn no_connection(alloc: Global, place: ServerPlace<'_>, why: Why) -> Failure {
    let text = match format!(in alloc; "no connection to {place}: {why}") {
        Ok(text) => text,
        Err(_) => String::new(alloc),
    };
    Failure::unconnected(alloc, text.as_str())
}
