//! Listening on a port.

use sinks::write_whole;
use std::alloc::Global;
use std::io;
use std::io::ErrorKind;
use std::net::{Net, SocketAddr, TcpListener, ToSocketAddrs};
use std::rt::Files;
use trials::without_brackets;
use words::{LOOPBACK, Port, ServeWords};

/// Listens on the port of a host's address, or of the first of a name's addresses where it can. If
/// it can't, a line on standard error names the port and says why.
pub fn listen<R: Net + Eprint>(rt: &R, host: &str, port: Port) -> io::Result<TcpListener> {
    let listening = bind(rt, host, number_of(port));
    if let Err(error) = &listening {
        // The exit status reports it even if nothing can be written here.
        let _said = match port {
            Port::Number(port) if host == LOOPBACK => {
                eprintln!(rt; "interop: port {port} can't be had: {error}")
            }
            Port::Number(port) => eprintln!(rt;
                "interop: port {port} of {host} can't be had: {error}"
            ),
            Port::Any => eprintln!(rt; "interop: no port of {host} can be had: {error}"),
        };
    }
    listening
}

/// Writes the files by which a script can wait until the server listens: first the port's number,
/// then the address, each in a line. If one can't be written, a line on standard error says why.
pub(crate) fn tell_ready<R: Files + Eprint>(
    rt: &R,
    alloc: Global,
    address: SocketAddr,
    words: ServeWords<'_>,
) -> io::Result<()> {
    if let Some(file) = words.files.port {
        let port = address.port();
        let text = format!(in alloc; "{port}\n")?;
        write_whole(rt, alloc, file, text.as_str()).map_err(|_| unready())?;
    }
    if let Some(file) = words.files.ready {
        let text = format!(in alloc; "{address}\n")?;
        write_whole(rt, alloc, file, text.as_str()).map_err(|_| unready())?;
    }
    Ok(())
}

fn unready() -> io::Error {
    io::Error::new(ErrorKind::Other, "a file can't be written")
}

/// The port, as sockets name it: 0 is one that the system chooses.
fn number_of(port: Port) -> u16 {
    match port {
        Port::Number(number) => number,
        Port::Any => 0,
    }
}

/// As `TcpListener::bind`, but as many connections wait to be accepted as the system allows. Once
/// std's 128 wait, a client's next try comes after a second.
fn bind(rt: &impl Net, host: &str, port: u16) -> io::Result<TcpListener> {
    let mut last = io::Error::new(ErrorKind::InvalidInput, "the name has no address");
    for address in (without_brackets(host), port).to_socket_addrs(rt)? {
        match mio::net::TcpListener::bind(rt, address) {
            Ok(listener) => {
                let listener = TcpListener::from(listener);
                // So that `accept` waits.
                listener.set_nonblocking(false)?;
                return Ok(listener);
            }
            Err(error) => last = error,
        }
    }
    Err(last)
}
