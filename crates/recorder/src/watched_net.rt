//! A network all of whose connections are looked at.

use crate::eye::{Line, Sight, look};
use crate::places::Recorder;
use capture::Side;
use std::io;
use std::net::{Net, OpenListener, OpenStream, SocketAddr};
use std::os::fd::{AsRawFd, RawFd};
use std::sync::{Arc, Wait};
use std::time::{Clock, Duration};
use tap::TappedDevice;

/// A network, and a clock. If there is a recorder, it looks at each connection that comes to a
/// port.
#[derive(Clone, Copy, Drop)]
pub struct WatchedNet<'a, R> {
    rt: R,
    recorder: &'a Option<Arc<Recorder>>,
}

/// A port whose connections are looked at.
#[derive(Drop)]
pub struct WatchedListener<'a, R, L> {
    net: WatchedNet<'a, R>,
    listener: L,
}

impl<'a, R> WatchedNet<'a, R> {
    pub fn new(rt: R, recorder: &'a Option<Arc<Recorder>>) -> WatchedNet<'a, R> {
        WatchedNet { rt, recorder }
    }
}

impl<'a, R> WatchedNet<'a, R>
where
    R: Wait + Clock + Eprint + Copy + Drop,
{
    /// A connection that a client has made.
    fn line<S: OpenStream>(&self, stream: S, peer: SocketAddr) -> Line<S, R> {
        let eye = match stream.local_addr() {
            Ok(own) => look(
                self.rt,
                self.recorder,
                Sight {
                    number: None,
                    side: Side::Server,
                    own,
                    peer,
                    label: None,
                    is_served: false,
                },
            ),
            Err(_ended) => None,
        };
        TappedDevice::new(stream, eye)
    }
}

impl<'a, R: Clock> Clock for WatchedNet<'a, R> {
    fn monotonic(&self) -> io::Result<Duration> {
        self.rt.monotonic()
    }

    fn since_1970(&self) -> io::Result<Duration> {
        self.rt.since_1970()
    }

    fn sleep(&self, duration: Duration) {
        self.rt.sleep(duration)
    }
}

impl<'a, R> Net for WatchedNet<'a, R>
where
    R: Net + Wait + Clock + Eprint + Copy + Drop,
{
    type Stream = Line<R::Stream, R>;

    type Listener = WatchedListener<'a, R, R::Listener>;

    fn bind(&self, addr: SocketAddr) -> io::Result<WatchedListener<'a, R, R::Listener>> {
        Ok(WatchedListener {
            net: WatchedNet::new(self.rt, self.recorder),
            listener: self.rt.bind(addr)?,
        })
    }

    // (none are made, and one that is isn't looked at)
    fn connect(&self, addr: SocketAddr) -> io::Result<Line<R::Stream, R>> {
        Ok(TappedDevice::new(self.rt.connect(addr)?, None))
    }

    fn lookup_host(&self, host: &str, port: u16, found: &mut [SocketAddr]) -> io::Result<usize> {
        self.rt.lookup_host(host, port, found)
    }
}

impl<'a, R, L> OpenListener for WatchedListener<'a, R, L>
where
    R: Wait + Clock + Eprint + Copy + Drop,
    L: OpenListener,
    L::Stream: OpenStream,
{
    type Stream = Line<L::Stream, R>;

    fn accept(&self) -> io::Result<(Line<L::Stream, R>, SocketAddr)> {
        let (stream, peer) = self.listener.accept()?;
        Ok((self.net.line(stream, peer), peer))
    }

    fn local_addr(&self) -> io::Result<SocketAddr> {
        self.listener.local_addr()
    }

    fn set_nonblocking(&self, nonblocking: bool) -> io::Result<()> {
        self.listener.set_nonblocking(nonblocking)
    }

    fn take_error(&self) -> io::Result<Option<io::Error>> {
        self.listener.take_error()
    }
}

impl<'a, R, L: AsRawFd> AsRawFd for WatchedListener<'a, R, L> {
    ghost raw_fd = { λ port. L.raw_fd port.listener };

    fn as_raw_fd(&self) -> RawFd {
        self.listener.as_raw_fd()
    }
}
