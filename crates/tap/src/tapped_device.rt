//! A device with a tap.

ghost use Rattle.std.specs.Prelude.{◌≡◌, ◌<◌, true, List, Option, length, take, IfOk, OnOk, OnErr};
ghost use Rattle.std.specs.Io.{ReadsAtMost, WritesAtMost};
ghost use Rattle.std.specs.Io.KnownBytes.{ReadConsumes, WriteAppends};
ghost use Rattle.tap.specs.Passing.{IsShown, Piece, Sees, device_of, read, tap_of, written};

use device::{ConnRead, ConnWrite, DeviceFault};
use std::io;
use std::io::{Read, Write};
use std::net::{OpenStream, Shutdown, SocketAddr};
use std::os::fd::{AsRawFd, RawFd};
use std::time::Duration;

/// Sees what passes on a connection.
pub trait Tap {
    /// What was seen, where that is known.
    ghost seen: { Self → Option (List Piece) };

    /// Sees bytes that were read.
    fn saw_read(&mut self, bytes: &[u8])
        ensures { Sees (seen self.old) (seen self.new) read bytes.now };

    /// Sees bytes that were written.
    fn saw_written(&mut self, bytes: &[u8])
        ensures { Sees (seen self.old) (seen self.new) written bytes.now };
}

/// A device, and its tap, if it has one.
#[derive(Drop)]
pub struct TappedDevice<D, T> {
    device: D,
    tap: Option<T>,
}

impl<D, T> TappedDevice<D, T> {
    pub fn new(device: D, tap: Option<T>) -> TappedDevice<D, T>
        ensures device { device_of result ≡ «device» }
        ensures tap { tap_of result ≡ tap }
    {
        TappedDevice { device, tap }
    }

    /// The device.
    pub fn device(&self) -> &D
        ensures { result.now ≡ device_of self.now }
    {
        &self.device
    }

    /// Its tap, if it has one.
    pub fn tap(&self) -> &Option<T>
        ensures { result.now ≡ tap_of self.now }
    {
        &self.tap
    }
}

impl<D, T: Tap> TappedDevice<D, T> {
    /// Shows the tap bytes that were read.
    fn show_read(&mut self, bytes: &[u8])
        ensures device { device_of self.new ≡ device_of self.old }
        ensures shown { IsShown T.seen (tap_of self.old) (tap_of self.new) read bytes.now }
    {
        if let Some(tap) = &mut self.tap {
            tap.saw_read(bytes);
        }
    }

    /// Shows the tap bytes that were written.
    fn show_written(&mut self, bytes: &[u8])
        ensures device { device_of self.new ≡ device_of self.old }
        ensures shown { IsShown T.seen (tap_of self.old) (tap_of self.new) written bytes.now }
    {
        if let Some(tap) = &mut self.tap {
            tap.saw_written(bytes);
        }
    }
}

impl<D: ConnRead, T: Tap> ConnRead for TappedDevice<D, T> {
    ghost remaining = { λ tapped. D.remaining (device_of tapped) };

    ghost failed = { λ tapped. D.failed (device_of tapped) };

    fn read(&mut self, buf: &mut [u8]) -> Result<usize, DeviceFault>
        ensures fits { ReadsAtMost result buf.new }
        ensures bytes { ReadConsumes (D.remaining (device_of self.old))
            (D.remaining (device_of self.new)) result buf.new }
        ensures unmarked { OnOk result
            (D.failed (device_of self.new) ≡ D.failed (device_of self.old)) }
        ensures marked { OnErr result (D.failed (device_of self.new) ≡ true) }
        ensures shown { IfOk result (λ count.
            IsShown T.seen (tap_of self.old) (tap_of self.new) read (take count buf.new)) }
        ensures unshown { OnErr result (tap_of self.new ≡ tap_of self.old) }
    {
        let count = self.device.read(buf)?;
        self.show_read(&buf[..count]);
        Ok(count)
    }
}

impl<D: ConnWrite, T: Tap> ConnWrite for TappedDevice<D, T> {
    ghost contents = { λ tapped. D.contents (device_of tapped) };

    ghost failed = { λ tapped. D.failed (device_of tapped) };

    fn write(&mut self, buf: &[u8]) -> Result<usize, DeviceFault>
        ensures fits { WritesAtMost result buf.now }
        ensures some { IfOk result (λ n. 0 < length buf.now → 0 < n) }
        ensures bytes { WriteAppends (D.contents (device_of self.old))
            (D.contents (device_of self.new)) result buf.now }
        ensures unmarked { OnOk result
            (D.failed (device_of self.new) ≡ D.failed (device_of self.old)) }
        ensures marked { OnErr result (D.failed (device_of self.new) ≡ true) }
        ensures shown { IfOk result (λ count.
            IsShown T.seen (tap_of self.old) (tap_of self.new) written (take count buf.now)) }
        ensures unshown { OnErr result (tap_of self.new ≡ tap_of self.old) }
    {
        let count = self.device.write(buf)?;
        self.show_written(&buf[..count]);
        Ok(count)
    }
}

impl<D: Read, T: Tap> Read for TappedDevice<D, T> {
    ghost remaining = { λ tapped. D.remaining (device_of tapped) };

    fn read(&mut self, buf: &mut [u8]) -> io::Result<usize>
        ensures bound { ReadsAtMost result buf.new }
        ensures bytes { ReadConsumes (D.remaining (device_of self.old))
            (D.remaining (device_of self.new)) result buf.new }
        ensures shown { IfOk result (λ count.
            IsShown T.seen (tap_of self.old) (tap_of self.new) read (take count buf.new)) }
    {
        let count = self.device.read(buf)?;
        self.show_read(&buf[..count]);
        Ok(count)
    }
}

impl<D: Write, T: Tap> Write for TappedDevice<D, T> {
    ghost contents = { λ tapped. D.contents (device_of tapped) };

    fn write(&mut self, buf: &[u8]) -> io::Result<usize>
        ensures bound { WritesAtMost result buf.now }
        ensures bytes { WriteAppends (D.contents (device_of self.old))
            (D.contents (device_of self.new)) result buf.now }
        ensures shown { IfOk result (λ count.
            IsShown T.seen (tap_of self.old) (tap_of self.new) written (take count buf.now)) }
    {
        let count = self.device.write(buf)?;
        self.show_written(&buf[..count]);
        Ok(count)
    }

    fn flush(&mut self) -> io::Result<()> {
        self.device.flush()
    }
}

impl<D: OpenStream, T> OpenStream for TappedDevice<D, T> {
    fn peer_addr(&self) -> io::Result<SocketAddr> {
        self.device.peer_addr()
    }

    fn local_addr(&self) -> io::Result<SocketAddr> {
        self.device.local_addr()
    }

    fn shutdown(&self, how: Shutdown) -> io::Result<()> {
        self.device.shutdown(how)
    }

    fn set_nodelay(&self, nodelay: bool) -> io::Result<()> {
        self.device.set_nodelay(nodelay)
    }

    fn nodelay(&self) -> io::Result<bool> {
        self.device.nodelay()
    }

    fn set_nonblocking(&self, nonblocking: bool) -> io::Result<()> {
        self.device.set_nonblocking(nonblocking)
    }

    fn set_read_timeout(&self, duration: Option<Duration>) -> io::Result<()> {
        self.device.set_read_timeout(duration)
    }

    fn set_write_timeout(&self, duration: Option<Duration>) -> io::Result<()> {
        self.device.set_write_timeout(duration)
    }

    fn read_timeout(&self) -> io::Result<Option<Duration>> {
        self.device.read_timeout()
    }

    fn write_timeout(&self) -> io::Result<Option<Duration>> {
        self.device.write_timeout()
    }

    fn take_error(&self) -> io::Result<Option<io::Error>> {
        self.device.take_error()
    }

    fn peek(&self, buf: &mut [u8]) -> io::Result<usize> {
        self.device.peek(buf)
    }

    fn set_ttl(&self, ttl: u32) -> io::Result<()> {
        self.device.set_ttl(ttl)
    }

    fn ttl(&self) -> io::Result<u32> {
        self.device.ttl()
    }
}

impl<D: AsRawFd, T> AsRawFd for TappedDevice<D, T> {
    ghost raw_fd = { λ tapped. D.raw_fd (device_of tapped) };

    fn as_raw_fd(&self) -> RawFd {
        self.device.as_raw_fd()
    }
}
