//! Readers and writers of std as devices.
ghost use Rattle.std.specs.Prelude.{◌≡◌, true, false, IsErr};

use crate::conn::{ConnRead, ConnWrite, DeviceFault};
use std::io::{ErrorKind, Read, Write};

/// An std reader or writer as a device. A read or write that a signal interrupts is tried again,
/// and a write that takes none of the bytes is a fault.
#[derive(Drop)]
pub struct StdDevice<T> {
    device: T,
    failed: bool,
}

impl<T> StdDevice<T> {
    ghost use Rattle.device.specs.Marks.{device_of, has_failed};

    /// The device, with no mark of failure.
    pub fn new(device: T) -> StdDevice<T>
        ensures device { device_of result ≡ «device» }
        ensures unmarked { has_failed result ≡ false }
    {
        StdDevice {
            device,
            failed: false,
        }
    }

    /// Whether a read or a write failed.
    pub fn has_failed(&self) -> bool
        ensures { result ≡ has_failed self.now }
    {
        self.failed
    }

    // Sets the mark.
    fn fail(&mut self) -> Result<usize, DeviceFault>
        ensures fault { IsErr result }
        ensures marked { has_failed self.new ≡ true }
        ensures device { device_of self.new ≡ device_of self.old }
    {
        self.failed = true;
        Err(DeviceFault)
    }

    /// The reader or writer.
    pub fn into_inner(self) -> T
        ensures { result ≡ device_of self }
    {
        let StdDevice { device, failed: _ } = self;
        device
    }
}

impl<T: Read> ConnRead for StdDevice<T> {
    ghost use Rattle.device.specs.Marks.{device_of, has_failed};

    ghost remaining = { λ marked. T.remaining (device_of marked) };

    ghost failed = { has_failed };

    fn read(&mut self, buf: &mut [u8]) -> Result<usize, DeviceFault> {
        'tries: for _ in 0..u64::MAX {
            match self.device.read(buf) {
                Ok(count) => return Ok(count),
                Err(error) => {
                    if error.kind() != ErrorKind::Interrupted {
                        break;
                    }
                }
            }
        }
        self.fail()
    }
}

impl<T: Write> ConnWrite for StdDevice<T> {
    ghost use Rattle.device.specs.Marks.{device_of, has_failed};

    ghost contents = { λ marked. T.contents (device_of marked) };

    ghost failed = { has_failed };

    fn write(&mut self, buf: &[u8]) -> Result<usize, DeviceFault> {
        'tries: for _ in 0..u64::MAX {
            match self.device.write(buf) {
                Ok(count) => {
                    if count > 0 || buf.is_empty() {
                        return Ok(count);
                    }
                    break;
                }
                Err(error) => {
                    if error.kind() != ErrorKind::Interrupted {
                        break;
                    }
                }
            }
        }
        self.fail()
    }
}
