//! Reads to the end of the input, and writes of all bytes.
ghost use Rattle.std.specs.Prelude.{◌≡◌, true, IfOk, OnOk, OnErr, IsErrOf};
ghost use Rattle.std.specs.Io.KnownBytes.{Appends, Consumes, IsAtEnd};
ghost use Rattle.device.specs.Bytes.{AppendsPrefix, ConsumesSome};
ghost use Rattle.device.specs.declared.whole.ReadFault.TheVariants.{Device, OutOfMemory};

use crate::conn::{ConnRead, ConnWrite, DeviceFault};
use std::alloc::{AllocError, Global};

/// Why `read_all` gave up.
#[derive(Clone, Copy, PartialEq, Eq, Debug)]
pub enum ReadFault {
    /// A read failed.
    Device,
    /// There was no room for what was read.
    OutOfMemory,
}

impl From<DeviceFault> for ReadFault {
    ghost from_gives = { λ _ fault. fault ≡ Device };

    fn from(_fault: DeviceFault) -> ReadFault {
        ReadFault::Device
    }
}

impl From<AllocError> for ReadFault {
    ghost from_gives = { λ _ fault. fault ≡ OutOfMemory };

    fn from(_error: AllocError) -> ReadFault {
        ReadFault::OutOfMemory
    }
}

/// Reads to the end of the input, and answers all that it gave. An `Err` drops what was read.
pub fn read_all<R: ConnRead>(alloc: Global, input: &mut R) -> Result<Vec<u8>, ReadFault>
    ensures ok { IfOk result (λ all.
        Consumes (R.remaining input.old) (R.remaining input.new) all.items) }
    ensures end { OnOk result (IsAtEnd (R.remaining input.new)) }
    ensures prefix { OnErr result (ConsumesSome (R.remaining input.old) (R.remaining input.new)) }
    ensures marked { IsErrOf result Device → R.failed input.new ≡ true }
    ensures unmarked { ¬ (IsErrOf result Device)
        → R.failed input.new ≡ R.failed input.old }
{
    let mut all = Vec::new(alloc);
    let mut piece = [0u8; 16384];
    'reads: loop {
        let count = input.read(&mut piece)?;
        if count == 0 {
            return Ok(all);
        }
        all.extend_from_slice(&piece[..count])?;
    }
}

/// Writes all of the bytes. At a fault it has written a prefix of them, which may be empty.
pub fn write_all<W: ConnWrite>(output: &mut W, bytes: &[u8]) -> Result<(), DeviceFault>
    ensures ok { OnOk result (Appends (W.contents output.old) (W.contents output.new) bytes.now) }
    ensures prefix { OnErr result
        (AppendsPrefix (W.contents output.old) (W.contents output.new) bytes.now) }
    ensures unmarked { OnOk result (W.failed output.new ≡ W.failed output.old) }
    ensures marked { OnErr result (W.failed output.new ≡ true) }
{
    let mut rest = bytes;
    'writes: while !rest.is_empty() {
        let count = output.write(rest)?;
        rest = &rest[count..];
    }
    Ok(())
}
