//! `interop body`: the messages of one call, from hexadecimal text to printed lines.
//!
//! The whole report is made before any of it is written, so out of memory prints nothing. A message
//! becomes its line once it is whole, so that little more is held than the report.
ghost use Rattle.std.specs.Prelude.{◌≡◌, ℕ, ◌<◌, List, [], ◌++◌, IfOk, IfErr, OnOk};
ghost use Rattle.commands.specs.declared.body.RunFault.TheVariants.{OutOfMemory, WriteFailed};
ghost use Rattle.commands.specs.Body.{
  Leaves,
  Marks,
  Reports,
  fault_at_end,
  fault_of_read,
  fault_of_text,
  report_of,
};

use crate::report::{push_ending, push_message};
use crate::text::{HexFault, bytes_of};
use device::{ConnRead, ConnWrite, DeviceFault, ReadFault, read_all, write_all};
use lpm::{LpmFault, Split, Splitter};
use std::alloc::{AllocError, Global};

/// Why a run gave up.
#[derive(Clone, Copy, Debug, PartialEq, Eq)]
pub enum RunFault {
    /// The input isn't pairs of hexadecimal digits.
    NotHex,
    /// A read failed.
    ReadFailed,
    /// A write failed.
    WriteFailed,
    /// There is no memory.
    OutOfMemory,
}

impl RunFault {
    ghost use Rattle.commands.specs.Body.{code_of};

    /// The fault's number.
    pub fn code(self) -> u32
        ensures { result ≡ code_of self }
    {
        match self {
            RunFault::NotHex => 1,
            RunFault::ReadFailed => 2,
            RunFault::WriteFailed => 3,
            RunFault::OutOfMemory => 4,
        }
    }
}

impl From<ReadFault> for RunFault {
    ghost from_gives = { λ fault given. given ≡ fault_of_read fault };

    fn from(fault: ReadFault) -> RunFault {
        match fault {
            ReadFault::Device => RunFault::ReadFailed,
            ReadFault::OutOfMemory => RunFault::OutOfMemory,
        }
    }
}

impl From<HexFault> for RunFault {
    ghost from_gives = { λ fault given. given ≡ fault_of_text fault };

    fn from(fault: HexFault) -> RunFault {
        match fault {
            HexFault::NotHex => RunFault::NotHex,
            HexFault::OutOfMemory => RunFault::OutOfMemory,
        }
    }
}

impl From<DeviceFault> for RunFault {
    ghost from_gives = { λ _ given. given ≡ WriteFailed };

    fn from(_fault: DeviceFault) -> RunFault {
        RunFault::WriteFailed
    }
}

impl From<AllocError> for RunFault {
    ghost from_gives = { λ _ given. given ≡ OutOfMemory };

    fn from(_error: AllocError) -> RunFault {
        RunFault::OutOfMemory
    }
}

/// A call that comes in pieces, whose messages are printed as soon as they are whole.
#[derive(Drop)]
struct MessagePrinter {
    /// The bytes of the call, without those of the messages that were printed.
    splitter: Splitter,
    /// The lines of the messages, and how many there are.
    text: Vec<u8>,
    count: usize,
    /// The fault of what came, if there is one.
    fault: Option<LpmFault>,
}

impl MessagePrinter {
    ghost use Rattle.commands.specs.Telling.{HasTold, HasToldAll};

    /// A call of which nothing came.
    fn new(alloc: Global) -> MessagePrinter
        ensures { HasToldAll [] result }
    {
        MessagePrinter {
            splitter: Splitter::new(alloc),
            text: Vec::new(alloc),
            count: 0,
            fault: None,
        }
    }

    /// The next piece comes.
    fn feed(&mut self, piece: &[u8]) -> Result<(), AllocError>
        ensures { (bytes : List ℕ) → HasTold bytes self.old
            → OnOk result (HasToldAll (bytes ++ piece.now) self.new) }
    {
        if self.splitter.push(piece).is_err() {
            return Err(AllocError);
        }
        self.tell()
    }

    /// Prints the messages that are whole.
    fn tell(&mut self) -> Result<(), AllocError>
        ensures { (bytes : List ℕ) → HasTold bytes self.old
            → OnOk result (HasToldAll bytes self.new) }
    {
        'messages: loop {
            match self.splitter.next() {
                Split::Message(message) => {
                    push_message(&mut self.text, self.count, message.as_slice())?;
                    let Some(count) = self.count.checked_add(1) else {
                        return Err(AllocError);
                    };
                    self.count = count;
                }
                Split::More => {
                    self.fault = None;
                    return Ok(());
                }
                Split::Fault(fault) => match fault {
                    LpmFault::OutOfMemory => return Err(AllocError),
                    _ => {
                        self.fault = Some(fault);
                        return Ok(());
                    }
                },
            }
        }
    }

    /// The fault of the call's bytes, if no more come.
    fn fault_at_end(&self) -> Option<LpmFault>
        ensures { (bytes : List ℕ) → HasToldAll bytes self.now → result ≡ fault_at_end bytes }
    {
        match self.fault {
            Some(fault) => Some(fault),
            None => match self.splitter.end() {
                Ok(()) => None,
                Err(fault) => Some(fault),
            },
        }
    }

    /// The call has ended: its report.
    fn end(self) -> Result<Vec<u8>, AllocError>
        ensures { (bytes : List ℕ) → HasToldAll bytes self
            → IfOk result (λ text. text.items ≡ report_of bytes) }
    {
        let fault = self.fault_at_end();
        let MessagePrinter { mut text, .. } = self;
        push_ending(&mut text, fault)?;
        Ok(text)
    }
}

// The report on the bytes of a whole call, which are fed in pieces of `cut`.
fn report_of(alloc: Global, bytes: &[u8], cut: usize) -> Result<Vec<u8>, AllocError>
    requires { 0 < cut }
    ensures { IfOk result (λ text. text.items ≡ report_of bytes.now) }
{
    let mut telling = MessagePrinter::new(alloc);
    let mut rest = bytes;
    'pieces: while !rest.is_empty() {
        let (piece, behind) = rest.split_at(rest.len().min(cut));
        telling.feed(piece)?;
        rest = behind;
    }
    telling.end()
}

/// Reads a call's DATA bytes as hexadecimal text, to the end of the input, and then writes the
/// report on their messages. `cut` is the length of the pieces in which the bytes are taken.
pub fn run_body<R: ConnRead, W: ConnWrite>(
    alloc: Global,
    input: &mut R,
    cut: usize,
    output: &mut W,
) -> Result<(), RunFault>
    requires { 0 < cut }
    ensures ok { OnOk result (Reports (R.remaining input.old) (R.remaining input.new)
        (W.contents output.old) (W.contents output.new)) }
    ensures err { IfErr result
        (λ fault. Leaves fault (R.remaining input.old) (R.remaining input.new)
        (W.contents output.old) (W.contents output.new)) }
    ensures unmarked { OnOk result ((R.failed input.new ≡ R.failed input.old)
        × (W.failed output.new ≡ W.failed output.old)) }
    ensures marks { IfErr result (λ fault. Marks fault (R.failed input.old) (R.failed input.new)
        (W.failed output.old) (W.failed output.new)) }
{
    let text = read_all(alloc, input)?;
    let bytes = bytes_of(alloc, text)?;
    let report = report_of(alloc, bytes.as_slice(), cut)?;
    write_all(output, report.as_slice())?;
    Ok(())
}
