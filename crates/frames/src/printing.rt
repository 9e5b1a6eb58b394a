//! Lines of frames.

use crate::fault::FramesFault;
use capture::Side;
use device::{ConnWrite, write_all};
use std::alloc::Global;
use trace::{Form, Line, ShownLine, Trace};

/// The microseconds of a second.
const SECOND: u64 = 1_000_000;

/// How many bytes a trace is shown at once.
const PIECE: usize = 65_536;

/// A connection whose frames are printed.
#[derive(Drop)]
pub struct Printing {
    alloc: Global,
    /// Which connection it is, from 1 on.
    number: u64,
    form: Form,
    trace: Trace,
}

impl Printing {
    /// A connection of which nothing was sent.
    pub fn new(alloc: Global, number: u64, form: Form) -> Printing {
        Printing {
            alloc,
            number,
            form,
            trace: Trace::new(alloc),
        }
    }

    /// A side has sent bytes.
    pub fn sent<W: ConnWrite>(
        &mut self,
        time: u64,
        side: Side,
        bytes: &[u8],
        output: &mut W,
    ) -> Result<(), FramesFault> {
        for piece in bytes.chunks(PIECE) {
            let lines = self.trace.sent(time, side, piece)?;
            print(self.alloc, self.number, self.form, lines.as_slice(), output)?;
        }
        Ok(())
    }

    /// The connection began before what is known of it.
    pub fn unbegun<W: ConnWrite>(&mut self, output: &mut W) -> Result<(), FramesFault> {
        let number = self.number;
        let mut text = String::new(self.alloc);
        writeln!(
            text,
            "conn {number} began before the capture: nothing is told of it"
        )?;
        write_all(output, text.as_bytes())?;
        Ok(())
    }

    /// Bytes of a side are missing, by their number.
    pub fn missing<W: ConnWrite>(
        &mut self,
        time: u64,
        side: Side,
        count: u32,
        output: &mut W,
    ) -> Result<(), FramesFault> {
        let number = self.number;
        let (seconds, micros) = (time / SECOND, time % SECOND);
        let mut text = String::new(self.alloc);
        writeln!(
            text,
            "conn {number} {seconds}.{micros:06} {side}: {count} bytes are missing here, no more is told of it"
        )?;
        write_all(output, text.as_bytes())?;
        Ok(())
    }

    /// No more come.
    pub fn end<W: ConnWrite>(self, time: u64, output: &mut W) -> Result<(), FramesFault> {
        let Printing {
            alloc,
            number,
            form,
            trace,
        } = self;
        let lines = trace.end(time)?;
        print(alloc, number, form, lines.as_slice(), output)
    }
}

fn print<W: ConnWrite>(
    alloc: Global,
    number: u64,
    form: Form,
    lines: &[Line],
    output: &mut W,
) -> Result<(), FramesFault> {
    let mut text = String::new(alloc);
    for line in lines {
        let shown = ShownLine { line, form };
        writeln!(text, "conn {number} {shown}")?;
    }
    write_all(output, text.as_bytes())?;
    Ok(())
}
