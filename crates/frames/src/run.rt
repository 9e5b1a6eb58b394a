//! The command `frames`.

use crate::captured::print_capture;
use crate::fault::FramesFault;
use crate::file_content::{FileContent, both_of, given_by};
use crate::printing::Printing;
use device::{ConnRead, ConnWrite, read_all};
use std::alloc::Global;
use std::fs;
use std::rt::Files;
use trace::{Form, SentBytes};
use words::FramesWords;

/// Prints the frames in the files that the words name, or else in the input.
///
/// # Errors
///
/// `ReadFailed` where a file can't be read; standard error says which, and why. Where the end of a
/// capture can't be read, `BadInput` comes once the frames before it are printed.
pub fn run_frames<R, I, W>(
    rt: &R,
    words: &FramesWords<'_>,
    input: &mut I,
    output: &mut W,
) -> Result<(), FramesFault>
where
    R: Files + Eprint + AllocGlobal,
    I: ConnRead,
    W: ConnWrite,
{
    let alloc = rt.alloc();
    let form = if words.is_full {
        Form::Full
    } else {
        Form::Short
    };
    let file = match words.files.as_slice() {
        [] => read_all(alloc, input)?,
        [file] => read_file(rt, *file)?,
        [first, second, ..] => {
            let (first, second) = (read_file(rt, *first)?, read_file(rt, *second)?);
            let both = both_of(alloc, first.as_slice(), second.as_slice(), words.side)?;
            return print_pieces(alloc, both.as_slice(), form, output);
        }
    };
    match given_by(alloc, file.as_slice(), words.side)? {
        FileContent::Packets(packets, fault) => {
            print_capture(alloc, packets.as_slice(), form, output)?;
            match fault {
                Some(fault) => Err(FramesFault::BadInput(fault)),
                None => Ok(()),
            }
        }
        FileContent::Pieces(pieces) => print_pieces(alloc, pieces.as_slice(), form, output),
    }
}

fn read_file<R: Files + Eprint + AllocGlobal>(rt: &R, name: &str) -> Result<Vec<u8>, FramesFault> {
    match fs::read(rt, name) {
        Ok(bytes) => Ok(bytes),
        Err(why) => {
            // The exit status reports it even if nothing can be written here.
            let _said = eprintln!(rt; "interop: {name} can't be read: {why}");
            Err(FramesFault::ReadFailed)
        }
    }
}

/// Prints the frames of what the sides of one connection sent.
fn print_pieces<W: ConnWrite>(
    alloc: Global,
    pieces: &[SentBytes],
    form: Form,
    output: &mut W,
) -> Result<(), FramesFault> {
    let mut printing = Printing::new(alloc, 1, form);
    let mut last = 0;
    for piece in pieces {
        last = piece.time;
        printing.sent(last, piece.side, piece.bytes.as_slice(), output)?;
    }
    printing.end(last, output)
}
