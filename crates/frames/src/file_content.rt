//! What files have.

ghost use Rattle.std.specs.Prelude.{◌≡◌, IfOk};
ghost use Rattle.frames.specs.Given.{AreBoth, side_of};

use crate::fault::FramesFault;
use capture::{CaptureFault, Packet, Side, read};
use std::alloc::Global;
use trace::{InputFault, SentBytes, sent_of};
use words::Side as NamedSide;

/// What a capture in microseconds begins with.
const MAGIC: &[u8] = b"\xd4\xc3\xb2\xa1";

/// The bytes before a capture's first record.
const FILE_HEAD: usize = 24;

/// What a file has.
#[derive(Drop)]
pub enum FileContent {
    /// The packets of a capture, of any number of connections, and why there are no more of them,
    /// where its end can't be read.
    Packets(Vec<Packet>, Option<InputFault>),
    /// What the sides of one connection sent.
    Pieces(Vec<SentBytes>),
}

/// What a file has. Where it has one side alone, it is this one, if one is named.
pub fn given_by(
    alloc: Global,
    file: &[u8],
    named: Option<NamedSide>,
) -> Result<FileContent, FramesFault> {
    if file.starts_with(MAGIC) {
        return packets_of(alloc, file);
    }
    let mut pieces = sent_of(alloc, file)?;
    if pieces.len() == 1 {
        name_first(&mut pieces, named);
    }
    Ok(FileContent::Pieces(pieces))
}

/// The packets of a capture up to the first record that can't be read.
fn packets_of(alloc: Global, file: &[u8]) -> Result<FileContent, FramesFault> {
    let fault = match read(alloc, file) {
        Ok(packets) => return Ok(FileContent::Packets(packets, None)),
        Err(fault) => fault,
    };
    let CaptureFault::Record(at) = fault else {
        return Err(FramesFault::from(fault));
    };
    let whole = file.get(..FILE_HEAD.saturating_add(at)).unwrap_or(file);
    let packets = read(alloc, whole)?;
    Ok(FileContent::Packets(packets, Some(InputFault::Capture(fault))))
}

/// What two files have, which have a side each: the client's begins with its preface, or it is said
/// which the first has.
///
/// # Errors
///
/// `SameSide` where that isn't said, and both begin with the preface, or neither.
pub fn both_of(
    alloc: Global,
    first: &[u8],
    second: &[u8],
    named: Option<NamedSide>,
) -> Result<Vec<SentBytes>, FramesFault>
    ensures { IfOk result (λ both. AreBoth both.items) }
{
    let mut first = one_of(alloc, first)?;
    let mut second = one_of(alloc, second)?;
    let side = match named {
        Some(named) => side_of(named),
        None if first.side == second.side => return Err(FramesFault::SameSide),
        None => first.side,
    };
    first.side = side;
    second.side = side.other();
    let mut both = Vec::new(alloc);
    match side {
        Side::Client => {
            both.push(first)?;
            both.push(second)?;
        }
        Side::Server => {
            both.push(second)?;
            both.push(first)?;
        }
    }
    Ok(both)
}

/// What the one side sent that a file has.
fn one_of(alloc: Global, file: &[u8]) -> Result<SentBytes, FramesFault> {
    let mut pieces = sent_of(alloc, file)?;
    let last = pieces.pop();
    match last {
        Some(one) => {
            if pieces.is_empty() {
                Ok(one)
            } else {
                Err(FramesFault::BothSides)
            }
        }
        None => Err(FramesFault::BothSides),
    }
}

/// Notes who sent the first of the pieces, if that is named.
fn name_first(pieces: &mut Vec<SentBytes>, named: Option<NamedSide>) {
    if let (Some(named), Some(first)) = (named, pieces.first_mut()) {
        first.side = side_of(named);
    }
}

fn side_of(named: NamedSide) -> Side
    ensures { result ≡ side_of named }
{
    match named {
        NamedSide::Client => Side::Client,
        NamedSide::Server => Side::Server,
    }
}
