//! The bytes of a case that failed, as hexadecimal text: a file of those that were sent, and one of
//! those that were read.

ghost use Rattle.std.specs.Prelude.{◌≡◌};
ghost use Rattle.sinks.specs.Told.{is_saved};

use crate::fault::SinkFault;
use crate::files::write;
use results::{Outcome, Verdict};
use std::alloc::{AllocError, Global};
use std::rt::Files;

/// Whether the bytes of a case are kept.
pub fn is_saved(outcome: &Outcome) -> bool
    ensures { result ≡ is_saved outcome.now.verdict }
{
    matches!(
        outcome.verdict,
        Verdict::Failed | Verdict::Unsteady | Verdict::NotTested
    )
}

/// Writes the bytes of a case that failed into files of a directory: `NAME.sent.hex` and
/// `NAME.read.hex`, with `-` for `/`.
pub fn save<R: Files + Eprint>(
    rt: &R,
    alloc: Global,
    directory: &str,
    outcome: &Outcome,
) -> Result<(), SinkFault> {
    if !is_saved(outcome) {
        return Ok(());
    }
    if let Some(sent) = &outcome.sent {
        let name = name_of(alloc, directory, outcome.name.as_str(), "sent")?;
        write(
            rt,
            name.as_str(),
            hex_of(alloc, sent.as_slice())?.as_bytes(),
        )?;
    }
    if let Some(read) = &outcome.read {
        let name = name_of(alloc, directory, outcome.name.as_str(), "read")?;
        write(
            rt,
            name.as_str(),
            hex_of(alloc, read.as_slice())?.as_bytes(),
        )?;
    }
    Ok(())
}

/// The name of a file with bytes of a case.
fn name_of(alloc: Global, directory: &str, case: &str, which: &str) -> Result<String, AllocError> {
    let mut name = String::from_str(alloc, directory)?;
    name.push_str("/")?;
    for character in case.chars() {
        name.push(if character == '/' { '-' } else { character })?;
    }
    write!(name, ".{which}.hex")?;
    Ok(name)
}

/// Bytes as hexadecimal text, with a line end, for `interop parts`.
fn hex_of(alloc: Global, bytes: &[u8]) -> Result<String, AllocError> {
    let mut text = hex::encode(alloc, bytes)?;
    text.push('\n')?;
    Ok(text)
}
