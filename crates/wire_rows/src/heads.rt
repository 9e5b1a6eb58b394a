//! Heads of calls (gRPC over HTTP/2, "Requests"): `heads-clients.rows`, `heads-malformed.rows`,
//! `heads-read.rows`.

use crate::text::{fields_of, push_bytes};
use anyhow::Result;
use callhead::{CallHead, Encoding, HeadFault};
use lists::Field;
use rows::GivenRow;
use std::alloc::Global;

/// Fields, and what the head of a call says that they are; or `plain = FIELDS`, which sets what a
/// part `plain` stands for.
pub fn read(
    alloc: Global,
    plain: &mut Vec<Field>,
    given: GivenRow<'_>,
    answer: &mut String,
) -> Result<()> {
    if let Some(fields) = given.text.strip_prefix("plain = ") {
        *plain = fields_of(alloc, fields, &[])?;
        answer.push_str("set")?;
        return Ok(());
    }
    let fields = fields_of(alloc, given.text, plain.as_slice())?;
    match CallHead::read(alloc, fields.as_slice()) {
        Ok(head) => {
            let mut said = Vec::new(alloc);
            push_head(alloc, &mut said, &head)?;
            push_bytes(alloc, answer, said.as_slice(), given.wanted)?;
        }
        Err(HeadFault::OutOfMemory) => return Err(HeadFault::OutOfMemory.into()),
        Err(fault) => write!(answer, "fault {fault:?}")?,
    }
    Ok(())
}

/// The path, and where the head has them the timeout in nanoseconds, `compressed`, the echoes for
/// the head of the response, and those for the trailers in hexadecimal digits, with `|` after each
/// echo.
fn push_head(alloc: Global, said: &mut Vec<u8>, head: &CallHead) -> Result<()> {
    said.extend_from_slice(b"path ")?;
    said.extend_from_slice(head.path.as_slice())?;
    if let Some(timeout) = head.timeout {
        said.extend_from_slice(format!(in alloc; "; timeout {timeout}")?.as_bytes())?;
    }
    if head.encoding != Encoding::Identity {
        said.extend_from_slice(b"; compressed")?;
    }
    let mut before = "; initial ";
    for echo in head.echo_initial.as_slice() {
        said.extend_from_slice(format!(in alloc; "{before}{echo}|")?.as_bytes())?;
        before = "";
    }
    let mut before = "; trailing ";
    for echo in head.echo_trailing.as_slice() {
        let digits = hex::encode(alloc, echo.as_slice())?;
        said.extend_from_slice(format!(in alloc; "{before}{digits}|")?.as_bytes())?;
        before = "";
    }
    Ok(())
}
