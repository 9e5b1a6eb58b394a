//! Rows of the faults of all four crates: their numbers, names and texts.

use super::rows::Subject;
use anyhow::{Context, Result, bail};
use handlers::MethodFault;
use lpm::LpmFault;
use pbwire::WireFault;
use std::alloc::Global;
use std::fmt::{Debug, Display};
use testproto::ProtoFault;

const LPM_FAULTS: [LpmFault; 5] = [
    LpmFault::Compressed,
    LpmFault::BadFlag,
    LpmFault::TooLong,
    LpmFault::CutAtEnd,
    LpmFault::OutOfMemory,
];

const WIRE_FAULTS: [WireFault; 5] = [
    WireFault::Truncated,
    WireFault::VarintTooLong,
    WireFault::BadTag,
    WireFault::Group,
    WireFault::OutOfMemory,
];

const PROTO_FAULTS: [ProtoFault; 3] = [
    ProtoFault::Wire(WireFault::BadTag),
    ProtoFault::NotUtf8,
    ProtoFault::OutOfMemory,
];

/// The name and the text of a fault.
fn text_of<F: Debug + Display>(alloc: Global, fault: &F) -> Result<String> {
    Ok(format!(in alloc; "{fault:?}: {fault}")?)
}

/// The text of the fault of a crate that has this number.
fn numbered_text(alloc: Global, library: &str, code: u32) -> Result<String> {
    match library {
        "lpm" => {
            let fault = LPM_FAULTS.iter().find(|fault| fault.code() == code);
            text_of(alloc, fault.context("no fault has the number")?)
        }
        "pbwire" => {
            let fault = WIRE_FAULTS.iter().find(|fault| fault.code() == code);
            text_of(alloc, fault.context("no fault has the number")?)
        }
        "testproto" => {
            let fault = PROTO_FAULTS.iter().find(|fault| fault.code() == code);
            text_of(alloc, fault.context("no fault has the number")?)
        }
        "handlers" if MethodFault::OutOfMemory.code() == code => {
            text_of(alloc, &MethodFault::OutOfMemory)
        }
        _ => bail!("no fault of {library} has the number"),
    }
}

/// A crate and the number of a fault.
#[derive(Drop)]
pub struct Faults;

impl Subject for Faults {
    fn answer(&self, alloc: Global, given: &str) -> Result<String> {
        let (library, code) = given.split_once(' ').context("a crate and a number")?;
        numbered_text(alloc, library, code.parse::<u32>()?)
    }
}
