//! Which cases there are.

use crate::case::{Case, cases_of};
use crate::content::{Reading, SAMPLE};
use crate::fault::WireFault;
use crate::group::Group;
use crate::report::push_entry;
use crate::step::{has_control, read_script};
use device::{ConnWrite, write_all};
use std::alloc::Global;

/// Prints a line of each case that there is: its name, title, level and section.
///
/// # Errors
///
/// `BadRow` where the lines of a case can't be read.
pub fn list<W: ConnWrite>(alloc: Global, output: &mut W) -> Result<(), WireFault> {
    for group in Group::ALL {
        let cases = cases_of(alloc, group)?;
        for case in cases.as_slice() {
            let mut text = String::new(alloc);
            push_entry(&mut text, case)?;
            for is_control in [false, has_control(case.script)] {
                let announced = SAMPLE;
                let reading = Reading {
                    announced,
                    is_control,
                };
                let _script = read_script(alloc, case.script, &reading)?;
            }
            write_all(output, text.as_bytes())?;
        }
    }
    Ok(())
}

/// All cases, in their order.
pub fn every_case(alloc: Global) -> Result<Vec<Case>, WireFault> {
    let mut cases = Vec::new(alloc);
    for group in Group::ALL {
        cases.extend_from_slice(cases_of(alloc, group)?.as_slice())?;
    }
    Ok(cases)
}
