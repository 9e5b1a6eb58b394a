//! A case as its text has it.

use crate::fault::WireFault;
use crate::group::Group;
use results::Level;
use std::alloc::{AllocError, Global};

/// A case.
#[derive(Clone, Copy)]
pub struct Case {
    pub group: Group,
    /// Its place in the group, from 1 on.
    pub number: u32,
    pub title: &'static str,
    pub level: Level,
    /// Where the standard speaks of it.
    pub section: &'static str,
    /// The lines of its steps and lawful reactions.
    pub script: &'static str,
}

impl Case {
    /// Its name, as a command line has it: its group and its number.
    pub fn name(&self, alloc: Global) -> Result<String, AllocError> {
        let group = self.group.name();
        let number = self.number;
        format!(in alloc; "{group}/{number}")
    }

    /// Whether it opens many calls at once: no other is to run beside it.
    pub fn opens_many(&self) -> bool {
        for line in self.script.lines() {
            let line = line.trim();
            if line.starts_with("many ") || line.starts_with("crowd ") {
                return true;
            }
        }
        false
    }

    /// The case that a text has: its title, its level and section, and then its lines.
    fn read(group: Group, number: u32, text: &'static str) -> Option<Case> {
        let (title, rest) = text.split_once('\n')?;
        let (about, script) = rest.split_once('\n')?;
        let (level, section) = about.trim().split_once(' ')?;
        Some(Case {
            group,
            number,
            title: title.trim(),
            level: Level::named(level)?,
            section,
            script,
        })
    }
}

/// The cases of a group, in their order.
pub fn cases_of(alloc: Global, group: Group) -> Result<Vec<Case>, WireFault> {
    let mut cases = Vec::new(alloc);
    for text in group.texts() {
        push_cases(group, text, &mut cases)?;
    }
    Ok(cases)
}

/// Adds the cases of a text, which stand with a blank line between them.
fn push_cases(group: Group, text: &'static str, cases: &mut Vec<Case>) -> Result<(), WireFault> {
    let mut rest = text.trim();
    for _ in 0..u64::MAX {
        let (first, behind) = match rest.split_once("\n\n") {
            Some((first, behind)) => (first, behind),
            None => (rest, ""),
        };
        let number = u32::try_from(cases.len()).unwrap_or(u32::MAX);
        let case = Case::read(group, number.saturating_add(1), first).ok_or(WireFault::BadRow)?;
        cases.push(case)?;
        if behind.is_empty() {
            return Ok(());
        }
        rest = behind;
    }
    Ok(())
}
