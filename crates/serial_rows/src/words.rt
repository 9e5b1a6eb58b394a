//! What a row says of the runs of its connection.

use crate::runs::Course;
use anyhow::{Context, Result, ensure};
use callparts::HOME;
use h2frame::StreamId;

/// How many orders may wait for the writer, if a row doesn't say: as in the server.
const ORDERS: usize = 1024;

/// The words that a row may have.
const NAMES: [&str; 20] = [
    "recorded", "alone", "in_order", "rows", "halves", "looks", "workers", "from", "seeds",
    "fails", "stream", "resets", "jump", "most", "breaks", "pieces", "orders", "home", "lacks",
    "worked",
];

/// The words of a row: the name of its connection, words with `=` and without, and after a `:`
/// steps.
#[derive(Clone, Copy)]
pub struct Words<'a> {
    pub name: &'a str,
    options: &'a str,
    pub steps: &'a str,
}

/// A word, and what follows its `=`.
fn parts_of(option: &str) -> (&str, &str) {
    option.split_once('=').unwrap_or((option, ""))
}

impl<'a> Words<'a> {
    pub fn read(text: &'a str) -> Result<Words<'a>> {
        let (name, rest) = text.split_once(' ').unwrap_or((text, ""));
        let (options, steps) = rest.split_once(':').unwrap_or((rest, ""));
        for option in options.split_ascii_whitespace() {
            let (word, _) = parts_of(option);
            ensure!(
                NAMES.iter().any(|name| *name == word),
                "{word} says nothing of a run"
            );
        }
        Ok(Words {
            name,
            options,
            steps,
        })
    }

    /// What follows this word and its `=`; nothing where the row hasn't the word.
    fn value(&self, name: &str) -> Option<&'a str> {
        let mut options = self.options.split_ascii_whitespace().map(parts_of);
        Some(options.find(|(word, _)| *word == name)?.1)
    }

    /// Whether the row has this word.
    pub fn has(&self, name: &str) -> bool {
        self.value(name).is_some()
    }

    /// The number of this word.
    pub fn number(&self, name: &str) -> Result<Option<u64>> {
        match self.value(name) {
            Some(value) => Ok(Some(value.parse::<u64>().context("no number")?)),
            None => Ok(None),
        }
    }

    fn size(&self, name: &str, size: usize) -> Result<usize> {
        Ok(self.number(name)?.map_or(size, |number| number as usize))
    }

    /// The stream of this word, or 0.
    pub fn stream(&self, name: &str) -> Result<StreamId> {
        Ok(u32::try_from(self.number(name)?.unwrap_or(0))?)
    }

    /// The stream that may differ, or 0.
    pub fn disturbed(&self) -> Result<StreamId> {
        Ok(self.stream("resets")?.max(self.stream("stream")?))
    }

    /// How the plain run goes.
    pub fn course(&self) -> Result<Course<'a>> {
        let lacks = match self.value("lacks").and_then(|call| call.split_once('@')) {
            Some((id, turns)) => Some((id.parse::<u32>()?, turns.parse::<u64>()?)),
            None => None,
        };
        Ok(Course {
            steps: "",
            seed: None,
            most: self.size("most", usize::MAX)?,
            fails_at: self.number("breaks")?,
            pieces: self.size("pieces", 1)?,
            orders: self.size("orders", ORDERS)?,
            home: self.size("home", HOME)?,
            lacks,
            is_worked: false,
            reset: None,
            jump: None,
        })
    }
}
