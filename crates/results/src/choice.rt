//! Which cases are run.

ghost use Rattle.std.specs.Prelude.{◌≡◌, ◌≢◌, ◌↔◌, [], IfErr, IfOk, Any, IfNone, IfSome, IsTrue};
ghost use Rattle.results.specs.Choices.{
  AllChoose,
  ArePlaces,
  Explains,
  IsChosen,
  IsChosenBy,
  IsFirstIdle,
  IsOfLevel,
  rank,
};
ghost use Rattle.results.specs.declared.choice.ChoiceFault.TheVariants.{OutOfMemory};

use crate::pattern::is_match;
use crate::words::Level;
use std::alloc::{AllocError, AllocFailed, Global};
use std::fmt;

/// A case that can be chosen.
#[derive(Clone, Copy)]
pub struct Entry<'a> {
    pub name: &'a str,
    pub level: Option<Level>,
    /// Whether the word `all` means it too.
    pub is_in_all: bool,
}

/// What a command line says of the cases that are run.
#[derive(Clone, Copy)]
pub struct Choice<'w, 'a> {
    /// Words of which one at least has to choose a case: `all`, or what `is_match` takes.
    pub words: &'w [&'a str],
    /// Words of which none may choose it.
    pub skip: &'w [&'a str],
    /// The level that binds least; where there is one, a case of no level is chosen too.
    pub level: Option<Level>,
}

/// Why no cases are chosen.
#[derive(Clone, Copy, PartialEq, Eq)]
pub enum ChoiceFault<'a> {
    /// This word chooses no case.
    NoCase(&'a str),
    /// The words that skip cases, and the level, leave none.
    NothingLeft,
    /// No memory was to be had.
    OutOfMemory,
}

impl<'a> From<AllocError> for ChoiceFault<'a> {
    ghost from_gives = { λ _ fault. fault ≡ OutOfMemory };

    fn from(_error: AllocError) -> ChoiceFault<'a> {
        ChoiceFault::OutOfMemory
    }
}

impl<'a, T: Drop> From<AllocFailed<T>> for ChoiceFault<'a> {
    ghost from_gives = { λ _ fault. fault ≡ OutOfMemory };

    fn from(_error: AllocFailed<T>) -> ChoiceFault<'a> {
        ChoiceFault::OutOfMemory
    }
}

impl<'a> fmt::Display for ChoiceFault<'a> {
    fn fmt<W: fmt::Write>(&self, f: &mut fmt::Formatter<W>) -> fmt::Result {
        match *self {
            ChoiceFault::NoCase(word) => write!(f, "there is no case {word}: --list prints all"),
            ChoiceFault::NothingLeft => f.write_str("--skip and --level leave no case"),
            ChoiceFault::OutOfMemory => f.write_str("no memory was to be had"),
        }
    }
}

impl<'a> Entry<'a> {
    /// Whether a word chooses it.
    pub fn is_chosen_by(&self, word: &str) -> bool
        ensures { IsTrue result ↔ IsChosenBy self.now word.now }
    {
        if word == "all" {
            self.is_in_all
        } else {
            is_match(word, self.name)
        }
    }

    /// Whether one of some words chooses it.
    fn is_chosen_by_any(&self, words: &[&str]) -> bool
        ensures { IsTrue result ↔ Any (λ word. IsChosenBy self.now word.now) words.now }
    {
        words.iter().any(|word| self.is_chosen_by(word))
    }

    /// Whether it binds at least as much as a level.
    fn is_of(&self, least: Option<Level>) -> bool
        ensures { IsTrue result ↔ IsOfLevel least self.now.level }
    {
        match (least, self.level) {
            (Some(least), Some(level)) => rank(level) <= rank(least),
            _ => true,
        }
    }
}

/// The place of a level among all, the most binding first.
fn rank(level: Level) -> u8
    ensures { result ≡ rank level }
{
    match level {
        Level::Must => 0,
        Level::Should => 1,
        Level::Ours => 2,
    }
}

impl<'w, 'a> Choice<'w, 'a> {
    /// Whether it chooses a case.
    pub fn has(&self, entry: &Entry<'_>) -> bool
        ensures { IsTrue result ↔ IsChosen self.now entry.now }
    {
        entry.is_chosen_by_any(self.words)
            && !entry.is_chosen_by_any(self.skip)
            && entry.is_of(self.level)
    }
}

/// Whether a word chooses a case.
fn chooses_any(word: &str, entries: &[Entry<'_>]) -> bool
    ensures { IsTrue result ↔ Any (λ entry. IsChosenBy entry word.now) entries.now }
{
    entries.iter().any(|entry| entry.is_chosen_by(word))
}

/// The first of some words that chooses no case.
fn idle_word<'a>(words: &[&'a str], entries: &[Entry<'_>]) -> Option<&'a str>
    ensures some { IfSome result (λ word. IsFirstIdle entries.now words.now word.now) }
    ensures none { IfNone result (AllChoose entries.now words.now) }
{
    for word in words {
        if !chooses_any(word, entries) {
            return Some(word);
        }
    }
    None
}

/// The places of the cases that are chosen, in their order.
///
/// # Errors
///
/// `NoCase` with the first word that chooses no case, of those that choose and then of those that
/// skip; `NothingLeft` where no case is left.
pub fn chosen<'a>(
    alloc: Global,
    entries: &[Entry<'_>],
    choice: Choice<'_, 'a>,
) -> Result<Vec<usize>, ChoiceFault<'a>>
    ensures places { IfOk result (λ places. ArePlaces entries.now choice.entry places.items) }
    ensures some_left { IfOk result (λ places. places.items ≢ []) }
    ensures no_idle_word { IfOk result (λ _.
        AllChoose entries.now choice.entry.words.now
        × AllChoose entries.now choice.entry.skip.now) }
    ensures refused { IfErr result (Explains entries.now choice.entry) }
{
    if let Some(word) = idle_word(choice.words, entries) {
        return Err(ChoiceFault::NoCase(word));
    }
    if let Some(word) = idle_word(choice.skip, entries) {
        return Err(ChoiceFault::NoCase(word));
    }
    let mut places = Vec::new(alloc);
    for (place, entry) in entries.iter().enumerate() {
        if choice.has(entry) {
            places.push(place)?;
        }
    }
    if places.is_empty() {
        return Err(ChoiceFault::NothingLeft);
    }
    Ok(places)
}
