//! The list of known failures: a file that names the cases that may fail, a line each.
//!
//! A line is blank, or a comment that begins with `#`, or a name, a space, and the reason why it
//! may fail. The reason may begin with the word `sometimes`: then the case may pass too.

ghost use Rattle.std.specs.Prelude.{
  ◌≡◌,
  ◌==◌,
  [],
  ◌∷◌,
  ◌++◌,
  IfErr,
  IfOk,
  IfNone,
  IfSome,
  OnOk,
  find,
  map,
  option_map,
  string_bytes,
};
ghost use Rattle.std.specs.List.{after_first, before_first};
ghost use Rattle.std.specs.Str.Lines.{lines};
ghost use Rattle.results.specs.KnownList.{
  AreGood,
  Explains,
  IsFaultOf,
  IsRightAfter,
  IsWrongAfter,
  after_word,
  entries,
  entry,
  entry_by,
  entry_of,
  first_word,
  has_name,
  is_stray,
  said,
};
ghost use Rattle.results.specs.declared.known_failure.KnownFault.TheVariants.{OutOfMemory};

use std::alloc::{AllocError, AllocFailed, Global};
use std::fmt;

/// The word of a case that may pass too.
const SOMETIMES: &str = "sometimes";

/// A case that may fail.
#[derive(Drop)]
pub struct KnownFailure {
    pub name: String,
    /// Why, in one line.
    pub reason: String,
    /// Whether it may pass too.
    pub is_unsteady: bool,
}

/// What is wrong with a line.
#[derive(Clone, Copy, PartialEq, Eq)]
pub enum KnownReason {
    /// No reason stands after the name.
    NoReason,
    /// The name stands in a line before.
    Twice,
}

/// Why a list can't be read.
#[derive(Clone, Copy, PartialEq, Eq)]
pub enum KnownFault<'a> {
    /// A line is wrong: its number, from 1 on, and the name that it begins with.
    BadLine {
        line: usize,
        name: &'a str,
        reason: KnownReason,
    },
    /// No memory was to be had.
    OutOfMemory,
}

impl<'a> From<AllocError> for KnownFault<'a> {
    ghost from_gives = { λ _ fault. fault ≡ OutOfMemory };

    fn from(_error: AllocError) -> KnownFault<'a> {
        KnownFault::OutOfMemory
    }
}

impl<'a, T: Drop> From<AllocFailed<T>> for KnownFault<'a> {
    ghost from_gives = { λ _ fault. fault ≡ OutOfMemory };

    fn from(_error: AllocFailed<T>) -> KnownFault<'a> {
        KnownFault::OutOfMemory
    }
}

impl<'a> fmt::Display for KnownFault<'a> {
    fn fmt<W: fmt::Write>(&self, f: &mut fmt::Formatter<W>) -> fmt::Result {
        match *self {
            KnownFault::BadLine { line, name, reason } => match reason {
                KnownReason::NoReason => write!(f, "line {line}: no reason stands after {name}"),
                KnownReason::Twice => write!(f, "line {line}: {name} stands in a line before"),
            },
            KnownFault::OutOfMemory => f.write_str("no memory was to be had"),
        }
    }
}

/// What a line says that names a case.
#[derive(Clone, Copy)]
struct KnownLine<'a> {
    name: &'a str,
    reason: &'a str,
    is_unsteady: bool,
}

impl KnownLine<'_> {
    /// The known failure that it names.
    fn known(self, alloc: Global) -> Result<KnownFailure, AllocError>
        ensures { IfOk result (λ known. entry known ≡ said self.entry) }
    {
        Ok(KnownFailure {
            name: String::from_str(alloc, self.name)?,
            reason: String::from_str(alloc, self.reason)?,
            is_unsteady: self.is_unsteady,
        })
    }
}

/// What stands before the first space, and what stands after it.
fn cut(text: &str) -> (&str, &str)
    ensures front { result.0.now ≡ before_first (λ byte. byte == 32) text.now }
    ensures back { result.1.now ≡ after_first (λ byte. byte == 32) text.now }
{
    match text.split_once(' ') {
        Some(parts) => parts,
        None => (text, ""),
    }
}

/// The first word, and what stands after it, without white space round it.
fn split_word(text: &str) -> (&str, &str)
    ensures word { result.0.now ≡ first_word text.now }
    ensures rest { result.1.now ≡ after_word text.now }
{
    let (word, rest) = cut(text);
    (word, rest.trim())
}

/// What a name and a reason say.
fn said_by<'a>(name: &'a str, reason: &'a str) -> KnownLine<'a>
    ensures { said result ≡ entry_by name.now reason.now }
{
    let (word, rest) = split_word(reason);
    if word == SOMETIMES {
        KnownLine {
            name,
            reason: rest,
            is_unsteady: true,
        }
    } else {
        KnownLine {
            name,
            reason,
            is_unsteady: false,
        }
    }
}

/// What a line says, where it names a case.
fn said_in(line: &str) -> Option<KnownLine<'_>>
    ensures { option_map said result ≡ entry_of line.now }
{
    let line = line.trim();
    if line.is_empty() || line.starts_with('#') {
        return None;
    }
    let (name, reason) = split_word(line);
    Some(said_by(name, reason))
}

/// Why a line is wrong after these failures, if it is.
fn fault_of(all: &[KnownFailure], next: KnownLine<'_>) -> Option<KnownReason>
    ensures some { IfSome result (IsWrongAfter (map entry all.now) (said next.entry)) }
    ensures none { IfNone result (IsRightAfter (map entry all.now) (said next.entry)) }
{
    if next.reason.is_empty() {
        Some(KnownReason::NoReason)
    } else if known_named(all, next.name).is_some() {
        Some(KnownReason::Twice)
    } else {
        None
    }
}

/// The known failures of a list.
///
/// # Errors
///
/// `BadLine` of the first line that has no reason, or whose name stands before.
pub fn read_known<'a>(alloc: Global, text: &'a str) -> Result<Vec<KnownFailure>, KnownFault<'a>>
    ensures entries { IfOk result (λ all. map entry all.items ≡ entries (lines text.now)) }
    ensures good { IfOk result (λ all. AreGood (map entry all.items)) }
    ensures refused { IfErr result (Explains (lines text.now)) }
{
    let all_lines = lines_of(alloc, text)?;
    read_lines(alloc, all_lines.as_slice())
}

/// The lines of a text, without their ends.
fn lines_of<'a>(alloc: Global, text: &'a str) -> Result<Vec<&'a str>, AllocError>
    ensures { IfOk result (λ all. map (λ line. line.now) all.items ≡ lines text.now) }
{
    text.lines().collect(alloc)
}

/// The known failures of some lines.
fn read_lines<'a>(alloc: Global, all_lines: &[&'a str]) -> Result<Vec<KnownFailure>, KnownFault<'a>>
    ensures entries { IfOk result (λ all. map entry all.items
        ≡ entries (map (λ line. line.now) all_lines.now)) }
    ensures good { IfOk result (λ all. AreGood (map entry all.items)) }
    ensures refused { IfErr result (Explains (map (λ line. line.now) all_lines.now)) }
{
    let mut all = Vec::new(alloc);
    for (place, line) in all_lines.iter().enumerate() {
        push_named(alloc, &mut all, place + 1, line)?;
    }
    Ok(all)
}

/// Adds the known failure that the line with this number names, if it names one.
fn push_named<'a>(
    alloc: Global,
    all: &mut Vec<KnownFailure>,
    number: usize,
    line: &'a str,
) -> Result<(), KnownFault<'a>>
    ensures entries { OnOk result (map entry all.new.items
        ≡ map entry all.old.items ++ entries (line.now ∷ [])) }
    ensures good { OnOk result
        (AreGood (map entry all.old.items) → AreGood (map entry all.new.items)) }
    ensures refused { IfErr result (IsFaultOf (map entry all.old.items) number line.now) }
{
    let Some(said) = said_in(line) else {
        return Ok(());
    };
    if let Some(reason) = fault_of(all.as_slice(), said) {
        return Err(KnownFault::BadLine {
            line: number,
            name: said.name,
            reason,
        });
    }
    all.push(said.known(alloc)?)?;
    Ok(())
}

/// The known failure of this name.
pub fn known_named<'k>(all: &'k [KnownFailure], name: &str) -> Option<&'k KnownFailure>
    ensures { option_map (λ known. known.now) result ≡ find (has_name name.now) all.now }
{
    all.iter().find(|known| known.name.as_str() == name)
}

/// Whether the name of a known failure isn't among these.
fn is_stray(known: &KnownFailure, names: &[&str]) -> bool
    ensures { result ≡ is_stray names.now known.now }
{
    !names.iter().any(|name| *name == known.name.as_str())
}

/// The first known failure whose name isn't among these.
pub fn stray<'k>(all: &'k [KnownFailure], names: &[&str]) -> Option<&'k KnownFailure>
    ensures { option_map (λ known. known.now) result
        ≡ find (is_stray names.now) all.now }
{
    all.iter().find(|known| is_stray(known, names))
}

impl KnownFailure {
    /// A copy.
    pub fn copy(&self, alloc: Global) -> Result<KnownFailure, AllocError>
        ensures { IfOk result (λ known. entry known ≡ entry self.now) }
    {
        Ok(KnownFailure {
            name: String::from_str(alloc, self.name.as_str())?,
            reason: String::from_str(alloc, self.reason.as_str())?,
            is_unsteady: self.is_unsteady,
        })
    }
}
