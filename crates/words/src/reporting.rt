//! The options that `case`, `wire` and `misbehave` share: which cases are left out, how often cases
//! are run, and in which forms outcomes are reported. `--json FILE`, `--junit FILE`, `--tap`,
//! `--save DIR`, `--known FILE`, `--write-known FILE`, `--skip WORDS`, `--level LEVEL`,
//! `--repeat N`, `--fail-fast`.

ghost use Rattle.std.specs.Prelude.{
  ◌≡◌,
  ◌==◌,
  ◌≤◌,
  ◌++◌,
  false,
  IfOk,
  IfSome,
  OnOk,
  map,
  option_map,
};
ghost use Rattle.std.specs.List.{flat_map, slice_split};
ghost use Rattle.clap.specs.Simple.{App};
ghost use Rattle.clap.specs.Words.{found_of, rows_of};
ghost use Rattle.words.specs.Options.{IsCommand, IsOption};
ghost use Rattle.words.specs.Reporting.{
  level_of,
  repeat_option,
  reporting,
  reporting_of,
  skip_option,
  skipped_of,
  wants_output_twice,
  with_forms,
  with_reporting,
};

use crate::options::{
    flag, has_flag, number_option, small_number_of, text_of, text_option, texts_of,
};
use clap::{Arg, ArgAction, ArgMatches, Command};
use results::Level;
use std::alloc::{AllocError, Global};

/// How outcomes are reported, and which cases are left out.
#[derive(Drop)]
pub struct Reporting<'a> {
    /// The file for JSON, or `-` for standard output.
    pub json: Option<&'a str>,
    /// The file for JUnit's XML.
    pub junit: Option<&'a str>,
    /// Whether standard output has TAP.
    pub has_tap: bool,
    /// The folder for the bytes of cases that failed.
    pub save: Option<&'a str>,
    /// The file with the known failures, and the file to which they are written.
    pub known: Option<&'a str>,
    pub write_known: Option<&'a str>,
    /// What chooses the cases that are left out.
    pub skip: Vec<&'a str>,
    /// The level that binds least.
    pub level: Option<Level>,
    /// How often each case is run.
    pub repeat: u16,
    /// Whether the run ends with the first case that fails it.
    pub fails_fast: bool,
}

/// The words that they take.
pub(crate) const TAKES: &str =
    "--skip WORDS, --level LEVEL, --repeat N, --fail-fast, --known FILE, --write-known FILE, \
     --json FILE, --junit FILE, --tap, --save DIR";

/// What a file is.
const FILE: &str = "a file's name";

// `--skip WORDS`.
fn skip_option<'a>(alloc: Global) -> Arg<'a>
    ensures { IsOption skip_option result }
{
    text_option(alloc, "skip", "words for cases, with commas between them").action(
        ArgAction::Append,
    )
}

// `--repeat N`.
fn repeat_option<'a>(alloc: Global) -> Arg<'a>
    ensures { IsOption repeat_option result }
{
    number_option(alloc, "repeat", "a number of runs, 1 to 65535").default_value("1")
}

// A command with the options for the forms of outcomes too.
fn with_forms<'a>(alloc: Global, command: Command<'a>) -> Result<Command<'a>, AllocError>
    ensures { (app : App) → IsCommand app command.entry → IfOk result (IsCommand (with_forms app)) }
{
    command
        .arg(text_option(alloc, "json", "a file's name, or - for standard output"))?
        .arg(text_option(alloc, "junit", FILE))?
        .arg(flag(alloc, "tap"))?
        .arg(text_option(alloc, "save", "a folder's name"))?
        .arg(text_option(alloc, "known", FILE))?
        .arg(text_option(alloc, "write-known", FILE))
}

// A command with these options too.
pub(crate) fn with_reporting<'a>(
    alloc: Global,
    command: Command<'a>,
) -> Result<Command<'a>, AllocError>
    ensures { (app : App) → IsCommand app command.entry
        → IfOk result (IsCommand (with_reporting app)) }
{
    with_forms(alloc, command)?
        .arg(skip_option(alloc))?
        .arg(text_option(alloc, "level", "must, should or ours"))?
        .arg(repeat_option(alloc))?
        .arg(flag(alloc, "fail-fast"))
}

// The parts of a text between commas.
fn parts_of<'a>(alloc: Global, text: &'a str) -> Result<Vec<&'a str>, AllocError>
    ensures { IfOk result (λ parts. map (λ part. part.now) parts.items
        ≡ slice_split (λ byte. byte == 44) text.now) }
{
    text.split(',').collect(alloc)
}

// Adds the parts of a text between commas.
fn push_parts<'a>(alloc: Global, words: &mut Vec<&'a str>, text: &'a str) -> Result<(), AllocError>
    ensures { OnOk result (map (λ word. word.now) words.new.items
        ≡ map (λ word. word.now) words.old.items ++ slice_split (λ byte. byte == 44) text.now) }
{
    let parts = parts_of(alloc, text)?;
    words.extend_from_slice(parts.as_slice())
}

// The parts of texts between commas.
fn all_parts_of<'a>(alloc: Global, texts: &[&'a str]) -> Result<Vec<&'a str>, AllocError>
    ensures { IfOk result (λ words. map (λ word. word.now) words.items
        ≡ flat_map (λ text. slice_split (λ byte. byte == 44) text.now) texts.now) }
{
    let mut words = Vec::new(alloc);
    for text in texts {
        push_parts(alloc, &mut words, text)?;
    }
    Ok(words)
}

// The words that choose the cases that are left out.
fn skipped_of<'a>(alloc: Global, options: &ArgMatches<'a>) -> Result<Vec<&'a str>, AllocError>
    ensures { IfOk result (λ words. map (λ word. word.now) words.items
        ≡ skipped_of (rows_of (found_of options.now))) }
{
    let texts = texts_of(alloc, options, "skip")?;
    all_parts_of(alloc, texts.as_slice())
}

// The level, if one is named; nothing if the name isn't a level's.
fn level_of(options: &ArgMatches<'_>) -> Option<Option<Level>>
    ensures { result ≡ level_of (rows_of (found_of options.now)) }
{
    match text_of(options, "level") {
        Some(name) => Some(Some(Level::named(name)?)),
        None => Some(None),
    }
}

// Whether two forms want standard output.
pub(crate) fn wants_output_twice(options: &ArgMatches<'_>) -> bool
    ensures { result ≡ wants_output_twice (rows_of (found_of options.now)) }
{
    match text_of(options, "json") {
        Some(file) => has_flag(options, "tap") && file == "-",
        None => false,
    }
}

// How outcomes are reported.
pub(crate) fn reporting_of<'a>(
    alloc: Global,
    options: &ArgMatches<'a>,
) -> Result<Option<Reporting<'a>>, AllocError>
    ensures value { IfOk result (λ told. option_map reporting told
        ≡ reporting_of (rows_of (found_of options.now))) }
    ensures within { IfOk result (λ told. IfSome told (λ words. 1 ≤ words.repeat)) }
{
    let skip = skipped_of(alloc, options)?;
    let (Some(level), Some(repeat)) = (level_of(options), small_number_of(options, "repeat")) else {
        return Ok(None);
    };
    if wants_output_twice(options) {
        return Ok(None);
    }
    Ok(Some(Reporting {
        json: text_of(options, "json"),
        junit: text_of(options, "junit"),
        has_tap: has_flag(options, "tap"),
        save: text_of(options, "save"),
        known: text_of(options, "known"),
        write_known: text_of(options, "write-known"),
        skip,
        level,
        repeat,
        fails_fast: has_flag(options, "fail-fast"),
    }))
}
