//! The options that `serve`, `case`, `wire` and `misbehave` share: `--trace`, also `--trace short`
//! and `--trace full`, `--trace-file FILE` and `--pcap FILE`.

ghost use Rattle.std.specs.Prelude.{◌≡◌, IfOk, option_map};
ghost use Rattle.clap.specs.Simple.{App};
ghost use Rattle.clap.specs.Words.{found_of, rows_of};
ghost use Rattle.words.specs.Options.{IsCommand, IsOption};
ghost use Rattle.words.specs.Tracing.{
  form_of,
  is_shown,
  trace_of,
  trace_option,
  tracing,
  tracing_of,
  with_tracing,
};

use crate::options::{text_of, text_option};
use clap::{Arg, ArgMatches, Command};
use std::alloc::{AllocError, Global};

/// How much the line of a frame says.
#[derive(Clone, Copy, Debug, PartialEq, Eq)]
pub enum TraceForm {
    /// Fronts of long values.
    Short,
    /// All bytes of values, and how fields are spelled.
    Full,
}

/// The places to which what passes on connections is written.
#[derive(Clone, Copy, Debug, PartialEq, Eq)]
pub struct Tracing<'a> {
    /// How much the line of each frame says, if there are lines.
    pub form: Option<TraceForm>,
    /// The file for them, in place of standard error.
    pub lines: Option<&'a str>,
    /// The file for a capture.
    pub capture: Option<&'a str>,
}

impl<'a> Tracing<'a> {
    /// Whether lines go to standard error.
    pub fn is_shown(&self) -> bool
        ensures { result ≡ is_shown self.now }
    {
        self.form.is_some() && self.lines.is_none()
    }
}

/// The words that they take.
pub(crate) const TAKES: &str = "--trace [short|full], --trace-file FILE, --pcap FILE";

/// What a file is.
const FILE: &str = "a file's name";

// `--trace`, also `--trace short` and `--trace full`.
fn trace_option<'a>(alloc: Global) -> Arg<'a>
    ensures { IsOption trace_option result }
{
    text_option(alloc, "trace", "short or full")
        .num_args(0..=1)
        .default_missing_value("short")
}

// A command with these options too.
pub(crate) fn with_tracing<'a>(
    alloc: Global,
    command: Command<'a>,
) -> Result<Command<'a>, AllocError>
    ensures { (app : App) → IsCommand app command.entry
        → IfOk result (IsCommand (with_tracing app)) }
{
    command
        .arg(trace_option(alloc))?
        .arg(text_option(alloc, "trace-file", FILE))?
        .arg(text_option(alloc, "pcap", FILE))
}

// The form of a name.
pub(crate) fn form_of(name: &str) -> Option<TraceForm>
    ensures { result ≡ form_of name.now }
{
    match name {
        "short" => Some(TraceForm::Short),
        "full" => Some(TraceForm::Full),
        _ => None,
    }
}

// The form of lines, if there are to be any: a file for them asks for them too. Nothing where a
// name is no form's.
fn trace_of(options: &ArgMatches<'_>) -> Option<Option<TraceForm>>
    ensures { result ≡ trace_of (rows_of (found_of options.now)) }
{
    match (text_of(options, "trace"), text_of(options, "trace-file")) {
        (Some(name), _) => Some(Some(form_of(name)?)),
        (None, Some(_)) => Some(Some(TraceForm::Short)),
        (None, None) => Some(None),
    }
}

// The places to which what passes is written.
pub(crate) fn tracing_of<'a>(options: &ArgMatches<'a>) -> Option<Tracing<'a>>
    ensures { option_map tracing result ≡ tracing_of (rows_of (found_of options.now)) }
{
    let form = trace_of(options)?;
    Some(Tracing {
        form,
        lines: text_of(options, "trace-file"),
        capture: text_of(options, "pcap"),
    })
}
