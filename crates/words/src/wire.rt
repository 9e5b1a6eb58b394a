//! `wire CASES.. --port P`, with `--host H`, `--silence S`, `--timeout T`, `--jobs N` and
//! `--verbose`; or `wire --list`.

ghost use Rattle.std.specs.Prelude.{◌≡◌, ◌≤◌, false, IfOk, IfSome, map, option_map};
ghost use Rattle.clap.specs.Words.{app_of, found_of, rows_of};
ghost use Rattle.words.specs.Options.{IsCommand, IsOption};
ghost use Rattle.words.specs.Reporting.{reporting as reporting_told};
ghost use Rattle.words.specs.Wire.{
  IsInRange,
  IsRun,
  jobs_option,
  limit_option,
  run_of,
  run_told,
  silence_option,
};
ghost use Rattle.words.specs.Wire.{told, told_of, wire_command};

use crate::options::{
    flag, has_flag, host_option, number_option, several, small_number_of, some_texts_of, text_of,
};
use crate::reporting::{Reporting, reporting_of, with_reporting};
use crate::tracing::{Tracing, tracing_of, with_tracing};
use clap::{Arg, ArgMatches, Command};
use std::alloc::{AllocError, Global};

/// Which wire cases are run, and how.
#[derive(Drop)]
pub struct WireRun<'a> {
    /// The words that choose the cases: one at least.
    pub names: Vec<&'a str>,
    /// The address of the server, or a name for it.
    pub host: &'a str,
    pub port: u16,
    /// How many milliseconds a case waits at most while nothing comes.
    pub silence: u16,
    /// How many seconds a connection of a case takes at most.
    pub limit: u16,
    /// How many cases are run side by side.
    pub jobs: u16,
    /// Whether each case's section, and what was written, is printed too.
    pub is_verbose: bool,
    pub tracing: Tracing<'a>,
    pub reporting: Reporting<'a>,
}

/// The words of `wire`.
#[derive(Drop)]
pub enum WireWords<'a> {
    /// Print a line of each case that there is.
    List,
    Run(WireRun<'a>),
}

/// The words that it takes.
pub(crate) const TAKES: &str =
    "all, GROUP, GROUP/N or GROUP/N-M .., --port P, --host H, --silence S, --timeout T, --jobs N, \
     --verbose, or --list";

// `--silence S`.
fn silence_option<'a>(alloc: Global) -> Arg<'a>
    ensures { IsOption silence_option result }
{
    number_option(alloc, "silence", "milliseconds, 1 to 65535").default_value("1000")
}

// `--timeout T`.
fn limit_option<'a>(alloc: Global) -> Arg<'a>
    ensures { IsOption limit_option result }
{
    number_option(alloc, "timeout", "seconds, 1 to 65535").default_value("10")
}

// `--jobs N`.
fn jobs_option<'a>(alloc: Global) -> Arg<'a>
    ensures { IsOption jobs_option result }
{
    number_option(alloc, "jobs", "a number of cases at a time, 1 to 65535").default_value("8")
}

pub(crate) fn wire_command<'a>(alloc: Global) -> Result<Command<'a>, AllocError>
    ensures { IfOk result (IsCommand wire_command) }
{
    let command = Command::new(alloc, "wire")
        .arg(several(alloc, "CASES"))?
        .arg(flag(alloc, "list"))?
        .arg(number_option(alloc, "port", "a port, 1 to 65535"))?
        .arg(host_option(alloc))?
        .arg(silence_option(alloc))?
        .arg(limit_option(alloc))?
        .arg(jobs_option(alloc))?
        .arg(flag(alloc, "verbose"))?;
    with_reporting(alloc, with_tracing(alloc, command)?)
}

// How the cases that these words choose are run and reported.
fn run_of<'a>(
    options: &ArgMatches<'a>,
    names: Vec<&'a str>,
    reporting: Reporting<'a>,
) -> Option<WireRun<'a>>
    requires { 1 ≤ reporting.repeat }
    ensures value { option_map run_told result ≡ run_of (map (λ name. name.now) names.entry.items)
        (reporting_told reporting.entry) (rows_of (found_of options.now)) }
    ensures within { IfSome result IsRun }
{
    let port = small_number_of(options, "port")?;
    let host = text_of(options, "host")?;
    let silence = small_number_of(options, "silence")?;
    let limit = small_number_of(options, "timeout")?;
    let jobs = small_number_of(options, "jobs")?;
    let tracing = tracing_of(options)?;
    Some(WireRun {
        names,
        host,
        port,
        silence,
        limit,
        jobs,
        is_verbose: has_flag(options, "verbose"),
        tracing,
        reporting,
    })
}

pub(crate) fn wire_of<'a>(
    alloc: Global,
    options: &ArgMatches<'a>,
) -> Result<Option<WireWords<'a>>, AllocError>
    ensures value { IfOk result (λ words. option_map told words
        ≡ told_of (rows_of (found_of options.now))) }
    ensures within { IfOk result (λ words. IfSome words IsInRange) }
{
    if has_flag(options, "list") {
        return Ok(
            text_of(options, "CASES")
                .is_none()
                .then_some(WireWords::List),
        );
    }
    let Some(names) = some_texts_of(alloc, options, "CASES")? else {
        return Ok(None);
    };
    let Some(reporting) = reporting_of(alloc, options)? else {
        return Ok(None);
    };
    Ok(run_of(options, names, reporting).map(|run| WireWords::Run(run)))
}
