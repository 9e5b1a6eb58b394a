//! `misbehave NAME.. --port P`, with `--host H` and `--timeout S`; or `misbehave --list`, with
//! `--verbose`.

ghost use Rattle.std.specs.Prelude.{◌≡◌, ◌≤◌, false, IfOk, IfSome, map, option_map};
ghost use Rattle.clap.specs.Words.{app_of, found_of, rows_of};
ghost use Rattle.words.specs.Misbehave.{
  IsPlayable,
  IsRun,
  misbehave_command,
  misbehaving,
  misbehaving_of,
  run_of,
  run_told,
  seconds_option,
};
ghost use Rattle.words.specs.Options.{IsCommand, IsOption};
ghost use Rattle.words.specs.Reporting.{reporting as reporting_told};

use crate::files::{Files, files_of, with_files};
use crate::options::{
    flag, has_flag, host_option, number_option, several, small_number_of, some_texts_of, text_of,
};
use crate::reporting::{Reporting, reporting_of, with_reporting};
use crate::tracing::{Tracing, tracing_of, with_tracing};
use clap::{Arg, ArgMatches, Command};
use std::alloc::{AllocError, Global};

/// How a server misbehaves, and where.
#[derive(Drop)]
pub struct MisbehaveRun<'a> {
    /// The words that choose the ways: one at least.
    pub names: Vec<&'a str>,
    /// The address on which the server listens, or a name for it.
    pub host: &'a str,
    /// The port of the first.
    pub port: u16,
    /// How many seconds each may take.
    pub seconds: u16,
    pub files: Files<'a>,
    pub tracing: Tracing<'a>,
    pub reporting: Reporting<'a>,
}

/// The words of `misbehave`.
#[derive(Drop)]
pub enum MisbehaveWords<'a> {
    /// Print the names that there are.
    List {
        /// Whether what the server and the client do is printed too.
        is_verbose: bool,
    },
    /// Misbehave.
    Play(MisbehaveRun<'a>),
}

/// The words that it takes.
pub(crate) const TAKES: &str =
    "NAME.., --port P, --host H, --timeout S, --port-file FILE, --ready-file FILE, or --list, --verbose";

// `--timeout S`.
fn seconds_option<'a>(alloc: Global) -> Arg<'a>
    ensures { IsOption seconds_option result }
{
    number_option(alloc, "timeout", "seconds, 1 to 65535").default_value("30")
}

pub(crate) fn misbehave_command<'a>(alloc: Global) -> Result<Command<'a>, AllocError>
    ensures { IfOk result (IsCommand misbehave_command) }
{
    let port = number_option(alloc, "port", "a port, 1 to 65535");
    let list = flag(alloc, "list");
    let verbose = flag(alloc, "verbose");
    let command = Command::new(alloc, "misbehave")
        .arg(several(alloc, "NAME"))?
        .arg(port)?
        .arg(host_option(alloc))?
        .arg(seconds_option(alloc))?
        .arg(list)?
        .arg(verbose)?;
    with_reporting(alloc, with_tracing(alloc, with_files(alloc, command)?)?)
}

// How a server misbehaves in the ways that these words choose, and how that is reported.
fn run_of<'a>(
    options: &ArgMatches<'a>,
    names: Vec<&'a str>,
    reporting: Reporting<'a>,
) -> Option<MisbehaveRun<'a>>
    requires { 1 ≤ reporting.repeat }
    ensures value { option_map run_told result ≡ run_of (map (λ name. name.now) names.entry.items)
        (reporting_told reporting.entry) (rows_of (found_of options.now)) }
    ensures within { IfSome result IsRun }
{
    let host = text_of(options, "host")?;
    let port = small_number_of(options, "port")?;
    let seconds = small_number_of(options, "timeout")?;
    let tracing = tracing_of(options)?;
    Some(MisbehaveRun {
        names,
        host,
        port,
        seconds,
        files: files_of(options),
        tracing,
        reporting,
    })
}

// Names with a port, or neither of them with `--list`. Only `--list` may have `--verbose`.
pub(crate) fn misbehaving_of<'a>(
    alloc: Global,
    options: &ArgMatches<'a>,
) -> Result<Option<MisbehaveWords<'a>>, AllocError>
    ensures value { IfOk result (λ told. option_map misbehaving told
        ≡ misbehaving_of (rows_of (found_of options.now))) }
    ensures within { IfOk result (λ told. IfSome told IsPlayable) }
{
    let is_verbose = has_flag(options, "verbose");
    if has_flag(options, "list") {
        let is_alone = text_of(options, "NAME").is_none()
            && small_number_of(options, "port").is_none();
        return Ok(is_alone.then_some(MisbehaveWords::List { is_verbose }));
    }
    if is_verbose {
        return Ok(None);
    }
    let Some(names) = some_texts_of(alloc, options, "NAME")? else {
        return Ok(None);
    };
    let Some(reporting) = reporting_of(alloc, options)? else {
        return Ok(None);
    };
    Ok(run_of(options, names, reporting).map(|run| MisbehaveWords::Play(run)))
}
