//! `case NAME.. --port P`, with `--host H`, `--times N`, `--streams K` and `--timeout S`; or by the
//! flags of gRPC's own interop clients (gRPC, "Interoperability Test Case Descriptions"): `case
//! --test_case=NAME --server_port=P --server_host=H --use_tls=false`, and those of soaks; or `case
//! --list`.

ghost use Rattle.std.specs.Prelude.{◌≡◌, ◌≤◌, false, IfOk, IfSome, map, option_map};
ghost use Rattle.clap.specs.Simple.{App};
ghost use Rattle.clap.specs.Words.{app_of, found_of, rows_of};
ghost use Rattle.words.specs.Options.{IsCommand, IsOption};
ghost use Rattle.words.specs.Reporting.{reporting as reporting_told};
ghost use Rattle.words.specs.Case.{
  IsRun,
  IsTrial,
  acceptable_option,
  case_command,
  gap_option,
  host_option,
  is_cleartext,
  iterations_option,
  max_failures_option,
  names_of,
  overall_option,
  port_option,
  request_size_option,
  response_size_option,
  run_of,
  soak,
  soak_of,
  streams_option,
  timeout_option,
  times_option,
  tls_option,
  trial,
  trial_of,
  trial_run,
  with_credentials,
  with_soak,
};

use crate::options::{
    LOOPBACK, amount_of, amount_option, flag, has_flag, number_option, several, small_number_of,
    some_texts_of, text_of, text_option, texts_of,
};
use crate::reporting::{Reporting, reporting_of, with_reporting};
use crate::tracing::{Tracing, tracing_of, with_tracing};
use clap::{Arg, ArgMatches, Command};
use std::alloc::{AllocError, Global};

/// The words of a soak, as gRPC's own clients have them.
#[derive(Clone, Copy, Debug, PartialEq, Eq)]
pub struct SoakWords {
    /// How many calls it makes.
    pub iterations: u32,
    /// How many of them may fail.
    pub max_failures: u32,
    /// How many milliseconds a call may take.
    pub acceptable: u32,
    /// How many seconds all may take; if it isn't given, as long as all calls may.
    pub overall: Option<u32>,
    /// How many milliseconds there are at least from the beginning of a call to that of the next.
    pub gap: u32,
    /// How many bytes the body of a request and that of a response has.
    pub request_size: u32,
    pub response_size: u32,
}

/// Which cases are run, and how.
#[derive(Drop)]
pub struct CaseRun<'a> {
    /// The words that choose the cases: one at least.
    pub names: Vec<&'a str>,
    /// The address of the server, or a name for it.
    pub host: &'a str,
    pub port: u16,
    /// How often it is run.
    pub times: u16,
    /// How many runs go at a time, if their times are asked for.
    pub streams: Option<u16>,
    /// How many seconds a case may take.
    pub patience: u16,
    pub soak: SoakWords,
    pub tracing: Tracing<'a>,
    pub reporting: Reporting<'a>,
}

/// The words of `case`.
#[derive(Drop)]
pub enum CaseWords<'a> {
    /// Print the names that there are.
    List,
    Run(CaseRun<'a>),
}

/// The words that it takes.
pub(crate) const TAKES: &str =
    "NAME.. or --test_case NAME, --port P, --host H, --times N, --streams K, --timeout S, \
     gRPC's flags of soaks, or --list";

/// What an amount is.
const AMOUNT: &str = "a number, 0 to 4000000";

// `--port P`, also as `--server_port P`.
fn port_option<'a>(alloc: Global) -> Result<Arg<'a>, AllocError>
    ensures { IfOk result (IsOption port_option) }
{
    number_option(alloc, "port", "a port, 1 to 65535")
        .required(false)
        .alias("server_port")
}

// `--host H`, also as `--server_host H`.
fn host_option<'a>(alloc: Global) -> Result<Arg<'a>, AllocError>
    ensures { IfOk result (IsOption host_option) }
{
    text_option(alloc, "host", "an address, or a host's name")
        .default_value(LOOPBACK)
        .alias("server_host")
}

// `--times N`.
fn times_option<'a>(alloc: Global) -> Arg<'a>
    ensures { IsOption times_option result }
{
    number_option(alloc, "times", "a number of runs, 1 to 65535").default_value("1")
}

// `--streams K`.
fn streams_option<'a>(alloc: Global) -> Arg<'a>
    ensures { IsOption streams_option result }
{
    number_option(alloc, "streams", "a number of runs at a time, 1 to 65535")
}

// `--timeout S`.
fn timeout_option<'a>(alloc: Global) -> Arg<'a>
    ensures { IsOption timeout_option result }
{
    number_option(alloc, "timeout", "seconds, 1 to 65535").default_value("10")
}

// `--use_tls=false`.
fn tls_option<'a>(alloc: Global) -> Arg<'a>
    ensures { IsOption tls_option result }
{
    text_option(alloc, "use_tls", "false").default_value("false")
}

// `--soak_iterations N`.
fn iterations_option<'a>(alloc: Global) -> Arg<'a>
    ensures { IsOption iterations_option result }
{
    amount_option(alloc, "soak_iterations", AMOUNT).default_value("10")
}

// `--soak_max_failures N`.
fn max_failures_option<'a>(alloc: Global) -> Arg<'a>
    ensures { IsOption max_failures_option result }
{
    amount_option(alloc, "soak_max_failures", AMOUNT).default_value("0")
}

// `--soak_per_iteration_max_acceptable_latency_ms N`.
fn acceptable_option<'a>(alloc: Global) -> Arg<'a>
    ensures { IsOption acceptable_option result }
{
    amount_option(
        alloc,
        "soak_per_iteration_max_acceptable_latency_ms",
        AMOUNT,
    )
    .default_value("1000")
}

// `--soak_overall_timeout_seconds N`.
fn overall_option<'a>(alloc: Global) -> Arg<'a>
    ensures { IsOption overall_option result }
{
    amount_option(alloc, "soak_overall_timeout_seconds", AMOUNT)
}

// `--soak_min_time_ms_between_rpcs N`.
fn gap_option<'a>(alloc: Global) -> Arg<'a>
    ensures { IsOption gap_option result }
{
    amount_option(alloc, "soak_min_time_ms_between_rpcs", AMOUNT).default_value("0")
}

// `--soak_request_size N`.
fn request_size_option<'a>(alloc: Global) -> Arg<'a>
    ensures { IsOption request_size_option result }
{
    amount_option(alloc, "soak_request_size", AMOUNT).default_value("271828")
}

// `--soak_response_size N`.
fn response_size_option<'a>(alloc: Global) -> Arg<'a>
    ensures { IsOption response_size_option result }
{
    amount_option(alloc, "soak_response_size", AMOUNT).default_value("314159")
}

pub(crate) fn case_command<'a>(alloc: Global) -> Result<Command<'a>, AllocError>
    ensures { IfOk result (IsCommand case_command) }
{
    let command = Command::new(alloc, "case")
        .arg(several(alloc, "NAME"))?
        .arg(text_option(alloc, "test_case", "a case's name, or all"))?
        .arg(flag(alloc, "list"))?
        .arg(port_option(alloc)?)?
        .arg(host_option(alloc)?)?
        .arg(times_option(alloc))?
        .arg(streams_option(alloc))?
        .arg(timeout_option(alloc))?
        .arg(tls_option(alloc))?;
    let whole = with_soak(alloc, with_credentials(alloc, command)?)?;
    with_reporting(alloc, with_tracing(alloc, whole)?)
}

// A command that takes the options of gRPC's runners for TLS, which mean nothing without it.
fn with_credentials<'a>(alloc: Global, command: Command<'a>) -> Result<Command<'a>, AllocError>
    ensures { (app : App) → IsCommand app command.entry
        → IfOk result (IsCommand (with_credentials app)) }
{
    command
        .arg(text_option(alloc, "use_test_ca", "true or false"))?
        .arg(text_option(alloc, "server_host_override", "a host's name"))
}

// A command with the options of soaks too.
fn with_soak<'a>(alloc: Global, command: Command<'a>) -> Result<Command<'a>, AllocError>
    ensures { (app : App) → IsCommand app command.entry → IfOk result (IsCommand (with_soak app)) }
{
    command
        .arg(iterations_option(alloc))?
        .arg(max_failures_option(alloc))?
        .arg(acceptable_option(alloc))?
        .arg(overall_option(alloc))?
        .arg(gap_option(alloc))?
        .arg(request_size_option(alloc))?
        .arg(response_size_option(alloc))
}

// The words that choose the cases: by themselves, or one after its option.
fn names_of<'a>(alloc: Global, options: &ArgMatches<'a>) -> Result<Option<Vec<&'a str>>, AllocError>
    ensures { IfOk result (λ names. option_map (λ found. map (λ name. name.now) found.items) names
        ≡ names_of (rows_of (found_of options.now))) }
{
    let Some(name) = text_of(options, "test_case") else {
        return some_texts_of(alloc, options, "NAME");
    };
    let mut names = texts_of(alloc, options, "NAME")?;
    if !names.is_empty() {
        return Ok(None);
    }
    names.push(name)?;
    Ok(Some(names))
}

// Whether no TLS is asked for.
fn is_cleartext(options: &ArgMatches<'_>) -> bool
    ensures { result ≡ is_cleartext (rows_of (found_of options.now)) }
{
    match text_of(options, "use_tls") {
        Some(text) => text == "false",
        None => false,
    }
}

// How a soak goes.
fn soak_of(options: &ArgMatches<'_>) -> Option<SoakWords>
    ensures { option_map soak result ≡ soak_of (rows_of (found_of options.now)) }
{
    let iterations = amount_of(options, "soak_iterations")?;
    let max_failures = amount_of(options, "soak_max_failures")?;
    let acceptable = amount_of(options, "soak_per_iteration_max_acceptable_latency_ms")?;
    let gap = amount_of(options, "soak_min_time_ms_between_rpcs")?;
    let request_size = amount_of(options, "soak_request_size")?;
    let response_size = amount_of(options, "soak_response_size")?;
    Some(SoakWords {
        iterations,
        max_failures,
        acceptable,
        overall: amount_of(options, "soak_overall_timeout_seconds"),
        gap,
        request_size,
        response_size,
    })
}

// How the cases that these words choose are run and reported.
fn run_of<'a>(
    options: &ArgMatches<'a>,
    names: Vec<&'a str>,
    reporting: Reporting<'a>,
) -> Option<CaseRun<'a>>
    requires { 1 ≤ reporting.repeat }
    ensures value { option_map trial_run result ≡ run_of (map (λ name. name.now) names.entry.items)
        (reporting_told reporting.entry) (rows_of (found_of options.now)) }
    ensures within { IfSome result IsRun }
{
    let host = text_of(options, "host")?;
    let port = small_number_of(options, "port")?;
    let times = small_number_of(options, "times")?;
    let patience = small_number_of(options, "timeout")?;
    let soak = soak_of(options)?;
    let tracing = tracing_of(options)?;
    if !is_cleartext(options) {
        return None;
    }
    Some(CaseRun {
        names,
        host,
        port,
        times,
        streams: small_number_of(options, "streams"),
        patience,
        soak,
        tracing,
        reporting,
    })
}

pub(crate) fn trial_of<'a>(
    alloc: Global,
    options: &ArgMatches<'a>,
) -> Result<Option<CaseWords<'a>>, AllocError>
    ensures value { IfOk result (λ told. option_map trial told
        ≡ trial_of (rows_of (found_of options.now))) }
    ensures within { IfOk result (λ told. IfSome told IsTrial) }
{
    if has_flag(options, "list") {
        let is_alone = text_of(options, "NAME")
            .or(text_of(options, "test_case"))
            .is_none();
        return Ok(is_alone.then_some(CaseWords::List));
    }
    let Some(names) = names_of(alloc, options)? else {
        return Ok(None);
    };
    let Some(reporting) = reporting_of(alloc, options)? else {
        return Ok(None);
    };
    Ok(run_of(options, names, reporting).map(|run| CaseWords::Run(run)))
}
