//! `serve --port P`, or `serve --any-port`, with `--host H`, `--conns N`, `--report`, `--log`, or
//! `--log json`, `--time T`, `--drain-on-eof`, `--drain-timeout S`, `--record DIR`, the files of
//! `files`, and what `tracing` has.

ghost use Rattle.std.specs.Prelude.{◌≡◌, ◌≤◌, false, IfOk, IfSome, option_map};
ghost use Rattle.clap.specs.Words.{app_of, found_of, rows_of};
ghost use Rattle.words.specs.Options.{IsCommand, IsOption};
ghost use Rattle.words.specs.Serve.{
  IsPort,
  IsServing,
  form_of,
  log_of,
  log_option,
  patience_option,
  port_of,
  serve_command,
  serving,
  serving_of,
  time_form_of,
  time_of,
  time_option,
};

use crate::files::{Files, files_of, with_files};
use crate::options::{
    flag, has_flag, host_option, number_option, small_number_of, text_of, text_option,
};
use crate::tracing::{Tracing, tracing_of, with_tracing};
use clap::{Arg, ArgMatches, Command};
use std::alloc::{AllocError, Global};

/// The port that a server listens on.
#[derive(Clone, Copy, Debug, PartialEq, Eq)]
pub enum Port {
    /// This one, 1 to 65,535.
    Number(u16),
    /// One that the system chooses.
    Any,
}

/// How the lines of a log are written.
#[derive(Clone, Copy, Debug, PartialEq, Eq)]
pub enum LogForm {
    /// As text.
    Text,
    /// An object of JSON each.
    Json,
}

/// How a log says when something happened.
#[derive(Clone, Copy, Debug, PartialEq, Eq)]
pub enum TimeForm {
    /// In seconds since the server began.
    Seconds,
    /// By the clock, as RFC 3339 has it, in UTC.
    Utc,
}

/// The words of `serve`.
#[derive(Clone, Copy, Debug, PartialEq, Eq)]
pub struct ServeWords<'a> {
    /// The address that it listens on, or a name for it.
    pub host: &'a str,
    pub port: Port,
    /// How many connections it serves before it ends, if it ends.
    pub connections: Option<u16>,
    /// Whether it prints the report on each.
    pub has_report: bool,
    /// In which form it logs what happens, if it does.
    pub log: Option<LogForm>,
    /// In which form the log says when, if it does.
    pub time: Option<TimeForm>,
    /// Whether it drains its connections, and ends, when standard input closes.
    pub drains_on_eof: bool,
    /// How many seconds it waits at most for connections that it drains.
    pub patience: u16,
    pub files: Files<'a>,
    pub tracing: Tracing<'a>,
    /// The folder for the bytes of each connection.
    pub record: Option<&'a str>,
}

/// The words that it takes.
pub(crate) const TAKES: &str = "--port P or --any-port, --host H, --conns N, --report, \
    --log [text|json], --time seconds|utc, --drain-on-eof, --drain-timeout S, --port-file FILE, \
    --ready-file FILE, --record DIR";

// `--log`, also `--log text` and `--log json`.
fn log_option<'a>(alloc: Global) -> Arg<'a>
    ensures { IsOption log_option result }
{
    text_option(alloc, "log", "text or json")
        .num_args(0..=1)
        .default_missing_value("text")
}

// `--time seconds` and `--time utc`.
fn time_option<'a>(alloc: Global) -> Arg<'a>
    ensures { IsOption time_option result }
{
    text_option(alloc, "time", "seconds or utc")
}

// `--drain-timeout S`.
fn patience_option<'a>(alloc: Global) -> Arg<'a>
    ensures { IsOption patience_option result }
{
    number_option(alloc, "drain-timeout", "seconds, 1 to 65535").default_value("10")
}

pub(crate) fn serve_command<'a>(alloc: Global) -> Result<Command<'a>, AllocError>
    ensures { IfOk result (IsCommand serve_command) }
{
    let port = number_option(alloc, "port", "a port, 1 to 65535");
    let any_port = flag(alloc, "any-port");
    let connections = number_option(alloc, "conns", "a number of connections, 1 to 65535");
    let report = flag(alloc, "report");
    let drains = flag(alloc, "drain-on-eof");
    let command = Command::new(alloc, "serve")
        .arg(port)?
        .arg(any_port)?
        .arg(host_option(alloc))?
        .arg(connections)?
        .arg(report)?
        .arg(log_option(alloc))?
        .arg(time_option(alloc))?
        .arg(drains)?
        .arg(patience_option(alloc))?
        .arg(text_option(alloc, "record", "a folder's name"))?;
    with_tracing(alloc, with_files(alloc, command)?)
}

// The port that is given, or any: one of the two has to be said, and not both.
fn port_of(options: &ArgMatches<'_>) -> Option<Port>
    ensures value { result ≡ port_of (rows_of (found_of options.now)) }
    ensures within { IfSome result IsPort }
{
    let any = has_flag(options, "any-port").then_some(Port::Any);
    match small_number_of(options, "port") {
        Some(number) => Some(Port::Number(number)).xor(any),
        None => any,
    }
}

// The form of a name.
pub(crate) fn form_of(name: &str) -> Option<LogForm>
    ensures { result ≡ form_of name.now }
{
    match name {
        "text" => Some(LogForm::Text),
        "json" => Some(LogForm::Json),
        _ => None,
    }
}

// The form of the log, if there is to be one; nothing if the name isn't a form's.
fn log_of(options: &ArgMatches<'_>) -> Option<Option<LogForm>>
    ensures { result ≡ log_of (rows_of (found_of options.now)) }
{
    match text_of(options, "log") {
        Some(name) => Some(Some(form_of(name)?)),
        None => Some(None),
    }
}

// The form of times of a name.
pub(crate) fn time_form_of(name: &str) -> Option<TimeForm>
    ensures { result ≡ time_form_of name.now }
{
    match name {
        "seconds" => Some(TimeForm::Seconds),
        "utc" => Some(TimeForm::Utc),
        _ => None,
    }
}

// The form of the log's times, if one is given; nothing if the name isn't a form's.
fn time_of(options: &ArgMatches<'_>) -> Option<Option<TimeForm>>
    ensures { result ≡ time_of (rows_of (found_of options.now)) }
{
    match text_of(options, "time") {
        Some(name) => Some(Some(time_form_of(name)?)),
        None => Some(None),
    }
}

pub(crate) fn serving_of<'a>(options: &ArgMatches<'a>) -> Option<ServeWords<'a>>
    ensures value { option_map serving result ≡ serving_of (rows_of (found_of options.now)) }
    ensures within { IfSome result IsServing }
{
    let port = port_of(options)?;
    let host = text_of(options, "host")?;
    let log = log_of(options)?;
    let time = time_of(options)?;
    let patience = small_number_of(options, "drain-timeout")?;
    let tracing = tracing_of(options)?;
    Some(ServeWords {
        host,
        port,
        connections: small_number_of(options, "conns"),
        has_report: has_flag(options, "report"),
        log,
        time,
        drains_on_eof: has_flag(options, "drain-on-eof"),
        patience,
        files: files_of(options),
        tracing,
        record: text_of(options, "record"),
    })
}
