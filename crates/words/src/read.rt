//! All commands, and what the words of a command line mean.

ghost use Rattle.std.specs.Prelude.{
  ◌≡◌,
  ◌≢◌,
  ⊤,
  None,
  Some,
  IfErr,
  IfOk,
  IfSome,
  map,
  option_and_then,
  option_map,
  string_bytes,
};
ghost use Rattle.clap.specs.Words.{app_of, found_of, rows_of, subcommand_rows_of};
ghost use Rattle.words.specs.declared.read.WordsFault.TheVariants.{OutOfMemory};

use crate::body::{body_command, cut_of};
use crate::case::{CaseWords, case_command, trial_of};
use crate::frames::{FramesWords, frames_command, frames_of};
use crate::misbehave::{MisbehaveWords, misbehave_command, misbehaving_of};
use crate::own_server::{own_command, own_port_of};
use crate::reason::{Reason, reason_of};
use crate::serve::{ServeWords, serve_command, serving_of};
use crate::wire::{WireWords, wire_command, wire_of};
use clap::error::ErrorKind;
use clap::{ArgMatches, Command};
use std::alloc::{AllocError, Global};

/// The names of the commands.
pub const COMMANDS: [&str; 9] = [
    "body",
    "case",
    "drain",
    "frames",
    "misbehave",
    "parts",
    "self",
    "serve",
    "wire",
];

/// What the words ask the program to do.
#[derive(Drop)]
pub enum Words<'a> {
    /// Print the messages of one call, whose bytes are taken in pieces of this size, 1 to
    /// `MAX_CUT`.
    Body(usize),
    /// Serve the connection in standard input, and print what the server wrote.
    Parts,
    /// Serve connections.
    Serve(ServeWords<'a>),
    /// Run test cases against a server.
    Case(CaseWords<'a>),
    /// Run all test cases against a server of its own, on this port.
    SelfTest(u16),
    /// Drain a server of its own on this port, while a client has a call.
    Drain(u16),
    /// Misbehave as a server.
    Misbehave(MisbehaveWords<'a>),
    /// Run wire cases against a server, or list them.
    Wire(WireWords<'a>),
    /// Print the frames in the bytes of connections.
    Frames(FramesWords<'a>),
}

/// Why words are not obeyed.
#[derive(Clone, Copy, Debug, PartialEq, Eq)]
pub enum WordsFault<'a> {
    /// They mean no command.
    BadWords(Reason<'a>),
    /// There is no memory.
    OutOfMemory,
}

ghost use Rattle.words.specs.Words.{
  IsBad,
  IsInRange,
  bare_line,
  code_of,
  command_line,
  command_meant,
  command_of,
  meaning,
  meaning_of,
  plain_command_of,
};

impl<'a> WordsFault<'a> {
    /// The fault's number.
    pub fn code(self) -> u32
        ensures { result ≡ code_of self.entry }
    {
        match self {
            WordsFault::BadWords(_) => 1,
            WordsFault::OutOfMemory => 2,
        }
    }
}

impl<'a> From<AllocError> for WordsFault<'a> {
    ghost from_gives = { λ _ fault. fault ≡ OutOfMemory };

    fn from(_error: AllocError) -> WordsFault<'a> {
        WordsFault::OutOfMemory
    }
}

// The program without its commands. Help and version are the program's own.
fn bare_line<'a>(alloc: Global) -> Command<'a>
    ensures { app_of result ≡ bare_line }
{
    Command::new(alloc, "interop")
        .no_binary_name(true)
        .disable_help_flag(true)
        .disable_help_subcommand(true)
        .disable_version_flag(true)
        .subcommand_required(true)
}

// The commands and their options.
pub(crate) fn command_line<'a>(alloc: Global) -> Result<Command<'a>, AllocError>
    ensures { IfOk result (λ command. app_of command ≡ command_line) }
{
    bare_line(alloc)
        .subcommand(body_command(alloc)?)?
        .subcommand(Command::new(alloc, "parts"))?
        .subcommand(serve_command(alloc)?)?
        .subcommand(case_command(alloc)?)?
        .subcommand(own_command(alloc, "self")?)?
        .subcommand(own_command(alloc, "drain")?)?
        .subcommand(misbehave_command(alloc)?)?
        .subcommand(wire_command(alloc)?)?
        .subcommand(frames_command(alloc)?)
}

// A command with the values of its options.
fn command_of<'a>(
    alloc: Global,
    name: &str,
    options: &ArgMatches<'a>,
) -> Result<Option<Words<'a>>, AllocError>
    ensures value { IfOk result (λ told. option_map meaning told
        ≡ command_of (name.now, rows_of (found_of options.now))) }
    ensures in_range { IfOk result (λ told. IfSome told IsInRange) }
{
    match name {
        "case" => match trial_of(alloc, options)? {
            Some(told) => Ok(Some(Words::Case(told))),
            None => Ok(None),
        },
        "misbehave" => match misbehaving_of(alloc, options)? {
            Some(told) => Ok(Some(Words::Misbehave(told))),
            None => Ok(None),
        },
        "wire" => match wire_of(alloc, options)? {
            Some(told) => Ok(Some(Words::Wire(told))),
            None => Ok(None),
        },
        "frames" => match frames_of(alloc, options)? {
            Some(told) => Ok(Some(Words::Frames(told))),
            None => Ok(None),
        },
        _ => Ok(plain_command_of(name, options)),
    }
}

// One of the commands that keep no lists, with the values of its options.
fn plain_command_of<'a>(name: &str, options: &ArgMatches<'a>) -> Option<Words<'a>>
    ensures value { option_map meaning result
        ≡ plain_command_of (name.now, rows_of (found_of options.now)) }
    ensures in_range { IfSome result IsInRange }
{
    match name {
        "body" => Some(Words::Body(cut_of(options)?)),
        "parts" => Some(Words::Parts),
        "serve" => Some(Words::Serve(serving_of(options)?)),
        "self" => Some(Words::SelfTest(own_port_of(options)?)),
        "drain" => Some(Words::Drain(own_port_of(options)?)),
        _ => None,
    }
}

// The command that a parse met.
fn command_in<'a>(alloc: Global, matches: &ArgMatches<'a>) -> Result<Option<Words<'a>>, AllocError>
    ensures value { IfOk result (λ told. option_map meaning told
        ≡ option_and_then command_of (subcommand_rows_of matches.now)) }
    ensures in_range { IfOk result (λ told. IfSome told IsInRange) }
{
    match matches.subcommand() {
        Some((name, options)) => command_of(alloc, name, options),
        None => Ok(None),
    }
}

// The command that the words mean to `clap`, if they mean any.
fn read_command<'a>(alloc: Global, words: &'a [String]) -> Result<Option<Words<'a>>, AllocError>
    ensures value { IfOk result
        (λ told. option_map meaning told ≡ command_meant (map string_bytes words.now)) }
    ensures in_range { IfOk result (λ told. IfSome told IsInRange) }
{
    match command_line(alloc)?.try_get_matches_from(words) {
        Ok(matches) => command_in(alloc, &matches),
        Err(error) => match error.kind() {
            ErrorKind::OutOfMemory => Err(AllocError),
            _ => Ok(None),
        },
    }
}

/// Reads the words after the program's name, by `clap`'s rules. No words at all are `body --cut 3`.
/// Options come in any order, none comes twice, and `--cut=3`, `--cut 3`, `--cut +3` and
/// `--cut 003` mean one thing.
pub fn read_words<'a>(alloc: Global, words: &'a [String]) -> Result<Words<'a>, WordsFault<'a>>
    ensures ok { IfOk result
        (λ told. meaning_of (map string_bytes words.now) ≡ Some (meaning told)) }
    ensures in_range { IfOk result IsInRange }
    ensures bad { IfErr result
        (λ fault. IsBad fault → meaning_of (map string_bytes words.now) ≡ None) }
{
    if words.is_empty() {
        return Ok(Words::Body(3));
    }
    match read_command(alloc, words)? {
        Some(told) => Ok(told),
        None => Err(WordsFault::BadWords(reason_of(alloc, words)?)),
    }
}
