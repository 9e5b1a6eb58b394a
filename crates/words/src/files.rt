//! The options that `serve` and `misbehave` share: `--port-file FILE` and `--ready-file FILE`.

ghost use Rattle.std.specs.Prelude.{◌≡◌, IfOk};
ghost use Rattle.clap.specs.Simple.{App};
ghost use Rattle.clap.specs.Words.{found_of, rows_of};
ghost use Rattle.words.specs.Files.{files, files_of, with_files};
ghost use Rattle.words.specs.Options.{IsCommand};

use crate::options::{text_of, text_option};
use clap::{ArgMatches, Command};
use std::alloc::{AllocError, Global};

/// The files that a server writes once it listens.
#[derive(Clone, Copy, Debug, PartialEq, Eq)]
pub struct Files<'a> {
    /// The file for the port's number.
    pub port: Option<&'a str>,
    /// The file that is made.
    pub ready: Option<&'a str>,
}

// A command with these options too.
pub(crate) fn with_files<'a>(alloc: Global, command: Command<'a>) -> Result<Command<'a>, AllocError>
    ensures { (app : App) → IsCommand app command.entry → IfOk result (IsCommand (with_files app)) }
{
    command
        .arg(text_option(alloc, "port-file", "a file's name"))?
        .arg(text_option(alloc, "ready-file", "a file's name"))
}

// The files that are named.
pub(crate) fn files_of<'a>(options: &ArgMatches<'a>) -> Files<'a>
    ensures { files result ≡ files_of (rows_of (found_of options.now)) }
{
    Files {
        port: text_of(options, "port-file"),
        ready: text_of(options, "ready-file"),
    }
}
