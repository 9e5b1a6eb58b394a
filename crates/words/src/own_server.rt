//! `self [--port P]` and `drain [--port P]`: the commands that have a server of their own.

ghost use Rattle.std.specs.Prelude.{◌≡◌, ◌≤◌, false, IfOk, IfSome};
ghost use Rattle.clap.specs.Words.{app_of, found_of, rows_of};
ghost use Rattle.words.specs.Options.{IsCommand};
ghost use Rattle.words.specs.OwnServer.{own_command, own_port_of};

use crate::options::{number_option, small_number_of};
use clap::{ArgMatches, Command};
use std::alloc::{AllocError, Global};

/// The words that each takes.
pub(crate) const TAKES: &str = "--port P";

// The command of this name.
pub(crate) fn own_command<'a>(alloc: Global, name: &'a str) -> Result<Command<'a>, AllocError>
    ensures { IfOk result (IsCommand (own_command name.now)) }
{
    let port = number_option(alloc, "port", "a port, 1 to 65535").default_value("50051");
    Command::new(alloc, name).arg(port)
}

// The port of the server.
pub(crate) fn own_port_of(options: &ArgMatches<'_>) -> Option<u16>
    ensures value { result ≡ own_port_of (rows_of (found_of options.now)) }
    ensures within { IfSome result (λ port. 1 ≤ port) }
{
    small_number_of(options, "port")
}
