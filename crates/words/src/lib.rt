//! Reads the arguments of the command line by `clap`.
//!
//! `read_words` reads them by `clap`; its contract is `clap`'s meaning of the command line that
//! `specs/Words.antt` defines.
//!
//! - `body`, `serve`, `case`, `frames`, `own_server`, `misbehave`, `wire`: a file for the commands
//!   of a kind that have options: the options, and what is read of them.
//! - `read`: all commands, and `read_words`. A further command has a file of its own, a variant of
//!   `Words`, and a line each in `COMMANDS`, `command_line` and `command_of`.
//! - `options`: the kinds of option.
//! - `reporting`: the options that the commands with cases share; `files`: those that servers
//!   share; `tracing`: those that all with connections share.
//! - `reason`: why words mean no command.
#![tactic(auto)]

mod body;
mod case;
mod files;
mod frames;
mod misbehave;
mod options;
mod own_server;
mod read;
mod reason;
mod reporting;
mod serve;
mod tracing;
mod wire;

pub use body::MAX_CUT;
pub use case::{CaseRun, CaseWords, SoakWords};
pub use files::Files;
pub use frames::{FramesWords, Side};
pub use misbehave::{MisbehaveRun, MisbehaveWords};
pub use options::LOOPBACK;
pub use read::{COMMANDS, Words, WordsFault, read_words};
pub use reason::Reason;
pub use reporting::Reporting;
pub use serve::{LogForm, Port, ServeWords, TimeForm};
pub use tracing::{TraceForm, Tracing};
pub use wire::{WireRun, WireWords};
