//! `frames`, also `frames FILE` and `frames FILE FILE`, with `--full` and `--side SIDE`.

ghost use Rattle.std.specs.Prelude.{◌≡◌, IfOk, option_map};
ghost use Rattle.clap.specs.Words.{found_of, rows_of};
ghost use Rattle.words.specs.Frames.{frames, frames_command, frames_of, side_named, side_of};
ghost use Rattle.words.specs.Options.{IsCommand};

use crate::options::{flag, has_flag, several, text_of, text_option, texts_of};
use clap::{ArgMatches, Command};
use std::alloc::{AllocError, Global};

/// A side of a connection.
#[derive(Clone, Copy, Debug, PartialEq, Eq)]
pub enum Side {
    Client,
    Server,
}

/// Which bytes' frames are printed, and how.
#[derive(Drop)]
pub struct FramesWords<'a> {
    /// The files that have the bytes: at most two. Without one, standard input has them.
    pub files: Vec<&'a str>,
    /// Which side sent the bytes of the first file, if that is given.
    pub side: Option<Side>,
    /// Whether all bytes of values are printed.
    pub is_full: bool,
}

/// The words that it takes.
pub(crate) const TAKES: &str = "two files at most, --side client|server, --full";

pub(crate) fn frames_command<'a>(alloc: Global) -> Result<Command<'a>, AllocError>
    ensures { IfOk result (IsCommand frames_command) }
{
    let side = text_option(alloc, "side", "client or server");
    let full = flag(alloc, "full");
    Command::new(alloc, "frames")
        .arg(several(alloc, "FILE"))?
        .arg(side)?
        .arg(full)
}

// The side of a name.
pub(crate) fn side_named(name: &str) -> Option<Side>
    ensures { result ≡ side_named name.now }
{
    match name {
        "client" => Some(Side::Client),
        "server" => Some(Side::Server),
        _ => None,
    }
}

// The side, if one is named; nothing if the name isn't a side's.
fn side_of(options: &ArgMatches<'_>) -> Option<Option<Side>>
    ensures { result ≡ side_of (rows_of (found_of options.now)) }
{
    match text_of(options, "side") {
        Some(name) => Some(Some(side_named(name)?)),
        None => Some(None),
    }
}

pub(crate) fn frames_of<'a>(
    alloc: Global,
    options: &ArgMatches<'a>,
) -> Result<Option<FramesWords<'a>>, AllocError>
    ensures { IfOk result (λ told. option_map frames told
        ≡ frames_of (rows_of (found_of options.now))) }
{
    let files = texts_of(alloc, options, "FILE")?;
    let Some(side) = side_of(options) else {
        return Ok(None);
    };
    if matches!(files.as_slice(), [_, _, _, ..]) {
        return Ok(None);
    }
    Ok(Some(FramesWords {
        files,
        side,
        is_full: has_flag(options, "full"),
    }))
}
