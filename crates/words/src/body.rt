//! `body --cut N`.

ghost use Rattle.std.specs.Prelude.{◌≡◌, ◌≤◌, codes, false, IfOk, IfSome};
ghost use Rattle.clap.specs.Words.{app_of, found_of, rows_of, rule_of};
ghost use Rattle.words.specs.Body.{body_command, cut_of};
ghost use Rattle.words.specs.Options.{IsCommand, needed, number_option};

use crate::options::number_of;
use clap::{Arg, ArgMatches, Command, value_parser};
use std::alloc::{AllocError, Global};

/// The greatest number that `--cut` takes.
pub const MAX_CUT: usize = 65_536;

// `--cut N`.
fn cut_option<'a>(alloc: Global) -> Arg<'a>
    ensures rule { rule_of result ≡ needed (number_option (codes "cut") 65536) }
    ensures local { result.global ≡ false }
{
    let numbers = value_parser!(usize).range(1..=65_536);
    Arg::new(alloc, "cut")
        .long("cut")
        .required(true)
        .value_parser(numbers)
        .help("a number of bytes, 1 to 65536")
}

/// The words that it takes.
pub(crate) const TAKES: &str = "--cut N";

pub(crate) fn body_command<'a>(alloc: Global) -> Result<Command<'a>, AllocError>
    ensures { IfOk result (IsCommand body_command) }
{
    Command::new(alloc, "body").arg(cut_option(alloc))
}

// The length of the pieces.
pub(crate) fn cut_of(options: &ArgMatches<'_>) -> Option<usize>
    ensures value { result ≡ cut_of (rows_of (found_of options.now)) }
    ensures within { IfSome result (λ cut. (1 ≤ cut) × (cut ≤ 65536)) }
{
    number_of(options, "cut", MAX_CUT)
}
