//! The kinds of option that commands have, and what is read of their values.
//!
//! A number is read by `get_one::<usize>`. If that gives none, or one out of the range, there is
//! none. `clap`'s parser has this range too, so this never decides.

ghost use Rattle.std.specs.Prelude.{◌≡◌, ◌≢◌, ◌≤◌, false, IfOk, IfSome, map, option_map};
ghost use Rattle.clap.specs.Words.{found_of, rows_of, rule_of};
ghost use Rattle.words.specs.Options.{
  IsOption,
  amount_of,
  amount_option,
  flag,
  has_flag,
  host_option,
  number_of,
  number_option,
  several,
  some_texts_of,
  text_of,
  text_option,
  texts_of,
};

use clap::builder::ValueParser;
use clap::{Arg, ArgAction, ArgMatches, value_parser};
use std::alloc::{AllocError, Global};

/// The host of a server if none is named.
pub const LOOPBACK: &str = "127.0.0.1";

/// The greatest number that an option takes, but for `--cut` and amounts.
pub(crate) const MAX_NUMBER: usize = 65_535;

/// The greatest amount that an option takes.
const MAX_AMOUNT: usize = 4_000_000;

// `--NAME N`, with N from 1 to 65,535. `right` says what N is.
pub(crate) fn number_option<'a>(alloc: Global, name: &'a str, right: &'a str) -> Arg<'a>
    ensures rule { rule_of result ≡ number_option name.now 65535 }
    ensures local { result.global ≡ false }
{
    let numbers = value_parser!(usize).range(1..=65_535);
    Arg::new(alloc, name)
        .long(name)
        .value_parser(numbers)
        .help(right)
}

// `--NAME N`, with N from 0 to 4,000,000. `right` says what N is.
pub(crate) fn amount_option<'a>(alloc: Global, name: &'a str, right: &'a str) -> Arg<'a>
    ensures rule { rule_of result ≡ amount_option name.now }
    ensures local { result.global ≡ false }
{
    let numbers = value_parser!(usize).range(0..=4_000_000);
    Arg::new(alloc, name)
        .long(name)
        .value_parser(numbers)
        .help(right)
}

// `--NAME TEXT`, where the text isn't empty. `right` says what the text is.
pub(crate) fn text_option<'a>(alloc: Global, name: &'a str, right: &'a str) -> Arg<'a>
    ensures rule { rule_of result ≡ text_option name.now }
    ensures local { result.global ≡ false }
{
    Arg::new(alloc, name)
        .long(name)
        .value_parser(ValueParser::NonEmptyString)
        .help(right)
}

// `--host H`.
pub(crate) fn host_option<'a>(alloc: Global) -> Arg<'a>
    ensures { IsOption host_option result }
{
    text_option(alloc, "host", "an address, or a host's name").default_value(LOOPBACK)
}

// `--NAME`.
pub(crate) fn flag<'a>(alloc: Global, name: &'a str) -> Arg<'a>
    ensures rule { rule_of result ≡ flag name.now }
    ensures local { result.global ≡ false }
{
    Arg::new(alloc, name).long(name).action(ArgAction::SetTrue)
}

// The number of an option, if it has one from 1 to `high`.
pub(crate) fn number_of(options: &ArgMatches<'_>, name: &str, high: usize) -> Option<usize>
    ensures value { result ≡ number_of name.now high (rows_of (found_of options.now)) }
    ensures within { IfSome result (λ number. (1 ≤ number) × (number ≤ high)) }
{
    let number = options.get_one::<usize>(name)?;
    if 1 <= number && number <= high {
        Some(number)
    } else {
        None
    }
}

// The number of an option, if it has one from 1 to 65,535.
pub(crate) fn small_number_of(options: &ArgMatches<'_>, name: &str) -> Option<u16>
    ensures value { result ≡ number_of name.now 65535 (rows_of (found_of options.now)) }
    ensures within { IfSome result (λ number. 1 ≤ number) }
{
    let number = number_of(options, name, MAX_NUMBER)?;
    Some(number as u16)
}

// The number of an option, if it has one from 0 to 4,000,000.
pub(crate) fn amount_of(options: &ArgMatches<'_>, name: &str) -> Option<u32>
    ensures { result ≡ amount_of name.now (rows_of (found_of options.now)) }
{
    let number = options.get_one::<usize>(name)?;
    if number <= MAX_AMOUNT {
        Some(number as u32)
    } else {
        None
    }
}

// The text of an option, or of the word at a place.
pub(crate) fn text_of<'a>(options: &ArgMatches<'a>, name: &str) -> Option<&'a str>
    ensures { option_map (λ text. text.now) result
        ≡ text_of name.now (rows_of (found_of options.now)) }
{
    options.get_str(name)
}

// The words at a place that takes several: one at least.
pub(crate) fn several<'a>(alloc: Global, name: &'a str) -> Arg<'a>
    ensures { IsOption (several name.now) result }
{
    Arg::new(alloc, name).num_args(1..)
}

// The texts of an option that may be given several times, or of the words at a place.
pub(crate) fn texts_of<'a>(
    alloc: Global,
    options: &ArgMatches<'a>,
    name: &str,
) -> Result<Vec<&'a str>, AllocError>
    ensures { IfOk result (λ texts. map (λ text. text.now) texts.items
        ≡ texts_of name.now (rows_of (found_of options.now))) }
{
    match options.get_strs(name) {
        Some(given) => Vec::from_slice(alloc, given),
        None => Ok(Vec::new(alloc)),
    }
}

// The texts of an option that may be given several times, or of the words at a place, if there is
// one.
pub(crate) fn some_texts_of<'a>(
    alloc: Global,
    options: &ArgMatches<'a>,
    name: &str,
) -> Result<Option<Vec<&'a str>>, AllocError>
    ensures { IfOk result (λ texts. option_map (λ found. map (λ text. text.now) found.items) texts
        ≡ some_texts_of name.now (rows_of (found_of options.now))) }
{
    let texts = texts_of(alloc, options, name)?;
    if texts.is_empty() {
        Ok(None)
    } else {
        Ok(Some(texts))
    }
}

// Whether a flag was given.
pub(crate) fn has_flag(options: &ArgMatches<'_>, name: &str) -> bool
    ensures { result ≡ has_flag name.now (rows_of (found_of options.now)) }
{
    match text_of(options, name) {
        Some(text) => text == "true",
        None => false,
    }
}
