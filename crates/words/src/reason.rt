//! Why words mean no command: which of them is wrong, and what would be right.
//!
//! `clap` has found that the words mean none. This module goes over the words once more, in
//! `clap`'s order, for the first that the command doesn't take. If it takes each, something is
//! missing, or two things exclude each other.

use crate::frames::side_named;
use crate::read::{COMMANDS, command_line};
use crate::serve::{form_of, time_form_of};
use crate::{body, case, frames, misbehave, own_server, reporting, serve, tracing, wire};
use clap::builder::ValueParser;
use clap::{Arg, ArgAction, Command};
use results::Level;
use std::alloc::{AllocError, Global};
use std::fmt;

/// Why words mean no command. An `option` is as it was written, without its value.
#[derive(Clone, Copy, Debug, PartialEq, Eq)]
pub enum Reason<'a> {
    /// The first word is no command.
    NoCommand {
        word: &'a str,
    },
    /// The command has no such option.
    NoOption {
        command: &'a str,
        option: &'a str,
    },
    /// The command takes no such word.
    NoPlace {
        command: &'a str,
        word: &'a str,
    },
    /// An option has no value; `right` says what it would be.
    NoValue {
        option: &'a str,
        right: &'a str,
    },
    /// An option can't have this value; `right` says what it would be.
    WrongValue {
        option: &'a str,
        value: &'a str,
        right: &'a str,
    },
    /// The option takes no value.
    NeedlessValue {
        option: &'a str,
    },
    /// The option was given before, as `other`.
    Repeated {
        option: &'a str,
        other: &'a str,
    },
    /// This is missing.
    Missing {
        command: &'a str,
        what: &'static str,
    },
    /// It takes no more than this.
    TooMany {
        command: &'a str,
        what: &'static str,
    },
    /// These exclude each other.
    Excluding {
        both: &'static str,
    },
}

/// The words that a command takes.
fn takes(command: &str) -> &'static str {
    match command {
        "body" => body::TAKES,
        "case" => case::TAKES,
        "frames" => frames::TAKES,
        "misbehave" => misbehave::TAKES,
        "self" | "drain" => own_server::TAKES,
        "serve" => serve::TAKES,
        "wire" => wire::TAKES,
        _ => "no words",
    }
}

/// Whether a command runs cases, and takes the options for their outcomes.
fn has_cases(command: &str) -> bool {
    matches!(command, "case" | "misbehave" | "wire")
}

/// Whether a command has connections, and takes the options for what passes on them.
fn has_connections(command: &str) -> bool {
    has_cases(command) || command == "serve"
}

/// Adds the options that commands share, if a command takes them.
fn push_shared<W: fmt::Write>(f: &mut fmt::Formatter<W>, command: &str) -> fmt::Result {
    if has_connections(command) {
        let shared = tracing::TAKES;
        write!(f, "; {shared}")?;
    }
    if has_cases(command) {
        let shared = reporting::TAKES;
        write!(f, "; and {shared}")?;
    }
    Ok(())
}

impl<'a> fmt::Display for Reason<'a> {
    fn fmt<W: fmt::Write>(&self, f: &mut fmt::Formatter<W>) -> fmt::Result {
        match *self {
            Reason::NoCommand { word } => {
                write!(f, "{word} is no command:")?;
                for (number, command) in COMMANDS.iter().enumerate() {
                    let between = if number == 0 { " " } else { ", " };
                    write!(f, "{between}{command}")?;
                }
                Ok(())
            }
            Reason::NoOption { command, option } => {
                let takes = takes(command);
                write!(f, "{option} is no option of {command}, which takes {takes}")?;
                push_shared(f, command)
            }
            Reason::NoPlace { command, word } => {
                let takes = takes(command);
                write!(
                    f,
                    "{word} has no place after {command}, which takes {takes}"
                )?;
                push_shared(f, command)
            }
            Reason::NoValue { option, right } => write!(f, "{option} needs a value: {right}"),
            Reason::WrongValue {
                option,
                value,
                right,
            } => { write!(f, "{option} can't be {value}: {right}") }
            Reason::NeedlessValue { option } => write!(f, "{option} takes no value"),
            Reason::Repeated { option, other } if option == other => {
                write!(f, "{option} is given twice")
            }
            Reason::Repeated { option, other } => write!(
                f,
                "{other} and {option} are the same option"
            ),
            Reason::Missing { command, what } => write!(f, "{command} needs {what}"),
            Reason::TooMany { command, what } => write!(f, "{command} takes {what}"),
            Reason::Excluding { both } => write!(f, "{both} exclude each other"),
        }
    }
}

/// Why these words mean no command, if that is so.
pub(crate) fn reason_of<'a>(alloc: Global, words: &'a [String]) -> Result<Reason<'a>, AllocError> {
    let Some((first, behind)) = words.split_first() else {
        return Ok(Reason::NoCommand { word: "" });
    };
    let name = first.as_str();
    let line = command_line(alloc)?;
    Ok(match line.find_subcommand(name) {
        Some(command) => reason_behind(name, command, behind),
        None => Reason::NoCommand { word: name },
    })
}

/// Why the words after a command are not those that it takes.
fn reason_behind<'a>(name: &'a str, command: &Command<'a>, words: &'a [String]) -> Reason<'a> {
    let mut waiting: Option<GivenOption<'_, 'a>> = None;
    let has_place = command
        .get_arguments()
        .iter()
        .any(|arg| arg.is_positional());
    let mut is_placed = false;
    for (at, word) in words.iter().enumerate() {
        let word = word.as_str();
        if let Some(given) = waiting {
            waiting = None;
            if !given.may_be_bare() || !is_option(word) {
                if let Some(reason) = given.reason_against(word) {
                    return reason;
                }
                continue;
            }
        }
        if !is_option(word) {
            if !has_place {
                return Reason::NoPlace {
                    command: name,
                    word,
                };
            }
            is_placed = true;
            continue;
        }
        match given_by(name, command, &words[..at], word) {
            Ok(given) => waiting = given,
            Err(reason) => return reason,
        }
    }
    match waiting {
        Some(given) if !given.may_be_bare() => given.no_value(),
        _ => reason_of_whole(name, words, is_placed),
    }
}

/// An option that was given, as it was written.
#[derive(Clone, Copy)]
struct GivenOption<'c, 'a> {
    option: &'a str,
    arg: &'c Arg<'a>,
}

impl<'c, 'a> GivenOption<'c, 'a> {
    /// Whether it needs no value.
    fn may_be_bare(self) -> bool {
        match self.arg.get_num_args() {
            Some(range) => range.min_values() == 0,
            None => false,
        }
    }

    fn no_value(self) -> Reason<'a> {
        Reason::NoValue {
            option: self.option,
            right: self.arg.get_help().unwrap_or("a value"),
        }
    }

    /// Why its value can't be this word, if so.
    fn reason_against(self, value: &'a str) -> Option<Reason<'a>> {
        if value.is_empty() || is_option(value) {
            return Some(self.no_value());
        }
        let is_right = match self.arg.get_value_parser() {
            ValueParser::Unsigned(low, high) => match value.parse::<u64>() {
                Ok(number) => low <= number && number <= high,
                Err(_) => false,
            },
            _ => match self.arg.get_id() {
                "log" => form_of(value).is_some(),
                "time" => time_form_of(value).is_some(),
                "trace" => tracing::form_of(value).is_some(),
                "side" => side_named(value).is_some(),
                "use_tls" => value == "false",
                "level" => Level::named(value).is_some(),
                _ => true,
            },
        };
        if is_right {
            return None;
        }
        Some(Reason::WrongValue {
            option: self.option,
            value,
            right: self.arg.get_help().unwrap_or("another value"),
        })
    }
}

/// A word that stands for an option, and not for itself.
fn is_option(word: &str) -> bool {
    word.len() > 1 && word.starts_with('-')
}

/// The option without its value, and its value if that is attached.
fn parts_of(word: &str) -> (&str, Option<&str>) {
    match word.split_once('=') {
        Some((option, value)) => (option, Some(value)),
        None => (word, None),
    }
}

/// The argument of the command that an option names.
fn arg_of<'c, 'a>(name: &str, command: &'c Command<'a>, option: &str) -> Option<&'c Arg<'a>> {
    let long = match option.strip_prefix("--")? {
        "server_host" if name == "case" => "host",
        "server_port" if name == "case" => "port",
        long => long,
    };
    command
        .get_arguments()
        .iter()
        .find(|arg| arg.get_long().is_some_and(|known| known == long))
}

/// The option of a word, if its value is the next word; or why it is wrong after the words before
/// it.
fn given_by<'c, 'a>(
    name: &'a str,
    command: &'c Command<'a>,
    before: &'a [String],
    word: &'a str,
) -> Result<Option<GivenOption<'c, 'a>>, Reason<'a>> {
    let (option, value) = parts_of(word);
    let Some(arg) = arg_of(name, command, option) else {
        return Err(Reason::NoOption {
            command: name,
            option,
        });
    };
    let is_repeatable = matches!(arg.get_action(), ArgAction::Append);
    let known = before.iter().map(|other| parts_of(other.as_str()).0).find(|other| {
        arg_of(name, command, other).is_some_and(|same| same.get_id() == arg.get_id())
    });
    if let (Some(other), false) = (known, is_repeatable) {
        return Err(Reason::Repeated { option, other });
    }
    let given = GivenOption { option, arg };
    let is_flag = matches!(arg.get_action(), ArgAction::SetTrue);
    match value {
        None if is_flag => Ok(None),
        None => Ok(Some(given)),
        Some(_) if is_flag => Err(Reason::NeedlessValue { option }),
        Some(value) => match given.reason_against(value) {
            Some(reason) => Err(reason),
            None => Ok(None),
        },
    }
}

/// Why the words after a command are not enough, or too many, if it takes each of them. `is_placed`
/// says whether one of them stands for itself.
fn reason_of_whole<'a>(command: &'a str, words: &[String], is_placed: bool) -> Reason<'a> {
    match excluding(command, words, is_placed) {
        Some(both) => Reason::Excluding { both },
        None if command == "frames" => Reason::TooMany {
            command,
            what: "two files at most",
        },
        None => Reason::Missing {
            command,
            what: missing(command, words, is_placed),
        },
    }
}

/// Which two of a command's words exclude each other, if any do.
fn excluding(command: &str, words: &[String], is_placed: bool) -> Option<&'static str> {
    if has_cases(command) && has_option(words, "--tap") && has_json_output(words) {
        return Some("--tap and --json -");
    }
    match command {
        "serve" if has_option(words, "--any-port") => Some("--port and --any-port"),
        "case" if has_option(words, "--list") => Some("NAME and --list"),
        "case" if is_placed && has_option(words, "--test_case") => Some("NAME and --test_case"),
        "misbehave" if has_option(words, "--list") && is_placed => Some("--list and NAME"),
        "misbehave" if has_option(words, "--list") => Some("--list and --port"),
        "wire" if is_placed && has_option(words, "--list") => Some("CASES and --list"),
        _ => None,
    }
}

/// What is missing, or all that the command takes.
fn missing(command: &str, words: &[String], is_placed: bool) -> &'static str {
    match command {
        "misbehave" if has_option(words, "--verbose") => "--list",
        "case" if has_option(words, "--test_case") => "--port P",
        "case" | "misbehave" | "wire" if is_placed => "--port P",
        "case" => "NAME.. or --test_case NAME, or --list",
        "misbehave" => "NAME.., or --list",
        "serve" => "--port P or --any-port",
        "wire" => "all, GROUP, GROUP/N or GROUP/N-M, or --list",
        _ => takes(command),
    }
}

fn has_option(words: &[String], option: &str) -> bool {
    words.iter().any(|word| parts_of(word.as_str()).0 == option)
}

/// Whether JSON is to be written to standard output.
fn has_json_output(words: &[String]) -> bool {
    let mut is_named = false;
    for word in words {
        let word = word.as_str();
        if word == "--json=-" || is_named && word == "-" {
            return true;
        }
        is_named = word == "--json";
    }
    false
}
