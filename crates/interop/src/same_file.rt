//! Two forms of results for one file, which would keep only the one that is written last.

use words::{CaseWords, MisbehaveWords, Reason, Reporting, WireWords, Words};

/// Why these words are refused, if two forms of results would go to one file.
pub fn same_file<'a>(words: &Words<'a>) -> Option<Reason<'a>> {
    match words {
        Words::Case(CaseWords::Run(run)) => repeated(&run.reporting),
        Words::Wire(WireWords::Run(run)) => repeated(&run.reporting),
        Words::Misbehave(MisbehaveWords::Play(run)) => repeated(&run.reporting),
        _ => None,
    }
}

/// The option whose file was named before.
fn repeated<'a>(reporting: &Reporting<'a>) -> Option<Reason<'a>> {
    let Reporting {
        json,
        junit,
        write_known,
        ..
    } = *reporting;
    // (that name is standard output)
    let json = match json {
        Some(name) if name == "-" => None,
        _ => json,
    };
    if is_same(json, junit) {
        return other_than("--junit", junit, "another file than that of --json");
    }
    if is_same(json, write_known) {
        return other_than(
            "--write-known",
            write_known,
            "another file than that of --json",
        );
    }
    if is_same(junit, write_known) {
        return other_than(
            "--write-known",
            write_known,
            "another file than that of --junit",
        );
    }
    None
}

/// Whether both are named, and alike.
fn is_same(one: Option<&str>, other: Option<&str>) -> bool {
    match (one, other) {
        (Some(one), Some(other)) => one == other,
        _ => false,
    }
}

/// Says that the file of an option has to be another.
fn other_than<'a>(
    option: &'static str,
    file: Option<&'a str>,
    right: &'static str,
) -> Option<Reason<'a>> {
    Some(Reason::WrongValue {
        option,
        value: file?,
        right,
    })
}
