//! All places where the results of a run go.

ghost use Rattle.std.specs.Prelude.{◌≡◌, ◌++◌, ◌∷◌, [], not, IfOk, OnOk};
ghost use Rattle.std.specs.Io.KnownBytes.{Appends};
ghost use Rattle.std.specs.List.{list_any};
ghost use Rattle.results.specs.Standings.{fails_the_run};
ghost use Rattle.sinks.specs.Told.{standing_line};
ghost use Rattle.sinks.specs.declared.sinks.Form.TheVariants as forms;

use crate::fault::SinkFault;
use crate::files::{create, create_directory, read, unwritten, write, write_whole};
use crate::progress::Progress;
use crate::saved::{is_saved, save};
use device::{ConnWrite, write_all};
use results::{
    KnownFailure, KnownFault, Outcome, Standing, Suite, TAP_VERSION, Verdict, fail_the_run,
    json_line, json_summary, known_named, push_junit, push_plan, push_summary, push_tap,
    read_known, renewed, stray, summary_of,
};
use std::alloc::{AllocError, Global};
use std::io::Write;
use std::rt::Files;
use std::time::Clock;
use words::Reporting;

/// The name by which a file is standard output.
const STANDARD: &str = "-";

/// A run of cases.
#[derive(Clone, Copy)]
pub struct Run<'a, 'n> {
    pub suite: Suite,
    /// Where its results go, and which failures are known.
    pub reporting: &'a Reporting<'a>,
    /// The names of all cases that there are.
    pub names: &'n [&'n str],
    /// How many cases are chosen; each is run as often as the words say.
    pub chosen: usize,
    /// Whether its progress is shown on standard error.
    pub is_shown: bool,
}

/// What standard output has.
#[derive(Clone, Copy, Debug, PartialEq, Eq)]
pub enum Form {
    Text,
    Json,
    Tap,
}

impl Form {
    /// What standard output has where results go so.
    pub fn of(reporting: &Reporting<'_>) -> Form {
        match reporting.json {
            Some(name) if name == STANDARD => Form::Json,
            _ if reporting.has_tap => Form::Tap,
            _ => Form::Text,
        }
    }
}

/// The places where the results of a run go, while it goes on.
#[derive(Drop)]
pub struct Sinks<'a, R: Files> {
    rt: R,
    alloc: Global,
    suite: Suite,
    reporting: &'a Reporting<'a>,
    pub form: Form,
    /// The file for JSON.
    json: Option<R::File>,
    known: Vec<KnownFailure>,
    /// What the list of known failures begins with: lines that name no case.
    head: String,
    /// The outcomes that were reported, in the order of the cases.
    pub outcomes: Vec<Outcome>,
    /// Whether something was printed of a case.
    has_told: bool,
    /// Whether the server was gone before the end of the run.
    is_cut: bool,
    progress: Progress,
}

impl<'a, R: Files + Clock + Eprint + AllocGlobal + Drop> Sinks<'a, R> {
    /// Reads the known failures, and makes the files that are written as cases end.
    ///
    /// # Errors
    ///
    /// `ReadFailed` and `BadKnown` of the list of known failures, `WriteFailed` of a file; standard
    /// error says why.
    pub fn open(rt: R, alloc: Global, run: Run<'a, '_>) -> Result<Sinks<'a, R>, SinkFault> {
        let reporting = run.reporting;
        let (known, head) = match reporting.known {
            Some(name) => known_failures(&rt, alloc, name, run.names)?,
            None => (Vec::new(alloc), String::new(alloc)),
        };
        if let Some(directory) = reporting.save {
            create_directory(&rt, directory)?;
        }
        let json = match reporting.json {
            Some(name) if name != STANDARD => Some(create(&rt, name)?),
            _ => None,
        };
        if let Some(name) = reporting.junit {
            create(&rt, name)?;
        }
        let total = run.chosen.saturating_mul(usize::from(reporting.repeat));
        let progress = Progress::begin(&rt, run.suite.name(), total, run.is_shown);
        progress.show(&rt);
        Ok(Sinks {
            rt,
            alloc,
            suite: run.suite,
            reporting,
            form: Form::of(reporting),
            json,
            known,
            head,
            outcomes: Vec::new(alloc),
            has_told: false,
            is_cut: false,
            progress,
        })
    }

    /// Prints lines that are no results: nothing where standard output has another form than text.
    pub fn say<W: ConnWrite>(&mut self, text: &str, output: &mut W) -> Result<(), SinkFault> {
        if self.form == Form::Text {
            self.print(text.as_bytes(), output)?;
        }
        Ok(())
    }

    /// Says on standard error why a case failed. The line that counts may stand there.
    pub fn note(&self, case: &str, why: &str) {
        self.progress.hide(&self.rt);
        // The result reports it even if nothing can be written here.
        let _said = eprintln!(self.rt; "{case}: {why}");
        self.progress.show(&self.rt);
    }

    /// Takes the line that counts away, until the next case ends.
    pub fn hide(&self) {
        self.progress.hide(&self.rt);
    }

    /// Takes what came of a case that has just ended: writes its line of JSON and its bytes, and
    /// counts it. Of one that is ok or doesn't apply the bytes are dropped.
    pub fn ended<W: ConnWrite>(
        &mut self,
        outcome: &mut Outcome,
        output: &mut W,
    ) -> Result<(), SinkFault> {
        if let Some(known) = known_named(self.known.as_slice(), outcome.name.as_str()) {
            outcome.known = Some(known.copy(self.alloc)?);
        }
        self.put(outcome, output)
    }

    /// Takes what came of a case, as `ended` does, where the server is gone: that is no known
    /// failure, and no new list is written.
    pub fn lost<W: ConnWrite>(
        &mut self,
        outcome: &mut Outcome,
        output: &mut W,
    ) -> Result<(), SinkFault> {
        self.is_cut = true;
        self.put(outcome, output)
    }

    /// Writes the line of JSON and the bytes of a case that has just ended, and counts it.
    fn put<W: ConnWrite>(
        &mut self,
        outcome: &mut Outcome,
        output: &mut W,
    ) -> Result<(), SinkFault> {
        if !is_saved(outcome) {
            outcome.sent = None;
            outcome.read = None;
        }
        let line = json_line(self.alloc, outcome)?;
        self.put_json(line.as_str(), output)?;
        if let Some(directory) = self.reporting.save {
            save(&self.rt, self.alloc, directory, outcome)?;
        }
        self.progress
            .count(is_told_as_failed(outcome), outcome.fails_the_run());
        self.progress.show(&self.rt);
        Ok(())
    }

    /// Prints the lines of a case that has ended. Cases are reported in their order.
    pub fn tell<W: ConnWrite>(
        &mut self,
        outcome: Outcome,
        lines: &[u8],
        output: &mut W,
    ) -> Result<(), SinkFault>
        ensures kept { OnOk result
            (self.new.outcomes.items ≡ self.old.outcomes.items ++ outcome ∷ []) }
        ensures text { OnOk result (self.old.form ≡ forms.Text
            → Appends (W.contents output.old) (W.contents output.new)
            (lines.now ++ standing_line outcome)) }
    {
        match self.form {
            Form::Text => self.tell_text(&outcome, lines, output)?,
            Form::Tap => self.tell_point(&outcome, output)?,
            Form::Json => {}
        }
        self.has_told = true;
        self.keep(outcome)
    }

    /// Keeps what came of a case, for the files alone.
    pub fn keep(&mut self, outcome: Outcome) -> Result<(), SinkFault>
        ensures { OnOk result (self.new.outcomes.items ≡ self.old.outcomes.items ++ outcome ∷ []) }
    {
        self.outcomes.push(outcome)?;
        Ok(())
    }

    /// Prints the lines of a case, and what the list of known failures has of it.
    fn tell_text<W: ConnWrite>(
        &self,
        outcome: &Outcome,
        lines: &[u8],
        output: &mut W,
    ) -> Result<(), SinkFault>
        ensures { OnOk result (Appends (W.contents output.old) (W.contents output.new)
            (lines.now ++ standing_line outcome.now)) }
    {
        let mut text = Vec::from_slice(self.alloc, lines)?;
        push_standing(&mut text, outcome)?;
        self.print(text.as_slice(), output)
    }

    /// Prints the test point of a case.
    fn tell_point<W: ConnWrite>(&self, outcome: &Outcome, output: &mut W) -> Result<(), SinkFault> {
        let number = self.outcomes.len().saturating_add(1);
        let mut text = String::new(self.alloc);
        if number == 1 {
            text.push_str(TAP_VERSION)?;
        }
        push_tap(self.alloc, &mut text, number, outcome)?;
        self.print(text.as_bytes(), output)
    }

    /// Whether no further case is run, since one failed.
    pub fn is_over(&self) -> bool {
        self.reporting.fails_fast && self.progress.is_failing()
    }

    /// Says that the run ends before all of its cases were run, and why, where a form has words for
    /// it.
    pub fn bail_out<W: ConnWrite>(&mut self, why: &str, output: &mut W) -> Result<(), SinkFault> {
        self.is_cut = true;
        if self.form == Form::Tap {
            let line = format!(in self.alloc; "Bail out! {why}\n")?;
            self.print(line.as_bytes(), output)?;
        }
        Ok(())
    }

    /// Prints how many cases ended in which way, and writes the files that are written at the end.
    /// It answers whether the run hasn't failed.
    pub fn close<W: ConnWrite>(&mut self, output: &mut W) -> Result<bool, SinkFault>
        ensures { IfOk result
            (λ passes. passes ≡ not (list_any fails_the_run self.old.outcomes.items)) }
    {
        let passes = !fail_the_run(self.outcomes.as_slice());
        let milliseconds = self.progress.milliseconds(&self.rt);
        self.progress.end(&self.rt);
        let summary = summary_of(self.outcomes.as_slice());
        let mut text = String::new(self.alloc);
        match self.form {
            // Nothing is to be summed up where there was no connection for any case.
            _ if !self.has_told => {}
            Form::Text => push_summary(&mut text, self.suite, &summary, milliseconds)?,
            Form::Tap => push_plan(&mut text, self.outcomes.len())?,
            Form::Json => {}
        }
        self.print(text.as_bytes(), output)?;
        let line = json_summary(self.alloc, self.suite, &summary, milliseconds)?;
        self.put_json(line.as_str(), output)?;
        self.write_files(milliseconds)?;
        Ok(passes)
    }

    /// Writes the files that are written at the end.
    fn write_files(&self, milliseconds: u64) -> Result<(), SinkFault> {
        let outcomes = self.outcomes.as_slice();
        if let Some(name) = self.reporting.junit {
            let mut xml = String::new(self.alloc);
            push_junit(self.alloc, &mut xml, self.suite, outcomes, milliseconds)?;
            write(&self.rt, name, xml.as_bytes())?;
        }
        if let Some(name) = self.reporting.write_known {
            self.write_list(name)?;
        }
        Ok(())
    }

    /// Writes the new list of known failures, where the server was there to the end.
    fn write_list(&self, name: &str) -> Result<(), SinkFault> {
        if self.is_cut {
            let _said = eprintln!(self.rt;
                "interop: {name} isn't written: the server was gone before the end"
            );
            return Ok(());
        }
        let list = renewed(self.alloc, self.known.as_slice(), self.outcomes.as_slice())?;
        let mut text = String::from_str(self.alloc, self.head.as_str())?;
        text.push_str(list.as_str())?;
        write_whole(&self.rt, self.alloc, name, text.as_str())
    }

    /// Writes a line of JSON where such lines go.
    fn put_json<W: ConnWrite>(&mut self, line: &str, output: &mut W) -> Result<(), SinkFault> {
        if self.form == Form::Json {
            return self.print(line.as_bytes(), output);
        }
        let (Some(file), Some(name)) = (&mut self.json, self.reporting.json) else {
            return Ok(());
        };
        match file.write_all(line.as_bytes()) {
            Ok(()) => Ok(()),
            Err(error) => Err(unwritten(&self.rt, name, &error)),
        }
    }

    /// Prints lines on standard output. The line that counts stands below them.
    fn print<W: ConnWrite>(&self, text: &[u8], output: &mut W) -> Result<(), SinkFault>
        ensures { OnOk result (Appends (W.contents output.old) (W.contents output.new) text.now) }
    {
        self.progress.hide(&self.rt);
        let written = write_all(output, text);
        if written.is_err() {
            let _said = eprintln!(self.rt; "interop: standard output can't be written");
        }
        written?;
        self.progress.show(&self.rt);
        Ok(())
    }
}

/// Whether the sum counts a case among those that failed.
fn is_told_as_failed(outcome: &Outcome) -> bool {
    outcome.verdict == Verdict::Failed && outcome.standing() == Standing::AsFound
}

/// The lines that a list begins with and that name no case.
fn head_of(alloc: Global, text: &str) -> Result<String, AllocError> {
    let mut head = String::new(alloc);
    for line in text.lines() {
        let told = line.trim();
        if !told.is_empty() && !told.starts_with("#") {
            break;
        }
        head.push_str(line)?;
        head.push_str("\n")?;
    }
    Ok(head)
}

/// The known failures that a file lists, each the name of a case, and the lines that it begins with
/// and that name none.
fn known_failures<R: Files + Eprint + AllocGlobal>(
    rt: &R,
    alloc: Global,
    file: &str,
    names: &[&str],
) -> Result<(Vec<KnownFailure>, String), SinkFault> {
    let text = read(rt, file)?;
    let known = match read_known(alloc, text.as_str()) {
        Ok(known) => known,
        Err(KnownFault::OutOfMemory) => return Err(SinkFault::OutOfMemory),
        Err(fault) => {
            let _said = eprintln!(rt; "interop: {file}, {fault}");
            return Err(SinkFault::BadKnown);
        }
    };
    if let Some(other) = stray(known.as_slice(), names) {
        let name = other.name.as_str();
        let number = line_of(text.as_str(), name);
        let _said = eprintln!(rt; "interop: {file}, line {number}: there is no case {name}");
        return Err(SinkFault::BadKnown);
    }
    let head = head_of(alloc, text.as_str())?;
    Ok((known, head))
}

/// The number of the line of a list that names this case, from 1 on.
fn line_of(text: &str, name: &str) -> usize {
    let mut number = 0usize;
    for line in text.lines() {
        number = number.saturating_add(1);
        let told = line.trim();
        let first = match told.split_once(' ') {
            Some((first, _)) => first,
            None => told,
        };
        if first == name {
            break;
        }
    }
    number
}

/// Adds what the list of known failures has of a case, in a line.
fn push_standing(text: &mut Vec<u8>, outcome: &Outcome) -> Result<(), AllocError>
    ensures { OnOk result (text.new.items ≡ text.old.items ++ standing_line outcome.now) }
{
    match (outcome.standing(), &outcome.known) {
        (Standing::Known, Some(known)) => {
            let reason = known.reason.as_str();
            writeln!(text, "  known: {reason}").map_err(|_| AllocError)
        }
        (Standing::Mended, _) => {
            writeln!(
                text,
                "  no longer fails: take it off the list of known failures"
            )
            .map_err(|_| AllocError)
        }
        _ => Ok(()),
    }
}
