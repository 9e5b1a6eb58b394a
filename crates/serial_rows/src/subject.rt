//! Rows of connections.

use crate::digits::{bytes_of, frames_of};
use crate::runs::{Course, run_connection};
use crate::serial::RunOutcome;
use crate::told::Streams;
use crate::words::Words;
use account::Shut;
use anyhow::{Context, Result, bail};
use callparts::CallAccount;
use handlers::Methods;
use rows::{GivenRow, Subject};
use std::alloc::Global;
use std::fs;
use std::rt::Files;
use std::sync::Wait;
use std::time::Clock;

/// How a run compares with what is wanted; the last of two is the worse.
#[derive(Clone, Copy, Debug, PartialEq, Eq, PartialOrd, Ord)]
enum RowVerdict {
    /// All is as it is wanted.
    Same,
    /// Some of it is missing, of the stream alone that was reset, or after a failed write.
    Begins,
    Differs,
}

/// Connections, each with the runs that its row asks for.
#[derive(Drop)]
pub struct Connections<'a, R> {
    pub rt: &'a R,
    pub methods: &'a Methods,
}

impl<R: Files + AllocGlobal + Wait + Clock> Subject for Connections<'_, R> {
    fn restart(&mut self, _alloc: Global) {}

    fn answer(&mut self, alloc: Global, given: GivenRow<'_>, answer: &mut String) -> Result<()> {
        let words = Words::read(given.text)?;
        let name = format!(in alloc; "{}.hex", words.name)?;
        let text = fs::read_to_string(self.rt, name.as_str()).context("no bytes")?;
        let frames = frames_of(alloc, bytes_of(alloc, text.as_str())?.as_slice())?;
        let (rt, methods) = (self.rt, self.methods);
        let run = |course: Course<'_>| -> Result<RunOutcome> {
            run_connection(rt, alloc, methods, frames.as_slice(), course)
        };
        let course = words.course()?;
        let plain = run(course)?;
        let streams = Streams::read(alloc, plain.written.as_slice())?;
        let text = if words.has("recorded") {
            text_of(alloc, words, &streams, &plain)?
        } else {
            let name = format!(in alloc; "{}.out", words.name)?;
            fs::read_to_string(rt, name.as_str()).context("no text")?
        };
        let wanted = WantedRun {
            alloc,
            words,
            plain: &plain,
            streams: &streams,
            text: text.as_str(),
        };
        let mut worst = RowVerdict::Same;
        if !words.has("alone") {
            worst = wanted.verdict(&plain, answer)?;
        }
        for course in &wanted.courses(course)? {
            let ran = run(*course)?;
            worst = worst.max(wanted.verdict(&ran, answer)?);
        }
        write!(answer, "{worst:?}")?;
        Ok(())
    }
}

/// What the runs of a row are compared with: the plain run, what a peer reads of it, and the text
/// that is wanted.
#[derive(Clone, Copy)]
struct WantedRun<'a> {
    alloc: Global,
    words: Words<'a>,
    plain: &'a RunOutcome,
    streams: &'a Streams,
    text: &'a str,
}

impl<'a> WantedRun<'a> {
    /// The runs beside the plain one, which goes as this: that of the steps, those that follow from
    /// numbers, that of the worker's own loops, those of which each write fails in turn, and those
    /// that are disturbed after each turn.
    fn courses(&self, plain: Course<'a>) -> Result<Vec<Course<'a>>> {
        let words = self.words;
        let mut courses = Vec::new(self.alloc);
        if !words.steps.is_empty() {
            let steps = words.steps;
            courses.push(Course { steps, ..plain })?;
        }
        for number in 0..words.number("seeds")?.unwrap_or(0) {
            let seed = Some(number);
            courses.push(Course { seed, ..plain })?;
        }
        if words.has("worked") {
            let is_worked = true;
            courses.push(Course { is_worked, ..plain })?;
        }
        let writes = if words.has("fails") {
            self.plain.writes
        } else {
            0
        };
        for at in 0..writes {
            let fails_at = Some(at);
            courses.push(Course { fails_at, ..plain })?;
        }
        let (resets, jump) = (words.stream("resets")?, words.number("jump")?);
        let is_disturbed = resets != 0 || jump.is_some();
        for turn in 0..if is_disturbed { self.plain.turns } else { 0 } {
            courses.push(Course {
                reset: (resets != 0).then_some((resets, turn)),
                jump: jump.map(|moment| (moment, turn)),
                ..plain
            })?;
        }
        Ok(courses)
    }

    /// How a run compares with what is wanted. If it differs, the answer says what came of it.
    fn verdict(&self, ran: &RunOutcome, answer: &mut String) -> Result<RowVerdict> {
        let streams = Streams::read(self.alloc, ran.written.as_slice())?;
        let text = text_of(self.alloc, self.words, &streams, ran)?;
        if streams.is_unlawful || !ran.is_accounted {
            answer.push_str("unlawful; ")?;
        } else if text.as_str() == self.text {
            return Ok(RowVerdict::Same);
        } else if ran.ran_out {
            bail!("out of memory");
        } else if self.begins(ran, &streams)? {
            return Ok(RowVerdict::Begins);
        }
        for line in text.as_str().lines() {
            write!(answer, "{line}; ")?;
        }
        Ok(RowVerdict::Differs)
    }

    /// Whether what was written begins what is wanted, where a write may fail or a stream be
    /// disturbed.
    fn begins(&self, ran: &RunOutcome, streams: &Streams) -> Result<bool> {
        if self.words.has("fails") {
            let whole = self.plain.written.as_slice();
            return Ok(whole.starts_with(ran.written.as_slice()));
        }
        let id = self.words.disturbed()?;
        Ok(id != 0 && streams.begins(self.streams, id))
    }
}

/// The text of what a peer reads, of what else the row asks for, and of how the connection ended.
fn text_of(alloc: Global, words: Words<'_>, streams: &Streams, ran: &RunOutcome) -> Result<String> {
    let mut text = String::new(alloc);
    streams.push_text(&mut text, words.stream("from")?)?;
    for (word, title) in [("rows", "calls\n"), ("halves", "halves\n")] {
        if words.has(word) {
            text.push_str(title)?;
            for account in (0..ran.accounts.len()).filter_map(|place| ran.accounts.get(place)) {
                push_account(&mut text, account, word)?;
            }
        }
    }
    if words.has("looks") {
        text.push_str("settled")?;
        for id in &ran.settled {
            match id {
                0 => text.push_str(" |")?,
                id => write!(text, " {id}")?,
            }
        }
        text.push('\n')?;
    }
    if words.has("workers") {
        writeln!(text, "workers {}", ran.workers)?;
    }
    if words.has("orders") {
        text.push_str("orders")?;
        for kind in &ran.kinds {
            write!(text, " {kind}")?;
        }
        text.push('\n')?;
    }
    if words.has("in_order") {
        text.push_str("in order\n")?;
        text.push_str(streams.frames.as_str())?;
    }
    let ending = ran.ending.code();
    writeln!(text, "ending {ending}")?;
    Ok(text)
}

/// Adds a call's stream. By the word `rows` it adds how many messages were taken and given, and the
/// status, if there is one; by another word how many bytes its worker was fed, and how its half was
/// shut, if the worker knows.
fn push_account(text: &mut String, account: &CallAccount, word: &str) -> Result<()> {
    let (id, input, replies) = (account.id, account.input, account.traffic.replies);
    if word == "rows" {
        write!(text, "  {id} took {} gave {replies}", input.taken)?;
        if let Some(status) = account.status {
            write!(text, " status {status}")?;
        }
    } else {
        write!(text, "  {id} fed {}", input.fed)?;
        match input.shut {
            Some(Shut::End) => text.push_str(" end")?,
            Some(Shut::Reset(code)) => write!(text, " reset {code}")?,
            None => {}
        }
    }
    text.push('\n')?;
    Ok(())
}
