//! What is made of what passes on a connection.

ghost use Rattle.std.specs.Prelude.{◌≡◌, IfOk};
ghost use Rattle.recorder.specs.Noted.{IsCaptured, IsClosed, talk_of};

use crate::ends::Ends;
use crate::start::Seconds;
use capture::{Conversation, Side, Time};
use connlog::Observer;
use std::alloc::{AllocError, Global};
use trace::{Form, Line, ShownLine, Trace};

/// How many sequence numbers TCP has (RFC 9293, section 3.4).
const SEQUENCES: u64 = 4_294_967_296;

/// What is known of a connection.
#[derive(Drop)]
pub struct Notes {
    alloc: Global,
    number: u64,
    /// How much lines say.
    form: Form,
    /// Of its frames, where there are lines.
    trace: Option<Trace>,
    /// Of its segments, where there is a capture.
    talk: Option<Conversation>,
    /// Of why this server ends streams and the connection, where there are lines and it is its own.
    observer: Option<Observer>,
}

/// What is to be written.
#[derive(Drop)]
pub struct Entry {
    /// Whole lines.
    pub lines: String,
    /// Whole records of a capture.
    pub records: Vec<u8>,
}

/// Which of both is wanted.
#[derive(Clone, Copy, Debug, PartialEq, Eq)]
pub struct Wish {
    /// How much lines say, if there are lines.
    pub form: Option<Form>,
    pub has_capture: bool,
}

impl Entry {
    fn of_lines(alloc: Global, lines: String) -> Entry {
        Entry {
            lines,
            records: Vec::new(alloc),
        }
    }
}

impl Notes {
    /// A connection with this number begins. Its line has the label too, if it has one.
    pub fn begin(
        alloc: Global,
        number: u64,
        wish: Wish,
        ends: Ends,
        label: Option<&str>,
        time: Time,
    ) -> Result<(Notes, Entry), AllocError> {
        let mut notes = Notes {
            alloc,
            number,
            form: wish.form.unwrap_or(Form::Short),
            trace: wish.form.map(|_| Trace::new(alloc)),
            talk: None,
            observer: None,
        };
        let mut entry = Entry::of_lines(alloc, notes.first_line(ends, label)?);
        if wish.has_capture {
            let first = (number % SEQUENCES) as u32;
            let (talk, records) = Conversation::open(alloc, ends.path(), time, first)?;
            notes.talk = Some(talk);
            entry.records = records;
        }
        Ok((notes, entry))
    }

    /// The connection is this server's own: lines say why it ends streams, and the connection.
    pub fn explain(&mut self) {
        if self.trace.is_some() {
            self.observer = Some(Observer::new(self.alloc));
        }
    }

    /// The line of the beginning, where there are lines.
    fn first_line(&self, ends: Ends, label: Option<&str>) -> Result<String, AllocError> {
        let mut text = String::new(self.alloc);
        if self.trace.is_none() {
            return Ok(text);
        }
        let number = self.number;
        let (begin, Ends { client, server }) = (Seconds(0), ends);
        write!(text, "conn {number} {begin} from {client} to {server}")?;
        if let Some(label) = label {
            write!(text, ": {label}")?;
        }
        text.push('\n')?;
        Ok(text)
    }

    /// A side has sent these bytes, `passed` microseconds after the connection began, at this time.
    pub fn sent(
        &mut self,
        passed: u64,
        time: Time,
        side: Side,
        bytes: &[u8],
    ) -> Result<Entry, AllocError>
        ensures records { IfOk result (λ entry. IsCaptured
            (talk_of self.old) time side bytes.now entry.records.items (talk_of self.new)) }
    {
        let lines = self.lines_of(passed, side, bytes)?;
        let records = self.records_of(time, side, bytes)?;
        Ok(Entry { lines, records })
    }

    /// The lines of the frames that are whole by these bytes.
    fn lines_of(&mut self, passed: u64, side: Side, bytes: &[u8]) -> Result<String, AllocError>
        ensures same { talk_of self.new ≡ talk_of self.old }
    {
        let mut text = String::new(self.alloc);
        if let Some(trace) = &mut self.trace {
            let lines = trace.sent(passed, side, bytes)?;
            push_lines(&mut text, self.number, self.form, lines.as_slice())?;
            self.push_causes(&mut text, passed, side, bytes)?;
        }
        Ok(text)
    }

    /// The lines of why this server did what it did by these bytes.
    fn push_causes(
        &mut self,
        text: &mut String,
        passed: u64,
        side: Side,
        bytes: &[u8],
    ) -> Result<(), AllocError>
        ensures same { talk_of self.new ≡ talk_of self.old }
    {
        let Some(observer) = &mut self.observer else {
            return Ok(());
        };
        match side {
            Side::Client => observer.read(bytes),
            Side::Server => observer.wrote(bytes),
        }
        let (number, seconds) = (self.number, Seconds(passed));
        for line in &observer.take_lines() {
            let Some(cause) = &line.why else {
                continue;
            };
            write!(text, "conn {number} {seconds} fault: ")?;
            if line.stream != 0 {
                let stream = line.stream;
                write!(text, "stream {stream}: ")?;
            }
            writeln!(text, "{cause}")?;
        }
        Ok(())
    }

    /// The records of their segments.
    fn records_of(&mut self, time: Time, side: Side, bytes: &[u8]) -> Result<Vec<u8>, AllocError>
        ensures { IfOk result (λ records. IsCaptured
            (talk_of self.old) time side bytes.now records.items (talk_of self.new)) }
    {
        match &mut self.talk {
            Some(talk) => talk.send(self.alloc, time, side, bytes),
            None => Ok(Vec::new(self.alloc)),
        }
    }

    /// A fault is seen where the connection is now.
    pub fn fault(&self, passed: u64, text: &str) -> Result<Entry, AllocError> {
        let mut line = String::new(self.alloc);
        if self.trace.is_some() {
            let (number, seconds) = (self.number, Seconds(passed));
            writeln!(line, "conn {number} {seconds} fault: {text}")?;
        }
        Ok(Entry::of_lines(self.alloc, line))
    }

    /// The connection has ended.
    pub fn end(self, passed: u64, time: Time) -> Result<Entry, AllocError>
        ensures records { IfOk result
            (λ entry. IsClosed (talk_of self) time entry.records.items) }
    {
        let Notes {
            alloc,
            number,
            form,
            trace,
            talk,
            observer,
        } = self;
        drop(observer);
        let lines = last_lines(alloc, number, form, trace, passed)?;
        let records = match talk {
            Some(talk) => talk.close(alloc, time)?,
            None => Vec::new(alloc),
        };
        Ok(Entry { lines, records })
    }
}

/// The lines of what a connection has left over, and of its end.
fn last_lines(
    alloc: Global,
    number: u64,
    form: Form,
    trace: Option<Trace>,
    passed: u64,
) -> Result<String, AllocError> {
    let mut text = String::new(alloc);
    if let Some(trace) = trace {
        let lines = trace.end(passed)?;
        push_lines(&mut text, number, form, lines.as_slice())?;
        let seconds = Seconds(passed);
        writeln!(text, "conn {number} {seconds} ended")?;
    }
    Ok(text)
}

fn push_lines(
    text: &mut String,
    number: u64,
    form: Form,
    lines: &[Line],
) -> Result<(), AllocError> {
    for line in lines {
        let shown = ShownLine { line, form };
        writeln!(text, "conn {number} {shown}")?;
    }
    Ok(())
}
