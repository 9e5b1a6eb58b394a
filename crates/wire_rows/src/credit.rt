//! Histories of the windows of what is sent, `windows.rows`, and of a credit book, `books.rows`: a
//! call, and its answer.

use anyhow::{Result, bail, ensure};
use creditbook::{Book, BookFault, Marks};
use sendwindows::SendWindows;
use h2frame::StreamId;
use rows::number;
use std::fmt::{Debug, Display};

/// The number of a call's word, or 0 where it has none.
fn number_at(words: &[&str], place: usize) -> Result<u32> {
    match words.get(place) {
        Some(word) => number(word),
        None => Ok(0),
    }
}

fn push<T: Display + Drop>(answer: &mut String, value: T) -> Result<()> {
    write!(answer, "{value}")?;
    Ok(())
}

/// Writes the answer of a call that succeeds or is refused.
fn push_done<E: Debug + Drop>(answer: &mut String, done: Result<(), E>) -> Result<()> {
    match done {
        Ok(()) => answer.push_str("ok")?,
        Err(fault) => write!(answer, "{fault:?}")?,
    }
    Ok(())
}

/// A call on the windows of a connection.
pub fn windows(windows: &mut SendWindows, words: &[&str], answer: &mut String) -> Result<()> {
    let call = words.first().copied().unwrap_or("");
    let (id, amount) = (number_at(words, 1)?, number_at(words, 2)?);
    match call {
        "open" => {
            if id == 0 || windows.has(id) {
                bail!("stream {id} can't be opened");
            }
            push_done(answer, windows.open(id))
        }
        "credit" => push_done(answer, windows.credit(id, amount)),
        "spend" => push_done(answer, windows.spend(id, amount)),
        "initial" => push_done(answer, windows.initial(id)),
        "close" => {
            windows.close(id);
            push(answer, "ok")
        }
        "room" => push(answer, windows.room(id)),
        "spend_up_to" => push(answer, windows.spend_up_to(id, amount)),
        _ => bail!("{call} is no call"),
    }
}

/// The word for the ends of a call that are marked.
fn name_of(marks: Option<Marks>) -> &'static str {
    let Some(marks) = marks else {
        return "not live";
    };
    match (marks.remote, marks.local) {
        (false, false) => "no end",
        (true, false) => "remote end",
        (false, true) => "local end",
        (true, true) => "both ends",
    }
}

/// Admits a call of each odd number.
fn admit(book: &mut Book, first: StreamId, last: StreamId) -> Result<Result<(), BookFault>> {
    ensure!(first % 2 == 1, "call {first} is none that may be admitted");
    for id in first..=last {
        if id % 2 == 1 {
            ensure!(id > book.last(), "call {id} is none that may be admitted");
            let done = book.admit(id);
            if done.is_err() {
                return Ok(done);
            }
        }
    }
    Ok(Ok(()))
}

/// A call on a credit book.
pub fn books(book: &mut Book, words: &[&str], answer: &mut String) -> Result<()> {
    if let ["admit", first, "to", last] = words {
        return push_done(answer, admit(book, number(first)?, number(last)?)?);
    }
    let call = words.first().copied().unwrap_or("");
    let (id, amount) = (number_at(words, 1)?, number_at(words, 2)?);
    match call {
        "admit" => push_done(answer, admit(book, id, id)?),
        "receive" => push_done(answer, book.receive(id, amount)),
        "give-back" => push_done(answer, book.give_back(id, amount)),
        "end-remote" => push_done(answer, book.end_remote(id)),
        "end-local" => push_done(answer, book.end_local(id)),
        "cut" => push_done(answer, book.cut(id)),
        "announce" => push(answer, book.announce(id)),
        "close" => {
            book.close();
            push(answer, "ok")
        }
        _ => push_state(book, call, id, answer),
    }
}

/// What a credit book says of a call, or of itself.
fn push_state(book: &Book, asked: &str, id: u32, answer: &mut String) -> Result<()> {
    match asked {
        "last" => push(answer, book.last()),
        "live" => push(answer, book.live()),
        "id" => match book.live_id(id as usize) {
            Some(id) => push(answer, id),
            None => push(answer, "none"),
        },
        "window" => push(answer, book.window(id)),
        "due" => push(answer, book.due(id)),
        "closing" => push(answer, book.closing()),
        "marks" => push(answer, name_of(book.marks(id))),
        _ => bail!("{asked} is no call"),
    }
}
