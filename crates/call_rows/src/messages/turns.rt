//! Rows of `callrun`: calls by their turns.

ghost use Rattle.std.specs.Prelude.{◌≡◌, ◌<◌, length, OnOk};
ghost use Rattle.handlers.specs.Listed.{listed};

use super::rows::Subject;
use super::words::{bytes_of, push_bytes};
use account::OutItem;
use anyhow::{Context, Result, bail, ensure};
use bytes::Bytes;
use callbox::{Feeder, InPiece, Sender, open_call};
use callhead::{CallHead, Encoding, Texts, Values};
use callrun::{CallRun, Turn};
use handlers::Methods;
use lane::RingLane;
use lists::{Field, Octets};
use std::alloc::Global;

type InLane = RingLane<InPiece>;

type OutLane = RingLane<OutItem>;

/// What begins the path of each method.
const SERVICE: &str = "/grpc.testing.TestService/";

/// When a call is opened, in nanoseconds.
const OPENED: u64 = 1000;

const STREAM: u32 = 1;

/// Room for the pieces and the items of a row.
const ROOM: usize = 64;

/// The most items that are looked at after the turns.
const MAX_ITEMS: u32 = 1000;

/// What happens to a call.
#[derive(Debug, Drop)]
enum Event {
    /// A piece of the client's DATA comes.
    Feed(Bytes),
    End,
    Reset(u32),
    /// The clock stands at this moment.
    At(u64),
    Turn,
    /// An item leaves.
    Send,
    Leave,
    /// The call is looked at for what the next turn may take.
    Look,
}

/// A call: the name of its method, what its head says, and its events.
#[derive(Debug, Drop)]
struct Course {
    head: CallHead,
    /// How many items there is room for.
    room: usize,
    events: Vec<Event>,
}

/// What a head says by one word of a row.
fn set_word(alloc: Global, course: &mut Course, word: &str) -> Result<()> {
    match word.split_once('=') {
        Some(("timeout", number)) => course.head.timeout = Some(number.parse::<u128>()?),
        Some(("room", number)) => course.room = number.parse::<usize>()?,
        None if word == "compressed" => course.head.encoding = Encoding::Other,
        None if word == "echoes" => set_echoes(alloc, &mut course.head)?,
        _ => bail!("{word} says nothing of a head"),
    }
    Ok(())
}

/// What the head wants echoed: `a` first, and the byte AB in the trailers.
fn set_echoes(alloc: Global, head: &mut CallHead) -> Result<()> {
    head.echo_initial = Texts::from(vec![in alloc; String::from_str(alloc, "a")?]?);
    let value = Octets::from(Vec::from_slice(alloc, &[0xAB])?);
    head.echo_trailing = Values::from(vec![in alloc; value]?);
    Ok(())
}

fn plain_head(alloc: Global) -> CallHead {
    CallHead {
        path: Octets::from(Vec::new(alloc)),
        timeout: None,
        encoding: Encoding::Identity,
        echo_initial: Texts::from(Vec::new(alloc)),
        echo_trailing: Values::from(Vec::new(alloc)),
    }
}

fn push_event(events: &mut Vec<Event>, alloc: Global, text: &str) -> Result<()> {
    let (name, rest) = text.split_once(' ').unwrap_or((text, ""));
    match name {
        "feed" => events.push(Event::Feed(Bytes::from_vec(bytes_of(alloc, rest)?)?))?,
        "end" => events.push(Event::End)?,
        "reset" => events.push(Event::Reset(rest.parse::<u32>()?))?,
        "at" => events.push(Event::At(rest.parse::<u64>()?))?,
        "send" => events.push(Event::Send)?,
        "leave" => events.push(Event::Leave)?,
        "look" => events.push(Event::Look)?,
        "turns" => push_turns(events, rest.parse::<u32>()?)?,
        _ => bail!("{name} is no event"),
    }
    Ok(())
}

fn push_turns(events: &mut Vec<Event>, count: u32) -> Result<()> {
    for _ in 0..count {
        events.push(Event::Turn)?;
    }
    Ok(())
}

/// What a row gives, after the name of its method.
fn course_of(alloc: Global, words: &str, events: &str) -> Result<Course> {
    let mut course = Course {
        head: plain_head(alloc),
        room: ROOM,
        events: Vec::new(alloc),
    };
    for word in words.split_ascii_whitespace() {
        set_word(alloc, &mut course, word)?;
    }
    for event in events.split(';') {
        push_event(&mut course.events, alloc, event.trim())?;
    }
    Ok(course)
}

fn push_fields(text: &mut String, fields: &[Field]) -> Result<()> {
    for field in fields {
        text.push(' ')?;
        for byte in field.name.as_slice() {
            text.push(char::from(*byte))?;
        }
        text.push('=')?;
        for byte in field.value.as_slice() {
            text.push(char::from(*byte))?;
        }
    }
    Ok(())
}

fn push_item(text: &mut String, item: &OutItem) -> Result<()> {
    match item {
        OutItem::Head(fields) => {
            text.push_str("; head")?;
            push_fields(text, fields.as_slice())?;
        }
        OutItem::Message(message) => {
            let (front, zeros) = message.parts();
            text.push_str("; ")?;
            push_bytes(text, front)?;
            for _ in 0..zeros {
                text.push_str("00")?;
            }
        }
        OutItem::Trailers(fields) => {
            text.push_str("; trailers")?;
            push_fields(text, fields.as_slice())?;
        }
        OutItem::Left => text.push_str("; left")?,
    }
    Ok(())
}

/// Sends the next item; whether there was one.
fn send(sender: &mut Sender<OutLane>, items: &mut String) -> Result<bool> {
    match sender.next() {
        Some(item) => {
            push_item(items, item)?;
            Ok(true)
        }
        None => Ok(false),
    }
}

fn send_all(sender: &mut Sender<OutLane>, items: &mut String) -> Result<()> {
    for _ in 0..MAX_ITEMS {
        if !send(sender, items)? {
            return Ok(());
        }
    }
    bail!("more than {MAX_ITEMS} items")
}

fn feed(feeder: &mut Option<Feeder<InLane>>, piece: Bytes) -> Result<()> {
    let Some(feeder) = feeder else {
        bail!("a piece behind the end");
    };
    ensure!(feeder.feed(piece).is_ok(), "no room for a piece");
    Ok(())
}

fn shut(feeder: Option<Feeder<InLane>>, code: Option<u32>) {
    if let Some(feeder) = feeder {
        let _shut = match code {
            None => feeder.end(),
            Some(code) => feeder.reset(code),
        };
    }
}

/// The client's ends of a call.
#[derive(Drop)]
struct Client {
    feeder: Option<Feeder<InLane>>,
    sender: Sender<OutLane>,
}

/// The state of a call after its events.
#[derive(Drop)]
struct CallView {
    now: u64,
    /// What its last turn answered.
    last: Turn,
    left: bool,
    /// Whether there was something to take when the call was looked at last.
    ready: bool,
    /// The items that were sent.
    items: String,
}

/// The answer of the last turn, the status that was given, and the items.
fn answer_text(alloc: Global, seen: &CallView, code: Option<u32>) -> Result<String> {
    let last = seen.last;
    let mut text = format!(in alloc; "{last:?}")?;
    match code {
        Some(code) => write!(text, " {code}")?,
        None if seen.left => text.push_str(" left")?,
        None if last == Turn::Over => text.push_str(" without memory for trailers")?,
        None => {}
    }
    if seen.ready {
        text.push_str(" ready")?;
    }
    text.push_str(seen.items.as_str())?;
    Ok(text)
}

/// What comes of an event.
fn follow(
    methods: &Methods,
    run: &mut CallRun<InLane, OutLane>,
    client: &mut Client,
    event: Event,
    seen: &mut CallView,
) -> Result<()>
    requires { run.old.index < length (listed methods.now) }
    ensures { OnOk result (run.new.index ≡ run.old.index) }
{
    match event {
        Event::Feed(piece) => feed(&mut client.feeder, piece)?,
        Event::End => shut(client.feeder.take(), None),
        Event::Reset(code) => shut(client.feeder.take(), Some(code)),
        Event::At(moment) => seen.now = moment,
        Event::Turn => seen.last = run.turn(methods, seen.now),
        Event::Send => {
            send(&mut client.sender, &mut seen.items)?;
        }
        Event::Leave => {
            run.leave(methods);
            seen.left = true;
        }
        Event::Look => seen.ready = run.is_ready(),
    }
    Ok(())
}

/// What comes of a call of the method at this index.
fn run_course(alloc: Global, methods: &Methods, index: usize, course: Course) -> Result<String>
    requires { index < length (listed methods.now) }
{
    let Course { head, room, events } = course;
    let (feeder, taker, giver, sender) = open_call::<InLane, OutLane>(alloc, STREAM, ROOM, room)?;
    let mut client = Client {
        feeder: Some(feeder),
        sender,
    };
    let mut run = CallRun::new(alloc, methods, index, head, taker, giver, OPENED);
    let mut seen = CallView {
        now: OPENED,
        last: Turn::Nothing,
        left: false,
        ready: false,
        items: String::new(alloc),
    };
    for event in events {
        follow(methods, &mut run, &mut client, event, &mut seen)?;
    }
    let (_taker, _end, code) = run.into_ends();
    send_all(&mut client.sender, &mut seen.items)?;
    answer_text(alloc, &seen, code)
}

/// A call: the name of its method, words for its head, and its events, each after a `;`.
#[derive(Drop)]
pub struct Turns<'a> {
    pub methods: &'a Methods,
}

impl Subject for Turns<'_> {
    fn answer(&self, alloc: Global, given: &str) -> Result<String> {
        let (head, events) = given.split_once(';').context("no event")?;
        let (name, words) = head.split_once(' ').unwrap_or((head, ""));
        let path = format!(in alloc; "{SERVICE}{name}")?;
        let index = self.methods.find(path.as_bytes()).context("no method")?;
        ensure!(self.methods.get(index).is_some(), "no method");
        let course = course_of(alloc, words, events)?;
        run_course(alloc, self.methods, index, course)
    }
}
