//! What came on a connection, and whether a reaction is among it.

ghost use Rattle.std.specs.Prelude.{◌≡◌, false, true, IfOk, IsTrue};
ghost use Rattle.std.specs.BTreeMap.{get};
ghost use Rattle.std.specs.List.{All, Any};
ghost use Rattle.std.specs.Ordering.{nat_cmp};

use crate::fault::WireFault;
use crate::reaction::{LawfulReaction, Reaction};
use crate::report::kind_name;
use crate::server_settings::ServerSettings;
use crate::stream_seen::{StreamSeen, begins_with, has_bytes, has_field};
use callhead::first_value;
use h2frame::{FrameHead, SettingId};
use session::Parameter;
use std::alloc::{AllocError, Global};
use std::collections::BTreeMap;

/// How many frames of the server are kept for a reader of the report.
const KEPT_FRAMES: usize = 64;

/// PINGs whose acknowledgements are kept.
const KEPT_PINGS: usize = 1_000;

/// Of how many streams the report of a case that failed has the reactions.
const TOLD: usize = 4;

/// A frame that came.
#[derive(Clone, Copy)]
pub struct SeenFrame {
    pub head: FrameHead,
    /// The error of RST_STREAM or GOAWAY.
    pub code: Option<u32>,
}

#[derive(Drop)]
pub struct SeenFrames {
    alloc: Global,
    /// The first frames that came.
    pub frames: Vec<SeenFrame>,
    pub streams: BTreeMap<u32, StreamSeen>,
    /// The contents of the PINGs that were acknowledged.
    pub pings: Vec<Vec<u8>>,
    pub acks: u64,
    /// Whether SETTINGS of the server came, whether they came first, and whether all are lawful.
    pub greeted: bool,
    pub first_settings: bool,
    pub lawful_settings: bool,
    pub any_frame: bool,
    /// The server's SETTINGS.
    pub announced: ServerSettings,
    /// What the server granted to the connection.
    pub credit: u64,
    /// The most bytes of a DATA frame.
    pub largest: u64,
    pub goaway: Option<u32>,
    pub closed: bool,
    /// Whether the last PING that asked whether all was read was answered.
    pub synced: bool,
    /// Whether the time of the connection was up while the server still sent.
    pub endless: bool,
    /// Whether DATA or HEADERS came on a stream after the server's own end of it, and the last that
    /// did.
    pub late: bool,
    pub late_frame: Option<FrameHead>,
    /// Whether text of HTTP/1 came in place of frames.
    pub text: bool,
    /// What the server did that no server may, whatever it was sent.
    pub wrong: Option<&'static str>,
}

impl SeenFrames {
    ghost use Rattle.wire.specs.Reactions.{
      IsLawful,
      IsUnlawful,
      Judges,
      has_ended,
      was_reset,
      was_shut,
    };

    pub fn new(alloc: Global) -> SeenFrames {
        SeenFrames {
            alloc,
            frames: Vec::new(alloc),
            streams: BTreeMap::new(alloc),
            pings: Vec::new(alloc),
            acks: 0,
            greeted: false,
            first_settings: false,
            lawful_settings: true,
            any_frame: false,
            announced: ServerSettings::FIRST,
            credit: 0,
            largest: 0,
            goaway: None,
            closed: false,
            synced: false,
            endless: false,
            late: false,
            late_frame: None,
            text: false,
            wrong: None,
        }
    }

    /// Whether the connection ended before the server said anything that could be judged.
    pub fn was_shut(&self) -> bool
        ensures { result ≡ was_shut self.now }
    {
        self.closed && !self.any_frame && !self.text && self.wrong.is_none()
    }

    /// Takes a parameter of the server's SETTINGS.
    pub fn parameter(&mut self, parameter: &Parameter) {
        if parameter.fault().is_some() {
            self.lawful_settings = false;
        }
        if parameter.id == SettingId::EnablePush {
            self.lawful_settings = self.lawful_settings && parameter.value == 0;
        }
        self.announced.take(parameter);
    }

    /// Keeps a frame that came, for a reader of the report.
    pub fn keep(&mut self, head: FrameHead, code: Option<u32>) -> Result<(), AllocError> {
        if self.frames.len() < KEPT_FRAMES {
            self.frames.push(SeenFrame { head, code })?;
        }
        Ok(())
    }

    /// Notes DATA or HEADERS on a stream that the server had ended.
    pub fn note_late(&mut self, head: FrameHead)
        ensures { self.new.late ≡ true }
    {
        self.late = true;
        self.late_frame = Some(head);
    }

    /// Takes the acknowledgement of a PING.
    pub fn echo(&mut self, content: &[u8]) -> Result<(), AllocError> {
        if self.pings.len() < KEPT_PINGS {
            let copy = Vec::from_slice(self.alloc, content)?;
            self.pings.push(copy)?;
        }
        Ok(())
    }

    /// Whether one of these ways to pass is what came.
    pub fn is_one_lawful(&self, ways: &[LawfulReaction]) -> Result<bool, WireFault>
        ensures passed { IfOk result (λ passed. IsTrue passed → Any (IsLawful self.now) ways.now) }
        ensures failed { IfOk result
            (λ passed. passed ≡ false → All (IsUnlawful self.now) ways.now) }
    {
        for lawful in ways {
            if self.is_lawful(lawful)? {
                return Ok(true);
            }
        }
        Ok(false)
    }

    /// Whether all of these reactions hold, and the server did nothing that no server may.
    pub fn is_lawful(&self, lawful: &LawfulReaction) -> Result<bool, WireFault>
        ensures passed { IfOk result (λ passed. IsTrue passed → IsLawful self.now lawful.now) }
        ensures failed { IfOk result
            (λ passed. passed ≡ false → IsUnlawful self.now lawful.now) }
    {
        for reaction in lawful.all.as_slice() {
            if !self.holds(reaction)? {
                return Ok(false);
            }
        }
        Ok(self.wrong.is_none())
    }

    /// Whether this reaction is among what came.
    pub fn holds(&self, reaction: &Reaction) -> Result<bool, WireFault>
        ensures { IfOk result (Judges self.now reaction.now) }
    {
        Ok(match reaction {
            Reaction::Connection(codes) => self.has_ended(codes.as_slice()),
            Reaction::Goaway(codes) => is_one_of(self.goaway, codes.as_slice()),
            Reaction::Closed => self.closed,
            Reaction::Reset { stream, codes } => self.was_reset(*stream, codes.as_slice()),
            Reaction::Stream { stream, codes } => {
                let codes = codes.as_slice();
                self.has_ended(codes) || self.was_reset(*stream, codes)
            }
            Reaction::Ping(content) => self.was_echoed(content.as_slice()),
            Reaction::Silent(content) => !self.was_echoed(content.as_slice()),
            Reaction::Acks(count) => self.acks == *count,
            Reaction::Total(count) => self.total() == *count,
            Reaction::Largest(most) => self.largest <= *most,
            Reaction::First => self.first_settings,
            Reaction::Settings => self.greeted && self.lawful_settings,
            Reaction::Ignored => self.is_well(),
            Reaction::Orderly => !self.late,
            Reaction::Text => self.text,
            Reaction::Crowded(codes) => self.is_crowded(codes.as_slice()),
            _ => return self.holds_on_stream(reaction),
        })
    }

    /// Whether a reaction on a stream is among what came that isn't an error.
    fn holds_on_stream(&self, reaction: &Reaction) -> Result<bool, WireFault> {
        match reaction {
            Reaction::Nothing(stream) => Ok(match self.streams.get(stream) {
                Some(seen) => seen.is_empty(),
                None => true,
            }),
            Reaction::Data { stream, count } => Ok(self.count_on(*stream) == *count),
            Reaction::Most { stream: 0, count } => Ok(self.total() <= *count),
            Reaction::Most { stream, count } => Ok(self.count_on(*stream) <= *count),
            Reaction::Live(stream) => Ok(
                !self.closed
                    && match self.streams.get(stream) {
                        Some(seen) => seen.reset.is_none(),
                        None => true,
                    },
            ),
            Reaction::Same { stream, other } => self.are_same(*stream, *other),
            Reaction::Open(stream) => Ok(
                !self.closed
                    && match self.streams.get(stream) {
                        Some(seen) => !seen.ended && seen.reset.is_none(),
                        None => true,
                    },
            ),
            _ => self.holds_on_begun(reaction),
        }
    }

    /// Whether a reaction is among what came that takes something on a stream.
    fn holds_on_begun(&self, reaction: &Reaction) -> Result<bool, WireFault> {
        let Some(seen) = self.streams.get(&stream_of(reaction)) else {
            return Ok(false);
        };
        Ok(match reaction {
            Reaction::Status { codes, .. } => is_one_of(seen.status()?, codes.as_slice()),
            Reaction::Http { codes, .. } => match seen.http_status() {
                Some(_) if codes.is_empty() => true,
                status => is_one_of(status, codes.as_slice()),
            },
            Reaction::Answered(_) => seen.ended,
            Reaction::Rejected(_) => seen.is_rejected()?,
            Reaction::Failed(_) => seen.has_failed()?,
            Reaction::Begun(_) => seen.count > 0,
            Reaction::Replies { count, .. } => seen.messages == *count,
            Reaction::Reply { content, .. } => {
                seen.messages > 0 && seen.message.as_slice() == content.as_slice()
            }
            Reaction::Head { name, value, .. } => has_field(seen.head.as_slice(), name, value),
            Reaction::Has { content, .. } => {
                seen.messages > 0 && has_bytes(seen.message.as_slice(), content.as_slice())
            }
            Reaction::Begins { name, value, .. } => {
                begins_with(seen.head.as_slice(), name, value)
            }
            Reaction::Trailer { name, value, .. } => has_field(
                seen.trailers.as_slice(),
                name,
                value,
            ),
            Reaction::Without { name, .. } => {
                let name = name.as_bytes();
                first_value(seen.head.as_slice(), name).is_none()
                    && first_value(seen.trailers.as_slice(), name).is_none()
            }
            Reaction::Single(_) => seen.blocks == 1 && seen.count == 0,
            Reaction::Block { front, .. } => seen.front.as_slice().starts_with(front.as_slice()),
            _ => false,
        })
    }

    /// Whether one of these ways to pass may still come true.
    pub fn may_be_lawful(&self, ways: &[LawfulReaction]) -> Result<bool, WireFault> {
        for lawful in ways {
            if self.may_hold(lawful)? {
                return Ok(true);
            }
        }
        Ok(false)
    }

    /// Whether a way to pass may still come true that lacks something of a call's answer.
    pub fn may_be_answered(&self, ways: &[LawfulReaction]) -> Result<bool, WireFault> {
        for lawful in ways {
            if self.lacks_an_answer(lawful)? && self.may_hold(lawful)? {
                return Ok(true);
            }
        }
        Ok(false)
    }

    /// Whether a way to pass lacks something of a call's answer.
    fn lacks_an_answer(&self, lawful: &LawfulReaction) -> Result<bool, WireFault> {
        for reaction in lawful.all.as_slice() {
            if reaction.is_of_answer() && !self.holds(reaction)? {
                return Ok(true);
            }
        }
        Ok(false)
    }

    /// Whether all of a way to pass may still come true. Where the server did what no server may,
    /// none does.
    fn may_hold(&self, lawful: &LawfulReaction) -> Result<bool, WireFault> {
        if self.wrong.is_some() {
            return Ok(false);
        }
        for reaction in lawful.all.as_slice() {
            if self.is_lost(reaction)? {
                return Ok(false);
            }
        }
        Ok(true)
    }

    /// Whether a reaction isn't among what came, and can't be whatever comes.
    pub fn is_lost(&self, reaction: &Reaction) -> Result<bool, WireFault> {
        if self.holds(reaction)? {
            return Ok(false);
        }
        if self.closed {
            return Ok(true);
        }
        Ok(match reaction {
            Reaction::Open(_)
            | Reaction::Live(_)
            | Reaction::Most { .. }
            | Reaction::Nothing(_)
            | Reaction::Orderly
            | Reaction::Silent(_)
            | Reaction::Largest(_) => true,
            Reaction::Acks(count) => self.acks > *count,
            Reaction::Total(count) => self.total() > *count,
            Reaction::Data { stream, count } => self.count_on(*stream) > *count,
            Reaction::Same { stream, other } => self.is_over(*stream) && self.is_over(*other),
            Reaction::Ignored => self.has_erred(),
            Reaction::Failed(stream) => self.has_status(*stream)?,
            _ => self.is_over(stream_of(reaction)),
        })
    }

    /// Whether the server ended or reset a stream.
    fn is_over(&self, stream: u32) -> bool {
        match self.streams.get(&stream) {
            Some(seen) => seen.is_over(),
            None => false,
        }
    }

    /// Whether a stream ended with a status of gRPC.
    fn has_status(&self, stream: u32) -> Result<bool, AllocError> {
        match self.streams.get(&stream) {
            Some(seen) => Ok(seen.status()?.is_some()),
            None => Ok(false),
        }
    }

    /// Whether the connection ended by one of these errors, or without one being said.
    fn has_ended(&self, codes: &[u32]) -> bool
        ensures { result ≡ has_ended self.now.goaway self.now.closed codes.now }
    {
        match self.goaway {
            Some(code) if code != 0 => codes.contains(&code),
            _ => self.closed,
        }
    }

    /// Whether a stream was reset with one of these errors, or with any where none is named.
    fn was_reset(&self, stream: u32, codes: &[u32]) -> bool
        ensures { result ≡ was_reset (get nat_cmp self.now.streams stream) codes.now }
    {
        let Some(seen) = self.streams.get(&stream) else {
            return false;
        };
        match seen.reset {
            Some(code) => codes.is_empty() || codes.contains(&code),
            None => false,
        }
    }

    /// Whether two streams ended with equal statuses.
    fn are_same(&self, stream: u32, other: u32) -> Result<bool, WireFault> {
        let Some(one) = self.streams.get(&stream) else {
            return Ok(false);
        };
        let Some(two) = self.streams.get(&other) else {
            return Ok(false);
        };
        Ok(
            one.ended
                && two.ended
                && one.http_status() == two.http_status()
                && one.status()? == two.status()?,
        )
    }

    fn was_echoed(&self, content: &[u8]) -> bool {
        for ping in self.pings.as_slice() {
            if ping.as_slice() == content {
                return true;
            }
        }
        false
    }

    fn count_on(&self, stream: u32) -> u64 {
        match self.streams.get(&stream) {
            Some(seen) => seen.count,
            None => 0,
        }
    }

    /// How many bytes of DATA came on all streams.
    fn total(&self) -> u64 {
        let mut total = 0u64;
        for seen in self.streams.values() {
            total = total.saturating_add(seen.count);
        }
        total
    }

    /// Whether the connection goes on, and nothing was an error.
    fn is_well(&self) -> bool {
        self.synced && !self.closed && !self.has_erred()
    }

    /// Whether the server said an error of the connection or of a stream.
    fn has_erred(&self) -> bool {
        for seen in self.streams.values() {
            if seen.was_refused() {
                return true;
            }
        }
        match self.goaway {
            Some(code) => code != 0,
            None => false,
        }
    }

    /// Whether some stream was reset with one of these errors.
    fn is_crowded(&self, codes: &[u32]) -> bool {
        for seen in self.streams.values() {
            if is_one_of(seen.reset, codes) {
                return true;
            }
        }
        false
    }

    /// Adds what came, in words.
    pub fn describe(&self, text: &mut String) -> Result<(), AllocError> {
        let start = text.len();
        if let Some(wrong) = self.wrong {
            push_part(text, start, wrong)?;
        }
        if let Some(head) = self.late_frame {
            push_part(text, start, kind_name(head.kind))?;
            let stream = head.stream;
            write!(text, " on stream {stream} after its end")?;
        }
        if let Some(code) = self.goaway {
            push_part(text, start, "GOAWAY ")?;
            write!(text, "{code}")?;
        }
        for (stream, seen) in self.streams.iter().take(TOLD) {
            if !seen.is_empty() {
                push_part(text, start, "")?;
                seen.describe(text)?;
                if *stream != 1 {
                    write!(text, " on stream {stream}")?;
                }
            }
        }
        if self.closed {
            push_part(text, start, "the end of the connection")?;
        }
        if self.endless {
            push_part(
                text,
                start,
                "frames until the time of the case was over (--timeout)",
            )?;
        }
        if text.len() == start {
            text.push_str(if self.synced {
                "nothing but an answer to PING"
            } else {
                "nothing"
            })?;
        }
        Ok(())
    }
}

/// Adds a part of the report, after a comma if it isn't the first.
fn push_part(text: &mut String, start: usize, part: &str) -> Result<(), AllocError> {
    if text.len() != start {
        text.push_str(", ")?;
    }
    text.push_str(part)
}

ghost use Rattle.wire.specs.Reactions.{is_one_of};

fn is_one_of(code: Option<u32>, codes: &[u32]) -> bool
    ensures { result ≡ is_one_of code codes.now }
{
    match code {
        Some(code) => codes.contains(&code),
        None => false,
    }
}

/// The stream of a reaction that an answer on it brings, else 0.
pub fn stream_of(reaction: &Reaction) -> u32 {
    match reaction {
        Reaction::Status { stream, .. }
        | Reaction::Http { stream, .. }
        | Reaction::Replies { stream, .. }
        | Reaction::Reply { stream, .. }
        | Reaction::Has { stream, .. }
        | Reaction::Head { stream, .. }
        | Reaction::Begins { stream, .. }
        | Reaction::Trailer { stream, .. }
        | Reaction::Without { stream, .. }
        | Reaction::Block { stream, .. } => *stream,
        Reaction::Answered(stream)
        | Reaction::Rejected(stream)
        | Reaction::Failed(stream)
        | Reaction::Begun(stream)
        | Reaction::Single(stream) => *stream,
        _ => 0,
    }
}
