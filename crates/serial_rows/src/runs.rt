//! Runs of a connection from its first byte to its last, and in what order their steps come.

use crate::digits::times_of;
use crate::serial::{RunOutcome, Serial};
use anyhow::{Result, bail};
use h2frame::StreamId;
use handlers::Methods;
use std::alloc::Global;
use std::sync::Wait;
use std::time::Clock;

/// How many rounds a run has at most after its own order, of a step of each kind.
const ROUNDS: u32 = 16_384;

/// How many steps follow from a number.
const STEPS: u32 = 400;

/// Which these are, two times in ten a turn: the writer's come as often as the reader's and the
/// calls'.
const OFTEN: [&str; 8] = [
    "read", "read", "collect", "order", "announce", "fill", "release", "flush",
];

/// RST_STREAM with CANCEL (RFC 9113, sections 6.4 and 7), but for its stream.
const CANCEL: [u8; 13] = [0, 0, 4, 3, 0, 0, 0, 0, 0, 0, 0, 0, 8];

/// How a run goes.
#[derive(Clone, Copy)]
pub struct Course<'a> {
    /// The steps that come first, by their words.
    pub steps: &'a str,
    /// The number from which steps follow that come after these.
    pub seed: Option<u64>,
    /// How many bytes a write takes at most.
    pub most: usize,
    /// How many writes go well, where one fails.
    pub fails_at: Option<u64>,
    /// How many frames are read at once.
    pub pieces: usize,
    /// How many orders may wait for the writer, and how many senders to be taken back.
    pub orders: usize,
    pub home: usize,
    /// A stream whose call finds no memory, and after how many of its turns.
    pub lacks: Option<(StreamId, u64)>,
    /// Whether each call is answered at once, by `callworker::Worker`, once no more comes.
    pub is_worked: bool,
    /// A stream that the client resets, and after how many turns of calls.
    pub reset: Option<(StreamId, u64)>,
    /// A moment to which the clock jumps, and after how many turns of calls.
    pub jump: Option<(u64, u64)>,
}

/// A run of these frames.
pub fn run_connection<R: Wait + Clock>(
    rt: &R,
    alloc: Global,
    methods: &Methods,
    frames: &[Vec<u8>],
    course: Course<'_>,
) -> Result<RunOutcome> {
    let mut serial = Serial::new(rt, alloc, methods, frames, course)?;
    for word in course.steps.split_ascii_whitespace() {
        let (step, times) = times_of(word)?;
        for _ in 0..times {
            serial.step(step)?;
        }
    }
    if let Some(seed) = course.seed {
        serial.step_by(seed)?;
    }
    serial.rest()?;
    serial.end_input()?;
    serial.rest()?;
    serial.close()?;
    serial.rest()?;
    serial.into_ran()
}

/// The next of numbers that follow from one another (Knuth's linear congruence of MMIX), below this
/// bound; 0 where that is 0.
fn below(seed: &mut u64, bound: usize) -> usize {
    *seed = seed
        .wrapping_mul(6_364_136_223_846_793_005)
        .wrapping_add(1_442_695_040_888_963_407);
    ((*seed >> 33) as usize).checked_rem(bound).unwrap_or(0)
}

impl<'a, R: Wait + Clock> Serial<'a, R> {
    /// Takes the step of this word.
    fn step(&mut self, word: &str) -> Result<()> {
        match word {
            "read" => self.read()?,
            "collect" => self.collect(true)?,
            "turns" => {
                let _ = self.turn_all()?;
            }
            "order" => {
                let _ = self.order();
            }
            "announce" => self.announce(),
            "fill" => self.fill(),
            "release" => self.release(),
            "flush" => self.flush(),
            _ => match word.strip_prefix("turn") {
                Some(number) => {
                    let _ = self.turn(number.parse::<usize>()?)?;
                }
                None => bail!("{word} is no step"),
            },
        }
        Ok(())
    }

    /// Takes steps that follow from a number.
    fn step_by(&mut self, seed: u64) -> Result<()> {
        let mut seed = seed;
        for _ in 0..STEPS {
            match OFTEN.get(below(&mut seed, 10)) {
                Some(word) => self.step(word)?,
                None => {
                    let number = below(&mut seed, self.workers.len());
                    let _ = self.turn(number)?;
                }
            }
        }
        Ok(())
    }

    /// Takes steps of each kind in turn, until nothing is left to do.
    fn rest(&mut self) -> Result<()> {
        for _ in 0..ROUNDS {
            let has_read = self.at >= self.frames.len() || !self.reads_on();
            self.read()?;
            let went = self.turn_all()?;
            self.round();
            if has_read {
                self.collect(false)?;
            }
            if has_read && !went && self.is_idle() {
                break;
            }
        }
        Ok(())
    }

    /// Reads the next frames, where nothing waits; looks before what came back of calls. Then it
    /// looks at what waits.
    fn read(&mut self) -> Result<()> {
        if self.is_reading() && self.at < self.frames.len() {
            self.collect(false)?;
            let frames = self.frames;
            for frame in frames.iter().skip(self.at).take(self.course.pieces) {
                self.feed(frame.as_slice())?;
            }
            self.at += self.course.pieces;
        }
        self.follow_next()
    }

    /// Gives each worker a turn, the last first; whether one did something.
    fn turn_all(&mut self) -> Result<bool> {
        let mut went = false;
        for number in (0..self.workers.len()).rev() {
            went = self.turn(number)? || went;
        }
        Ok(went)
    }

    /// Gives the worker of this number a turn; whether it did something. Before it what disturbs
    /// the run comes, where its time has come.
    fn turn(&mut self, number: usize) -> Result<bool> {
        let turns = self.turns;
        if let Some((moment, turn)) = self.course.jump {
            if turns >= turn {
                self.clock = moment;
            }
        }
        if let Some((id, turn)) = self.course.reset {
            if turns >= turn && self.last().id() >= id && self.is_reading() {
                self.course.reset = None;
                let mut frame = CANCEL;
                frame[5..9].copy_from_slice(&id.to_be_bytes());
                self.feed(&frame)?;
                self.follow_next()?;
            }
        }
        if self.course.is_worked {
            return Ok(self.has_ended && self.work(number)?);
        }
        self.turn_of(number)
    }
}
