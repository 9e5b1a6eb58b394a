//! The server under test, and how long it is waited for.

use crate::fault::WireFault;
use std::io::{Read, Write};
use std::net::OpenStream;

/// The server under test, and a clock.
pub trait Server {
    /// A connection to it.
    type Line: Read + Write + OpenStream + Drop;

    /// A connection to it.
    ///
    /// # Errors
    ///
    /// `NoConnection` where none can be had.
    fn connect(&self) -> Result<Self::Line, WireFault>;

    /// On this connection the server did not do what a case wants: what was wanted, and what came.
    fn fault(&self, line: &Self::Line, text: &str);

    /// How many milliseconds have passed since a fixed moment, if the clock can be read.
    fn now(&self) -> Option<u64>;
}

/// How long a server is waited for.
#[derive(Clone, Copy)]
pub struct Pace {
    /// After how many milliseconds in which nothing comes it is silent.
    pub silence: u64,
    /// No connection lasts longer, in milliseconds.
    pub limit: u64,
}

/// So long as this part of the silence a server is waited for once it has read all that was
/// written.
const MOMENT: u64 = 10;

impl Pace {
    /// The pace of a connection that is made after `spent` milliseconds of a case's time.
    pub fn after(self, spent: u64) -> Pace {
        Pace {
            silence: self.silence,
            limit: self.limit.saturating_sub(spent),
        }
    }

    /// How many milliseconds are enough for what a server does by itself once it has read all that
    /// was written.
    pub fn moment(self) -> u64 {
        self.silence / MOMENT
    }
}
