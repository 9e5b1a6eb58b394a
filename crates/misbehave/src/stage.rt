//! What is listed, and what is run.

ghost use Rattle.std.specs.Prelude.{◌≡◌, ◌<◌, ◌≤◌};

use crate::host::play_out;
use crate::misbehaviour::Misbehaviour;
use crate::port::Port;
use crate::report::{outcome_of, push_heading, push_outcome};
use crate::table::all;
use device::{ConnWrite, DeviceFault, write_all};
use results::Outcome;
use std::alloc::{AllocError, AllocFailed, Global};
use std::io;
use std::net::{Net, SocketAddr};
use std::time::{Clock, Duration};

/// Why misbehaviours were not run.
#[derive(Drop)]
pub enum RunFault {
    /// This port can't be had.
    Port(u16, io::Error),
    /// A line could not be written.
    WriteFailed,
    /// No memory was to be had.
    OutOfMemory,
}

impl From<DeviceFault> for RunFault {
    fn from(_fault: DeviceFault) -> RunFault {
        RunFault::WriteFailed
    }
}

impl From<AllocError> for RunFault {
    fn from(_error: AllocError) -> RunFault {
        RunFault::OutOfMemory
    }
}

impl<T: Drop> From<AllocFailed<T>> for RunFault {
    fn from(_error: AllocFailed<T>) -> RunFault {
        RunFault::OutOfMemory
    }
}

/// Where misbehaviours are run, and for how long at most.
#[derive(Clone, Copy)]
pub struct PlayPlace<'a> {
    /// The address that is listened on, or a name for it.
    pub host: &'a str,
    /// The port of the first; each later one has the next port.
    pub port: u16,
    /// How many seconds each may take.
    pub seconds: u16,
}

/// Prints the names of all misbehaviours, a line each; or what is printed of each before its client
/// comes.
pub fn list<W: ConnWrite>(alloc: Global, is_verbose: bool, output: &mut W) -> Result<(), RunFault> {
    let mut text = String::new(alloc);
    for play in all(alloc)?.as_slice() {
        if is_verbose {
            push_heading(&mut text, play)?;
        } else {
            text.push_str(play.name)?;
            text.push_str("\n")?;
        }
    }
    write_all(output, text.as_bytes())?;
    Ok(())
}

/// Misbehaviours that are to be run, and the port of each, on which is listened.
#[derive(Drop)]
pub struct Stage<R: Net> {
    alloc: Global,
    plays: Vec<Misbehaviour>,
    ports: Vec<Port<R>>,
}

/// What came of a misbehaviour, and what is printed of it.
#[derive(Drop)]
pub struct PlayOutcome {
    pub outcome: Outcome,
    /// Lines: what was sent, what the client did, and last the verdict.
    pub text: String,
}

impl<R: Net + Clock + Copy + Drop> Stage<R> {
    /// Listens on a port for each of them: the first on the place's, each later one on the next.
    ///
    /// # Errors
    ///
    /// `Port` where one of the ports can't be had.
    pub fn open(
        rt: R,
        alloc: Global,
        plays: Vec<Misbehaviour>,
        place: PlayPlace<'_>,
    ) -> Result<Stage<R>, RunFault> {
        let mut ports = Vec::new(alloc);
        let mut next = place.port;
        for _play in plays.as_slice() {
            ports.push(bind(rt, place, next)?)?;
            next = next.saturating_add(1);
        }
        Ok(Stage {
            alloc,
            plays,
            ports,
        })
    }

    /// The misbehaviours, in the order in which they were given.
    pub fn plays(&self) -> &[Misbehaviour] {
        self.plays.as_slice()
    }

    /// The address of the port of the misbehaviour at a place, where there is one.
    pub fn address(&self, at: usize) -> Option<SocketAddr> {
        self.ports.as_slice().get(at)?.address().ok()
    }

    /// The line that says which ports are listened on.
    pub fn greeting(&self) -> Result<String, AllocError> {
        let mut text = String::new(self.alloc);
        let Some(first) = self.address(0) else {
            return Ok(text);
        };
        write!(text, "listening {first}")?;
        let last = u64::from(first.port()) + (self.ports.len() as u64).saturating_sub(1);
        if last > u64::from(first.port()) {
            write!(
                text,
                " to {last}: a port for each, in the order of misbehave --list"
            )?;
        }
        text.push_str("\n")?;
        Ok(text)
    }

    /// The lines that say what the server does at a place, what the client is to do, and on which
    /// port.
    pub fn heading(&self, at: usize) -> Result<String, AllocError> {
        let mut text = String::new(self.alloc);
        if let Some(play) = self.plays.as_slice().get(at) {
            push_heading(&mut text, play)?;
        }
        if let Some(address) = self.address(at) {
            writeln!(text, "  port: {address}")?;
        }
        Ok(text)
    }

    /// Runs the misbehaviour at a place until the client has gone, or its time is over. Nothing if
    /// there is none.
    pub fn play(&mut self, at: usize) -> Result<Option<PlayOutcome>, AllocError> {
        let Some(play) = self.plays.as_slice().get(at).copied() else {
            return Ok(None);
        };
        let Some(port) = self.ports.as_mut_slice().get_mut(at) else {
            return Ok(None);
        };
        port.begin();
        let host = play_out(self.alloc, port, &play)?;
        let outcome = outcome_of(self.alloc, &play, &host)?;
        let mut text = String::new(self.alloc);
        push_outcome(&mut text, host.log(), &outcome)?;
        Ok(Some(PlayOutcome { outcome, text }))
    }
}

fn bind<R: Net + Clock + Copy + Drop>(
    rt: R,
    place: PlayPlace<'_>,
    port: u16,
) -> Result<Port<R>, RunFault> {
    let limit = Duration::from_secs(u64::from(place.seconds));
    match Port::bind(rt, place.host, port, limit) {
        Ok(port) => Ok(port),
        Err(error) => Err(RunFault::Port(port, error)),
    }
}
