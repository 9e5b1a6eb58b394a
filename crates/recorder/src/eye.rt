//! Who looks at a connection.

ghost use Rattle.std.specs.Prelude.{◌≡◌, IsNone, None};
ghost use Rattle.tap.specs.Passing.{device_of, tap_of};

use crate::ends::Ends;
use crate::notes::Notes;
use crate::outputs::UnwrittenFile;
use crate::places::Recorder;
use crate::start::Start;
use crate::transcript::Transcript;
use capture::Side;
use std::alloc::AllocError;
use std::fs::File;
use std::io;
use std::net::{OpenStream, SocketAddr};
use std::rt::Files;
use std::sync::{Arc, Mutex, Wait};
use std::time::Clock;
use tap::{Tap, TappedDevice};

/// A connection at which someone may look.
pub type Line<S, R> = TappedDevice<S, Eye<R>>;

/// What is known of a connection that begins.
#[derive(Clone, Copy)]
pub struct Sight<'a> {
    /// Its number, where it has one already.
    pub number: Option<u64>,
    /// Which side of it this program is, and the addresses of both.
    pub side: Side,
    pub own: SocketAddr,
    pub peer: SocketAddr,
    /// What it is for.
    pub label: Option<&'a str>,
    /// Whether this program's own server serves it, whose reasons are known.
    pub is_served: bool,
}

/// Who looks at a connection. Once all that look at it are dropped, the connection has ended.
pub struct Eye<R: Wait + Clock + Eprint + Drop> {
    rt: R,
    watch: Arc<Watch>,
}

/// A connection that is looked at.
#[derive(Drop)]
struct Watch {
    recorder: Arc<Recorder>,
    /// Which side this program is.
    side: Side,
    start: Start,
    kept: Mutex<KeptConn>,
}

/// What is known of it, and the file for its bytes.
#[derive(Drop)]
struct KeptConn {
    notes: Notes,
    transcript: Option<Transcript>,
}

/// What happened to bytes.
#[derive(Clone, Copy)]
enum Passage {
    Read,
    Sent,
}

impl<R: Wait + Clock + Eprint + Drop> Eye<R> {
    /// A connection begins. Its bytes go into this file too, if there is one.
    fn begin(
        rt: R,
        recorder: &Arc<Recorder>,
        sight: Sight<'_>,
        transcript: Option<Transcript>,
    ) -> Result<Eye<R>, AllocError> {
        let number = match sight.number {
            Some(number) => number,
            None => recorder.next(),
        };
        let start = Start::now(&rt);
        let ends = Ends::of(sight.side, sight.own, sight.peer);
        let (mut notes, entry) = Notes::begin(
            recorder.alloc,
            number,
            recorder.wish,
            ends,
            sight.label,
            start.time(0),
        )?;
        recorder.write(&rt, Ok(entry));
        if sight.is_served {
            notes.explain();
        }
        let watch = Watch {
            recorder: Arc::try_clone(recorder)?,
            side: sight.side,
            start,
            kept: Mutex::new(KeptConn { notes, transcript }),
        };
        let watch = Arc::new(recorder.alloc, watch)?;
        Ok(Eye { rt, watch })
    }

    /// A second eye of this connection.
    pub fn try_clone(&self) -> Result<Eye<R>, AllocError>
    where
        R: Copy,
    {
        Ok(Eye {
            rt: self.rt,
            watch: Arc::try_clone(&self.watch)?,
        })
    }

    /// A fault is seen where the connection is now.
    pub fn fault(&self, text: &str) {
        let kept = self.watch.kept.lock(&self.rt);
        let passed = self.watch.start.passed(&self.rt);
        let entry = kept.notes.fault(passed, text);
        self.watch.recorder.write(&self.rt, entry);
    }
}

impl Watch {
    /// Bytes have passed. All that is written of them is, before others pass in the other
    /// direction.
    fn see<R: Wait + Clock + Eprint>(&self, rt: &R, passage: Passage, bytes: &[u8]) {
        if bytes.is_empty() || self.recorder.has_failed() {
            return;
        }
        let side = self.sender(passage);
        let mut kept = self.kept.lock(rt);
        let passed = self.start.passed(rt);
        let entry = kept
            .notes
            .sent(passed, self.start.time(passed), side, bytes);
        self.recorder.write(rt, entry);
        if let Err(unwritten) = kept.add(passed, side, bytes) {
            self.recorder.fail(rt, unwritten);
        }
    }

    /// Who sent what was read, or sent.
    fn sender(&self, passage: Passage) -> Side {
        match (passage, self.side) {
            (Passage::Sent, side) => side,
            (Passage::Read, side) => side.other(),
        }
    }

    /// The connection has ended.
    fn end<R: Wait + Clock + Eprint>(self, rt: &R) {
        let Watch {
            recorder,
            start,
            kept,
            ..
        } = self;
        let passed = start.passed(rt);
        let KeptConn { notes, transcript } = kept.into_inner();
        drop(transcript);
        let entry = notes.end(passed, start.time(passed));
        recorder.write(rt, entry);
    }
}

impl KeptConn {
    fn add(&mut self, passed: u64, side: Side, bytes: &[u8]) -> Result<(), UnwrittenFile> {
        match &mut self.transcript {
            Some(file) => file.add(passed, side, bytes),
            None => Ok(()),
        }
    }
}

impl<R: Wait + Clock + Eprint + Drop> Tap for Eye<R> {
    ghost seen = { λ _. None };

    fn saw_read(&mut self, bytes: &[u8]) {
        self.watch.see(&self.rt, Passage::Read, bytes);
    }

    fn saw_written(&mut self, bytes: &[u8]) {
        self.watch.see(&self.rt, Passage::Sent, bytes);
    }
}

impl<R: Wait + Clock + Eprint + Drop> Drop for Eye<R> {
    fn drop(self) {
        let Eye { rt, watch } = self;
        if let Some(watch) = Arc::into_inner(watch) {
            watch.end(&rt);
        }
    }
}

/// The eye of a connection that begins, if there is a recorder, and memory for it.
pub fn look<R>(rt: R, recorder: &Option<Arc<Recorder>>, sight: Sight<'_>) -> Option<Eye<R>>
where
    R: Wait + Clock + Eprint + Copy + Drop,
    ensures { IsNone recorder.now → IsNone result }
{
    let recorder = recorder.as_ref()?;
    look_by(rt, recorder, sight, None)
}

/// An eye of a connection that a server begins to serve. The connection's bytes go into a file of
/// their own, if there is a folder for these.
pub fn look_and_record<R>(
    rt: R,
    recorder: &Option<Arc<Recorder>>,
    number: u64,
    sight: Sight<'_>,
) -> Option<Eye<R>>
where
    R: Files<File = File> + Wait + Clock + Eprint + Copy + Drop,
    ensures { IsNone recorder.now → IsNone result }
{
    let recorder = recorder.as_ref()?;
    let transcript = recorder.transcript(&rt, number);
    let sight = Sight {
        number: Some(number),
        ..sight
    };
    look_by(rt, recorder, sight, transcript)
}

fn look_by<R>(
    rt: R,
    recorder: &Arc<Recorder>,
    sight: Sight<'_>,
    transcript: Option<Transcript>,
) -> Option<Eye<R>>
where
    R: Wait + Clock + Eprint + Copy + Drop,
{
    match Eye::begin(rt, recorder, sight, transcript) {
        Ok(eye) => Some(eye),
        Err(AllocError) => {
            recorder.write(&rt, Err(AllocError));
            None
        }
    }
}

/// A connection to a server that was just made, with an eye if there is a recorder.
pub fn look_at_server<R, S>(
    rt: R,
    recorder: &Option<Arc<Recorder>>,
    stream: S,
    label: &str,
) -> Line<S, R>
where
    R: Wait + Clock + Eprint + Copy + Drop,
    S: OpenStream,
    ensures device { device_of result ≡ stream }
    ensures plain { IsNone recorder.now → IsNone (tap_of result) }
{
    if recorder.is_none() {
        return TappedDevice::new(stream, None);
    }
    let eye = match addresses_of(&stream) {
        Ok((own, peer)) => look(
            rt,
            recorder,
            Sight {
                number: None,
                side: Side::Client,
                own,
                peer,
                label: Some(label),
                is_served: false,
            },
        ),
        Err(_ended) => None,
    };
    TappedDevice::new(stream, eye)
}

/// Its own address, and that of the other side.
pub(crate) fn addresses_of<S: OpenStream>(stream: &S) -> io::Result<(SocketAddr, SocketAddr)> {
    Ok((stream.local_addr()?, stream.peer_addr()?))
}
