//! The connections of a capture.

use crate::fault::FramesFault;
use crate::printing::Printing;
use capture::{Packet, Path, Side, Time, side_of};
use device::ConnWrite;
use std::alloc::{AllocError, Global};
use trace::Form;

/// What a client's bytes begin with (RFC 9113, section 3.4).
const PREFACE: &[u8] = b"PRI * HTTP/2.0\r\n\r\nSM\r\n\r\n";

/// The flags FIN, SYN and ACK of a segment (RFC 9293, section 3.1).
const FIN: u8 = 0x01;

const SYN: u8 = 0x02;

const ACK: u8 = 0x10;

/// Half of all sequence numbers. A number that is this far ahead of another counts as before it
/// (RFC 9293, section 3.4).
const HALF: u32 = 1 << 31;

/// The microseconds of a second.
const SECOND: u64 = 1_000_000;

/// A connection of a capture.
#[derive(Drop)]
struct Talk {
    /// From the client to the server.
    path: Path,
    /// When it began, and when its last packet came, in microseconds.
    begun: u64,
    last: u64,
    printing: Printing,
    /// The sequence numbers with which the sides go on, once that is known.
    client_next: Option<u32>,
    server_next: Option<u32>,
    /// Whether nothing can be said of what comes.
    is_broken: bool,
}

/// The connections of a capture, in the order in which they began.
#[derive(Drop)]
struct Talks {
    alloc: Global,
    form: Form,
    all: Vec<Talk>,
}

/// Prints the frames of all connections of a capture, in its order.
pub fn print_capture<W: ConnWrite>(
    alloc: Global,
    packets: &[Packet],
    form: Form,
    output: &mut W,
) -> Result<(), FramesFault> {
    let mut talks = Talks {
        alloc,
        form,
        all: Vec::new(alloc),
    };
    for packet in packets {
        talks.take(packet, micros_of(packet.time), output)?;
    }
    let Talks { all, .. } = talks;
    for talk in all {
        let Talk {
            begun,
            last,
            printing,
            ..
        } = talk;
        printing.end(last.saturating_sub(begun), output)?;
    }
    Ok(())
}

impl Talks {
    /// The next packet came, at this time.
    fn take<W: ConnWrite>(
        &mut self,
        packet: &Packet,
        time: u64,
        output: &mut W,
    ) -> Result<(), FramesFault> {
        if packet.head.flags.bits & (SYN | ACK) == SYN && !self.has_begun(packet) {
            self.begin(packet.head.path, time)?;
        }
        let (talk, side) = match self.of(packet) {
            Some(found) => found,
            None if packet.payload.is_empty() => return Ok(()),
            None => self.open(packet, time, output)?,
        };
        match self.all.as_mut_slice().get_mut(talk) {
            Some(talk) => talk.take(packet, side, time, output),
            None => Ok(()),
        }
    }

    /// A connection begins.
    fn begin(&mut self, path: Path, begun: u64) -> Result<(), AllocError> {
        let number = (self.all.len() as u64).saturating_add(1);
        self.all.push(Talk {
            path,
            begun,
            last: begun,
            printing: Printing::new(self.alloc, number, self.form),
            client_next: None,
            server_next: None,
            is_broken: false,
        })?;
        Ok(())
    }

    /// Whether the SYN of this packet came before, and nothing of its client since: it is sent
    /// again.
    fn has_begun(&self, packet: &Packet) -> bool {
        let next = packet.head.sequence.wrapping_add(1);
        for talk in self.all.as_slice() {
            let is_same = side_of(&talk.path, packet) == Some(Side::Client);
            if is_same && talk.client_next == Some(next) {
                return true;
            }
        }
        false
    }

    /// The last connection to which a packet may belong, by its place, and who sent it.
    fn of(&self, packet: &Packet) -> Option<(usize, Side)> {
        let mut found = None;
        for (place, talk) in self.all.as_slice().iter().enumerate() {
            if let Some(side) = side_of(&talk.path, packet) {
                found = Some((place, side));
            }
        }
        found
    }

    /// A connection whose first packets are not in the capture. If these bytes are a client's
    /// first, all of it can still be read; else nothing can.
    fn open<W: ConnWrite>(
        &mut self,
        packet: &Packet,
        time: u64,
        output: &mut W,
    ) -> Result<(usize, Side), FramesFault> {
        let place = self.all.len();
        if packet.payload.as_slice().starts_with(PREFACE) {
            self.begin(packet.head.path, time)?;
            return Ok((place, Side::Client));
        }
        self.begin(packet.head.path.back(), time)?;
        if let Some(talk) = self.all.as_mut_slice().get_mut(place) {
            talk.is_broken = true;
            talk.printing.unbegun(output)?;
        }
        Ok((place, Side::Server))
    }
}

impl Talk {
    /// The next packet of a side came, at this time. A packet that is sent again is passed over.
    /// After missing bytes nothing is printed: it isn't known where frames begin.
    fn take<W: ConnWrite>(
        &mut self,
        packet: &Packet,
        side: Side,
        time: u64,
        output: &mut W,
    ) -> Result<(), FramesFault> {
        self.last = time;
        if self.is_broken {
            return Ok(());
        }
        let passed = time.saturating_sub(self.begun);
        let first = packet.head.sequence;
        let due = match side {
            Side::Client => self.client_next,
            Side::Server => self.server_next,
        };
        let ahead = first.wrapping_sub(due.unwrap_or(first));
        if ahead >= HALF {
            return Ok(());
        }
        if ahead > 0 {
            self.is_broken = true;
            return self.printing.missing(passed, side, ahead, output);
        }
        let next = Some(first.wrapping_add(count_of(packet)));
        match side {
            Side::Client => self.client_next = next,
            Side::Server => self.server_next = next,
        }
        self.printing
            .sent(passed, side, packet.payload.as_slice(), output)
    }
}

/// How many sequence numbers a packet takes (RFC 9293, section 3.4).
fn count_of(packet: &Packet) -> u32 {
    let flags = packet.head.flags.bits;
    let flag_count = u32::from(flags & SYN != 0) + u32::from(flags & FIN != 0);
    let byte_count = u32::try_from(packet.payload.len()).unwrap_or(u32::MAX);
    byte_count.wrapping_add(flag_count)
}

fn micros_of(time: Time) -> u64 {
    u64::from(time.seconds) * SECOND + u64::from(time.micros)
}
