//! A connection of TCP whose sides sent bytes, as the records of a capture.

ghost use Rattle.std.specs.Prelude.{
  ◌≡◌,
  ◌+◌,
  ◌%◌,
  ◌^◌,
  ◌<◌,
  ◌≤◌,
  ◌++◌,
  List,
  [],
  length,
  take,
  drop,
  Some,
  IsNone,
  IfOk,
  OnErr,
};
ghost use Rattle.capture.specs.declared.packet.Packet.{Packet as PacketOf};
ghost use Rattle.capture.specs.Conversations.{
  AreSent,
  advanced,
  back,
  closing,
  opened,
  opening,
  other_side,
  segment_of,
};
ghost use Rattle.capture.specs.Format.{AreRecords, IsRecord};
ghost use Rattle.capture.specs.declared.conversation.Side.TheVariants as sides;

use crate::packet::{Packet, Path, SegmentFlags, SegmentHead, Time};
use crate::writing::{MOST_PAYLOAD, record_of};
use std::alloc::{AllocError, Global};
use std::fmt;

const FIN_ACK: u8 = 0x11;

const SYN: u8 = 0x02;

const SYN_ACK: u8 = 0x12;

const ACK: u8 = 0x10;

const PSH_ACK: u8 = 0x18;

/// A side of a connection.
#[derive(Clone, Copy, Debug, PartialEq, Eq)]
pub enum Side {
    Client,
    Server,
}

impl Side {
    /// The side that it sends to.
    pub fn other(self) -> Side
        ensures { result ≡ other_side self }
    {
        match self {
            Side::Client => Side::Server,
            Side::Server => Side::Client,
        }
    }
}

impl fmt::Display for Side {
    fn fmt<W: fmt::Write>(&self, f: &mut fmt::Formatter<W>) -> fmt::Result {
        match self {
            Side::Client => write!(f, "client"),
            Side::Server => write!(f, "server"),
        }
    }
}

/// A connection of TCP.
#[derive(Clone, Copy, Debug, PartialEq, Eq)]
pub struct Conversation {
    /// From the client to the server.
    pub path: Path,
    /// The number of the byte that the client sends next.
    pub client_next: u32,
    /// The number of the byte that the server sends next.
    pub server_next: u32,
}

impl Conversation {
    /// The client opens it: three records of segments without bytes. Its sequence numbers begin
    /// with `number`, by which readers of a capture distinguish the connection from an earlier one
    /// between these ports.
    pub fn open(
        alloc: Global,
        path: Path,
        time: Time,
        number: u32,
    ) -> Result<(Conversation, Vec<u8>), AllocError>
        ensures opened { IfOk result (λ pair. pair.0 ≡ opened path number) }
        ensures records { IfOk result
            (λ pair. AreRecords pair.1.items (opening path time number)) }
    {
        let start = Conversation {
            path,
            client_next: number,
            server_next: 0,
        };
        let asked = start.advanced(Side::Client, 1);
        let opened = asked.advanced(Side::Server, 1);
        let first = start.segment(alloc, time, Side::Client, SYN, b"")?;
        let second = asked.segment(alloc, time, Side::Server, SYN_ACK, b"")?;
        let third = opened.segment(alloc, time, Side::Client, ACK, b"")?;
        let text = three(first, second, third)?;
        Ok((opened, text))
    }

    /// A side sends bytes: the records of segments with at most 65,000 of them each.
    pub fn send(
        &mut self,
        alloc: Global,
        time: Time,
        side: Side,
        bytes: &[u8],
    ) -> Result<Vec<u8>, AllocError>
        ensures records { IfOk result (λ text. (packets : List PacketOf)
            × AreRecords text.items packets
            × AreSent self.old time side bytes.now packets self.new) }
        ensures err { OnErr result (self.new ≡ self.old) }
    {
        let mut now = *self;
        let mut text = Vec::new(alloc);
        let mut rest = bytes;
        while !rest.is_empty() {
            let (part, behind) = parted(rest);
            let first = now.segment(alloc, time, side, PSH_ACK, part)?;
            text.extend_from_slice(first.as_slice())?;
            now = now.advanced(side, part.len());
            rest = behind;
        }
        *self = now;
        Ok(text)
    }

    /// The client closes it, and then the server: three records of segments without bytes.
    pub fn close(self, alloc: Global, time: Time) -> Result<Vec<u8>, AllocError>
        ensures { IfOk result (λ text. AreRecords text.items (closing self time)) }
    {
        let asked = self.advanced(Side::Client, 1);
        let closed = asked.advanced(Side::Server, 1);
        let first = self.segment(alloc, time, Side::Client, FIN_ACK, b"")?;
        let second = asked.segment(alloc, time, Side::Server, FIN_ACK, b"")?;
        let third = closed.segment(alloc, time, Side::Client, ACK, b"")?;
        let text = three(first, second, third)?;
        Ok(text)
    }

    /// The record of a segment of a side.
    fn segment(
        &self,
        alloc: Global,
        time: Time,
        side: Side,
        flags: u8,
        payload: &[u8],
    ) -> Result<Vec<u8>, AllocError>
        requires { length payload.now ≤ 65000 }
        ensures { IfOk result (λ text. IsRecord text.items
            (segment_of self.now time side flags payload.now)) }
    {
        let flags = SegmentFlags { bits: flags };
        let head = match side {
            Side::Client => SegmentHead {
                path: self.path,
                sequence: self.client_next,
                acknowledged: self.server_next,
                flags,
            },
            Side::Server => SegmentHead {
                path: self.path.back(),
                sequence: self.server_next,
                acknowledged: self.client_next,
                flags,
            },
        };
        record_of(alloc, time, head, payload)
    }

    /// A side has sent `count` more bytes, or SYN, or FIN.
    fn advanced(&self, side: Side, count: usize) -> Conversation
        requires { count < 2 ^ 32 }
        ensures { result ≡ advanced self.now side count }
    {
        let mut next = *self;
        match side {
            Side::Client => next.client_next = next.client_next.wrapping_add(count as u32),
            Side::Server => next.server_next = next.server_next.wrapping_add(count as u32),
        }
        next
    }
}

/// Which side of the connection with this path, from its client to its server, sent a packet, if
/// one did.
pub fn side_of(path: &Path, packet: &Packet) -> Option<Side>
    ensures client { result ≡ Some sides.Client → packet.now.head.path ≡ path.now }
    ensures server { result ≡ Some sides.Server → packet.now.head.path ≡ back path.now }
    ensures other { IsNone result → packet.now.head.path ≡ path.now → ⊥ }
    ensures neither { IsNone result → packet.now.head.path ≡ back path.now → ⊥ }
{
    if packet.head.path == *path {
        return Some(Side::Client);
    }
    if packet.head.path == path.back() {
        return Some(Side::Server);
    }
    None
}

/// Three texts after one another.
fn three(first: Vec<u8>, second: Vec<u8>, third: Vec<u8>) -> Result<Vec<u8>, AllocError>
    ensures { IfOk result (λ text. text.items ≡ (first.items ++ second.items) ++ third.items) }
{
    let mut text = first;
    text.extend_from_slice(second.as_slice())?;
    text.extend_from_slice(third.as_slice())?;
    Ok(text)
}

/// The first 65,000 bytes, or all if there are fewer, and what follows them.
fn parted(bytes: &[u8]) -> (&[u8], &[u8])
    ensures front { result.0.now ≡ take 65000 bytes.now }
    ensures behind { result.1.now ≡ drop 65000 bytes.now }
    ensures short { length result.0.now ≤ 65000 }
    ensures shorter { 0 < length bytes.now → length result.1.now < length bytes.now }
{
    if bytes.len() <= MOST_PAYLOAD {
        return (bytes, b"");
    }
    bytes.split_at(MOST_PAYLOAD)
}
