//! A packet of a capture.

ghost use Rattle.std.specs.Prelude.{◌≡◌, ◌↔◌, IsTrue};
ghost use Rattle.capture.specs.Conversations.{back, hosts_back};

use bytes::Bytes;

/// When a packet was seen, since 1970 began.
#[derive(Clone, Copy, Debug, PartialEq, Eq)]
pub struct Time {
    pub seconds: u32,
    /// Below 1,000,000.
    pub micros: u32,
}

/// Which host a packet is from, and which it is to, by their addresses.
#[derive(Clone, Copy, Debug, PartialEq, Eq)]
pub enum Hosts {
    V4 { from: [u8; 4], to: [u8; 4] },
    V6 { from: [u8; 16], to: [u8; 16] },
}

/// Where a segment is from, and where it is to.
#[derive(Clone, Copy, Debug, PartialEq, Eq)]
pub struct Path {
    pub hosts: Hosts,
    pub from_port: u16,
    pub to_port: u16,
}

impl Path {
    /// The way back.
    pub fn back(&self) -> Path
        ensures { result ≡ back self.now }
    {
        Path {
            hosts: self.hosts.back(),
            from_port: self.to_port,
            to_port: self.from_port,
        }
    }
}

impl Hosts {
    fn back(&self) -> Hosts
        ensures { result ≡ hosts_back self.now }
    {
        match *self {
            Hosts::V4 { from, to } => Hosts::V4 { from: to, to: from },
            Hosts::V6 { from, to } => Hosts::V6 { from: to, to: from },
        }
    }
}

/// The flags of a segment (RFC 9293, section 3.1).
#[derive(Clone, Copy, Debug, PartialEq, Eq)]
pub struct SegmentFlags {
    /// The byte in the segment's head.
    pub bits: u8,
}

/// What the head of a segment says.
#[derive(Clone, Copy, Debug, PartialEq, Eq)]
pub struct SegmentHead {
    pub path: Path,
    /// The number of the first byte, or of SYN or FIN.
    pub sequence: u32,
    /// The number that is wanted next of the other side.
    pub acknowledged: u32,
    pub flags: SegmentFlags,
}

/// A packet.
#[derive(Debug, Drop, PartialEq, Eq)]
pub struct Packet {
    pub time: Time,
    pub head: SegmentHead,
    pub payload: Bytes,
}
