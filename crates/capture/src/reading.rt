//! Reading a capture.

ghost use Rattle.std.specs.Prelude.{
  ◌≡◌,
  ◌↔◌,
  ◌<◌,
  ◌^◌,
  ◌++◌,
  ◌⊎◌,
  ℕ,
  List,
  length,
  IfOk,
  IfErr,
  IfSome,
  IfNone,
  IsTrue,
  MatchResult,
};
ghost use Rattle.capture.specs.declared.packet.Hosts.{Hosts as HostsOf};
ghost use Rattle.capture.specs.declared.reading.CaptureFault.TheVariants.{OutOfMemory};
ghost use Rattle.capture.specs.declared.packet.Packet.{Packet as PacketOf};
ghost use Rattle.capture.specs.declared.packet.SegmentHead.{SegmentHead as SegmentHeadOf};
ghost use Rattle.capture.specs.Reading.{HasItsSize, StartsNone, StartsWith};
ghost use Rattle.capture.specs.Format.{
  AreRecords,
  Carries,
  IsCapture,
  IsRecord,
  IsPacket,
  IsV4,
  IsV6,
  IsChecked,
  IsSegment,
  IsFileHead,
};

use crate::checksum::{is_all_ones, word_sum};
use crate::fields::{be16_at, be32_at, le32_at, v4_address, v6_address};
use crate::packet::{Hosts, Packet, Path, SegmentFlags, SegmentHead, Time};
use crate::writing::pseudo_sum;
use bytes::Bytes;
use std::alloc::{AllocError, AllocFailed, Global};
use thiserror::Error;

/// The bytes before a file's first record, before a record's packet, before the segment in a packet
/// of either version, and before a segment's payload.
const FILE_HEAD: usize = 24;

const RECORD_HEAD: usize = 16;

const V4_HEAD: usize = 20;

const V6_HEAD: usize = 40;

const SEGMENT_HEAD: usize = 20;

/// The protocol TCP.
const TCP: u8 = 6;

/// Why a file isn't read.
#[derive(Clone, Copy, Debug, PartialEq, Eq, Error)]
pub enum CaptureFault {
    #[error("it doesn't begin as a capture of packets of IP, in microseconds")]
    Head,
    #[error("the record at byte {0} is none of a whole segment of TCP")]
    Record(usize),
    #[error("out of memory")]
    OutOfMemory,
}

impl From<AllocError> for CaptureFault {
    ghost from_gives = { λ _ fault. fault ≡ OutOfMemory };

    fn from(_: AllocError) -> CaptureFault {
        CaptureFault::OutOfMemory
    }
}

impl<T: Drop> From<AllocFailed<T>> for CaptureFault {
    ghost from_gives = { λ _ fault. fault ≡ OutOfMemory };

    fn from(_e: AllocFailed<T>) -> CaptureFault {
        CaptureFault::OutOfMemory
    }
}

/// The packets of a file.
pub fn read(alloc: Global, bytes: &[u8]) -> Result<Vec<Packet>, CaptureFault>
    // What is read is in the file.
    ensures ok { IfOk result (λ packets. IsCapture bytes.now packets.items) }

    // What is in the file is read, unless memory runs out.
    ensures only { (packets : List PacketOf) → IsCapture bytes.now packets
        → MatchResult result (λ read. read.items ≡ packets)
        (λ fault. fault ≡ OutOfMemory) }
{
    let Some((head, records)) = bytes.split_at_checked(FILE_HEAD) else {
        return Err(CaptureFault::Head);
    };
    if !is_file_head(head) {
        return Err(CaptureFault::Head);
    }
    match packets_of(alloc, records) {
        Ok(packets) => Ok(packets),
        Err(fault) => Err(fault),
    }
}

fn is_file_head(head: &[u8]) -> bool
    requires { length head.now ≡ 24 }
    ensures { IsTrue result ↔ IsFileHead head.now }
{
    le32_at(head, 0) == 0xa1b2_c3d4 && le32_at(head, 4) == 0x0004_0002 && le32_at(head, 20) == 101
}

/// The packets of records.
fn packets_of(alloc: Global, records: &[u8]) -> Result<Vec<Packet>, CaptureFault>
    ensures ok { IfOk result (λ packets. AreRecords records.now packets.items) }
    ensures only { (packets : List PacketOf) → AreRecords records.now packets
        → MatchResult result (λ read. read.items ≡ packets)
        (λ fault. fault ≡ OutOfMemory) }
{
    let mut packets = Vec::new(alloc);
    let mut rest = records;
    while !rest.is_empty() {
        let at = records.len().saturating_sub(rest.len());
        match first_packet(alloc, at, rest) {
            Err(fault) => return Err(fault),
            Ok((packet, behind)) => {
                packets.push(packet)?;
                rest = behind;
            }
        }
    }
    Ok(packets)
}

/// The packet of the first record, at this byte, and what follows it.
fn first_packet(alloc: Global, at: usize, bytes: &[u8]) -> Result<(Packet, &[u8]), CaptureFault>
    ensures ok { IfOk result (λ taken. StartsWith bytes.now taken.0 taken.1.now) }
    ensures err { IfErr result (λ fault. (fault ≡ OutOfMemory) ⊎ StartsNone bytes.now) }
{
    match first_record(bytes) {
        None => Err(CaptureFault::Record(at)),
        Some((text, behind)) => match parts_of(text) {
            None => Err(CaptureFault::Record(at)),
            Some((time, head, payload)) => {
                let payload = Bytes::copy_from_slice(alloc, payload)?;
                let packet = Packet {
                    time,
                    head,
                    payload,
                };
                Ok((packet, behind))
            }
        },
    }
}

/// The bytes of the first record, and what follows it.
fn first_record(bytes: &[u8]) -> Option<(&[u8], &[u8])>
    ensures some { IfSome result (λ pair. (bytes.now ≡ pair.0.now ++ pair.1.now)
        × HasItsSize pair.0.now) }
    ensures none { IfNone result ((first rest : List ℕ) →
        bytes.now ≡ first ++ rest → HasItsSize first → ⊥) }
{
    if bytes.len() < RECORD_HEAD {
        return None;
    }
    let size = RECORD_HEAD + le32_at(bytes, 8) as usize;
    if bytes.len() < size {
        return None;
    }
    Some(bytes.split_at(size))
}

/// What a record says, and the payload.
fn parts_of(text: &[u8]) -> Option<(Time, SegmentHead, &[u8])>
    requires { HasItsSize text.now }
    ensures some { IfSome result (λ parts. IsRecord text.now
        (record { time = parts.0; head = parts.1; payload = parts.2.now })) }
    ensures none { IfNone result ((packet : PacketOf) → IsRecord text.now packet → ⊥) }
{
    if le32_at(text, 12) != le32_at(text, 8) {
        return None;
    }
    let time = Time {
        seconds: le32_at(text, 0),
        micros: le32_at(text, 4),
    };
    let (_front, packet) = text.split_at(RECORD_HEAD);
    match carried(packet) {
        None => None,
        Some((head, payload)) => Some((time, head, payload)),
    }
}

/// The head of the segment in a packet, and its payload.
fn carried(packet: &[u8]) -> Option<(SegmentHead, &[u8])>
    ensures some { IfSome result (λ parts. Carries packet.now parts.0 parts.1.now) }
    ensures none { IfNone result ((head : SegmentHeadOf) (payload : List ℕ) →
        Carries packet.now head payload → ⊥) }
{
    match packet_parts(packet) {
        None => None,
        Some((hosts, segment)) => checked_parts(packet, hosts, segment),
    }
}

/// The head of this segment of a packet between these hosts, and its payload, where the checksum is
/// right.
fn checked_parts<'s>(
    packet: &[u8],
    hosts: Hosts,
    segment: &'s [u8],
) -> Option<(SegmentHead, &'s [u8])>
    requires is { IsPacket packet.now hosts segment.now }
    requires short { length segment.now < 2 ^ 16 }
    ensures some { IfSome result (λ parts. Carries packet.now parts.0 parts.1.now) }
    ensures none { IfNone result ((head : SegmentHeadOf) (payload : List ℕ) →
        Carries packet.now head payload → ⊥) }
{
    if !is_checked(&hosts, segment) {
        return None;
    }
    match segment_parts(hosts, segment) {
        None => None,
        Some((head, payload)) => Some((head, payload)),
    }
}

fn is_checked(hosts: &Hosts, segment: &[u8]) -> bool
    requires { length segment.now < 2 ^ 16 }
    ensures { IsTrue result ↔ IsChecked hosts.now segment.now }
{
    let pseudo = pseudo_sum(hosts, segment.len());
    let words = word_sum(segment);
    is_all_ones(pseudo + words)
}

/// Between which hosts a packet is, and its segment.
#[tactic(auto, using(crate::proofs::Records::no_packet))]
fn packet_parts(packet: &[u8]) -> Option<(Hosts, &[u8])>
    ensures some { IfSome result (λ parts. IsPacket packet.now parts.0 parts.1.now) }
    ensures short { IfSome result (λ parts. length parts.1.now < 2 ^ 16) }
    ensures none { IfNone result ((hosts : HostsOf) (segment : List ℕ) →
        IsPacket packet.now hosts segment → ⊥) }
{
    if let Some(parts) = v4_parts(packet) {
        return Some(parts);
    }
    match v6_parts(packet) {
        Some(parts) => Some(parts),
        None => None,
    }
}

fn v4_parts(packet: &[u8]) -> Option<(Hosts, &[u8])>
    ensures some { IfSome result (λ parts. IsPacket packet.now parts.0 parts.1.now) }
    ensures short { IfSome result (λ parts. length parts.1.now < 2 ^ 16) }
    ensures none { IfNone result
        ((from to segment : List ℕ) → IsV4 packet.now from to segment → ⊥) }
{
    if packet.len() < V4_HEAD || packet[0] != 0x45 || packet[9] != TCP {
        return None;
    }
    if be16_at(packet, 2) as usize != packet.len() || be16_at(packet, 6) % 0x4000 != 0 {
        return None;
    }
    if !is_all_ones(word_sum(&packet[..V4_HEAD])) {
        return None;
    }
    let hosts = Hosts::V4 {
        from: v4_address(packet, 12),
        to: v4_address(packet, 16),
    };
    Some((hosts, &packet[V4_HEAD..]))
}

fn v6_parts(packet: &[u8]) -> Option<(Hosts, &[u8])>
    ensures some { IfSome result (λ parts. IsPacket packet.now parts.0 parts.1.now) }
    ensures short { IfSome result (λ parts. length parts.1.now < 2 ^ 16) }
    ensures none { IfNone result
        ((from to segment : List ℕ) → IsV6 packet.now from to segment → ⊥) }
{
    if packet.len() < V6_HEAD || packet[0] / 16 != 6 || packet[6] != TCP {
        return None;
    }
    if be16_at(packet, 4) as usize + V6_HEAD != packet.len() {
        return None;
    }
    let hosts = Hosts::V6 {
        from: v6_address(packet, 8),
        to: v6_address(packet, 24),
    };
    Some((hosts, &packet[V6_HEAD..]))
}

/// What the head of a segment between these hosts says, and the payload.
fn segment_parts(hosts: Hosts, segment: &[u8]) -> Option<(SegmentHead, &[u8])>
    ensures some { IfSome result (λ parts. IsSegment segment.now parts.0 parts.1.now) }
    ensures hosts { IfSome result (λ parts. parts.0.path.hosts ≡ hosts) }
    ensures none { IfNone result ((head : SegmentHeadOf) (payload : List ℕ) →
        IsSegment segment.now head payload → ⊥) }
{
    if segment.len() < SEGMENT_HEAD || segment[12] != 0x50 {
        return None;
    }
    let head = SegmentHead {
        path: Path {
            hosts,
            from_port: be16_at(segment, 0),
            to_port: be16_at(segment, 2),
        },
        sequence: be32_at(segment, 4),
        acknowledged: be32_at(segment, 8),
        flags: SegmentFlags { bits: segment[13] },
    };
    Some((head, &segment[SEGMENT_HEAD..]))
}
