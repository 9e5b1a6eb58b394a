//! Writing a record of a capture.

ghost use Rattle.std.specs.Prelude.{◌≡◌, ◌+◌, ◌<◌, ◌≤◌, ◌^◌, ◌++◌, length, IfOk};
ghost use Rattle.capture.specs.Checksum.{pseudo_sum};
ghost use Rattle.capture.specs.Format.{
  IsFileHead,
  IsRecord,
  IsPacket,
  IsV4,
  IsV6,
  IsSegment,
  IsChecked,
};
ghost use Rattle.capture.specs.Writing.{segment_head, v4_head, v6_head, record_head};

use crate::checksum::{checksum, word_sum};
use crate::packet::{Hosts, SegmentHead, Time};
use std::alloc::{AllocError, Global};

/// The most bytes of a payload, so that the lengths of packets fit their fields.
pub const MOST_PAYLOAD: usize = 65_000;

/// What a file begins with: the magic number, the version, two unused fields, the most bytes that
/// are kept of a packet, and that packets begin with the head of IP.
#[tactic(auto, unfolding(crate::specs::Fields::le32_at))]
pub fn file_head() -> [u8; 24]
    ensures { IsFileHead result }
{
    [
        0xd4, 0xc3, 0xb2, 0xa1, 2, 0, 4, 0, 0, 0, 0, 0, 0, 0, 0, 0, 0, 0, 4, 0, 101, 0, 0, 0,
    ]
}

/// The record of a packet.
pub(crate) fn record_of(
    alloc: Global,
    time: Time,
    head: SegmentHead,
    payload: &[u8],
) -> Result<Vec<u8>, AllocError>
    requires { length payload.now ≤ 65000 }
    ensures { IfOk result (λ text. IsRecord text.items
        (record { time = time; head = head; payload = payload.now })) }
{
    let segment = segment(alloc, head, payload)?;
    let packet = packet(alloc, &head.path.hosts, &segment)?;
    let bytes = packet.as_slice();
    let front = record_head(time, bytes.len() as u32);
    let text = joined(alloc, &front, b"", b"", bytes)?;
    Ok(text)
}

/// Bytes after one another.
fn joined(
    alloc: Global,
    first: &[u8],
    second: &[u8],
    third: &[u8],
    last: &[u8],
) -> Result<Vec<u8>, AllocError>
    requires { length first.now + length second.now + length third.now + length last.now < 2 ^ 32 }
    ensures { IfOk result
        (λ text. text.items ≡ first.now ++ (second.now ++ (third.now ++ last.now))) }
{
    let size = first.len() + second.len() + third.len() + last.len();
    let mut text = Vec::with_capacity(alloc, size)?;
    text.extend_from_slice(first)?;
    text.extend_from_slice(second)?;
    text.extend_from_slice(third)?;
    text.extend_from_slice(last)?;
    Ok(text)
}

#[tactic(auto, unfolding(crate::specs::Writing::record_head))]
fn record_head(time: Time, size: u32) -> [u8; 16]
    ensures { result ≡ record_head time size }
{
    let (seconds, micros) = (time.seconds.to_le_bytes(), time.micros.to_le_bytes());
    let size = size.to_le_bytes();
    [
        seconds[0], seconds[1], seconds[2], seconds[3], micros[0], micros[1], micros[2], micros[3],
        size[0], size[1], size[2], size[3], size[0], size[1], size[2], size[3],
    ]
}

/// A segment, with its checksum.
fn segment(alloc: Global, head: SegmentHead, payload: &[u8]) -> Result<Vec<u8>, AllocError>
    requires { length payload.now ≤ 65000 }
    ensures segment { IfOk result (λ text. IsSegment text.items head payload.now) }
    ensures checked { IfOk result (λ text. IsChecked head.path.hosts text.items) }
    ensures size { IfOk result (λ text. length text.items ≡ 20 + length payload.now) }
{
    let pseudo = pseudo_sum(&head.path.hosts, 20 + payload.len());
    let blank = segment_head(head, 0);
    let of_head = word_sum(&blank);
    let of_payload = word_sum(payload);
    let sum = checksum(pseudo + of_head + of_payload);
    let front = segment_head(head, sum);
    let text = joined(alloc, &front, b"", b"", payload)?;
    Ok(text)
}

#[tactic(auto, unfolding(crate::specs::Writing::segment_head))]
fn segment_head(head: SegmentHead, checksum: u16) -> [u8; 20]
    ensures { result ≡ segment_head head checksum }
{
    let (from, to) = (
        head.path.from_port.to_be_bytes(),
        head.path.to_port.to_be_bytes(),
    );
    let (sequence, acknowledged) = (head.sequence.to_be_bytes(), head.acknowledged.to_be_bytes());
    let checksum = checksum.to_be_bytes();
    [
        from[0],
        from[1],
        to[0],
        to[1],
        sequence[0],
        sequence[1],
        sequence[2],
        sequence[3],
        acknowledged[0],
        acknowledged[1],
        acknowledged[2],
        acknowledged[3],
        0x50,
        head.flags.bits,
        0xff,
        0xff,
        checksum[0],
        checksum[1],
        0,
        0,
    ]
}

/// The sum of the words of a pseudo-header.
pub(crate) fn pseudo_sum(hosts: &Hosts, size: usize) -> u64
    requires { size < 2 ^ 32 }
    ensures sum { result ≡ pseudo_sum hosts.now size }
    ensures small { result < 2 ^ 40 }
{
    let addresses = match hosts {
        Hosts::V4 { from, to } => word_sum(from) + word_sum(to),
        Hosts::V6 { from, to } => word_sum(from) + word_sum(to),
    };
    addresses + 6 + size as u64
}

/// A packet between these hosts.
fn packet(alloc: Global, hosts: &Hosts, segment: &[u8]) -> Result<Vec<u8>, AllocError>
    requires { length segment.now ≤ 65020 }
    ensures packet { IfOk result (λ text. IsPacket text.items hosts.now segment.now) }
    ensures size { IfOk result (λ text. length text.items < 2 ^ 17) }
{
    match hosts {
        Hosts::V4 { from, to } => v4_packet(alloc, from, to, segment),
        Hosts::V6 { from, to } => v6_packet(alloc, from, to, segment),
    }
}

fn v4_packet(
    alloc: Global,
    from: &[u8; 4],
    to: &[u8; 4],
    segment: &[u8],
) -> Result<Vec<u8>, AllocError>
    requires { length segment.now ≤ 65020 }
    ensures packet { IfOk result (λ text. IsV4 text.items from.now to.now segment.now) }
    ensures size { IfOk result (λ text. length text.items ≡ 20 + length segment.now) }
{
    let size = (20 + segment.len()) as u16;
    let blank = v4_head(size, 0);
    let of_head = word_sum(&blank);
    let of_source = word_sum(from);
    let of_destination = word_sum(to);
    let sum = checksum(of_head + of_source + of_destination);
    let front = v4_head(size, sum);
    let text = joined(alloc, &front, from, to, segment)?;
    Ok(text)
}

#[tactic(auto, unfolding(crate::specs::Writing::v4_head))]
fn v4_head(size: u16, checksum: u16) -> [u8; 12]
    ensures { result ≡ v4_head size checksum }
{
    let (size, checksum) = (size.to_be_bytes(), checksum.to_be_bytes());
    [
        0x45,
        0,
        size[0],
        size[1],
        0,
        0,
        0x40,
        0,
        64,
        6,
        checksum[0],
        checksum[1],
    ]
}

fn v6_packet(
    alloc: Global,
    from: &[u8; 16],
    to: &[u8; 16],
    segment: &[u8],
) -> Result<Vec<u8>, AllocError>
    requires { length segment.now ≤ 65020 }
    ensures packet { IfOk result (λ text. IsV6 text.items from.now to.now segment.now) }
    ensures size { IfOk result (λ text. length text.items ≡ 40 + length segment.now) }
{
    let front = v6_head(segment.len() as u16);
    let text = joined(alloc, &front, from, to, segment)?;
    Ok(text)
}

#[tactic(auto, unfolding(crate::specs::Writing::v6_head))]
fn v6_head(size: u16) -> [u8; 8]
    ensures { result ≡ v6_head size }
{
    let size = size.to_be_bytes();
    [0x60, 0, 0, 0, size[0], size[1], 6, 64]
}
