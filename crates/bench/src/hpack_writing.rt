//! Writing header blocks: the head and the trailers of one call after another, and random fields
//! for other decoders to read.

use crate::sizes::number;
use anyhow::{Result, ensure};
use hpack_codec::{Decoder, Encoder};
use lists::{Field, Octets};
use std::alloc::{AllocError, Global};
use std::rt::Clock;
use std::time::Instant;

/// The names of random fields: of the static table, of gRPC, and others.
static NAMES: [&str; 12] = [
    ":status",
    ":method",
    "content-type",
    "grpc-status",
    "grpc-message",
    "x-grpc-test-echo-trailing-bin",
    "x-grpc-test-echo-initial",
    "accept-encoding",
    "a",
    "x-request-id",
    "user-agent",
    "",
];

/// Values that come again and again.
static VALUES: [&str; 8] = [
    "200",
    "GET",
    "application/grpc",
    "0",
    "gzip, deflate",
    "test_initial_metadata_value",
    "",
    "identity",
];

/// Limits that a peer may set.
static LIMITS: [u32; 6] = [4096, 3000, 1000, 300, 100, 0];

/// A generator of numbers that look like chance.
#[derive(Clone, Copy)]
struct Chance(u64);

impl Chance {
    /// The next number below `bound`, or 0.
    fn below(&mut self, bound: usize) -> usize {
        self.0 = self
            .0
            .wrapping_mul(6_364_136_223_846_793_005)
            .wrapping_add(1_442_695_040_888_963_407);
        ((self.0 >> 33) as usize).checked_rem(bound).unwrap_or(0)
    }
}

fn field(alloc: Global, name: &str, value: &[u8]) -> Result<Field, AllocError> {
    Ok(Field {
        name: Octets::from(name.as_bytes().to_vec(alloc)?),
        value: Octets::from(value.to_vec(alloc)?),
    })
}

/// The head of a call's response.
fn head(alloc: Global) -> Result<Vec<Field>, AllocError> {
    let mut fields = Vec::new(alloc);
    fields.push(field(alloc, ":status", b"200")?)?;
    fields.push(field(alloc, "content-type", b"application/grpc")?)?;
    Ok(fields)
}

fn trailers(alloc: Global) -> Result<Vec<Field>, AllocError> {
    let mut fields = Vec::new(alloc);
    fields.push(field(alloc, "grpc-status", b"0")?)?;
    Ok(fields)
}

/// How many bytes the blocks of a number of calls have, and the nanoseconds that they took.
fn written(rt: &(impl Clock + AllocGlobal), times: usize) -> Result<(usize, u128)> {
    let (head, trailers) = (head(rt.alloc())?, trailers(rt.alloc())?);
    let mut encoder = Encoder::new(rt.alloc());
    let start = Instant::now(rt)?;
    let bytes = write(&mut encoder, head.as_slice(), trailers.as_slice(), times)?;
    Ok((bytes, start.elapsed(rt)?.as_nanos()))
}

/// Writes a head and trailers so often. Answers how many bytes their blocks have.
fn write(encoder: &mut Encoder, head: &[Field], trailers: &[Field], times: usize) -> Result<usize> {
    let mut bytes = 0usize;
    for _ in 0..times {
        bytes = bytes.wrapping_add(encoder.block(head)?.len());
        bytes = bytes.wrapping_add(encoder.block(trailers)?.len());
    }
    Ok(bytes)
}

/// `hpack-heads CALLS`: prints the bytes of the head and the trailers of CALLS calls, and the
/// nanoseconds of writing them.
pub fn heads(rt: &(impl Clock + AllocGlobal + Print), sizes: &[String]) -> Result<()> {
    let (bytes, nanos) = written(rt, number(sizes, 0)?)?;
    println!(rt; "{bytes} {nanos}")?;
    Ok(())
}

/// A value that came before, or a new one of up to 99 bytes.
fn value(alloc: Global, chance: &mut Chance) -> Result<Vec<u8>, AllocError> {
    if chance.below(3) > 0 {
        let known = VALUES.get(chance.below(VALUES.len())).copied();
        return known.unwrap_or("").as_bytes().to_vec(alloc);
    }
    let mut value = Vec::new(alloc);
    let span = if chance.below(2) == 0 { 256 } else { 16 };
    for _ in 0..chance.below(100) {
        value.push((chance.below(span).wrapping_add(48) % 256) as u8)?;
    }
    Ok(value)
}

fn random_fields(alloc: Global, chance: &mut Chance) -> Result<Vec<Field>, AllocError> {
    let mut fields = Vec::new(alloc);
    for _ in 0..chance.below(12) {
        let name = NAMES.get(chance.below(NAMES.len())).copied();
        let value = value(alloc, chance)?;
        fields.push(field(alloc, name.unwrap_or(""), value.as_slice())?)?;
    }
    Ok(fields)
}

/// Writes bytes as hexadecimal digits at the end.
fn push_hex(line: &mut String, bytes: &[u8]) -> Result<(), AllocError> {
    for byte in bytes {
        for digit in [*byte / 16, *byte % 16] {
            line.push(char::from_digit(u32::from(digit), 16).unwrap_or('?'))?;
        }
    }
    Ok(())
}

/// A block and its fields, as a line: all in hexadecimal digits.
fn line_of(alloc: Global, block: &[u8], fields: &[Field]) -> Result<String, AllocError> {
    let mut line = String::from_str(alloc, "block ")?;
    push_hex(&mut line, block)?;
    for field in fields {
        line.push(' ')?;
        push_hex(&mut line, field.name.as_slice())?;
        line.push(':')?;
        push_hex(&mut line, field.value.as_slice())?;
    }
    Ok(line)
}

/// Prints the blocks of random fields that one encoder writes, a line each, and between them the
/// limits that its peer sets. Each block is read back.
fn connection(rt: &(impl AllocGlobal + Print), chance: &mut Chance, blocks: usize) -> Result<()> {
    let mut encoder = Encoder::new(rt.alloc());
    let mut decoder = Decoder::new(rt.alloc());
    println!(rt; "connection")?;
    print_blocks(rt, chance, &mut encoder, &mut decoder, blocks)
}

fn print_blocks(
    rt: &(impl AllocGlobal + Print),
    chance: &mut Chance,
    encoder: &mut Encoder,
    decoder: &mut Decoder,
    blocks: usize,
) -> Result<()> {
    for _ in 0..blocks {
        if chance.below(20) == 0 {
            let limit = LIMITS.get(chance.below(LIMITS.len())).copied().unwrap_or(0);
            encoder.limit(limit);
            println!(rt; "limit {limit}")?;
        }
        let fields = random_fields(rt.alloc(), chance)?;
        let line = written_line(rt.alloc(), encoder, decoder, fields.as_slice())?;
        println!(rt; "{line}")?;
    }
    Ok(())
}

/// Writes a block, which is read back, and answers its line.
fn written_line(
    alloc: Global,
    encoder: &mut Encoder,
    decoder: &mut Decoder,
    fields: &[Field],
) -> Result<String> {
    let block = encoder.block(fields)?;
    let is_same = decoder.block(block.as_slice())?.as_slice() == fields;
    ensure!(is_same, "a block is read as other fields");
    Ok(line_of(alloc, block.as_slice(), fields)?)
}

/// `hpack-random SEED CONNECTIONS BLOCKS`: prints BLOCKS random blocks of each of CONNECTIONS
/// connections.
pub fn random(rt: &(impl AllocGlobal + Print), sizes: &[String]) -> Result<()> {
    let mut chance = Chance(number(sizes, 0)? as u64);
    for _ in 0..number(sizes, 1)? {
        connection(rt, &mut chance, number(sizes, 2)?)?;
    }
    Ok(())
}

pub fn small(rt: &(impl Clock + AllocGlobal + Print)) -> Result<()> {
    let (bytes, _nanos) = written(rt, 10)?;
    println!(rt; "hpack-heads: {bytes} bytes")?;
    Ok(())
}
