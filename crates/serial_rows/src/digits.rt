//! The bytes of a connection as a file has them.

use anyhow::{Context, Result};
use std::alloc::Global;

/// The bytes of pairs of hexadecimal digits; after some a star and how many times they come. A `^`
/// among them stands for the four bytes of a client's stream: each time of the next, from 1 on (RFC
/// 9113, section 5.1.1).
pub fn bytes_of(alloc: Global, text: &str) -> Result<Vec<u8>> {
    let mut bytes = Vec::new(alloc);
    let mut stream = 1u32;
    for word in text.split_whitespace() {
        let (digits, times) = times_of(word)?;
        let (before, behind) = digits.split_once('^').unwrap_or((digits, ""));
        let front = hex::decode(alloc, before)?;
        let rest = hex::decode(alloc, behind)?;
        for _ in 0..times {
            bytes.extend_from_slice(front.as_slice())?;
            if digits.len() != before.len() {
                bytes.extend_from_slice(&stream.to_be_bytes())?;
                stream = stream.saturating_add(2);
            }
            bytes.extend_from_slice(rest.as_slice())?;
        }
    }
    Ok(bytes)
}

/// The preface of a connection's bytes (RFC 9113, section 3.4), and each of its frames. What
/// doesn't end a frame is the last.
pub fn frames_of(alloc: Global, bytes: &[u8]) -> Result<Vec<Vec<u8>>> {
    let mut frames = Vec::new(alloc);
    let (preface, mut rest) = bytes.split_at(bytes.len().min(24));
    frames.push(Vec::from_slice(alloc, preface)?)?;
    while let [a, b, c, ..] = rest {
        let len = 9 + u32::from_be_bytes([0, *a, *b, *c]) as usize;
        let (frame, behind) = rest.split_at(len.min(rest.len()));
        frames.push(Vec::from_slice(alloc, frame)?)?;
        rest = behind;
    }
    Ok(frames)
}

/// What comes so often as is said after a star, or once.
pub fn times_of(word: &str) -> Result<(&str, u32)> {
    match word.split_once('*') {
        Some((once, times)) => Ok((once, times.parse::<u32>().context("no number of times")?)),
        None => Ok((word, 1)),
    }
}
