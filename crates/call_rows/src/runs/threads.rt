//! A call whose ends are in threads of their own.
ghost use Rattle.std.specs.Prelude.{IfOk, All, length, ◌≤◌};

use super::four_threads::{Answer, Request, run_call};
use super::out_ends::{FRAMED, bytes_of, fields};
use account::{OutItem, RequestEnd, Shut};
use anyhow::Result;
use bytes::Bytes;
use callbox::{InAccount, InPiece, OutAccount};
use lane::RingLane;
use std::alloc::{AllocError, Global};
use std::sync::Wait;
use std::thread::Threads;

/// What the client sends: an empty message and one of two bytes, in two pieces, and then a reset.
fn request(alloc: Global) -> Result<Request, AllocError> {
    let mut pieces = Vec::new(alloc);
    pieces.push(Bytes::from_static(&[0, 0, 0, 0]))?;
    pieces.push(Bytes::from_static(&[0, 0, 0, 0, 0, 2, 8, 1]))?;
    Ok(Request {
        pieces,
        shut: Shut::Reset(8),
    })
}

/// A head, one message and trailers.
fn answer(alloc: Global) -> Result<Answer, AllocError>
    ensures { IfOk result (λ answer. All (λ m. length m ≤ 4194304) answer.messages.items) }
{
    let mut messages = Vec::new(alloc);
    messages.push(Bytes::from_static(&[0x41]))?;
    Ok(Answer {
        head: fields(alloc)?,
        messages,
        trailers: fields(alloc)?,
    })
}

pub fn four_ends<R: Threads + Wait + Sync>(rt: &R, alloc: Global) -> Result<bool> {
    let request = request(alloc)?;
    let answer = answer(alloc)?;
    let ran = run_call::<RingLane<InPiece>, RingLane<OutItem>, R>(
        rt,
        alloc,
        (2, 2),
        request,
        answer,
    )?;
    let input = InAccount {
        fed: 12,
        shut: Some(Shut::Reset(8)),
        taken: 2,
        told: Some(RequestEnd::Reset(8)),
    };
    let output = OutAccount {
        given: 3,
        sent: 3,
        trailers_given: true,
        trailers_sent: true,
    };
    let is_taken = ran.taken.get(1).map(|message| message.as_slice()) == Some([8, 1].as_slice());
    let is_sent = ran.sent.get(1).map(bytes_of) == Some(FRAMED);
    Ok(ran.input == input && ran.output == output && is_taken && is_sent)
}
