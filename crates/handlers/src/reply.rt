//! What a method replies, and the bytes of the response message.
//!
//! `Sum` holds an `i32`, the type of the field; the state's sum is a `u32`. The reply to UnaryCall
//! is written as a StreamingOutputCallResponse: a SimpleResponse with that payload has the same
//! spelling (`specs/Replies.antt`).

ghost use Rattle.std.specs.Prelude.{
  ◌≡◌,
  ◌+◌,
  ◌<◌,
  ◌≤◌,
  ◌++◌,
  length,
  replicate,
  vec_len,
  vec_capacity,
  IfOk,
  OnOk,
  OnErr,
};
ghost use Rattle.pbwire.specs.Spelling.{varint_spelling, spelling_of_all};
ghost use Rattle.testproto.specs.Canonical.{payload_fields};
ghost use Rattle.handlers.specs.declared.reply.Reply.TheVariants.{
  Zeros as ZerosReply,
  Sum as SumReply,
};
ghost use Rattle.handlers.specs.Replies.{
  reply_bytes,
  front_bytes,
  body_head,
  zero_count,
  zero_payload,
};

use crate::fault::MethodFault;
use pbwire::{varint_len, write_varint};
use std::alloc::{AllocError, Global};

/// One response message.
#[derive(Clone, Copy, Debug, PartialEq, Eq)]
pub enum Reply {
    /// A message without a field.
    Empty,
    /// A payload of that many zero bytes.
    Zeros(u32),
    /// The sum of the lengths that were received.
    Sum(i32),
}

/// Tags: the number of a field times 8, plus 2 for a field with a length or 0 for a varint.
const PAYLOAD_TAG: u64 = 10;

const BODY_TAG: u64 = 18;

const SUM_TAG: u64 = 8;

/// How many bytes a tag of these takes.
const TAG_LEN: usize = 1;

impl Reply {
    /// How many bytes the response message has.
    #[tactic(auto, using(crate::proofs::ReplyLengths::reply_len))]
    pub fn len(&self) -> usize
        ensures { result ≡ length (reply_bytes self.now) }
    {
        self.front_len() + self.zeros() as usize
    }

    /// How many zeros the payload has. The response message ends with them.
    pub fn zeros(&self) -> u32
        ensures count { result ≡ zero_count self.now }
        ensures last { reply_bytes self.now ≡ front_bytes self.now ++ replicate result 0 }
    {
        match *self {
            Reply::Empty => 0,
            Reply::Zeros(size) => size,
            Reply::Sum(_) => 0,
        }
    }

    /// How many bytes the response message has before those zeros.
    pub fn front_len(&self) -> usize
        ensures len { result ≡ length (front_bytes self.now) }
        ensures short { result ≤ 22 }
    {
        match *self {
            Reply::Empty => 0,
            Reply::Zeros(size) => {
                TAG_LEN + varint_len(payload_len(size) as u64) + body_head_len(size)
            }
            Reply::Sum(value) => sum_len(value),
        }
    }

    /// Appends the bytes of the response message before those zeros, in their canonical spelling.
    /// The payload is always present, and its type is left out.
    ///
    /// It takes memory at most once, and none where the buffer has room.
    pub fn write_front(&self, out: &mut Vec<u8>) -> Result<(), AllocError>
        ensures ok { OnOk result (out.new.items ≡ out.old.items ++ front_bytes self.now) }
        ensures err { OnErr result (out.new.items ≡ out.old.items) }
        ensures full { OnErr result
            (vec_capacity out.old < vec_len out.old + length (front_bytes self.now)) }
    {
        out.reserve(self.front_len())?;
        put_front(*self, out);
        Ok(())
    }

    /// Appends the bytes of the whole response message.
    ///
    /// It takes memory at most once, and none where the buffer has room.
    #[tactic(auto, using(crate::proofs::ReplyLengths::reply_len))]
    pub fn write(&self, out: &mut Vec<u8>) -> Result<(), AllocError>
        ensures ok { OnOk result (out.new.items ≡ out.old.items ++ reply_bytes self.now) }
        ensures err { OnErr result (out.new.items ≡ out.old.items) }
        ensures full { OnErr result
            (vec_capacity out.old < vec_len out.old + length (reply_bytes self.now)) }
    {
        out.reserve(self.len())?;
        put_front(*self, out);
        put_zeros(self.zeros(), out);
        Ok(())
    }

    /// The bytes of the response message by themselves.
    pub fn bytes(&self, alloc: Global) -> Result<Vec<u8>, MethodFault>
        ensures { IfOk result (λ bytes. bytes.items ≡ reply_bytes self.now) }
    {
        let mut bytes = Vec::with_capacity(alloc, self.len())?;
        self.write(&mut bytes)?;
        Ok(bytes)
    }
}

/// How many bytes a payload of that many zeros has before them.
fn body_head_len(size: u32) -> usize
    ensures len { result ≡ length (body_head size) }
    ensures short { result ≤ 11 }
{
    if size == 0 {
        return 0;
    }
    TAG_LEN + varint_len(u64::from(size))
}

/// How many bytes a payload of that many zeros has.
fn payload_len(size: u32) -> usize
    ensures { result ≡ length (spelling_of_all (payload_fields (zero_payload size))) }
{
    body_head_len(size) + size as usize
}

/// How many bytes a response with that sum has.
fn sum_len(value: i32) -> usize
    ensures len { result ≡ length (reply_bytes (SumReply value)) }
    ensures short { result ≤ 11 }
{
    if value == 0 {
        return 0;
    }
    TAG_LEN + varint_len(i64::from(value).cast_unsigned())
}

/// Appends a varint, for which there is room.
fn put_varint(number: u64, out: &mut Vec<u8>)
    requires { vec_len out.old + length (varint_spelling number) ≤ vec_capacity out.old }
    ensures items { out.new.items ≡ out.old.items ++ varint_spelling number }
    ensures capacity { vec_capacity out.old ≤ vec_capacity out.new }
{
    let _ = write_varint(number, out);
}

/// Appends that many zeros, for which there is room.
fn put_zeros(size: u32, out: &mut Vec<u8>)
    requires { vec_len out.old + size ≤ vec_capacity out.old }
    ensures { out.new.items ≡ out.old.items ++ replicate size 0 }
{
    let _room = out.capacity();
    let filled = out.len() + size as usize;
    let _ = out.resize(filled, 0);
}

/// Appends the bytes of a response before its zeros, for which there is room.
fn put_front(reply: Reply, out: &mut Vec<u8>)
    requires { vec_len out.old + length (front_bytes reply) ≤ vec_capacity out.old }
    ensures items { out.new.items ≡ out.old.items ++ front_bytes reply }
    ensures capacity { vec_capacity out.old ≤ vec_capacity out.new }
{
    match reply {
        Reply::Empty => {}
        Reply::Zeros(size) => put_payload_front(size, out),
        Reply::Sum(value) => put_sum(value, out),
    }
}

/// Appends the bytes of a response with that many zeros before them, for which there is room.
fn put_payload_front(size: u32, out: &mut Vec<u8>)
    requires { vec_len out.old + length (front_bytes (ZerosReply size)) ≤ vec_capacity out.old }
    ensures items { out.new.items ≡ out.old.items ++ front_bytes (ZerosReply size) }
    ensures capacity { vec_capacity out.old ≤ vec_capacity out.new }
{
    put_varint(PAYLOAD_TAG, out);
    put_varint(payload_len(size) as u64, out);
    put_body_head(size, out);
}

/// Appends the tag and the length of a body of that many zeros, for which there is room.
fn put_body_head(size: u32, out: &mut Vec<u8>)
    requires { vec_len out.old + length (body_head size) ≤ vec_capacity out.old }
    ensures items { out.new.items ≡ out.old.items ++ body_head size }
    ensures capacity { vec_capacity out.old ≤ vec_capacity out.new }
{
    if size == 0 {
        return;
    }
    put_varint(BODY_TAG, out);
    put_varint(u64::from(size), out);
}

/// Appends a response with that sum, for which there is room.
fn put_sum(value: i32, out: &mut Vec<u8>)
    requires { vec_len out.old + length (reply_bytes (SumReply value)) ≤ vec_capacity out.old }
    ensures items { out.new.items ≡ out.old.items ++ reply_bytes (SumReply value) }
    ensures capacity { vec_capacity out.old ≤ vec_capacity out.new }
{
    if value == 0 {
        return;
    }
    put_varint(SUM_TAG, out);
    put_varint(i64::from(value).cast_unsigned(), out);
}
