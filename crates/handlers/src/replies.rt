//! Replies in order, each held as the varint of a number: one byte for a reply of less than 128
//! zeros. So a method that holds its replies until the end of a call holds less than the bytes that
//! asked for them: at least two bytes ask for such a reply, five for one that is held in two bytes,
//! and eight for one that is held in five.

ghost use Rattle.std.specs.Prelude.{
  ◌≡◌,
  ◌↔◌,
  ◌++◌,
  ◌∷◌,
  [],
  List,
  IsTrue,
  IfOk,
  OnOk,
  OnErr,
  MatchOption,
};
ghost use Rattle.handlers.specs.declared.reply.Reply.{Reply as ReplyOf};
ghost use Rattle.handlers.specs.HeldReplies.{reply_of, numbers_of, IsNumber, AreHeld, BeginsWith};

use crate::reply::Reply;
use pbwire::{read_varint, varint_len, write_varint};
use std::alloc::{AllocError, Global};
use std::marker::Model;

/// The number of a sum is its 32 bits and this. The number of a payload is less, and is how many
/// zeros it has.
const SUMS: u64 = 0x1_0000_0000;

/// The number of a message without a field.
const EMPTY: u64 = 0x2_0000_0000;

/// The number as which a reply is held.
fn number_of(reply: Reply) -> u64
    ensures fits { IsNumber result }
    ensures reply { reply_of result ≡ reply }
{
    match reply {
        Reply::Empty => EMPTY,
        Reply::Zeros(size) => u64::from(size),
        Reply::Sum(value) => SUMS + u64::from(value.cast_unsigned()),
    }
}

/// The reply that is held as this number.
fn reply_at(number: u64) -> Reply
    requires { IsNumber number }
    ensures { result ≡ reply_of number }
{
    if number < SUMS {
        return Reply::Zeros(number as u32);
    }
    if number < EMPTY {
        return Reply::Sum(((number - SUMS) as u32).cast_signed());
    }
    Reply::Empty
}

/// The number of the first reply that these bytes hold, and how many of them it takes.
fn first_number(bytes: &[u8]) -> Option<(u64, usize)>
    requires { AreHeld bytes.now }
    ensures { MatchOption result (numbers_of bytes.now ≡ [])
        (λ found. BeginsWith bytes.now found.0 found.1) }
{
    match read_varint(bytes) {
        Ok(found) => Some(found),
        Err(_) => None,
    }
}

/// Replies in order, of which the first ones may have been passed. In a contract they are the list
/// of the others.
#[derive(Debug, Drop)]
pub struct Replies {
    spelled: Vec<u8>,
    /// How many of those bytes belong to replies that were passed.
    passed: usize,
}

impl Model for Replies {
    ghost use Rattle.std.specs.Prelude.{List, ◌≤◌, length, drop};
    ghost use Rattle.handlers.specs.declared.reply.Reply.{Reply};

    ghost Value = { List Reply };

    ghost use Rattle.handlers.specs.HeldReplies.{held_by, AreHeld};

    ghost view = { λ replies. held_by (drop replies.passed replies.spelled.items) };

    ghost invariant = { λ replies. (replies.passed ≤ length replies.spelled.items)
        × AreHeld (drop replies.passed replies.spelled.items) };
}

impl Replies {
    pub fn new(alloc: Global) -> Replies
        ensures { result ≡ [] }
    {
        Replies {
            spelled: Vec::new(alloc),
            passed: 0,
        }
    }

    /// One reply.
    pub fn one(alloc: Global, reply: Reply) -> Result<Replies, AllocError>
        ensures { IfOk result (λ replies. replies ≡ reply ∷ []) }
    {
        let spelled = Vec::with_capacity(alloc, varint_len(number_of(reply)))?;
        let mut replies = Replies { spelled, passed: 0 };
        replies.push(reply)?;
        Ok(replies)
    }

    /// The first reply.
    pub fn first(&self) -> Option<Reply>
        ensures { MatchOption result (self.now ≡ [])
            (λ reply. (rest : List ReplyOf) × (self.now ≡ reply ∷ rest)) }
    {
        let (number, _) = first_number(&self.spelled[self.passed..])?;
        Some(reply_at(number))
    }

    /// Whether there is none.
    pub fn is_empty(&self) -> bool
        ensures { IsTrue result ↔ (self.now ≡ []) }
    {
        self.first().is_none()
    }

    /// Passes the first reply, if there is one. Its bytes stay in memory until all replies are
    /// dropped.
    pub fn pass(&mut self)
        ensures some { (reply : ReplyOf) (rest : List ReplyOf) → self.old ≡ reply ∷ rest
            → self.new ≡ rest }
        ensures none { self.old ≡ [] → self.new ≡ [] }
    {
        if let Some((_, len)) = first_number(&self.spelled[self.passed..]) {
            self.passed += len;
        }
    }

    pub fn push(&mut self, reply: Reply) -> Result<(), AllocError>
        ensures ok { OnOk result (self.new ≡ self.old ++ reply ∷ []) }
        ensures err { OnErr result (self.new ≡ self.old) }
    {
        match write_varint(number_of(reply), &mut self.spelled) {
            Ok(()) => Ok(()),
            Err(_) => Err(AllocError),
        }
    }

    /// Appends these replies.
    pub(crate) fn append(&mut self, more: &Replies) -> Result<(), AllocError>
        ensures ok { OnOk result (self.new ≡ self.old ++ more.now) }
        ensures err { OnErr result (self.new ≡ self.old) }
    {
        self.spelled
            .extend_from_slice(&more.spelled[more.passed..])?;
        Ok(())
    }
}
