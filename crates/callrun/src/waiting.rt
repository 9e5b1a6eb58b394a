//! The replies that a call still has to give.

ghost use Rattle.std.specs.Prelude.{◌≡◌, ◌↔◌, IsTrue, [], ◌∷◌, MatchOption, List};
ghost use Rattle.handlers.specs.declared.reply.Reply.{Reply as ReplyOf};

use handlers::{Replies, Reply};
use std::alloc::Global;
use std::marker::Model;

/// Replies in order. In a contract they are their list.
#[derive(Debug, Drop)]
pub(crate) struct WaitingReplies {
    replies: Replies,
    /// How many replies of the call were given in all.
    passed: u64,
    /// How many bytes those replies had.
    bytes: u64,
}

impl Model for WaitingReplies {
    ghost use Rattle.std.specs.Prelude.{List};
    ghost use Rattle.handlers.specs.declared.reply.Reply.{Reply};

    ghost Value = { List Reply };

    ghost view = { λ waiting. waiting.replies };
}

impl WaitingReplies {
    pub(crate) fn none(alloc: Global) -> WaitingReplies
        ensures { result ≡ [] }
    {
        WaitingReplies {
            replies: Replies::new(alloc),
            passed: 0,
            bytes: 0,
        }
    }

    /// Lets these replies wait, and no others.
    pub(crate) fn set(&mut self, replies: Replies)
        ensures { self.new ≡ replies }
    {
        self.replies = replies;
    }

    /// How many replies of the call were given in all, and how many bytes they had.
    pub(crate) fn passed(&self) -> (u64, u64) {
        (self.passed, self.bytes)
    }

    /// The next reply.
    pub(crate) fn first(&self) -> Option<Reply>
        ensures { MatchOption result (self.now ≡ [])
            (λ reply. (rest : List ReplyOf) × (self.now ≡ reply ∷ rest)) }
    {
        self.replies.first()
    }

    /// Whether all were given.
    pub(crate) fn is_empty(&self) -> bool
        ensures { IsTrue result ↔ (self.now ≡ []) }
    {
        self.replies.is_empty()
    }

    /// The next reply was given.
    pub(crate) fn pass(&mut self)
        ensures { (reply : ReplyOf) (rest : List ReplyOf) → self.old ≡ reply ∷ rest
            → self.new ≡ rest }
    {
        if let Some(reply) = self.replies.first() {
            self.passed = self.passed.saturating_add(1);
            self.bytes = self.bytes.saturating_add(reply.len() as u64);
            self.replies.pass();
        }
    }
}
