//! What one step of a method gives.

ghost use Rattle.std.specs.Prelude.{◌≡◌, ◌∷◌, [], OnOk};
ghost use Rattle.handlers.specs.Steps.{nothing, replying, ending, done, finished, joined};

use crate::replies::Replies;
use crate::status::Status;
use std::alloc::{AllocError, Global};

/// Replies, and the status that ends the call after them, if there is one.
#[derive(Debug, Drop)]
pub struct MethodStep {
    pub replies: Replies,
    pub ends: Option<Status>,
}

impl MethodStep {
    /// No reply and no status.
    pub fn nothing(alloc: Global) -> MethodStep
        ensures { result ≡ nothing }
    {
        MethodStep {
            replies: Replies::new(alloc),
            ends: None,
        }
    }

    /// Replies, and no status yet.
    pub fn replying(replies: Replies) -> MethodStep
        ensures { result ≡ replying replies }
    {
        MethodStep {
            replies,
            ends: None,
        }
    }

    /// A status without a reply.
    pub fn ending(alloc: Global, status: Status) -> MethodStep
        ensures { result ≡ ending [] status }
    {
        MethodStep {
            replies: Replies::new(alloc),
            ends: Some(status),
        }
    }

    /// Replies, and the end of a call that went well. It takes no memory.
    pub fn done(replies: Replies) -> MethodStep
        ensures { result ≡ done replies }
    {
        MethodStep {
            replies,
            ends: Some(Status::ok()),
        }
    }

    /// The end of a call: the status that there is, or else OK.
    pub(crate) fn finished(self) -> MethodStep
        ensures { result ≡ finished self }
    {
        match self {
            MethodStep {
                replies,
                ends: Some(status),
            } => MethodStep {
                replies,
                ends: Some(status),
            },
            MethodStep {
                replies,
                ends: None,
            } => MethodStep::done(replies),
        }
    }

    /// Adds what a later step gave. The first status stays.
    pub(crate) fn join(&mut self, more: MethodStep) -> Result<(), AllocError>
        ensures { OnOk result (self.new ≡ joined self.old more) }
    {
        self.replies.append(&more.replies)?;
        if self.ends.is_none() {
            self.ends = more.ends;
        }
        Ok(())
    }
}
