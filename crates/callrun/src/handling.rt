//! What the method of a call has answered to what was taken.

ghost use Rattle.std.specs.Prelude.{◌≡◌, ◌↔◌, IsTrue, ◌++◌, ◌∷◌, [], List, ℕ, false, None, Some};
ghost use Rattle.account.specs.declared.call.RequestEnd.TheVariants as told_kind;
ghost use Rattle.handlers.specs.Answers.{IsLawful};
ghost use Rattle.handlers.specs.Steps.{nothing};

use crate::cause::Cause;
use crate::ending::Ending;
use crate::waiting::WaitingReplies;
use handlers::{Method, MethodFault, MethodState, MethodStep, Replies};
use std::alloc::Global;

/// The state of a call's method, and the answers that were not given yet.
#[derive(Debug, Drop)]
pub(crate) struct Handling {
    pub(crate) state: MethodState,
    pub(crate) waiting: WaitingReplies,
    /// How the call ends, after the replies that wait.
    pub(crate) ending: Option<Ending>,
}

impl Handling {
    ghost use Rattle.callrun.specs.Handlings.{
      Accepts,
      Answers,
      EndsBy,
      IsReady,
      IsStanding,
      lacks_memory,
    };

    /// No message was taken yet.
    pub(crate) fn new(alloc: Global, method: &dyn Method) -> Handling
        ensures lawful { IsLawful (answers method.now) }
        ensures standing { IsStanding (answers method.now)
            (stands method.now) None [] result.state }
        ensures none { answers method.now [] false nothing }
        ensures ready { IsReady result }
    {
        Handling {
            state: method.first(),
            waiting: WaitingReplies::none(alloc),
            ending: None,
        }
    }

    /// A message was taken.
    pub(crate) fn message(&mut self, alloc: Global, method: &dyn Method, message: &[u8])
        ensures answers { (messages : List (List ℕ)) → IsLawful (answers method.now)
            → IsStanding (answers method.now) (stands method.now) None messages self.old.state
            → Answers (answers method.now) (stands method.now) None messages
            (messages ++ message.now ∷ []) self.new }
    {
        let step = method.message(alloc, &mut self.state, message);
        self.accept(alloc, step);
    }

    /// The end was told.
    pub(crate) fn end(&mut self, alloc: Global, method: &dyn Method)
        ensures answers { (messages : List (List ℕ)) → IsLawful (answers method.now)
            → IsStanding (answers method.now) (stands method.now) None messages self.old.state
            → Answers (answers method.now) (stands method.now)
            (Some told_kind.End) messages messages self.new }
    {
        let step = method.end(alloc, &mut self.state);
        self.accept(alloc, step);
    }

    /// Adds what a step gave to what is to be given, or ends the call if the step failed.
    fn accept(&mut self, alloc: Global, step: Result<MethodStep, MethodFault>)
        ensures { Accepts step self.old self.new }
    {
        match step {
            Ok(MethodStep { replies, ends }) => {
                self.waiting.set(replies);
                self.ending = match ends {
                    Some(status) => Some(Ending::Method(status)),
                    None => None,
                };
            }
            Err(_fault) => self.end_by(alloc, Cause::OutOfMemory),
        }
    }

    /// Ends the call, and drops the replies that wait.
    pub(crate) fn end_by(&mut self, alloc: Global, cause: Cause)
        ensures { EndsBy cause self.old self.new }
    {
        self.waiting.set(Replies::new(alloc));
        self.ending = Some(Ending::Cause(cause));
    }

    /// Whether nothing waits and the call goes on, so that more may be taken.
    pub(crate) fn is_ready(&self) -> bool
        ensures { IsTrue result ↔ IsReady self.now }
    {
        self.waiting.is_empty() && self.ending.is_none()
    }

    /// Whether the call ends for want of memory.
    pub(crate) fn lacks_memory(&self) -> bool
        ensures { result ≡ lacks_memory self.now.ending }
    {
        matches!(self.ending, Some(Ending::Cause(Cause::OutOfMemory)))
    }
}
