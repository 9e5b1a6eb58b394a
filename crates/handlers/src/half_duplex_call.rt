//! HalfDuplexCall: it judges each request as it takes it, and answers all at the end.

ghost use Rattle.std.specs.Prelude.{◌≡◌, ◌++◌, ◌∷◌, [], List, ℕ, false, IfOk, OnOk, codes};
ghost use Rattle.handlers.specs.Requests.{OutputVerdict};
ghost use Rattle.handlers.specs.Answers.{AnswersFull, AnswersHalf, StandsHalf};

use crate::ending_steps::release;
use crate::fault::MethodFault;
use crate::judge::judge_output_call;
use crate::method::Method;
use crate::replies::Replies;
use crate::state::MethodState;
use crate::step::MethodStep;
use std::alloc::Global;

/// Answers as `FullDuplexCall`, all at the end.
#[derive(Clone, Copy, Debug)]
pub struct HalfDuplexCall;

impl Method for HalfDuplexCall {
    ghost name = { λ _. codes "/grpc.testing.TestService/HalfDuplexCall" };

    ghost answers = { λ _. AnswersHalf OutputVerdict };

    ghost stands = { λ _. StandsHalf };

    fn path(&self) -> &str {
        "/grpc.testing.TestService/HalfDuplexCall"
    }

    fn first(&self) -> MethodState {
        MethodState::Fresh
    }

    fn message(
        &self,
        alloc: Global,
        state: &mut MethodState,
        message: &[u8],
    ) -> Result<MethodStep, MethodFault> {
        match state {
            MethodState::Held(held) => {
                hold_more(alloc, held, message)?;
                Ok(MethodStep::nothing(alloc))
            }
            MethodState::Fresh => {
                let held = answer_one(alloc, message)?;
                state.set(MethodState::Held(held));
                Ok(MethodStep::nothing(alloc))
            }
            MethodState::Ended => Ok(MethodStep::nothing(alloc)),
            MethodState::Taken => Ok(MethodStep::nothing(alloc)),
            MethodState::Sum(_) => Ok(MethodStep::nothing(alloc)),
        }
    }

    fn end(&self, alloc: Global, state: &mut MethodState) -> Result<MethodStep, MethodFault> {
        match state {
            MethodState::Held(_) => Ok(release(alloc, state)),
            MethodState::Fresh => {
                state.set(MethodState::Ended);
                Ok(MethodStep::done(Replies::new(alloc)))
            }
            MethodState::Ended => Ok(MethodStep::nothing(alloc)),
            MethodState::Taken => {
                state.set(MethodState::Ended);
                Ok(MethodStep::nothing(alloc))
            }
            MethodState::Sum(_) => {
                state.set(MethodState::Ended);
                Ok(MethodStep::nothing(alloc))
            }
        }
    }
}

/// The answer to one request: its replies, or the status that ends the call.
fn answer_one(alloc: Global, message: &[u8]) -> Result<MethodStep, MethodFault>
    ensures { IfOk result (λ step. AnswersFull OutputVerdict (message.now ∷ []) false step) }
{
    match judge_output_call(alloc, message)? {
        Ok(replies) => Ok(MethodStep::replying(replies)),
        Err(status) => Ok(MethodStep::ending(alloc, status)),
    }
}

/// Holds the answer to one more request, unless one before it ends the call. If memory runs out,
/// what is held is of no more use.
fn hold_more(alloc: Global, held: &mut MethodStep, message: &[u8]) -> Result<(), MethodFault>
    ensures { OnOk result
        ((messages : List (List ℕ)) → AnswersFull OutputVerdict messages false held.old
        → AnswersFull OutputVerdict (messages ++ message.now ∷ []) false held.new) }
{
    if held.ends.is_none() {
        match judge_output_call(alloc, message)? {
            Ok(more) => held.replies.append(&more)?,
            Err(status) => held.ends = Some(status),
        }
    }
    Ok(())
}
