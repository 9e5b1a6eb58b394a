//! FullDuplexCall: it answers each request as it takes it.

ghost use Rattle.std.specs.Prelude.{◌≡◌, ◌++◌, ◌∷◌, [], codes};
ghost use Rattle.handlers.specs.Requests.{OutputVerdict};
ghost use Rattle.handlers.specs.Answers.{AnswersFull, StandsFull};

use crate::ending_steps::end_with;
use crate::fault::MethodFault;
use crate::judge::judge_output_call;
use crate::method::Method;
use crate::replies::Replies;
use crate::state::MethodState;
use crate::step::MethodStep;
use std::alloc::Global;

/// Answers each request with a payload for each of its parameters.
#[derive(Clone, Copy, Debug)]
pub struct FullDuplexCall;

impl Method for FullDuplexCall {
    ghost name = { λ _. codes "/grpc.testing.TestService/FullDuplexCall" };

    ghost answers = { λ _. AnswersFull OutputVerdict };

    ghost stands = { λ _. StandsFull };

    fn path(&self) -> &str {
        "/grpc.testing.TestService/FullDuplexCall"
    }

    fn first(&self) -> MethodState {
        MethodState::Fresh
    }

    fn message(
        &self,
        alloc: Global,
        state: &mut MethodState,
        message: &[u8],
    ) -> Result<MethodStep, MethodFault> {
        match state {
            MethodState::Fresh => match judge_output_call(alloc, message)? {
                Ok(replies) => Ok(MethodStep::replying(replies)),
                Err(status) => Ok(end_with(alloc, state, status)),
            },
            MethodState::Ended => Ok(MethodStep::nothing(alloc)),
            MethodState::Taken => Ok(MethodStep::nothing(alloc)),
            MethodState::Held(_) => Ok(MethodStep::nothing(alloc)),
            MethodState::Sum(_) => Ok(MethodStep::nothing(alloc)),
        }
    }

    fn end(&self, alloc: Global, state: &mut MethodState) -> Result<MethodStep, MethodFault> {
        match state {
            MethodState::Ended => Ok(MethodStep::nothing(alloc)),
            MethodState::Fresh => {
                state.set(MethodState::Ended);
                Ok(MethodStep::done(Replies::new(alloc)))
            }
            MethodState::Taken => {
                state.set(MethodState::Ended);
                Ok(MethodStep::nothing(alloc))
            }
            MethodState::Sum(_) => {
                state.set(MethodState::Ended);
                Ok(MethodStep::nothing(alloc))
            }
            MethodState::Held(_) => {
                state.set(MethodState::Ended);
                Ok(MethodStep::nothing(alloc))
            }
        }
    }
}
