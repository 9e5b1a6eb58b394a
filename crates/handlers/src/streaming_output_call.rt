//! StreamingOutputCall: one request, and a payload for each of its parameters.

ghost use Rattle.std.specs.Prelude.{◌≡◌, ◌++◌, ◌∷◌, [], codes};
ghost use Rattle.handlers.specs.Requests.{OutputVerdict};
ghost use Rattle.handlers.specs.Answers.{AnswersSingle, StandsOutput};

use crate::ending_steps::{end_with, refuse, release};
use crate::fault::MethodFault;
use crate::judge::judge_output_call;
use crate::method::Method;
use crate::state::MethodState;
use crate::status::Refusal;
use crate::step::MethodStep;
use std::alloc::Global;

/// Answers one request with several payloads of zero bytes.
#[derive(Clone, Copy, Debug)]
pub struct StreamingOutputCall;

impl Method for StreamingOutputCall {
    ghost name = { λ _. codes "/grpc.testing.TestService/StreamingOutputCall" };

    ghost answers = { λ _. AnswersSingle OutputVerdict };

    ghost stands = { λ _. StandsOutput };

    fn path(&self) -> &str {
        "/grpc.testing.TestService/StreamingOutputCall"
    }

    fn first(&self) -> MethodState {
        MethodState::Fresh
    }

    fn message(
        &self,
        alloc: Global,
        state: &mut MethodState,
        message: &[u8],
    ) -> Result<MethodStep, MethodFault> {
        match state {
            MethodState::Fresh => match judge_output_call(alloc, message)? {
                Ok(replies) => {
                    state.set(MethodState::Held(MethodStep::replying(replies)));
                    Ok(MethodStep::nothing(alloc))
                }
                Err(status) => Ok(end_with(alloc, state, status)),
            },
            MethodState::Ended => Ok(MethodStep::nothing(alloc)),
            MethodState::Held(_) => Ok(refuse(alloc, state, Refusal::WrongNumber)),
            MethodState::Taken => Ok(refuse(alloc, state, Refusal::WrongNumber)),
            MethodState::Sum(_) => Ok(refuse(alloc, state, Refusal::WrongNumber)),
        }
    }

    fn end(&self, alloc: Global, state: &mut MethodState) -> Result<MethodStep, MethodFault> {
        match state {
            MethodState::Fresh => Ok(refuse(alloc, state, Refusal::WrongNumber)),
            MethodState::Ended => Ok(MethodStep::nothing(alloc)),
            MethodState::Held(_) => Ok(release(alloc, state)),
            MethodState::Taken => Ok(refuse(alloc, state, Refusal::WrongNumber)),
            MethodState::Sum(_) => Ok(refuse(alloc, state, Refusal::WrongNumber)),
        }
    }
}
