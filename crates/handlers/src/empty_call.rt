//! EmptyCall: one message without fields, and one as the reply.

ghost use Rattle.std.specs.Prelude.{codes};
ghost use Rattle.handlers.specs.Requests.{EmptyVerdict};
ghost use Rattle.handlers.specs.Answers.{AnswersSingle, StandsEmpty};

use crate::ending_steps::{end_with, refuse, reply_and_end};
use crate::fault::MethodFault;
use crate::judge::judge_empty;
use crate::method::Method;
use crate::reply::Reply;
use crate::state::MethodState;
use crate::status::Refusal;
use crate::step::MethodStep;
use std::alloc::Global;

/// Answers one empty message with another.
#[derive(Clone, Copy, Debug)]
pub struct EmptyCall;

impl Method for EmptyCall {
    ghost name = { λ _. codes "/grpc.testing.TestService/EmptyCall" };

    ghost answers = { λ _. AnswersSingle EmptyVerdict };

    ghost stands = { λ _. StandsEmpty };

    fn path(&self) -> &str {
        "/grpc.testing.TestService/EmptyCall"
    }

    fn first(&self) -> MethodState {
        MethodState::Fresh
    }

    fn message(
        &self,
        alloc: Global,
        state: &mut MethodState,
        message: &[u8],
    ) -> Result<MethodStep, MethodFault> {
        match state {
            MethodState::Fresh => match judge_empty(alloc, message)? {
                Ok(()) => {
                    state.set(MethodState::Taken);
                    Ok(MethodStep::nothing(alloc))
                }
                Err(status) => Ok(end_with(alloc, state, status)),
            },
            MethodState::Ended => Ok(MethodStep::nothing(alloc)),
            MethodState::Taken => Ok(refuse(alloc, state, Refusal::WrongNumber)),
            MethodState::Sum(_) => Ok(refuse(alloc, state, Refusal::WrongNumber)),
            MethodState::Held(_) => Ok(refuse(alloc, state, Refusal::WrongNumber)),
        }
    }

    fn end(&self, alloc: Global, state: &mut MethodState) -> Result<MethodStep, MethodFault> {
        match state {
            MethodState::Fresh => Ok(refuse(alloc, state, Refusal::WrongNumber)),
            MethodState::Ended => Ok(MethodStep::nothing(alloc)),
            MethodState::Taken => reply_and_end(alloc, state, Reply::Empty),
            MethodState::Sum(_) => Ok(refuse(alloc, state, Refusal::WrongNumber)),
            MethodState::Held(_) => Ok(refuse(alloc, state, Refusal::WrongNumber)),
        }
    }
}
