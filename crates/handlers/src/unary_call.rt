//! UnaryCall and CacheableUnaryCall: one request, and one payload of the length that it asks for.

ghost use Rattle.std.specs.Prelude.{
  ◌≡◌,
  ◌++◌,
  ◌∷◌,
  [],
  List,
  ℕ,
  true,
  false,
  IfOk,
  OnOk,
  IsSome,
  codes,
};
ghost use Rattle.handlers.specs.declared.step.MethodStep.{MethodStep as StepOf};
ghost use Rattle.handlers.specs.declared.state.MethodState.TheVariants.{Ended};
ghost use Rattle.handlers.specs.Steps.{nothing, joined};
ghost use Rattle.handlers.specs.Requests.{SimpleVerdict};
ghost use Rattle.handlers.specs.Answers.{AnswersSingle, StandsUnary};

use crate::ending_steps::{end_with, refuse, reply_and_end};
use crate::fault::MethodFault;
use crate::judge::judge_unary;
use crate::method::Method;
use crate::reply::Reply;
use crate::state::MethodState;
use crate::status::Refusal;
use crate::step::MethodStep;
use std::alloc::Global;

/// Answers a request with a payload of zero bytes.
#[derive(Clone, Copy, Debug)]
pub struct UnaryCall;

/// Answers as `UnaryCall`, under a path whose answers a proxy may keep.
#[derive(Clone, Copy, Debug)]
pub struct CacheableUnaryCall;

impl Method for UnaryCall {
    ghost name = { λ _. codes "/grpc.testing.TestService/UnaryCall" };

    ghost answers = { λ _. AnswersSingle SimpleVerdict };

    ghost stands = { λ _. StandsUnary };

    fn path(&self) -> &str {
        "/grpc.testing.TestService/UnaryCall"
    }

    fn first(&self) -> MethodState {
        MethodState::Fresh
    }

    fn message(
        &self,
        alloc: Global,
        state: &mut MethodState,
        message: &[u8],
    ) -> Result<MethodStep, MethodFault> {
        take_request(alloc, state, message)
    }

    fn end(&self, alloc: Global, state: &mut MethodState) -> Result<MethodStep, MethodFault> {
        answer_request(alloc, state)
    }
}

impl Method for CacheableUnaryCall {
    ghost name = { λ _. codes "/grpc.testing.TestService/CacheableUnaryCall" };

    ghost answers = { λ _. AnswersSingle SimpleVerdict };

    ghost stands = { λ _. StandsUnary };

    fn path(&self) -> &str {
        "/grpc.testing.TestService/CacheableUnaryCall"
    }

    fn first(&self) -> MethodState {
        MethodState::Fresh
    }

    fn message(
        &self,
        alloc: Global,
        state: &mut MethodState,
        message: &[u8],
    ) -> Result<MethodStep, MethodFault> {
        take_request(alloc, state, message)
    }

    fn end(&self, alloc: Global, state: &mut MethodState) -> Result<MethodStep, MethodFault> {
        answer_request(alloc, state)
    }
}

/// Judges the first request, and keeps the length that it asks for; a second one ends the call.
fn take_request(
    alloc: Global,
    state: &mut MethodState,
    message: &[u8],
) -> Result<MethodStep, MethodFault>
    ensures stands { IfOk result
        (λ step. (messages : List (List ℕ)) (given : StepOf) → StandsUnary state.old messages given
        → StandsUnary state.new (messages ++ message.now ∷ []) (joined given step)) }
    ensures answers { IfOk result
        (λ step. (messages : List (List ℕ)) (given : StepOf) → StandsUnary state.old messages given
        → AnswersSingle SimpleVerdict (messages ++ message.now ∷ []) false (joined given step)) }
    ensures ends { IfOk result (λ step. IsSome step.ends → state.new ≡ Ended) }
    ensures ended { IfOk result
        (λ step. state.old ≡ Ended → (step ≡ nothing) × (state.new ≡ Ended)) }
{
    match state {
        MethodState::Fresh => match judge_unary(alloc, message)? {
            Ok(size) => {
                state.set(MethodState::Sum(size));
                Ok(MethodStep::nothing(alloc))
            }
            Err(status) => Ok(end_with(alloc, state, status)),
        },
        MethodState::Ended => Ok(MethodStep::nothing(alloc)),
        MethodState::Sum(_) => Ok(refuse(alloc, state, Refusal::WrongNumber)),
        MethodState::Taken => Ok(refuse(alloc, state, Refusal::WrongNumber)),
        MethodState::Held(_) => Ok(refuse(alloc, state, Refusal::WrongNumber)),
    }
}

/// Answers the request at the end; without one the number of messages is wrong.
fn answer_request(alloc: Global, state: &mut MethodState) -> Result<MethodStep, MethodFault>
    ensures answers { IfOk result
        (λ step. (messages : List (List ℕ)) (given : StepOf) → StandsUnary state.old messages given
        → AnswersSingle SimpleVerdict messages true (joined given step)) }
    ensures ends { OnOk result (state.new ≡ Ended) }
    ensures ended { IfOk result (λ step. state.old ≡ Ended → step ≡ nothing) }
{
    match state {
        MethodState::Fresh => Ok(refuse(alloc, state, Refusal::WrongNumber)),
        MethodState::Ended => Ok(MethodStep::nothing(alloc)),
        MethodState::Sum(size) => {
            let size = *size;
            reply_and_end(alloc, state, Reply::Zeros(size))
        }
        MethodState::Taken => Ok(refuse(alloc, state, Refusal::WrongNumber)),
        MethodState::Held(_) => Ok(refuse(alloc, state, Refusal::WrongNumber)),
    }
}
