//! StreamingInputCall: it adds up the lengths of the bodies, and answers their sum at the end.

ghost use Rattle.std.specs.Prelude.{◌≡◌, ◌+◌, ◌≤◌, ◌++◌, ◌∷◌, [], SomeIff, codes};
ghost use Rattle.handlers.specs.Requests.{InputVerdict};
ghost use Rattle.handlers.specs.Answers.{AnswersSum, StandsSum};

use crate::ending_steps::{end_with, refuse, reply_and_end};
use crate::fault::MethodFault;
use crate::judge::judge_input_call;
use crate::method::Method;
use crate::reply::Reply;
use crate::state::MethodState;
use crate::status::Refusal;
use crate::step::MethodStep;
use std::alloc::Global;

/// Answers any number of requests with the sum of the lengths of their bodies.
#[derive(Clone, Copy, Debug)]
pub struct StreamingInputCall;

/// The largest sum, that of a signed field of 32 bits.
const MAX_SUM: u32 = 2_147_483_647;

impl Method for StreamingInputCall {
    ghost name = { λ _. codes "/grpc.testing.TestService/StreamingInputCall" };

    ghost answers = { λ _. AnswersSum InputVerdict };

    ghost stands = { λ _. StandsSum };

    fn path(&self) -> &str {
        "/grpc.testing.TestService/StreamingInputCall"
    }

    fn first(&self) -> MethodState {
        MethodState::Sum(0)
    }

    fn message(
        &self,
        alloc: Global,
        state: &mut MethodState,
        message: &[u8],
    ) -> Result<MethodStep, MethodFault> {
        match state {
            MethodState::Sum(sum) => {
                let sum = *sum;
                match judge_input_call(alloc, message)? {
                    Ok(length) => match sum_of(sum, length) {
                        Some(total) => {
                            state.set(MethodState::Sum(total));
                            Ok(MethodStep::nothing(alloc))
                        }
                        None => Ok(refuse(alloc, state, Refusal::SumOutOfRange)),
                    },
                    Err(status) => Ok(end_with(alloc, state, status)),
                }
            }
            MethodState::Ended => Ok(MethodStep::nothing(alloc)),
            MethodState::Fresh => Ok(MethodStep::nothing(alloc)),
            MethodState::Taken => Ok(MethodStep::nothing(alloc)),
            MethodState::Held(_) => Ok(MethodStep::nothing(alloc)),
        }
    }

    fn end(&self, alloc: Global, state: &mut MethodState) -> Result<MethodStep, MethodFault> {
        match state {
            MethodState::Sum(sum) => {
                let sum = *sum;
                if sum <= MAX_SUM {
                    reply_and_end(alloc, state, Reply::Sum(sum as i32))
                } else {
                    Ok(refuse(alloc, state, Refusal::SumOutOfRange))
                }
            }
            MethodState::Ended => Ok(MethodStep::nothing(alloc)),
            MethodState::Fresh => Ok(refuse(alloc, state, Refusal::WrongNumber)),
            MethodState::Taken => Ok(refuse(alloc, state, Refusal::WrongNumber)),
            MethodState::Held(_) => Ok(refuse(alloc, state, Refusal::WrongNumber)),
        }
    }
}

/// The sum with one more length, if the field can hold it.
fn sum_of(sum: u32, length: usize) -> Option<u32>
    ensures { SomeIff result (sum + length ≤ 2147483647) (sum + length) }
{
    let total = u64::from(sum).checked_add(length as u64)?;
    if total <= u64::from(MAX_SUM) {
        Some(total as u32)
    } else {
        None
    }
}
