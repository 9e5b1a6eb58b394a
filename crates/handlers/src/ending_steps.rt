//! Steps that end a call.

ghost use Rattle.std.specs.Prelude.{◌≡◌, ◌∷◌, [], IfOk, OnOk};
ghost use Rattle.handlers.specs.declared.state.MethodState.TheVariants.{Ended, Held};
ghost use Rattle.handlers.specs.declared.step.MethodStep.{MethodStep as StepOf};
ghost use Rattle.handlers.specs.Statuses.{status_of};
ghost use Rattle.handlers.specs.Steps.{ending, done, finished};

use crate::fault::MethodFault;
use crate::replies::Replies;
use crate::reply::Reply;
use crate::state::MethodState;
use crate::status::{Refusal, Status};
use crate::step::MethodStep;
use std::alloc::Global;

/// Ends the call with this status.
pub(crate) fn end_with(alloc: Global, state: &mut MethodState, status: Status) -> MethodStep
    ensures step { result ≡ ending [] status }
    ensures state { state.new ≡ Ended }
{
    state.set(MethodState::Ended);
    MethodStep::ending(alloc, status)
}

/// Ends the call with a status of our own.
pub(crate) fn refuse(alloc: Global, state: &mut MethodState, refusal: Refusal) -> MethodStep
    ensures step { result ≡ ending [] (status_of refusal) }
    ensures state { state.new ≡ Ended }
{
    end_with(alloc, state, refusal.status())
}

/// Ends the call with what was held back.
pub(crate) fn release(alloc: Global, state: &mut MethodState) -> MethodStep
    ensures step { (held : StepOf) → state.old ≡ Held held → result ≡ finished held }
    ensures state { state.new ≡ Ended }
{
    match std::mem::replace(state, MethodState::Ended) {
        MethodState::Held(held) => held.finished(),
        _ => MethodStep::nothing(alloc),
    }
}

/// Gives the one reply of a call that went well, and ends it.
pub(crate) fn reply_and_end(
    alloc: Global,
    state: &mut MethodState,
    reply: Reply,
) -> Result<MethodStep, MethodFault>
    ensures step { IfOk result (λ step. step ≡ done (reply ∷ [])) }
    ensures state { OnOk result (state.new ≡ Ended) }
{
    let replies = Replies::one(alloc, reply)?;
    state.set(MethodState::Ended);
    Ok(MethodStep::done(replies))
}
