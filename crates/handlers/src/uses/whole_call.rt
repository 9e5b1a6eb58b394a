//! A whole call of a method, its steps one after another.

ghost use Rattle.std.specs.Prelude.{◌≡◌, map, IfOk, IsSome, IsTrue};
ghost use Rattle.handlers.specs.declared.step.MethodStep.{MethodStep as StepOf};

use crate::fault::MethodFault;
use crate::method::Method;
use crate::step::MethodStep;
use std::alloc::Global;

/// What the method answers to a call of these messages, and to their end if `ended` says so.
///
/// It takes all steps, also those after a status, which give nothing. If memory runs out, in a step
/// or for the list of replies, there is no answer.
pub fn run(
    alloc: Global,
    method: &dyn Method,
    messages: &[&[u8]],
    ended: bool,
) -> Result<MethodStep, MethodFault>
    ensures answer { IfOk result
        (λ answer. answers method.now (map (λ message. message.now) messages.now) ended answer) }
    ensures only { IfOk result
        (λ answer. (other : StepOf)
        → answers method.now (map (λ message. message.now) messages.now) ended other → other
        ≡ answer) }
    ensures status { IfOk result (λ answer. IsTrue ended → IsSome answer.ends) }
{
    let mut state = method.first();
    let mut given = MethodStep::nothing(alloc);
    for message in messages {
        let step = method.message(alloc, &mut state, message)?;
        given.join(step)?;
    }
    if ended {
        let step = method.end(alloc, &mut state)?;
        given.join(step)?;
    }
    Ok(given)
}
