//! A call without a message, of any method: generic code knows a method's law by its bound.

ghost use Rattle.std.specs.Prelude.{[], true, IfOk};
ghost use Rattle.handlers.specs.Steps.{nothing, joined};

use crate::fault::MethodFault;
use crate::method::Method;
use crate::step::MethodStep;
use std::alloc::Global;

/// The answer to a call without a message.
pub fn run_none<M: Method>(alloc: Global, method: &M) -> Result<MethodStep, MethodFault>
    ensures { IfOk result (λ step. M.answers method.now [] true (joined nothing step)) }
{
    let mut state = method.first();
    method.end(alloc, &mut state)
}
