//! A whole call of one of a server's methods, by its index.

ghost use Rattle.std.specs.Prelude.{◌<◌, ◌∷◌, [], true, length, IfOk, IfSome, slice_get};
ghost use Rattle.handlers.specs.Listed.{listed};

use crate::fault::MethodFault;
use crate::methods::Methods;
use crate::step::MethodStep;
use std::alloc::Global;

/// What the method at this index answers to a call of one message.
pub fn run_one(
    alloc: Global,
    methods: &Methods,
    index: usize,
    message: &[u8],
) -> Result<MethodStep, MethodFault>
    requires { index < length (listed methods.now) }
    ensures { IfSome (slice_get (listed methods.now) index)
        (λ method. IfOk result (λ answer. answers method (message.now ∷ []) true answer)) }
{
    let mut state = methods.first(index);
    let mut given = MethodStep::nothing(alloc);
    let step = methods.message(alloc, index, &mut state, message)?;
    given.join(step)?;
    let last = methods.end(alloc, index, &mut state)?;
    given.join(last)?;
    Ok(given)
}
