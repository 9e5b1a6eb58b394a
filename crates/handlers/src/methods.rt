//! The methods of a server.
//!
//! In a contract they are their list. A caller who found an index calls the method at it by
//! `first`, `message` and `end`.

ghost use Rattle.std.specs.Prelude.{
  ◌≡◌,
  ◌≢◌,
  ◌<◌,
  ◌++◌,
  ◌∷◌,
  [],
  List,
  ℕ,
  true,
  false,
  length,
  IfSome,
  IfNone,
  IfOk,
  OnOk,
  IsSome,
  slice_get,
  option_copied,
};
ghost use Rattle.std.specs.List.{HoldsAt, AllWithin};
ghost use Rattle.handlers.specs.declared.state.MethodState.TheVariants.{Ended};
ghost use Rattle.handlers.specs.declared.step.MethodStep.{MethodStep as StepOf};
ghost use Rattle.handlers.specs.Steps.{nothing, joined};
ghost use Rattle.handlers.specs.Answers.{
  HasAnswer,
  HasOneAnswer,
  HasGrowingReplies,
  HasShortReplies,
  HasStatusAtEnd,
  IsLawful,
};
ghost use Rattle.handlers.specs.Listed.{listed};

use crate::fault::MethodFault;
use crate::method::Method;
use crate::state::MethodState;
use crate::step::MethodStep;
use std::alloc::Global;

/// The methods that a server has.
#[derive(Drop)]
pub struct Methods {
    items: Vec<Box<dyn Method>>,
}

impl Methods {
    /// It takes no memory.
    pub fn new(methods: Vec<Box<dyn Method>>) -> Methods
        ensures { listed result ≡ methods.items }
    {
        Methods { items: methods }
    }

    /// The least index of a method with that path, and none only where no method has it.
    pub fn find(&self, path: &[u8]) -> Option<usize>
        ensures within { IfSome result (λ index. index < length (listed self.now)) }
        ensures found { IfSome result
            (λ index. HoldsAt (λ method. name method ≡ path.now) (listed self.now) index) }
        ensures least { IfSome result
            (λ index. AllWithin (λ method. name method ≢ path.now) (listed self.now) 0 index) }
        ensures none { IfNone result
            (AllWithin (λ method. name method ≢ path.now) (listed self.now) 0
            (length (listed self.now))) }
    {
        for (index, method) in self.items.iter().enumerate() {
            if method.path().as_bytes() == path {
                return Some(index);
            }
        }
        None
    }

    /// The method at this index.
    pub fn get(&self, index: usize) -> Option<&Box<dyn Method>>
        ensures { option_copied result ≡ slice_get (listed self.now) index }
    {
        self.items.get(index)
    }

    /// The state of a call of the method at this index, without a message yet.
    pub fn first(&self, index: usize) -> MethodState
        requires { index < length (listed self.now) }
        ensures stands { IfSome (slice_get (listed self.now) index)
            (λ method. stands method result [] nothing) }
        ensures answers { IfSome (slice_get (listed self.now) index)
            (λ method. answers method [] false nothing) }
        ensures lawful { IfSome (slice_get (listed self.now) index)
            (λ method. IsLawful (answers method)) }
    {
        let method = &self.items[index];
        first_of(method)
    }

    /// Has the method at this index take the next message of a call. The step has what the method
    /// answers to the messages with this one, less what it gave before. A state that has ended
    /// gives nothing more.
    pub fn message(
        &self,
        alloc: Global,
        index: usize,
        state: &mut MethodState,
        message: &[u8],
    ) -> Result<MethodStep, MethodFault>
        requires { index < length (listed self.now) }
        ensures stands { IfSome (slice_get (listed self.now) index)
            (λ method. IfOk result (λ step. (messages : List (List ℕ)) (given : StepOf)
            → stands method state.old messages given
            → stands method state.new (messages ++ message.now ∷ []) (joined given step))) }
        ensures answers { IfSome (slice_get (listed self.now) index)
            (λ method. IfOk result (λ step. (messages : List (List ℕ)) (given : StepOf)
            → stands method state.old messages given
            → answers method (messages ++ message.now ∷ []) false (joined given step))) }
        ensures ends { IfOk result (λ step. IsSome step.ends → state.new ≡ Ended) }
        ensures ended { IfOk result
            (λ step. state.old ≡ Ended → (step ≡ nothing) × (state.new ≡ Ended)) }
    {
        let method = &self.items[index];
        message_of(method, alloc, state, message)
    }

    /// Ends a call's messages for the method at this index: none follows.
    pub fn end(
        &self,
        alloc: Global,
        index: usize,
        state: &mut MethodState,
    ) -> Result<MethodStep, MethodFault>
        requires { index < length (listed self.now) }
        ensures answers { IfSome (slice_get (listed self.now) index)
            (λ method. IfOk result (λ step. (messages : List (List ℕ)) (given : StepOf)
            → stands method state.old messages given
            → answers method messages true (joined given step))) }
        ensures ends { OnOk result (state.new ≡ Ended) }
        ensures ended { IfOk result (λ step. state.old ≡ Ended → step ≡ nothing) }
    {
        let method = &self.items[index];
        end_of(method, alloc, state)
    }
}

fn first_of(method: &Box<dyn Method>) -> MethodState
    ensures stands { stands method.now result [] nothing }
    ensures answers { answers method.now [] false nothing }
    ensures some { HasAnswer (answers method.now) }
    ensures one { HasOneAnswer (answers method.now) }
    ensures grows { HasGrowingReplies (answers method.now) }
    ensures short { HasShortReplies (answers method.now) }
    ensures status { HasStatusAtEnd (answers method.now) }
{
    method.first()
}

fn message_of(
    method: &Box<dyn Method>,
    alloc: Global,
    state: &mut MethodState,
    message: &[u8],
) -> Result<MethodStep, MethodFault>
    ensures stands { IfOk result (λ step. (messages : List (List ℕ)) (given : StepOf)
        → stands method.now state.old messages given
        → stands method.now state.new (messages ++ message.now ∷ []) (joined given step)) }
    ensures answers { IfOk result (λ step. (messages : List (List ℕ)) (given : StepOf)
        → stands method.now state.old messages given
        → answers method.now (messages ++ message.now ∷ []) false (joined given step)) }
    ensures ends { IfOk result (λ step. IsSome step.ends → state.new ≡ Ended) }
    ensures ended { IfOk result
        (λ step. state.old ≡ Ended → (step ≡ nothing) × (state.new ≡ Ended)) }
{
    method.message(alloc, state, message)
}

fn end_of(
    method: &Box<dyn Method>,
    alloc: Global,
    state: &mut MethodState,
) -> Result<MethodStep, MethodFault>
    ensures answers { IfOk result (λ step. (messages : List (List ℕ)) (given : StepOf)
        → stands method.now state.old messages given
        → answers method.now messages true (joined given step)) }
    ensures ends { OnOk result (state.new ≡ Ended) }
    ensures ended { IfOk result (λ step. state.old ≡ Ended → step ≡ nothing) }
{
    method.end(alloc, state)
}
