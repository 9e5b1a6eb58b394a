//! What every method has, and the law that it keeps.
//!
//! `answers` is a relation on the bytes of the messages, not a function, since the value of a
//! message is one. `stands` relates a state to the messages and to what was answered to them so
//! far. So a chain of steps needs no proof that an answer is the only one; `one_answer` says that
//! it is.

ghost use Rattle.std.specs.Prelude.{
  ◌≡◌,
  ◌++◌,
  ◌∷◌,
  [],
  List,
  ℕ,
  Bool,
  true,
  false,
  IfOk,
  OnOk,
  IsSome,
};
ghost use Rattle.handlers.specs.declared.state.MethodState.{MethodState as State};
ghost use Rattle.handlers.specs.declared.state.MethodState.TheVariants.{Ended};
ghost use Rattle.handlers.specs.declared.step.MethodStep.{MethodStep as StepOf};
ghost use Rattle.handlers.specs.Steps.{nothing, joined};
ghost use Rattle.handlers.specs.Answers.{
  HasAnswer,
  HasOneAnswer,
  HasGrowingReplies,
  HasShortReplies,
  HasStatusAtEnd,
};

use crate::fault::MethodFault;
use crate::state::MethodState;
use crate::step::MethodStep;
use std::alloc::Global;

/// A method of a service, as a state machine over the messages of one call.
///
/// The law: `first` stands for no message, to which nothing was answered. After a step that
/// answered Ok the state stands for the longer list, and what the steps gave, joined, is the
/// method's answer to it. After a `MethodFault` the state stands for nothing, though the messages
/// still have their answer.
pub trait Method: Send + Sync + Drop {
    /// The path by which a call names the method.
    ghost name: { Self → List ℕ };

    /// What the method answers to these messages, if they have ended and if not.
    ghost answers: { Self → List (List ℕ) → Bool → StepOf → Type 0 };

    /// The state of a call after these messages, to which this was answered so far.
    ghost stands: { Self → State → List (List ℕ) → StepOf → Type 0 };

    /// The path by which a call names the method.
    fn path(&self) -> &str
        ensures { result.now ≡ name self.now };

    /// The state of a call without a message yet.
    fn first(&self) -> MethodState
        ensures stands { stands self.now result [] nothing }
        ensures answers { answers self.now [] false nothing }
        // Every list of messages has an answer, and none has two.
        ensures some_answer { HasAnswer (answers self.now) }
        ensures one_answer { HasOneAnswer (answers self.now) }
        // Replies that were given stay, and each reply fits into a message of a call.
        ensures grows { HasGrowingReplies (answers self.now) }
        ensures short { HasShortReplies (answers self.now) }
        // A call whose messages have ended has a status.
        ensures status { HasStatusAtEnd (answers self.now) };

    /// Takes the next message. The step has what the method answers to the messages with this one,
    /// less what it gave before. After a fault the state stands for nothing.
    fn message(
        &self,
        alloc: Global,
        state: &mut MethodState,
        message: &[u8],
    ) -> Result<MethodStep, MethodFault>
        ensures stands { IfOk result
            (λ step. (messages : List (List ℕ)) (given : StepOf)
            → stands self.now state.old messages given
            → stands self.now state.new (messages ++ message.now ∷ []) (joined given step)) }
        ensures answers { IfOk result
            (λ step. (messages : List (List ℕ)) (given : StepOf)
            → stands self.now state.old messages given
            → answers self.now (messages ++ message.now ∷ []) false (joined given step)) }
        // A status is given once, and nothing after it.
        ensures ends { IfOk result (λ step. IsSome step.ends → state.new ≡ Ended) }
        ensures ended { IfOk result
            (λ step. state.old ≡ Ended → (step ≡ nothing) × (state.new ≡ Ended)) };

    /// Ends the call's messages: none follows.
    fn end(&self, alloc: Global, state: &mut MethodState) -> Result<MethodStep, MethodFault>
        ensures answers { IfOk result
            (λ step. (messages : List (List ℕ)) (given : StepOf)
            → stands self.now state.old messages given
            → answers self.now messages true (joined given step)) }
        // The call has its status now.
        ensures ends { OnOk result (state.new ≡ Ended) }
        ensures ended { IfOk result (λ step. state.old ≡ Ended → step ≡ nothing) };
}
