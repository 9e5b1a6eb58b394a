//! What a method keeps of a call between its steps.
//!
//! FullDuplexCall answers each message as it takes it. The other methods answer at end-of-stream
//! (`end` in the file of each), and keep until then what their answer needs. No state keeps a
//! message. `Sum` holds the one length that UnaryCall needs of its message. EmptyCall needs to know
//! only that there was one. StreamingOutputCall and HalfDuplexCall hold what they are to answer. A
//! state that a method never makes stands for nothing, and a step from it answers something
//! harmless.

ghost use Rattle.std.specs.Prelude.{◌≡◌};

use crate::step::MethodStep;

/// What a method keeps of a call.
#[derive(Debug, Drop)]
pub enum MethodState {
    /// Nothing: no message came.
    Fresh,
    /// A number: the sum of the lengths so far, or the length that the one message asks for.
    Sum(u32),
    /// The one message was taken, and nothing of it is kept.
    Taken,
    /// What is answered at the end.
    Held(MethodStep),
    /// The call has its status.
    Ended,
}

impl MethodState {
    /// Sets the state.
    pub(crate) fn set(&mut self, state: MethodState)
        ensures { self.new ≡ state }
    {
        *self = state;
    }
}
