//! What methods answer and how they are named, as a type that only clauses use.

use std::marker::Brand;

/// What is known of a connection's methods, by their index. No value has such a type: a clause
/// names it.
pub trait Answering {
    ghost use Rattle.std.specs.Prelude.{ℕ, List, Bool};
    ghost use Rattle.handlers.specs.declared.step.MethodStep.{MethodStep};

    // What the method of an index answers to these messages, and to whether they have ended.
    ghost known: { ℕ → List (List ℕ) → Bool → MethodStep → Type 0 };

    // By which path a call names the method of an index.
    ghost names: { List ℕ → ℕ → Type 0 };
}

/// The caller who brings a `Brand` chooses what is known.
impl Answering for Brand {
    ghost known = { λ index messages ended answer. ⊥ };

    ghost names = { λ path index. ⊥ };
}
