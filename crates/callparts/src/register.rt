//! The register of a connection's calls, which says of which call an end is that comes back.
//!
//! Each call whose lanes are opened is entered, and its number is how many were entered before. The
//! register exists in the proofs alone: a running program has one word of it, its length. Each end
//! of the call carries the number, and a beginning of the register that has the call. So two
//! numbers that are equal in a running program are of one call, whichever threads they come from.

ghost use Rattle.std.specs.Prelude.{
  ◌≡◌,
  ◌+◌,
  ◌<◌,
  ◌≤◌,
  ◌^◌,
  ◌++◌,
  ◌∷◌,
  [],
  length,
  true,
  Some,
  IfSome,
  slice_get,
};
ghost use Rattle.callparts.specs.Registers.{head_of};

use crate::work::Work;
use logbook::{Gain, Offer, Plain, Play, Rule, Seen, Start, Word};
use std::marker::{Brand, PhantomData};

/// The rule of a register: its word is its length.
pub struct Law;

impl Rule<Work, u64> for Law {
    ghost use Rattle.std.specs.Prelude.{[]};
    ghost use base.Fml.{ftrue};
    ghost use Rattle.callparts.specs.Registers.{IsKept};

    ghost holds = { λ cells log. IsKept cells log };

    ghost first = { [] };

    ghost hinted = { λ n log. Unit {0} };

    ghost shows = { λ log. [] };

    ghost keeps = { λ names log. ftrue };

    ghost moves = { λ ask before after answer. Unit {0} };
}

/// What the thread that enters a call trades: nothing.
pub struct Nothing;

impl Gain<Work, u64> for Nothing {
    ghost use base.Fml.{ftrue};

    ghost after = { λ names about answer. ftrue };
}

/// The step that enters a call.
pub struct Enter;

impl Play<Work, u64> for Enter {
    ghost use Rattle.callparts.specs.Registers.{Enters};

    ghost then = { Enters };
}

impl Plain<Work, Work, u64> for Enter {
    ghost use Rattle.std.specs.Prelude.{None};

    ghost ask = { λ work. work };

    ghost state = { λ work. None };
}

/// Names a register. Each connection picks its own.
pub trait Naming {
    ghost use Rattle.logbook.specs.Pages.{Book};

    ghost book: { Book };
}

impl Naming for Brand {
    ghost book = { record { number = 0; log_name = 0; cells_name = 0 } };
}

/// A register in which no call was entered, and which has no name yet.
pub struct NewRegister {
    head: Word<Work, u64, Law>,
    seen: Seen<Work, u64, Law>,
    pub ghost empty: { length seen.log ≡ 0 },
    pub ghost head_is: { head ≡ head_of seen.book },
}

impl NewRegister {
    pub fn new() -> NewRegister {
        let (seen, mut first, _second) = Seen::open(Start::alone(), 0, 0);
        NewRegister {
            head: Word::tracked(0, &mut first),
            seen,
        }
    }

    /// The register under a name, and its beginning with no call.
    pub fn named<J: Naming>(self) -> (Register<J>, Front<J>)
        requires { self.seen.book ≡ J.book }
        ensures { length result.1.seen.log ≡ 0 }
    {
        let NewRegister { head, seen } = self;
        (
            Register {
                head,
                of: PhantomData,
            },
            Front {
                count: 0,
                seen,
                of: PhantomData,
            },
        )
    }
}

/// A register: how many calls were entered.
#[derive(Drop)]
pub struct Register<J: Naming> {
    head: Word<Work, u64, Law>,
    of: PhantomData<J>,
    ghost head_is: { head ≡ head_of J.book },
}

/// A beginning of a register, which the thread that enters calls has.
#[derive(Drop)]
pub struct Front<J: Naming> {
    /// How many calls it has.
    count: u64,
    seen: Seen<Work, u64, Law>,
    of: PhantomData<J>,
    ghost counted: { count ≡ length seen.log },
    ghost one_book: { seen.book ≡ J.book },
}

/// The number of a call, with a beginning of the register that has the call.
#[derive(Drop)]
pub struct CallNumber<J: Naming> {
    value: u64,
    seen: Seen<Work, u64, Law>,
    of: PhantomData<J>,
    ghost stands: { value < length seen.log },
    ghost one_book: { seen.book ≡ J.book },
}

impl<J: Naming> CallNumber<J> {
    /// A copy, for the same call.
    pub fn again(&self) -> CallNumber<J>
        ensures value { result.value ≡ self.now.value }
        ensures seen { result.seen.log ≡ self.now.seen.log }
    {
        CallNumber {
            value: self.value,
            seen: self.seen.again(),
            of: PhantomData,
        }
    }

    /// Whether both numbers are of one call. If so, the register has one work for them.
    #[tactic(auto, using(crate::proofs::Fronts::same_entry))]
    pub fn is(&self, other: &CallNumber<J>) -> bool
        ensures same { result ≡ true → slice_get self.now.seen.log self.now.value
            ≡ slice_get other.now.seen.log other.now.value }
        ensures value { result ≡ true → self.now.value ≡ other.now.value }
        ensures equal { self.now.value ≡ other.now.value → result ≡ true }
    {
        let mut both = self.seen.again();
        both.learn(&other.seen);
        self.value == other.value
    }
}

impl<J: Naming> Front<J> {
    /// Enters a call, and answers its number. None where another thread entered one first, or where
    /// the register has 2^60.
    #[tactic(auto, using(crate::proofs::Fronts::last_entry))]
    pub fn draw(&mut self, register: &Register<J>, work: &Work) -> Option<CallNumber<J>>
        ensures stands { IfSome result (λ n. slice_get n.seen.log n.value ≡ Some work.now) }
        ensures next { IfSome result (λ n. (n.value ≡ length self.old.seen.log)
            × (length self.new.seen.log ≡ n.value + 1)) }
        ensures grows { length self.old.seen.log ≤ length self.new.seen.log }
    {
        let value = self.count;
        if value >= 1 << 60 {
            return None;
        }
        if !self.enter(register, work) {
            return None;
        }
        Some(CallNumber {
            value,
            seen: self.seen.again(),
            of: PhantomData,
        })
    }

    /// Enters a call after all that were seen, and answers whether it did. It doesn't where the
    /// register has more.
    #[tactic(auto, using(crate::proofs::Fronts::prefix_length))]
    fn enter(&mut self, register: &Register<J>, work: &Work) -> bool
        requires room { length self.old.seen.log < 2 ^ 62 }
        ensures entered { result ≡ true → self.new.seen.log ≡ self.old.seen.log ++ work.now ∷ [] }
        ensures grows { length self.old.seen.log ≤ length self.new.seen.log }
    {
        let Front { count, seen, of: _ } = self;
        let mut offer: Offer<Work, u64, Law, Nothing> = seen.plain::<Nothing, Work, Enter>(work);
        let mut pen = seen.no_pen();
        let before = *count;
        let found = register
            .head
            .compare_exchange::<Enter, Nothing>(before, before + 1, seen, &mut offer, &mut pen);
        *count = if found == before { before + 1 } else { found };
        found == before
    }
}
