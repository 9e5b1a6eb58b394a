//! Calls that are run one after another, as a worker runs those of its list.
//!
//! A worker decides by a [`Pace`] when the turns of a call come. A pace with a bell waits where
//! there is nothing to do, and a pace whose connection has ended leaves the call.

ghost use Rattle.std.specs.Prelude.{
  ◌≡◌,
  ◌+◌,
  ◌≤◌,
  ◌<◌,
  ◌++◌,
  ◌⊎◌,
  ℕ,
  List,
  [],
  true,
  false,
  All,
  IfOk,
  IfSome,
  IsSomeAnd,
  length,
  slice_get,
};
ghost use Rattle.std.specs.List.{AllZip, sum_by};
ghost use Rattle.lane.specs.End.{of_end};
ghost use Rattle.callbox.specs.InSides.{TakesMessages};
ghost use Rattle.handlers.specs.Listed.{listed};
ghost use Rattle.callrun.specs.Runs.{HasCome};
ghost use Rattle.callrun.specs.Handlings.{lacks_memory};
ghost use Rattle.callrun.specs.Sides.{is_left, is_open, name_by, shown};
ghost use Rattle.callrun.specs.declared.uses.call_list.Why.TheVariants as why;
ghost use Rattle.callrun.specs.Listings.{
  CountsOn,
  HadTurns,
  IsUntouched,
  IsWhy,
  WasRun,
  lefts_by,
  leaves,
  turns_by,
};

use crate::call::Turn;
use crate::call_run::CallRun;
use account::OutItem;
use callbox::{GivenShut, Giver, InPiece, Taker};
use callhead::CallHead;
use handlers::{Method, Methods};
use lane::{End, Lane};
use std::alloc::{AllocError, Global};
use std::collections::VecDeque;

/// When the turns of calls come.
pub trait Pace {
    /// The latest moment that it gave.
    ghost latest: { Self → ℕ };

    /// How many turns it gave.
    ghost turns: { Self → ℕ };

    /// How often it left a call.
    ghost lefts: { Self → ℕ };

    /// The moment of the next turn, after one that answered this. None: the call is to be left.
    fn next(&mut self, last: Turn) -> Option<u64>
        ensures stays { latest self.old ≤ latest self.new }
        ensures told { IfSome result (λ now. now ≤ latest self.new) }
        ensures turns { CountsOn (turns self.old) (turns self.new) (turns_by result) }
        ensures lefts { CountsOn (lefts self.old) (lefts self.new) (lefts_by result) };
}

/// Why a call has no more turns.
#[derive(Clone, Copy, Debug, PartialEq, Eq)]
pub enum Why {
    /// It is over.
    Over,
    /// Its pace left it.
    Left,
    /// It had all the turns that it may have.
    Spent,
}

/// A call that was opened, and waits for its worker.
#[derive(Drop)]
pub struct OpenedCall<I: Lane<Item = InPiece>, O: Lane<Item = OutItem>> {
    /// The index of the call's method.
    pub index: usize,
    pub head: CallHead,
    /// When it was opened, in nanoseconds of the server's clock.
    pub opened: u64,
    pub taker: Taker<I>,
    pub giver: Giver<O>,
}

/// What is left of a call.
#[derive(Drop)]
pub struct EndedCall<I: Lane<Item = InPiece>, O: Lane<Item = OutItem>> {
    pub taker: Taker<I>,
    pub end: End<Giver<O>, GivenShut<O>>,
    /// The status of the trailers that were given.
    pub code: Option<u32>,
    /// How many turns it had.
    pub turns: u64,
    pub why: Why,
    /// Whether it ended for want of memory.
    pub ran_out: bool,
}

/// Gives the call turns until it is over, its pace leaves it, or it had `turns` turns. Answers how
/// many it had, and why no more.
fn take_turns<I: Lane<Item = InPiece>, O: Lane<Item = OutItem>, P: Pace>(
    run: &mut CallRun<I, O>,
    methods: &Methods,
    pace: &mut P,
    turns: u64,
) -> (u64, Why)
    requires index { run.old.index < length (listed methods.now) }
    ensures run { IfSome (slice_get (listed methods.now) run.old.index)
        (λ method. (messages : List (List ℕ))
        → TakesMessages (I.got run.old.taker.rx) run.old.taker.progress messages
        → HasCome ((⟦<dyn Method as Method>⟧ method.vtable).answers method.value)
        ((⟦<dyn Method as Method>⟧ method.vtable).stands method.value) run.old.taker.progress.told
        messages run.old.call run.old.in_hand
        (shown (λ g. O.put_in g.tx) (λ s. O.put_shut s.shut) (λ s. O.was_placed s.shut)
        run.old.response)
        → (more : List (List ℕ))
        × TakesMessages (I.got run.new.taker.rx) run.new.taker.progress (messages ++ more)
        × HasCome ((⟦<dyn Method as Method>⟧ method.vtable).answers method.value)
        ((⟦<dyn Method as Method>⟧ method.vtable).stands method.value) run.new.taker.progress.told
        (messages ++ more) run.new.call run.new.in_hand
        (shown (λ g. O.put_in g.tx) (λ s. O.put_shut s.shut) (λ s. O.was_placed s.shut)
        run.new.response)) }
    ensures in_name { I.out_name run.new.taker.rx ≡ I.out_name run.old.taker.rx }
    ensures name { name_by (λ g. O.in_name g.tx) (λ s. O.shut_name s.shut) run.new.response
        ≡ name_by (λ g. O.in_name g.tx) (λ s. O.shut_name s.shut) run.old.response }
    ensures same { (run.new.index ≡ run.old.index) × (run.new.call.head ≡ run.old.call.head)
        × (run.new.call.deadline ≡ run.old.call.deadline) }
    ensures overdue { run.new.call.overdue ≡ true → (run.old.call.overdue ≡ true)
        ⊎ IsSomeAnd run.old.call.deadline (λ deadline. deadline ≤ P.latest pace.new) }
    ensures stays { P.latest pace.old ≤ P.latest pace.new }
    ensures turns { CountsOn (P.turns pace.old) (P.turns pace.new) result.0 }
    ensures lefts { CountsOn (P.lefts pace.old) (P.lefts pace.new) (leaves result.1) }
    ensures why { IsWhy turns result.0 result.1 }
    ensures over { result.1 ≡ why.Over → is_open run.new.response ≡ false }
    ensures left { is_left run.new.response ≡ true → (is_left run.old.response ≡ true)
        ⊎ (lacks_memory run.new.call.handling.ending ≡ true) ⊎ O.MayMiss }
{
    let mut last = Turn::Went;
    for had in 0..turns {
        let Some(now) = pace.next(last) else {
            return (had, Why::Left);
        };
        last = run.turn(methods, now);
        if matches!(last, Turn::Over) {
            return (had + 1, Why::Over);
        }
    }
    (turns, Why::Spent)
}

/// Runs a call until it is over, its pace leaves it, or it had `turns` turns. It takes no memory of
/// its own.
pub fn run_call<I: Lane<Item = InPiece>, O: Lane<Item = OutItem>, P: Pace>(
    alloc: Global,
    methods: &Methods,
    call: OpenedCall<I, O>,
    pace: &mut P,
    turns: u64,
) -> EndedCall<I, O>
    requires index { call.index < length (listed methods.now) }
    requires untouched { IsUntouched (I.got call.taker.rx) call.taker.progress
        (O.put_in call.giver.tx) }
    ensures run { IfSome (slice_get (listed methods.now) call.index) (λ method.
        WasRun ((⟦<dyn Method as Method>⟧ method.vtable).answers method.value) call.head call.opened
        (P.latest pace.new)
        (I.got result.taker.rx) result.taker.progress
        (of_end (λ g. O.put_in g.tx) (λ s. O.put_shut s.shut) result.end) result.code) }
    ensures in_name { I.out_name result.taker.rx ≡ I.out_name call.taker.rx }
    ensures name { of_end (λ g. O.in_name g.tx) (λ s. O.shut_name s.shut) result.end
        ≡ O.in_name call.giver.tx }
    ensures stays { P.latest pace.old ≤ P.latest pace.new }
    // The call is left only if its pace leaves it, or it had all the turns that it may have.
    ensures turns { CountsOn (P.turns pace.old) (P.turns pace.new) result.turns }
    ensures lefts { CountsOn (P.lefts pace.old) (P.lefts pace.new) (leaves result.why) }
    ensures had { HadTurns turns result.turns result.why
        (of_end (λ g. false) (λ s. true) result.end) result.ran_out O.MayMiss }
{
    let OpenedCall {
        index,
        head,
        opened,
        taker,
        giver,
    } = call;
    let mut run = CallRun::new(alloc, methods, index, head, taker, giver, opened);
    let (turns, why) = take_turns(&mut run, methods, pace, turns);
    let ran_out = run.ran_out();
    run.leave(methods);
    let (taker, end, code) = run.into_ends();
    EndedCall {
        taker,
        end,
        code,
        turns,
        why,
        ran_out,
    }
}

/// Runs calls, one after another, each as [`run_call`] does. The answer has what is left of each
/// call, in the order of the calls. It makes room for that before it runs the first.
pub fn run_list<I: Lane<Item = InPiece>, O: Lane<Item = OutItem>, P: Pace>(
    alloc: Global,
    methods: &Methods,
    calls: VecDeque<OpenedCall<I, O>>,
    pace: &mut P,
    turns: u64,
) -> Result<Vec<EndedCall<I, O>>, AllocError>
    requires index { All (λ call. call.index < length (listed methods.now)) calls.items }
    requires untouched { All
        (λ call. IsUntouched (I.got call.taker.rx) call.taker.progress (O.put_in call.giver.tx))
        calls.items }
    ensures run { IfOk result
        (λ ended. AllZip (λ call end. IfSome (slice_get (listed methods.now) call.index) (λ method.
        WasRun ((⟦<dyn Method as Method>⟧ method.vtable).answers method.value) call.head call.opened
        (P.latest pace.new)
        (I.got end.taker.rx) end.taker.progress
        (of_end (λ g. O.put_in g.tx) (λ s. O.put_shut s.shut) end.end) end.code)) calls.items
        ended.items) }
    ensures in_names { IfOk result
        (λ ended. AllZip (λ call end. I.out_name end.taker.rx ≡ I.out_name call.taker.rx)
        calls.items ended.items) }
    ensures names { IfOk result
        (λ ended. AllZip (λ call end. of_end (λ g. O.in_name g.tx) (λ s. O.shut_name s.shut) end.end
        ≡ O.in_name call.giver.tx) calls.items ended.items) }
    ensures turns { IfOk result
        (λ ended. CountsOn (P.turns pace.old) (P.turns pace.new)
        (sum_by (λ end. end.turns) ended.items)) }
    ensures lefts { IfOk result
        (λ ended. CountsOn (P.lefts pace.old) (P.lefts pace.new)
        (sum_by (λ end. leaves end.why) ended.items)) }
    ensures had { IfOk result
        (λ ended. All (λ end. HadTurns turns end.turns end.why
        (of_end (λ g. false) (λ s. true) end.end) end.ran_out O.MayMiss) ended.items) }
{
    let mut waiting = calls;
    let mut ended = Vec::with_capacity(alloc, waiting.len())?;
    while let Some(call) = waiting.pop_front() {
        ended.push(run_call(alloc, methods, call, pace, turns))?;
    }
    Ok(ended)
}
