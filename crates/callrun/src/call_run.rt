//! One call as a state machine.

ghost use Rattle.std.specs.Prelude.{
  Bool,
  ◌≡◌,
  ◌<◌,
  ◌≤◌,
  ◌+◌,
  ◌-◌,
  ◌++◌,
  ◌⊎◌,
  ◌↔◌,
  [],
  false,
  true,
  None,
  Some,
  length,
  List,
  ℕ,
  min,
  IfSome,
  IsSome,
  IsSomeAnd,
  IsTrue,
  slice_get,
};
ghost use Rattle.std.specs.Option.{option_map};
ghost use Rattle.lane.specs.End.{of_end};
ghost use Rattle.lpm.specs.Messages.{IsUnfinished};
ghost use Rattle.callbox.specs.InSides.{TakesMessages};
ghost use Rattle.handlers.specs.declared.step.MethodStep.{MethodStep};
ghost use Rattle.handlers.specs.Listed.{listed};
ghost use Rattle.callrun.specs.declared.call.Turn.TheVariants as turn;
ghost use Rattle.callrun.specs.Outcomes.{IsOutcome};
ghost use Rattle.callrun.specs.Handlings.{IsReady, lacks_memory};
ghost use Rattle.callrun.specs.Runs.{
  GivesOf,
  GivesOne,
  HasCome,
  HasRun,
  Leaves,
  MayTake,
  RunsOut,
  SameCall,
  TakesAhead,
  TakesOne,
  deadline_of,
};
ghost use Rattle.callrun.specs.Sides.{
  HasNoRoom,
  given_over,
  is_gone,
  is_left,
  is_open,
  is_shut,
  lane_of,
};

use crate::call::{Call, Turn};
use crate::handling::Handling;
use crate::response::Response;
use account::OutItem;
use callbox::{GivenShut, Giver, InPiece, Taken, Taker};
use callhead::CallHead;
use handlers::{Method, Methods};
use lane::{End, Lane};
use std::alloc::Global;

/// A call that is handled.
#[derive(Drop)]
pub struct CallRun<I: Lane<Item = InPiece>, O: Lane<Item = OutItem>> {
    /// The index of the call's method.
    pub(crate) index: usize,
    pub(crate) call: Call,
    pub(crate) taker: Taker<I>,
    /// What was taken ahead, and not handed to the method yet.
    pub(crate) in_hand: Option<Taken>,
    pub(crate) response: Response<Giver<O>, GivenShut<O>>,
    ghost there: { is_gone response ≡ false },
}

impl<I: Lane<Item = InPiece>, O: Lane<Item = OutItem>> CallRun<I, O> {
    /// A call of the method at this index, opened at this moment, in nanoseconds of the server's
    /// clock. It takes no memory.
    pub fn new(
        alloc: Global,
        methods: &Methods,
        index: usize,
        head: CallHead,
        taker: Taker<I>,
        giver: Giver<O>,
        opened: u64,
    ) -> CallRun<I, O>
        requires index { index < length (listed methods.now) }
        // If nothing was taken or given before, the empty list of messages leads to it.
        ensures run { IfSome (slice_get (listed methods.now) index)
            (λ method. taker.progress.told ≡ None → O.put_in giver.tx ≡ []
            → HasRun ((⟦<dyn Method as Method>⟧ method.vtable).answers method.value)
            ((⟦<dyn Method as Method>⟧ method.vtable).stands method.value) None [] result.call
            (given_over result.response)) }
        ensures taker { result.taker ≡ taker }
        ensures name { lane_of result.response ≡ Some (O.in_name giver.tx) }
        ensures index_is { result.index ≡ index }
        ensures hand { result.in_hand ≡ None }
        ensures head { result.call.head ≡ head }
        ensures deadline { result.call.deadline ≡ deadline_of head.timeout opened }
        ensures early { result.call.overdue ≡ false }
        ensures open { is_open result.response ≡ true }
    {
        let handling = match methods.get(index) {
            Some(method) => Handling::new(alloc, &**method),
            None => unreachable!(),
        };
        let deadline = match head.timeout {
            Some(timeout) => Some(timeout.saturating_add(u128::from(opened))),
            None => None,
        };
        CallRun {
            index,
            call: Call {
                alloc,
                head,
                deadline,
                overdue: false,
                handling,
            },
            taker,
            in_hand: None,
            response: Response::Open(giver),
        }
    }

    /// Looks at the deadline. Then it gives one item of the response, or takes once and hands that
    /// to the method.
    pub fn turn(&mut self, methods: &Methods, now: u64) -> Turn
        requires index { self.old.index < length (listed methods.now) }
        // Whatever messages led to the call before, those and the ones that were taken lead to it
        // after.
        ensures run { IfSome (slice_get (listed methods.now) self.old.index)
            (λ method. (messages : List (List ℕ))
            → TakesMessages (I.got self.old.taker.rx) self.old.taker.progress messages
            → HasCome ((⟦<dyn Method as Method>⟧ method.vtable).answers method.value)
            ((⟦<dyn Method as Method>⟧ method.vtable).stands method.value)
            self.old.taker.progress.told messages self.old.call self.old.in_hand
            (given_over self.old.response)
            → (more : List (List ℕ))
            × TakesMessages (I.got self.new.taker.rx) self.new.taker.progress
            (messages ++ more)
            × HasCome ((⟦<dyn Method as Method>⟧ method.vtable).answers method.value)
            ((⟦<dyn Method as Method>⟧ method.vtable).stands method.value)
            self.new.taker.progress.told (messages ++ more) self.new.call self.new.in_hand
            (given_over self.new.response)) }
        ensures in_name { I.out_name self.new.taker.rx ≡ I.out_name self.old.taker.rx }
        ensures name { lane_of self.new.response ≡ lane_of self.old.response }
        ensures same { (self.new.index ≡ self.old.index) × (self.new.call.head ≡ self.old.call.head)
            × (self.new.call.deadline ≡ self.old.call.deadline) }
        // The deadline counts as come only if this moment, or an earlier turn's, was not before it.
        ensures overdue { self.new.call.overdue ≡ true
            → (self.old.call.overdue ≡ true)
            ⊎ IsSomeAnd self.old.call.deadline (λ deadline. deadline ≤ now) }
        // While more may be given, the deadline counts as come if this moment is not before it.
        ensures late { is_open self.old.response ≡ true
            → IsSomeAnd self.old.call.deadline (λ deadline. deadline ≤ now)
            → self.new.call.overdue ≡ true }
        ensures over { result ≡ turn.Over → is_open self.new.response ≡ false }
        // A call is left without trailers only for want of memory, or by a lane where an item's
        // place may be taken already.
        ensures left { is_left self.new.response ≡ true
            → (is_left self.old.response ≡ true)
            ⊎ (lacks_memory self.new.call.handling.ending ≡ true) ⊎ O.MayMiss }
        ensures stays_over { is_open self.old.response ≡ false
            → (result ≡ turn.Over) × (self.new ≡ self.old) }
        // Something was done: an item was given, or one thing was taken, or the call ends for want
        // of memory.
        ensures went { result ≡ turn.Went
            → GivesOne (given_over self.old.response) (given_over self.new.response)
            ⊎ TakesOne (λ all. TakesMessages (I.got self.old.taker.rx) self.old.taker.progress all)
            (λ all. TakesMessages (I.got self.new.taker.rx) self.new.taker.progress all)
            self.old.taker.progress.told self.new.taker.progress.told
            ⊎ RunsOut self.old.call self.new.call }
        // There was nothing to take.
        ensures nothing { result ≡ turn.Nothing → IsUnfinished self.new.taker.progress.splitter
            × (self.new.taker.progress.shut ≡ None) × (self.new.taker.progress.unread ≡ false)
            × (I.ahead self.new.taker.rx ≡ []) }
        // As many items wait as there is room for, or more.
        ensures full { result ≡ turn.Full → HasNoRoom self.new.response }
    {
        let Some(method) = methods.get(self.index) else {
            unreachable!()
        };
        if !self.response.is_open() {
            return Turn::Over;
        }
        let in_hand = self.in_hand.take();
        self.call.hand_over(&**method, in_hand, &self.response);
        self.call.look_at(now);
        if let Some(reply) = self.call.handling.waiting.first() {
            return self.call.give(&mut self.response, reply);
        }
        if self.call.handling.ending.is_some() {
            return self.call.finish(&mut self.response);
        }
        self.take(&**method)
    }

    /// Whether the next turn has a message, the end, a reset or a fault to hand to the method. It
    /// takes that ahead, if no item waits to be given and nothing was taken ahead before.
    pub fn is_ready(&mut self) -> bool
        ensures ready { IsTrue result ↔ IsSome self.new.in_hand }
        ensures ahead { (messages : List (List ℕ))
            → TakesMessages (I.got self.old.taker.rx) self.old.taker.progress messages
            → TakesAhead
            (λ all. TakesMessages (I.got self.new.taker.rx) self.new.taker.progress all)
            messages
            self.old.in_hand self.old.taker.progress.told self.new.in_hand
            self.new.taker.progress.told }
        ensures may { (self.new.in_hand ≡ self.old.in_hand)
            ⊎ MayTake self.old.in_hand self.new.call (given_over self.new.response) }
        ensures in_name { I.out_name self.new.taker.rx ≡ I.out_name self.old.taker.rx }
        ensures same { (self.new.index ≡ self.old.index) × (self.new.call ≡ self.old.call)
            × (self.new.response ≡ self.old.response) }
    {
        if self.in_hand.is_none() && self.response.is_open() && self.call.handling.is_ready() {
            self.look_ahead();
        }
        self.in_hand.is_some()
    }

    /// Takes ahead what there is to take.
    fn look_ahead(&mut self)
        requires { self.old.in_hand ≡ None }
        ensures ahead { (messages : List (List ℕ))
            → TakesMessages (I.got self.old.taker.rx) self.old.taker.progress messages
            → TakesAhead
            (λ all. TakesMessages (I.got self.new.taker.rx) self.new.taker.progress all)
            messages
            self.old.in_hand self.old.taker.progress.told self.new.in_hand
            self.new.taker.progress.told }
        ensures in_name { I.out_name self.new.taker.rx ≡ I.out_name self.old.taker.rx }
        ensures same { (self.new.index ≡ self.old.index) × (self.new.call ≡ self.old.call)
            × (self.new.response ≡ self.old.response) }
    {
        match self.taker.take() {
            Taken::Nothing => {}
            taken => self.in_hand = Some(taken),
        }
    }

    /// Gives nothing more: for a call that is no longer live. Each turn answers `Over` from then
    /// on.
    pub fn leave(&mut self, methods: &Methods)
        requires index { self.old.index < length (listed methods.now) }
        ensures run { IfSome (slice_get (listed methods.now) self.old.index)
            (λ method. (messages : List (List ℕ))
            → HasCome ((⟦<dyn Method as Method>⟧ method.vtable).answers method.value)
            ((⟦<dyn Method as Method>⟧ method.vtable).stands method.value)
            self.old.taker.progress.told messages self.old.call self.old.in_hand
            (given_over self.old.response)
            → HasCome ((⟦<dyn Method as Method>⟧ method.vtable).answers method.value)
            ((⟦<dyn Method as Method>⟧ method.vtable).stands method.value)
            self.new.taker.progress.told messages self.new.call self.new.in_hand
            (given_over self.new.response)) }
        // What was given stays.
        ensures leaves { Leaves (given_over self.old.response) (given_over self.new.response) }
        ensures name { lane_of self.new.response ≡ lane_of self.old.response }
        ensures over { is_open self.new.response ≡ false }
        ensures shut { is_shut self.new.response ≡ is_shut self.old.response }
        ensures same { (self.new.index ≡ self.old.index) × (self.new.taker ≡ self.old.taker)
            × SameCall self.old.call self.new.call }
    {
        let Some(method) = methods.get(self.index) else {
            unreachable!()
        };
        let in_hand = self.in_hand.take();
        self.call.hand_over(&**method, in_hand, &self.response);
        self.response.leave();
    }

    /// How many bytes came in since the last call of this function, as `Taker::credit` counts them.
    pub fn credit(&mut self) -> u32
        ensures owed { result ≡ self.old.taker.progress.owed }
        ensures none { self.new.taker.progress ≡ record self.old.taker.progress { owed = 0 } }
        ensures rx { self.new.taker.rx ≡ self.old.taker.rx }
        ensures same { (self.new.index ≡ self.old.index) × (self.new.call ≡ self.old.call)
            × (self.new.in_hand ≡ self.old.in_hand) × (self.new.response ≡ self.old.response) }
    {
        self.taker.credit()
    }

    /// Whether the call has a deadline. Without one a turn makes no use of its moment.
    pub fn has_deadline(&self) -> bool
        ensures { IsTrue result ↔ IsSome self.now.call.deadline }
    {
        self.call.deadline.is_some()
    }

    /// How many nanoseconds are left at this moment until the deadline.
    pub fn time_left(&self, now: u64) -> Option<u128>
        ensures { result ≡ option_map (λ deadline. deadline - now) self.now.call.deadline }
    {
        let deadline = self.call.deadline?;
        Some(deadline.saturating_sub(u128::from(now)))
    }

    /// Whether the call ends for want of memory.
    pub fn ran_out(&self) -> bool
        ensures { result ≡ lacks_memory self.now.call.handling.ending }
    {
        self.call.handling.lacks_memory()
    }

    /// How many messages were given, and how many bytes they had without their prefixes. A number
    /// over the greatest `u64` counts as that.
    pub fn given(&self) -> (u64, u64) {
        self.call.handling.waiting.passed()
    }

    /// The two ends of the call, and the status of the trailers that were given.
    pub fn into_ends(self) -> (Taker<I>, End<Giver<O>, GivenShut<O>>, Option<u32>)
        // What was given is an outcome of what the method answers.
        ensures outcome { (answer : MethodStep)
            → GivesOf self.taker.progress.told answer self.call (given_over self.response)
            → IsOutcome self.call.head self.call.overdue self.taker.progress.told answer
            (of_end (λ g. O.put_in g.tx) (λ s. O.put_shut s.shut) result.1) result.2 }
        ensures taker { result.0 ≡ self.taker }
        ensures shut { of_end (λ g. false) (λ s. true) result.1 ≡ is_shut self.response }
        ensures name { Some (of_end (λ g. O.in_name g.tx) (λ s. O.shut_name s.shut) result.1)
            ≡ lane_of self.response }
    {
        let CallRun {
            taker,
            response,
            ..
        } = self;
        match response {
            Response::Open(giver) => (taker, End::Open(giver), None),
            Response::Left(giver) => (taker, End::Open(giver), None),
            Response::Shut(end, code) => {
                let code = if end.placed() { Some(code) } else { None };
                (taker, End::Shut(end), code)
            }
            Response::Gone => unreachable!(),
        }
    }

    /// Takes once, and hands that to the method.
    fn take(&mut self, method: &dyn Method) -> Turn
        requires ready { IsReady self.old.call.handling }
        requires open { is_open self.old.response ≡ true }
        ensures run { (messages : List (List ℕ))
            → TakesMessages (I.got self.old.taker.rx) self.old.taker.progress messages
            → HasRun (answers method.now) (stands method.now) self.old.taker.progress.told messages
            self.old.call (given_over self.old.response)
            → (more : List (List ℕ))
            × TakesMessages (I.got self.new.taker.rx) self.new.taker.progress
            (messages ++ more)
            × HasRun (answers method.now) (stands method.now) self.new.taker.progress.told
            (messages ++ more) self.new.call (given_over self.new.response) }
        ensures in_name { I.out_name self.new.taker.rx ≡ I.out_name self.old.taker.rx }
        ensures same { (self.new.index ≡ self.old.index) × (self.new.in_hand ≡ self.old.in_hand)
            × (self.new.response ≡ self.old.response) × SameCall self.old.call self.new.call }
        ensures turn { (result ≡ turn.Went) ⊎ (result ≡ turn.Nothing) }
        ensures went { result ≡ turn.Went
            → TakesOne (λ all. TakesMessages (I.got self.old.taker.rx) self.old.taker.progress all)
            (λ all. TakesMessages (I.got self.new.taker.rx) self.new.taker.progress all)
            self.old.taker.progress.told self.new.taker.progress.told }
        ensures nothing { result ≡ turn.Nothing → IsUnfinished self.new.taker.progress.splitter
            × (self.new.taker.progress.shut ≡ None) × (self.new.taker.progress.unread ≡ false)
            × (I.ahead self.new.taker.rx ≡ []) }
    {
        match self.taker.take() {
            Taken::Nothing => Turn::Nothing,
            taken => {
                self.call.answer(method, taken);
                Turn::Went
            }
        }
    }
}
