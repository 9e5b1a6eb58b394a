//! The state of a call beside its ends, and how its response is given.

ghost use Rattle.std.specs.Prelude.{
  ◌≡◌,
  ◌≢◌,
  ◌≤◌,
  ◌∷◌,
  ◌⊎◌,
  [],
  ℕ,
  List,
  true,
  false,
  None,
  Some,
  IsSomeAnd,
  IfOk,
  Bool,
  Option,
};
ghost use Rattle.callbox.specs.InSides.{Tells, grown};
ghost use Rattle.account.specs.declared.call.OutItem.{OutItem as Item};
ghost use Rattle.account.specs.declared.call.RequestEnd.{RequestEnd as RequestEndOf};
ghost use Rattle.handlers.specs.declared.reply.Reply.{Reply as ReplyOf};

use crate::cause::Cause;
use crate::giving::{GiveRefusal, give_head, give_reply};
use crate::handling::Handling;
use crate::response::Response;
use crate::shutting::shut;
use account::OutItem;
use callbox::{GivenShut, Giver, Taken};
use callhead::CallHead;
use handlers::{Method, Reply};
use lane::Lane;
use lists::{Field, Sequence};
use std::alloc::{AllocError, Global};

/// What a turn did.
#[derive(Clone, Copy, Debug, PartialEq, Eq)]
pub enum Turn {
    /// It did something: there may be more to do at once.
    Went,
    /// There was nothing to take.
    Nothing,
    /// There was no room for what is to be given.
    Full,
    /// Nothing is left to do.
    Over,
}

/// A call without its ends.
#[derive(Debug, Drop)]
pub(crate) struct Call {
    pub(crate) alloc: Global,
    pub(crate) head: CallHead,
    /// When the call ends by itself, in nanoseconds of the server's clock.
    pub(crate) deadline: Option<u128>,
    /// Whether a turn came at the deadline or after it.
    pub(crate) overdue: bool,
    pub(crate) handling: Handling,
}

impl Call {
    ghost use Rattle.callrun.specs.declared.call.Turn.TheVariants as turn;
    ghost use Rattle.callrun.specs.declared.giving.GiveRefusal.TheVariants as refused_kind;
    ghost use Rattle.callrun.specs.Handlings.{HeadIsDue, IsReady, lacks_memory};
    ghost use Rattle.callrun.specs.Runs.{
      GivesOne,
      HasCome,
      HasRun,
      RunsOn,
      RunsOut,
      SameCall,
      IsDueReply,
      IsEnding,
      HasTrailers,
      ends_short,
    };
    ghost use Rattle.callrun.specs.Sides.{
      HasNoRoom,
      IsOpenTo,
      ResponseView,
      given_over,
      is_gone,
      is_left,
      is_open,
      lane_of,
      left,
      shown,
    };

    /// Ends the call if the deadline has come.
    pub(crate) fn look_at(&mut self, now: u64)
        ensures run { (before : ResponseView) → RunsOn self.old before self.new before }
        ensures overdue { self.new.overdue ≡ true
            → (self.old.overdue ≡ true) ⊎ IsSomeAnd self.old.deadline (λ deadline. deadline ≤ now) }
        ensures late { IsSomeAnd self.old.deadline (λ deadline. deadline ≤ now)
            → self.new.overdue ≡ true }
        ensures stays { self.old.overdue ≡ true → self.new ≡ self.old }
        ensures same { (self.new.head ≡ self.old.head) × (self.new.deadline ≡ self.old.deadline) }
        ensures newly { (self.new ≡ self.old)
            ⊎ ((self.old.overdue ≡ false) × (self.new.overdue ≡ true)) }
    {
        if self.overdue {
            return;
        }
        let Some(deadline) = self.deadline else {
            return;
        };
        if deadline <= u128::from(now) {
            self.overdue = true;
            self.handling.end_by(self.alloc, Cause::DeadlineExceeded);
        }
    }

    /// Hands what was taken to the method, or ends the call by it.
    pub(crate) fn answer(&mut self, method: &dyn Method, taken: Taken)
        requires { IsReady self.old.handling }
        ensures run { (said : Option RequestEndOf) (next : Option RequestEndOf)
            (messages : List (List ℕ))
            (given : List Item) → Tells taken said next
            → HasRun (answers method.now) (stands method.now) said messages self.old
            (record { is_live = true; given = given; code = None })
            → HasRun (answers method.now) (stands method.now) next (grown messages taken) self.new
            (record { is_live = true; given = given; code = None }) }
        ensures same { SameCall self.old self.new }
    {
        let alloc = self.alloc;
        match taken {
            Taken::Message(message) => self.handling.message(alloc, method, message.as_slice()),
            Taken::Nothing => {}
            Taken::End => self.handling.end(alloc, method),
            Taken::Reset(_) => self.handling.end_by(alloc, Cause::Cancelled),
            Taken::Fault(fault) => {
                let cause = Cause::of_fault(fault, self.head.encoding);
                self.handling.end_by(alloc, cause);
            }
        }
    }

    /// Hands what is in hand to the method, if anything is.
    pub(crate) fn hand_over<G: Drop, S: Drop>(
        &mut self,
        method: &dyn Method,
        in_hand: Option<Taken>,
        response: &Response<G, S>,
    )
        ensures run { (of_open : G → List Item) (of_shut : S → List Item) (was_placed : S → Bool)
            (said : Option RequestEndOf) (messages : List (List ℕ))
            → HasCome (answers method.now) (stands method.now) said messages self.old in_hand
            (shown of_open of_shut was_placed response.now)
            → HasRun (answers method.now) (stands method.now) said messages self.new
            (shown of_open of_shut was_placed response.now) }
        ensures same { SameCall self.old self.new }
        ensures lacks { lacks_memory self.old.handling.ending ≡ true → self.new ≡ self.old }
    {
        let Some(taken) = in_hand else {
            return;
        };
        if response.is_open() && self.handling.is_ready() {
            self.answer(method, taken);
        }
    }

    /// Gives the next reply, or the head that goes before it.
    pub(crate) fn give<O: Lane<Item = OutItem>>(
        &mut self,
        response: &mut Response<Giver<O>, GivenShut<O>>,
        reply: Reply,
    ) -> Turn
        requires { IsDueReply reply self.old }
        ensures run { RunsOn self.old (given_over response.old) self.new (given_over response.new) }
        ensures name { lane_of response.new ≡ lane_of response.old }
        ensures there { is_gone response.new ≡ is_gone response.old }
        ensures same { SameCall self.old self.new }
        ensures turn { result ≢ turn.Nothing }
        ensures went { result ≡ turn.Went
            → GivesOne (given_over response.old) (given_over response.new)
            ⊎ RunsOut self.old self.new }
        ensures over { result ≡ turn.Over → is_open response.new ≡ false }
        ensures left { is_left response.new ≡ true
            → (is_left response.old ≡ true) ⊎ (lacks_memory self.new.handling.ending ≡ true)
            ⊎ O.MayMiss }
        ensures full { result ≡ turn.Full → HasNoRoom response.new }
    {
        let Response::Open(giver) = response else {
            return Turn::Over;
        };
        if !giver.has_head() {
            return self.begin(response);
        }
        match give_reply(giver, self.alloc, reply) {
            Ok(()) => {
                self.handling.waiting.pass();
                Turn::Went
            }
            Err(refused) => self.refused(response, refused),
        }
    }

    /// Gives the head.
    fn begin<O: Lane<Item = OutItem>>(
        &mut self,
        response: &mut Response<Giver<O>, GivenShut<O>>,
    ) -> Turn
        requires due { HeadIsDue self.old.head self.old.handling }
        requires empty { IsOpenTo (λ g. O.put_in g.tx ≡ []) response.old }
        ensures run { RunsOn self.old (given_over response.old) self.new (given_over response.new) }
        ensures name { lane_of response.new ≡ lane_of response.old }
        ensures there { is_gone response.new ≡ is_gone response.old }
        ensures same { SameCall self.old self.new }
        ensures turn { result ≢ turn.Nothing }
        ensures went { result ≡ turn.Went
            → GivesOne (given_over response.old) (given_over response.new)
            ⊎ RunsOut self.old self.new }
        ensures over { result ≡ turn.Over → is_open response.new ≡ false }
        ensures left { is_left response.new ≡ true
            → (is_left response.old ≡ true) ⊎ (lacks_memory self.new.handling.ending ≡ true)
            ⊎ O.MayMiss }
        ensures full { result ≡ turn.Full → HasNoRoom response.new }
    {
        let Response::Open(giver) = response else {
            return Turn::Over;
        };
        match give_head(giver, self.alloc, &self.head) {
            Ok(()) => Turn::Went,
            Err(refused) => self.refused(response, refused),
        }
    }

    /// What a turn answers in which an item was refused.
    fn refused<G: Drop, S: Drop>(
        &mut self,
        response: &mut Response<G, S>,
        refused: GiveRefusal,
    ) -> Turn
        ensures run { (of_open : G → List Item) (of_shut : S → List Item) (was_placed : S → Bool)
            → RunsOn self.old (shown of_open of_shut was_placed response.old) self.new
            (shown of_open of_shut was_placed response.new) }
        ensures response { (response.new ≡ response.old) ⊎ (response.new ≡ left response.old) }
        ensures same { SameCall self.old self.new }
        ensures turn { result ≢ turn.Nothing }
        ensures went { result ≡ turn.Went → RunsOut self.old self.new }
        ensures over { result ≡ turn.Over → is_open response.new ≡ false }
        ensures full { result ≡ turn.Full
            → (refused ≡ refused_kind.Full) × (response.new ≡ response.old) }
        ensures left { (response.new ≡ response.old)
            ⊎ (lacks_memory self.new.handling.ending ≡ true) ⊎ (refused ≡ refused_kind.NotTaken) }
    {
        match refused {
            GiveRefusal::Full => Turn::Full,
            GiveRefusal::OutOfMemory => self.run_out(response),
            GiveRefusal::NotTaken => {
                response.leave();
                Turn::Over
            }
        }
    }

    /// Ends the call for want of memory. A call that ended so before gets no trailers.
    fn run_out<G: Drop, S: Drop>(&mut self, response: &mut Response<G, S>) -> Turn
        ensures run { (of_open : G → List Item) (of_shut : S → List Item) (was_placed : S → Bool)
            → RunsOn self.old (shown of_open of_shut was_placed response.old) self.new
            (shown of_open of_shut was_placed response.new) }
        ensures response { (response.new ≡ response.old) ⊎ (response.new ≡ left response.old) }
        ensures same { SameCall self.old self.new }
        ensures went { result ≡ turn.Went → RunsOut self.old self.new }
        ensures turn { ((result ≡ turn.Went) × (response.new ≡ response.old))
            ⊎ ((result ≡ turn.Over) × (response.new ≡ left response.old)
            × (lacks_memory self.new.handling.ending ≡ true)) }
    {
        if self.handling.lacks_memory() {
            response.leave();
            return Turn::Over;
        }
        self.handling.end_by(self.alloc, Cause::OutOfMemory);
        Turn::Went
    }

    /// Gives the trailers, or the head that goes before them.
    pub(crate) fn finish<O: Lane<Item = OutItem>>(
        &mut self,
        response: &mut Response<Giver<O>, GivenShut<O>>,
    ) -> Turn
        requires { IsEnding self.old.handling }
        ensures run { RunsOn self.old (given_over response.old) self.new (given_over response.new) }
        ensures name { lane_of response.new ≡ lane_of response.old }
        ensures there { is_gone response.new ≡ is_gone response.old }
        ensures same { SameCall self.old self.new }
        ensures turn { result ≢ turn.Nothing }
        ensures went { result ≡ turn.Went
            → GivesOne (given_over response.old) (given_over response.new)
            ⊎ RunsOut self.old self.new }
        ensures over { result ≡ turn.Over → is_open response.new ≡ false }
        ensures left { is_left response.new ≡ true
            → (is_left response.old ≡ true) ⊎ (lacks_memory self.new.handling.ending ≡ true)
            ⊎ O.MayMiss }
        ensures full { result ≡ turn.Full → HasNoRoom response.new }
    {
        let Response::Open(giver) = response else {
            return Turn::Over;
        };
        let has_head = giver.has_head();
        if !has_head && !self.is_short() {
            return self.begin(response);
        }
        match self.trailers(has_head) {
            Ok((fields, code)) => {
                shut(response, fields, code);
                Turn::Over
            }
            Err(_e) => self.run_out(response),
        }
    }

    /// Whether a call without a reply ends by one block.
    fn is_short(&self) -> bool
        ensures { result ≡ ends_short self.now.head self.now.handling.ending }
    {
        match &self.handling.ending {
            Some(ending) => ending.code() != 0 && self.head.echo_initial.as_slice().is_empty(),
            None => false,
        }
    }

    /// The trailers, after a head or alone, and their status.
    fn trailers(&self, has_head: bool) -> Result<(Sequence<Field>, u32), AllocError>
        ensures { IfOk result
            (λ r. HasTrailers has_head self.now.head self.now.handling.ending r.0 r.1) }
    {
        let Some(ending) = &self.handling.ending else {
            return Err(AllocError);
        };
        let fields = if has_head {
            ending.trailers(self.alloc, &self.head)?
        } else {
            ending.only_trailers(self.alloc, &self.head)?
        };
        Ok((Sequence::from(fields), ending.code()))
    }
}
