//! The calls of a connection, as its reading side has them.

ghost use Rattle.std.specs.Prelude.{
  ◌≡◌,
  ◌<◌,
  ◌+◌,
  ℕ,
  Bool,
  List,
  [],
  ◌∷◌,
  ◌++◌,
  true,
  false,
  length,
  None,
  Some,
  All,
  IfErr,
  IfNone,
  IfSome,
  OnErr,
  OnOk,
  nat_eq,
  position,
  set,
  vec_capacity,
  vec_len,
};
ghost use Rattle.std.specs.List.{IsDistinct};
ghost use Rattle.callhead.specs.declared.head.CallHead.{CallHead as Head};
ghost use Rattle.callparts.specs.Blocks.{has_room};
ghost use Rattle.connbook.specs.declared.answers.Receipt.TheVariants.{Feed};
ghost use Rattle.session.specs.declared.event.InEvent.TheVariants as events;
ghost use Rattle.readerloop.specs.Awaited.{AwaitsAll, IsDone, IsSent, is_undone, is_unsent};
ghost use Rattle.readerloop.specs.Calls.{HasAnswered, HasReturned, SentItems, carried_in, is_over};
ghost use Rattle.readerloop.specs.Concerns.{Concerns};
ghost use Rattle.readerloop.specs.Kept.{
  AreCut,
  Hears,
  IsFresh,
  Keeps,
  Kept,
  MayRefuseOn,
  accounts_of,
  fed_at,
  fed_but,
  ids_of,
  unsettled,
};
ghost use Rattle.readerloop.specs.Orders.{IsDue, is_fed};
ghost use Rattle.readerloop.specs.Reports.{IsSettled};
ghost use Rattle.readerloop.specs.Steps.{
  Admitted,
  Lack,
  Misses,
  Received,
  ShutAs,
  Step,
  Told,
  Unserved,
  closing_at,
  is_draining,
};

use crate::call::Call;
use account::Shut;
use bytes::Bytes;
use callbox::FeedFault;
use callparts::{Accounts, Answering, CallAccount, CallNumber, FinishedJob, Naming, ReturningCall};
use h2frame::StreamId;
use std::alloc::{AllocError, Global};

/// The calls that aren't settled, and the accounts of all that were admitted.
#[derive(Drop)]
pub struct Calls<J: Naming> {
    pub(crate) calls: Vec<Call<J>>,
    /// An account for each call that was admitted, by rising stream. Until a call is settled its
    /// account is that of an unserved one.
    pub(crate) accounts: Accounts,
    /// The stream of the call that was admitted last, 0 for none.
    pub(crate) last: StreamId,
}

impl<J: Naming> Calls<J> {
    pub(crate) fn new<M: Answering>(alloc: Global) -> Calls<J>
        ensures kept { (sent : List SentItems)
            → Kept M.known M.names (carried_in sent) [] result }
        ensures none { unsettled result ≡ [] }
    {
        Calls {
            calls: Vec::new(alloc),
            accounts: Accounts::new(alloc),
            last: 0,
        }
    }

    /// Makes room for the account of one call more.
    pub(crate) fn reserve_account(&mut self) -> Result<(), AllocError>
        ensures room { OnOk result (has_room self.new.accounts.count self.new.accounts.last
            ≡ true) }
        ensures accounts { accounts_of self.new ≡ accounts_of self.old }
        ensures calls { unsettled self.new ≡ unsettled self.old }
        ensures last { self.new.last ≡ self.old.last }
    {
        self.accounts.reserve()
    }

    /// Makes room for one call more.
    pub(crate) fn reserve(&mut self) -> Result<(), AllocError>
        ensures room { OnOk result (vec_len self.new.calls < vec_capacity self.new.calls) }
        ensures accounts { self.new.accounts ≡ self.old.accounts }
        ensures calls { unsettled self.new ≡ unsettled self.old }
        ensures last { self.new.last ≡ self.old.last }
    {
        self.calls.reserve(1)
    }

    /// The place of the next account.
    pub(crate) fn next_place(&self) -> usize
        ensures { result ≡ length (accounts_of self.now) }
    {
        self.accounts.len()
    }

    /// Adds a call that was admitted. There is room for it and its account. Until it is settled its
    /// account is that of an unserved one.
    pub(crate) fn add<M: Answering>(&mut self, call: Call<J>)
        requires room { vec_len self.old.calls < vec_capacity self.old.calls }
        requires account_room { has_room self.old.accounts.count self.old.accounts.last ≡ true }
        requires above { self.old.last < call.id }
        requires place { call.place ≡ length (accounts_of self.old) }
        ensures heard { (sent : List SentItems) (head : Head)
            (told : List Step) → IsFresh M.names head call → is_draining told ≡ false
            → Kept M.known M.names (carried_in sent) told self.old
            → Kept M.known M.names (carried_in sent)
            (Told (events.Open call.id head) Admitted ∷ told)
            self.new }
        ensures calls { unsettled self.new ≡ unsettled self.old ++ call ∷ [] }
    {
        self.last = call.id;
        let _place = self
            .accounts
            .push_reserved(CallAccount::unserved(call.id, call.method));
        self.calls.push_reserved(call);
    }

    /// Adds the account of a call of this method that was admitted and that no worker serves.
    pub(crate) fn pass_over<M: Answering>(&mut self, id: StreamId, method: usize)
        requires account_room { has_room self.old.accounts.count self.old.accounts.last ≡ true }
        requires above { self.old.last < id }
        ensures heard { (sent : List SentItems) (head : Head)
            (why : Lack) (told : List Step) → M.names head.path method → is_draining told ≡ false
            → Kept M.known M.names (carried_in sent) told self.old
            → Kept M.known M.names (carried_in sent)
            (Told (events.Open id head) (Unserved why) ∷ told)
            self.new }
        ensures calls { unsettled self.new ≡ unsettled self.old }
    {
        self.last = id;
        let _place = self
            .accounts
            .push_reserved(CallAccount::unserved(id, method));
    }

    /// How many aren't settled.
    pub(crate) fn len(&self) -> usize
        ensures { result ≡ length (unsettled self.now) }
    {
        self.calls.len()
    }

    /// The place of the call of this stream.
    fn find(&self, id: StreamId) -> Option<usize>
        ensures { result ≡ position (λ call. nat_eq call.id id) (unsettled self.now) }
    {
        self.calls.iter().position(|call| call.id == id)
    }

    /// Feeds a piece to the call of this stream, if more may be fed to it. Answers the worker that
    /// is to see it.
    pub(crate) fn feed<M: Answering>(
        &mut self,
        id: StreamId,
        piece: Bytes,
    ) -> Result<Option<usize>, FeedFault>
        ensures heard { OnOk result ((sent : List SentItems) (counted : ℕ)
            → Hears M.known M.names (carried_in sent)
            (Told (events.Data id piece counted) (Received Feed))
            self.old self.new) }
        ensures stays { OnErr result ((sent : List SentItems)
            → Keeps M.known M.names (carried_in sent) self.old self.new) }
        ensures due { OnErr result ((sent : List SentItems) (told : List Step)
            → Kept M.known M.names (carried_in sent) told self.old → IsDue id piece told) }
        ensures refused { IfErr result (λ fault. MayRefuseOn id self.old fault) }
        ensures awaits { AwaitsAll (unsettled self.old) (unsettled self.new) }
    {
        let Some(place) = self.find(id) else {
            return Ok(None);
        };
        let Some(call) = self.calls.get_mut(place) else {
            return Ok(None);
        };
        call.feed::<M>(piece)?;
        Ok(call.worker())
    }

    /// Shuts the half of the call of this stream in this way. A half that was closed before stays
    /// as it is. Answers the worker that is to look whether the call is still live.
    pub(crate) fn shut<M: Answering>(&mut self, id: StreamId, kind: Shut) -> Option<usize>
        ensures heard { (sent : List SentItems) (step : Step)
            → Concerns id step → closing_at id step ≡ Some (ShutAs kind)
            → Hears M.known M.names (carried_in sent) step self.old self.new }
        ensures accounts { self.new.accounts ≡ self.old.accounts }
        ensures last { self.new.last ≡ self.old.last }
        ensures awaits { AwaitsAll (unsettled self.old) (unsettled self.new) }
        // No more is fed to that call; each other may be fed as before.
        ensures closes { IsDistinct nat_eq (ids_of (unsettled self.old)) → (place : ℕ)
            → fed_at place self.new ≡ fed_but id (fed_at place self.old) }
    {
        let place = self.find(id)?;
        let call = self.calls.get_mut(place)?;
        call.shut::<M>(kind);
        call.worker()
    }

    /// The call of this stream misses a piece, if more may be fed to it.
    pub(crate) fn miss<M: Answering>(&mut self, id: StreamId)
        ensures heard { (sent : List SentItems) (step : Step)
            → Concerns id step → closing_at id step ≡ Some Misses
            → Hears M.known M.names (carried_in sent) step self.old self.new }
        ensures awaits { AwaitsAll (unsettled self.old) (unsettled self.new) }
    {
        let Some(place) = self.find(id) else {
            return;
        };
        let Some(call) = self.calls.get_mut(place) else {
            return;
        };
        call.miss::<M>();
    }

    /// The stream of the call at this place, if more may be fed to it.
    pub(crate) fn fed(&self, place: usize) -> Option<StreamId>
        ensures { result ≡ fed_at place self.now }
    {
        let call = self.calls.get(place)?;
        if call.half.is_open() {
            return Some(call.id);
        }
        None
    }

    /// The place of a call of this number that its worker hasn't handed back.
    fn find_undone(&self, number: &CallNumber<J>) -> Option<usize>
        ensures { result
            ≡ position (λ call. is_undone number.now.value call) (unsettled self.now) }
    {
        self.calls.iter().position(|call| call.is_undone(number))
    }

    /// The place of a call of this number whose sender isn't back.
    fn find_unsent(&self, number: &CallNumber<J>) -> Option<usize>
        ensures { result
            ≡ position (λ call. is_unsent number.now.value call) (unsettled self.now) }
    {
        self.calls.iter().position(|call| call.is_unsent(number))
    }

    /// The place of a call that is over.
    fn find_over(&self) -> Option<usize>
        ensures { result ≡ position (λ call. is_over call) (unsettled self.now) }
    {
        self.calls.iter().position(|call| call.is_over())
    }

    /// A worker has handed a call back.
    pub(crate) fn finish<M: Answering>(&mut self, finished: FinishedJob<J>)
        ensures stays { (sent : List SentItems)
            → HasAnswered M.known finished
            → Keeps M.known M.names (carried_in sent) self.old self.new }
        ensures accounts { self.new.accounts ≡ self.old.accounts }
        ensures last { self.new.last ≡ self.old.last }
        ensures cut { AreCut (unsettled self.old) → AreCut (unsettled self.new) }
        ensures back { IsDone finished.number.value (unsettled self.old) (unsettled self.new) }
    {
        let Some(place) = self.find_undone(&finished.number) else {
            return;
        };
        let Some(call) = self.calls.get_mut(place) else {
            return;
        };
        call.finish::<M>(finished);
    }

    /// The writing side has handed a sender back.
    pub(crate) fn take_back<M: Answering>(&mut self, returning: ReturningCall<J>)
        ensures stays { (sent : List SentItems)
            → HasReturned (carried_in sent) returning.sending.value
            → Keeps M.known M.names (carried_in sent) self.old self.new }
        ensures accounts { self.new.accounts ≡ self.old.accounts }
        ensures last { self.new.last ≡ self.old.last }
        ensures cut { AreCut (unsettled self.old) → AreCut (unsettled self.new) }
        ensures back { IsSent returning.sending.value.number.value
            (unsettled self.old) (unsettled self.new) }
    {
        let Some(place) = self.find_unsent(&returning.sending.number) else {
            return;
        };
        let Some(call) = self.calls.get_mut(place) else {
            return;
        };
        call.take_back::<M>(returning);
    }

    /// Settles a call that is over, if there is one. Its account is final.
    pub(crate) fn settle_next<M: Answering>(&mut self) -> Option<CallAccount>
        ensures settled { IfSome result (λ account.
            (sent : List SentItems) (told : List Step)
            → Kept M.known M.names (carried_in sent) told self.old
            → IsSettled M.known M.names (carried_in sent) told account) }
        ensures stays { (sent : List SentItems)
            → Keeps M.known M.names (carried_in sent) self.old self.new }
        ensures room { has_room self.new.accounts.count self.new.accounts.last
            ≡ has_room self.old.accounts.count self.old.accounts.last }
        ensures last { self.new.last ≡ self.old.last }
        ensures awaits { AwaitsAll (unsettled self.old) (unsettled self.new) }
        ensures cut { AreCut (unsettled self.old) → AreCut (unsettled self.new) }
        ensures fewer { IfSome result (λ account.
            length (unsettled self.new) + 1 ≡ length (unsettled self.old)) }
        // If it settles none, no call is over.
        ensures none { IfNone result (All (λ call. is_over call ≡ false) (unsettled self.new)) }
    {
        let place = self.find_over()?;
        let call = self.calls.swap_remove(place);
        let at = call.place;
        let account = call.settle::<M>();
        self.set_account(at, account);
        Some(account)
    }

    /// Puts an account in the place of another, if there is one at this place.
    fn set_account(&mut self, place: usize, account: CallAccount)
        ensures accounts { accounts_of self.new ≡ set (accounts_of self.old) place account }
        ensures room { has_room self.new.accounts.count self.new.accounts.last
            ≡ has_room self.old.accounts.count self.old.accounts.last }
        ensures rest { self.new ≡ record self.old { accounts = self.new.accounts } }
    {
        if place < self.accounts.len() {
            self.accounts.set(place, account);
        }
    }

    /// The accounts of all calls.
    pub(crate) fn into_accounts(self) -> Accounts
        ensures { result ≡ self.accounts }
    {
        self.accounts
    }
}
