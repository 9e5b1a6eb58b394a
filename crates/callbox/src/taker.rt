//! The end of a call that takes its messages.
//!
//! The messages that were taken are stored nowhere: `take` speaks of each list of messages that
//! leads there (`TakesMessages`), and `open_in` starts with none.
//!
//! A piece that can't be shared for want of memory stays unread. A lane lends its item until the
//! next poll, and `Bytes::clone` can be refused. So the taker counts the piece for `credit` once
//! and marks it unread. It still takes the messages and tells the faults that were whole before the
//! piece, then answers Fault(OutOfMemory), and reads the piece again (`Lane::polled`) at its next
//! `take`.
//!
//! `Taker::look` polls at most 2^64 - 1 times, since it has to return, and a writer may put pieces
//! without bytes forever.

ghost use Rattle.std.specs.Prelude.{
  ◌≡◌,
  ℕ,
  ◌+◌,
  ◌-◌,
  min,
  true,
  false,
  None,
  Some,
  List,
  [],
  ◌∷◌,
  ◌++◌,
  length,
  All,
  IfNone,
  IfSome,
  MatchOption,
  is_some,
};
ghost use Rattle.lpm.specs.Messages.{IsUnfinished};
ghost use Rattle.lane.specs.Lawful.{last_of};
ghost use Rattle.callbox.specs.InSides.{
  EachNeeded,
  IsPolled,
  TakesMessages,
  Tells,
  bytes_of,
  grown,
  length_of,
  telling,
};
ghost use Rattle.callbox.specs.declared.piece.InPiece.{InPiece};
ghost use Rattle.callbox.specs.declared.taker.Taken.TheVariants as taken;

use crate::InPiece;
use account::{RequestEnd, Shut, told_behind};
use bytes::Bytes;
use lane::Lane;
use lpm::{LpmFault, Split, Splitter};
use std::alloc::Global;

/// What a `Taker` answers.
#[derive(Debug, Drop)]
pub enum Taken {
    /// The next message.
    Message(Bytes),
    /// There is nothing to take or tell yet.
    Nothing,
    /// There are no more messages.
    End,
    /// The call was reset, with this error code.
    Reset(u32),
    /// What was fed can't go on as messages, or ended inside one; or memory ran out.
    Fault(LpmFault),
}

/// What a polled item becomes.
#[derive(Debug, Drop)]
pub(crate) enum PolledItem {
    Bytes(Bytes),
    Shut(Shut),
    /// A piece that wasn't shared for want of memory, by its length.
    Unshared(u64),
}

/// How far a `Taker` has come.
#[derive(Drop)]
pub(crate) struct Progress {
    /// The bytes that were polled, but for those of the messages that were taken and of an unread
    /// piece.
    pub(crate) splitter: Splitter,
    /// Whether the piece that was polled last is unread, since memory ran out.
    pub(crate) unread: bool,
    pub(crate) shut: Option<Shut>,
    pub(crate) told: Option<RequestEnd>,
    /// How many messages were taken, up to the greatest `u64`.
    pub(crate) taken: u64,
    /// How many bytes were polled since the last credit, up to the greatest `u32`.
    pub(crate) owed: u32,
}

impl Progress {
    pub(crate) fn new(alloc: Global) -> Progress
        ensures took { TakesMessages [] result [] }
        ensures owed { result.owed ≡ 0 }
        ensures told { result.told ≡ None }
    {
        Progress {
            splitter: Splitter::new(alloc),
            unread: false,
            shut: None,
            told: None,
            taken: 0,
            owed: 0,
        }
    }

    /// The next answer, if what was polled has one.
    fn answer(&mut self) -> Option<Taken>
        requires { self.old.told ≡ None }
        ensures took { (items : List InPiece) (messages : List (List ℕ))
            → TakesMessages items self.old messages
            → MatchOption result (TakesMessages items self.new messages)
            (λ a. TakesMessages items self.new (grown messages a)) }
        ensures tells { IfSome result (λ a. Tells a self.old.told self.new.told) }
        ensures more { IfNone result (IsUnfinished self.new.splitter × (self.new.told ≡ None)
            × (self.new.shut ≡ None) × (self.new.unread ≡ false)) }
        ensures some { IfSome result (λ a. a ≡ taken.Nothing → ⊥) }
        ensures owed { self.new.owed ≡ self.old.owed }
    {
        match self.splitter.next() {
            Split::Message(message) => {
                self.taken = self.taken.saturating_add(1);
                Some(Taken::Message(message))
            }
            Split::Fault(fault) => match fault {
                LpmFault::OutOfMemory => Some(Taken::Fault(fault)),
                _ => {
                    self.told = Some(RequestEnd::Fault(fault));
                    Some(Taken::Fault(fault))
                }
            },
            Split::More => self.ending(),
        }
    }

    /// What is told after the last whole message, or `None` where more is to be polled.
    fn ending(&mut self) -> Option<Taken>
        requires unfinished { IsUnfinished self.old.splitter }
        requires untold { self.old.told ≡ None }
        ensures took { (items : List InPiece) (messages : List (List ℕ))
            → TakesMessages items self.old messages
            → MatchOption result (TakesMessages items self.new messages)
            (λ a. TakesMessages items self.new (grown messages a)) }
        ensures tells { IfSome result (λ a. Tells a self.old.told self.new.told) }
        ensures more { IfNone result ((self.new ≡ self.old) × (self.new.shut ≡ None)
            × (self.new.unread ≡ false)) }
        ensures some { IfSome result (λ a. a ≡ taken.Nothing → ⊥) }
        ensures owed { self.new.owed ≡ self.old.owed }
    {
        if self.unread {
            return Some(Taken::Fault(LpmFault::OutOfMemory));
        }
        let told = told_behind(&self.splitter, self.shut)?;
        self.told = Some(told);
        Some(answer_of(told))
    }

    /// Takes in what was polled.
    pub(crate) fn accept(&mut self, polled: PolledItem)
        requires untold { self.old.told ≡ None }
        requires unshut { self.old.shut ≡ None }
        requires read { self.old.unread ≡ false }
        ensures took { (items : List InPiece) (item : InPiece) (messages : List (List ℕ))
            → TakesMessages items self.old messages
            → IsPolled item polled → TakesMessages (items ++ item ∷ []) self.new messages }
        ensures told { self.new.told ≡ None }
        ensures owed { (item : InPiece) → IsPolled item polled
            → self.new.owed ≡ min (self.old.owed + length_of item) 4294967295 }
    {
        self.owe(polled.len());
        match polled {
            PolledItem::Bytes(bytes) => {
                if self.splitter.push_shared(bytes).is_err() {
                    self.unread = true;
                }
            }
            PolledItem::Unshared(_) => self.unread = true,
            PolledItem::Shut(shut) => self.shut = Some(shut),
        }
    }

    /// Takes in the unread piece.
    pub(crate) fn accept_again(&mut self, polled: PolledItem)
        requires untold { self.old.told ≡ None }
        requires unread { self.old.unread ≡ true }
        ensures took { (items : List InPiece) (item : InPiece) (messages : List (List ℕ))
            → TakesMessages items self.old messages
            → last_of items ≡ Some item → IsPolled item polled
            → TakesMessages items self.new messages }
        ensures told { self.new.told ≡ None }
        ensures owed { self.new.owed ≡ self.old.owed }
    {
        if let PolledItem::Bytes(bytes) = polled {
            if self.splitter.push_shared(bytes).is_ok() {
                self.unread = false;
            }
        }
    }

    fn owe(&mut self, len: u64)
        ensures { self.new ≡ record self.old { owed = min (self.old.owed + len) 4294967295 } }
    {
        let owed = u64::from(self.owed).saturating_add(len);
        self.owed = owed.min(4_294_967_295) as u32;
    }
}

impl PolledItem {
    /// How many bytes it has.
    fn len(&self) -> u64
        ensures { (item : InPiece) → IsPolled item self.now → result ≡ length_of item }
    {
        match self {
            PolledItem::Bytes(bytes) => bytes.len() as u64,
            PolledItem::Unshared(len) => *len,
            PolledItem::Shut(_) => 0,
        }
    }
}

/// The answer by which a thing is told.
fn answer_of(told: RequestEnd) -> Taken
    ensures { result ≡ telling told }
{
    match told {
        RequestEnd::End => Taken::End,
        RequestEnd::Reset(code) => Taken::Reset(code),
        RequestEnd::Fault(fault) => Taken::Fault(fault),
    }
}

impl InPiece {
    /// The item, with its bytes shared.
    fn share(&self) -> PolledItem
        ensures { IsPolled self.now result }
    {
        match self {
            InPiece::Bytes(bytes) => match bytes.clone() {
                Ok(shared) => PolledItem::Bytes(shared),
                Err(_) => PolledItem::Unshared(bytes.len() as u64),
            },
            InPiece::Shut(shut) => PolledItem::Shut(*shut),
        }
    }
}

/// What the next item of the lane is, if there is one.
fn poll<L: Lane<Item = InPiece>>(rx: &mut L::Out) -> Option<PolledItem>
    ensures name { L.out_name rx.new ≡ L.out_name rx.old }
    ensures got { MatchOption result
        ((L.got rx.new ≡ L.got rx.old) × (L.ahead rx.new ≡ []))
        (λ p. (item : InPiece) × (L.got rx.new ≡ L.got rx.old ++ item ∷ []) × IsPolled item p) }
{
    match L::poll(rx) {
        Some(item) => Some(item.share()),
        None => None,
    }
}

/// Reads the last item that was got once more.
fn poll_again<L: Lane<Item = InPiece>>(rx: &mut L::Out) -> Option<PolledItem>
    ensures name { L.out_name rx.new ≡ L.out_name rx.old }
    ensures got { L.got rx.new ≡ L.got rx.old }
    ensures item { IfSome result (λ p. (item : InPiece) × (last_of (L.got rx.old) ≡ Some item)
        × IsPolled item p) }
{
    match L::polled(rx) {
        Some(item) => Some(item.share()),
        None => None,
    }
}

/// Takes the messages of what was fed, and hears how the half was shut.
#[derive(Drop)]
pub struct Taker<L: Lane<Item = InPiece>> {
    pub(crate) rx: L::Out,
    pub(crate) progress: Progress,
}

impl<L: Lane<Item = InPiece>> Taker<L> {
    /// An end of this lane.
    pub(crate) fn new(alloc: Global, rx: L::Out) -> Taker<L>
        requires { L.got rx ≡ [] }
        ensures rx { result.rx ≡ rx }
        ensures took { TakesMessages [] result.progress [] }
        ensures owed { result.progress.owed ≡ 0 }
        ensures told { result.progress.told ≡ None }
    {
        let progress = Progress::new(alloc);
        Taker { rx, progress }
    }

    /// The next message, or what there is to be told. It answers `Nothing` only where it holds no
    /// whole message and no fault, no shut was polled, and nothing is known to be ahead.
    ///
    /// Once it has told the end, a reset or a fault of the bytes, it tells that again.
    /// `Fault(OutOfMemory)` loses nothing: it may be called again.
    pub fn take(&mut self) -> Taken
        ensures name { L.out_name self.new.rx ≡ L.out_name self.old.rx }
        // For all messages that were taken so far.
        ensures took { (messages : List (List ℕ))
            → TakesMessages (L.got self.old.rx) self.old.progress messages
            → TakesMessages (L.got self.new.rx) self.new.progress (grown messages result) }
        ensures tells { Tells result self.old.progress.told self.new.progress.told }
        ensures repeats { IfSome self.old.progress.told
            (λ t. (result ≡ telling t) × (self.new.progress ≡ self.old.progress)
            × (L.got self.new.rx ≡ L.got self.old.rx)) }
        ensures nothing { result ≡ taken.Nothing → IsUnfinished self.new.progress.splitter
            × (self.new.progress.shut ≡ None) × (self.new.progress.unread ≡ false)
            × (L.ahead self.new.rx ≡ []) }
        // It polls only where the bytes that it holds make no whole message and no fault, and no
        // shut was polled.
        ensures needed { (messages : List (List ℕ))
            → TakesMessages (L.got self.old.rx) self.old.progress messages
            → (items : List InPiece) × (L.got self.new.rx ≡ L.got self.old.rx ++ items)
            × EachNeeded (L.got self.old.rx) items messages }
        ensures owed { (items : List InPiece) × (L.got self.new.rx ≡ L.got self.old.rx ++ items)
            × (self.new.progress.owed ≡ min
            (self.old.progress.owed + length (bytes_of items)) 4294967295) }
    {
        let _owed = self.progress.owed;
        if let Some(told) = self.progress.told {
            return answer_of(told);
        }
        if self.progress.unread {
            self.read_again();
        }
        self.look()
    }

    /// Reads the piece that was polled last, if memory is there by now.
    fn read_again(&mut self)
        requires told { self.old.progress.told ≡ None }
        requires unread { self.old.progress.unread ≡ true }
        ensures name { L.out_name self.new.rx ≡ L.out_name self.old.rx }
        ensures got { L.got self.new.rx ≡ L.got self.old.rx }
        ensures took { (messages : List (List ℕ))
            → TakesMessages (L.got self.old.rx) self.old.progress messages
            → TakesMessages (L.got self.new.rx) self.new.progress messages }
        ensures told { self.new.progress.told ≡ None }
        ensures owed { self.new.progress.owed ≡ self.old.progress.owed }
    {
        if let Some(polled) = poll_again::<L>(&mut self.rx) {
            self.progress.accept_again(polled);
        }
    }

    /// The next message, or what there is to be told for the first time.
    fn look(&mut self) -> Taken
        requires { self.old.progress.told ≡ None }
        ensures name { L.out_name self.new.rx ≡ L.out_name self.old.rx }
        ensures took { (messages : List (List ℕ))
            → TakesMessages (L.got self.old.rx) self.old.progress messages
            → TakesMessages (L.got self.new.rx) self.new.progress (grown messages result) }
        ensures tells { Tells result None self.new.progress.told }
        ensures nothing { result ≡ taken.Nothing → IsUnfinished self.new.progress.splitter
            × (self.new.progress.shut ≡ None) × (self.new.progress.unread ≡ false)
            × (L.ahead self.new.rx ≡ []) }
        // It polls only where the bytes that it holds make no whole message and no fault, and no
        // shut was polled.
        ensures needed { (messages : List (List ℕ))
            → TakesMessages (L.got self.old.rx) self.old.progress messages
            → (items : List InPiece) × (L.got self.new.rx ≡ L.got self.old.rx ++ items)
            × EachNeeded (L.got self.old.rx) items messages }
        ensures owed { (items : List InPiece) × (L.got self.new.rx ≡ L.got self.old.rx ++ items)
            × (self.new.progress.owed ≡ min
            (self.old.progress.owed + length (bytes_of items)) 4294967295) }
    {
        let _owed = self.progress.owed;
        for _ in 0..u64::MAX {
            if let Some(answer) = self.progress.answer() {
                return answer;
            }
            match poll::<L>(&mut self.rx) {
                Some(polled) => self.progress.accept(polled),
                None => return Taken::Nothing,
            }
        }
        Taken::Fault(LpmFault::OutOfMemory)
    }

    /// How many bytes were polled since the last credit, or the greatest `u32` where they are more.
    pub fn credit(&mut self) -> u32
        ensures owed { result ≡ self.old.progress.owed }
        ensures none { self.new.progress ≡ record self.old.progress { owed = 0 } }
        ensures rx { self.new.rx ≡ self.old.rx }
    {
        let owed = self.progress.owed;
        self.progress.owed = 0;
        owed
    }

    /// How many messages were taken of this call, or the greatest `u64` where they are more.
    pub fn taken(&self) -> u64
        ensures { result ≡ self.now.progress.taken }
    {
        self.progress.taken
    }

    /// What was told after them.
    pub fn told(&self) -> Option<RequestEnd>
        ensures { result ≡ self.now.progress.told }
    {
        self.progress.told
    }
}
