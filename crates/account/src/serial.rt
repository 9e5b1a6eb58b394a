//! The serial core of a call.
//!
//! The module isn't named `replay`, since a module and an item beside it can't have one name.

ghost use Rattle.std.specs.Prelude.{◌≡◌, [], IfOk, IsTrue, OnOk};
ghost use Rattle.std.specs.Option.{option_copied};
ghost use Rattle.account.specs.Accounts.{IsLawful};
ghost use Rattle.account.specs.Runs.{after, may_follow, run};
ghost use Rattle.account.specs.declared.call.CallEvent.TheVariants as event;

use crate::call::{Account, CallEvent, OutItem, RequestEnd, Shut};
use crate::ending::told_behind;
use bytes::Bytes;
use lists::{Octets, Sequence};
use lpm::{LpmFault, Split, Splitter, is_frame_with};
use std::alloc::{AllocError, Global};

/// The account of a call to which these events happen, one after another.
///
/// Some events change nothing: a Feed or Shut once the half was shut; a Take once something was
/// told, or while there is nothing to take or tell; a Give that is out of place (a Head that isn't
/// first, a Message without a Head before it or that isn't one message with its prefix, anything
/// after Trailers or Left); a Send with nothing left to send. It takes time linear in the events
/// and their bytes.
pub fn replay(alloc: Global, events: &[CallEvent]) -> Result<Account, AllocError>
    ensures run { IfOk result (λ account. account ≡ run events.now) }
    ensures lawful { IfOk result IsLawful }
{
    let mut call = SerialCall::new(alloc);
    for event in events {
        call.step(event)?;
    }
    Ok(call.into_account())
}

/// A call whose events are replayed.
#[derive(Drop)]
struct SerialCall {
    /// The bytes that were fed.
    fed: Vec<u8>,
    /// The bytes that were fed, without those of the messages that were taken.
    splitter: Splitter,
    shut: Option<Shut>,
    taken: Vec<Bytes>,
    told: Option<RequestEnd>,
    given: Vec<OutItem>,
    sent: Vec<OutItem>,
}

impl SerialCall {
    ghost use Rattle.account.specs.SerialCalls.{account_of, IsConsistent};

    /// A call to which nothing happened yet.
    fn new(alloc: Global) -> SerialCall
        ensures opened { account_of result ≡ run [] }
        ensures consistent { IsConsistent result }
    {
        SerialCall {
            fed: Vec::new(alloc),
            splitter: Splitter::new(alloc),
            shut: None,
            taken: Vec::new(alloc),
            told: None,
            given: Vec::new(alloc),
            sent: Vec::new(alloc),
        }
    }

    /// Lets one more event happen.
    fn step(&mut self, event: &CallEvent) -> Result<(), AllocError>
        requires { IsConsistent self.old }
        ensures account { OnOk result
            (account_of self.new ≡ after (account_of self.old) event.now) }
        ensures consistent { OnOk result (IsConsistent self.new) }
    {
        match event {
            CallEvent::Feed(bytes) => self.feed(bytes),
            CallEvent::Shut(shut) => {
                self.shut(*shut);
                Ok(())
            }
            CallEvent::Take => self.take(),
            CallEvent::Give(item) => self.give(item),
            CallEvent::Send => self.send(),
        }
    }

    fn feed(&mut self, bytes: &Bytes) -> Result<(), AllocError>
        requires { IsConsistent self.old }
        ensures account { OnOk result
            (account_of self.new ≡ after (account_of self.old) (event.Feed bytes.now)) }
        ensures consistent { OnOk result (IsConsistent self.new) }
    {
        if self.shut.is_some() {
            return Ok(());
        }
        self.fed.extend_from_slice(bytes.as_slice())?;
        match self.splitter.push_shared(bytes.clone()?) {
            Ok(()) => Ok(()),
            Err(_fault) => Err(AllocError),
        }
    }

    fn shut(&mut self, shut: Shut)
        requires { IsConsistent self.old }
        ensures account { account_of self.new ≡ after (account_of self.old) (event.Shut shut) }
        ensures consistent { IsConsistent self.new }
    {
        if self.shut.is_none() {
            self.shut = Some(shut);
        }
    }

    fn take(&mut self) -> Result<(), AllocError>
        requires { IsConsistent self.old }
        ensures account { OnOk result
            (account_of self.new ≡ after (account_of self.old) event.Take) }
        ensures consistent { OnOk result (IsConsistent self.new) }
    {
        if self.told.is_some() {
            return Ok(());
        }
        match self.splitter.next() {
            Split::Message(message) => {
                self.taken.push(message)?;
            }
            Split::More => {
                self.told = told_behind(&self.splitter, self.shut);
            }
            Split::Fault(fault) => match fault {
                LpmFault::OutOfMemory => return Err(AllocError),
                _ => self.told = Some(RequestEnd::Fault(fault)),
            },
        }
        Ok(())
    }

    fn give(&mut self, item: &OutItem) -> Result<(), AllocError>
        requires { IsConsistent self.old }
        ensures account { OnOk result
            (account_of self.new ≡ after (account_of self.old) (event.Give item.now)) }
        ensures consistent { OnOk result (IsConsistent self.new) }
    {
        if may_follow(self.given.last(), item) {
            self.given.push(item.copy()?)?;
        }
        Ok(())
    }

    fn send(&mut self) -> Result<(), AllocError>
        requires { IsConsistent self.old }
        ensures account { OnOk result
            (account_of self.new ≡ after (account_of self.old) event.Send) }
        ensures consistent { OnOk result (IsConsistent self.new) }
    {
        if let Some(item) = self.given.get(self.sent.len()) {
            self.sent.push(item.copy()?)?;
        }
        Ok(())
    }

    /// The account, with no memory taken.
    fn into_account(self) -> Account
        requires { IsConsistent self }
        ensures account { result ≡ account_of self }
        ensures lawful { IsLawful result }
    {
        let SerialCall {
            fed,
            splitter: _,
            shut,
            taken,
            told,
            given,
            sent,
        } = self;
        Account {
            fed: Octets::from(fed),
            shut,
            taken: Sequence::from(taken),
            told,
            given: Sequence::from(given),
            sent: Sequence::from(sent),
        }
    }
}

ghost use Rattle.account.specs.SerialCalls.{IsFramed};

/// Whether an item may be given after the last one.
fn may_follow(last: Option<&OutItem>, item: &OutItem) -> bool
    ensures computed { result ≡ may_follow (option_copied last.entry) item.now }
    ensures framed { IsTrue result → IsFramed item.now }
{
    match (last, item) {
        (None, OutItem::Head(_) | OutItem::Trailers(_) | OutItem::Left) => true,
        (None, OutItem::Message(_))
        | (Some(OutItem::Trailers(_) | OutItem::Left), _)
        | (Some(_), OutItem::Head(_)) => false,
        (Some(_), OutItem::Message(message)) => {
            let (front, zeros) = message.parts();
            is_frame_with(front, zeros)
        }
        (Some(_), OutItem::Trailers(_) | OutItem::Left) => true,
    }
}
