//! The end of a call that gives what goes out.
//!
//! A giver keeps a message until the lane has taken its frame. So each refusal hands the message
//! back, also one for want of memory for the frame. Bytes that have their prefix, and a head, come
//! back out of the item.
//!
//! A ghost field says that what was given is a response; no code tests it. There is at most one
//! proof of it (`specs/OutSides.antt`), as a struct's facts need.

ghost use Rattle.std.specs.Prelude.{
  ◌≡◌,
  ◌+◌,
  ◌<◌,
  ◌≤◌,
  ◌&&◌,
  true,
  false,
  [],
  ◌∷◌,
  ◌++◌,
  length,
  IfErr,
  IfOk,
  OnErr,
  OnOk,
  MatchBool,
};
ghost use Rattle.lane.specs.PutFault.{item_of, MayRefuse};
ghost use Rattle.lpm.specs.Messages.{frame, IsFrame};
ghost use Rattle.account.specs.Accounts.{IsResponse};
ghost use Rattle.callbox.specs.OutSides.{
  has_end,
  has_head,
  has_trailers,
  is_head,
  is_message,
  IsResponse-prop,
  MayRefuseMessage,
  RefusesFramed,
};
ghost use Rattle.account.specs.declared.call.OutItem.TheVariants as out_item;

use account::OutItem;
use bytes::Bytes;
use lane::{Lane, PutFault};
use lists::{Field, Sequence};
use lpm::{is_frame_with, write_message};
use std::alloc::{AllocError, Global};
use zeros::ZeroTail;

/// Why something was not given: 1 Full, 3 OutOfMemory or 4 NotTaken. What was passed comes back.
pub type GiveFault<T> = PutFault<T>;

/// Why bytes that have their prefix were not given. They come back.
#[derive(Debug, Drop)]
pub enum FramedFault {
    /// They aren't one message with its prefix.
    NotAFrame(ZeroTail),
    /// They are one, and the lane refused them for this.
    Refused(GiveFault<ZeroTail>),
}

/// Gives the items of a call's response, up to the trailers, or until the call is left without
/// them.
#[derive(Drop)]
pub struct Giver<L: Lane<Item = OutItem>> {
    pub(crate) tx: L::In,
    /// Whether the head was given.
    pub(crate) begun: bool,
    pub(crate) alloc: Global,
    ghost begins: { begun ≡ has_head (L.put_in tx) },
    ghost response: { IsResponse (L.put_in tx) } by { IsResponse-prop (L.put_in tx) },
    ghost unshut: { has_end (L.put_in tx) ≡ false },
}

/// What is left of a `Giver` once the trailers were given, or the call was left.
#[derive(Drop)]
pub struct GivenShut<L: Lane<Item = OutItem>> {
    pub(crate) shut: L::Shut,
    /// Whether the last item is the trailers.
    pub(crate) answered: bool,
    ghost response: { IsResponse (L.put_shut shut) } by { IsResponse-prop (L.put_shut shut) },
    ghost closed: { has_trailers (L.put_shut shut) ≡ (answered && L.was_placed shut) },
}

impl<L: Lane<Item = OutItem>> Giver<L> {
    /// An end of this lane.
    pub(crate) fn new(alloc: Global, tx: L::In) -> Giver<L>
        requires { L.put_in tx ≡ [] }
        ensures { result.tx ≡ tx }
    {
        Giver {
            tx,
            begun: false,
            alloc,
        }
    }

    /// Whether the head was given.
    pub fn has_head(&self) -> bool
        ensures head { result ≡ has_head (L.put_in self.now.tx) }
        ensures none { result ≡ false → L.put_in self.now.tx ≡ [] }
    {
        self.begun
    }

    /// Gives the head of the response, or hands the fields back and changes nothing.
    pub fn head(&mut self, fields: Sequence<Field>) -> Result<(), GiveFault<Sequence<Field>>>
        requires first { L.put_in self.old.tx ≡ [] }
        ensures name { L.in_name self.new.tx ≡ L.in_name self.old.tx }
        ensures ok { OnOk result (L.put_in self.new.tx
            ≡ L.put_in self.old.tx ++ out_item.Head fields ∷ []) }
        ensures unchanged { OnErr result (L.put_in self.new.tx ≡ L.put_in self.old.tx) }
        ensures handed_back { IfErr result (λ e. item_of e ≡ fields) }
        ensures fault { IfErr result
            (MayRefuse L.WantsMemory L.MayMiss (L.room_of (L.in_name self.old.tx))
            (length (L.put_in self.old.tx)) (L.seen_taken self.new.tx)) }
    {
        match L::put(&mut self.tx, OutItem::Head(fields)) {
            Ok(()) => {
                self.begun = true;
                Ok(())
            }
            Err(PutFault::Full { item, waiting }) => Err(PutFault::Full {
                item: into_head(item),
                waiting,
            }),
            Err(PutFault::OutOfMemory(item)) => Err(PutFault::OutOfMemory(into_head(item))),
            Err(PutFault::NotTaken(item)) => Err(PutFault::NotTaken(into_head(item))),
        }
    }

    /// Whether there is room for a head or a message; `Err` has how many of the given items this
    /// end hadn't seen sent when it looked. After `Ok` the next `head`, `give` or `give_framed`
    /// isn't `Full`. It takes no memory.
    pub fn check_room(&mut self) -> Result<(), u64>
        ensures name { L.in_name self.new.tx ≡ L.in_name self.old.tx }
        ensures seen { L.seen_taken self.old.tx ≤ L.seen_taken self.new.tx }
        ensures unchanged { L.put_in self.new.tx ≡ L.put_in self.old.tx }
        ensures room { OnOk result (length (L.put_in self.new.tx)
            < L.room_of (L.in_name self.new.tx) + L.seen_taken self.new.tx) }
        ensures full { IfErr result
            (λ waiting. (waiting + L.seen_taken self.new.tx ≡ length (L.put_in self.new.tx))
            × (L.room_of (L.in_name self.new.tx) ≤ waiting)) }
    {
        L::check_room(&mut self.tx)
    }

    /// Gives a message with its prefix, or hands the message back and changes nothing.
    ///
    /// The bytes of the message are copied once, after the prefix, and only where there is room.
    pub fn give(&mut self, message: Bytes) -> Result<(), GiveFault<Bytes>>
        requires head { has_head (L.put_in self.old.tx) ≡ true }
        requires len { length message ≤ 4194304 }
        ensures name { L.in_name self.new.tx ≡ L.in_name self.old.tx }
        ensures ok { OnOk result (L.put_in self.new.tx
            ≡ L.put_in self.old.tx ++ out_item.Message (frame message) ∷ []) }
        ensures unchanged { OnErr result (L.put_in self.new.tx ≡ L.put_in self.old.tx) }
        ensures handed_back { IfErr result (λ e. item_of e ≡ message) }
        ensures fault { IfErr result
            (MayRefuseMessage L.MayMiss (L.room_of (L.in_name self.old.tx))
            (length (L.put_in self.old.tx)) (L.seen_taken self.new.tx)) }
    {
        if let Err(waiting) = self.check_room() {
            return Err(PutFault::Full {
                item: message,
                waiting,
            });
        }
        let Ok(framed) = framed(self.alloc, message.as_slice()) else {
            return Err(PutFault::OutOfMemory(message));
        };
        match self.put_frame(ZeroTail::from(framed)) {
            Ok(()) => Ok(()),
            Err(PutFault::Full { item: _, waiting }) => Err(PutFault::Full {
                item: message,
                waiting,
            }),
            Err(PutFault::OutOfMemory(_)) => Err(PutFault::OutOfMemory(message)),
            Err(PutFault::NotTaken(_)) => Err(PutFault::NotTaken(message)),
        }
    }

    /// Gives one message whose prefix stands before it already, or hands the bytes back and changes
    /// nothing.
    ///
    /// The bytes are shared, and nothing is copied. It takes constant time.
    pub fn give_framed(&mut self, framed: ZeroTail) -> Result<(), FramedFault>
        requires { has_head (L.put_in self.old.tx) ≡ true }
        ensures name { L.in_name self.new.tx ≡ L.in_name self.old.tx }
        ensures frame { OnOk result (IsFrame framed) }
        ensures ok { OnOk result (L.put_in self.new.tx
            ≡ L.put_in self.old.tx ++ out_item.Message framed ∷ []) }
        ensures unchanged { OnErr result (L.put_in self.new.tx ≡ L.put_in self.old.tx) }
        ensures fault { IfErr result
            (RefusesFramed L.WantsMemory L.MayMiss (L.room_of (L.in_name self.old.tx))
            (length (L.put_in self.old.tx)) (L.seen_taken self.new.tx) framed) }
    {
        let (front, zeros) = framed.parts();
        if !is_frame_with(front, zeros) {
            return Err(FramedFault::NotAFrame(framed));
        }
        match self.put_frame(framed) {
            Ok(()) => Ok(()),
            Err(fault) => Err(FramedFault::Refused(fault)),
        }
    }

    /// Gives one message with its prefix, or hands it back and changes nothing.
    fn put_frame(&mut self, framed: ZeroTail) -> Result<(), GiveFault<ZeroTail>>
        requires head { has_head (L.put_in self.old.tx) ≡ true }
        requires frame { IsFrame framed }
        ensures name { L.in_name self.new.tx ≡ L.in_name self.old.tx }
        ensures ok { OnOk result (L.put_in self.new.tx
            ≡ L.put_in self.old.tx ++ out_item.Message framed ∷ []) }
        ensures unchanged { OnErr result (L.put_in self.new.tx ≡ L.put_in self.old.tx) }
        ensures handed_back { IfErr result (λ e. item_of e ≡ framed) }
        ensures fault { IfErr result
            (MayRefuse L.WantsMemory L.MayMiss (L.room_of (L.in_name self.old.tx))
            (length (L.put_in self.old.tx)) (L.seen_taken self.new.tx)) }
    {
        match L::put(&mut self.tx, OutItem::Message(framed)) {
            Ok(()) => Ok(()),
            Err(PutFault::Full { item, waiting }) => Err(PutFault::Full {
                item: into_frame(item),
                waiting,
            }),
            Err(PutFault::OutOfMemory(item)) => Err(PutFault::OutOfMemory(into_frame(item))),
            Err(PutFault::NotTaken(item)) => Err(PutFault::NotTaken(into_frame(item))),
        }
    }

    /// Gives the trailers, if `placed` says so after it. It takes no memory.
    pub fn trailers(self, fields: Sequence<Field>) -> GivenShut<L>
        ensures name { L.shut_name result.shut ≡ L.in_name self.tx }
        ensures put { MatchBool (L.was_placed result.shut)
            (L.put_shut result.shut ≡ L.put_in self.tx ++ out_item.Trailers fields ∷ [])
            (L.put_shut result.shut ≡ L.put_in self.tx) }
    {
        let Giver { tx, .. } = self;
        let shut = L::last(tx, OutItem::Trailers(fields));
        GivenShut {
            shut,
            answered: true,
        }
    }

    /// Leaves the call without trailers, if `placed` says so after it. It takes no memory.
    ///
    /// Nothing is sent for it. It is for a call that needs no answer any more, such as one that was
    /// reset.
    pub fn leave(self) -> GivenShut<L>
        ensures name { L.shut_name result.shut ≡ L.in_name self.tx }
        ensures put { MatchBool (L.was_placed result.shut)
            (L.put_shut result.shut ≡ L.put_in self.tx ++ out_item.Left ∷ [])
            (L.put_shut result.shut ≡ L.put_in self.tx) }
    {
        let shut = L::last(self.tx, OutItem::Left);
        GivenShut {
            shut,
            answered: false,
        }
    }
}

impl<L: Lane<Item = OutItem>> GivenShut<L> {
    /// Whether the trailers, or that the call was left, were put after the other items.
    pub fn placed(&self) -> bool
        ensures { result ≡ L.was_placed self.now.shut }
    {
        L::placed(&self.shut)
    }

    /// Whether trailers were given.
    pub fn has_trailers(&self) -> bool
        ensures { result ≡ has_trailers (L.put_shut self.now.shut) }
    {
        self.answered && self.placed()
    }
}

/// The fields of a head.
fn into_head(item: OutItem) -> Sequence<Field>
    requires { is_head item ≡ true }
    ensures { item ≡ out_item.Head result }
{
    match item {
        OutItem::Head(fields) => fields,
        OutItem::Message(_) | OutItem::Trailers(_) | OutItem::Left => unreachable!(),
    }
}

/// The bytes of a message with its prefix.
fn into_frame(item: OutItem) -> ZeroTail
    requires { is_message item ≡ true }
    ensures { item ≡ out_item.Message result }
{
    match item {
        OutItem::Message(message) => message,
        OutItem::Head(_) | OutItem::Trailers(_) | OutItem::Left => unreachable!(),
    }
}

/// The message with its prefix.
fn framed(alloc: Global, message: &[u8]) -> Result<Bytes, AllocError>
    requires { length message.now ≤ 4194304 }
    ensures { IfOk result (λ bytes. bytes ≡ frame message.now) }
{
    let mut bytes = Vec::new(alloc);
    match write_message(message, &mut bytes) {
        Ok(()) => Ok(Bytes::from_vec(bytes)?),
        Err(_fault) => Err(AllocError),
    }
}
