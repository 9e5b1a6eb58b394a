//! An open stream, and what its call's sender has for it.

ghost use Rattle.std.specs.Prelude.{◌≡◌, [], ◌∷◌, ◌++◌, min, None, Some, is_some, IfOk, OnErr};
ghost use Rattle.hpack_codec.specs.Codec.{Writes};
ghost use Rattle.outwriter.specs.Polls.{Polls, coming};
ghost use Rattle.outwriter.specs.Cores.{calls, lanes};
ghost use Rattle.outwriter.specs.StreamLooks.{aheads, TakesHand, SameElsewhere};
ghost use Rattle.outwriter.specs.Data.{CutsData, LooksAtOpen, Spends};
ghost use Rattle.outwriter.specs.States.{room_in};
ghost use Rattle.outwriter.specs.OpenStreams.{kept as kept_of, shown, stream_at, with_place};
ghost use Rattle.account.specs.declared.call.OutItem.{OutItem};

use crate::frames::make_data;
use crate::out_frame::OutFrame;
use account::OutItem;
use bytes::Bytes;
use callbox::Sender;
use h2frame::{MAX_PAYLOAD, StreamId};
use hpack_codec::Encoder;
use lane::Lane;
use lists::Field;
use sendwindows::{Balance, ConnectionWindow};
use std::alloc::{AllocError, Global};
use std::marker::Model;
use zeros::ZeroTail;

/// A stream whose items are written.
#[derive(Drop)]
struct OpenStream {
    /// The place of its sender among those of all calls.
    place: usize,
    /// The rest of the message that was begun.
    in_hand: Option<ZeroTail>,
    /// Whether it is in the queue of the streams that take turns.
    in_turn: bool,
}

/// An open stream, in a box of its own, so that a stream that is over takes less memory.
#[derive(Drop)]
pub(crate) struct BoxedStream {
    stream: Box<OpenStream>,
}

impl Model for BoxedStream {
    ghost use Rattle.outwriter.specs.declared.stream.OpenStream.{OpenStream};

    ghost Value = { OpenStream };

    ghost view = { λ opened. opened.stream.value };
}

impl BoxedStream {
    /// A stream whose sender is at this place, with nothing in hand.
    pub(crate) fn new(alloc: Global, place: usize) -> Result<BoxedStream, AllocError>
        ensures { IfOk result (λ opened. opened ≡ stream_at place) }
    {
        let stream = OpenStream {
            place,
            in_hand: None,
            in_turn: false,
        };
        Ok(BoxedStream {
            stream: Box::new(alloc, stream)?,
        })
    }

    /// Whether an item is in hand.
    pub(crate) fn has_hand(&self) -> bool
        ensures { result ≡ is_some self.now.in_hand }
    {
        self.stream.in_hand.is_some()
    }

    /// Whether it is in the queue of the streams that take turns.
    pub(crate) fn is_in_turn(&self) -> bool
        ensures { result ≡ self.now.in_turn }
    {
        self.stream.in_turn
    }

    /// Lets it take turns from now on, or none.
    pub(crate) fn turn(&mut self, in_turn: bool)
        ensures { self.new ≡ record self.old { in_turn = in_turn } }
    {
        self.stream.in_turn = in_turn;
    }

    /// Keeps the rest of the message in hand.
    pub(crate) fn keep(&mut self, rest: ZeroTail)
        ensures { self.new ≡ record self.old { in_hand = kept_of rest } }
    {
        self.stream.in_hand = kept(rest);
    }

    /// Moves the place of its sender, if that was `from`.
    pub(crate) fn move_place(&mut self, from: usize, to: usize)
        ensures { shown (Some self.new) ≡ with_place from to (shown (Some self.old)) }
    {
        if self.stream.place == from {
            self.stream.place = to;
        }
    }

    /// Looks at the message in hand, if there is one. DATA of it are taken out of it, out of the
    /// connection's window and out of its own, whose balance this is.
    pub(crate) fn look(
        &mut self,
        id: StreamId,
        window: &mut ConnectionWindow,
        balance: &mut Option<Balance>,
    ) -> Result<MessageInHand, AllocError>
        ensures { IfOk result
            (LooksAtOpen id self.old self.new window.old window.new balance.old balance.new) }
    {
        let Some(mut rest) = self.stream.in_hand.take() else {
            return Ok(MessageInHand::Empty(self.stream.place));
        };
        let looked = next_data(window, balance, id, &mut rest)?;
        self.keep(rest);
        Ok(MessageInHand::Message(looked))
    }
}

/// What is in hand of a message with this rest.
pub(crate) fn kept(rest: ZeroTail) -> Option<ZeroTail>
    ensures { result ≡ kept_of rest }
{
    if rest.is_empty() { None } else { Some(rest) }
}

/// What a look at the message in hand of a stream finds.
#[derive(Drop)]
pub(crate) enum MessageInHand {
    /// The stream isn't open, or nothing may be written on it.
    Shut,
    /// Nothing is in hand. The stream's sender is at this place.
    Empty(usize),
    /// What may be written of the message in hand.
    Message(NextData),
}

/// What a stream's sender has next.
#[derive(Drop)]
pub(crate) enum SenderItem {
    Nothing,
    /// The bytes of a message.
    Message(ZeroTail),
    /// A header block, and whether it ends the stream.
    Block { bytes: Bytes, ends: bool },
}

/// What is next on a stream.
#[derive(Drop)]
pub(crate) enum NextItem {
    /// Nothing may be written.
    Nothing,
    /// What may be written of a message.
    Message(NextData),
    /// A header block, and whether it ends the stream. If so, the stream is closed now.
    Block { bytes: Bytes, ends: bool },
}

/// What a look at an open stream finds.
#[derive(Drop)]
pub(crate) enum NextData {
    Frame(OutFrame),
    Nothing,
    /// A message without bytes, which has no frame.
    Empty,
}

/// The next DATA of a message, as far as the connection's window and the stream's let it through,
/// whose balance this is. They are taken out of the message and out of both windows.
pub(crate) fn next_data(
    window: &mut ConnectionWindow,
    balance: &mut Option<Balance>,
    id: StreamId,
    message: &mut ZeroTail,
) -> Result<NextData, AllocError>
    ensures { IfOk result
        (CutsData id window.old window.new balance.old balance.new message.old message.new) }
{
    if message.is_empty() {
        return Ok(NextData::Empty);
    }
    let most = message.len().min(MAX_PAYLOAD as usize) as u32;
    let len = spend_up_to(window, balance, most);
    if len == 0 {
        return Ok(NextData::Nothing);
    }
    let piece = message.split_to(len as usize)?;
    Ok(NextData::Frame(make_data(id, piece)))
}

/// Takes as many bytes as may be sent now, and at most `most`, out of both windows. Answers how
/// many these are: none if the stream's window isn't open.
fn spend_up_to(window: &mut ConnectionWindow, balance: &mut Option<Balance>, most: u32) -> u32
    ensures spends { Spends window.old window.new balance.old balance.new result }
    ensures value { result ≡ min (room_in window.old balance.old) most }
{
    match balance {
        Some(balance) => window.spend_up_to(balance, most),
        None => 0,
    }
}

/// The next item of the sender at a place, if there is one.
pub(crate) fn poll_at<L: Lane<Item = OutItem>>(
    senders: &mut Vec<(StreamId, Sender<L>)>,
    encoder: &mut Encoder,
    place: usize,
) -> Result<SenderItem, AllocError>
    ensures takes { TakesHand None place (calls L.got senders.old.items)
        (calls L.got senders.new.items)
        (aheads (coming L.got L.ahead) senders.new.items) encoder.old encoder.new result }
    ensures ahead { SameElsewhere place (aheads (coming L.got L.ahead) senders.old.items)
        (aheads (coming L.got L.ahead) senders.new.items) }
    ensures senders { lanes L.out_name senders.new.items
        ≡ lanes L.out_name senders.old.items }
{
    match senders.get_mut(place) {
        Some(call) => poll(&mut call.1, encoder),
        None => Ok(SenderItem::Nothing),
    }
}

/// The next item of a sender. The bytes of a message are shared, and fields are encoded. That the
/// call was left is nothing to write.
pub(crate) fn poll<L: Lane<Item = OutItem>>(
    sender: &mut Sender<L>,
    encoder: &mut Encoder,
) -> Result<SenderItem, AllocError>
    ensures name { L.out_name sender.new.rx ≡ L.out_name sender.old.rx }
    ensures id { sender.new.id ≡ sender.old.id }
    ensures ok { IfOk result
        (Polls (L.got sender.old.rx) (L.got sender.new.rx)
        (coming L.got L.ahead sender.new.rx) encoder.old encoder.new) }
    // An item was got, even without memory.
    ensures memory { OnErr result ((item : OutItem)
        × (L.got sender.new.rx ≡ L.got sender.old.rx ++ item ∷ [])) }
{
    match sender.next() {
        None => Ok(SenderItem::Nothing),
        Some(OutItem::Left) => Ok(SenderItem::Nothing),
        Some(OutItem::Message(bytes)) => Ok(SenderItem::Message(bytes.clone()?)),
        Some(OutItem::Head(fields)) => {
            let bytes = encoded(encoder, fields.as_slice())?;
            Ok(SenderItem::Block { bytes, ends: false })
        }
        Some(OutItem::Trailers(fields)) => {
            let bytes = encoded(encoder, fields.as_slice())?;
            Ok(SenderItem::Block { bytes, ends: true })
        }
    }
}

/// A header block of these fields. One with a name or a value of more than 4,294,967,295 bytes
/// can't be written, and counts as want of memory.
pub(crate) fn encoded(encoder: &mut Encoder, fields: &[Field]) -> Result<Bytes, AllocError>
    ensures { IfOk result (λ bytes. Writes encoder.old fields.now bytes encoder.new) }
{
    match encoder.block(fields) {
        Ok(block) => Ok(Bytes::from_vec(block)?),
        Err(_fault) => Err(AllocError),
    }
}
