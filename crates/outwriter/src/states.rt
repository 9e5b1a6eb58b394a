//! The state of each stream of which something was heard or on which something was written (RFC
//! 9113, section 5.1), the credit that is owed to the peer, and the windows of what is sent
//! (section 6.9).

ghost use Rattle.std.specs.Prelude.{
  ◌≡◌,
  ◌<◌,
  ◌^◌,
  pos,
  ◌&&◌,
  if◌then◌else◌,
  List,
  [],
  ◌∷◌,
  None,
  Some,
  not,
  is_some,
  IfSome,
  IfOk,
  OnOk,
  OnErr,
};
ghost use Rattle.sendwindows.specs.WindowHistory.{
  CanCredit,
  CanResize,
  Closing,
  Credit,
  Follows,
  Resizing,
};
ghost use Rattle.sendwindows.specs.WindowHistory.{Step as WindowStep};
ghost use Rattle.sendwindows.specs.Windows.{CreditFault, Meets, room};
ghost use Rattle.outwriter.specs.States.{
  nothing_known,
  open_at,
  pays,
  state_on,
  amount_of,
  by_reset,
  is_heard,
  can_write,
  balance_after as balance_after_of,
  fits_with,
  room_in,
  steps_of,
  CreditsStream,
  IsAfter,
  PutsAfter,
  Hears,
  Opens,
  BecomesOpen,
  Grants,
  Moves,
  Resets,
  SameButWindows,
  SameEnds,
  SameOver,
  SameOwed,
  SameOpen,
  StandAs,
  SetsEnd,
  TakesAll,
  opening,
};
ghost use Rattle.outwriter.specs.Resizes.{FitsOn};
ghost use Rattle.outwriter.specs.Cores.{calls, lanes};
ghost use Rattle.outwriter.specs.Data.{BeginsOnStream, LooksAtStream};
ghost use Rattle.outwriter.specs.NextOn.{
  EndsStream,
  GetsOne,
  NextOnStream,
  TakesNext,
  TakesUpStream,
};
ghost use Rattle.outwriter.specs.Polls.{coming};
ghost use Rattle.outwriter.specs.OpenStreams.{
  Closes,
  PlaceIs,
  SameHands,
  has_hand,
  kept as kept_of,
  shown,
  stream_at,
  with_hand,
  with_place,
};

mod entries;

use crate::stream::{
    BoxedStream, MessageInHand, NextData, NextItem, SenderItem, next_data, poll_at,
};
use crate::stream_state::{Change, Over, StreamState};
use account::OutItem;
use callbox::Sender;
use entries::{
    add, all_fit, bring_forward, change_of, close_of, close_window_of, credit_of, move_place_of,
    next_at, sum, take_last, turn_of,
};
use h2frame::StreamId;
use hpack_codec::Encoder;
use indexmap::IndexMap;
use lane::Lane;
use limits::MAX_WINDOW;
use sendwindows::{Balance, ConnectionWindow, WindowFault};
use std::alloc::{AllocError, Global};
use std::marker::Model;
use zeros::ZeroTail;

/// What is kept of a stream.
#[derive(Drop)]
pub(crate) struct Stream {
    state: StreamState,
    /// What is to be written on it, while it is open.
    opened: Option<BoxedStream>,
    /// The balance of its window, while the window is open.
    balance: Option<Balance>,
}

impl Stream {
    /// Changes its state. An Open opens its window, unless that is open, or the stream is over or
    /// was reset. A reset and the stream's end close the window.
    fn change(&mut self, change: Change)
        ensures opened { self.new.opened ≡ self.old.opened }
        ensures state { IsAfter change self.old.state self.new.state }
        ensures balance { self.new.balance
            ≡ balance_after_of change self.old.state self.old.balance }
    {
        self.balance = balance_after(change, self.state, self.balance);
        self.state = self.state.after(change);
    }

    /// Adds the peer's credit to its window.
    fn credit(&mut self, window: &ConnectionWindow, increment: u32) -> Result<(), WindowFault>
        ensures state { self.new.state ≡ self.old.state }
        ensures opened { self.new.opened ≡ self.old.opened }
        ensures credits { CreditsStream window.now self.old.balance self.new.balance increment
            result }
    {
        match &mut self.balance {
            Some(balance) => window.credit_stream(balance, increment),
            None => Err(WindowFault::Unknown),
        }
    }

    /// How many bytes of DATA may be sent on it now.
    fn room(&self, window: &ConnectionWindow) -> u32
        ensures { result ≡ room_in window.now self.now.balance }
    {
        match self.balance {
            Some(balance) => window.room(balance),
            None => 0,
        }
    }

    /// Whether its window with this initial size is at most 2^31 - 1 bytes, if it is open.
    fn fits(&self, size: u32) -> bool
        ensures { result ≡ fits_with size self.now.balance }
    {
        match self.balance {
            Some(balance) => balance.fits(size),
            None => true,
        }
    }

    /// What is next on it, if something may be written on it: DATA of the message in hand, or else
    /// what its sender has.
    fn next<L: Lane<Item = OutItem>>(
        &mut self,
        id: StreamId,
        window: &mut ConnectionWindow,
        senders: &mut Vec<(StreamId, Sender<L>)>,
        encoder: &mut Encoder,
    ) -> Result<NextItem, AllocError>
        ensures amount { amount_of self.new.state ≡ amount_of self.old.state }
        ensures next { IfOk result
            (NextOnStream L.got (coming L.got L.ahead) id self.old self.new window.old
            window.new senders.old.items senders.new.items encoder.old encoder.new) }
        ensures got { GetsOne (calls L.got senders.old.items) (calls L.got senders.new.items) }
        ensures senders { lanes L.out_name senders.new.items
            ≡ lanes L.out_name senders.old.items }
    {
        let place = match self.look(id, window)? {
            MessageInHand::Shut => return Ok(NextItem::Nothing),
            MessageInHand::Message(looked) => return Ok(NextItem::Message(looked)),
            MessageInHand::Empty(place) => place,
        };
        let polled = poll_at(senders, encoder, place)?;
        self.take_up(id, window, polled)
    }

    /// Looks at what is in hand, if something may be written on it.
    fn look(
        &mut self,
        id: StreamId,
        window: &mut ConnectionWindow,
    ) -> Result<MessageInHand, AllocError>
        ensures state { self.new.state ≡ self.old.state }
        ensures looks { IfOk result (LooksAtStream id self.old self.new window.old window.new) }
    {
        if !self.state.can_write() {
            return Ok(MessageInHand::Shut);
        }
        match &mut self.opened {
            Some(stream) => stream.look(id, window, &mut self.balance),
            None => Ok(MessageInHand::Shut),
        }
    }

    /// What is written of what its sender had: the first DATA of a message, or a whole header
    /// block.
    fn take_up(
        &mut self,
        id: StreamId,
        window: &mut ConnectionWindow,
        polled: SenderItem,
    ) -> Result<NextItem, AllocError>
        ensures amount { amount_of self.new.state ≡ amount_of self.old.state }
        ensures takes { IfOk result
            (TakesUpStream id self.old self.new window.old window.new polled) }
    {
        match polled {
            SenderItem::Nothing => Ok(NextItem::Nothing),
            SenderItem::Message(bytes) => Ok(NextItem::Message(self.begin(id, window, bytes)?)),
            SenderItem::Block { bytes, ends } => {
                self.end_if(ends);
                Ok(NextItem::Block { bytes, ends })
            }
        }
    }

    /// If END_STREAM is written on it, it isn't open any more, and its window closes.
    fn end_if(&mut self, ends: bool)
        ensures { EndsStream ends self.old self.new }
    {
        if ends {
            self.opened = None;
            self.change(Change::End(Over::EndStream));
        }
    }

    /// The first DATA of a message. The rest of the message stays in hand, if the stream is open.
    fn begin(
        &mut self,
        id: StreamId,
        window: &mut ConnectionWindow,
        message: ZeroTail,
    ) -> Result<NextData, AllocError>
        ensures state { self.new.state ≡ self.old.state }
        ensures begins { IfOk result
            (BeginsOnStream id self.old self.new window.old window.new message) }
    {
        let mut rest = message;
        let looked = next_data(window, &mut self.balance, id, &mut rest)?;
        self.keep(rest);
        Ok(looked)
    }

    /// Keeps the rest of a message in hand, if the stream is open.
    fn keep(&mut self, rest: ZeroTail)
        ensures state { self.new.state ≡ self.old.state }
        ensures balance { self.new.balance ≡ self.old.balance }
        ensures hand { shown self.new.opened ≡ with_hand (kept_of rest) (shown self.old.opened) }
    {
        if let Some(stream) = &mut self.opened {
            stream.keep(rest);
        }
    }

    /// Lets it take turns from now on, or none, if it is open. Answers whether it is open.
    fn turn(&mut self, in_turn: bool) -> bool
        ensures state { self.new.state ≡ self.old.state }
        ensures balance { self.new.balance ≡ self.old.balance }
        ensures hand { shown self.new.opened ≡ shown self.old.opened }
    {
        match &mut self.opened {
            Some(stream) => {
                stream.turn(in_turn);
                true
            }
            None => false,
        }
    }

    /// Moves the place of its sender, if it is open and its sender was at `from`.
    fn move_place(&mut self, from: usize, to: usize)
        ensures state { self.new.state ≡ self.old.state }
        ensures balance { self.new.balance ≡ self.old.balance }
        ensures place { shown self.new.opened ≡ with_place from to (shown self.old.opened) }
    {
        if let Some(stream) = &mut self.opened {
            stream.move_place(from, to);
        }
    }
}

/// The balance of a stream's window after a change, if the window is open.
fn balance_after(change: Change, state: StreamState, balance: Option<Balance>) -> Option<Balance>
    ensures { result ≡ balance_after_of change state balance }
{
    match change {
        Change::Open => opened(state, balance),
        Change::Hear => balance,
        Change::Reset => None,
        Change::End(_by) => None,
    }
}

/// The balance of a stream's window after an Open, if the window is open.
fn opened(state: StreamState, balance: Option<Balance>) -> Option<Balance>
    ensures { result
        ≡ (if can_write state && not (is_some balance) then Some (pos 0) else balance) }
{
    if state.can_write() && balance.is_none() {
        return Some(Balance::new());
    }
    balance
}

/// The streams of a connection with their windows, and the bytes to be credited to the peer on the
/// connection itself.
#[derive(Drop)]
pub(crate) struct StreamStates {
    connection: u32,
    streams: IndexMap<StreamId, Stream>,
    /// Nothing is owed on the streams from here on.
    owing: usize,
    /// What the windows of all streams share.
    window: ConnectionWindow,
}

impl Model for StreamStates {
    ghost use Rattle.outwriter.specs.States.{States, IsWithin, states_of};

    ghost Value = { States };

    ghost view = { λ c. states_of c.connection c.window c.streams.entries };

    ghost invariant = { λ c. IsWithin c.connection c.streams.entries c.owing };
}

impl StreamStates {
    /// Nothing was heard of any stream. It takes no memory yet.
    pub(crate) fn new(alloc: Global) -> StreamStates
        ensures { result ≡ nothing_known }
    {
        StreamStates {
            connection: 0,
            streams: IndexMap::new(alloc),
            owing: 0,
            window: ConnectionWindow::new(),
        }
    }

    /// The state of a stream. One of which nothing was heard is no call's.
    pub(crate) fn state(&self, id: StreamId) -> StreamState
        ensures { result ≡ state_on self.now id }
    {
        match self.streams.get(&id) {
            Some(stream) => stream.state,
            None => StreamState::NoCall { over: None },
        }
    }

    /// Whether something was heard of a stream, or written on it.
    pub(crate) fn is_heard(&self, id: StreamId) -> bool
        ensures { result ≡ is_heard self.now id }
    {
        self.streams.contains_key(&id)
    }

    /// Whether a stream is open.
    pub(crate) fn is_open(&self, id: StreamId) -> bool
        ensures { result ≡ is_some ((open_at self.now) id) }
    {
        match self.streams.get(&id) {
            Some(stream) => stream.opened.is_some(),
            None => false,
        }
    }

    /// Whether credit may be owed on a stream: it is a call's and wasn't reset, or it is 0, the
    /// connection.
    pub(crate) fn pays(&self, id: StreamId) -> bool
        ensures { result ≡ pays self.now id }
    {
        id == 0 || self.state(id).is_paid()
    }

    /// Whether a stream is open, and takes no turns.
    pub(crate) fn waits(&self, id: StreamId) -> bool {
        match self.streams.get(&id) {
            Some(stream) => match &stream.opened {
                Some(opened) => !opened.is_in_turn(),
                None => false,
            },
            None => false,
        }
    }

    /// Whether an item of an open stream is in hand.
    pub(crate) fn has_hand(&self, id: StreamId) -> bool
        ensures { result ≡ has_hand ((open_at self.now) id) }
    {
        match self.streams.get(&id) {
            Some(stream) => match &stream.opened {
                Some(opened) => opened.has_hand(),
                None => false,
            },
            None => false,
        }
    }

    /// How many bytes of DATA may be sent on a stream now.
    pub(crate) fn room(&self, id: StreamId) -> u32
        ensures { result ≡ room self.now.windows id }
    {
        match self.streams.get(&id) {
            Some(stream) => stream.room(&self.window),
            None => 0,
        }
    }

    /// A call begins on a stream, with its sender at a place. The stream's window opens, unless it
    /// is open, or the stream is over or was reset. A stream of which nothing was heard becomes
    /// open. The stream is a call's from now on. Nothing is owed on one that was reset.
    pub(crate) fn open(&mut self, id: StreamId, place: usize) -> Result<(), AllocError>
        requires stream { 0 < id }
        requires number { id < 2 ^ 31 }
        ensures ok { OnOk result (Opens self.old id self.new) }
        ensures hears { OnOk result (Hears self.old id self.new) }
        ensures over { OnOk result (SameOver self.old self.new) }
        ensures becomes { OnOk result (BecomesOpen self.old id (Some (stream_at place)) self.new) }
        ensures windows { OnOk result (Moves self.old (opening self.old id) self.new) }
        ensures unchanged { OnErr result (self.new ≡ self.old) }
    {
        let opened = BoxedStream::new(*self.streams.allocator(), place)?;
        self.change(id, Change::Open, Some(opened))
    }

    /// Notes a stream as heard of. Its state doesn't change.
    pub(crate) fn hear(&mut self, id: StreamId) -> Result<(), AllocError>
        requires stream { 0 < id }
        requires number { id < 2 ^ 31 }
        ensures hears { OnOk result (Hears self.old id self.new) }
        ensures over { OnOk result (SameOver self.old self.new) }
        ensures owed { OnOk result (SameOwed self.old self.new) }
        ensures open { OnOk result (SameOpen self.old self.new) }
        ensures windows { OnOk result (Moves self.old [] self.new) }
        ensures unchanged { OnErr result (self.new ≡ self.old) }
    {
        self.change(id, Change::Hear, None)
    }

    /// A stream is reset: its window closes, and nothing is owed on it, now and later. Out of
    /// memory, nothing changes.
    pub(crate) fn reset(&mut self, id: StreamId) -> Result<(), AllocError>
        requires stream { 0 < id }
        requires number { id < 2 ^ 31 }
        ensures ok { OnOk result (Resets self.old id self.new) }
        ensures hears { OnOk result (Hears self.old id self.new) }
        ensures over { OnOk result (SameOver self.old self.new) }
        ensures open { OnOk result (SameOpen self.old self.new) }
        ensures windows { OnOk result (Moves self.old (Closing id ∷ []) self.new) }
        ensures unchanged { OnErr result (self.new ≡ self.old) }
    {
        self.change(id, Change::Reset, None)
    }

    /// The end of a stream is written, and its window closes. What is owed on it stays.
    pub(crate) fn end(&mut self, id: StreamId, by: Over) -> Result<(), AllocError>
        requires stream { 0 < id }
        requires number { id < 2 ^ 31 }
        ensures ok { OnOk result (SetsEnd self.old id (by_reset by) self.new) }
        ensures owed { OnOk result (SameOwed self.old self.new) }
        ensures open { OnOk result (SameOpen self.old self.new) }
        ensures windows { OnOk result (Moves self.old (Closing id ∷ []) self.new) }
        ensures unchanged { OnErr result (self.new ≡ self.old) }
    {
        self.change(id, Change::End(by), None)
    }

    /// Closes the window of a stream, if it is open.
    pub(crate) fn close_window(&mut self, id: StreamId)
        ensures rest { SameButWindows self.old self.new }
        ensures windows { Moves self.old (Closing id ∷ []) self.new }
    {
        close_window_of(&mut self.streams, id);
    }

    /// Adds the peer's credit to the window of a stream, or to the connection's where the id is 0.
    pub(crate) fn credit(&mut self, id: StreamId, increment: u32) -> Result<(), WindowFault>
        ensures rest { SameButWindows self.old self.new }
        ensures fault { Meets (CreditFault self.old.windows id increment) result }
        ensures windows { OnOk result (Moves self.old (Credit id increment ∷ []) self.new) }
        ensures can { OnOk result ((history : List WindowStep) → Follows history self.old.windows
            → CanCredit history id increment) }
        ensures cannot { OnErr result ((history : List WindowStep)
            → Follows history self.old.windows → ¬ CanCredit history id increment) }
        ensures unchanged { OnErr result (self.new ≡ self.old) }
    {
        if id == 0 {
            return self.window.credit(increment);
        }
        credit_of(&mut self.streams, &self.window, id, increment)
    }

    /// Takes a new initial size of the streams' windows. Where one of them would be larger than
    /// 2^31 - 1, none changes.
    pub(crate) fn initial(&mut self, size: u32) -> Result<(), WindowFault>
        ensures ok { OnOk result (self.new
            ≡ record self.old { windows = record self.old.windows { initial = size } }) }
        ensures windows { OnOk result (Moves self.old (Resizing size ∷ []) self.new) }
        ensures fits { OnOk result (FitsOn self.old.windows size) }
        ensures overflow { OnErr result (¬ FitsOn self.old.windows size) }
        ensures can { OnOk result ((history : List WindowStep) → Follows history self.old.windows
            → CanResize history size) }
        ensures cannot { OnErr result ((history : List WindowStep)
            → Follows history self.old.windows → ¬ CanResize history size) }
        ensures unchanged { OnErr result (self.new ≡ self.old) }
    {
        if size > MAX_WINDOW {
            return Err(WindowFault::Overflow);
        }
        if !all_fit(&self.streams, size) {
            return Err(WindowFault::Overflow);
        }
        self.window.resize(size);
        Ok(())
    }

    /// Changes the state of a stream. One of which nothing was heard becomes open as `opened` says,
    /// if it is given.
    fn change(
        &mut self,
        id: StreamId,
        change: Change,
        opened: Option<BoxedStream>,
    ) -> Result<(), AllocError>
        requires stream { 0 < id }
        requires number { id < 2 ^ 31 }
        ensures puts { OnOk result (PutsAfter change self.old id self.new) }
        ensures becomes { OnOk result (BecomesOpen self.old id opened self.new) }
        ensures open { OnOk result (opened ≡ None → SameOpen self.old self.new) }
        ensures connection { self.new.connection ≡ self.old.connection }
        ensures windows { OnOk result (Moves self.old (steps_of change self.old id) self.new) }
        ensures unchanged { OnErr result (self.new ≡ self.old) }
    {
        change_of(&mut self.streams, id, change, opened)
    }

    /// What is next on a stream, if it is open and something may be written on it: DATA of the
    /// message in hand, or else what its sender has. DATA are taken out of the windows, and the
    /// rest of their message is in hand then. A stream that a header block ends is closed, and its
    /// end is noted.
    pub(crate) fn next_on<L: Lane<Item = OutItem>>(
        &mut self,
        id: StreamId,
        senders: &mut Vec<(StreamId, Sender<L>)>,
        encoder: &mut Encoder,
    ) -> Result<NextItem, AllocError>
        ensures next { IfOk result
            (TakesNext L.got (coming L.got L.ahead) id self.old self.new senders.old.items
            senders.new.items encoder.old encoder.new) }
        ensures got { GetsOne (calls L.got senders.old.items) (calls L.got senders.new.items) }
        ensures senders { lanes L.out_name senders.new.items
            ≡ lanes L.out_name senders.old.items }
    {
        next_at(&mut self.streams, id, &mut self.window, senders, encoder)
    }

    /// Lets a stream take turns from now on, or none, if it is open. Answers whether it is open.
    pub(crate) fn turn(&mut self, id: StreamId, in_turn: bool) -> bool
        ensures stands { StandAs self.old self.new }
        ensures hands { SameHands (open_at self.old) (open_at self.new) }
    {
        turn_of(&mut self.streams, id, in_turn)
    }

    /// Moves the place of an open stream's sender, if the sender was at `from`.
    pub(crate) fn move_place(&mut self, id: StreamId, from: usize, to: usize)
        ensures stands { StandAs self.old self.new }
        ensures place { PlaceIs id from to (open_at self.old) (open_at self.new) }
    {
        move_place_of(&mut self.streams, id, from, to);
    }

    /// Makes a stream no longer open.
    pub(crate) fn close(&mut self, id: StreamId)
        ensures stands { StandAs self.old self.new }
        ensures closes { Closes id (open_at self.old) (open_at self.new) }
    {
        close_of(&mut self.streams, id);
    }

    /// Owes n bytes more, on a stream or on the connection where it is 0: at most 2^31 - 1 at once,
    /// the most that a WINDOW_UPDATE gives. Nothing changes for a stream of no call, and for one
    /// that was reset.
    pub(crate) fn grant(&mut self, id: StreamId, n: u32)
        ensures grants { Grants self.old id n self.new }
        ensures ends { SameEnds self.old self.new }
        ensures open { SameOpen self.old self.new }
        ensures windows { Moves self.old [] self.new }
    {
        if id == 0 {
            self.connection = sum(self.connection, n);
        } else if let Some(place) = add(&mut self.streams, id, n) {
            self.owing = bring_forward(&mut self.streams, place, self.owing);
        }
    }

    /// Takes all that is owed on the connection, or else on one of the streams.
    pub(crate) fn next(&mut self) -> Option<(StreamId, u32)>
        ensures takes { TakesAll self.old result self.new }
        ensures ends { SameEnds self.old self.new }
        ensures open { SameOpen self.old self.new }
        ensures windows { Moves self.old [] self.new }
        ensures numbered { IfSome result (λ taken. taken.0 < 2 ^ 31) }
    {
        if self.connection > 0 {
            let n = self.connection;
            self.connection = 0;
            return Some((0, n));
        }
        let (owing, taken) = take_last(&mut self.streams, self.owing);
        self.owing = owing;
        taken
    }
}
