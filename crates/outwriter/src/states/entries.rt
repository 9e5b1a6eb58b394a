//! What becomes of the entry of one stream, or of all, among those that are kept.

ghost use Rattle.std.specs.Prelude.{◌≡◌, ◌<◌, ◌≤◌, ℕ, None, IfOk, OnOk, OnErr, length, nat_eq};
ghost use Rattle.std.specs.List.{list_all};
ghost use Rattle.std.specs.Map.{lookup, values_of};
ghost use Rattle.indexmap.specs.IndexMap.{IsUnique};
ghost use Rattle.outwriter.specs.States.{
  more,
  fits_with,
  Changes,
  CreditsEntry,
  KeepsAmount,
  SetsBalance,
  Edits,
  Adds,
  AllFit,
  IsSettledBut,
  IsSettledFrom,
  TakesAt,
  TakesLast,
  opened_of,
};
ghost use Rattle.outwriter.specs.Cores.{calls, lanes};
ghost use Rattle.outwriter.specs.NextOn.{GetsOne, NextAtEntry};
ghost use Rattle.outwriter.specs.Polls.{coming};
ghost use Rattle.outwriter.specs.OpenStreams.{shown, with_place};

use super::Stream;
use crate::stream::{BoxedStream, NextItem};
use crate::stream_state::{Change, StreamState};
use account::OutItem;
use callbox::Sender;
use h2frame::StreamId;
use hpack_codec::Encoder;
use indexmap::IndexMap;
use lane::Lane;
use limits::MAX_WINDOW;
use sendwindows::{ConnectionWindow, WindowFault};
use std::alloc::AllocError;

/// Changes the state of a stream. One of which nothing was heard becomes open as `opened` says, if
/// it is given.
pub(super) fn change_of(
    streams: &mut IndexMap<StreamId, Stream>,
    id: StreamId,
    change: Change,
    opened: Option<BoxedStream>,
) -> Result<(), AllocError>
    ensures changes { OnOk result
        (Changes streams.old.entries id change opened streams.new.entries) }
    ensures unchanged { OnErr result (streams.new.entries ≡ streams.old.entries) }
{
    if let Some(stream) = streams.get_mut(&id) {
        stream.change(change);
        return Ok(());
    }
    let mut stream = Stream {
        state: StreamState::NoCall { over: None },
        opened,
        balance: None,
    };
    stream.change(change);
    match streams.insert(id, stream) {
        Ok(_before) => Ok(()),
        Err(_refused) => Err(AllocError),
    }
}

/// Closes the window of a stream.
pub(super) fn close_window_of(streams: &mut IndexMap<StreamId, Stream>, id: StreamId)
    ensures { SetsBalance streams.old.entries id None streams.new.entries }
{
    if let Some(stream) = streams.get_mut(&id) {
        stream.balance = None;
    }
}

/// Adds the peer's credit to the window of a stream.
pub(super) fn credit_of(
    streams: &mut IndexMap<StreamId, Stream>,
    window: &ConnectionWindow,
    id: StreamId,
    increment: u32,
) -> Result<(), WindowFault>
    ensures { CreditsEntry window.now streams.old.entries id streams.new.entries increment result }
{
    match streams.get_mut(&id) {
        Some(stream) => stream.credit(window, increment),
        None => Err(WindowFault::Unknown),
    }
}

/// Whether each open window with this initial size is at most 2^31 - 1 bytes.
pub(super) fn all_fit(streams: &IndexMap<StreamId, Stream>, size: u32) -> bool
    ensures value { result ≡ list_all (λ stream. fits_with size stream.balance)
        (values_of streams.now.entries) }
    ensures unique { IsUnique nat_eq streams.now }
{
    // `len` says that no key comes twice.
    let _count = streams.len();
    streams.values().all(|stream| stream.fits(size))
}

/// What is next on a stream, if it is open and something may be written on it.
pub(super) fn next_at<L: Lane<Item = OutItem>>(
    streams: &mut IndexMap<StreamId, Stream>,
    id: StreamId,
    window: &mut ConnectionWindow,
    senders: &mut Vec<(StreamId, Sender<L>)>,
    encoder: &mut Encoder,
) -> Result<NextItem, AllocError>
    ensures amount { KeepsAmount streams.old.entries id streams.new.entries }
    ensures next { IfOk result
        (NextAtEntry L.got (coming L.got L.ahead) id streams.old.entries streams.new.entries
        window.old window.new senders.old.items senders.new.items encoder.old encoder.new) }
    ensures got { GetsOne (calls L.got senders.old.items) (calls L.got senders.new.items) }
    ensures senders { lanes L.out_name senders.new.items
        ≡ lanes L.out_name senders.old.items }
{
    match streams.get_mut(&id) {
        Some(stream) => stream.next(id, window, senders, encoder),
        None => Ok(NextItem::Nothing),
    }
}

/// Lets a stream take turns from now on, or none, if it is open. Answers whether it is open.
pub(super) fn turn_of(streams: &mut IndexMap<StreamId, Stream>, id: StreamId, in_turn: bool) -> bool
    ensures edits { Edits streams.old.entries id streams.new.entries }
    ensures hand { shown (opened_of (lookup (nat_eq id) streams.new.entries))
        ≡ shown (opened_of (lookup (nat_eq id) streams.old.entries)) }
{
    match streams.get_mut(&id) {
        Some(stream) => stream.turn(in_turn),
        None => false,
    }
}

/// Moves the place of an open stream's sender, if the sender was at `from`.
pub(super) fn move_place_of(
    streams: &mut IndexMap<StreamId, Stream>,
    id: StreamId,
    from: usize,
    to: usize,
)
    ensures edits { Edits streams.old.entries id streams.new.entries }
    ensures place { shown (opened_of (lookup (nat_eq id) streams.new.entries))
        ≡ with_place from to (shown (opened_of (lookup (nat_eq id) streams.old.entries))) }
{
    if let Some(stream) = streams.get_mut(&id) {
        stream.move_place(from, to);
    }
}

/// Makes a stream no longer open.
pub(super) fn close_of(streams: &mut IndexMap<StreamId, Stream>, id: StreamId)
    ensures edits { Edits streams.old.entries id streams.new.entries }
    ensures closed { opened_of (lookup (nat_eq id) streams.new.entries) ≡ None }
{
    if let Some(stream) = streams.get_mut(&id) {
        stream.opened = None;
    }
}

/// Adds to what is owed on a stream, and answers its place.
pub(super) fn add(streams: &mut IndexMap<StreamId, Stream>, id: StreamId, n: u32) -> Option<usize>
    ensures { Adds streams.old.entries id n result streams.new.entries }
{
    let (place, _id, stream) = streams.get_full(&id)?;
    let StreamState::Call { owed, over } = stream.state else {
        return None;
    };
    if let Some(stream) = streams.get_index_mut(place) {
        stream.state = StreamState::Call {
            owed: sum(owed, n),
            over,
        };
    }
    Some(place)
}

/// Moves the stream at a place to those on which something may be owed, and answers how many these
/// are.
pub(super) fn bring_forward(
    streams: &mut IndexMap<StreamId, Stream>,
    place: usize,
    owing: usize,
) -> usize
    requires place { place < length streams.old.entries }
    requires owing { owing ≤ length streams.old.entries }
    requires settled { IsSettledBut place owing streams.old.entries }
    ensures owing { result ≤ length streams.new.entries }
    ensures settled { IsSettledFrom result streams.new.entries }
    ensures fit { AllFit streams.old.entries → AllFit streams.new.entries }
    ensures same { (id : ℕ) → lookup (nat_eq id) streams.new.entries
        ≡ lookup (nat_eq id) streams.old.entries }
{
    if place < owing {
        return owing;
    }
    let count = streams.len();
    prove!(owing < count);
    streams.swap_indices(place, owing);
    owing + 1
}

/// Takes what is owed at the last of the first `owing` places that owes something. Nothing is owed
/// from there on.
pub(super) fn take_last(
    streams: &mut IndexMap<StreamId, Stream>,
    owing: usize,
) -> (usize, Option<(StreamId, u32)>)
    requires owing { owing ≤ length streams.old.entries }
    requires settled { IsSettledFrom owing streams.old.entries }
    ensures takes { TakesLast streams.old.entries result.0 result.1 streams.new.entries }
    ensures owing { result.0 ≤ length streams.new.entries }
    ensures settled { IsSettledFrom result.0 streams.new.entries }
{
    let mut left = owing;
    while left > 0 {
        left -= 1;
        let taken = take_at(streams, left);
        if taken.is_some() {
            return (left, taken);
        }
    }
    (0, None)
}

/// Takes what is owed at a place.
fn take_at(streams: &mut IndexMap<StreamId, Stream>, place: usize) -> Option<(StreamId, u32)>
    requires { place < length streams.old.entries }
    ensures { TakesAt streams.old.entries place result streams.new.entries }
{
    let (id, stream) = streams.get_index(place)?;
    let id = *id;
    let StreamState::Call { owed, over } = stream.state else {
        return None;
    };
    if owed == 0 {
        return None;
    }
    if let Some(stream) = streams.get_index_mut(place) {
        stream.state = StreamState::Call { owed: 0, over };
    }
    Some((id, owed))
}

pub(super) fn sum(owed: u32, n: u32) -> u32
    ensures { result ≡ more owed n }
{
    owed.saturating_add(n).min(MAX_WINDOW)
}
