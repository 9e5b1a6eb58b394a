//! The calls that the writing side sends, and the ring on which their senders go back.

use callbox::Sender;
use callparts::{Line, Naming, OpeningCall, OutLane, ReturningCall, SendingEnd};
use h2frame::StreamId;
use lane::RingIn;
use std::alloc::{AllocError, Global};
use std::sync::Arc;

/// A call whose sender is with the writer's core.
#[derive(Drop)]
pub(crate) struct SendingCall<J: Naming> {
    pub(crate) id: StreamId,
    /// The box in which its sender goes back.
    pub(crate) sending: Box<SendingEnd<J>>,
    /// The line that wakes its worker.
    line: Arc<Line>,
    /// Whether its sender is to go back: its stream was reset, or has ended.
    is_through: bool,
}

/// The calls whose senders are with the writer's core, in the same order.
#[derive(Drop)]
pub(crate) struct Sends<J: Naming> {
    pub(crate) calls: Vec<SendingCall<J>>,
    /// The ring on which senders go back.
    pub(crate) home: RingIn<ReturningCall<J>>,
    /// Whether there may be senders that are to go back.
    are_some_through: bool,
}

impl<J: Naming> Sends<J> {
    ghost use Rattle.std.specs.Prelude.{
      ◌≡◌,
      ◌<◌,
      ◌++◌,
      ◌∷◌,
      [],
      true,
      length,
      vec_len,
      vec_capacity,
    };
    ghost use Rattle.std.specs.Prelude.{IfNone, IfSome, OnErr, OnOk, Some, slice_get};
    ghost use Rattle.lane.specs.Ring.{HasRoom, in_name, put_in};
    ghost use Rattle.writerloop.specs.Sent.{
      Adds,
      HandsHome,
      HasNone,
      HasNoneBelow,
      IsAt,
      IsFirstOf,
    };
    ghost use Rattle.writerloop.specs.Sent.{IsLastOf, Passes, SameCalls, TakesLast, ids_of};

    pub(crate) fn new(alloc: Global, home: RingIn<ReturningCall<J>>) -> Sends<J>
        ensures none { result.calls.items ≡ [] }
        ensures home { result.home ≡ home }
    {
        Sends {
            calls: Vec::new(alloc),
            home,
            are_some_through: false,
        }
    }

    /// How many there are.
    pub(crate) fn len(&self) -> usize
        ensures { result ≡ length self.now.calls.items }
    {
        self.calls.len()
    }

    /// The stream of the call at this place.
    pub(crate) fn stream_at(&self, place: usize) -> Option<StreamId>
        ensures { result ≡ slice_get (ids_of self.now.calls.items) place }
    {
        let call = self.calls.get(place)?;
        Some(call.id)
    }

    /// Makes room for one call more.
    pub(crate) fn reserve(&mut self) -> Result<(), AllocError>
        ensures calls { self.new.calls.items ≡ self.old.calls.items }
        ensures room { OnOk result (vec_len self.new.calls < vec_capacity self.new.calls) }
        ensures home { self.new.home ≡ self.old.home }
    {
        self.calls.reserve(1)
    }

    /// Adds a call whose sender the core has, after the others.
    pub(crate) fn push_reserved(
        &mut self,
        id: StreamId,
        sending: Box<SendingEnd<J>>,
        line: Arc<Line>,
    )
        requires room { vec_len self.old.calls < vec_capacity self.old.calls }
        ensures adds { Adds id sending.value self.old.calls.items self.new.calls.items }
        ensures home { self.new.home ≡ self.old.home }
    {
        self.calls.push_reserved(SendingCall {
            id,
            sending,
            line,
            is_through: false,
        });
    }

    /// Hands back the sender of an order that isn't taken. If the ring has no place for it, the
    /// order's call comes back.
    pub(crate) fn turn_back(&mut self, opening: OpeningCall<J>) -> Result<(), OpeningCall<J>>
        ensures home { Passes opening result (put_in self.old.home) (put_in self.new.home) }
        ensures name { in_name self.new.home ≡ in_name self.old.home }
        ensures calls { self.new.calls ≡ self.old.calls }
    {
        opening.line.ring_for_room();
        if !self.has_place() {
            return Err(opening);
        }
        let OpeningCall { sending, .. } = opening;
        self.send_home(ReturningCall { sending });
        Ok(())
    }

    /// Whether the ring has a place for a sender.
    pub(crate) fn has_place(&mut self) -> bool
        ensures free { result ≡ true → HasRoom self.new.home }
        ensures put { put_in self.new.home ≡ put_in self.old.home }
        ensures name { in_name self.new.home ≡ in_name self.old.home }
        ensures calls { self.new.calls ≡ self.old.calls }
    {
        self.home.has_room()
    }

    /// Hands back a sender, for which there is a place.
    fn send_home(&mut self, returning: ReturningCall<J>)
        requires room { HasRoom self.old.home }
        ensures put { put_in self.new.home ≡ put_in self.old.home ++ returning ∷ [] }
        ensures name { in_name self.new.home ≡ in_name self.old.home }
        ensures calls { self.new.calls ≡ self.old.calls }
    {
        if let Err(_full) = self.home.put(returning) {
            unreachable!();
        }
    }

    /// Hands back the sender of the first call of this stream, for which there is a place.
    pub(crate) fn hand_back(&mut self, id: StreamId, sender: Sender<OutLane>)
        requires room { HasRoom self.old.home }
        requires whose { IsFirstOf id sender self.old.calls.items }
        ensures home { HandsHome id sender self.old.calls.items self.new.calls.items
            (put_in self.old.home) (put_in self.new.home) }
        ensures name { in_name self.new.home ≡ in_name self.old.home }
    {
        let returning = self.take(id, sender);
        self.send_home(returning);
    }

    /// The sender of the first call of this stream, in its box.
    pub(crate) fn take(&mut self, id: StreamId, sender: Sender<OutLane>) -> ReturningCall<J>
        requires whose { IsFirstOf id sender self.old.calls.items }
        ensures home { HandsHome id sender self.old.calls.items self.new.calls.items
            (put_in self.old.home) (put_in self.old.home ++ result ∷ []) }
        ensures way { self.new.home ≡ self.old.home }
    {
        let Some(place) = self.place_of(id) else {
            unreachable!();
        };
        let SendingCall { mut sending, .. } = self.calls.swap_remove(place);
        sending.sender = Some(sender);
        ReturningCall { sending }
    }

    /// The sender of the last call, in its box.
    pub(crate) fn take_last(&mut self, sender: Sender<OutLane>) -> ReturningCall<J>
        requires whose { IsLastOf sender self.old.calls.items }
        ensures takes { TakesLast sender self.old.calls.items self.new.calls.items result }
        ensures way { self.new.home ≡ self.old.home }
    {
        let Some(call) = self.calls.pop() else {
            unreachable!();
        };
        let SendingCall { mut sending, .. } = call;
        sending.sender = Some(sender);
        ReturningCall { sending }
    }

    /// The putting end of the ring.
    pub(crate) fn into_home(self) -> RingIn<ReturningCall<J>>
        ensures { result ≡ self.home }
    {
        let Sends { home, .. } = self;
        home
    }

    /// The place of the first call of this stream.
    fn place_of(&self, id: StreamId) -> Option<usize>
        ensures some { IfSome result (λ place. IsAt id place self.now.calls.items) }
        ensures first { IfSome result (λ place. HasNoneBelow place id self.now.calls.items) }
        ensures none { IfNone result (HasNone id self.now.calls.items) }
    {
        for place in 0..self.calls.len() {
            if let Some(call) = self.calls.get(place) {
                if call.id == id {
                    return Some(place);
                }
            }
        }
        None
    }

    /// Notes that the sender of this stream's call is to go back, if there is such a call.
    pub(crate) fn note_through(&mut self, id: StreamId)
        ensures same { SameCalls self.old.calls.items self.new.calls.items }
        ensures home { self.new.home ≡ self.old.home }
    {
        let Some(place) = self.place_of(id) else {
            return;
        };
        if let Some(call) = self.calls.get_mut(place) {
            call.is_through = true;
            self.are_some_through = true;
        }
    }

    /// Whether there may be senders that are to go back.
    pub(crate) fn are_some_through(&self) -> bool {
        self.are_some_through
    }

    /// Notes that the senders that are to go back are looked at now.
    pub(crate) fn look_through(&mut self)
        ensures calls { self.new.calls ≡ self.old.calls }
        ensures home { self.new.home ≡ self.old.home }
    {
        self.are_some_through = false;
    }

    /// The stream of the call at this place, if its sender is to go back.
    pub(crate) fn through_at(&self, place: usize) -> Option<StreamId> {
        let call = self.calls.get(place)?;
        call.is_through.then_some(call.id)
    }

    /// Whether the sender of this stream's call is to go back.
    pub(crate) fn is_through(&self, id: StreamId) -> bool {
        match self.place_of(id) {
            Some(place) => self.through_at(place).is_some(),
            None => true,
        }
    }

    /// Wakes the worker of the call of this stream, which then looks whether the call is still
    /// live.
    pub(crate) fn wake(&self, id: StreamId) {
        if let Some(call) = self.calls.iter().find(|call| call.id == id) {
            call.line.bell.ring();
        }
    }

    /// Wakes the worker of the call of this stream, where it waits for room.
    pub(crate) fn wake_for_room(&self, id: StreamId) {
        if let Some(call) = self.calls.iter().find(|call| call.id == id) {
            call.line.ring_for_room();
        }
    }

    /// Wakes all workers that wait for room.
    pub(crate) fn wake_all(&self) {
        for call in &self.calls {
            call.line.ring_for_room();
        }
    }
}
