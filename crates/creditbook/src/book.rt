//! The credit book of a connection (RFC 9113, sections 5.2 and 6.9).
//!
//! One total function says what each function here does, from the record before to the record
//! after, for every id: 0 is the connection, any other the live call, and without such a call
//! nothing changes. Each fault has a cause, and the tests have one order (`place`), so clauses
//! don't repeat the earlier tests.
//!
//! What is loose is computed, not stored: it matters only where bytes of no call are returned, and
//! then the book goes over at most 64 calls. Bytes count as `u32`, as a frame's length does; sums
//! are `u64`. A mark that is set twice changes nothing more. With the second end marked a call ends
//! as one that is cut (`end_remote` and `end_local` call `cut`).

ghost use Rattle.std.specs.Prelude.{
  ◌≡◌,
  ◌<◌,
  ◌^◌,
  true,
  OnErr,
  OnOk,
  nat_eq,
  length,
  slice_get,
  if◌then◌else◌,
};
ghost use Rattle.std.specs.Option.{option_map};
ghost use Rattle.std.specs.Map.{keys_of};
ghost use Rattle.creditbook.specs.Books.{call_at, unreturned_of};

use counts::NO_BYTES;
use h2frame::StreamId;
use indexmap::IndexMap;
use limits::MAX_LIVE;
use std::alloc::Global;
use std::marker::Model;

mod counts;
mod fault;

pub use counts::Counts;
pub use fault::BookFault;

/// Which ends of a call are marked as over.
#[derive(Clone, Copy, Debug, PartialEq, Eq)]
pub struct Marks {
    /// The peer's: no more DATA comes.
    pub remote: bool,
    /// Ours: no more DATA is taken.
    pub local: bool,
}

/// What the book has of a live call.
#[derive(Clone, Copy)]
pub struct Call {
    /// The call's own bytes.
    pub counts: Counts,
    /// Which of its ends are marked.
    pub marks: Marks,
}

impl Call {
    ghost use Rattle.creditbook.specs.Books.{IsCounted, due_of, is_half_closed};

    /// Whether either end is marked: no more DATA comes, or none is taken.
    fn is_half_closed(&self) -> bool
        ensures { result ≡ is_half_closed self.now }
    {
        self.marks.remote || self.marks.local
    }

    /// What was returned and is still to be announced: nothing on a call with a marked end.
    fn due(&self) -> u32
        requires { IsCounted self.now.counts }
        ensures { result ≡ due_of self.now }
    {
        if self.is_half_closed() {
            return 0;
        }
        self.counts.unannounced()
    }
}

/// A call of which neither end is marked.
const NEW_CALL: Call = Call {
    counts: NO_BYTES,
    marks: Marks {
        remote: false,
        local: false,
    },
};

/// The credit book of a connection: for the connection and each live call, how many bytes of DATA
/// came, how many of them were returned, and how many of those were announced to the peer.
///
/// On the connection and on each live call: announced <= returned <= received <= 65,535 + announced
/// (RFC 9113, section 6.9.2). At most 64 calls are live.
///
/// The bytes of a call count on the connection too; what counts on the connection alone, under id
/// 0, is loose until it is returned.
#[derive(Drop)]
pub struct Book {
    connection: Counts,
    calls: IndexMap<StreamId, Call>,
    last: StreamId,
    closing: bool,
}

impl Model for Book {
    ghost use Rattle.creditbook.specs.Books.{Books, IsLawful};

    ghost Value = { Books };

    ghost view = { λ b. record {
      connection = b.connection;
      calls = b.calls.entries;
      last = b.last;
      closing = b.closing;
    } };

    ghost invariant = { λ b. IsLawful
        (record {
          connection = b.connection;
          calls = b.calls.entries;
          last = b.last;
          closing =
              b.closing;
        }) };
}

impl Book {
    ghost use Rattle.creditbook.specs.Books.{
      new_book,
      IsLawful,
      IsOdd,
      MeetsOrMemory,
      Meets,
      AdmitCause,
      ReceiveCause,
      GiveBackCause,
      EndCause,
      after_admit,
      after_receive,
      after_give_back,
      after_announce,
      announcement,
      after_end_remote,
      after_end_local,
      after_cut,
      window_of,
      is_marked,
      no_change,
      Moves,
    };

    /// The book of a new connection, with no calls. It takes no memory yet.
    pub fn new(alloc: Global) -> Book
        ensures value { result ≡ new_book }
        ensures law { IsLawful result }
    {
        Book {
            connection: NO_BYTES,
            calls: IndexMap::new(alloc),
            last: 0,
            closing: false,
        }
    }

    /// The greatest id that was admitted, 0 for none. Its contract also has the law of the credit
    /// book.
    pub fn last(&self) -> StreamId
        ensures last { result ≡ self.now.last }
        ensures law { IsLawful self.now }
    {
        self.last
    }

    /// Lets no more calls be admitted, for good.
    pub fn close(&mut self)
        ensures value { self.new ≡ record self.old { closing = true } }
        ensures moves { Moves (record (no_change self.old) { closing = true }) self.old self.new }
        ensures law { IsLawful self.new }
    {
        self.closing = true;
    }

    /// Whether no more calls are admitted.
    pub fn closing(&self) -> bool
        ensures { result ≡ self.now.closing }
    {
        self.closing
    }

    /// Which ends of a call are marked, if it is live.
    pub fn marks(&self, id: StreamId) -> Option<Marks>
        ensures { result ≡ option_map (λ call. call.marks) (call_at self.now id) }
    {
        let call = self.calls.get(&id).copied()?;
        Some(call.marks)
    }

    /// How many calls are live.
    pub fn live(&self) -> u32
        ensures { result ≡ length self.now.calls }
    {
        self.calls.len() as u32
    }

    /// The id of a live call by its place among them, in the order of their admission.
    pub fn live_id(&self, place: usize) -> Option<StreamId>
        ensures { result ≡ slice_get (keys_of self.now.calls) place }
    {
        let (id, _) = self.calls.get_index(place)?;
        Some(*id)
    }

    /// How many bytes the peer may still send on a live call, or on the connection where the id
    /// is 0. No bytes where the call isn't live.
    pub fn window(&self, id: StreamId) -> u32
        ensures { result ≡ window_of self.now id }
    {
        if id == 0 {
            return self.connection.room() as u32;
        }
        match self.calls.get(&id) {
            Some(call) => call.counts.window() as u32,
            None => 0,
        }
    }

    /// What was returned and not announced yet: what `announce` would answer.
    pub fn due(&self, id: StreamId) -> u32
        ensures { result ≡ announcement self.now id }
    {
        if id == 0 {
            return self.connection.unannounced();
        }
        match self.calls.get(&id) {
            Some(call) => call.due(),
            None => 0,
        }
    }

    /// Admits a call, of which neither end is marked. Draining is tested before TooMany.
    pub fn admit(&mut self, id: StreamId) -> Result<(), BookFault>
        requires odd { IsOdd id }
        requires above { self.old.last < id }
        ensures ok { OnOk result (self.new ≡ after_admit self.old id) }
        ensures unchanged { OnErr result (self.new ≡ self.old) }
        ensures fault { MeetsOrMemory (AdmitCause self.old) result }
        ensures moves { OnOk result
            (Moves (record (no_change self.old) { admitted = 1; last = id }) self.old self.new) }
        ensures law { IsLawful self.new }
    {
        if self.closing {
            return Err(BookFault::Draining);
        }
        if self.calls.len() >= MAX_LIVE {
            return Err(BookFault::TooMany);
        }
        self.calls.insert(id, NEW_CALL)?;
        self.last = id;
        Ok(())
    }

    /// Counts bytes of DATA that came, for a live call and the connection, or for the connection
    /// alone where the id is 0. Those of a call whose local end is marked are returned at once.
    pub fn receive(&mut self, id: StreamId, n: u32) -> Result<(), BookFault>
        ensures ok { OnOk result (self.new ≡ after_receive self.old id n) }
        ensures unchanged { OnErr result (self.new ≡ self.old) }
        ensures fault { Meets (ReceiveCause self.old id n) result }
        ensures moves { OnOk result
            (Moves (record (no_change self.old) { received = n }) self.old self.new) }
        ensures law { IsLawful self.new }
    {
        let more = u64::from(n);
        if id == 0 {
            if more > self.connection.room() {
                return Err(BookFault::ConnectionWindow);
            }
            self.connection = self.connection.with_received(more, false);
            return Ok(());
        }
        let Some(call) = self.calls.get_mut(&id) else {
            return Err(BookFault::Unknown);
        };
        if more > call.counts.window() {
            return Err(BookFault::CallWindow);
        }
        if more > self.connection.room() {
            return Err(BookFault::ConnectionWindow);
        }
        let at_once = call.marks.local;
        call.counts = call.counts.with_received(more, at_once);
        self.connection = self.connection.with_received(more, at_once);
        Ok(())
    }

    /// Counts bytes that were returned, for a live call and the connection, or for the connection
    /// alone where the id is 0: then they are loose bytes.
    pub fn give_back(&mut self, id: StreamId, n: u32) -> Result<(), BookFault>
        ensures ok { OnOk result (self.new ≡ after_give_back self.old id n) }
        ensures unchanged { OnErr result (self.new ≡ self.old) }
        ensures fault { Meets (GiveBackCause self.old id n) result }
        ensures moves { OnOk result (Moves (no_change self.old) self.old self.new) }
        ensures law { IsLawful self.new }
    {
        let more = u64::from(n);
        if id == 0 {
            if more > self.connection.unreturned() - unreturned(&self.calls) {
                return Err(BookFault::Overgiven);
            }
            self.connection.returned += more;
            return Ok(());
        }
        let Some(call) = self.calls.get_mut(&id) else {
            return Err(BookFault::Unknown);
        };
        if more > call.counts.unreturned() {
            return Err(BookFault::Overgiven);
        }
        call.counts.returned += more;
        self.connection.returned += more;
        Ok(())
    }

    /// Announces all that was returned, and answers how much of it wasn't announced yet: the
    /// increment of a WINDOW_UPDATE that is due (RFC 9113, section 6.9). It is 0, and nothing
    /// changes, where the call isn't live or either end is marked.
    pub fn announce(&mut self, id: StreamId) -> u32
        ensures increment { result ≡ announcement self.old id }
        ensures announced { self.new ≡ after_announce self.old id }
        ensures moves { Moves
            (record (no_change self.old) { announced = if nat_eq id 0 then result else 0 }) self.old
            self.new }
        ensures law { IsLawful self.new }
    {
        if id == 0 {
            let due = self.connection.unannounced();
            self.connection.announced = self.connection.returned;
            return due;
        }
        let Some(call) = self.calls.get_mut(&id) else {
            return 0;
        };
        if call.is_half_closed() {
            return 0;
        }
        let due = call.counts.unannounced();
        call.counts.announced = call.counts.returned;
        due
    }

    /// Marks the remote end of a call: no more DATA comes. With both ends marked it is no longer
    /// live.
    pub fn end_remote(&mut self, id: StreamId) -> Result<(), BookFault>
        ensures ok { OnOk result (self.new ≡ after_end_remote self.old id) }
        ensures unchanged { OnErr result (self.new ≡ self.old) }
        ensures fault { Meets (EndCause self.old id) result }
        ensures moves { OnOk result
            (Moves (record (no_change self.old) {
              over = if is_marked (λ marks. marks.local)
                  self.old id then 1 else 0;
            }) self.old self.new) }
        ensures law { IsLawful self.new }
    {
        let Some(call) = self.calls.get_mut(&id) else {
            return Err(BookFault::Unknown);
        };
        if call.marks.local {
            return self.cut(id);
        }
        call.marks.remote = true;
        Ok(())
    }

    /// Marks the local end of a call: its DATA isn't taken any more, so all that it hasn't returned
    /// is returned. With both ends marked it is no longer live.
    pub fn end_local(&mut self, id: StreamId) -> Result<(), BookFault>
        ensures ok { OnOk result (self.new ≡ after_end_local self.old id) }
        ensures unchanged { OnErr result (self.new ≡ self.old) }
        ensures fault { Meets (EndCause self.old id) result }
        ensures moves { OnOk result
            (Moves (record (no_change self.old) {
              over = if is_marked (λ marks. marks.remote)
                  self.old id then 1 else 0;
            }) self.old self.new) }
        ensures law { IsLawful self.new }
    {
        let Some(call) = self.calls.get_mut(&id) else {
            return Err(BookFault::Unknown);
        };
        if call.marks.remote {
            return self.cut(id);
        }
        let rest = call.counts.unreturned();
        call.counts.returned += rest;
        call.marks.local = true;
        self.connection.returned += rest;
        Ok(())
    }

    /// Makes a call no longer live, and returns the rest of its bytes on the connection.
    pub fn cut(&mut self, id: StreamId) -> Result<(), BookFault>
        ensures ok { OnOk result (self.new ≡ after_cut self.old id) }
        ensures unchanged { OnErr result (self.new ≡ self.old) }
        ensures fault { Meets (EndCause self.old id) result }
        ensures moves { OnOk result
            (Moves (record (no_change self.old) { over = 1 }) self.old self.new) }
        ensures law { IsLawful self.new }
    {
        let Some(call) = self.calls.shift_remove(&id) else {
            return Err(BookFault::Unknown);
        };
        self.connection.returned += call.counts.unreturned();
        Ok(())
    }
}

/// What the live calls haven't returned.
fn unreturned(calls: &IndexMap<StreamId, Call>) -> u64
    requires { unreturned_of calls.now.entries < 2 ^ 64 }
    ensures { result ≡ unreturned_of calls.now.entries }
{
    calls
        .values()
        .map(|call| call.counts.received.saturating_sub(call.counts.returned))
        .sum()
}
