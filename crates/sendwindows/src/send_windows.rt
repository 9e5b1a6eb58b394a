//! The windows of what is sent (RFC 9113, section 6.9).
//!
//! All streams share a `ConnectionWindow`, and a map has the balance of each. Contracts define the
//! windows twice: by an equation on the numbers that are kept, and by the whole list of openings,
//! credits, spendings, sizes and closings (`Follows`). `room` is defined by that list alone.

ghost use Rattle.std.specs.Prelude.{
  ◌≡◌,
  ◌+◌,
  ◌-◌,
  ◌+ℤ◌,
  ◌-ℤ◌,
  ◌<◌,
  min,
  pos,
  List,
  [],
  ◌∷◌,
  None,
  IfErr,
  OnErr,
  OnOk,
  is_some,
  MatchOption,
  nat_eq,
  int_le,
};
ghost use Rattle.std.specs.List.{list_all};
ghost use Rattle.std.specs.Map.{values_of};
ghost use Rattle.indexmap.specs.IndexMap.{IsUnique};
ghost use Rattle.sendwindows.specs.declared.send_windows.WindowFault.TheVariants.{
  Overflow,
  OutOfMemory,
};
ghost use Rattle.sendwindows.specs.Windows.{
  code_of,
  room,
  opened,
  with_balance,
  closed,
  balance,
  Meets,
  CreditFault,
  SpendFault,
  FitsAt,
  IsLawful,
};
ghost use Rattle.sendwindows.specs.WindowHistory.{
  Step,
  Opening,
  Credit,
  Spending,
  Resizing,
  Closing,
  Follows,
  CanCredit,
  CanResize,
  room_after,
};

use crate::{Balance, ConnectionWindow};
use h2frame::StreamId;
use indexmap::IndexMap;
use limits::MAX_WINDOW;
use std::alloc::{AllocFailed, Global};
use std::marker::Model;
use thiserror::Error;

/// Why a window isn't changed.
#[derive(Clone, Copy, Debug, PartialEq, Eq, Error)]
pub enum WindowFault {
    /// A window would be larger than 2^31 - 1 bytes.
    #[error("a window would be over 2147483647 bytes")]
    Overflow,
    /// More is spent than the windows let through.
    #[error("the windows don't let that much through")]
    NoRoom,
    /// The stream isn't open.
    #[error("the stream isn't open")]
    Unknown,
    /// There is no memory.
    #[error("out of memory")]
    OutOfMemory,
}

impl WindowFault {
    /// The fault's number, by which programs print it.
    pub fn code(self) -> u32
        ensures { result ≡ code_of self }
    {
        match self {
            WindowFault::Overflow => 1,
            WindowFault::NoRoom => 2,
            WindowFault::Unknown => 3,
            WindowFault::OutOfMemory => 4,
        }
    }
}

impl<T: Drop> From<AllocFailed<T>> for WindowFault {
    ghost from_gives = { λ _ fault. fault ≡ OutOfMemory };

    fn from(_e: AllocFailed<T>) -> WindowFault {
        WindowFault::OutOfMemory
    }
}

/// The windows of what is sent: how many bytes of DATA the peer takes on the connection, and on
/// each open stream.
///
/// A stream's window is the present initial size and the stream's balance: what was credited to it
/// less what was spent on it since it was opened. So a smaller initial size can take it below zero
/// (RFC 9113, section 6.9.2).
#[derive(Drop)]
pub struct SendWindows {
    shared: ConnectionWindow,
    balances: IndexMap<StreamId, Balance>,
}

impl Model for SendWindows {
    ghost use Rattle.sendwindows.specs.Windows.{Windows, IsWithin};

    ghost Value = { Windows };

    ghost view = { λ s. record {
      connection = s.shared.connection;
      initial = s.shared.initial;
      balances = s.balances.entries;
    } };

    ghost invariant = { λ s. IsWithin s.shared.connection s.shared.initial s.balances.entries };
}

impl SendWindows {
    ghost use Rattle.sendwindows.specs.Windows.{new_windows};

    /// The windows of a new connection, on which no stream is open. It takes no memory yet.
    pub fn new(alloc: Global) -> SendWindows
        ensures value { result ≡ new_windows }
        ensures follows { Follows [] result }
        ensures law { IsLawful result }
    {
        SendWindows {
            shared: ConnectionWindow::new(),
            balances: IndexMap::new(alloc),
        }
    }

    /// Opens a stream, whose window has the initial size.
    pub fn open(&mut self, id: StreamId) -> Result<(), WindowFault>
        requires stream { 0 < id }
        requires not_open { balance self.old id ≡ None }
        ensures ok { OnOk result (self.new ≡ opened self.old id) }
        ensures follows { OnOk result
            ((history : List Step) → Follows history self.old
            → Follows (Opening id ∷ history) self.new) }
        ensures unchanged { OnErr result (self.new ≡ self.old) }
        ensures memory { IfErr result (λ fault. fault ≡ OutOfMemory) }
        ensures law { IsLawful self.new }
    {
        self.balances.insert(id, Balance::new())?;
        Ok(())
    }

    /// Adds the increment of a WINDOW_UPDATE to a stream's window, or to the connection's where the
    /// id is 0. It refuses a stream without a window, and an increment exactly where the window
    /// would pass 2^31 - 1 (`Overflow`).
    pub fn credit(&mut self, id: StreamId, increment: u32) -> Result<(), WindowFault>
        ensures connection { OnOk result
            (id ≡ 0 → self.new ≡ record self.old { connection = self.old.connection + increment }) }
        ensures stream { OnOk result
            (0 < id → MatchOption (balance self.old id) ⊥
            (λ b. self.new ≡ with_balance self.old id (b +ℤ pos increment))) }
        ensures unchanged { OnErr result (self.new ≡ self.old) }
        ensures fault { Meets (CreditFault self.old id increment) result }
        ensures follows { OnOk result
            ((history : List Step) → Follows history self.old
            → Follows (Credit id increment ∷ history) self.new) }
        ensures can { OnOk result
            ((history : List Step) → Follows history self.old → CanCredit history id increment) }
        ensures cannot { OnErr result
            ((history : List Step) → Follows history self.old → ¬ CanCredit history id increment) }
        ensures law { IsLawful self.new }
    {
        if id == 0 {
            self.shared.credit(increment)?;
            return Ok(());
        }
        let Some(balance) = self.balances.get_mut(&id) else {
            return Err(WindowFault::Unknown);
        };
        self.shared.credit_stream(balance, increment)?;
        Ok(())
    }

    /// Takes a new initial size (SETTINGS_INITIAL_WINDOW_SIZE), which moves every stream's window
    /// by the difference. The connection's window stays. It takes time in the number of open
    /// streams.
    pub fn initial(&mut self, size: u32) -> Result<(), WindowFault>
        ensures ok { OnOk result (self.new ≡ record self.old { initial = size }) }
        ensures follows { OnOk result
            ((history : List Step) → Follows history self.old
            → Follows (Resizing size ∷ history) self.new) }
        ensures fits { OnOk result (FitsAt self.old size) }
        ensures can { OnOk result
            ((history : List Step) → Follows history self.old → CanResize history size) }
        ensures unchanged { OnErr result (self.new ≡ self.old) }
        ensures overflow { OnErr result (¬ FitsAt self.old size) }
        ensures cannot { OnErr result
            ((history : List Step) → Follows history self.old → ¬ CanResize history size) }
        ensures fault { IfErr result (λ fault. fault ≡ Overflow) }
        ensures law { IsLawful self.new }
    {
        let balances = &self.balances;
        if size > MAX_WINDOW {
            return Err(WindowFault::Overflow);
        }
        if !all_fit(balances, size) {
            return Err(WindowFault::Overflow);
        }
        self.shared.resize(size);
        Ok(())
    }

    /// Takes bytes of DATA that are sent on a stream out of its window and the connection's.
    pub fn spend(&mut self, id: StreamId, len: u32) -> Result<(), WindowFault>
        ensures ok { OnOk result (MatchOption (balance self.old id) ⊥ (λ b. self.new
            ≡ record (with_balance self.old id (b -ℤ pos len)) {
              connection = self.old.connection -
                  len;
            })) }
        ensures unchanged { OnErr result (self.new ≡ self.old) }
        ensures fault { Meets (SpendFault self.old id len) result }
        ensures follows { OnOk result
            ((history : List Step) → Follows history self.old
            → Follows (Spending id len ∷ history) self.new) }
        ensures law { IsLawful self.new }
    {
        let Some(balance) = self.balances.get_mut(&id) else {
            return Err(WindowFault::Unknown);
        };
        if len > self.shared.room(*balance) {
            return Err(WindowFault::NoRoom);
        }
        self.shared.take_out(balance, len);
        Ok(())
    }

    /// Takes as many bytes as may be sent now, and at most `most`, out of a stream's window and the
    /// connection's. Answers how many these are: 0 where `room` is 0.
    pub fn spend_up_to(&mut self, id: StreamId, most: u32) -> u32
        ensures value { result ≡ min (room self.old id) most }
        ensures room { 0 < id → (history : List Step) → Follows history self.old → result
            ≡ min (room_after history id) most }
        ensures spent { MatchOption (balance self.old id) (self.new ≡ self.old) (λ b. self.new
            ≡ record (with_balance self.old id (b -ℤ pos result)) {
              connection =
                  self.old.connection - result;
            }) }
        ensures unchanged { result ≡ 0 → self.new ≡ self.old }
        ensures follows { (history : List Step) → Follows history self.old
            → Follows (Spending id result ∷ history) self.new }
        ensures law { IsLawful self.new }
    {
        let Some(balance) = self.balances.get_mut(&id) else {
            return 0;
        };
        self.shared.spend_up_to(balance, most)
    }

    /// How many bytes may be sent on a stream now: the lesser of both windows, and 0 where either
    /// isn't positive or the stream isn't open.
    pub fn room(&self, id: StreamId) -> u32
        ensures value { result ≡ room self.now id }
        ensures follows { 0 < id → (history : List Step) → Follows history self.now → result
            ≡ room_after history id }
    {
        match self.balances.get(&id).copied() {
            Some(balance) => self.shared.room(balance),
            None => 0,
        }
    }

    /// Whether the stream is open.
    pub fn has(&self, id: StreamId) -> bool
        ensures { result ≡ is_some (balance self.now id) }
    {
        self.balances.contains_key(&id)
    }

    /// Closes a stream. If it isn't open nothing changes.
    pub fn close(&mut self, id: StreamId)
        ensures value { self.new ≡ closed self.old id }
        ensures follows { (history : List Step) → Follows history self.old
            → Follows (Closing id ∷ history) self.new }
        ensures law { IsLawful self.new }
    {
        self.balances.shift_remove(&id);
    }
}

/// Whether each stream's window with this initial size is at most 2^31 - 1 bytes.
fn all_fit(balances: &IndexMap<StreamId, Balance>, size: u32) -> bool
    ensures value { result
        ≡ list_all (λ balance. int_le (pos size +ℤ balance) (pos MAX_WINDOW))
        (values_of balances.now.entries) }
    ensures unique { IsUnique nat_eq balances.now }
{
    // `len` says that no key comes twice.
    let _count = balances.len();
    balances.values().all(|balance| balance.fits(size))
}
