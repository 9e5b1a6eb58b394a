//! The part of the windows of what is sent that all streams share, and the balance that each stream
//! has of its own (RFC 9113, section 6.9).
//!
//! A stream's window is the present initial size and the stream's balance, so a new initial size
//! writes one number, not one for each stream. The balances are in a table of the caller's, and
//! each function gets the balance of its stream. `Follows` says of the whole table that the
//! balances are what a history leaves.

ghost use Rattle.std.specs.Prelude.{
  ◌≡◌,
  ◌+◌,
  ◌-◌,
  ◌+ℤ◌,
  ◌-ℤ◌,
  ◌<◌,
  ◌≤◌,
  ◌<ℤ◌,
  int_le,
  min,
  pos,
  IfErr,
  OnErr,
  OnOk,
};
ghost use Rattle.sendwindows.specs.declared.send_windows.WindowFault.TheVariants.{Overflow};
ghost use Rattle.sendwindows.specs.Windows.{Fits, AreLawful, lesser};

use crate::WindowFault;
use limits::{INITIAL_WINDOW, MAX_WINDOW};
use std::marker::Model;

/// A stream's balance: what was credited to it less what was spent on it since it was opened.
#[derive(Clone, Copy)]
pub struct Balance {
    bytes: i64,
}

impl Model for Balance {
    ghost use Rattle.std.specs.Prelude.{ℤ};
    ghost use Rattle.sendwindows.specs.Windows.{IsBalance};

    ghost Value = { ℤ };

    ghost view = { λ b. b.bytes };

    ghost invariant = { λ b. IsBalance 0 b.bytes };

    ghost inverse = { λ bytes. record { bytes = bytes } };
}

impl Balance {
    /// The balance of a stream that is opened.
    pub fn new() -> Balance
        ensures { result ≡ pos 0 }
    {
        Balance { bytes: 0 }
    }

    /// Whether the stream's window with this initial size is at most 2^31 - 1 bytes.
    pub fn fits(self, size: u32) -> bool
        ensures { result ≡ int_le (pos size +ℤ self) (pos MAX_WINDOW) }
    {
        i64::from(size) + self.bytes <= i64::from(MAX_WINDOW)
    }
}

/// What all streams share: how many bytes of DATA the peer takes on the connection, and the initial
/// size of a stream's window.
#[derive(Drop)]
pub struct ConnectionWindow {
    connection: u32,
    initial: u32,
}

impl Model for ConnectionWindow {
    ghost use Rattle.sendwindows.specs.Windows.{SharedWindow, AreLawful};

    ghost Value = { SharedWindow };

    ghost view = { λ s. record { connection = s.connection; initial = s.initial } };

    ghost invariant = { λ s. AreLawful
        (record { connection = s.connection; initial = s.initial }) };
}

impl ConnectionWindow {
    ghost use Rattle.sendwindows.specs.Windows.{new_shared};

    /// The window of a new connection.
    pub fn new() -> ConnectionWindow
        ensures value { result ≡ new_shared }
        ensures law { AreLawful result }
    {
        ConnectionWindow {
            connection: INITIAL_WINDOW,
            initial: INITIAL_WINDOW,
        }
    }

    /// Adds the increment of a WINDOW_UPDATE to the connection's window.
    pub fn credit(&mut self, increment: u32) -> Result<(), WindowFault>
        ensures ok { OnOk result
            (self.new ≡ record self.old { connection = self.old.connection + increment }) }
        ensures fits { OnOk result (self.old.connection + increment ≤ MAX_WINDOW) }
        ensures unchanged { OnErr result (self.new ≡ self.old) }
        ensures over { OnErr result (MAX_WINDOW < self.old.connection + increment) }
        ensures fault { IfErr result (λ fault. fault ≡ Overflow) }
        ensures law { AreLawful self.new }
    {
        if increment > MAX_WINDOW - self.connection {
            return Err(WindowFault::Overflow);
        }
        self.connection += increment;
        Ok(())
    }

    /// Adds the increment of a WINDOW_UPDATE to a stream's window.
    pub fn credit_stream(&self, balance: &mut Balance, increment: u32) -> Result<(), WindowFault>
        ensures ok { OnOk result (balance.new ≡ balance.old +ℤ pos increment) }
        ensures fits { OnOk result (Fits ((pos self.now.initial +ℤ balance.old) +ℤ pos increment)) }
        ensures unchanged { OnErr result (balance.new ≡ balance.old) }
        ensures over { OnErr result
            (pos MAX_WINDOW <ℤ ((pos self.now.initial +ℤ balance.old) +ℤ pos increment)) }
        ensures fault { IfErr result (λ fault. fault ≡ Overflow) }
    {
        let raised = balance.bytes + i64::from(increment);
        if raised > i64::from(MAX_WINDOW - self.initial) {
            return Err(WindowFault::Overflow);
        }
        balance.bytes = raised;
        Ok(())
    }

    /// Takes another initial size (SETTINGS_INITIAL_WINDOW_SIZE), which moves every stream's window
    /// by the difference. `Balance::fits` says whether a window fits it. The connection's window
    /// stays.
    pub fn resize(&mut self, size: u32)
        requires { size ≤ MAX_WINDOW }
        ensures value { self.new ≡ record self.old { initial = size } }
        ensures law { AreLawful self.new }
    {
        self.initial = size;
    }

    /// How many bytes may be sent on a stream now: the lesser of both windows, and 0 where either
    /// isn't positive.
    pub fn room(&self, balance: Balance) -> u32
        ensures { result ≡ lesser self.now.connection (pos self.now.initial +ℤ balance) }
    {
        let window = i64::from(self.initial) + balance.bytes;
        if window <= 0 {
            return 0;
        }
        self.connection.min(window as u32)
    }

    /// Takes as many bytes as may be sent now, and at most `most`, out of both windows. Answers how
    /// many these are.
    pub fn spend_up_to(&mut self, balance: &mut Balance, most: u32) -> u32
        ensures value { result
            ≡ min (lesser self.old.connection (pos self.old.initial +ℤ balance.old)) most }
        ensures within { result ≤ self.old.connection }
        ensures connection { self.new
            ≡ record self.old { connection = self.old.connection - result } }
        ensures balance { balance.new ≡ balance.old -ℤ pos result }
        ensures law { AreLawful self.new }
    {
        let fits = self.room(*balance).min(most);
        self.take_out(balance, fits);
        fits
    }

    /// Takes bytes that are sent, which both windows let through, out of them.
    pub(crate) fn take_out(&mut self, balance: &mut Balance, len: u32)
        requires { len ≤ lesser self.old.connection (pos self.old.initial +ℤ balance.old) }
        ensures within { len ≤ self.old.connection }
        ensures connection { self.new ≡ record self.old { connection = self.old.connection - len } }
        ensures balance { balance.new ≡ balance.old -ℤ pos len }
        ensures law { AreLawful self.new }
    {
        self.connection -= len;
        balance.bytes -= i64::from(len);
    }
}
