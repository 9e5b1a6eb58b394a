//! The server's side of a connection, as far as it was written: all that decides which frames may
//! come next.
//!
//! It is the connection's state without the calls. Each frame leaves through one function of it,
//! whose clause is the law for that frame: whatever run led to the state before, the frame may be
//! written after it, and the run with the frame leads to the state after it.

ghost use Rattle.std.specs.Prelude.{
  Err,
  ◌==◌,
  ◌∷◌,
  if◌then◌else◌,
  ◌≢◌,
  ◌≡◌,
  ◌<◌,
  ◌^◌,
  ◌&&◌,
  ◌||◌,
  not,
  true,
  false,
  nat_lt,
  nat_le,
  ℕ,
  All,
  List,
  [],
  Some,
  None,
  OnOk,
  OnErr,
  IfErr,
};
ghost use Rattle.sendwindows.specs.WindowHistory.{Follows, CanCredit, CanResize, Closing};
ghost use Rattle.sendwindows.specs.WindowHistory.{Step as WindowStep};
ghost use Rattle.outwriter.specs.States.{
  Moves,
  SameOpen,
  SameOver,
  opening,
  open_at,
  is_heard,
  is_reset,
  knows,
  owed_on,
  nothing_known,
  pays,
};
ghost use Rattle.outwriter.specs.OpenStreams.{stream_at};
ghost use Rattle.outwriter.specs.Histories.{is_stream as is_number, table_sizes};
ghost use Rattle.outwriter.specs.TableLimits.{limited_by};
ghost use Rattle.outwriter.specs.ToldByNow.{SpellsOf};
ghost use Rattle.sendwindows.specs.declared.send_windows.WindowFault.TheVariants as window_fault;

use crate::blocks::HeaderBlock;
use crate::control::{OutFault, WriterOrder};
use crate::due::Due;
use crate::resize::resize;
use crate::states::StreamStates;
use h2frame::{ErrorCode, PeerSetting, PeerSettings, SmallContents, StreamId};
use hpack_codec::Encoder;
use limits::MAX_WINDOW;
use lists::{Field, Sequence};
use reasons::Reason;
use sendwindows::WindowFault;
use std::alloc::{AllocError, Global};
use std::collections::VecDeque;

/// What follows from the controls that were taken and the frames that were written.
#[derive(Drop)]
pub(crate) struct Outbound {
    /// Where the contents of small frames are written.
    pub(crate) small: SmallContents,
    /// Whether SETTINGS were written.
    pub(crate) begun: bool,
    /// Whether a GOAWAY with an error was written.
    pub(crate) gone: bool,
    pub(crate) encoder: Encoder,
    /// The header block that was begun and isn't whole.
    pub(crate) block: Option<HeaderBlock>,
    pub(crate) due: VecDeque<Due>,
    pub(crate) states: StreamStates,
}

impl Outbound {
    ghost use Rattle.std.specs.VecDeque.{deque_len, deque_capacity};
    ghost use Rattle.outwriter.specs.Steps.{Taken, Granted};
    ghost use Rattle.outwriter.specs.Histories.{HasWindow, Overflows, window_sizes};
    ghost use Rattle.outwriter.specs.RunState.{IsBetween, MirrorsOf, MirrorsOn, Stays};
    ghost use Rattle.outwriter.specs.CallState.{Takes, none_is_new};
    ghost use Rattle.outwriter.specs.CoreChanges.{
      KeptOn,
      becomes_open,
      due_reset,
      is_new_call as is_new_call_of,
    };
    ghost use Rattle.outwriter.specs.declared.control.OutFault.TheVariants as out_fault;
    ghost use Rattle.outwriter.specs.declared.control.WriterOrder.TheVariants as order;
    ghost use Rattle.outwriter.specs.declared.due.Due.TheVariants as due_kind;

    /// A connection on which nothing was written. It takes no memory yet.
    pub(crate) fn new(alloc: Global) -> Outbound
        ensures mirrors { MirrorsOf [] result }
        ensures spells { SpellsOf [] result [] }
        ensures due { result.due.items ≡ [] }
        ensures states { result.states ≡ nothing_known }
    {
        Outbound {
            small: SmallContents::new(alloc),
            begun: false,
            gone: false,
            encoder: Encoder::new(alloc),
            block: None,
            due: VecDeque::new(alloc),
            states: StreamStates::new(alloc),
        }
    }

    /// Whether SETTINGS were written, no GOAWAY with an error was, and no header block is
    /// unfinished.
    pub(crate) fn is_between(&self) -> bool
        ensures { result ≡ true → IsBetween self.now }
    {
        self.begun && !self.gone && self.block.is_none()
    }

    /// Makes room for one more frame that is due.
    pub(crate) fn make_room(&mut self) -> Result<(), AllocError>
        ensures stays { Stays self.old self.new }
        ensures room { OnOk result (deque_len self.new.due < deque_capacity self.new.due) }
        ensures states { self.new.states ≡ self.old.states }
        ensures takes { Takes [] none_is_new [] self.old self.new }
        ensures encoder { self.new.encoder ≡ self.old.encoder }
    {
        self.due.reserve(1)
    }

    /// Applies SETTINGS, which are the limits of the table and the initial windows, and owes their
    /// acknowledgement. Where a window would be larger than 2^31 - 1, none changes.
    pub(crate) fn take_settings(&mut self, settings: &PeerSettings) -> Result<(), WindowFault>
        requires room { deque_len self.old.due < deque_capacity self.old.due }
        ensures taken { MirrorsOn (Taken (order.Settings settings.now)) self.old self.new }
        ensures takes { Takes (due_kind.SettingsAck ∷ []) none_is_new
            (table_sizes settings.now) self.old self.new }
        ensures fits { OnOk result ((history : List WindowStep)
            → Follows history self.old.states.windows
            → All (CanResize history) (window_sizes settings.now)) }
        ensures over { OnErr result ((history : List WindowStep)
            → Follows history self.old.states.windows
            → ¬ All (CanResize history) (window_sizes settings.now)) }
        ensures limits { self.new.encoder ≡ limited_by self.old.encoder (table_sizes settings.now) }
    {
        self.due.push_back_reserved(Due::SettingsAck);
        limit_table(&mut self.encoder, settings.as_slice());
        resize(&mut self.states, settings.as_slice())
    }

    /// Owes the answer to a PING.
    pub(crate) fn take_ping(&mut self, bytes: [u8; 8])
        requires room { deque_len self.old.due < deque_capacity self.old.due }
        ensures taken { MirrorsOn (Taken (order.Ping bytes)) self.old self.new }
        ensures takes { Takes (due_kind.PingAck bytes ∷ []) none_is_new [] self.old self.new }
        ensures encoder { self.new.encoder ≡ self.old.encoder }
    {
        self.due.push_back_reserved(Due::PingAck(bytes));
    }

    /// Owes a PING of the server's own.
    pub(crate) fn take_probe(&mut self, bytes: [u8; 8])
        requires room { deque_len self.old.due < deque_capacity self.old.due }
        ensures taken { MirrorsOn (Taken (order.Probe bytes)) self.old self.new }
        ensures takes { Takes (due_kind.Ping bytes ∷ []) none_is_new [] self.old self.new }
        ensures encoder { self.new.encoder ≡ self.old.encoder }
    {
        self.due.push_back_reserved(Due::Ping(bytes));
    }

    /// Takes the peer's credit, and answers whether the window has room for it. Credit on a stream
    /// that isn't open changes nothing.
    pub(crate) fn take_window(&mut self, id: StreamId, increment: u32) -> bool
        ensures taken { MirrorsOn (Taken (order.Window id increment)) self.old self.new }
        ensures takes { Takes [] none_is_new [] self.old self.new }
        ensures fits { result ≡ true → (history : List WindowStep)
            → Follows history self.old.states.windows → HasWindow history id
            → CanCredit history id increment }
        ensures over { result ≡ false → (history : List WindowStep)
            → Follows history self.old.states.windows → Overflows history id increment }
        ensures encoder { self.new.encoder ≡ self.old.encoder }
    {
        let credited = self.states.credit(id, increment);
        !is_overflow(credited)
    }

    /// Opens the window of a call's stream, unless that is open, or the stream is over or was
    /// reset. A stream of which nothing was heard becomes open, with its sender at a place. Out of
    /// memory, it changes nothing.
    pub(crate) fn take_open(&mut self, id: StreamId, place: usize) -> Result<(), AllocError>
        ensures taken { OnOk result (MirrorsOn (Taken (order.Open id tt)) self.old self.new) }
        ensures stays { OnErr result (Stays self.old self.new) }
        ensures takes { OnOk result
            (Takes [] (λ other. is_new_call_of self.old id && (other == id)) [] self.old
            self.new) }
        ensures becomes { OnOk result ((k : ℕ)
            → open_at self.new.states k
            ≡ (if becomes_open self.old id && (k == id) then Some
            (stream_at place) else open_at self.old.states k)) }
        ensures takes_none { OnErr result (Takes [] none_is_new [] self.old self.new) }
        ensures encoder { self.new.encoder ≡ self.old.encoder }
    {
        open_state(&mut self.states, id, place)
    }

    /// Refuses a stream on which nothing was or will be written. Out of memory, it hands the
    /// control back and changes nothing.
    pub(crate) fn refuse<S>(
        &mut self,
        id: StreamId,
        fields: Sequence<Field>,
    ) -> Result<(), OutFault<S>>
        requires room { deque_len self.old.due < deque_capacity self.old.due }
        ensures kept { OnOk result (KeptOn (Taken (order.Refuse id fields)) self.old self.new) }
        ensures back { IfErr result (λ fault. fault
            ≡ out_fault.OutOfMemory (Some (order.Refuse id fields))) }
        ensures unchanged { OnErr result (self.new ≡ self.old) }
        ensures encoder { self.new.encoder ≡ self.old.encoder }
    {
        if !is_stream(id) || self.states.is_heard(id) {
            return Ok(());
        }
        match self.take_refuse(id, fields) {
            Ok(()) => Ok(()),
            Err(fields) => Err(OutFault::OutOfMemory(Some(WriterOrder::Refuse(id, fields)))),
        }
    }

    /// Owes the one header block of a stream. Out of memory, it hands its fields back and changes
    /// nothing.
    fn take_refuse(&mut self, id: StreamId, fields: Sequence<Field>) -> Result<(), Sequence<Field>>
        requires stream { 0 < id }
        requires number { id < 2 ^ 31 }
        requires room { deque_len self.old.due < deque_capacity self.old.due }
        ensures taken { OnOk result (MirrorsOn (Taken (order.Refuse id fields)) self.old self.new) }
        ensures takes { OnOk result
            (Takes (due_kind.Refuse id fields ∷ []) none_is_new [] self.old self.new) }
        ensures back { IfErr result (λ back. back ≡ fields) }
        ensures unchanged { OnErr result (self.new ≡ self.old) }
        ensures encoder { self.new.encoder ≡ self.old.encoder }
    {
        match self.states.hear(id) {
            Ok(()) => {
                self.due.push_back_reserved(Due::Refuse(id, fields));
                Ok(())
            }
            Err(_e) => Err(fields),
        }
    }

    /// Resets a stream, which then isn't open. Nothing is written on one that has ended or was
    /// reset. Out of memory, it hands the control back and changes nothing.
    pub(crate) fn reset<S>(
        &mut self,
        id: StreamId,
        code: ErrorCode,
        written: bool,
    ) -> Result<(), OutFault<S>>
        requires room { deque_len self.old.due < deque_capacity self.old.due }
        ensures kept { OnOk result
            (KeptOn (Taken (order.Reset id code written)) self.old self.new) }
        ensures back { IfErr result (λ fault. fault
            ≡ out_fault.OutOfMemory (Some (order.Reset id code written))) }
        ensures unchanged { OnErr result (self.new ≡ self.old) }
        ensures encoder { self.new.encoder ≡ self.old.encoder }
    {
        match self.take_reset(id, code, written) {
            Ok(()) => {
                self.states.close(id);
                Ok(())
            }
            Err(_e) => Err(OutFault::OutOfMemory(Some(WriterOrder::Reset { id, code, written }))),
        }
    }

    /// Resets a stream: its window is closed, no credit is owed on it, and nothing is written on it
    /// any more but RST_STREAM, where the Reset is to be written and the stream had neither ended
    /// nor been reset. Out of memory, it changes nothing.
    fn take_reset(&mut self, id: StreamId, code: ErrorCode, written: bool) -> Result<(), AllocError>
        requires room { deque_len self.old.due < deque_capacity self.old.due }
        ensures taken { OnOk result
            (MirrorsOn (Taken (order.Reset id code written)) self.old self.new) }
        ensures takes { OnOk result
            (Takes (due_reset self.old id code written) none_is_new []
            (record self.old { states = self.new.states }) self.new) }
        ensures marks { OnOk result ((k : ℕ)
            → (knows self.new.states k ≡ knows self.old.states k)
            × (is_reset self.new.states k
            ≡ ((is_number id && (k == id)) || is_reset self.old.states k))) }
        ensures heard { OnOk result ((k : ℕ)
            → is_heard self.new.states k
            ≡ ((is_number id && (k == id)) || is_heard self.old.states k)) }
        ensures over { OnOk result (SameOver self.old.states self.new.states) }
        ensures open { OnOk result (SameOpen self.old.states self.new.states) }
        ensures unchanged { OnErr result (self.new ≡ self.old) }
        ensures encoder { self.new.encoder ≡ self.old.encoder }
    {
        let is_due = written && self.may_write(id);
        reset_state(&mut self.states, id)?;
        if is_due {
            self.due.push_back_reserved(Due::Reset(id, code));
        }
        Ok(())
    }

    /// Owes n bytes more of credit.
    pub(crate) fn grant(&mut self, id: StreamId, n: u32)
        ensures taken { MirrorsOn (Granted id n) self.old self.new }
        ensures takes { Takes [] none_is_new [] self.old self.new }
        ensures rest { self.new ≡ record self.old { states = self.new.states } }
    {
        self.states.grant(id, n);
    }

    /// Owes GOAWAY.
    pub(crate) fn take_goaway(&mut self, last: StreamId, reason: Reason)
        requires room { deque_len self.old.due < deque_capacity self.old.due }
        ensures taken { MirrorsOn (Taken (order.Goaway last reason)) self.old self.new }
        ensures takes { Takes (due_kind.Goaway last reason ∷ []) none_is_new [] self.old self.new }
        ensures encoder { self.new.encoder ≡ self.old.encoder }
    {
        self.due.push_back_reserved(Due::Goaway(last, reason));
    }
}

/// Whether a window would be larger than 2^31 - 1 bytes.
fn is_overflow(credited: Result<(), WindowFault>) -> bool
    ensures over { result ≡ true → credited ≡ Err window_fault.Overflow }
    ensures fits { result ≡ false → credited ≢ Err window_fault.Overflow }
{
    match credited {
        Ok(()) => false,
        Err(WindowFault::Overflow) => true,
        Err(WindowFault::NoRoom) => false,
        Err(WindowFault::Unknown) => false,
        Err(WindowFault::OutOfMemory) => false,
    }
}

/// Whether it is the number of a stream (RFC 9113, section 5.1.1).
pub(crate) fn is_stream(id: StreamId) -> bool
    ensures { result ≡ (nat_lt 0 id && nat_le id MAX_WINDOW) }
{
    0 < id && id <= MAX_WINDOW
}

/// A call begins on a stream, if the number is a stream's.
fn open_state(states: &mut StreamStates, id: StreamId, place: usize) -> Result<(), AllocError>
    ensures owed { OnOk result ((other : ℕ) → owed_on states.new other ≡ owed_on states.old other) }
    ensures pays { OnOk result ((other : ℕ)
        → pays states.new other
        ≡ (if (is_number id && not (knows states.old id)) && (other == id) then not
        (is_reset states.old id) else pays states.old other)) }
    ensures known { OnOk result ((other : ℕ)
        → knows states.new other
        ≡ (((is_number id && not (knows states.old id)) && (other == id)) || knows states.old
        other)) }
    ensures resets { OnOk result ((other : ℕ)
        → is_reset states.new other ≡ is_reset states.old other) }
    ensures heard { OnOk result ((other : ℕ)
        → is_heard states.new other
        ≡ (((is_number id && not (knows states.old id)) && (other == id)) || is_heard states.old
        other)) }
    ensures over { OnOk result (SameOver states.old states.new) }
    ensures same { OnOk result ((is_number id && not (knows states.old id)) ≡ false
        → SameOpen states.old states.new) }
    ensures becomes { OnOk result ((k : ℕ)
        → open_at states.new k
        ≡ (if (is_number id && not (is_heard states.old id)) && (k == id) then Some
        (stream_at place) else open_at states.old k)) }
    ensures windows { OnOk result
        (Moves states.old (if is_number id then opening states.old id else []) states.new) }
    ensures unchanged { OnErr result (states.new ≡ states.old) }
{
    if !is_stream(id) {
        return Ok(());
    }
    states.open(id, place)
}

/// The state of a stream that is reset.
fn reset_state(states: &mut StreamStates, id: StreamId) -> Result<(), AllocError>
    ensures owed { OnOk result ((k : ℕ)
        → owed_on states.new k
        ≡ (if is_number id && (k == id) then 0 else owed_on states.old k)) }
    ensures pays { OnOk result ((k : ℕ)
        → pays states.new k
        ≡ (if is_number id && (k == id) then false else pays states.old k)) }
    ensures known { OnOk result ((k : ℕ) → knows states.new k ≡ knows states.old k) }
    ensures resets { OnOk result ((k : ℕ)
        → is_reset states.new k ≡ ((is_number id && (k == id)) || is_reset states.old k)) }
    ensures heard { OnOk result ((k : ℕ)
        → is_heard states.new k ≡ ((is_number id && (k == id)) || is_heard states.old k)) }
    ensures over { OnOk result (SameOver states.old states.new) }
    ensures open { OnOk result (SameOpen states.old states.new) }
    ensures windows { OnOk result (Moves states.old (Closing id ∷ []) states.new) }
    ensures unchanged { OnErr result (states.new ≡ states.old) }
{
    if !is_stream(id) {
        states.close_window(id);
        return Ok(());
    }
    states.reset(id)
}

/// Gives the encoder the limits that SETTINGS have for its table.
fn limit_table(encoder: &mut Encoder, settings: &[PeerSetting])
    ensures { encoder.new ≡ limited_by encoder.old (table_sizes settings.now) }
{
    for setting in settings {
        if let PeerSetting::TableSize(limit) = *setting {
            encoder.limit(limit);
        }
    }
}
