//! The core of a connection's writer: how it takes controls.
//!
//! An Open opens its stream's window, unless that is open, or the stream is over or was reset. So
//! each list of controls has a history, even one that opens a stream twice. A stream that is opened
//! again keeps its first sender; the second comes back by `into_senders` and is never asked.
//!
//! A dead core hands each control back, since nothing that it keeps is known to follow from its
//! run. What was written of each call stays a prefix, so its senders can be given back.

ghost use Rattle.std.specs.Prelude.{
  ◌≡◌,
  ◌≢◌,
  ◌&&◌,
  ◌||◌,
  not,
  ℕ,
  List,
  [],
  ◌∷◌,
  Some,
  None,
  Err,
  false,
  true,
  IsOk,
  OnOk,
  IfErr,
  IfSome,
};
ghost use Rattle.outwriter.specs.CallState.{Takes, none_is_new};
ghost use Rattle.outwriter.specs.Cores.{
  Brings,
  Leads,
  LeadsControl,
  LeadsOn,
  LeadsStill,
  calls,
  open_stream,
  takes_credit,
};
ghost use Rattle.outwriter.specs.declared.control.OutFault.TheVariants as out_fault;
ghost use Rattle.outwriter.specs.Runs.{may_owe};
ghost use Rattle.outwriter.specs.RunState.{Blames, Concerns, HasRoom, is_held};
ghost use Rattle.sendwindows.specs.Windows.{room};
ghost use Rattle.outwriter.specs.Calls.{TellFronts, TellReturned, TellOthers};
ghost use Rattle.outwriter.specs.Drains.{has_failed, is_going_away, was_probed};
ghost use Rattle.outwriter.specs.Frames.{IsSound, goaway_frame, is_last};
ghost use Rattle.outwriter.specs.Steps.{Step, Taken, Granted, Written};
ghost use Rattle.outwriter.specs.TableLimits.{TakesLimits};
ghost use Rattle.outwriter.specs.declared.control.WriterOrder.TheVariants as order;

use crate::control::{OutFault, WriterOrder};
use crate::frames::make_goaway;
use crate::out_frame::OutFrame;
use crate::sending::Sending;
use account::OutItem;
use callbox::Sender;
use h2frame::StreamId;
use lane::Lane;
use reasons::Reason;
use std::alloc::Global;

/// What a connection's writer keeps between frames.
#[derive(Drop)]
pub struct OutCore<L: Lane<Item = OutItem>> {
    /// Whether `next_frame` was out of memory.
    pub(crate) is_dead: bool,
    /// Whether a dead core may still write a GOAWAY.
    pub(crate) may_part: bool,
    /// Whether Close was taken.
    pub(crate) closed: bool,
    /// Whether a Goaway was taken, a Probe, and a Goaway with an error.
    pub(crate) is_leaving: bool,
    pub(crate) has_probed: bool,
    pub(crate) has_failed: bool,
    pub(crate) sending: Sending<L>,
}

impl<L: Lane<Item = OutItem>> OutCore<L> {
    /// The core of a connection on which nothing was written. It takes no memory yet.
    pub fn new(alloc: Global) -> OutCore<L>
        ensures leads { Leads L.got [] result }
        ensures alive { result.is_dead ≡ false }
        ensures open { result.closed ≡ false }
        ensures senders { result.sending.senders.items ≡ [] }
    {
        OutCore {
            is_dead: false,
            may_part: false,
            closed: false,
            is_leaving: false,
            has_probed: false,
            has_failed: false,
            sending: Sending::new(alloc),
        }
    }

    /// Takes a control. Out of memory, it hands the control back and changes nothing. A window that
    /// would be larger than 2^31 - 1 bytes is a fault of the peer: no window changes, and the
    /// control counts as taken. A dead core hands each control back. InputEnded and Close take no
    /// memory.
    pub fn control(&mut self, control: WriterOrder<Sender<L>>) -> Result<(), OutFault<Sender<L>>>
        // The control is the next step of the run, unless it is handed back. The sender of an Open
        // has given nothing before.
        ensures leads { LeadsControl L.got result control self.old self.new }

        // The sender of an Open that is taken comes after the others, and nothing else changes
        // them.
        ensures brings { Brings result control self.old.sending.senders.items
            self.new.sending.senders.items }

        // A fault of the peer is answered exactly where there is one.
        ensures fault { IfErr result (λ fault. (run : List Step) → Leads L.got run self.old
            → Blames fault control run) }
        ensures room { OnOk result ((run : List Step) → Leads L.got run self.old
            → HasRoom control run) }

        // The fault is of the stream to which the peer gave credit; for SETTINGS it is of the
        // connection.
        ensures whose { IfErr result (λ fault. Concerns fault control) }
        ensures alive { self.new.is_dead ≡ self.old.is_dead }
        ensures ended { self.old.is_dead ≡ false → control ≡ order.InputEnded → IsOk result }
        ensures closes { self.old.is_dead ≡ false → control ≡ order.Close → IsOk result }
        ensures dead { self.old.is_dead ≡ true
            → result ≡ Err (out_fault.OutOfMemory (Some control)) }
        ensures dead_stays { self.old.is_dead ≡ true → self.new ≡ self.old }

        // The encoder gets the limits that SETTINGS set for the header table, and its next header
        // block sets the least.
        ensures limits { TakesLimits result control self.old.sending.outbound.encoder
            self.new.sending.outbound.encoder }
    {
        if self.is_dead {
            return Err(OutFault::OutOfMemory(Some(control)));
        }
        match control {
            WriterOrder::InputEnded => Ok(()),
            WriterOrder::Close => {
                self.closed = true;
                Ok(())
            }
            other => self.obey(other),
        }
    }

    /// Takes a control that needs room.
    fn obey(&mut self, control: WriterOrder<Sender<L>>) -> Result<(), OutFault<Sender<L>>>
        requires living { self.old.is_dead ≡ false }
        requires goes_on { control ≢ order.InputEnded }
        requires open { control ≢ order.Close }
        ensures leads { LeadsControl L.got result control self.old self.new }
        ensures brings { Brings result control self.old.sending.senders.items
            self.new.sending.senders.items }
        ensures fault { IfErr result (λ fault. (run : List Step) → Leads L.got run self.old
            → Blames fault control run) }
        ensures room { OnOk result ((run : List Step) → Leads L.got run self.old
            → HasRoom control run) }
        ensures whose { IfErr result (λ fault. Concerns fault control) }
        ensures alive { self.new.is_dead ≡ self.old.is_dead }
        ensures limits { TakesLimits result control self.old.sending.outbound.encoder
            self.new.sending.outbound.encoder }
    {
        let Ok(()) = self.sending.outbound.make_room() else {
            return Err(OutFault::OutOfMemory(Some(control)));
        };
        match control {
            WriterOrder::Settings(settings) => {
                match self.sending.outbound.take_settings(&settings) {
                    Ok(()) => Ok(()),
                    Err(_fault) => Err(OutFault::PeerWindow(0)),
                }
            }
            WriterOrder::Ping(bytes) => {
                self.sending.outbound.take_ping(bytes);
                Ok(())
            }
            WriterOrder::Probe(bytes) => {
                self.has_probed = true;
                self.sending.outbound.take_probe(bytes);
                Ok(())
            }
            WriterOrder::Window(id, increment) => {
                if self.sending.outbound.take_window(id, increment) {
                    Ok(())
                } else {
                    Err(OutFault::PeerWindow(id))
                }
            }
            WriterOrder::Open(id, sender) => self.sending.begin(id, sender),
            WriterOrder::Refuse(id, fields) => self.sending.outbound.refuse(id, fields),
            WriterOrder::Reset { id, code, written } => self
                .sending
                .outbound
                .reset(id, code, written),
            WriterOrder::Goaway { last, reason } => {
                self.is_leaving = true;
                self.has_failed = self.fails_by(reason);
                self.sending.outbound.take_goaway(last, reason);
                Ok(())
            }
            WriterOrder::InputEnded | WriterOrder::Close => unreachable!(),
        }
    }

    /// Whether a GOAWAY that warns the peer may be sent (RFC 9113, section 6.8): the core lives,
    /// and no Goaway was taken.
    pub fn may_leave(&self) -> bool
        ensures unsaid { result ≡ true → (run : List Step) → Leads L.got run self.now
            → is_going_away run ≡ false }
        ensures value { result ≡ (not self.now.is_dead && not self.now.is_leaving) }
    {
        !self.is_dead && !self.is_leaving
    }

    /// Whether a PING of this side's own may be the first: the core lives, and no Probe was taken.
    pub fn may_probe(&self) -> bool
        ensures unsaid { result ≡ true → (run : List Step) → Leads L.got run self.now
            → was_probed run ≡ false }
        ensures value { result ≡ (not self.now.is_dead && not self.now.has_probed) }
    {
        !self.is_dead && !self.has_probed
    }

    /// Whether no GOAWAY with an error was written or is to be: the core lives, and no Goaway with
    /// an error was taken.
    pub fn is_faultless(&self) -> bool
        ensures none { result ≡ true → (run : List Step) → Leads L.got run self.now
            → has_failed run ≡ false }
        ensures value { result ≡ (not self.now.is_dead && not self.now.has_failed) }
    {
        !self.is_dead && !self.has_failed
    }

    /// Whether a Goaway with an error was taken, once one for this reason is.
    fn fails_by(&self, reason: Reason) -> bool
        ensures { (last : ℕ)
            → result ≡ (self.now.has_failed || is_last (goaway_frame last reason)) }
    {
        self.has_failed || reason.number() != 0
    }

    /// The last word of a dead core, once: GOAWAY, if SETTINGS were written, no header block is
    /// unfinished and no GOAWAY with an error was written. What else was due stays unwritten.
    /// Without memory there is no last word.
    pub fn farewell(&mut self, last: StreamId, reason: Reason) -> Option<OutFrame>
        ensures goaway { IfSome result (λ frame. frame ≡ goaway_frame last reason) }

        // The control that asks for it and then the frame are the next steps of the run.
        ensures leads { IfSome result (λ frame. (run : List Step) → Leads L.got run self.old
            → Leads L.got (Written frame ∷ Taken (order.Goaway last reason) ∷ run) self.new) }

        // Without a frame there is no step.
        ensures still { LeadsStill L.got self.old self.new }
        ensures sound { IfSome result IsSound }
        ensures dead { self.old.is_dead ≡ false → result ≡ None }

        // After it nothing more is said.
        ensures spent { self.old.may_part ≡ false → result ≡ None }
        ensures rest { self.new ≡ record self.old { may_part = self.new.may_part } }
        ensures once { self.new.may_part ≡ false }
    {
        let may_part = self.is_dead && self.may_part;
        self.may_part = false;
        if !may_part {
            return None;
        }
        match make_goaway(&mut self.sending.outbound.small, last, reason) {
            Ok(frame) => Some(frame),
            Err(_e) => None,
        }
    }

    /// Whether credit that is granted on a stream counts: its Open was taken, and it wasn't reset.
    /// On the connection, which is stream 0, credit always counts.
    pub fn takes_credit(&self, id: StreamId) -> bool
        ensures value { result ≡ takes_credit self.now id }
        ensures owes { self.now.is_dead ≡ false → (run : List Step) → Leads L.got run self.now
            → result ≡ may_owe id run }
    {
        self.sending.outbound.states.pays(id)
    }

    /// Owes n bytes more of credit, for a WINDOW_UPDATE, on a stream, or on the connection where it
    /// is 0. At most 2^31 - 1 are owed at once. Nothing changes in a dead core, or where credit
    /// doesn't count on the stream.
    pub fn grant(&mut self, id: StreamId, n: u32)
        // The grant is the next step of the run, which counts what is owed.
        ensures leads { LeadsOn L.got (Granted id n) self.old self.new }
        ensures dead_stays { self.old.is_dead ≡ true → self.new ≡ self.old }

        // What is due stays, and which streams are open, over or reset.
        ensures takes { Takes [] none_is_new [] self.old.sending.outbound
            self.new.sending.outbound }
        ensures rest { self.new ≡ record
            self.old {
              sending = record
                  self.old.sending {
                    outbound = record
                        self.old.sending.outbound { states = self.new.sending.outbound.states };
                  };
            } }
    {
        if !self.is_dead {
            self.sending.outbound.grant(id, n);
        }
    }

    /// Whether an item of the stream is in hand that a window keeps back. It says nothing of what
    /// the stream's sender still has.
    pub fn held(&self, id: StreamId) -> bool
        ensures { result ≡ is_held (open_stream self.now id)
            (room self.now.sending.outbound.states.windows id) }
    {
        self.sending.outbound.states.has_hand(id) && self.sending.outbound.states.room(id) == 0
    }

    /// The senders of all calls whose senders weren't given back.
    pub fn into_senders(self) -> Vec<(StreamId, Sender<L>)>
        ensures senders { result ≡ self.sending.senders }

        // The frames of each call begin what the items spell that its sender gave.
        ensures fronts { (run : List Step) → Leads L.got run self
            → TellFronts run (calls L.got result.items) }

        // The frames of each call whose sender was given back do so too.
        ensures returned { (run : List Step) → Leads L.got run self → TellReturned run }

        // A stream that was never opened has no frame, a reset, or what a Refuse asked for.
        ensures others { (run : List Step) → Leads L.got run self → TellOthers run }
    {
        let OutCore { sending, .. } = self;
        let Sending { senders, .. } = sending;
        senders
    }
}
