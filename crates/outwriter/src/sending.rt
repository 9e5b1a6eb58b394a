//! What a writer sends: the connection's state, the senders of its calls, and whose turn it is.

ghost use Rattle.std.specs.Prelude.{
  ◌≡◌,
  ◌<◌,
  List,
  [],
  ◌∷◌,
  Some,
  OnOk,
  OnErr,
  IfErr,
  length,
  vec_len,
  vec_capacity,
};

use crate::control::{OutFault, WriterOrder};
use crate::outbound::Outbound;
use account::OutItem;
use callbox::Sender;
use h2frame::StreamId;
use lane::Lane;
use std::alloc::{AllocError, Global};
use std::collections::VecDeque;

/// The connection's state with its calls: what was written, and which stream has something to write
/// next.
#[derive(Drop)]
pub(crate) struct Sending<L: Lane<Item = OutItem>> {
    pub(crate) outbound: Outbound,
    /// The senders that weren't given back.
    pub(crate) senders: Vec<(StreamId, Sender<L>)>,
    /// The open streams that had something when they were last looked at, and take turns.
    pub(crate) ready: VecDeque<StreamId>,
    /// The place of the sender whose stream is looked at next out of turn.
    pub(crate) cursor: usize,
}

impl<L: Lane<Item = OutItem>> Sending<L> {
    ghost use Rattle.outwriter.specs.RunState.{MirrorsOf};
    ghost use Rattle.outwriter.specs.States.{nothing_known};
    ghost use Rattle.outwriter.specs.Cores.{Brings, Keeps};
    ghost use Rattle.outwriter.specs.CoreChanges.{KeptStill, KeptWith};
    ghost use Rattle.outwriter.specs.Steps.{Step, Taken};
    ghost use Rattle.outwriter.specs.ToldByNow.{SpellsOf};
    ghost use Rattle.outwriter.specs.declared.control.WriterOrder.TheVariants as order;
    ghost use Rattle.outwriter.specs.declared.control.OutFault.TheVariants as out_fault;

    /// A connection on which nothing was written. It takes no memory yet.
    pub(crate) fn new(alloc: Global) -> Sending<L>
        ensures mirrors { MirrorsOf [] result.outbound }
        ensures spells { SpellsOf [] result.outbound [] }
        ensures due { result.outbound.due.items ≡ [] }
        ensures states { result.outbound.states ≡ nothing_known }
        ensures senders { result.senders.items ≡ [] }
    {
        Sending {
            outbound: Outbound::new(alloc),
            senders: Vec::new(alloc),
            ready: VecDeque::new(alloc),
            cursor: 0,
        }
    }

    /// Begins a call. Out of memory, it hands the control back.
    pub(crate) fn begin(
        &mut self,
        id: StreamId,
        sender: Sender<L>,
    ) -> Result<(), OutFault<Sender<L>>>
        ensures kept { OnOk result (L.got sender.rx ≡ [] → (run : List Step)
            → Keeps L.got run self.old → Keeps L.got
            (Taken (order.Open id tt) ∷ run) self.new) }
        ensures still { OnErr result ((run : List Step) → Keeps L.got run self.old
            → Keeps L.got run self.new) }
        ensures back { IfErr result (λ fault. fault
            ≡ out_fault.OutOfMemory (Some (order.Open id sender))) }
        ensures brings { Brings result
            (order.Open id sender) self.old.senders.items self.new.senders.items }
        ensures encoder { self.new.outbound.encoder ≡ self.old.outbound.encoder }
    {
        match self.prepare(id) {
            Ok(()) => {
                self.senders.push_reserved((id, sender));
                Ok(())
            }
            Err(_e) => Err(OutFault::OutOfMemory(Some(WriterOrder::Open(id, sender)))),
        }
    }

    /// Prepares all that a call needs but its sender. A stream that was refused, reset or opened
    /// before isn't opened.
    fn prepare(&mut self, id: StreamId) -> Result<(), AllocError>
        ensures kept { OnOk result
            (KeptWith id (length self.old.senders.items) self.old.outbound self.new.outbound) }
        ensures still { OnErr result (KeptStill self.old.outbound self.new.outbound) }
        ensures room { OnOk result (vec_len self.new.senders < vec_capacity self.new.senders) }
        ensures senders { self.new.senders.items ≡ self.old.senders.items }
        ensures encoder { self.new.outbound.encoder ≡ self.old.outbound.encoder }
    {
        self.senders.reserve(1)?;
        let place = self.senders.len();
        self.ready.reserve(place.saturating_add(1))?;
        self.outbound.take_open(id, place)
    }
}
