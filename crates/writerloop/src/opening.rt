//! Orders that open a call, and others.

ghost use Rattle.std.specs.Prelude.{◌≡◌, ◌++◌, ◌∷◌, [], IfErr, IfOk, OnErr, OnOk};
ghost use Rattle.lane.specs.RingLane.{got};
ghost use Rattle.outwriter.specs.Cores.{IsUnused};
ghost use Rattle.outwriter.specs.declared.control.WriterOrder.TheVariants as orders;
ghost use Rattle.outwriter.specs.Steps.{Taken, order_of};
ghost use Rattle.callparts.specs.Lanes.{OutSender};
ghost use Rattle.writerloop.specs.Orders.{OpensNone};
ghost use Rattle.writerloop.specs.Sent.{Adds, core_keys, keys};
ghost use Rattle.writerloop.specs.Wrote.{WritesOn};

use crate::frames::Frames;
use crate::order_outcome::OrderOutcome;
use crate::sends::Sends;
use callbox::Sender;
use callparts::{Naming, OpeningCall, Order, OutLane};
use device::ConnWrite;
use h2frame::StreamId;
use outwriter::WriterOrder;

/// A call begins: its sender goes to the core. Without memory the order comes back, and nothing
/// changes.
pub(crate) fn begin<J: Naming, W: ConnWrite>(
    frames: &mut Frames<OutLane, W>,
    sends: &mut Sends<J>,
    id: StreamId,
    opening: OpeningCall<J>,
) -> Result<(), Order<J>>
    requires aligned { keys sends.old.calls.items
        ≡ core_keys frames.old.core.sending.senders.items }
    ensures aligned { keys sends.new.calls.items ≡ core_keys frames.new.core.sending.senders.items }
    ensures wrote { OnOk result
        (WritesOn got W.contents W.failed (Taken (orders.Open id tt) ∷ []) frames.old frames.new) }
    ensures still { OnErr result (WritesOn got W.contents W.failed [] frames.old frames.new) }
    ensures adds { OnOk result
        (Adds id opening.sending.value sends.old.calls.items sends.new.calls.items) }
    ensures brings { OnOk result ((sender : OutSender) × (frames.new.core.sending.senders.items
        ≡ frames.old.core.sending.senders.items ++ (id, sender) ∷ [])) }
    ensures same { OnErr result ((sends.new.calls.items ≡ sends.old.calls.items)
        × (frames.new.core.sending.senders.items ≡ frames.old.core.sending.senders.items)) }
    ensures stands { frames.new.standing ≡ frames.old.standing }
    ensures way { sends.new.home ≡ sends.old.home }
    ensures back { IfErr result (λ order. order ≡ orders.Open id opening) }
{
    let Ok(()) = sends.reserve() else {
        return Err(WriterOrder::Open(id, opening));
    };
    let OpeningCall { mut sending, line } = opening;
    let Some(sender) = sending.sender.take() else {
        unreachable!();
    };
    match frames.take(WriterOrder::Open(id, sender), 0) {
        OrderOutcome::Done => {
            sends.push_reserved(id, sending, line);
            Ok(())
        }
        OrderOutcome::HandedBack(back) => {
            let WriterOrder::Open(_, again) = back else {
                unreachable!();
            };
            sending.sender = Some(again);
            Err(WriterOrder::Open(id, OpeningCall { sending, line }))
        }
        OrderOutcome::Ended(_) => unreachable!(),
        OrderOutcome::Unanswered(_) => unreachable!(),
    }
}

/// The control that an order is, if it opens no call; else the call that it opens.
pub(crate) fn split<J: Naming>(
    order: Order<J>,
) -> Result<WriterOrder<Sender<OutLane>>, (StreamId, OpeningCall<J>)>
    ensures plain { IfOk result OpensNone }
    ensures same { IfOk result (λ control. order_of control ≡ order_of order) }
    ensures opens { IfErr result (λ call. order ≡ orders.Open call.0 call.1) }
{
    match order {
        WriterOrder::Open(id, opening) => Err((id, opening)),
        WriterOrder::Settings(settings) => Ok(WriterOrder::Settings(settings)),
        WriterOrder::Ping(bytes) => Ok(WriterOrder::Ping(bytes)),
        WriterOrder::Probe(bytes) => Ok(WriterOrder::Probe(bytes)),
        WriterOrder::Window(id, increment) => Ok(WriterOrder::Window(id, increment)),
        WriterOrder::Refuse(id, fields) => Ok(WriterOrder::Refuse(id, fields)),
        WriterOrder::Reset { id, code, written } => Ok(WriterOrder::Reset { id, code, written }),
        WriterOrder::Goaway { last, reason } => Ok(WriterOrder::Goaway { last, reason }),
        WriterOrder::InputEnded => Ok(WriterOrder::InputEnded),
        WriterOrder::Close => Ok(WriterOrder::Close),
    }
}
