//! What was decided of a step.

ghost use Rattle.std.specs.Prelude.{◌≡◌, None, Some};
ghost use Rattle.account.specs.declared.call.Shut.TheVariants as shut;
ghost use Rattle.h2frame.specs.ErrorCode.{error_number};
ghost use Rattle.outwriter.specs.declared.control.WriterOrder.TheVariants as orders;

use account::Shut;
use callparts::{Ending, Naming, Order};
use h2frame::{ErrorCode, StreamId};
use outwriter::WriterOrder;

/// A half that is to be shut: its call's stream, and the way. In the credit book the call is cut.
#[derive(Clone, Copy, Debug, PartialEq, Eq)]
pub struct HalfToShut {
    pub id: StreamId,
    pub kind: Shut,
}

/// What was decided of a step.
#[derive(Drop)]
pub struct Decision<J: Naming> {
    /// The stream that a GOAWAY without an error names, where one is ordered first.
    pub goaway: Option<StreamId>,
    /// The order to the writing side.
    pub order: Option<Order<J>>,
    /// The half that is to be shut once the order was put.
    pub to_shut: Option<HalfToShut>,
    /// How the connection ends, if it does.
    pub ends: Option<Ending>,
}

impl<J: Naming> Decision<J> {
    /// Nothing is ordered.
    pub(crate) fn nothing() -> Decision<J>
        ensures { (result.goaway ≡ None) × (result.order ≡ None) × (result.to_shut ≡ None)
            × (result.ends ≡ None) }
    {
        Decision {
            goaway: None,
            order: None,
            to_shut: None,
            ends: None,
        }
    }

    /// This is ordered.
    pub(crate) fn order(order: Order<J>) -> Decision<J>
        ensures { (result.goaway ≡ None) × (result.order ≡ Some order) × (result.to_shut ≡ None)
            × (result.ends ≡ None) }
    {
        Decision {
            order: Some(order),
            ..Decision::nothing()
        }
    }

    /// A stream and the half of its call are reset with this code. `written` says whether
    /// RST_STREAM is to be written, which it isn't where the peer sent one.
    pub(crate) fn reset(id: StreamId, code: ErrorCode, written: bool) -> Decision<J>
        ensures order { (result.goaway ≡ None)
            × (result.order ≡ Some (orders.Reset id code written)) }
        ensures cut { result.to_shut ≡ Some
            (record { id = id; kind = shut.Reset (error_number code) }) }
        ensures ends { result.ends ≡ None }
    {
        let kind = Shut::Reset(code.code());
        Decision {
            order: Some(WriterOrder::Reset { id, code, written }),
            to_shut: Some(HalfToShut { id, kind }),
            ..Decision::nothing()
        }
    }
}
