//! What a whole header block means (RFC 9113, sections 4.3 and 8.1).

ghost use Rattle.std.specs.Prelude.{◌≡◌, ◌∷◌, ◌++◌, true, List, OnOk, IsSome};
ghost use Rattle.callhead.specs.MalformedHeads.{are_malformed_trailers};
ghost use Rattle.streamstates.specs.Halves.{Event, Stands, half_of};
ghost use Rattle.session.specs.declared.event.InEvent.{InEvent};
ghost use Rattle.session.specs.Streams.{end_of, is_accepted};
ghost use Rattle.session.specs.Blocks.{
  HeadGives,
  BlockGives,
  bad_head_events,
  after_bad_head,
  trailer_events,
  after_trailers,
};

use crate::event::InEvent;
use crate::judge::refuse;
use callhead::{CallHead, HeadFault, are_malformed_trailers};
use h2frame::{ErrorCode, Flags, FrameHead};
use hpack_codec::{Decoder, HpackFault};
use lists::Field;
use reasons::Reason;
use std::alloc::{AllocError, Global};
use streamstates::{FrameAction, Halves};

/// Adds the events of a whole header block to those before it. Its HEADERS, with this head, had
/// this verdict.
pub fn block_events(
    alloc: Global,
    halves: &mut Halves,
    decoder: &mut Decoder,
    head: &FrameHead,
    verdict: FrameAction,
    block: &[u8],
    events: &mut Vec<InEvent>,
) -> Result<(), AllocError>
    requires { is_accepted verdict ≡ true → IsSome (half_of halves.old head.now.stream) }
    ensures ok { OnOk result ((history : List Event) → Stands history halves.old
        → (given : List InEvent) × (next : List Event)
        × BlockGives decoder.old head.now verdict block.now history given next decoder.new
        × (events.new.items ≡ events.old.items ++ given) × Stands next halves.new) }
{
    let fields = match decoder.block(block) {
        Ok(fields) => fields,
        Err(HpackFault::OutOfMemory) => return Err(AllocError),
        Err(fault) => {
            events.push(InEvent::Fatal(Reason::Hpack(fault)))?;
            return Ok(());
        }
    };
    match verdict {
        FrameAction::Open => head_events(alloc, halves, head, fields.as_slice(), events),
        FrameAction::Accept => trailer_events(halves, head, fields.as_slice(), events),
        _ => refuse(verdict, head, events),
    }
}

/// The events of the fields that open a stream. A malformed head resets it.
fn head_events(
    alloc: Global,
    halves: &mut Halves,
    head: &FrameHead,
    fields: &[Field],
    events: &mut Vec<InEvent>,
) -> Result<(), AllocError>
    requires { IsSome (half_of halves.old head.now.stream) }
    ensures { OnOk result ((history : List Event) → Stands history halves.old
        → (given : List InEvent) × (next : List Event)
        × HeadGives head.now fields.now history given next
        × (events.new.items ≡ events.old.items ++ given) × Stands next halves.new) }
{
    match CallHead::read(alloc, fields) {
        Ok(call) => begin(InEvent::Open(head.stream, call), head, events),
        Err(HeadFault::OutOfMemory) => Err(AllocError),
        Err(fault) => bad_head_events(halves, head, fault, events),
    }
}

/// The events of fields that are no head of a call. Malformed ones reset their stream.
fn bad_head_events(
    halves: &mut Halves,
    head: &FrameHead,
    fault: HeadFault,
    events: &mut Vec<InEvent>,
) -> Result<(), AllocError>
    requires { IsSome (half_of halves.old head.now.stream) }
    ensures events { OnOk result
        (events.new.items ≡ events.old.items ++ bad_head_events fault head.now) }
    ensures follows { OnOk result ((history : List Event) → Stands history halves.old
        → Stands (after_bad_head fault head.now.stream history) halves.new) }
{
    if let HeadFault::Malformed = fault {
        halves.cut(head.stream);
        events.push(InEvent::BadHead(head.stream, fault))?;
        return Ok(());
    }
    begin(InEvent::BadHead(head.stream, fault), head, events)
}

/// The events of trailers. Malformed ones reset their stream (RFC 9113, section 8.1.1).
fn trailer_events(
    halves: &mut Halves,
    head: &FrameHead,
    fields: &[Field],
    events: &mut Vec<InEvent>,
) -> Result<(), AllocError>
    requires { IsSome (half_of halves.old head.now.stream) }
    ensures events { OnOk result (events.new.items
        ≡ events.old.items ++ trailer_events (are_malformed_trailers fields.now) head.now) }
    ensures follows { OnOk result ((history : List Event) → Stands history halves.old
        → Stands (after_trailers (are_malformed_trailers fields.now) head.now.stream history)
        halves.new) }
{
    if are_malformed_trailers(fields) {
        halves.cut(head.stream);
        let error = FrameAction::StreamError(ErrorCode::ProtocolError);
        return refuse(error, head, events);
    }
    end_event(head, events)
}

/// The first event of a stream, and its end where the HEADERS have it.
fn begin(event: InEvent, head: &FrameHead, events: &mut Vec<InEvent>) -> Result<(), AllocError>
    ensures { OnOk result (events.new.items ≡ events.old.items ++ event ∷ end_of head.now) }
{
    events.push(event)?;
    end_event(head, events)
}

fn end_event(head: &FrameHead, events: &mut Vec<InEvent>) -> Result<(), AllocError>
    ensures { OnOk result (events.new.items ≡ events.old.items ++ end_of head.now) }
{
    if head.flags.contains(Flags::END_STREAM) {
        events.push(InEvent::End(head.stream))?;
    }
    Ok(())
}
