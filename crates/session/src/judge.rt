//! What a frame outside a header block means (RFC 9113, section 6).

ghost use Rattle.std.specs.Prelude.{◌≡◌, ◌<◌, ◌==◌, ◌++◌, true, List, length, IfOk, IsSome, OnOk};
ghost use Rattle.std.specs.Int.{w32, from_be_bytes};
ghost use Rattle.h2frame.specs.ErrorCode.{error_of};
ghost use Rattle.h2frame.specs.Flags.{has, ack};
ghost use Rattle.h2frame.specs.FrameList.{IsLawful};
ghost use Rattle.h2frame.specs.declared.kind.FrameKind.TheVariants.{
  Data,
  Headers,
  Ping,
  RstStream,
  Settings,
  WindowUpdate,
};
ghost use Rattle.streamstates.specs.Halves.{Event, IsJudged, Stands, half_of, verdict};
ghost use Rattle.session.specs.declared.event.InEvent.{InEvent};
ghost use Rattle.session.specs.Streams.{
  after_frame,
  is_accepted,
  data_events,
  reset_events,
  window_events,
  refusal,
  credit_head,
  credit_verdict,
  without_increment,
};
ghost use Rattle.session.specs.Frames.{Gives, SettingsGive, WindowGives, ping_events};

use crate::event::{InEvent, PeerControl};
use crate::settings::{SettingsFault, read_settings};
use h2frame::{ErrorCode, Flags, Frame, FrameHead, FrameKind, StreamId, increment, ping_bytes};
use reasons::Reason;
use std::alloc::{AllocError, Global};
use streamstates::{FrameAction, Halves};

/// Judges a frame of a stream. An error of the stream resets it.
#[tactic(auto, using(crate::proofs::LawfulFrames::accepted_begun))]
pub fn judge(halves: &mut Halves, head: &FrameHead) -> Result<FrameAction, AllocError>
    requires { IsJudged head.now }
    ensures verdict { IfOk result
        (λ answer. (history : List Event) → Stands history halves.old → answer
        ≡ verdict history head.now) }
    ensures follows { IfOk result (λ answer. (history : List Event) → Stands history halves.old
        → Stands (after_frame answer head.now history) halves.new) }
    ensures begun { IfOk result
        (λ answer. is_accepted answer ≡ true → IsSome (half_of halves.new head.now.stream)) }
{
    let verdict = halves.on(head)?;
    if let FrameAction::StreamError(_) = verdict {
        halves.cut(head.stream);
    }
    Ok(verdict)
}

/// Judges a WINDOW_UPDATE without an increment on a stream.
#[tactic(auto, using(crate::proofs::LawfulFrames::not_fatal))]
pub fn judge_credit(halves: &mut Halves, id: StreamId) -> Result<FrameAction, AllocError>
    requires { 0 < id }
    ensures verdict { IfOk result
        (λ answer. (history : List Event) → Stands history halves.old → answer
        ≡ credit_verdict history id) }
    ensures follows { IfOk result (λ answer. (history : List Event) → Stands history halves.old
        → Stands (after_frame answer (credit_head id) history) halves.new) }
{
    let head = credit_head(id);
    let verdict = without_increment(halves.on(&head)?);
    if let FrameAction::StreamError(_) = verdict {
        halves.cut(id);
    }
    Ok(verdict)
}

/// The head of a WINDOW_UPDATE on this stream.
pub(crate) fn credit_head(id: StreamId) -> FrameHead
    ensures { result ≡ credit_head id }
{
    FrameHead {
        kind: FrameKind::WindowUpdate,
        flags: Flags::NONE,
        stream: id,
        length: 4,
    }
}

/// The verdict of a WINDOW_UPDATE without an increment, by that of one with an increment.
fn without_increment(verdict: FrameAction) -> FrameAction
    ensures { result ≡ without_increment verdict }
{
    match verdict {
        FrameAction::Accept => FrameAction::StreamError(ErrorCode::ProtocolError),
        _ => verdict,
    }
}

/// Adds the events of a frame outside a header block to those before it, in order.
pub fn frame_events(
    alloc: Global,
    halves: &mut Halves,
    frame: Frame,
    events: &mut Vec<InEvent>,
) -> Result<(), AllocError>
    requires lawful { IsLawful frame }
    requires single { frame.head.kind ≡ Headers → ⊥ }
    ensures ok { OnOk result ((history : List Event) → Stands history halves.old
        → (given : List InEvent) × (next : List Event) × Gives history frame given next
        × (events.new.items ≡ events.old.items ++ given) × Stands next halves.new) }
{
    let event = match frame.head.kind {
        FrameKind::Data => return data_events(halves, frame, events),
        FrameKind::RstStream => return reset_events(halves, frame, events),
        FrameKind::WindowUpdate => return window_events(halves, frame, events),
        FrameKind::Settings => return settings_events(alloc, frame, events),
        FrameKind::Ping => return ping_events(frame, events),
        FrameKind::GoAway => InEvent::PeerGoaway,
        FrameKind::PushPromise => InEvent::Fatal(Reason::Push),
        FrameKind::Continuation | FrameKind::Headers => InEvent::Fatal(Reason::Lone),
        FrameKind::Priority | FrameKind::Unknown(_) => return Ok(()),
    };
    events.push(event)?;
    Ok(())
}

/// The events of a frame that isn't accepted, by its verdict.
pub(crate) fn refuse(
    verdict: FrameAction,
    head: &FrameHead,
    events: &mut Vec<InEvent>,
) -> Result<(), AllocError>
    ensures { OnOk result (events.new.items ≡ events.old.items ++ refusal verdict head.now) }
{
    match verdict {
        FrameAction::StreamError(error) => events.push(InEvent::StreamError(head.stream, error))?,
        FrameAction::ConnectionError(error) => {
            events.push(InEvent::Fatal(Reason::Stream(head.kind, error)))?
        }
        _ => {}
    }
    Ok(())
}

#[tactic(auto, using(crate::proofs::LawfulFrames::data_stream))]
fn data_events(
    halves: &mut Halves,
    frame: Frame,
    events: &mut Vec<InEvent>,
) -> Result<(), AllocError>
    requires lawful { IsLawful frame }
    requires kind { frame.head.kind ≡ Data }
    ensures ok { OnOk result ((history : List Event) → Stands history halves.old
        → (events.new.items ≡ events.old.items ++ data_events (verdict history frame.head) frame)
        × Stands (after_frame (verdict history frame.head) frame.head history) halves.new) }
{
    let verdict = judge(halves, &frame.head)?;
    data_of(verdict, frame, events)
}

/// The events of DATA with this verdict.
fn data_of(verdict: FrameAction, frame: Frame, events: &mut Vec<InEvent>) -> Result<(), AllocError>
    ensures { OnOk result (events.new.items ≡ events.old.items ++ data_events verdict frame) }
{
    let Frame { head, content } = frame;
    let id = head.stream;
    match verdict {
        FrameAction::Accept => {
            if head.length != 0 {
                events.push(InEvent::Data(id, content, head.length))?;
            }
            if head.flags.contains(Flags::END_STREAM) {
                events.push(InEvent::End(id))?;
            }
            Ok(())
        }
        FrameAction::ConnectionError(error) => {
            events.push(InEvent::Fatal(Reason::Stream(head.kind, error)))?;
            Ok(())
        }
        _ => {
            if head.length != 0 {
                events.push(InEvent::Loose(head.length))?;
            }
            refuse(verdict, &head, events)
        }
    }
}

#[tactic(auto, using(crate::proofs::LawfulFrames::reset_stream, crate::proofs::LawfulFrames::reset_length))]
fn reset_events(
    halves: &mut Halves,
    frame: Frame,
    events: &mut Vec<InEvent>,
) -> Result<(), AllocError>
    requires lawful { IsLawful frame }
    requires kind { frame.head.kind ≡ RstStream }
    ensures ok { OnOk result ((history : List Event) → Stands history halves.old
        → (events.new.items ≡ events.old.items ++ reset_events (verdict history frame.head) frame)
        × Stands (after_frame (verdict history frame.head) frame.head history) halves.new) }
{
    let verdict = judge(halves, &frame.head)?;
    reset_of(verdict, &frame, events)
}

/// The events of RST_STREAM with this verdict.
fn reset_of(
    verdict: FrameAction,
    frame: &Frame,
    events: &mut Vec<InEvent>,
) -> Result<(), AllocError>
    requires { length frame.now.content ≡ 4 }
    ensures { OnOk result (events.new.items ≡ events.old.items ++ reset_events verdict frame.now) }
{
    let id = frame.head.stream;
    if verdict != FrameAction::Accept {
        return refuse(verdict, &frame.head, events);
    }
    let error = error_code(frame.content.as_slice());
    events.push(InEvent::Reset(id, error))?;
    Ok(())
}

/// The error that four bytes name.
fn error_code(content: &[u8]) -> ErrorCode
    requires { length content.now ≡ 4 }
    ensures { result ≡ error_of (from_be_bytes w32 content.now) }
{
    ErrorCode::from_code(u32::from_be_bytes([content[0], content[1], content[2], content[3]]))
}

#[tactic(auto, using(crate::proofs::LawfulFrames::window_length))]
fn window_events(
    halves: &mut Halves,
    frame: Frame,
    events: &mut Vec<InEvent>,
) -> Result<(), AllocError>
    requires lawful { IsLawful frame }
    requires kind { frame.head.kind ≡ WindowUpdate }
    ensures ok { OnOk result ((history : List Event) → Stands history halves.old
        → (given : List InEvent) × (next : List Event)
        × WindowGives (frame.head.stream == 0) history frame given next
        × (events.new.items ≡ events.old.items ++ given) × Stands next halves.new) }
{
    if frame.head.stream == 0 {
        return window_of(FrameAction::Accept, &frame, events);
    }
    let verdict = judge(halves, &frame.head)?;
    window_of(verdict, &frame, events)
}

/// The events of WINDOW_UPDATE with this verdict.
fn window_of(
    verdict: FrameAction,
    frame: &Frame,
    events: &mut Vec<InEvent>,
) -> Result<(), AllocError>
    requires { length frame.now.content ≡ 4 }
    ensures { OnOk result (events.new.items ≡ events.old.items ++ window_events verdict frame.now) }
{
    let id = frame.head.stream;
    if verdict != FrameAction::Accept {
        return refuse(verdict, &frame.head, events);
    }
    let credit = PeerControl::Window(id, increment(frame.content.as_slice()));
    events.push(InEvent::Control(credit))?;
    Ok(())
}

#[tactic(auto, using(crate::proofs::LawfulFrames::settings_length))]
fn settings_events(alloc: Global, frame: Frame, events: &mut Vec<InEvent>) -> Result<(), AllocError>
    requires lawful { IsLawful frame }
    requires kind { frame.head.kind ≡ Settings }
    ensures { OnOk result
        ((given : List InEvent) × SettingsGive (has ack frame.head.flags) frame.content given
        × (events.new.items ≡ events.old.items ++ given)) }
{
    if frame.head.flags.contains(Flags::ACK) {
        return Ok(());
    }
    let event = match read_settings(alloc, frame.content.as_slice()) {
        Ok(settings) => InEvent::Control(PeerControl::Settings(settings)),
        Err(SettingsFault::Refused(reason)) => InEvent::Fatal(reason),
        Err(SettingsFault::OutOfMemory) => return Err(AllocError),
    };
    events.push(event)?;
    Ok(())
}

#[tactic(auto, using(crate::proofs::LawfulFrames::ping_length))]
fn ping_events(frame: Frame, events: &mut Vec<InEvent>) -> Result<(), AllocError>
    requires lawful { IsLawful frame }
    requires kind { frame.head.kind ≡ Ping }
    ensures { OnOk result
        (events.new.items ≡ events.old.items
        ++ ping_events (has ack frame.head.flags) frame.content) }
{
    if !frame.head.flags.contains(Flags::ACK) {
        let bytes = ping_bytes(frame.content.as_slice());
        events.push(InEvent::Control(PeerControl::Ping(bytes)))?;
    }
    Ok(())
}
