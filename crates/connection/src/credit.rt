//! A law of the credit that the server announces on a connection, by the fields of its record
//! (`IsServed`). The function does nothing.

ghost use Rattle.std.specs.Prelude.{◌≤◌, ℕ, List};
ghost use Rattle.callparts.specs.declared.report.Ending.{Ending as EndingOf};
ghost use Rattle.h2frame.specs.FrameList.{Entry};
ghost use Rattle.outwriter.specs.Credit.{updated};
ghost use Rattle.outwriter.specs.Steps.{Step as RunStep};
ghost use Rattle.session.specs.declared.event.InEvent.{InEvent as InEventOf};
ghost use Rattle.session.specs.Events.{Events};
ghost use Rattle.session.specs.FlowBytes.{counted_told, payloads};
ghost use Rattle.session.specs.Framings.{Framed};
ghost use Rattle.readerloop.specs.Reports.{AreHeard};
ghost use Rattle.readerloop.specs.Steps.{Step, events_of};

/// The increments of WINDOW_UPDATE on the connection sum to at most the payloads, padding included,
/// of the DATA frames that came and count (RFC 9113, sections 6.1 and 6.9).
pub fn credit_by_frames()
    ensures { (end : EndingOf) (came : List ℕ) (told : List Step) (run : List RunStep)
        (given : List InEventOf) (entries : List Entry) →
        AreHeard end came (events_of told) → updated 0 run ≤ counted_told (events_of told) →
        Events came given → Framed came given entries → updated 0 run ≤ payloads entries }
{}
