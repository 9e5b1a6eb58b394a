//! Laws of what was sent of a call, by the accounts in the record of a connection (`IsServed`). The
//! functions do nothing.

ghost use Rattle.std.specs.Prelude.{◌≡◌, ◌⊎◌, ◌<◌, ◌∷◌, ◌++◌, ℕ, List, [], false, true};
ghost use Rattle.std.specs.List.{list_any};
ghost use Rattle.account.specs.declared.call.OutItem.{OutItem};
ghost use Rattle.callbox.specs.OutSides.{has_trailers};
ghost use Rattle.sendwindows.specs.WindowHistory.{room_after};
ghost use Rattle.sendwindows.specs.WindowHistory.{Step as WindowStep};
ghost use Rattle.callparts.specs.declared.call_account.CallAccount.{CallAccount};
ghost use Rattle.callparts.specs.declared.report.Ending.{Ending as EndingOf};
ghost use Rattle.outwriter.specs.Calls.{TellOthers, is_served};
ghost use Rattle.outwriter.specs.declared.control.WriterOrder.TheVariants.{Close, InputEnded};
ghost use Rattle.outwriter.specs.Frames.{ends};
ghost use Rattle.outwriter.specs.Histories.{HasHistory, is_stream, was_reset};
ghost use Rattle.outwriter.specs.Parts.{End, IsPart, Mark};
ghost use Rattle.outwriter.specs.Runs.{IsLawful, is_opened};
ghost use Rattle.outwriter.specs.Steps.{Order, Step as RunStep, frames_of};
ghost use Rattle.session.specs.declared.event.InEvent.{InEvent as InEventOf};
ghost use Rattle.session.specs.Events.{Events};
ghost use Rattle.readerloop.specs.Orders.{orders_by};
ghost use Rattle.readerloop.specs.Reports.{AreHeard, IsSettled, is_heard_out};
ghost use Rattle.readerloop.specs.Steps.{Step, events_of};
ghost use Rattle.writerloop.specs.Done.{HasAllBut};
ghost use Rattle.writerloop.specs.Orders.{Obeys};
ghost use Rattle.connection.specs.Heard.{HasPut};
ghost use Rattle.connection.specs.Sent.{CarriesWhatWasSent, IsWholeResponse, StreamEnd};

use callparts::Answering;

/// An Open that the writer took is the only one of its stream, and no Refuse of the stream was
/// taken before it: the numbers of the streams that begin rise (RFC 9113, section 5.1.1).
pub fn opened_once()
    ensures { (end : EndingOf) (came : List ℕ) (told : List Step) (put : List Order)
        (run : List RunStep) (given : List InEventOf) →
        AreHeard end came (events_of told) → Events came given
        → HasPut (orders_by told ++ InputEnded ∷ []) put → Obeys true put run
        → (id : ℕ) → is_opened id run ≡ true → is_served id run ≡ true }
{}

/// Where END_STREAM was written on the stream of an admitted call (RFC 9113, section 8.1), its
/// frames spell the whole response: the answer of the call's method to all that was taken, or
/// replies of it and a status of the server's own, and its account has the status.
pub fn whole_response<M: Answering>()
    ensures { (end : EndingOf) (came : List ℕ) (told : List Step) (put : List Order)
        (run : List RunStep) (given : List InEventOf) →
        AreHeard end came (events_of told) → Events came given
        → HasPut (orders_by told ++ InputEnded ∷ []) put → Obeys true put run → TellOthers run
        → (account : CallAccount)
        (on : IsSettled M.known M.names (CarriesWhatWasSent (is_heard_out end) run) told account)
        → (part : List Mark) × IsPart account.id run part × ((front : List Mark)
        → part ≡ front ++ End ∷ [] → IsWholeResponse M.known on.head on.whole account part) }
{}

/// Where all that came was heard, and the writer took each order, the stream of each admitted call
/// that a worker served ended with END_STREAM, or was reset; or no trailers of the call were sent,
/// since its windows were shut, or since nothing more of it was found: RFC 9113, sections 5.1 and
/// 6.9.
pub fn ended_streams<M: Answering>()
    ensures { (end : EndingOf) (came : List ℕ) (told : List Step) (put : List Order)
        (run : List RunStep) (given : List InEventOf) →
        AreHeard end came (events_of told) → Events came given
        → put ≡ orders_by told ++ InputEnded ∷ Close ∷ [] → Obeys false put run → IsLawful run
        → is_heard_out end ≡ true
        → (account : CallAccount)
        (on : IsSettled M.known M.names (CarriesWhatWasSent (is_heard_out end) run) told account)
        → is_stream account.id ≡ true → StreamEnd run account.id on.whole.sent }
{}

/// So trailers that were sent of a call ended its stream, unless it was reset.
pub fn trailers_end_streams()
    ensures { (run : List RunStep) (id : ℕ) (sent : List OutItem) → StreamEnd run id sent
        → has_trailers sent ≡ true
        → (list_any (ends id) (frames_of run) ≡ true) ⊎ (was_reset id run ≡ true) }
{}

/// And where its windows were open, a call that a worker served was answered with END_STREAM, or
/// its stream was reset; or its account says that no trailers of it were sent.
pub fn answered_calls<M: Answering>()
    ensures { (end : EndingOf) (told : List Step) (run : List RunStep) (account : CallAccount)
        (on : IsSettled M.known M.names (CarriesWhatWasSent (is_heard_out end) run) told account)
        → StreamEnd run account.id on.whole.sent
        → ((history : List WindowStep) → HasHistory run history
        → 0 < room_after history account.id)
        → (list_any (ends account.id) (frames_of run) ≡ true)
        ⊎ ((was_reset account.id run ≡ true) ⊎ (account.output.trailers_sent ≡ false)) }
{}

/// And a call whose windows let DATA through, of which no trailers were sent, has all that was sent
/// on its stream, unless that ended or was reset.
pub fn open_windows_hold_nothing()
    ensures { (run : List RunStep) (id : ℕ) (sent : List OutItem) → StreamEnd run id sent
        → ((history : List WindowStep) → HasHistory run history → 0 < room_after history id)
        → (list_any (ends id) (frames_of run) ≡ true)
        ⊎ ((was_reset id run ≡ true)
        ⊎ ((has_trailers sent ≡ false) × HasAllBut [] run id sent)) }
{}
