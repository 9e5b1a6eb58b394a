//! Laws of the definitions, for the proofs of callers and for readers. The functions do nothing.

ghost use mathlib.Core.List.{IsPrefix};
ghost use Rattle.std.specs.Prelude.{◌≡◌, ◌≢◌, ◌++◌, ◌∷◌, ℕ, List, None, Some, IsSome, nat_eq, true};
ghost use Rattle.std.specs.List.{list_any};
ghost use Rattle.account.specs.declared.call.Account.{Account};
ghost use Rattle.account.specs.declared.call.Shut.TheVariants as shut;
ghost use Rattle.callhead.specs.declared.head.CallHead.{CallHead as Head};
ghost use Rattle.callparts.specs.declared.report.Ending.{Ending as EndingOf};
ghost use Rattle.h2frame.specs.FrameList.{Entry};
ghost use Rattle.outwriter.specs.Steps.{Order};
ghost use Rattle.session.specs.declared.event.InEvent.{InEvent as InEventOf};
ghost use Rattle.session.specs.declared.event.InEvent.TheVariants as events;
ghost use Rattle.session.specs.Events.{Events};
ghost use Rattle.session.specs.Framings.{Framed};
ghost use Rattle.session.specs.StreamData.{Finished, ending_of, ending_told, pieces};
ghost use Rattle.readerloop.specs.AccountFrames.{HasFrames};
ghost use Rattle.readerloop.specs.Calls.{is_admitted};
ghost use Rattle.readerloop.specs.Orders.{orders_by};
ghost use Rattle.readerloop.specs.Reports.{AreCalm, AreHeard, WasResetFor, is_heard_out};
ghost use Rattle.readerloop.specs.Steps.{
  Admitted,
  Closing,
  IsRising,
  ShutAs,
  Step,
  Told,
  WasLetGo,
  admitted,
  closing_by,
  events_of,
  fed_by,
  head_of,
  shut_by,
  since,
};
ghost use Rattle.readerloop.specs.Streams.{HasEnd, HasStreamData};

/// As long as a half isn't closed, it is fed all data that the events have of its stream.
pub fn fed_while_open()
    ensures { (id : ℕ) (told : List Step) → closing_by id told ≡ None
        → fed_by id told ≡ pieces id (events_of told) }
{}

/// However a half was closed, what it is fed begins the data that the events have of its stream.
pub fn fed_front()
    ensures { (id : ℕ) (told : List Step) → IsPrefix (fed_by id told) (pieces id (events_of told)) }
{}

/// A half that ends was fed all data that came before the end, and no other end came before it.
pub fn ended_whole()
    ensures { (id : ℕ) (told : List Step) → shut_by id told ≡ Some shut.End →
        (before : List InEventOf) × (after : List InEventOf)
        × (events_of told ≡ before ++ events.End id ∷ after)
        × (fed_by id told ≡ pieces id before) × (ending_told id (events_of told) ≡ Finished) }
{}

/// Where END_STREAM is the first end of a call's stream, but the half was closed in another way, a
/// step before END_STREAM let the half go.
pub fn let_go_before()
    ensures { (id : ℕ) (closing : Closing) (told : List Step) → closing ≢ ShutAs shut.End
        → list_any (nat_eq id) (admitted told) ≡ true
        → ending_told id (events_of (since id told)) ≡ Finished
        → closing_by id (since id told) ≡ Some closing → WasLetGo id closing told }
{}

/// The events since a call was admitted are those after the one with which its stream begins.
pub fn since_opening()
    ensures { (id : ℕ) (told : List Step) → list_any (nat_eq id) (admitted told) ≡ true →
        (before : List InEventOf) × (head : Head)
        × (events_of told ≡ before ++ events.Open id head ∷ events_of (since id told)) }
{}

/// A call that was admitted has a head.
pub fn admitted_head()
    ensures { (id : ℕ) (told : List Step) → list_any (nat_eq id) (admitted told) ≡ true
        → IsSome (head_of id told) }
{}

/// Where ids rise, a stream has one call: the head with which it was admitted stays the call's.
pub fn one_head()
    ensures { (id : ℕ) (head : Head) (later before : List Step)
        → IsRising (later ++ Told (events.Open id head) Admitted ∷ before) →
        head_of id (later ++ Told (events.Open id head) Admitted ∷ before) ≡ Some head }
{}

/// The head of a call is that of the event that its stream begins with.
pub fn head_opens()
    ensures { (id : ℕ) (head : Head) (told : List Step) → head_of id told ≡ Some head →
        (before : List InEventOf)
        × (events_of told ≡ before ++ events.Open id head ∷ events_of (since id told)) }
{}

/// What a call was fed begins the data of its stream, by the frames of the bytes that came, and is
/// all of them where its half ended. This holds wherever the reader stopped hearing the events of
/// these bytes.
pub fn call_data()
    ensures { (came : List ℕ) (given : List InEventOf) (entries : List Entry) (told : List Step)
        (id : ℕ) →
        Framed came given entries → IsPrefix (events_of told) given →
        list_any (nat_eq id) (admitted told) ≡ true → HasStreamData id (since id told) entries }
{}

/// Where END_STREAM ended the stream of a call, and all events of the bytes that came were heard,
/// one of three holds. The half ended and was fed all data. Or a step before END_STREAM let the
/// half go: a piece of its data was lost, or no more of it was heard. Or the half was closed and
/// its trailers are malformed. No RST_STREAM of the client and no other error of the stream closed
/// it.
pub fn call_end()
    ensures { (came : List ℕ) (given : List InEventOf) (entries : List Entry) (told : List Step)
        (id : ℕ) →
        Framed came given entries → events_of told ≡ given →
        list_any (nat_eq id) (admitted told) ≡ true → ending_of id entries ≡ Finished
        → HasEnd id told entries }
{}

/// By the fields of `IsSettled`, a call was fed a front of its stream's data, by the frames that
/// count, and all of them where its half ended. Where END_STREAM ended the stream and all that came
/// was heard, the half ended; or it was reset, and a reset of the stream that is to be written was
/// ordered; or the call missed data.
pub fn account_by_frames()
    ensures { (end : EndingOf) (came : List ℕ) (told : List Step) (orders : List Order)
        (given : List InEventOf) (entries : List Entry) (id : ℕ) (account : Account) →
        AreHeard end came (events_of told) → (is_heard_out end ≡ true → WasResetFor told orders id)
        → is_admitted id told ≡ true →
        account.fed ≡ fed_by id (since id told) → account.shut ≡ shut_by id (since id told) →
        Events came given → Framed came given entries → HasFrames end entries orders id account }
{}

/// Where the half of a call was reset, though END_STREAM or an error of its stream came, a reset of
/// the stream that is to be written is among the orders that the steps lead to, as long as no step
/// ends the connection.
pub fn reset_is_ordered()
    ensures { (told : List Step) (id : ℕ) → AreCalm told → is_admitted id told ≡ true
        → WasResetFor told (orders_by told) id }
{}
