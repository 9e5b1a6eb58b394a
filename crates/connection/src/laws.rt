//! Laws of a connection that was served, by the fields of its record (`IsServed`). The functions do
//! nothing.

ghost use mathlib.Core.List.{IsPrefix};
ghost use Rattle.std.specs.Prelude.{
  ◌≡◌,
  ◌⊎◌,
  ◌<◌,
  ◌++◌,
  ◌∷◌,
  ℕ,
  Bool,
  List,
  [],
  Option,
  false,
  true,
};
ghost use Rattle.std.specs.List.{list_any};
ghost use Rattle.account.specs.Accounts.{Begins};
ghost use Rattle.callhead.specs.declared.head.CallHead.{CallHead as Head};
ghost use Rattle.callparts.specs.Blocks.{items_of};
ghost use Rattle.callparts.specs.declared.accounts.Accounts.{Accounts};
ghost use Rattle.callparts.specs.declared.call_account.CallAccount.{CallAccount};
ghost use Rattle.callparts.specs.declared.report.Ending.{Ending as EndingOf};
ghost use Rattle.h2frame.specs.declared.error_code.ErrorCode.{ErrorCode as Code};
ghost use Rattle.h2frame.specs.declared.frame.Frame.{Frame};
ghost use Rattle.h2frame.specs.declared.kind.FrameKind.TheVariants.{RstStream};
ghost use Rattle.outwriter.specs.Calls.{TellOthers};
ghost use Rattle.outwriter.specs.declared.control.WriterOrder.TheVariants.{
  Close,
  InputEnded,
  Reset,
};
ghost use Rattle.outwriter.specs.Frames.{is_last, reset_frame};
ghost use Rattle.outwriter.specs.Parts.{IsPart, Mark};
ghost use Rattle.outwriter.specs.RunState.{IsAnswered};
ghost use Rattle.outwriter.specs.Runs.{IsLawful, told as duties_told};
ghost use Rattle.outwriter.specs.Steps.{Order, Step as RunStep, frames_of};
ghost use Rattle.readerloop.specs.Calls.{is_admitted};
ghost use Rattle.readerloop.specs.Orders.{orders_by};
ghost use Rattle.readerloop.specs.Reports.{AreCalm, is_heard_out};
ghost use Rattle.readerloop.specs.Steps.{Step, WasUnserved, events_of};
ghost use Rattle.writerloop.specs.Orders.{IsAmong, Obeys};
ghost use Rattle.session.specs.declared.event.InEvent.{InEvent as InEventOf};
ghost use Rattle.session.specs.Events.{Events};
ghost use Rattle.session.specs.Framings.{Framed};
ghost use Rattle.session.specs.FlowBytes.{payloads};
ghost use Rattle.h2frame.specs.FrameList.{Entry};
ghost use Rattle.connection.specs.Causes.{
  HasCauseOf,
  HasResetCause,
  IsOverWindow,
  IsRefusal,
  WasCut,
  WasTaken,
  WasTurnedAway,
  WasWritten,
};
ghost use Rattle.connection.specs.Codes.{MayHaveCode};
ghost use Rattle.connection.specs.History.{IsHistory};
ghost use Rattle.connection.specs.Limits.{
  AreFounded,
  AreJustified,
  EndsLast,
  IsOneTooMany,
  WasCutLast,
  WasDrained,
};
ghost use Rattle.connection.specs.Heard.{HasPut};
ghost use Rattle.connection.specs.News.{acknowledgements, answers_to, news_in, news_told, taken_by};
ghost use Rattle.connection.specs.Served.{IsServed};

use callparts::Answering;
use device::ConnWrite;

/// The reader orders each reset that is to be written for a cause in what it heard: RFC 9113,
/// section 5.4.2.
pub fn ordered_resets()
    ensures { (told : List Step) (put : List Order) (id : ℕ) (code : Code) →
        HasPut (orders_by told ++ InputEnded ∷ []) put → IsAmong (Reset id code true) put
        → HasResetCause code id told }
{}

/// Each reset that the writer took was ordered for such a cause, or is the writer's own, with its
/// cause in what the writer took before.
pub fn taken_resets()
    ensures { (told : List Step) (put : List Order) (run : List RunStep) (id : ℕ) (code : Code) →
        HasPut (orders_by told ++ InputEnded ∷ []) put → Obeys true put run
        → WasTaken (Reset id code true) run → HasCauseOf code id told put run }
{}

/// Each RST_STREAM that was written has the code of a cause (`HasCauseOf`), and nothing else:
/// section 6.4.
pub fn written_resets()
    ensures { (told : List Step) (put : List Order) (run : List RunStep) →
        HasPut (orders_by told ++ InputEnded ∷ []) put → Obeys true put run → IsLawful run →
        (frame : Frame) → WasWritten frame run → frame.head.kind ≡ RstStream →
        (code : Code) × (frame ≡ reset_frame frame.head.stream code)
        × HasCauseOf code frame.head.stream told put run }
{}

/// On a stream whose call no worker serves the server sends nothing, one RST_STREAM, or one header
/// block that ends the stream, with the fields of its refusal. It refuses a call as one of an
/// unknown method only where no method has its path.
pub fn streams_without_a_call<M: Answering>()
    ensures { (stopped : Bool) (told : List Step) (put : List Order) (run : List RunStep) →
        AreFounded M.names stopped told →
        HasPut (orders_by told ++ InputEnded ∷ []) put → Obeys true put run → TellOthers run →
        (id : ℕ) → is_admitted id told ≡ false →
        (part : List Mark) × IsPart id run part × IsRefusal M.names id told part }
{}

/// Where the connection ended as its reader saw, each call that was admitted was handed to a
/// worker.
pub fn handed_calls<M: Answering>()
    ensures { (stopped : Bool) (end : EndingOf) (told : List Step) →
        (is_heard_out end ≡ true → AreCalm told) → (stopped ≡ true → is_heard_out end ≡ false) →
        AreFounded M.names stopped told → is_heard_out end ≡ true →
        (id : ℕ) (head : Head) → WasUnserved id head told → ⊥ }
{}

/// The SETTINGS, PINGs and credit that the writer took begin those of the peer, in order.
pub fn some_news()
    ensures { (told : List Step) (put : List Order) (run : List RunStep) →
        HasPut (orders_by told ++ InputEnded ∷ []) put → Obeys true put run
        → IsPrefix (news_in (taken_by run)) (news_told (events_of told)) }
{}

/// The SETTINGS, PINGs and credit that the writer took are all of the peer's, in order, where each
/// order was put and taken.
pub fn all_news()
    ensures { (told : List Step) (put : List Order) (run : List RunStep) →
        put ≡ orders_by told ++ InputEnded ∷ Close ∷ [] → Obeys false put run
        → news_in (taken_by run) ≡ news_told (events_of told) }
{}

/// Among the frames that were written the acknowledgements of SETTINGS and of PINGs, each of these
/// with its bytes, begin those that the peer's frames ask for, once and in order: sections 6.5.3
/// and 6.7. No other SETTINGS follow the first, and any other PING is the server's own.
pub fn some_answers()
    ensures { (told : List Step) (put : List Order) (run : List RunStep) →
        HasPut (orders_by told ++ InputEnded ∷ []) put → Obeys true put run → IsLawful run
        → Begins (acknowledgements (duties_told run)) (answers_to (news_told (events_of told))) }
{}

/// Where the writer took each order and all was written, the peer's SETTINGS and PINGs are all
/// acknowledged, unless the last frame is a GOAWAY with an error.
pub fn all_answers()
    ensures { (told : List Step) (put : List Order) (run : List RunStep) →
        put ≡ orders_by told ++ InputEnded ∷ Close ∷ [] → Obeys false put run → IsAnswered run →
        list_any is_last (frames_of run) ≡ false
        → acknowledgements (duties_told run) ≡ answers_to (news_told (events_of told)) }
{}

/// The record of a connection that was served gives its history.
pub fn history<M: Answering, O: ConnWrite>()
    ensures { (came : List ℕ) (rest before : Option (List ℕ)) (read_failed : Bool) (end : EndingOf)
        (calls : Accounts) (device : O) (served : IsServed
        (λ calls. items_of calls.full calls.last) O.contents O.failed M.known M.names came rest
        before read_failed end calls device) →
        IsHistory came served.told served.put served.written.run
        (items_of calls.full calls.last) }
{}

/// Each RST_STREAM that was written has an error code with its cause (`MayHaveCode`), and nothing
/// else, however the connection ended: sections 5.4.2 and 7. So has each reset that the writer took
/// and that is to be written. The cause is in the bytes that came, the calls that were admitted,
/// what they were fed, whether they have a status, or the run.
pub fn reset_codes()
    ensures written { (came : List ℕ) (told : List Step) (put : List Order) (run : List RunStep)
        (accounts : List CallAccount) (given : List InEventOf) (entries : List Entry) →
        IsHistory came told put run accounts → Events came given → Framed came given entries
        → (frame : Frame) → WasWritten frame run → frame.head.kind ≡ RstStream →
        (code : Code) × (frame ≡ reset_frame frame.head.stream code)
        × MayHaveCode code frame.head.stream entries told put run accounts }
    ensures taken { (came : List ℕ) (told : List Step) (put : List Order) (run : List RunStep)
        (accounts : List CallAccount) (given : List InEventOf) (entries : List Entry) →
        IsHistory came told put run accounts → Events came given → Framed came given entries
        → (id : ℕ) (code : Code) → WasTaken (Reset id code true) run
        → MayHaveCode code id entries told put run accounts }
{}

/// A stream is refused with REFUSED_STREAM only where at least 64 calls were admitted before it,
/// all on lesser streams, or after a drain: sections 5.1.2 and 6.8.
pub fn turned_away()
    ensures { (came : List ℕ) (all : List InEventOf) (told : List Step) (id : ℕ) →
        Events came all → IsPrefix (events_of told) all → AreJustified told
        → WasTurnedAway id told → IsOneTooMany id told ⊎ WasDrained id told }
{}

/// DATA are past a stream's window only where the payloads of the DATA frames that came, padding
/// too, have more than 65,535 bytes: section 6.9.1.
pub fn over_window()
    ensures { (came : List ℕ) (given : List InEventOf) (entries : List Entry) (told : List Step)
        (id : ℕ) →
        Framed came given entries → IsPrefix (events_of told) given → AreJustified told
        → IsOverWindow id told → 65535 < payloads entries }
{}

/// A stream is cancelled only after the last event that was heard.
pub fn cancelled_last()
    ensures { (told : List Step) (id : ℕ) → EndsLast told → WasCut id told
        → WasCutLast id told }
{}
