//! Laws of a connection's events, for the proofs of callers. The functions do nothing.

ghost use Rattle.std.specs.Prelude.{◌≡◌, ◌≢◌, ◌<◌, ◌≤◌, ℕ, List, [], ◌∷◌, All, ◌++◌, true};
ghost use Rattle.std.specs.List.{list_any};
ghost use Rattle.session.specs.declared.event.InEvent.{InEvent as InEventOf};
ghost use Rattle.h2frame.specs.FrameList.{Entry, Joined};
ghost use Rattle.session.specs.Events.{
  Events,
  Group,
  GroupGives,
  IsCalm,
  Passes,
  Situation,
  is_fatal,
};
ghost use Rattle.session.specs.Framings.{Framed};
ghost use Rattle.session.specs.StreamData.{
  Unended,
  data_of,
  end_told,
  ending_told,
  is_opening,
  pieces,
};
ghost use Rattle.session.specs.Trailers.{EndsAs};
ghost use Rattle.session.specs.Openings.{AreRising, openings};
ghost use Rattle.session.specs.FlowBytes.{counted_told, payloads};
ghost use Rattle.session.specs.CoreStates.{Core, Reached};

/// A core has answered the events of the bytes that it was fed.
pub fn answers()
    ensures { (bytes : List ℕ) (given : List InEventOf) (core : Core) → Reached bytes given core
        → Events bytes given }
{}

/// After a fatal event there are no others, whatever bytes follow.
pub fn ends()
    ensures { (bytes more : List ℕ) (given : List InEventOf) →
        Events bytes given → list_any is_fatal given ≡ true → Events (bytes ++ more) given }
{}

/// One list of frames counts for all streams of a connection: those of the whole groups after its
/// preface. The bytes have nothing else but a header block that isn't whole, a fault, or what ends
/// the connection.
pub fn one_frame_list()
    ensures { (bytes : List ℕ) (given : List InEventOf) → Events bytes given
        → (entries : List Entry) × Framed bytes given entries }
{}

/// For a stream whose head isn't malformed, the pieces of data in the events are, joined, its data
/// by the frames that count.
pub fn stream_data()
    ensures { (bytes : List ℕ) (given : List InEventOf) (entries : List Entry) (id : ℕ) →
        Framed bytes given entries → list_any (is_opening id) given ≡ true → pieces id given
        ≡ data_of id entries }
{}

/// For such a stream, the first end in the events is the one by the frames that count; or, where
/// END_STREAM came with malformed trailers, an error of the stream.
pub fn stream_end()
    ensures { (bytes : List ℕ) (given : List InEventOf) (entries : List Entry) (id : ℕ) →
        Framed bytes given entries → list_any (is_opening id) given ≡ true
        → EndsAs id entries given }
{}

/// The numbers of the streams that begin rise, with or without the head of a call.
pub fn openings_rise()
    ensures { (bytes : List ℕ) (given : List InEventOf) → Events bytes given
        → AreRising (openings given) }
{}

/// The bytes that the events count for flow control, on streams and on the connection alone, are at
/// most those of the payloads of the DATA frames that count.
pub fn flow_bytes()
    ensures { (bytes : List ℕ) (given : List InEventOf) (entries : List Entry) →
        Framed bytes given entries → counted_told given ≤ payloads entries }
{}

/// Before a stream begins, unless its head is malformed, the events have neither data nor an end of
/// it.
pub fn before_opening()
    ensures { (bytes : List ℕ) (given before : List InEventOf) (event : InEventOf)
        (after : List InEventOf) (id : ℕ) →
        Events bytes given → given ≡ before ++ event ∷ after → is_opening id event ≡ true →
        (pieces id before ≡ []) × (ending_told id before ≡ Unended) }
{}

/// After an end of such a stream the events have no data of it.
pub fn behind_end()
    ensures { (bytes : List ℕ) (given before : List InEventOf) (event : InEventOf)
        (after : List InEventOf) (id : ℕ) →
        Events bytes given → list_any (is_opening id) given ≡ true →
        given ≡ before ++ event ∷ after → end_told id event ≢ Unended → pieces id after ≡ [] }
{}

/// The data of a stream by whole groups of frames, whatever follows them.
pub fn group_data()
    ensures { (text : List ℕ) (entries behind : List Entry) (rest : List ℕ) (given : List InEventOf)
        (now : Situation) (id : ℕ) →
        Joined text entries rest → Passes entries behind given now → list_any (is_opening id) given
        ≡ true →
        (front : List Entry) × (entries ≡ front ++ behind) × (pieces id given ≡ data_of id front) }
{}

/// The end of a stream by whole groups of frames, whether bytes spell them or not.
pub fn group_end()
    ensures { (entries behind : List Entry) (given : List InEventOf) (now : Situation) (id : ℕ) →
        Passes entries behind given now → list_any (is_opening id) given ≡ true →
        (front : List Entry) × (entries ≡ front ++ behind) × EndsAs id front given }
{}

/// A group of frames has one outcome: its events, and, if the connection goes on after them, what
/// the next frames are judged by.
pub fn one_outcome()
    ensures { (old new last : Situation) (group : Group) (given other : List InEventOf) →
        GroupGives old group given new → GroupGives old group other last →
        (given ≡ other) × (IsCalm given → new ≡ last) }
{}

/// The events of a longer input begin with those of a shorter one: no later byte changes an event
/// that came.
pub fn goes_on()
    ensures { (bytes more : List ℕ) (given longer : List InEventOf) →
        Events bytes given → Events (bytes ++ more) longer → (rest : List InEventOf)
        × (longer ≡ given ++ rest) }
{}

/// A byte list has one list of events and no other.
pub fn one_list()
    ensures { (bytes : List ℕ) (one other : List InEventOf) → Events bytes one → Events bytes other
        → one ≡ other }
{}

/// Each list of bytes has a list of events.
pub fn some_list()
    ensures { (bytes : List ℕ) → All (λ byte. byte < 256) bytes → (given : List InEventOf)
        × Events bytes given }
{}
