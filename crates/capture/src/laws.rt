//! Laws of reading back what was written, for callers. The functions do nothing.

ghost use Rattle.std.specs.Prelude.{◌≡◌, ℕ, List, ◌++◌};
ghost use Rattle.capture.specs.declared.packet.Packet.{Packet as PacketOf};
ghost use Rattle.capture.specs.Format.{AreRecords, IsCapture, IsFileHead};

/// A file has one list of packets and no other.
pub fn one_capture()
    ensures { (bytes : List ℕ) (packets others : List PacketOf) →
        IsCapture bytes packets → IsCapture bytes others → packets ≡ others }
{}

/// Records that follow one another are joined.
pub fn joins()
    ensures { (text more : List ℕ) (packets others : List PacketOf) →
        AreRecords text packets → AreRecords more others
        → AreRecords (text ++ more) (packets ++ others) }
{}

/// A file whose head is followed by records has their packets.
pub fn is_capture()
    ensures { (head text : List ℕ) (packets : List PacketOf) →
        IsFileHead head → AreRecords text packets → IsCapture (head ++ text) packets }
{}
