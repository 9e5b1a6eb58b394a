//! Laws of the frame list, for the proofs of callers. The functions do nothing.

ghost use Rattle.std.specs.Prelude.{◌≡◌, ◌<◌, ℕ, List, [], ◌++◌, All, Option, Some, map, flat_map};
ghost use Rattle.std.specs.List.{AllByRecursion};
ghost use Rattle.h2frame.specs.declared.fault.FrameFault.{FrameFault};
ghost use Rattle.h2frame.specs.declared.frame.Frame.{Frame};
ghost use Rattle.h2frame.specs.FrameList.{Entry, Whole, Spells, Joined, FrameList};
ghost use Rattle.h2frame.specs.Spelling.{spelled};

/// Bytes have one frame list and no other.
pub fn one_reading()
    ensures one { (bytes : List ℕ) (entries others : List Entry)
        (end last : Option FrameFault) →
        FrameList bytes entries end → FrameList bytes others last → (entries ≡ others)
        × (end ≡ last) }
    ensures some { (bytes : List ℕ) → All (λ byte. byte < 256) bytes →
        (entries : List Entry) × (end : Option FrameFault) × FrameList bytes entries end }
{}

/// A longer list of bytes has the entries of the shorter one first, and after a fault no others.
pub fn goes_on()
    ensures begins { (bytes piece : List ℕ) (entries all : List Entry)
        (end last : Option FrameFault) →
        FrameList bytes entries end → FrameList (bytes ++ piece) all last →
        (others : List Entry) × (all ≡ entries ++ others) }
    ensures stops { (bytes piece : List ℕ) (entries all : List Entry)
        (fault : FrameFault) (last : Option FrameFault) →
        FrameList bytes entries (Some fault) → FrameList (bytes ++ piece) all last →
        (entries ≡ all) × (last ≡ Some fault) }
{}

/// Entries that follow one another are joined.
pub fn joins()
    ensures joined { (bytes : List ℕ) (entries others : List Entry) (rest last : List ℕ) →
        Joined bytes entries rest → Joined rest others last
        → Joined bytes (entries ++ others) last }
    ensures longer { (bytes : List ℕ) (entries : List Entry) (rest piece : List ℕ) →
        Joined bytes entries rest → Joined (bytes ++ piece) entries (rest ++ piece) }

    // Frames that were written one after another are read so.
    ensures written { (frames : List Frame) →
        AllByRecursion (λ frame. Spells (spelled frame) (Whole frame)) frames →
        Joined (flat_map spelled frames) (map Whole frames) [] }
{}
