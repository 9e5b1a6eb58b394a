//! Laws of how bytes are cut, for callers. The functions do nothing.

ghost use Rattle.std.specs.Prelude.{◌≡◌, ℕ, List, ◌++◌, Option};
ghost use Rattle.h2frame.specs.declared.fault.FrameFault.{FrameFault};
ghost use Rattle.h2frame.specs.declared.frame.Frame.{Frame as FrameOf};
ghost use Rattle.h2frame.specs.FrameList.{IsSpelling};
ghost use Rattle.trace.specs.declared.item.Item.{Item as ItemOf};
ghost use Rattle.trace.specs.declared.item.Item.TheVariants as items;
ghost use Rattle.trace.specs.declared.item.SideStage.{SideStage as StageOf};
ghost use Rattle.trace.specs.declared.item.SideStage.TheVariants as stages;
ghost use Rattle.trace.specs.Cuts.{Cut, IsUnfinished, Spells};

/// One piece cut after another gives what both give together.
pub fn joins()
    ensures { (first next last : StageOf) (bytes rest piece left : List ℕ)
        (items others : List ItemOf) →
        Cut first bytes items next rest → Cut next (rest ++ piece) others last left
        → Cut first (bytes ++ piece) (items ++ others) last left }
{}

/// Bytes are cut in one way alone.
pub fn one_cut()
    ensures { (first next last : StageOf) (bytes rest left : List ℕ)
        (items others : List ItemOf) →
        Cut first bytes items next rest → IsUnfinished next rest →
        Cut first bytes others last left → IsUnfinished last left →
        (items ≡ others) × (rest ≡ left) }
{}

/// A frame, as a reader of frames reads it, is an item with its head.
pub fn reads_frames()
    ensures { (text : List ℕ) (frame : FrameOf) (fault : Option FrameFault) →
        IsSpelling text frame fault
        → (payload : List ℕ) × Spells stages.InFrames text (items.Frame frame.head payload) }
{}
