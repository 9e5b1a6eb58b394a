//! Laws of the definitions, for code that builds on them. The functions do nothing: their contracts
//! are the laws.

ghost use Rattle.std.specs.Prelude.{◌≡◌, ◌≢◌, ◌<◌, ◌⊎◌, ℕ, List, All, Option};
ghost use Rattle.hpack_codec.specs.declared.fault.HpackFault.{HpackFault};
ghost use Rattle.hpack_codec.specs.declared.fault.HpackFault.TheVariants.{OutOfMemory};
ghost use Rattle.lists.specs.declared.field.Field.{Field};
ghost use Rattle.hpack_codec.specs.Table.{Table};
ghost use Rattle.hpack_codec.specs.Block.{IsBlock};
ghost use Rattle.hpack_codec.specs.Codec.{Reads, IsFirstFault};

/// A block has at most one reading over what a decoder kept, at most one first fault, and never
/// both. Want of memory is no fault of a block, and is left aside.
pub fn one_answer()
    // A block spells one list of fields over a table, and leads to one table, whatever its fields'
    // sizes.
    ensures block { (table next other : Table) (block : List ℕ) (fields others : List Field)
        → IsBlock table block fields next → IsBlock table block others other → (fields ≡ others)
        × (next ≡ other) }
    ensures reading { (kept next other : Option Table) (block : List ℕ) (fields others : List Field)
        → Reads kept block fields next → Reads kept block others other → (fields ≡ others)
        × (next ≡ other) }
    ensures fault { (kept : Option Table) (block : List ℕ) (fault other : HpackFault)
        → fault ≢ OutOfMemory → other ≢ OutOfMemory
        → IsFirstFault fault kept block → IsFirstFault other kept block → fault ≡ other }
    ensures never_both { (kept next : Option Table) (block : List ℕ) (fields : List Field)
        (fault : HpackFault)
        → fault ≢ OutOfMemory → Reads kept block fields next → IsFirstFault fault kept block → ⊥ }
{}

/// Each block of bytes has a reading over what a decoder kept, or a first fault. Want of memory is
/// no such fault.
pub fn some_answer()
    ensures { (kept : Option Table) (block : List ℕ) → All (λ byte. byte < 256) block →
        ((fields : List Field) × (next : Option Table) × Reads kept block fields next)
        ⊎ ((fault : HpackFault) × (fault ≢ OutOfMemory) × IsFirstFault fault kept block) }
{}
