//! Laws of the wire format. Each is the contract of a function with nothing to run.

ghost use Rattle.std.specs.Prelude.{
  ◌≡◌,
  ℕ,
  ◌^◌,
  ◌<◌,
  ◌≤◌,
  ◌++◌,
  ◌∷◌,
  [],
  ◌⊎◌,
  List,
  length,
  Option,
};
ghost use Rattle.std.specs.List.{AllByRecursion};
ghost use Rattle.pbwire.specs.declared.fault.WireFault.{WireFault as Fault};
ghost use Rattle.pbwire.specs.Varint.{IsVarint, StartsWithVarint, VarintFault};
ghost use Rattle.pbwire.specs.Fields.{Field, StartsWithField, StartsWithFields, FaultAt, IsReading};
ghost use Rattle.pbwire.specs.Spelling.{varint_spelling, spelling_of_all, FitsField};

/// A byte list has one reading: either it is the joined spellings of one list of fields, or it has
/// one fault, with one list of fields before it.
pub fn one_reading()
    ensures some { (input : List ℕ) →
        (fields : List Field) × (fault : Option Fault) × IsReading input fields fault }
    ensures no_other { (input : List ℕ) (fields others : List Field) (fault other : Option Fault) →
        IsReading input fields fault → IsReading input others other → (fields ≡ others)
        × (fault ≡ other) }
{}

/// What is written is read again, whatever follows it.
pub fn written_is_read()
    ensures { (fields : List Field) (rest : List ℕ) → AllByRecursion FitsField fields →
        StartsWithFields (spelling_of_all fields ++ rest) fields rest }
{}

/// Fields that are read one after another are the fields of the whole.
pub fn fields_join()
    ensures { (input : List ℕ) (fields : List Field) (middle : List ℕ) (field : Field)
        (rest : List ℕ) →
        StartsWithFields input fields middle → StartsWithField middle field rest →
        StartsWithFields input (fields ++ field ∷ []) rest }
{}

/// A byte list begins with one varint, or it has one fault.
pub fn one_varint()
    ensures some { (input : List ℕ) →
        ((number : ℕ) × (rest : List ℕ) × StartsWithVarint input number rest)
        ⊎ ((fault : Fault) × VarintFault input fault) }
    ensures no_other { (input : List ℕ) (m n : ℕ) (rest more : List ℕ) →
        StartsWithVarint input m rest → StartsWithVarint input n more → (m ≡ n) × (rest ≡ more) }
    ensures no_other_fault { (input : List ℕ) (fault other : Fault) →
        VarintFault input fault → VarintFault input other → fault ≡ other }
    ensures not_both { (input : List ℕ) (number : ℕ) (rest : List ℕ) (fault : Fault) →
        StartsWithVarint input number rest → VarintFault input fault → ⊥ }
{}

/// What is written of a number spells it, and no spelling of it is shorter.
pub fn shortest_varint()
    ensures spelled { (number : ℕ) → number < 2 ^ 64 → IsVarint (varint_spelling number) number }
    ensures shortest { (number : ℕ) (other : List ℕ) → number < 2 ^ 64 → IsVarint other number →
        length (varint_spelling number) ≤ length other }
{}
