//! Laws of the definitions, for code that builds on them. The functions do nothing: their contracts
//! are the laws.

ghost use Rattle.std.specs.Prelude.{◌≡◌, ◌⊎◌, List};
ghost use Rattle.lists.specs.declared.field.Field.{Field};
ghost use Rattle.callhead.specs.declared.head.CallHead.{CallHead};
ghost use Rattle.callhead.specs.declared.fault.HeadFault.{HeadFault};
ghost use Rattle.callhead.specs.Heads.{IsHead, IsFirstFault};

/// Fields are at most one head of a call, have at most one first fault, and never both.
pub fn one_answer()
    ensures head { (fields : List Field) (call other : CallHead)
        → IsHead fields call → IsHead fields other → call ≡ other }
    ensures fault { (fields : List Field) (fault other : HeadFault)
        → IsFirstFault fields fault → IsFirstFault fields other → fault ≡ other }
    ensures never_both { (fields : List Field) (call : CallHead) (fault : HeadFault)
        → IsHead fields call → IsFirstFault fields fault → ⊥ }
{}

/// Each list of fields is a head of a call, or has a first fault.
pub fn some_answer()
    ensures { (fields : List Field) →
        ((head : CallHead) × IsHead fields head)
        ⊎ ((fault : HeadFault) × IsFirstFault fields fault) }
{}
