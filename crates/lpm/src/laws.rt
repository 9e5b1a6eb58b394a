//! Laws of the definitions, for code that builds on them. The functions do nothing: their contracts
//! are the laws.

ghost use Rattle.std.specs.Prelude.{◌≡◌, ℕ, List, ◌++◌, length, Some, None, MatchOption, All};
ghost use Rattle.lpm.specs.declared.fault.LpmFault.{LpmFault};
ghost use Rattle.lpm.specs.declared.TheConstants.{MAX_MESSAGE_LEN};
ghost use Rattle.lpm.specs.Messages.{
  frame,
  frames,
  max_message_len,
  prefix_of,
  IsMessage,
  Spells,
  IsFaultyAfter,
  AreBytes,
};
ghost use Rattle.lpm.specs.Reading.{messages_of, rest_of, fault_of};

/// Every list of bytes spells messages and an unfinished rest, or is faulty after messages: exactly
/// one of both, and with one list of messages, `messages_of`.
pub fn one_reading()
    ensures some { (bytes : List ℕ) → AreBytes bytes → MatchOption (fault_of bytes)
        (Spells bytes (messages_of bytes) (rest_of bytes))
        (IsFaultyAfter bytes (messages_of bytes)) }
    ensures spelled { (bytes : List ℕ) (messages : List (List ℕ)) (rest : List ℕ)
        → Spells bytes messages rest
        → (messages_of bytes ≡ messages) × (rest_of bytes ≡ rest) × (fault_of bytes ≡ None) }
    ensures faulty { (bytes : List ℕ) (messages : List (List ℕ)) (fault : LpmFault)
        → IsFaultyAfter bytes messages fault
        → (messages_of bytes ≡ messages) × (fault_of bytes ≡ Some fault) }
    ensures never_both { (bytes : List ℕ) (messages others : List (List ℕ)) (rest : List ℕ)
        (fault : LpmFault)
        → Spells bytes messages rest → IsFaultyAfter bytes others fault → ⊥ }
{}

/// The messages of a longer list begin with those of a shorter one, and a fault stays.
pub fn longer_reading()
    ensures messages { (bytes more : List ℕ) → AreBytes (bytes ++ more)
        → (later : List (List ℕ)) × (messages_of (bytes ++ more) ≡ messages_of bytes ++ later) }
    ensures behind { (messages : List (List ℕ)) (rest : List ℕ) → All IsMessage messages
        → (messages_of (frames messages ++ rest) ≡ messages ++ messages_of rest)
        × (rest_of (frames messages ++ rest) ≡ rest_of rest)
        × (fault_of (frames messages ++ rest) ≡ fault_of rest) }
    ensures fault { (bytes more : List ℕ) (messages : List (List ℕ)) (fault : LpmFault)
        → IsFaultyAfter bytes messages fault → IsFaultyAfter (bytes ++ more) messages fault }
{}

/// The prefix of a message, and then the message, are its spelling.
pub fn prefix_and_message()
    ensures { (message : List ℕ) → prefix_of (length message) ++ message ≡ frame message }
{}

/// The longest message that the program reads or writes is the longest of the definitions.
pub fn longest_message()
    ensures { MAX_MESSAGE_LEN ≡ max_message_len }
{}
