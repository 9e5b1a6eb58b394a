//! Laws of the definitions, for the proofs of callers and for readers. The functions do nothing.

ghost use Rattle.std.specs.Prelude.{◌≡◌, ◌≤◌, ◌+◌, ◌++◌, ℕ, List, false, take};
ghost use Rattle.std.specs.Int.{bytes_high_first};
ghost use Rattle.std.specs.List.{list_any};
ghost use Rattle.h2frame.specs.declared.error_code.ErrorCode.{ErrorCode};
ghost use Rattle.h2frame.specs.ErrorCode.{error_number};
ghost use Rattle.outwriter.specs.Credit.{granted, updated};
ghost use Rattle.outwriter.specs.Drains.{has_failed, last_goaway, ordered_goaway};
ghost use Rattle.outwriter.specs.Frames.{goaway_frame, is_last};
ghost use Rattle.outwriter.specs.Runs.{IsLawful, due, told};
ghost use Rattle.outwriter.specs.Steps.{Step, frames_of};
ghost use Rattle.reasons.specs.declared.Reason.{Reason};
ghost use Rattle.reasons.specs.declared.Reason.TheVariants.{Code};
ghost use Rattle.reasons.specs.Codes.{code_of};
ghost use Rattle.reasons.specs.Texts.{max_text};

/// In a lawful run WINDOW_UPDATE gives no more credit than was granted, on the connection and on
/// each stream: RFC 9113, section 6.9.
pub fn no_more_than_granted()
    ensures { (id : ℕ) (run : List Step) → IsLawful run → updated id run ≤ granted id run }
{}

/// Where no Goaway with an error was taken, no GOAWAY with an error was written: RFC 9113, section
/// 6.8.
pub fn none_is_last()
    ensures { (run : List Step) → IsLawful run → has_failed run ≡ false
        → list_any is_last (frames_of run) ≡ false }
{}

/// A GOAWAY begins with the last stream and the code, eight bytes, whatever debug data follow: RFC
/// 9113, section 6.8.
pub fn goaway_front()
    ensures { (last : ℕ) (reason : Reason) → take 8 (goaway_frame last reason).content
        ≡ bytes_high_first 4 last ++ bytes_high_first 4 (error_number (code_of reason)) }
{}

/// A GOAWAY whose reason is only a code has these eight bytes alone.
pub fn goaway_alone()
    ensures { (last : ℕ) (error : ErrorCode) → (goaway_frame last (Code error)).content
        ≡ bytes_high_first 4 last ++ bytes_high_first 4 (error_number error) }
{}

/// The debug data of a GOAWAY have 128 bytes at most.
pub fn goaway_is_short()
    ensures { (last : ℕ) (reason : Reason) → (goaway_frame last reason).head.length
        ≤ 8 + max_text }
{}

/// Where all that controls asked for was written, the last GOAWAY is that of the Goaway which was
/// taken last: RFC 9113, section 6.8.
pub fn last_goaway_is_ordered()
    ensures { (run : List Step) → IsLawful run → told run ≡ due run
        → last_goaway run ≡ ordered_goaway run }
{}
