//! The verdict on a case of its tries.

ghost use Rattle.std.specs.Prelude.{◌≡◌};
ghost use Rattle.wire.specs.Verdicts.{verdict_of};

use results::Verdict;

/// The verdict on a case, by how many of its tries passed.
pub fn verdict_of(tries: usize, passed: usize) -> Verdict
    ensures { result ≡ verdict_of tries passed }
{
    if passed == tries {
        Verdict::Ok
    } else if passed == 0 {
        Verdict::Failed
    } else {
        Verdict::Unsteady
    }
}
