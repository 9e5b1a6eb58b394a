//! What a call's handler is told where no message is left.

ghost use Rattle.std.specs.Prelude.{◌≡◌, None};
ghost use Rattle.account.specs.Runs.{telling};
ghost use Rattle.lpm.specs.Messages.{IsUnfinished};

use crate::call::{RequestEnd, Shut};
use lpm::Splitter;

/// What is told where a splitter has no whole message and no fault: how the half was shut, if it
/// was. For an end inside a message that is the fault.
///
/// It takes no memory, and time linear in the bytes that wait.
pub fn told_behind(splitter: &Splitter, shut: Option<Shut>) -> Option<RequestEnd>
    requires { IsUnfinished splitter.now }
    ensures { result ≡ telling None splitter.now shut }
{
    let Some(how) = shut else {
        return None;
    };
    match how {
        Shut::Reset(code) => Some(RequestEnd::Reset(code)),
        Shut::End => match splitter.end() {
            Ok(()) => Some(RequestEnd::End),
            Err(fault) => Some(RequestEnd::Fault(fault)),
        },
    }
}
