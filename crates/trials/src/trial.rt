//! What came of a run of cases as a whole.

ghost use Rattle.std.specs.Prelude.{◌≡◌};
ghost use Rattle.trials.specs.declared.trial.TrialFault.TheVariants.{OutOfMemory, Failed};

use cases::ReportFault;
use device::DeviceFault;
use recorder::{Recorder, RecorderFault};
use results::{Choice, ChoiceFault};
use sinks::SinkFault;
use std::alloc::{AllocError, AllocFailed};
use std::sync::{Arc, Wait};
use wire::WireFault;
use words::Reporting;

/// What came of the cases that words name.
#[derive(Clone, Copy, Debug, PartialEq, Eq)]
pub enum RunVerdict {
    /// None failed that isn't known to.
    Passed,
    Failed,
    /// They name none.
    UnknownCase,
}

impl From<bool> for RunVerdict {
    fn from(has_passed: bool) -> RunVerdict {
        if has_passed {
            RunVerdict::Passed
        } else {
            RunVerdict::Failed
        }
    }
}

/// Why cases were not run to their end.
#[derive(Clone, Copy, Debug, PartialEq, Eq)]
pub enum TrialFault {
    /// The list of known failures can't be read as one.
    BadKnown,
    /// A file couldn't be read or written, or the clock not be read.
    Failed,
    /// No memory was to be had.
    OutOfMemory,
}

impl From<AllocError> for TrialFault {
    ghost from_gives = { λ _ given. given ≡ OutOfMemory };

    fn from(_error: AllocError) -> TrialFault {
        TrialFault::OutOfMemory
    }
}

impl<T: Drop> From<AllocFailed<T>> for TrialFault {
    ghost from_gives = { λ _ given. given ≡ OutOfMemory };

    fn from(_error: AllocFailed<T>) -> TrialFault {
        TrialFault::OutOfMemory
    }
}

impl From<DeviceFault> for TrialFault {
    ghost from_gives = { λ _ given. given ≡ Failed };

    fn from(_fault: DeviceFault) -> TrialFault {
        TrialFault::Failed
    }
}

impl From<SinkFault> for TrialFault {
    fn from(fault: SinkFault) -> TrialFault {
        match fault {
            SinkFault::BadKnown => TrialFault::BadKnown,
            SinkFault::WriteFailed | SinkFault::ReadFailed => TrialFault::Failed,
            SinkFault::OutOfMemory => TrialFault::OutOfMemory,
        }
    }
}

impl From<RecorderFault> for TrialFault {
    fn from(fault: RecorderFault) -> TrialFault {
        match fault {
            RecorderFault::NotMade => TrialFault::Failed,
            RecorderFault::OutOfMemory => TrialFault::OutOfMemory,
        }
    }
}

impl From<ReportFault> for TrialFault {
    fn from(fault: ReportFault) -> TrialFault {
        match fault {
            ReportFault::WriteFailed => TrialFault::Failed,
            ReportFault::OutOfMemory => TrialFault::OutOfMemory,
        }
    }
}

impl From<WireFault> for TrialFault {
    fn from(fault: WireFault) -> TrialFault {
        match fault {
            WireFault::OutOfMemory => TrialFault::OutOfMemory,
            WireFault::NoConnection(_)
            | WireFault::BadRow
            | WireFault::WriteFailed
            | WireFault::ClockFailed => { TrialFault::Failed }
        }
    }
}

/// The cases that words choose.
pub fn choice_of<'w, 'a>(names: &'w [&'a str], reporting: &'w Reporting<'a>) -> Choice<'w, 'a> {
    Choice {
        words: names,
        skip: reporting.skip.as_slice(),
        level: reporting.level,
    }
}

/// Says on standard error why words choose no case.
pub fn refuse_choice(rt: &impl Eprint, fault: ChoiceFault<'_>) -> Result<RunVerdict, TrialFault> {
    if fault == ChoiceFault::OutOfMemory {
        return Err(TrialFault::OutOfMemory);
    }
    // The exit status reports it even if nothing can be written here.
    let _said = eprintln!(rt; "interop: {fault}");
    Ok(RunVerdict::UnknownCase)
}

/// A run is over, and nothing more passes: its verdict, unless it couldn't be written what passed.
pub fn end_run(
    rt: &impl Wait,
    recorder: &Option<Arc<Recorder>>,
    verdict: Result<RunVerdict, TrialFault>,
) -> Result<RunVerdict, TrialFault> {
    let Some(recorder) = recorder else {
        return verdict;
    };
    recorder.finish(rt);
    let verdict = verdict?;
    if recorder.has_failed() {
        return Err(TrialFault::Failed);
    }
    Ok(verdict)
}
