//! The initial windows of SETTINGS (RFC 9113, section 6.9.2).

ghost use Rattle.std.specs.Prelude.{◌≡◌, List, reverse, map, All, OnOk, OnErr};
ghost use Rattle.sendwindows.specs.WindowHistory.{Step, Resizing, Follows, CanResize};
ghost use Rattle.outwriter.specs.Histories.{window_sizes};
ghost use Rattle.outwriter.specs.Resizes.{IsSeen};
ghost use Rattle.outwriter.specs.States.{Moves, SameButWindows};

use crate::states::StreamStates;
use h2frame::PeerSetting;
use sendwindows::WindowFault;

/// Sets the initial windows of SETTINGS, of which the last counts. All of them have to fit, so the
/// greatest is tried first.
pub(crate) fn resize(states: &mut StreamStates, settings: &[PeerSetting]) -> Result<(), WindowFault>
    ensures rest { SameButWindows states.old states.new }
    ensures windows { OnOk result
        (Moves states.old (reverse (map Resizing (window_sizes settings.now))) states.new) }
    ensures fits { OnOk result ((history : List Step) → Follows history states.old.windows
        → All (CanResize history) (window_sizes settings.now)) }
    ensures overflow { OnErr result
        ((history : List Step) → Follows history states.old.windows
        → ¬ All (CanResize history) (window_sizes settings.now)) }
    ensures unchanged { OnErr result (states.new ≡ states.old) }
{
    let (greatest, last) = sizes(settings);
    let Some(size) = last else {
        return Ok(());
    };
    states.initial(greatest)?;
    states.initial(size)?;
    Ok(())
}

/// The greatest initial window of SETTINGS, and the last.
fn sizes(settings: &[PeerSetting]) -> (u32, Option<u32>)
    ensures { IsSeen (window_sizes settings.now) result.0 result.1 }
{
    let mut greatest = 0;
    let mut last = None;
    for setting in settings {
        if let PeerSetting::WindowSize(size) = *setting {
            greatest = size.max(greatest);
            last = Some(size);
        }
    }
    (greatest, last)
}
