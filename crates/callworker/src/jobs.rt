//! Where a worker waits for its calls.

ghost use Rattle.std.specs.Prelude.{◌≡◌, [], ◌∷◌, ◌++◌, IfSome};
ghost use Rattle.rtrb.specs.Ring.{received};
ghost use Rattle.lane.specs.RingEnds.{consumer_name};
ghost use Rattle.callparts.specs.Workers.{IsFreshWork};

use crate::pace::IDLE;
use callparts::{Job, Line, Naming, TasksOut};
use std::sync::Wait;
use std::time::Duration;

/// Waits for the next call. None where no more calls come.
pub fn next_job<R: Wait, J: Naming>(rt: &R, line: &Line, tasks: &mut TasksOut<J>) -> Option<Job<J>>
    ensures name { consumer_name tasks.new ≡ consumer_name tasks.old }
    ensures taken { received tasks.new ≡ received tasks.old ++ result ∷ [] }
    ensures fresh { IfSome result (λ job. IsFreshWork job.work) }
{
    'looks: for _ in rt.forever() {
        let mark = line.bell.mark();
        match tasks.pop() {
            Ok(task) => return task,
            Err(_empty) => {}
        }
        line.bell.wait_past(rt, mark, Duration::from_secs(IDLE));
    }
    unreachable!()
}
