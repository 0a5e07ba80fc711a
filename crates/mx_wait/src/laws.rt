//! Laws: functions that do nothing, whose contracts hold of every board; and what crosses threads.

ghost use Rattle.mx_wait.specs.Moves.{NoneIsLost};

use crate::parking::Wake;
use crate::resting::Waiters;

/// No wake is lost: who is parked at a stream is handed out by the time that a front is told which is greater than all that were
/// told when it was parked, whatever else was parked and told in between.
#[tactic(auto, using(crate::proofs::Lost::none_is_lost))]
pub fn none_is_lost<W: Wake + Drop>()
    ensures { NoneIsLost W }
{}

/// A value of the type may go to another thread, and threads may share it: a call at a type is proved only where that
/// holds.
fn crosses_threads<T: Send + Sync>() {}

/// Threads share those who wait.
pub fn waiters_cross_threads() {
    crosses_threads::<Waiters>();
}
