//! What snapshots stand for.

ghost use Rattle.mx_snapshot.specs.FirstRedactions.{FirstsAreOfRoom};

use crate::snapshot::Snapshot;
use mx_event::crosses_threads;

/// Where each room's list is valid, the first event that redacts one at a position is the first redaction in its own room.
pub fn first_redactions_are()
    ensures { FirstsAreOfRoom }
{}

/// A snapshot crosses threads.
pub fn snapshots_cross_threads() {
    crosses_threads::<Snapshot>();
}
