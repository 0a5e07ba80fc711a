//! The interleaving law of a stream: the contract of a function with an empty body.

ghost use Rattle.mx_front.specs.Laws.{SeesOneHistory, StepsGrow};

use crate::front::Stream;
use crate::handles::{Pass, Pen};
use mx_core::{Placed, crosses_threads, goes_to_threads};

/// Between any two steps of a stream there is one history. With the number of positions drawn and the blocks that are
/// held it is a state that a run of the machine reaches, and every position is below 2^48. What each pen and each pass
/// has seen begins it. Each store in it is lawful after those of its writer before it. A writer has one pen, which
/// knows all its stores.
pub fn seats_see_one_history<I: Placed>()
    ensures { SeesOneHistory I.lawful }
{}

/// The history of a stream grows: whatever begins it before a step of a seat begins it after the step.
pub fn steps_keep_history<I: Placed>()
    ensures { StepsGrow I.lawful }
{}

/// A stream crosses threads where its items do, and its pens and passes go to other threads.
pub fn streams_cross_threads<I: Placed + Drop + Send + Sync>() {
    crosses_threads::<Stream<I>>();
    goes_to_threads::<Pen<I>>();
    goes_to_threads::<Pass<I>>();
}
