//! A write in a writer's turn.

ghost use Rattle.std.specs.Prelude.{◌≡◌, ◌<◌};
ghost use Rattle.mx_front.specs.Shown.{place_of, stop_of, writers_of, reads, place_of_pass};
ghost use Rattle.mx_writers.specs.Writes.{MayLose, WasTold, WritesSeen};

use crate::answers::{Refused, Written};
use crate::folds::Folds;
use crate::gate::{Gate, Watch};
use crate::shards::Writers;
use crate::writing::write_noted;
use mx_front::Pass;
use std::alloc::Global;
use std::hint::spin_loop;
use std::sync::{Mutex, MutexGuard, Wait};

/// How often a door is looked at before its lock is waited for asleep: for some 15 microseconds, in which a few writes end.
const LOOKS: u32 = 300;

impl<F: Folds> Writers<F> {
    /// Decides on a draft by the own stores of a writer, in its turn, and stores the items where it decides on some.
    /// The answer is as that of `write_in`, with its faults. The pass, of this stream, has then seen all that it had
    /// seen, all that the writer's pen has, and of this writer's stores just those of the answer: the store that was
    /// made among them, and its front is that of what the pass has seen up to it. Of `Full` the pass has kept the
    /// number of positions. The gate is told as by `write_in`. Waits for the writer's turn and for turns at the stream.
    pub fn write_seen<G: Gate, R: Wait>(
        &self,
        rt: &R,
        alloc: Global,
        shard: u8,
        draft: F::Draft,
        gate: &G,
        pass: &mut Pass<F::Item>,
    ) -> Result<Written, Refused<F::Fault>>
        requires shard { shard < writers_of self.now.stream }
        requires stream { place_of_pass pass.old ≡ place_of self.now.stream }
        ensures stream { place_of_pass pass.new ≡ place_of_pass pass.old }
        ensures wrote { WritesSeen F.Item.placed F.decides shard (stop_of self.now.stream) draft result (reads pass.old) (reads pass.new) }
        ensures loses { MayLose F.loses result }
        ensures told { WasTold (G.told gate.now) shard result }
    {
        let door = locked(rt, &self.doors[usize::from(shard)]);
        let (owed, mut seat) = self.begin(rt, shard);
        let mut taken = self.take_shard(&mut seat, shard, owed.ticket);
        let mut watch = Watch::new(gate);
        let answer = write_noted(rt, alloc, &self.stream, &mut taken, draft, &mut watch, pass);
        self.leave(seat, shard, owed, taken);
        drop(door);
        answer
    }
}

/// Locks a door. Who finds it locked looks at it for a while, and then sleeps: to be put to sleep and woken takes longer than a write.
fn locked<'a, R: Wait>(rt: &R, door: &'a Mutex<()>) -> MutexGuard<'a, ()> {
    'looks: for _look in 0..LOOKS {
        if let Some(guard) = door.try_lock() {
            return guard;
        }
        spin_loop();
    }
    door.lock(rt)
}
