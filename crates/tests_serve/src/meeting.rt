//! Two connections and a gate that wait for one another: each step that one of them makes is counted, and each waits for a number of steps.
use mx_aims::{Rooms, rooms};
use mx_engine::Outside;
use mx_entries::{Accounts, Receipts, accounts, receipts};
use mx_ids::Memory;
use mx_outside::{MemSource, Put, Sink, Source, Took};
use mx_writers::Gate;
use std::alloc::Global;
use std::sync::Arc;
use std::sync::atomic::{AtomicU64, Ordering};
use std::{thread, vec};

/// Who waits gives up after so many looks.
const LOOKS: u32 = 20_000_000;

/// What was done.
#[derive(Drop)]
pub struct Meeting {
    steps: AtomicU64,
    /// How often something other than was wanted was sent, or somebody gave up.
    wrong: AtomicU64,
}

impl Meeting {
    pub fn new() -> Meeting {
        Meeting {
            steps: AtomicU64::new(0),
            wrong: AtomicU64::new(0),
        }
    }

    /// The number of steps, and that of what went wrong.
    pub fn counts(&self) -> (u64, u64) {
        let steps = self.steps.load(Ordering::SeqCst);
        (steps, self.wrong.load(Ordering::SeqCst))
    }

    fn add_step(&self) {
        self.steps.fetch_add(1, Ordering::SeqCst);
    }

    fn add_wrong(&self) {
        self.wrong.fetch_add(1, Ordering::SeqCst);
    }

    /// Waits until so many steps were made. False where the waiter gave up.
    fn wait_for(&self, steps: u64) -> bool {
        for _ in 0..LOOKS {
            if self.steps.load(Ordering::SeqCst) >= steps {
                return true;
            }
            thread::yield_now();
        }
        self.add_wrong();
        false
    }
}

/// Requests of which each is sent once so many steps were made.
#[derive(Drop)]
pub struct TurnSource {
    meeting: Arc<Meeting>,
    /// The request that is being sent.
    request: MemSource,
    /// Those that come then, each with the number of steps.
    rest: vec::IntoIter<(u64, MemSource)>,
}

impl TurnSource {
    /// The source of these requests, after what is left of `first`.
    pub fn new(meeting: Arc<Meeting>, first: MemSource, rest: Vec<(u64, MemSource)>) -> TurnSource {
        TurnSource {
            meeting,
            request: first,
            rest: rest.into_iter(),
        }
    }

    /// Goes on to the next request, in its turn. False where there is none.
    fn go_on(&mut self) -> bool {
        let Some((steps, request)) = self.rest.next() else {
            return false;
        };
        self.request = request;
        self.meeting.wait_for(steps)
    }
}

impl Source for TurnSource {
    ghost use Rattle.std.specs.Prelude.{None};

    ghost left = { λ _. None };

    ghost faults = { λ _. 0 };

    fn take(&mut self, into: &mut [u8]) -> Took {
        if let Took::Got(count) = self.request.take(into) {
            return Took::Got(count);
        }
        if self.go_on()
            && let Took::Got(count) = self.request.take(into)
        {
            return Took::Got(count);
        }
        Took::End
    }
}

/// A sink that knows which answers it is to be sent, each by one put, and makes a step with each.
#[derive(Drop)]
pub struct TurnSink {
    meeting: Arc<Meeting>,
    wanted: String,
    came: usize,
}

impl TurnSink {
    pub fn new(meeting: Arc<Meeting>, wanted: String) -> TurnSink {
        TurnSink {
            meeting,
            wanted,
            came: 0,
        }
    }

    /// Whether what is wanted goes on so. It is then behind it.
    fn goes_on(&mut self, bytes: &[u8]) -> bool {
        let Some(rest) = self.wanted.as_bytes().get(self.came..) else {
            return false;
        };
        if !rest.starts_with(bytes) {
            return false;
        }
        self.came = self.wanted.len() - (rest.len() - bytes.len());
        true
    }
}

impl Sink for TurnSink {
    ghost use Rattle.std.specs.Prelude.{None};

    ghost written = { λ _. None };

    ghost faults = { λ _. 0 };

    fn put(&mut self, bytes: &[u8]) -> Put {
        if self.goes_on(bytes) {
            self.meeting.add_step();
        } else {
            self.meeting.add_wrong();
        }
        Put::Done
    }

    fn is_gone(&mut self) -> bool {
        false
    }
}

/// A gate that holds one block of a writer: that is a step, and it waits for a number of them.
#[derive(Drop)]
pub struct Holding {
    pub meeting: Arc<Meeting>,
    pub shard: u8,
    /// The first position of the block.
    pub first: u64,
    pub steps: u64,
}

impl Gate for Holding {
    ghost use Rattle.std.specs.Prelude.{true};

    ghost told = { λ gate shard first. true };

    fn drawn(&self, shard: u8, first: u64) {
        if shard == self.shard && first == self.first {
            self.meeting.add_step();
            let _ = self.meeting.wait_for(self.steps);
        }
    }
}

impl Outside for Holding {
    ghost use Rattle.std.specs.Prelude.{refl};

    type Events = Rooms;

    type Receipts = Receipts;

    type Accounts = Accounts;

    fn events(&self, alloc: Global, writer: u8) -> Result<Rooms, Memory> {
        rooms(alloc, writer)
    }

    fn receipts(&self, alloc: Global, writer: u8) -> Result<Receipts, Memory> {
        Ok(receipts(alloc, writer))
    }

    fn accounts(&self, alloc: Global, writer: u8) -> Result<Accounts, Memory> {
        Ok(accounts(alloc, writer))
    }

    ghost decides_events = { refl };

    ghost decides_receipts = { refl };

    ghost decides_accounts = { refl };
}
