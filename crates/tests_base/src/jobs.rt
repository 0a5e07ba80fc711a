//! Jobs, in the caller and in threads.
use mx_outside::{Job, Spawner, Started};
use std::alloc::AllocError;
use std::sync::Arc;
use std::sync::atomic::{AtomicU64, Ordering};
use std::thread;

/// A job that adds one to a count.
#[derive(Drop)]
struct AddOne {
    count: Arc<AtomicU64>,
}

impl Job for AddOne {
    fn run(self) {
        self.count.fetch_add(1, Ordering::SeqCst);
    }
}

/// How many jobs have come, and how many of them saw two.
#[derive(Drop)]
struct Meeting {
    came: AtomicU64,
    met: AtomicU64,
}

/// A job that waits until another one has come.
#[derive(Drop)]
struct Meet {
    meeting: Arc<Meeting>,
}

impl Job for Meet {
    /// Looks so often at most.
    fn run(self) {
        self.meeting.came.fetch_add(1, Ordering::SeqCst);
        for _ in 0..10_000_000u32 {
            if self.meeting.came.load(Ordering::SeqCst) == 2 {
                self.meeting.met.fetch_add(1, Ordering::SeqCst);
                return;
            }
            thread::yield_now();
        }
    }
}

fn add_one(
    rt: &impl thread::Threads,
    spawner: &mut Spawner,
    count: &Arc<AtomicU64>,
) -> Result<Started, AllocError> {
    let count = Arc::try_clone(count)?;
    Ok(spawner.start(rt, AddOne { count }))
}

#[test]
fn jobs_in_the_caller_run_but_those_that_are_listed(rt: HostRuntime) {
    let refused = Vec::from_slice(rt.alloc(), &[1u64]).expect(&rt, "memory");
    let mut spawner = Spawner::in_caller(refused);
    let count = Arc::new(rt.alloc(), AtomicU64::new(0)).expect(&rt, "memory");
    let rows = [
        (Started::Running, 1),
        (Started::Refused, 1),
        (Started::Running, 2),
    ];
    for (want, ran) in rows {
        let started = add_one(&rt, &mut spawner, &count).expect(&rt, "memory");
        assert_eq!(rt; started, want);
        assert_eq!(rt; count.load(Ordering::SeqCst), ran);
        assert_eq!(rt; Arc::strong_count(&count), 1, "each job was dropped");
    }
    spawner.wait_all(&rt);
    drop(count);
    drop(spawner);
}

#[test]
fn two_jobs_in_threads_run_at_once(rt: HostRuntime) {
    let mut spawner = Spawner::in_threads(rt.alloc()).expect(&rt, "memory");
    let meeting = Meeting {
        came: AtomicU64::new(0),
        met: AtomicU64::new(0),
    };
    let meeting = Arc::new(rt.alloc(), meeting).expect(&rt, "memory");
    for _ in 0..2u8 {
        let meeting = Arc::try_clone(&meeting).expect(&rt, "memory");
        assert_eq!(rt; spawner.start(&rt, Meet { meeting }), Started::Running);
    }
    spawner.wait_all(&rt);
    assert_eq!(rt; meeting.met.load(Ordering::SeqCst), 2);
    assert_eq!(rt; Arc::strong_count(&meeting), 1, "each job was dropped");
    drop(meeting);
    drop(spawner);
}
