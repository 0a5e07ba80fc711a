//! How many jobs run in threads.
use std::sync::Wait;
use std::sync::atomic::{AtomicU64, Ordering};

/// The number of jobs that run. No handle of a thread is kept, so memory is held by running jobs alone.
#[derive(Drop)]
pub(crate) struct Running {
    jobs: AtomicU64,
}

impl Running {
    pub(crate) fn new() -> Running {
        Running {
            jobs: AtomicU64::new(0),
        }
    }

    /// One more job runs.
    pub(crate) fn enter(&self) {
        self.jobs.fetch_add(1, Ordering::SeqCst);
    }

    /// A job has ended. The last one wakes those that wait.
    pub(crate) fn leave(&self) {
        if self.jobs.fetch_sub(1, Ordering::SeqCst) == 1 {
            self.jobs.wake_all();
        }
    }

    /// Waits until no job runs.
    pub(crate) fn wait<R: Wait>(&self, rt: &R) {
        for _ in rt.forever() {
            let jobs = self.jobs.load(Ordering::SeqCst);
            if jobs == 0 {
                return;
            }
            self.jobs.park(rt, (jobs & 0xffff_ffff) as u32);
        }
    }
}
