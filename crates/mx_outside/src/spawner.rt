//! Jobs that run in threads, or in the caller.
ghost use Rattle.std.specs.Prelude.{◌≡◌, ◌≤◌, [], true, false, IfOk};
ghost use Rattle.mx_outside.specs.Calls.{called, fresh, is_failing};
ghost use Rattle.mx_outside.specs.Causes.{Rose};
ghost use Rattle.mx_outside.specs.Starts.{is_in_caller, is_refused};

use crate::calls::Calls;
use crate::running::Running;
use std::alloc::{AllocError, Global};
use std::marker::Model;
use std::sync::{Arc, Wait};
use std::thread;
use std::thread::Threads;

/// Something to be done once, in a thread of its own or in the caller.
pub trait Job {
    /// Does the job.
    fn run(self);
}

/// The answer of [`Spawner::start`].
#[derive(Clone, Copy, PartialEq, Eq, Debug)]
pub enum Started {
    /// The job runs, or has run.
    Running,
    /// The job was dropped, and the count of faults rose.
    Refused,
}

/// Where jobs run.
#[derive(Drop)]
enum Way {
    /// Each in the caller of `start`.
    InCaller,
    /// Each in a thread of its own, counted until it has ended.
    InThreads(Arc<Running>),
}

impl Way {
    /// Starts the job, or drops it. True if it was started.
    fn start<R: Threads, J: Job + Drop + Send + 'static>(&self, rt: &R, job: J) -> bool
        ensures { is_in_caller self.now ≡ true → result ≡ true }
    {
        match self {
            Way::InCaller => {
                job.run();
                true
            }
            Way::InThreads(running) => start_thread(rt, running, job).is_ok(),
        }
    }
}

/// Starts jobs, each in a thread of its own or in the caller, and counts those that were refused.
#[derive(Drop)]
pub struct Spawner {
    way: Way,
    calls: Calls,
}

impl Model for Spawner {
    ghost use Rattle.mx_outside.specs.Starts.{SpawnerState, is_in_caller};

    ghost Value = { SpawnerState };

    ghost view = { λ s. record { in_caller = is_in_caller s.way; plan = s.calls } };
}

impl Spawner {
    /// Runs each job in the caller of `start`. The starts whose numbers, from 0, are in `failing` are
    /// refused, and no others.
    pub fn in_caller(failing: Vec<u64>) -> Spawner
        ensures { result ≡ record { in_caller = true; plan = fresh failing.items } }
    {
        Spawner {
            way: Way::InCaller,
            calls: Calls::new(failing),
        }
    }

    /// Runs each job in a thread of its own. A start is refused where the system gives no thread. `Err` comes
    /// only for want of memory.
    pub fn in_threads(alloc: Global) -> Result<Spawner, AllocError>
        ensures { IfOk result (λ s. s ≡ record { in_caller = false; plan = fresh [] }) }
    {
        Ok(Spawner {
            way: Way::InThreads(Arc::new(alloc, Running::new())?),
            calls: Calls::new(Vec::new(alloc)),
        })
    }

    /// Starts the job. In the caller it has run once `start` returns. `Refused` comes only where the count of faults
    /// rose in this call, or stands at its last value; the job is dropped then. A job that runs holds memory
    /// until it ends, and one that has ended holds none.
    pub fn start<R: Threads, J: Job + Drop + Send + 'static>(&mut self, rt: &R, job: J) -> Started
        ensures count { self.old.plan.faults ≤ self.new.plan.faults }
        ensures cause { result ≡ Started.Refused → Rose self.old.plan.faults self.new.plan.faults }
        ensures plan { self.new.plan ≡ called (is_refused result) self.old.plan }
        ensures listed { is_failing self.old.plan ≡ true → result ≡ Started.Refused }
        ensures others { self.old.in_caller ≡ true → result ≡ Started.Refused → is_failing self.old.plan ≡ true }
        ensures way { self.new.in_caller ≡ self.old.in_caller }
    {
        if !self.calls.begin() && self.way.start(rt, job) {
            return Started::Running;
        }
        self.calls.fault();
        Started::Refused
    }

    /// Waits until each job that was started has run and was dropped.
    pub fn wait_all<R: Wait>(&mut self, rt: &R)
        ensures { self.new ≡ self.old }
    {
        if let Way::InThreads(running) = &self.way {
            running.wait(rt);
        }
    }
}

/// Starts a thread that does the job, which counts as running until it has ended. The thread isn't joined, so
/// nothing is kept of it. `Err` where the system gives no thread.
fn start_thread<R: Threads, J: Job + Drop + Send + 'static>(
    rt: &R,
    running: &Arc<Running>,
    job: J,
) -> Result<(), AllocError> {
    let theirs = Arc::try_clone(running)?;
    running.enter();
    let started = thread::spawn(rt, move || {
        job.run();
        theirs.leave();
    });
    if started.is_err() {
        running.leave();
        return Err(AllocError);
    }
    Ok(())
}
