//! Those who rest until their flags are raised, and those who wake them. A rest of ten minutes doesn't end by its time within a test.
use mx_wait::{Flag, StreamName, Tickets, Waiters, flag};
use std::alloc::Global;
use std::process::Abort;
use std::sync::Wait;
use std::thread::Threads;
use std::time::Duration;
use std::{rt, thread};

/// Rests in one thread and moves a stream from another a little later, and answers how often the flag was raised.
fn raised_after<R: Wait + Threads + rt::Clock + Abort + Sync>(
    rt: &R,
    alloc: Global,
    stream: StreamName,
) -> u64 {
    let waiters = Waiters::new(alloc);
    let flag = flag(alloc).expect(rt, "memory");
    assert!(rt; waiters.register(rt, &flag, None).is_ok());
    thread::join(
        rt,
        || waiters.rest(rt, &flag, 0, 600_000),
        || {
            thread::sleep(rt, Duration::from_millis(30));
            waiters.moved(rt, alloc, stream, 1);
        },
    );
    let raised = flag.raised();
    drop(flag);
    drop(waiters);
    raised
}

#[test]
fn a_rest_ends_when_a_stream_moves(rt: HostRuntime) {
    let alloc = rt.alloc();
    assert_eq!(&rt; raised_after(&rt, alloc, StreamName::Events), 1);
    assert_eq!(&rt; raised_after(&rt, alloc, StreamName::Receipts), 1);
    assert_eq!(&rt; raised_after(&rt, alloc, StreamName::Accounts), 1);
}

#[test]
fn a_rest_ends_by_its_time(rt: HostRuntime) {
    let alloc = rt.alloc();
    let waiters = Waiters::new(alloc);
    let flag = flag(alloc).expect(&rt, "memory");
    waiters.rest(&rt, &flag, 0, 20);
    assert_eq!(&rt; flag.raised(), 0);
    drop(flag);
    drop(waiters);
}

/// Parks the flag where it isn't parked by the tickets.
fn register(
    rt: &(impl Abort + Wait),
    waiters: &Waiters,
    flag: &Flag,
    kept: Option<Tickets>,
) -> Option<Tickets> {
    waiters.register(rt, flag, kept).ok()
}

/// Moves the events to a front, and answers how often the flag was raised.
fn moved(rt: &impl Wait, alloc: Global, waiters: &Waiters, flag: &Flag, front: u64) -> u64 {
    waiters.moved(rt, alloc, StreamName::Events, front);
    flag.raised()
}

#[test]
fn a_store_before_the_rest_is_seen(rt: HostRuntime) {
    let alloc = rt.alloc();
    let waiters = Waiters::new(alloc);
    let flag = flag(alloc).expect(&rt, "memory");
    assert!(&rt; register(&rt, &waiters, &flag, None).is_some());
    assert_eq!(&rt; moved(&rt, alloc, &waiters, &flag, 1), 1);
    waiters.rest(&rt, &flag, 0, 600_000);
    drop(flag);
    drop(waiters);
}

#[test]
fn a_flag_is_raised_once_for_each_time_that_it_is_parked(rt: HostRuntime) {
    let alloc = rt.alloc();
    let waiters = Waiters::new(alloc);
    let flag = flag(alloc).expect(&rt, "memory");
    let (w, f) = (&waiters, &flag);
    assert_eq!(&rt; moved(&rt, alloc, w, f, 1), 0);
    let kept = register(&rt, w, f, None);
    assert!(&rt; register(&rt, w, f, kept).is_some());
    assert_eq!(&rt; moved(&rt, alloc, w, f, 4), 1);
    assert!(&rt; register(&rt, w, f, kept).is_some());
    assert_eq!(&rt; moved(&rt, alloc, w, f, 3), 1);
    assert_eq!(&rt; moved(&rt, alloc, w, f, 5), 2);
    assert!(&rt; register(&rt, w, f, None).is_some());
    assert!(&rt; register(&rt, w, f, None).is_some());
    assert_eq!(&rt; moved(&rt, alloc, w, f, 6), 4);
    drop(flag);
    drop(waiters);
}
