//! What was answered is there after a restart.

ghost use Rattle.std.specs.Prelude.{◌≤◌};

use crate::make::{USERS, log_of, logs, on_journal, seen, session, users};
use mx_log::Logs;
use mx_restore::RestoreFault;
use mx_users::Directory;
use std::alloc::Global;
use std::process::Abort;
use std::sync::Wait;
use std::thread::Threads;

/// The log of a journal after a session, how many stores were answered, and how many were seen; nothing where there was no engine.
fn session_on<J: Logs, R: Abort + Wait + Threads>(
    rt: &R,
    alloc: Global,
    users: Directory,
    logs: &mut J,
) -> Option<(J::File, u64, u64)> {
    match on_journal(rt, alloc, users, 2, logs) {
        Ok((engine, mut pass)) => {
            let answered = session(rt, alloc, &engine, &mut pass);
            let seen = seen(rt, alloc, &engine, &mut pass);
            let log = log_of(rt, &engine);
            drop(pass);
            drop(engine);
            Some((log, answered, seen))
        }
        Err(_) => None,
    }
}

/// The same in memory, of a log that fails from a call on: the bytes of the journal.
fn kept(
    rt: &(impl Abort + Wait + Threads),
    alloc: Global,
    good: u64,
) -> Option<(Vec<u8>, u64, u64)> {
    let mut logs = logs(rt, alloc, &[], good);
    let done = session_on(rt, alloc, users(rt, alloc, USERS), &mut logs);
    drop(logs);
    let (log, answered, seen) = done?;
    let bytes = Vec::from_slice(alloc, log.bytes()).expect(rt, "memory");
    drop(log);
    Some((bytes, answered, seen))
}

/// The bytes of the journal of a session whose log doesn't fail.
fn whole(rt: &(impl Abort + Wait + Threads), alloc: Global) -> Vec<u8> {
    let (bytes, _, _) = kept(rt, alloc, 1000).expect(rt, "an engine");
    bytes
}

/// How many stores an engine on a journal has; or the number of the line that is refused, from 1,000 on.
fn found_on<J: Logs, R: Abort + Wait + Threads>(
    rt: &R,
    alloc: Global,
    users: Directory,
    workers: u8,
    logs: &mut J,
) -> u64
    requires workers { (1 ≤ workers) × (workers ≤ 16) }
{
    match on_journal(rt, alloc, users, workers, logs) {
        Ok((engine, mut pass)) => {
            let seen = seen(rt, alloc, &engine, &mut pass);
            drop(pass);
            drop(engine);
            seen
        }
        Err(RestoreFault::Line(number, _)) => number.saturating_add(1000),
        Err(RestoreFault::Busy) => 2001,
        Err(RestoreFault::Failed) => 2002,
        Err(RestoreFault::Memory(_)) => 2003,
    }
}

/// The same of an engine on these bytes.
fn restored(
    rt: &(impl Abort + Wait + Threads),
    alloc: Global,
    file: &str,
    workers: u8,
    bytes: &[u8],
) -> u64
    requires workers { (1 ≤ workers) × (workers ≤ 16) }
{
    let mut logs = logs(rt, alloc, bytes, 1000);
    let found = found_on(rt, alloc, users(rt, alloc, file), workers, &mut logs);
    drop(logs);
    found
}

/// The same of the users and the writers of the session.
fn restored_as_before(rt: &(impl Abort + Wait + Threads), alloc: Global, bytes: &[u8]) -> u64 {
    restored(rt, alloc, USERS, 2, bytes)
}

/// Whichever call of the log fails first: what was answered was stored, and is there after a restart, with at most one store more.
#[test]
fn what_was_answered_is_restored(rt: HostRuntime) {
    let alloc = rt.alloc();
    for good in 0..20u64 {
        match kept(&rt, alloc, good) {
            None => assert!(rt; good < 2),
            Some((bytes, answered, seen)) => {
                let found = restored_as_before(&rt, alloc, bytes.as_slice());
                drop(bytes);
                assert_eq!(rt; answered, (good.saturating_sub(2) / 2).min(6));
                assert_eq!(rt; seen, answered);
                assert!(rt; found == answered || found == answered.saturating_add(1));
            }
        }
    }
}

/// A journal that lacks so many bytes at its end, and then two more each time, restores with a front of its stores: so many at first, at
/// most one fewer each time, and none where no byte is left.
fn expect_fronts(rt: &(impl Abort + Wait + Threads), alloc: Global, lacking: usize, most: u64) {
    let mut bytes = whole(rt, alloc);
    bytes.truncate(bytes.len().saturating_sub(lacking));
    let mut most = most;
    for _ in 0..bytes.len() / 2 + 1 {
        let found = restored_as_before(rt, alloc, bytes.as_slice());
        assert!(rt; found == most || found.saturating_add(1) == most);
        most = found;
        bytes.truncate(bytes.len().saturating_sub(2));
    }
    drop(bytes);
    assert_eq!(rt; most, 0);
}

/// Cut off at each of its bytes a journal restores, with a front of its stores.
#[test]
fn each_front_is_restored(rt: HostRuntime) {
    expect_fronts(&rt, rt.alloc(), 0, 6);
}

/// The same of the cuts between these.
#[test]
fn each_other_front_is_restored(rt: HostRuntime) {
    expect_fronts(&rt, rt.alloc(), 1, 5);
}

/// The bytes with one of them changed.
fn changed(rt: &impl Abort, alloc: Global, bytes: &[u8], at: usize) -> Vec<u8> {
    let mut own = Vec::from_slice(alloc, bytes).expect(rt, "memory");
    if let Some(byte) = own.get_mut(at) {
        *byte ^= 1;
    }
    own
}

/// What an engine has of these bytes with one of them changed.
fn restored_with_change(
    rt: &(impl Abort + Wait + Threads),
    alloc: Global,
    bytes: &[u8],
    at: usize,
) -> u64 {
    let own = changed(rt, alloc, bytes, at);
    let found = restored_as_before(rt, alloc, own.as_slice());
    drop(own);
    found
}

/// With any of its bytes changed a journal is refused with the line, unless the byte ends the last line, which is then torn.
#[test]
fn each_changed_byte_is_found(rt: HostRuntime) {
    let alloc = rt.alloc();
    let bytes = whole(&rt, alloc);
    let last = bytes.len().saturating_sub(1);
    for at in 0..bytes.len() {
        let found = restored_with_change(&rt, alloc, bytes.as_slice(), at);
        assert!(rt; found > 1000 && found < 1009 || at == last && found == 5);
    }
    drop(bytes);
}

/// Another number of writers and other devices are refused; a device more at the end isn't.
#[test]
fn the_first_lines_hold(rt: HostRuntime) {
    let alloc = rt.alloc();
    let bytes = whole(&rt, alloc);
    let file = bytes.as_slice();
    assert_eq!(rt; restored(&rt, alloc, USERS, 2, file), 6);
    assert_eq!(rt; restored(&rt, alloc, USERS, 3, file), 1001);
    let other = "server y\nalice A1 tok_a1\nbob B1 tok_b1\n";
    assert_eq!(rt; restored(&rt, alloc, other, 2, file), 1001);
    let fewer = "server x\nalice A1 tok_a1\n";
    assert_eq!(rt; restored(&rt, alloc, fewer, 2, file), 1002);
    let exchanged = "server x\nbob B1 tok_b1\nalice A1 tok_a1\n";
    assert_eq!(rt; restored(&rt, alloc, exchanged, 2, file), 1002);
    let more = "server x\nalice A1 other\nbob B1 tok_b1\ncarol C1 tok_c1\n";
    assert_eq!(rt; restored(&rt, alloc, more, 2, file), 6);
    drop(bytes);
}
