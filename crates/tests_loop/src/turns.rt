//! Sessions of one engine, in any order of their turns.
ghost use Rattle.std.specs.Prelude.{◌<◌, ◌≤◌, length, IfOk, OnOk};
ghost use Rattle.mx_serve.specs.OfEngine.Shown.{Ties};

use mx_ids::Memory;
use mx_loop::{Limits, Looped, Sessions, Stepped, run_loop};
use mx_outside::{Clock, MemPort, MemPorts, StepClock};
use mx_serve::{EnginePass, Server, Setup, engine};
use mx_users::read_users;
use mx_writers::Open;
use std::alloc::Global;
use std::process::Abort;
use std::sync::Wait;
use std::test::Fail;
use std::{rt, str};

const USERS: &str = "server example.org\nalice A1 tok_a1\nbob B1 tok_b1\n";

const CREATE: &str =
    "POST /_matrix/client/v3/createRoom HTTP/1.1\r\nAuthorization: Bearer tok_a1\r\nContent-Length: 24\r\n\r\n{\"preset\":\"public_chat\"}";

const JOIN: &str =
    "POST /_matrix/client/v3/join/!0-1:example.org HTTP/1.1\r\nAuthorization: Bearer tok_b1\r\nContent-Length: 2\r\n\r\n{}";

const SEND: &str =
    "PUT /_matrix/client/v3/rooms/!0-1:example.org/send/m.room.message/x HTTP/1.1\r\nAuthorization: Bearer tok_b1\r\nContent-Length: 33\r\n\r\n{\"body\":\"hi\",\"msgtype\":\"m.text\"} ";

/// Alice's sync since all but the message.
const SYNC: &str =
    "GET /_matrix/client/v3/sync?since=s7_0_0_0_7&timeout=30000 HTTP/1.1\r\nAuthorization: Bearer tok_a1\r\n\r\n";

/// A room of alice's, and a sync since its creation.
const CREATE_AND_SYNC: &str =
    "POST /_matrix/client/v3/createRoom HTTP/1.1\r\nAuthorization: Bearer tok_a1\r\nContent-Length: 24\r\n\r\n{\"preset\":\"public_chat\"}GET /_matrix/client/v3/sync?since=s6_0_0_0_6&timeout=30000 HTTP/1.1\r\nAuthorization: Bearer tok_a1\r\n\r\n";

/// The number of a call that isn't made.
const NEVER: u64 = 4_294_967_296;

/// What that is told.
const TOLD: &str = "\"next_batch\":\"s8_";

fn server_of(rt: &impl Abort, alloc: Global) -> Result<(Server<Open>, EnginePass), Memory>
    ensures ties { IfOk result (λ r. Ties r.0.engine r.1) }
{
    let setup = Setup {
        users: read_users(alloc, USERS.as_bytes()).expect(rt, "a users file"),
        workers: 1,
        stop: 281474976694272,
    };
    let (engine, pass) = engine(alloc, setup, Open)?;
    match Server::new(alloc, engine, 1000) {
        Ok(server) => Ok((server, pass)),
        Err(refused) => {
            drop(pass);
            Err(refused)
        }
    }
}

/// In what pieces a port moves its bytes.
#[derive(Clone, Copy)]
enum Pieces {
    /// All at once.
    Whole,
    /// Some at a time.
    Some,
    /// One byte at a time.
    Bytes,
}

impl Pieces {
    /// How many bytes at most.
    fn size(self) -> usize
        ensures { 0 < result }
    {
        match self {
            Pieces::Whole => 4096,
            Pieces::Some => 16,
            Pieces::Bytes => 1,
        }
    }
}

/// A port that takes these bytes. Two of its calls aren't ready, and that of this number fails.
fn port(alloc: Global, bytes: &str, pieces: Pieces, failing: u64) -> Result<MemPort, Memory> {
    let bytes = Vec::from_slice(alloc, bytes.as_bytes())?;
    let busy = Vec::from_array(alloc, [1, 3])?;
    let failing = Vec::from_array(alloc, [failing])?;
    Ok(MemPort::new(alloc, bytes, pieces.size(), busy, failing))
}

/// A session at a place of its own, by its port.
fn enter(
    rt: &impl Abort,
    alloc: Global,
    server: &Server<Open>,
    sessions: &mut Sessions<MemPort>,
    bytes: &str,
    failing: u64,
) -> usize
    requires { Ties server.now.engine sessions.old.pass }
    ensures ties { Ties server.now.engine sessions.new.pass }
    ensures within { result < length sessions.new.all.items }
    ensures count { length sessions.old.all.items ≤ length sessions.new.all.items }
{
    let port = port(alloc, bytes, Pieces::Some, failing).expect(rt, "a port");
    let which = sessions.count();
    sessions.add_place().expect(rt, "a place");
    sessions
        .put(alloc, server, which, port)
        .expect(rt, "a session");
    which
}

/// Steps the session at a place until its sync waits or it has ended.
fn step_on<R: Wait + rt::Clock>(
    rt: &R,
    alloc: Global,
    server: &Server<Open>,
    sessions: &mut Sessions<MemPort>,
    which: usize,
    clock: &mut StepClock,
) -> Stepped
    requires ties { Ties server.now.engine sessions.old.pass }
    requires within { which < length sessions.old.all.items }
    ensures ties { Ties server.now.engine sessions.new.pass }
    ensures count { length sessions.old.all.items ≤ length sessions.new.all.items }
{
    'steps: for _ in 0..1000u32 {
        match sessions.step(rt, alloc, server, which, clock) {
            Stepped::Moved | Stepped::Resting => {}
            stepped => return stepped,
        }
    }
    Stepped::Moved
}

/// What a session that takes these bytes comes to, and its place.
fn served<R: Abort + Wait + rt::Clock>(
    rt: &R,
    alloc: Global,
    server: &Server<Open>,
    sessions: &mut Sessions<MemPort>,
    bytes: &str,
    clock: &mut StepClock,
) -> (usize, Stepped)
    requires { Ties server.now.engine sessions.old.pass }
    ensures ties { Ties server.now.engine sessions.new.pass }
    ensures within { result.0 < length sessions.new.all.items }
    ensures count { length sessions.old.all.items ≤ length sessions.new.all.items }
{
    let which = enter(rt, alloc, server, sessions, bytes, NEVER);
    let stepped = step_on(rt, alloc, server, sessions, which, clock);
    (which, stepped)
}

/// Whether a text is among what was put at a place.
fn has(sessions: &Sessions<MemPort>, which: usize, text: &str) -> bool {
    let Some(session) = sessions.at(which) else {
        return false;
    };
    match str::from_utf8(session.port().written()) {
        Ok(written) => written.contains(text),
        Err(_) => false,
    }
}

/// A room of alice's that bob has joined, whose events are seven.
fn sessions_of<R: Abort + Wait + rt::Clock>(
    rt: &R,
    alloc: Global,
    server: &Server<Open>,
    pass: EnginePass,
    clock: &mut StepClock,
) -> Sessions<MemPort>
    requires { Ties server.now.engine pass }
    ensures { Ties server.now.engine result.pass }
{
    let mut sessions = Sessions::new(alloc, pass).expect(rt, "sessions");
    let (_, created) = served(rt, alloc, server, &mut sessions, CREATE, clock);
    let (_, joined) = served(rt, alloc, server, &mut sessions, JOIN, clock);
    assert!(rt; created == Stepped::Ended && joined == Stepped::Ended);
    sessions
}

/// What a sync that rests comes to, and what a session that stores then; the sync again, and whether it is told what was stored, under the
/// event's id.
fn woken<R: Abort + Wait + rt::Clock>(
    rt: &R,
    alloc: Global,
    server: &Server<Open>,
    pass: EnginePass,
) -> ([Stepped; 3], [bool; 2])
    requires { Ties server.now.engine pass }
{
    let mut clock = StepClock::new(1000, 1);
    let mut sessions = sessions_of(rt, alloc, server, pass, &mut clock);
    let (rest, first) = served(rt, alloc, server, &mut sessions, SYNC, &mut clock);
    let (sent, second) = served(rt, alloc, server, &mut sessions, SEND, &mut clock);
    let third = step_on(rt, alloc, server, &mut sessions, rest, &mut clock);
    let told = has(&sessions, rest, TOLD);
    let stored = has(&sessions, sent, "$8:example.org");
    ([first, second, third], [told, stored])
}

#[test]
fn a_sync_that_rests_is_told_what_another_session_stored(rt: HostRuntime) -> Result<(), Fail> {
    let (server, pass) = server_of(&rt, rt.alloc())?;
    let ([first, second, third], shown) = woken(&rt, rt.alloc(), &server, pass);
    drop(server);
    assert!(rt; matches!(first, Stepped::Waiting(_)));
    assert_eq!(rt; (second, third), (Stepped::Ended, Stepped::Ended));
    assert_eq!(rt; shown, [true, true]);
    Ok(())
}

/// What a session that stores comes to, and a sync after it, and whether that is told.
fn told_at_once<R: Abort + Wait + rt::Clock>(
    rt: &R,
    alloc: Global,
    server: &Server<Open>,
    pass: EnginePass,
) -> ([Stepped; 2], bool)
    requires { Ties server.now.engine pass }
{
    let mut clock = StepClock::new(1000, 1);
    let mut sessions = sessions_of(rt, alloc, server, pass, &mut clock);
    let (_, sent) = served(rt, alloc, server, &mut sessions, SEND, &mut clock);
    let (which, synced) = served(rt, alloc, server, &mut sessions, SYNC, &mut clock);
    ([sent, synced], has(&sessions, which, TOLD))
}

#[test]
fn a_sync_after_the_store_does_not_rest(rt: HostRuntime) -> Result<(), Fail> {
    let (server, pass) = server_of(&rt, rt.alloc())?;
    let (stepped, told) = told_at_once(&rt, rt.alloc(), &server, pass);
    drop(server);
    assert_eq!(rt; stepped, [Stepped::Ended, Stepped::Ended]);
    assert!(rt; told);
    Ok(())
}

/// What a session whose port fails comes to, and whether it has put anything; and what another comes to whose sync rests.
fn failed<R: Abort + Wait + rt::Clock>(
    rt: &R,
    alloc: Global,
    server: &Server<Open>,
    pass: EnginePass,
) -> ([Stepped; 2], bool)
    requires { Ties server.now.engine pass }
{
    let mut clock = StepClock::new(1000, 1);
    let mut sessions = sessions_of(rt, alloc, server, pass, &mut clock);
    let failing = enter(rt, alloc, server, &mut sessions, SYNC, 0);
    let ended = step_on(rt, alloc, server, &mut sessions, failing, &mut clock);
    let (_, synced) = served(rt, alloc, server, &mut sessions, SYNC, &mut clock);
    ([ended, synced], has(&sessions, failing, "HTTP"))
}

#[test]
fn a_port_that_fails_ends_its_own_session(rt: HostRuntime) -> Result<(), Fail> {
    let (server, pass) = server_of(&rt, rt.alloc())?;
    let ([ended, synced], written) = failed(&rt, rt.alloc(), &server, pass);
    drop(server);
    assert!(rt; matches!(synced, Stepped::Waiting(_)));
    assert_eq!(rt; (ended, written), (Stepped::Ended, false));
    Ok(())
}

/// Ports that take these bytes, each in such pieces; the call of this number of their listener fails.
fn ports(alloc: Global, all: &[(&str, Pieces)], failing: u64) -> Result<MemPorts<MemPort>, Memory> {
    let mut made = Vec::new(alloc);
    'ports: for (bytes, pieces) in all {
        made.push(port(alloc, bytes, *pieces, NEVER)?)?;
    }
    let busy = Vec::from_array(alloc, [1])?;
    Ok(MemPorts::new(made, busy, Vec::from_array(alloc, [failing])?))
}

/// How a loop over such ports ends, and what its clock reads then, which read 1,000 when it began.
fn looped<R: Abort + Wait + rt::Clock>(
    rt: &R,
    alloc: Global,
    all: &[(&str, Pieces)],
    failing: u64,
) -> (Looped, u64) {
    let mut ports = ports(alloc, all, failing).expect(rt, "ports");
    let (server, pass) = server_of(rt, alloc).expect(rt, "a server");
    let mut clock = StepClock::new(1000, 1);
    let limits = Limits {
        sessions: 2,
        idle: 60_000,
        look: 5,
    };
    let looped = run_loop(rt, alloc, &server, pass, limits, &mut ports, &mut clock);
    drop(server);
    (looped, clock.now())
}

#[test]
fn a_loop_ends_with_its_ports(rt: HostRuntime) -> Result<(), Fail> {
    let (closed, _) = looped(&rt, rt.alloc(), &[(CREATE, Pieces::Some)], NEVER);
    let (failed, _) = looped(&rt, rt.alloc(), &[(CREATE, Pieces::Some)], 0);
    let (none, _) = looped(&rt, rt.alloc(), &[], NEVER);
    assert_eq!(rt;
        (closed, failed, none),
        (Looped::Closed, Looped::ListenFailed, Looped::Closed)
    );
    Ok(())
}

#[test]
fn a_loop_wakes_a_sync_whom_a_store_concerns(rt: HostRuntime) -> Result<(), Fail> {
    let (looped, reading) = looped(
        &rt,
        rt.alloc(),
        &[(CREATE_AND_SYNC, Pieces::Whole), (JOIN, Pieces::Bytes)],
        NEVER,
    );
    assert_eq!(rt; looped, Looped::Closed);
    assert!(rt; reading < 31_000);
    Ok(())
}
