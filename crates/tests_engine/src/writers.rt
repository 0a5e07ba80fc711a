//! Three writers and two passes: what is written through one is answered through the other, and what both have seen.

ghost use Rattle.std.specs.Prelude.{◌≡◌, ◌≤◌};
ghost use Rattle.mx_engine.specs.Shown.{Ties};

use crate::rooms::{answered, create, send, users};
use mx_ask::{Ask, FilterAsk};
use mx_engine::{Engine, EnginePass, Setup, engine};
use mx_writers::Open;
use std::alloc::Global;
use std::process::Abort;
use std::sync::Wait;

/// The event front that a sync of carol is answered.
fn front(
    rt: &(impl Abort + Wait),
    alloc: Global,
    engine: &Engine<Open>,
    pass: &mut EnginePass,
) -> u64
    requires ties { Ties engine.now pass.old }
    ensures ties { Ties engine.now pass.new }
{
    answered(
        rt,
        alloc,
        engine,
        pass,
        "carol",
        Ask::Sync {
            since: None,
            filter: FilterAsk::Absent,
            full_state: false,
            after: false,
            timeout: 0,
        },
    )
}

/// An engine of three writers, whose users are of one each, and a pass.
fn three_writers(rt: &impl Abort, alloc: Global, stop: u64) -> (Engine<Open>, EnginePass)
    requires stop { stop ≤ 281474976694272 }
    ensures ties { Ties result.0 result.1 }
{
    let setup = Setup {
        users: users(rt, alloc),
        workers: 3,
        stop,
    };
    engine(alloc, setup, Open).expect(rt, "memory")
}

/// A pass meets a copy of another one.
fn meet(
    rt: &impl Abort,
    alloc: Global,
    engine: &Engine<Open>,
    pass: &mut EnginePass,
    other: &mut EnginePass,
)
    requires ties { Ties engine.now pass.old × Ties engine.now other.old }
    ensures ties { Ties engine.now pass.new × Ties engine.now other.new }
{
    let copy = engine.pass(alloc, other).expect(rt, "memory");
    engine.meet(pass, copy);
}

fn two_passes_of_three_writers_on(
    rt: &(impl Abort + Wait),
    alloc: Global,
    e: &Engine<Open>,
    p: &mut EnginePass,
    q: &mut EnginePass,
)
    requires ties { Ties e.now p.old × Ties e.now q.old }
{
    // a room of the writer 0 through one pass, and one of the writer 1 through the other
    assert_eq!(rt; create(rt, alloc, e, p, "alice", "{}"), 1);
    assert_eq!(rt; send(rt, alloc, e, p, "alice", "!0-1:x", "t1"), 7);
    assert_eq!(rt; create(rt, alloc, e, q, "bob", "{}"), 8);
    assert_eq!(rt; p.mark(0).events, 2);
    assert_eq!(rt; q.mark(0).events, 3);
    // a pass that meets another has seen what that one has
    meet(rt, alloc, e, p, q);
    assert_eq!(rt; p.mark(0).events, 3);
    // a transaction is repeated through the other pass, and each pass writes to the other's room
    assert_eq!(rt; send(rt, alloc, e, q, "alice", "!0-1:x", "t1"), 7);
    assert_eq!(rt; send(rt, alloc, e, p, "bob", "!1-8:x", "t1"), 14);
    assert_eq!(rt; send(rt, alloc, e, p, "alice", "!1-8:x", "t2"), 1007);
    assert_eq!(rt; front(rt, alloc, e, p), 14);
    assert_eq!(rt; front(rt, alloc, e, q), 14);
    // where nothing is new the same is told, and then what one of the streams has
    assert_eq!(rt; front(rt, alloc, e, p), 14);
    assert_eq!(rt; send(rt, alloc, e, q, "alice", "!0-1:x", "t3"), 15);
    assert_eq!(rt; front(rt, alloc, e, p), 15);
}

#[test]
fn two_passes_of_three_writers(rt: HostRuntime) {
    let alloc = rt.alloc();
    let (engine, mut first) = three_writers(&rt, alloc, 1000);
    let mut second = engine.pass(alloc, &mut first).expect(&rt, "memory");
    two_passes_of_three_writers_on(&rt, alloc, &engine, &mut first, &mut second);
    drop(second);
    drop(first);
    drop(engine);
}

fn the_last_positions_of_a_stream_on(
    rt: &(impl Abort + Wait),
    alloc: Global,
    e: &Engine<Open>,
    p: &mut EnginePass,
    q: &mut EnginePass,
)
    requires ties { Ties e.now p.old × Ties e.now q.old }
{
    // six positions are drawn at once, and the last by a message
    assert_eq!(rt; create(rt, alloc, e, p, "alice", "{}"), 1);
    assert_eq!(rt; send(rt, alloc, e, p, "alice", "!0-1:x", "t1"), 7);
    // no writer draws again: what would be stored is refused, through each pass
    assert_eq!(rt; create(rt, alloc, e, q, "bob", "{}"), 507);
    assert_eq!(rt; send(rt, alloc, e, q, "alice", "!0-1:x", "t3"), 507);
    // what stores nothing is answered as before
    assert_eq!(rt; send(rt, alloc, e, q, "alice", "!0-1:x", "t1"), 7);
    assert_eq!(rt; send(rt, alloc, e, q, "bob", "!0-1:x", "t2"), 1007);
    assert_eq!(rt; front(rt, alloc, e, q), 7);
}

#[test]
fn the_last_positions_of_a_stream(rt: HostRuntime) {
    let alloc = rt.alloc();
    let (engine, mut first) = three_writers(&rt, alloc, 7);
    let mut second = engine.pass(alloc, &mut first).expect(&rt, "memory");
    the_last_positions_of_a_stream_on(&rt, alloc, &engine, &mut first, &mut second);
    drop(second);
    drop(first);
    drop(engine);
}
