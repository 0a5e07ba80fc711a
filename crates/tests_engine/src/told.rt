//! What those who wait were told of a write, by the mark of its answer.

ghost use Rattle.mx_ask.specs.Asks.{IsAsk};
ghost use Rattle.mx_engine.specs.Shown.{Ties};

use crate::rooms::{create, json, one_writer, text, user};
use mx_ask::{Ask, FilterAsk, Who};
use mx_engine::{Engine, EnginePass};
use mx_ids::read_sync_token;
use mx_wait::{StreamName, Told};
use mx_writers::Open;
use std::alloc::Global;
use std::process::Abort;
use std::sync::Wait;

/// The front that was told, and 100, 200 or 300 more for the stream of events, of receipts or of account data; 0 for nothing.
fn front(told: Option<Told>) -> u64 {
    match told {
        Some(told) => match told.stream {
            StreamName::Events => told.front.saturating_add(100),
            StreamName::Receipts => told.front.saturating_add(200),
            StreamName::Accounts => told.front.saturating_add(300),
        },
        None => 0,
    }
}

/// What was told of the own write of an answer to alice, and of the marker before it.
fn told(
    rt: &(impl Abort + Wait),
    alloc: Global,
    engine: &Engine<Open>,
    pass: &mut EnginePass,
    ask: Ask,
) -> (u64, u64)
    requires ties { Ties engine.now pass.old }
    requires ask { IsAsk ask }
    ensures ties { Ties engine.now pass.new }
{
    let who = Who {
        user: user(rt, alloc, "alice"),
        device: 0,
    };
    let told = told_to(rt, alloc, engine, pass, &who, ask);
    drop(who);
    told
}

fn told_to(
    rt: &impl Wait,
    alloc: Global,
    engine: &Engine<Open>,
    pass: &mut EnginePass,
    who: &Who,
    ask: Ask,
) -> (u64, u64)
    requires ties { Ties engine.now pass.old }
    requires ask { IsAsk ask }
    ensures ties { Ties engine.now pass.new }
{
    let answered = engine.answer(rt, alloc, pass, who, ask, 1000);
    let told = (front(answered.mark.told), front(answered.mark.marker_told));
    drop(answered);
    told
}

/// What account data asks.
pub fn data(rt: &impl Abort, alloc: Global, kind: &str) -> Ask
    ensures { IsAsk result }
{
    Ask::PutAccount {
        room: None,
        kind: text(rt, alloc, kind),
        content: json(rt, alloc, "{}"),
    }
}

/// What `m.fully_read` and a receipt ask.
fn markers(rt: &impl Abort, alloc: Global, event: &str) -> Ask
    ensures { IsAsk result }
{
    Ask::ReadMarkers {
        room: text(rt, alloc, "!0-1:x"),
        fully_read: Some(text(rt, alloc, event)),
        read: Some(text(rt, alloc, event)),
        private: None,
    }
}

fn sync() -> Ask
    ensures { IsAsk result }
{
    Ask::Sync {
        since: read_sync_token("s0_0_1_0_0").ok(),
        filter: FilterAsk::Absent,
        full_state: false,
        after: false,
        timeout: 0,
    }
}

fn each_store_is_told_on(
    rt: &(impl Abort + Wait),
    alloc: Global,
    e: &Engine<Open>,
    p: &mut EnginePass,
)
    requires ties { Ties e.now p.old }
{
    assert_eq!(rt; told(rt, alloc, e, p, data(rt, alloc, "org.a")), (301, 0));
    assert_eq!(rt; told(rt, alloc, e, p, data(rt, alloc, "org.b")), (302, 0));
    assert_eq!(rt; told(rt, alloc, e, p, sync()), (0, 0));
    assert_eq!(rt; create(rt, alloc, e, p, "alice", "{}"), 1);
    assert_eq!(rt;
        told(rt, alloc, e, p, markers(rt, alloc, "$1:x")),
        (201, 303)
    );
    assert_eq!(rt; told(rt, alloc, e, p, markers(rt, alloc, "$1:x")), (304, 0));
    assert_eq!(rt; told(rt, alloc, e, p, markers(rt, alloc, "$9:x")), (0, 0));
}

#[test]
fn each_store_is_told(rt: HostRuntime) {
    let alloc = rt.alloc();
    let (engine, mut pass) = one_writer(&rt, alloc, 1000);
    each_store_is_told_on(&rt, alloc, &engine, &mut pass);
    drop(pass);
    drop(engine);
}
