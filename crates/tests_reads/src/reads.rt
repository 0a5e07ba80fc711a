//! A thousand events in three rooms: what a snapshot finds is what plain scans find.

use crate::known::snapshot;
use crate::make::{events, room_at};
use crate::rows::user;
use crate::scans::{
    KIND, Look, digest, first_scanned, last_scanned, scanned, sees, state_scanned, with,
};
use mx_event::Event;
use mx_ids::{Memory, RoomId, UserId};
use mx_lanes::Parts;
use mx_snapshot::{Events, Snapshot, Steps, first_redactions_are, snapshots_cross_threads};
use mx_state::{difference, state_at, state_event};
use mx_visible::{Sighted, sight, visible};
use std::alloc::Global;
use std::mem;
use std::process::Abort;
use std::test::*;

/// A thousand events, and the snapshot of them.
#[derive(Drop)]
pub struct Thousand {
    pub all: Vec<Event>,
    pub known: Snapshot,
}

/// They are forgotten and not dropped.
pub fn make_thousand(rt: &impl Abort, alloc: Global) -> Thousand {
    let all = events(rt, alloc, 1000).expect(rt, "memory");
    let known = snapshot(alloc, &all, Parts::none(alloc), Parts::none(alloc)).expect(rt, "memory");
    Thousand { all, known }
}

fn found(
    alloc: Global,
    events: &Events,
    look: Look,
    room: &RoomId,
    low: u64,
    high: u64,
) -> Result<u64, Memory> {
    let list = match look {
        Look::All => events.of_room(alloc, room, low, high)?,
        Look::Members => events.members(alloc, room, low, high)?,
        Look::States => events.states(alloc, room, low, high)?,
        Look::Versions => events.versions(alloc, room, KIND, "", low, high)?,
    };
    Ok(digest(&list))
}

fn expect_found(rt: &impl Abort, alloc: Global, made: &Thousand, look: Look, low: u64, high: u64) {
    for number in 0..3u64 {
        let room = room_at(number);
        let found = found(alloc, &made.known.events, look, &room, low, high);
        let wanted = scanned(&made.all, look, &room, low, high);
        assert!(rt; found == Ok(wanted));
    }
}

fn expect_window(rt: &impl Abort, alloc: Global, made: &Thousand, low: u64, high: u64) {
    expect_found(rt, alloc, made, Look::All, low, high);
    expect_found(rt, alloc, made, Look::Members, low, high);
    expect_found(rt, alloc, made, Look::States, low, high);
    expect_found(rt, alloc, made, Look::Versions, low, high);
}

/// The position of the state event that stands, which is found by at most so many comparisons among some ninety versions.
fn standing(rt: &impl Abort, events: &Events, room: &RoomId, high: u64, most: u64) -> u64 {
    let mut steps = Steps::new();
    let found = state_event(events, room, KIND, "", high, &mut steps);
    assert!(rt; steps.count() <= most);
    found.map_or(0, |event| event.id.at)
}

/// The digest of the last event of a room up to a position.
fn ending(rt: &impl Abort, alloc: Global, events: &Events, room: &RoomId, high: u64) -> u64 {
    digest(&events.ending(alloc, room, high, 1).expect(rt, "memory"))
}

fn expect_last(
    rt: &impl Abort,
    alloc: Global,
    made: &Thousand,
    room: &RoomId,
    high: u64,
    most: u64,
) {
    let events = &made.known.events;
    let version = events
        .last_of(room, KIND, "", high)
        .map_or(0, |event| event.id.at);
    assert_eq!(rt;
        version,
        last_scanned(&made.all, Look::Versions, room, high)
    );
    assert_eq!(rt; standing(rt, events, room, high, most), version);
    let last = ending(rt, alloc, events, room, high);
    assert_eq!(rt; last, last_scanned(&made.all, Look::All, room, high));
}

fn expect_all_last(rt: &impl Abort, alloc: Global, made: &Thousand, high: u64, most: u64) {
    for number in 0..3u64 {
        expect_last(rt, alloc, made, &room_at(number), high, most);
    }
}

#[test]
fn windows_are_as_scanned(rt: HostRuntime) {
    let made = make_thousand(&rt, rt.alloc());
    expect_window(&rt, rt.alloc(), &made, 0, 1000);
    expect_window(&rt, rt.alloc(), &made, 331, 667);
    expect_all_last(&rt, rt.alloc(), &made, 1000, 1);
    // some forty-five versions lie later
    expect_all_last(&rt, rt.alloc(), &made, 500, 13);
    mem::forget(made);
}

fn state_digest(rt: &impl Abort, alloc: Global, events: &Events, room: &RoomId, high: u64) -> u64 {
    digest(&state_at(alloc, events, room, high).expect(rt, "memory"))
}

fn changed_digest(
    rt: &impl Abort,
    alloc: Global,
    events: &Events,
    room: &RoomId,
    low: u64,
    high: u64,
) -> u64 {
    digest(&difference(alloc, events, room, low, high).expect(rt, "memory"))
}

fn expect_state(rt: &impl Abort, alloc: Global, made: &Thousand, low: u64, high: u64) {
    let events = &made.known.events;
    for number in 0..3u64 {
        let room = room_at(number);
        let state = state_digest(rt, alloc, events, &room, high);
        assert_eq!(rt; state, state_scanned(&made.all, &room, 0, high));
        let changed = changed_digest(rt, alloc, events, &room, low, high);
        assert_eq!(rt; changed, state_scanned(&made.all, &room, low, high));
    }
}

#[test]
fn states_are_as_scanned(rt: HostRuntime) {
    let made = make_thousand(&rt, rt.alloc());
    expect_state(&rt, rt.alloc(), &made, 990, 1000);
    expect_state(&rt, rt.alloc(), &made, 3, 500);
    mem::forget(made);
}

fn expect_redactions(rt: &impl Abort, all: &[Event], events: &Events, high: u64) {
    for position in 900..1000u64 {
        let by = events
            .first_redaction(position, high)
            .map_or(0, |event| event.id.at);
        assert_eq!(rt; by, first_scanned(all, position, high));
    }
}

#[test]
fn redactions_are_as_scanned(rt: HostRuntime) {
    let made = make_thousand(&rt, rt.alloc());
    expect_redactions(&rt, &made.all, &made.known.events, 1000);
    expect_redactions(&rt, &made.all, &made.known.events, 950);
    mem::forget(made);
}

/// The digest of the events of a room that a plain scan lets a user see, of those in a window.
fn seen_by_scan(all: &[Event], user: &UserId, room: &RoomId, low: u64, front: u64) -> u64 {
    let mut sum = 0u64;
    for event in all {
        if low < event.id.at && event.room == *room && sees(all, user, event, front) {
            sum = with(sum, event.id.at);
        }
    }
    sum
}

fn seen_in(list: &[Sighted]) -> u64 {
    let mut sum = 0u64;
    for sighted in list {
        if sighted.seen {
            sum = with(sum, sighted.event.id.at);
        }
    }
    sum
}

fn seen_alone(
    all: &[Event],
    events: &Events,
    user: &UserId,
    room: &RoomId,
    low: u64,
    front: u64,
) -> u64 {
    let mut sum = 0u64;
    for event in all {
        if low < event.id.at && event.room == *room && visible(events, user, event, front) {
            sum = with(sum, event.id.at);
        }
    }
    sum
}

/// The digest of the events of a room that a walk lets a user see, of those after a position.
fn seen_by_walk(
    rt: &impl Abort,
    alloc: Global,
    events: &Events,
    user: &UserId,
    room: &RoomId,
    low: u64,
    front: u64,
) -> u64 {
    let walked = sight(alloc, events, user, room, low, 1000, front).expect(rt, "memory");
    seen_in(&walked)
}

fn expect_seen(rt: &impl Abort, alloc: Global, made: &Thousand, name: &str, front: u64) {
    let user = user(rt, alloc, name);
    let room = room_at(1);
    let events = &made.known.events;
    let wanted = seen_by_scan(&made.all, &user, &room, 880, front);
    assert_eq!(rt;
        seen_alone(&made.all, events, &user, &room, 880, front),
        wanted
    );
    assert_eq!(rt;
        seen_by_walk(rt, alloc, events, &user, &room, 880, front),
        wanted
    );
}

#[test]
fn users_see_as_scanned(rt: HostRuntime) {
    let made = make_thousand(&rt, rt.alloc());
    expect_seen(&rt, rt.alloc(), &made, "@a:b", 1000);
    expect_seen(&rt, rt.alloc(), &made, "@c:b", 1000);
    expect_seen(&rt, rt.alloc(), &made, "@d:b", 1000);
    expect_seen(&rt, rt.alloc(), &made, "@a:b", 940);
    mem::forget(made);
}

/// The rooms of a user, each with the position of its last member event.
fn rooms_digest(rt: &impl Abort, alloc: Global, events: &Events, name: &str) -> u64 {
    let rooms = events.rooms_of(alloc, name).expect(rt, "memory");
    let mut sum = 0u64;
    for entry in &rooms {
        sum = with(with(sum, entry.0.at), entry.1.id.at);
    }
    sum
}

/// The position of the last member event of a user in a room, or 0.
fn last_own(all: &[Event], room: &RoomId, name: &str) -> u64 {
    let mut last = 0;
    for event in all {
        if event.room == *room && event.has_key("m.room.member", name) {
            last = event.id.at;
        }
    }
    last
}

/// The same by a plain scan.
fn rooms_scanned(all: &[Event], name: &str) -> u64 {
    let mut sum = 0u64;
    for number in 0..3u64 {
        let room = room_at(number);
        sum = with(with(sum, room.at), last_own(all, &room, name));
    }
    sum
}

#[test]
fn rooms_of_a_user_are_as_scanned(rt: HostRuntime) {
    let made = make_thousand(&rt, rt.alloc());
    let found = rooms_digest(&rt, rt.alloc(), &made.known.events, "@a:b");
    assert_eq!(&rt; found, rooms_scanned(&made.all, "@a:b"));
    mem::forget(made);
}

#[test]
fn snapshots_have_laws(_rt: HostRuntime) {
    first_redactions_are();
    snapshots_cross_threads();
}
