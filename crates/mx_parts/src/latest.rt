//! The last events of a window that may be sent, found from its end back.

ghost use Rattle.std.specs.Prelude.{◌≡◌, ◌≤◌, ◌&&◌, ◌++◌, ◌-◌, IfOk, OnOk, length, max, nat_le, nat_lt, reverse, take};
ghost use Rattle.mx_folding.specs.Sections as sections;
ghost use Rattle.mx_parts.specs.Gathers.{IsWalked};
ghost use Rattle.mx_parts.specs.Readings.{IsRead, events_of, front_of, room_in};
ghost use Rattle.mx_snapshot.specs.Looks.{all_now};
ghost use Rattle.mx_window.specs.Windows.{before_first};
ghost use Rattle.mx_event.specs.Shown.{position_of};

use crate::reading::Reading;
use crate::sending::sendable;
use mx_event::Event;
use mx_ids::Memory;
use mx_lazy::{last_mark, last_visible};
use std::alloc::Global;

/// The last events of a window that may be sent.
#[derive(Drop)]
pub(crate) struct Latest<'a> {
    /// In order of position.
    pub(crate) events: Vec<&'a Event>,
    /// An event of the window that may be sent isn't among them.
    pub(crate) more: bool,
}

/// The last events at the positions after `low` and up to `high` that may be sent, at most `most` of them. Takes the time of
/// the events that the user sees there, from the last one back until one more may be sent, or of some 256 more; and of some
/// searches for each hundred of them, and for each of the user's member events and the room's history-visibility events.
pub(crate) fn last_sendable<'a>(
    alloc: Global,
    reading: &Reading<'a>,
    low: u64,
    high: u64,
    most: u64,
) -> Result<Latest<'a>, Memory>
    requires { IsRead reading.now }
    ensures events { IfOk result (λ l. all_now l.events.items ≡ sections.chunk (room_in reading.now) (events_of reading.now) most (front_of reading.now) low high) }
    ensures more { IfOk result (λ l. l.more ≡ nat_lt (length (sections.chunk (room_in reading.now) (events_of reading.now) most (front_of reading.now) low high)) (length (sections.sendable (room_in reading.now) (events_of reading.now) (front_of reading.now) low high))) }
{
    let found = walk_back(alloc, reading, low, high, most)?;
    let latest = in_order(found, most);
    Ok(latest)
}

/// The first `most` of events in falling order, in order of position.
fn in_order<'a>(found: Vec<&'a Event>, most: u64) -> Latest<'a>
    ensures events { all_now result.events.items ≡ reverse (take most (all_now found.entry.items)) }
    ensures more { result.more ≡ nat_lt most (length (all_now found.entry.items)) }
{
    let more = is_longer(&found, most);
    let mut events = found;
    events.truncate(most as usize);
    events.reverse();
    Latest { events, more }
}

fn is_longer(found: &[&Event], most: u64) -> bool
    ensures { result ≡ nat_lt most (length (all_now found.now)) }
{
    most < found.len() as u64
}

/// The events of a window that may be sent, in falling order, from its end on until there are more than `most`.
fn walk_back<'a>(
    alloc: Global,
    reading: &Reading<'a>,
    low: u64,
    high: u64,
    most: u64,
) -> Result<Vec<&'a Event>, Memory>
    requires { IsRead reading.now }
    ensures { IfOk result (λ found. IsWalked reading.now low high most (all_now found.items)) }
{
    let front = reading.events.front();
    let size = most.min(240) + 16;
    let mut found = Vec::new(alloc);
    let mut end = high;
    'stretches: while is_open(low, end, &found, most) {
        let last = last_visible(reading.events, reading.user, reading.room, low, end, front);
        let begin = stretch_begin(alloc, reading, low, last, size)?;
        push_back(alloc, reading, begin, last, &mut found)?;
        end = begin;
    }
    Ok(found)
}

fn is_open(low: u64, end: u64, found: &[&Event], most: u64) -> bool
    ensures { result ≡ (nat_lt low end && nat_le (length (all_now found.now)) most) }
{
    low < end && found.len() as u64 <= most
}

/// Where a stretch of at most `size` of the room's events begins that ends at `last` and has no mark of visibility before it.
fn stretch_begin(
    alloc: Global,
    reading: &Reading<'_>,
    low: u64,
    last: u64,
    size: u64,
) -> Result<u64, Memory>
    ensures least { IfOk result (λ begin. low ≤ begin) }
    ensures back { IfOk result (λ begin. begin ≤ max low (last - 1)) }
{
    let before = last.saturating_sub(1);
    let mark = last_mark(reading.events, reading.user, reading.room, before);
    let events = reading.events.ending(alloc, reading.room, last, size)?;
    let first = cut_before(&events, before);
    Ok(mark.max(first).min(before).max(low))
}

/// The position before the first of the events, or the window's end.
pub(crate) fn cut_before(events: &[&Event], end: u64) -> u64
    ensures { result ≡ before_first position_of end (all_now events.now) }
{
    match events.first() {
        Some(event) => event.id.at.saturating_sub(1),
        None => end,
    }
}

/// Pushes the events of a stretch that may be sent, the last one first.
fn push_back<'a>(
    alloc: Global,
    reading: &Reading<'a>,
    low: u64,
    high: u64,
    found: &mut Vec<&'a Event>,
) -> Result<(), Memory>
    requires { IsRead reading.now }
    ensures { OnOk result (all_now found.new.items ≡ all_now found.old.items ++ reverse (sections.sendable (room_in reading.now) (events_of reading.now) (front_of reading.now) low high)) }
{
    let mut sent = sendable(alloc, reading, low, high)?;
    sent.reverse();
    found.extend_from_slice(&sent)?;
    Ok(())
}
