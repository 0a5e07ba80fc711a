//! The section of a room's timeline that a reply or a page sends.

ghost use Rattle.std.specs.Prelude.{◌≡◌, ◌||◌, ◌++◌, ◌∷◌, [], IfOk, OnOk, cond, filter, length, nat_lt};
ghost use Rattle.mx_folding.specs.Sections as sections;
ghost use Rattle.mx_event.specs.Lawful.{of_room};
ghost use Rattle.mx_parts.specs.Gathers as gather;
ghost use Rattle.mx_parts.specs.Sections as part;
ghost use Rattle.mx_parts.specs.Readings.{IsRead, events_of, front_of, room_in};
ghost use Rattle.mx_snapshot.specs.Looks.{all_now};

use crate::latest::{cut_before, last_sendable};
use crate::passing::{keeps, passes};
use crate::reading::Reading;
use crate::window::{Section, Window};
use mx_event::Event;
use mx_ids::Memory;
use mx_lazy::visible;
use std::alloc::Global;

/// The section of a window. Takes the time of the events that the user sees, from the window's end until one is left out or
/// none comes, or of some 256 more; of the state events from the window's end until the break, or the first of these events;
/// and of some searches for each of the state events, for each hundred of the others, and for each of the user's member
/// events and the room's history-visibility events.
pub fn section<'a>(
    alloc: Global,
    reading: &Reading<'a>,
    window: &Window,
) -> Result<Section<'a>, Memory>
    requires read { IsRead reading.now }
    ensures events { IfOk result (λ s. all_now s.events.items ≡ part.section_of reading.now window.now) }
    ensures limited { IfOk result (λ s. s.limited ≡ part.is_limited reading.now window.now) }
    ensures cut { IfOk result (λ s. s.cut ≡ part.cut_of reading.now window.now) }
{
    let _front = reading.events.front();
    let latest = last_sendable(alloc, reading, window.low, window.high, window.limit)?;
    let first = cut_before(&latest.events, window.high);
    let from = begin(reading, window, first);
    let sent = sent_after(alloc, &latest.events, from)?;
    let cut = cut_before(&sent, window.high);
    let limited = is_limited(latest.more, &sent, &latest.events);
    drop(latest);
    Ok(Section {
        events: sent,
        limited,
        cut,
    })
}

/// Whether an event of the window is left out, where `more` of them lie before `events`.
fn is_limited(more: bool, sent: &[&Event], events: &[&Event]) -> bool
    ensures { result ≡ (more || nat_lt (length (all_now sent.now)) (length (all_now events.now))) }
{
    more || sent.len() < events.len()
}

/// Where the section begins, of which the events lie after `low`: at the last break after it, or there.
fn begin(reading: &Reading<'_>, window: &Window, low: u64) -> u64
    requires { IsRead reading.now }
    ensures { result ≡ cond window.now.after low (sections.break_at (room_in reading.now) (events_of reading.now) (front_of reading.now) low window.now.high) }
{
    if window.after {
        low
    } else {
        last_break(reading, low, window.high)
    }
}

/// The last state event after `low` and up to `high` that the state filter passes and that isn't sent, or `low`.
fn last_break(reading: &Reading<'_>, low: u64, high: u64) -> u64
    requires { IsRead reading.now }
    ensures { result ≡ sections.break_at (room_in reading.now) (events_of reading.now) (front_of reading.now) low high }
{
    let front = reading.events.front();
    let mut end = high;
    'states: while low < end {
        match reading.events.last_state(reading.room, end) {
            Some(event) => {
                if is_hidden(reading, event, front) {
                    return event.id.at.max(low);
                }
                end = event.id.at.saturating_sub(1);
            }
            None => return low,
        }
    }
    low
}

/// Whether the state filter passes an event of the room that isn't sent.
fn is_hidden(reading: &Reading<'_>, event: &Event, front: u64) -> bool
    requires { IsRead reading.now }
    ensures { result ≡ gather.is_hidden reading.now (of_room event.now.room reading.now.events.now) front event.now }
{
    keeps(reading, event)
        && !(visible(reading.events, reading.user, event, front) && passes(reading, event))
}

/// Those of some events that lie after a position.
fn sent_after<'a>(alloc: Global, events: &[&'a Event], from: u64) -> Result<Vec<&'a Event>, Memory>
    ensures { IfOk result (λ made. all_now made.items ≡ filter (λ e. nat_lt from e.id.at) (all_now events.now)) }
{
    let mut made = Vec::new(alloc);
    'events: for event in events {
        push_after(event, from, &mut made)?;
    }
    Ok(made)
}

fn push_after<'a>(event: &'a Event, from: u64, made: &mut Vec<&'a Event>) -> Result<(), Memory>
    ensures { OnOk result (all_now made.new.items ≡ all_now made.old.items ++ filter (λ e. nat_lt from e.id.at) (event.now ∷ [])) }
{
    if from < event.id.at {
        made.push(event)?;
    }
    Ok(())
}
