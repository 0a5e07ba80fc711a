//! Which events a page sends.

ghost use Rattle.std.specs.Prelude.{◌≡◌, ◌≤◌, ◌==◌, ◌||◌, IfOk, length, nat_lt, take};
ghost use Rattle.mx_folding.specs.Sections as sections;
ghost use Rattle.mx_parts.specs.Readings.{IsRead, events_of, front_of, room_in};
ghost use Rattle.mx_pager.specs.Pages as sent;
ghost use Rattle.mx_snapshot.specs.Looks.{all_now};

use crate::asked::PageAsk;
use mx_event::Event;
use mx_ids::Memory;
use mx_parts::{Reading, Section, Window, section, sendable};
use std::alloc::Global;

/// The events of a page.
#[derive(Drop)]
pub(crate) struct Chosen<'a> {
    /// In order of position.
    pub(crate) events: Vec<&'a Event>,
    /// An event between the bounds that may be sent isn't among them.
    pub(crate) more: bool,
}

/// The events of a page between two positions. Takes the time of the events from the end at which it begins on until the page
/// is full, and of some searches: a backward page's of those that the user sees, a forward page's of all, by stretches that
/// grow by four.
pub(crate) fn choose<'a>(
    alloc: Global,
    reading: &Reading<'a>,
    ask: &PageAsk<'_>,
    low: u64,
    high: u64,
) -> Result<Chosen<'a>, Memory>
    requires { IsRead reading.now }
    ensures events { IfOk result (λ made. all_now made.events.items ≡ sent.chosen_between (room_in reading.now) (events_of reading.now) (front_of reading.now) ask.now low high) }
    ensures more { IfOk result (λ made. made.more ≡ sent.has_more_between (room_in reading.now) (events_of reading.now) (front_of reading.now) ask.now low high) }
{
    if ask.backward {
        last_between(alloc, reading, ask.limit, low, high)
    } else {
        first_between(alloc, reading, ask.limit, low, high)
    }
}

fn last_between<'a>(
    alloc: Global,
    reading: &Reading<'a>,
    limit: u64,
    low: u64,
    high: u64,
) -> Result<Chosen<'a>, Memory>
    requires { IsRead reading.now }
    ensures events { IfOk result (λ made. all_now made.events.items ≡ sections.chunk (room_in reading.now) (events_of reading.now) limit (front_of reading.now) low high) }
    ensures more { IfOk result (λ made. made.more ≡ nat_lt (length (sections.chunk (room_in reading.now) (events_of reading.now) limit (front_of reading.now) low high)) (length (sections.sendable (room_in reading.now) (events_of reading.now) (front_of reading.now) low high))) }
{
    let window = Window {
        after: true,
        limit,
        low,
        high,
    };
    let Section {
        events,
        limited,
        ..
    } = section(alloc, reading, &window)?;
    Ok(Chosen {
        events,
        more: limited,
    })
}

/// Walks through stretches that begin with the window, each of four times as many positions as the one before, until the
/// page is full or the stretch is the window.
fn first_between<'a>(
    alloc: Global,
    reading: &Reading<'a>,
    limit: u64,
    low: u64,
    high: u64,
) -> Result<Chosen<'a>, Memory>
    requires { IsRead reading.now }
    ensures events { IfOk result (λ made. all_now made.events.items ≡ take limit (sections.sendable (room_in reading.now) (events_of reading.now) (front_of reading.now) low high)) }
    ensures more { IfOk result (λ made. made.more ≡ nat_lt (length (take limit (sections.sendable (room_in reading.now) (events_of reading.now) (front_of reading.now) low high))) (length (sections.sendable (room_in reading.now) (events_of reading.now) (front_of reading.now) low high))) }
{
    let _front = reading.events.front();
    let mut most = limit.saturating_mul(4).saturating_add(16);
    'stretches: for _round in 0u32..32 {
        let until = stretch_end(low, most, high);
        let made = sendable(alloc, reading, low, until)?;
        if is_settled(&made, limit, until, high) {
            let first = first_of(made, limit);
            return Ok(first);
        }
        most = most.saturating_mul(4);
    }
    first_of_all(alloc, reading, limit, low, high)
}

fn first_of_all<'a>(
    alloc: Global,
    reading: &Reading<'a>,
    limit: u64,
    low: u64,
    high: u64,
) -> Result<Chosen<'a>, Memory>
    requires { IsRead reading.now }
    ensures events { IfOk result (λ made. all_now made.events.items ≡ take limit (sections.sendable (room_in reading.now) (events_of reading.now) (front_of reading.now) low high)) }
    ensures more { IfOk result (λ made. made.more ≡ nat_lt (length (take limit (sections.sendable (room_in reading.now) (events_of reading.now) (front_of reading.now) low high))) (length (sections.sendable (room_in reading.now) (events_of reading.now) (front_of reading.now) low high))) }
{
    let made = sendable(alloc, reading, low, high)?;
    let first = first_of(made, limit);
    Ok(first)
}

fn stretch_end(low: u64, most: u64, high: u64) -> u64
    ensures { result ≤ high }
{
    low.saturating_add(most).min(high)
}

/// Whether the first events up to a position are those of the window.
fn is_settled(made: &[&Event], limit: u64, until: u64, high: u64) -> bool
    ensures { result ≡ (nat_lt limit (length (all_now made.now)) || (until == high)) }
{
    limit < made.len() as u64 || until == high
}

fn first_of<'a>(made: Vec<&'a Event>, limit: u64) -> Chosen<'a>
    ensures events { all_now result.events.items ≡ take limit (all_now made.entry.items) }
    ensures more { result.more ≡ nat_lt limit (length (all_now made.entry.items)) }
{
    let more = is_longer(&made, limit);
    let mut events = made;
    events.truncate(limit as usize);
    Chosen { events, more }
}

fn is_longer(made: &[&Event], limit: u64) -> bool
    ensures { result ≡ nat_lt limit (length (all_now made.now)) }
{
    limit < made.len() as u64
}
