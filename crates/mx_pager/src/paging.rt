//! A page of a room's events.

ghost use Rattle.std.specs.Prelude.{◌≡◌, ℕ, Some, None, true, false, cond, length, reverse, IfOk, IsErrOf};
ghost use Rattle.mx_event.specs.Lawful.{of_room};
ghost use Rattle.mx_ids.specs.Ids.{room_id_text};
ghost use Rattle.mx_ids.specs.User.{server_of};
ghost use Rattle.mx_parts.specs.Readings.{IsRead, events_of, front_of, room_in};
ghost use Rattle.mx_pager.specs.Asks.{asks_ahead};
ghost use Rattle.mx_pager.specs.Pages as sent;
ghost use Rattle.mx_pager.specs.Pages.{AreValid};
ghost use Rattle.mx_pager.specs.declared.fault.PageFault.TheVariants as faults;
ghost use Rattle.mx_event.specs.Shown.{position_of};
ghost use Rattle.mx_window.specs.Windows.{before_first};
ghost use Rattle.mx_snapshot.specs.Looks.{all_now};

use crate::asked::{PageAsk, ahead};
use crate::choosing::{Chosen, choose};
use crate::fault::PageFault;
use crate::members::page_members;
use crate::seeing::sees_room;
use crate::sent::Page;
use mx_event::Event;
use mx_ids::{Memory, PageToken, RoomId, Text, UserId, write_room_id};
use mx_parts::{Reading, all_shown};
use mx_snapshot::Snapshot;
use std::alloc::Global;

/// A page of a room's events, as a user sees them at the snapshot's front (Client-Server API, Getting events for a room).
///
/// `TokenAhead` exactly where a component of a bound exceeds the front of its stream: the first of `from`, then of `to`.
/// `Forbidden` exactly where none is, and the user sees no event of the room. Takes the time of the events from where the page
/// begins on until it is full, backward of those that the user sees, forward of all, by stretches that grow by four; with
/// lazy members that of the room's member events besides; and that of some searches, a few of them for each of the user's
/// member events and the room's history-visibility events.
pub fn page(
    alloc: Global,
    snapshot: &Snapshot,
    user: &UserId,
    ask: &PageAsk<'_>,
) -> Result<Page, PageFault>
    requires valid { AreValid snapshot.now.events }
    ensures ahead { (asked front : ℕ) → IsErrOf result (faults.TokenAhead asked front) → asks_ahead snapshot.now ask.now ≡ Some (asked, front) }
    ensures forbidden { IsErrOf result faults.Forbidden → (asks_ahead snapshot.now ask.now ≡ None) × (sent.sees user.now (of_room ask.now.room snapshot.now.events) (length snapshot.now.events) ≡ false) }
    ensures page { IfOk result (λ p. (asks_ahead snapshot.now ask.now ≡ None) × (sent.sees user.now (of_room ask.now.room snapshot.now.events) (length snapshot.now.events) ≡ true) × (p ≡ sent.page_of snapshot.now.events user.now ask.now)) }
{
    if let Some((asked, front)) = ahead(snapshot, ask) {
        return Err(PageFault::TokenAhead { asked, front });
    }
    let room_text = text_of(alloc, &ask.room, user)?;
    let reading = Reading {
        events: &snapshot.events,
        room: &ask.room,
        room_text: &room_text,
        user,
        filter: ask.filter,
    };
    if !sees_room(&reading) {
        return Err(PageFault::Forbidden);
    }
    let page = read_page(alloc, &reading, ask);
    drop(room_text);
    Ok(page?)
}

/// The text of a room's id, at the user's server.
fn text_of(alloc: Global, room: &RoomId, user: &UserId) -> Result<Text, Memory>
    ensures { IfOk result (λ t. t ≡ room_id_text (server_of user.now) room.now) }
{
    let mut text = Text::new(alloc);
    write_room_id(alloc, room, user.server(), &mut text)?;
    Ok(text)
}

fn read_page(alloc: Global, reading: &Reading<'_>, ask: &PageAsk<'_>) -> Result<Page, Memory>
    requires { IsRead reading.now }
    ensures { IfOk result (λ p. p ≡ sent.page_in (room_in reading.now) reading.now.user.now (events_of reading.now) (front_of reading.now) ask.now) }
{
    let front = reading.events.front();
    let low = ask.low(front);
    let high = ask.high(front);
    let chosen = choose(alloc, reading, ask, low, high)?;
    let end = end_of(ask, front, &chosen);
    let position = members_at(ask, front);
    let members = page_members(alloc, reading, position, &chosen.events)?;
    let events = in_order(ask.backward, chosen.events);
    let chunk = all_shown(alloc, reading, &events);
    drop(events);
    match chunk {
        Ok(chunk) => Ok(Page {
            chunk,
            start: ask.start(front),
            end,
            members,
        }),
        Err(refused) => {
            drop(members);
            Err(refused)
        }
    }
}

/// The position of the state in which the members stand.
fn members_at(ask: &PageAsk<'_>, front: u64) -> u64
    ensures { result ≡ sent.members_at front ask.now }
{
    let start = ask.start(front);
    if ask.backward { start.cut() } else { front }
}

fn in_order<'a>(backward: bool, events: Vec<&'a Event>) -> Vec<&'a Event>
    ensures { all_now result.items ≡ cond backward (reverse (all_now events.entry.items)) (all_now events.entry.items) }
{
    if backward { reversed(events) } else { events }
}

#[tactic(auto, using(crate::proofs::Turned::reverse_now))]
fn reversed<'a>(events: Vec<&'a Event>) -> Vec<&'a Event>
    ensures { all_now result.items ≡ reverse (all_now events.entry.items) }
{
    let mut made = events;
    made.reverse();
    made
}

fn end_of(ask: &PageAsk<'_>, front: u64, chosen: &Chosen<'_>) -> Option<PageToken>
    ensures { result ≡ cond chosen.now.more (Some (sent.next_place front ask.now (all_now chosen.now.events.items))) None }
{
    if chosen.more {
        Some(next_place(ask, front, &chosen.events))
    } else {
        None
    }
}

/// Where the next page begins.
fn next_place(ask: &PageAsk<'_>, front: u64, events: &[&Event]) -> PageToken
    ensures { result ≡ sent.next_place front ask.now (all_now events.now) }
{
    if ask.backward {
        PageToken {
            at: place_before(events, ask.high(front)),
            e: ask.start(front).cut(),
        }
    } else {
        PageToken {
            at: last_place(events, ask.low(front)),
            e: front,
        }
    }
}

/// The position before the first of the events, or the upper bound.
fn place_before(events: &[&Event], high: u64) -> u64
    ensures { result ≡ before_first position_of high (all_now events.now) }
{
    match events.first() {
        Some(event) => event.id.at.saturating_sub(1),
        None => high,
    }
}

/// The position of the last of the events, or the lower bound.
fn last_place(events: &[&Event], low: u64) -> u64
    ensures { result ≡ sent.last_place low (all_now events.now) }
{
    let mut place = low;
    'events: for event in events {
        place = event.id.at;
    }
    place
}
