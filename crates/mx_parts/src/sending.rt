//! The events of a window that may be sent.

ghost use Rattle.std.specs.Prelude.{◌≡◌, ◌++◌, IfOk, OnOk};
ghost use Rattle.mx_folding.specs.Sections as sections;
ghost use Rattle.mx_parts.specs.Gathers as gather;
ghost use Rattle.mx_parts.specs.Readings.{IsRead, events_of, front_of, room_in, sieve};
ghost use Rattle.mx_snapshot.specs.Looks.{all_now};
ghost use Rattle.mx_lazy.specs.OfVisible.Walks.{all_sighted, sighted};

use crate::passing::passes;
use crate::reading::Reading;
use mx_event::Event;
use mx_ids::Memory;
use mx_lazy::{Sighted, sight};
use std::alloc::Global;

/// The events at the positions after `low` and up to `high` that the user sees and that the timeline filter passes, in order
/// of position. Takes the time of all the events there, and of some searches.
pub fn sendable<'a>(
    alloc: Global,
    reading: &Reading<'a>,
    low: u64,
    high: u64,
) -> Result<Vec<&'a Event>, Memory>
    requires { IsRead reading.now }
    ensures { IfOk result (λ made. all_now made.items ≡ sections.sendable (room_in reading.now) (events_of reading.now) (front_of reading.now) low high) }
{
    let front = reading.events.front();
    let seen = sight(
        alloc,
        reading.events,
        reading.user,
        reading.room,
        low,
        high,
        front,
    )?;
    let made = sent_among(alloc, reading, &seen)?;
    Ok(made)
}

fn sent_among<'a>(
    alloc: Global,
    reading: &Reading<'a>,
    seen: &[Sighted<'a>],
) -> Result<Vec<&'a Event>, Memory>
    requires { IsRead reading.now }
    ensures { IfOk result (λ made. all_now made.items ≡ gather.all_sent (sieve reading.now) (all_sighted seen.now)) }
{
    let mut made = Vec::new(alloc);
    'events: for event in seen {
        send(reading, event, &mut made)?;
    }
    Ok(made)
}

fn send<'a>(
    reading: &Reading<'a>,
    event: &Sighted<'a>,
    made: &mut Vec<&'a Event>,
) -> Result<(), Memory>
    requires { IsRead reading.now }
    ensures { OnOk result (all_now made.new.items ≡ all_now made.old.items ++ gather.one_sent (sieve reading.now) (sighted event.now)) }
{
    let own = event.event;
    if event.seen && passes(reading, own) {
        made.push(own)?;
    }
    Ok(())
}
