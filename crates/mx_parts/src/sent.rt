//! What a reply sends of a room's events.

ghost use Rattle.std.specs.Prelude.{◌≡◌, IfOk, cond};
ghost use Rattle.mx_lazy.specs.Picks.{IsStayed, pick_of};
ghost use Rattle.mx_parts.specs.Shows.{shown_part};
ghost use Rattle.mx_parts.specs.Readings.{IsRead, events_of, room_in};

use crate::part::RoomPart;
use crate::reading::Reading;
use crate::settling::section;
use crate::showing::all_shown;
use crate::state::{named_keys, names_some, state_part};
use crate::window::Window;
use mx_ids::{Memory, Seq, Text};
use mx_lazy::{Pick, Picker, senders};
use std::alloc::Global;

/// What a reply sends of a window, with the state that is picked; `heroes` are those of the summary that is sent.
pub fn room_part(
    alloc: Global,
    reading: &Reading<'_>,
    window: &Window,
    pick: Pick,
    heroes: &Seq<Text>,
) -> Result<RoomPart, Memory>
    requires read { IsRead reading.now }
    requires stayed { IsStayed reading.now.user.now (events_of reading.now) pick }
    ensures { IfOk result (λ p. p ≡ shown_part reading.now window.now (pick_of (room_in reading.now) heroes.now pick)) }
{
    let _front = reading.events.front();
    let section = section(alloc, reading, window)?;
    let picker = Picker {
        pick,
        lazy: reading.filter.selection.lazy,
        user: reading.user,
        heroes,
        senders: senders(alloc, &section.events)?,
    };
    let named = names_some(picker.lazy, &section.events, heroes);
    let end = state_end(window, section.cut);
    let keys = named_keys(alloc, named, &section.events, heroes)?;
    let state = state_part(alloc, reading, &picker, &keys, named, end)?;
    Ok(RoomPart {
        limited: section.limited,
        cut: section.cut,
        state: all_shown(alloc, reading, &state)?,
        timeline: all_shown(alloc, reading, &section.events)?,
    })
}

/// The position of the state that is sent.
fn state_end(window: &Window, cut: u64) -> u64
    ensures { result ≡ cond window.now.after window.now.high cut }
{
    if window.after { window.high } else { cut }
}
