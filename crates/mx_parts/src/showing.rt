//! How a room's events are shown to a user at a front.

ghost use Rattle.std.specs.Prelude.{◌≡◌, Some, None, cond, IfOk, IfSome};
ghost use Rattle.std.specs.Option.{option_copied};
ghost use Rattle.mx_event.specs.Shown as shows;
ghost use Rattle.mx_folding.specs.Visible.{is_visible};
ghost use Rattle.mx_parts.specs.Readings.{IsRead, events_of, front_of};
ghost use Rattle.mx_parts.specs.Sections.{AreListed, IsListed};
ghost use Rattle.mx_parts.specs.Shows as part;
ghost use Rattle.mx_snapshot.specs.Looks.{all_now};
ghost use Rattle.mx_view.specs.Readings.{viewer_of};
ghost use Rattle.mx_view.specs.Shows.{shown_for};

use crate::reading::Reading;
use mx_event::{Event, Shown, redact};
use mx_ids::{Copied, Memory, Seq};
use mx_lazy::visible;
use mx_snapshot::first_redactions_are;
use std::alloc::Global;

/// Copies of events of the room, as they are shown to the user at the front. Takes the time of a look-up for each, and of
/// some searches for each that is redacted.
pub fn all_shown(
    alloc: Global,
    reading: &Reading<'_>,
    events: &[&Event],
) -> Result<Seq<Shown>, Memory>
    requires read { IsRead reading.now }
    requires listed { AreListed reading.now (all_now events.now) }
    ensures { IfOk result (λ made. made ≡ part.all_shown reading.now (all_now events.now)) }
{
    let mut made = Vec::with_capacity(alloc, events.len())?;
    'events: for event in events {
        made.push(show(alloc, reading, event)?)?;
    }
    Ok(Seq::from_vec(made))
}

fn show(alloc: Global, reading: &Reading<'_>, event: &Event) -> Result<Shown, Memory>
    requires read { IsRead reading.now }
    requires listed { IsListed reading.now event.now }
    ensures { IfOk result (λ s. s ≡ shown_for reading.now.user.now (events_of reading.now) (front_of reading.now) event.now) }
{
    match first_redaction(reading, event) {
        Some(by) => show_redacted(alloc, reading, event, by),
        None => show_plain(alloc, reading, event),
    }
}

fn show_redacted(
    alloc: Global,
    reading: &Reading<'_>,
    event: &Event,
    by: &Event,
) -> Result<Shown, Memory>
    requires read { IsRead reading.now }
    requires listed { IsListed reading.now by.now }
    requires first { shows.first_of (shows.redactions (events_of reading.now) event.now (front_of reading.now)) ≡ Some by.now }
    ensures { IfOk result (λ s. s ≡ shown_for reading.now.user.now (events_of reading.now) (front_of reading.now) event.now) }
{
    let seen = sees(reading, by);
    let because = because(alloc, reading, by, seen)?;
    let event = redact(alloc, event)?;
    let shown = Shown { event, because };
    Ok(shown)
}

fn show_plain(alloc: Global, reading: &Reading<'_>, event: &Event) -> Result<Shown, Memory>
    requires first { shows.first_of (shows.redactions (events_of reading.now) event.now (front_of reading.now)) ≡ None }
    ensures { IfOk result (λ s. s ≡ shown_for reading.now.user.now (events_of reading.now) (front_of reading.now) event.now) }
{
    let event = event.copy(alloc)?;
    let shown = Shown {
        event,
        because: None,
    };
    Ok(shown)
}

/// Whether the user sees an event of the room at the front.
fn sees(reading: &Reading<'_>, event: &Event) -> bool
    requires { IsListed reading.now event.now }
    ensures { result ≡ is_visible (viewer_of reading.now.user.now) (events_of reading.now) (front_of reading.now) event.now }
{
    let front = reading.events.front();
    visible(reading.events, reading.user, event, front)
}

/// A redaction, as it is shown where the user sees it.
fn because(
    alloc: Global,
    reading: &Reading<'_>,
    by: &Event,
    seen: bool,
) -> Result<Option<Event>, Memory>
    requires read { IsRead reading.now }
    requires listed { IsListed reading.now by.now }
    ensures { IfOk result (λ b. b ≡ cond seen (Some (shows.shown (events_of reading.now) by.now (front_of reading.now))) None) }
{
    if seen {
        Ok(Some(stood(alloc, reading, by)?))
    } else {
        Ok(None)
    }
}

/// An event of the room at the front, without what is told of its redaction.
fn stood(alloc: Global, reading: &Reading<'_>, event: &Event) -> Result<Event, Memory>
    requires read { IsRead reading.now }
    requires listed { IsListed reading.now event.now }
    ensures { IfOk result (λ e. e ≡ shows.shown (events_of reading.now) event.now (front_of reading.now)) }
{
    match first_redaction(reading, event) {
        Some(_) => Ok(redact(alloc, event)?),
        None => Ok(event.copy(alloc)?),
    }
}

/// The first redaction of an event of the room.
fn first_redaction<'a>(reading: &Reading<'a>, event: &Event) -> Option<&'a Event>
    requires read { IsRead reading.now }
    requires listed { IsListed reading.now event.now }
    ensures first { option_copied result ≡ shows.first_of (shows.redactions (events_of reading.now) event.now (front_of reading.now)) }
    ensures listed { IfSome result (λ by. IsListed reading.now by.now) }
{
    first_redactions_are();
    let front = reading.events.front();
    reading.events.first_redaction(event.id.at, front)
}
