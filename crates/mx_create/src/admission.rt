//! Whether a block of drafts creates a room, and the events that it puts there.
ghost use Rattle.std.specs.Prelude.{◌≡◌, ◌⊎◌, ◌≤◌, [], Ok, Err, IfOk, IfErr, OnOk, length, map};
ghost use Rattle.std.specs.List.{list_all};
ghost use Rattle.mx_room.specs.Books.{SameRooms};
ghost use Rattle.mx_core.specs.Limits.{most_drawn};
ghost use Rattle.mx_create.specs.Admitted.{IsBlock, admitted_block, first_denied, fits_its_server, judged, made};
ghost use Rattle.mx_ids.specs.Memory.{refused_memory};
ghost use Rattle.mx_create.specs.declared.fault.CreateFault.TheVariants as faults;

use crate::fault::CreateFault;
use mx_auth::{AuthState, allowed};
use mx_core::Prepared;
use mx_event::{Draft, Event, fits};
use mx_ids::{Memory, RoomId, Seq};
use mx_room::RoomBook;
use std::alloc::Global;

/// The events that a block of drafts puts into a new room of the book's writer, 1 to 512, in their order and without
/// positions yet. They are then ready in the book: `RoomBook::take_in` creates the room.
///
/// The first fault that holds is given: `TooLarge` where one of the events is larger than 65,536 bytes; `State` where one
/// isn't allowed after those before it (`mx_auth::allowed`), with the rule that refuses the first such one. `Memory` is
/// want of memory, and may come in place of any answer. Whatever the answer, the rooms are as they were; another block that
/// was ready may be gone.
pub fn admit_block(
    alloc: Global,
    book: &mut RoomBook,
    drafts: Seq<Draft>,
) -> Result<Prepared<Event>, CreateFault>
    requires block { IsBlock drafts }
    ensures found { IfOk result (λ p. admitted_block book.old.writer drafts ≡ Ok p.items) }
    ensures count { IfOk result (λ p. (1 ≤ length p.items) × (length p.items ≤ most_drawn)) }
    ensures refused { IfErr result (λ f. (f ≡ faults.Memory refused_memory) ⊎ (admitted_block book.old.writer drafts ≡ Err f)) }
    ensures same { SameRooms book.old book.new }
    ensures pending { IfOk result (λ p. book.new.pending ≡ p.items) }
{
    let events = events_of(alloc, book.writer(), drafts)?;
    judge(alloc, events.as_slice())?;
    book.ready_room(&events)?;
    Ok(Prepared { items: events })
}

/// The events that drafts make in a new room of a writer.
fn events_of(alloc: Global, writer: u8, drafts: Seq<Draft>) -> Result<Seq<Event>, Memory>
    ensures { IfOk result (λ events. events ≡ map (made writer) drafts) }
{
    let mut events = Vec::with_capacity(alloc, drafts.len())?;
    'drafts: for draft in drafts.into_vec() {
        events.push(event_of(writer, draft))?;
    }
    Ok(Seq::from_vec(events))
}

/// The event that a draft makes in a new room of a writer.
fn event_of(writer: u8, draft: Draft) -> Event
    ensures { result ≡ made writer draft }
{
    let room = RoomId { writer, at: 0 };
    Draft { room, ..draft }.into_event()
}

/// Judges the events of a new room: all their sizes, and then one after the other by the rules.
#[tactic(auto, unfolding(crate::specs::Admitted::judged))]
fn judge(alloc: Global, events: &[Event]) -> Result<(), CreateFault>
    ensures found { OnOk result (judged events.now ≡ Ok events.now) }
    ensures refused { IfErr result (λ f. (f ≡ faults.Memory refused_memory) ⊎ (judged events.now ≡ Err f)) }
{
    if !all_fit(events) {
        return Err(CreateFault::TooLarge);
    }
    match first_denied(alloc, events)? {
        Some(rule) => Err(CreateFault::State(rule)),
        None => Ok(()),
    }
}

/// Whether each event is at most 65,536 bytes.
fn all_fit(events: &[Event]) -> bool
    ensures { result ≡ list_all fits_its_server events.now }
{
    events
        .iter()
        .all(|event| fits(event, event.sender.server()))
}

/// The rule that refuses the first of the events that isn't allowed after those before it.
fn first_denied(alloc: Global, events: &[Event]) -> Result<Option<u8>, Memory>
    ensures { IfOk result (λ rule. first_denied [] events.now ≡ rule) }
{
    let mut state = AuthState::empty(alloc);
    let denied = denied_after(&mut state, events);
    drop(state);
    denied
}

/// The rule that refuses the first of the events that isn't allowed after a state and those before it.
fn denied_after(state: &mut AuthState, events: &[Event]) -> Result<Option<u8>, Memory>
    ensures { IfOk result (λ rule. first_denied state.old.events events.now ≡ rule) }
{
    'events: for event in events {
        if let Err(denial) = allowed(event, state) {
            return Ok(Some(denial.rule));
        }
        state.take(event)?;
    }
    Ok(None)
}
