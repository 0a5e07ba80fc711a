//! The state that a reply sends beside a section.

ghost use Rattle.std.specs.Prelude.{◌≡◌, ◌&&◌, ◌||◌, ◌++◌, [], ◌∷◌, true, filter, map, nat_lt, IfOk, OnOk};
ghost use Rattle.mx_event.specs.declared.event.Event.{Event};
ghost use Rattle.mx_folding.specs.Parts.{is_cons, state_list};
ghost use Rattle.mx_parts.specs.Picks.{Covers, NamesAll, hero_pair, is_early_by, is_kept_by, is_sent_by, key_pair, sender_pair, states_by};
ghost use Rattle.mx_parts.specs.Readings.{IsRead, events_of, room_in};
ghost use Rattle.mx_snapshot.specs.Looks.{all_now};

use crate::passing::keeps;
use crate::reading::Reading;
use crate::under_keys::{StateKey, standing_under};
use mx_event::Event;
use mx_event::event_types::MEMBER;
use mx_ids::{Memory, Seq, Text};
use mx_lazy::{Pick, Picker, is_standing, state_at};
use std::alloc::Global;

/// Of the room's state at a position what the state filter passes and is picked, in order of position; `named` says whether
/// member events are picked by who is named, under these keys. Takes the time of a search for each type and state key that the
/// room has a state event of, or of a later part of the state events after it and of a search for each key, and of a search for
/// each event that is picked.
pub(crate) fn state_part<'a>(
    alloc: Global,
    reading: &Reading<'a>,
    picker: &Picker<'_>,
    keys: &[StateKey<'_>],
    named: bool,
    position: u64,
) -> Result<Vec<&'a Event>, Memory>
    requires read { IsRead reading.now }
    requires names { named ≡ true → NamesAll picker.now keys.now }
    ensures { IfOk result (λ made. all_now made.items ≡ filter (is_kept_by reading.now picker.now) (states_by (room_in reading.now) (events_of reading.now) named picker.now.pick position)) }
{
    if named {
        let made = named_state(alloc, reading, picker, keys, position)?;
        return Ok(made);
    }
    match picker.pick {
        Pick::New => {
            let made = whole_part(alloc, reading, picker, position)?;
            Ok(made)
        }
        Pick::Later { from, .. } => {
            let made = later_part(alloc, reading, picker, from, position)?;
            Ok(made)
        }
    }
}

/// Where member events are picked by who is named.
fn named_state<'a>(
    alloc: Global,
    reading: &Reading<'a>,
    picker: &Picker<'_>,
    keys: &[StateKey<'_>],
    position: u64,
) -> Result<Vec<&'a Event>, Memory>
    requires read { IsRead reading.now }
    requires names { NamesAll picker.now keys.now }
    ensures { IfOk result (λ made. all_now made.items ≡ filter (is_kept_by reading.now picker.now) (states_by (room_in reading.now) (events_of reading.now) true picker.now.pick position)) }
{
    match picker.pick {
        Pick::New => {
            let made = whole_part(alloc, reading, picker, position)?;
            Ok(made)
        }
        Pick::Later { from, .. } => {
            let made = named_part(alloc, reading, picker, keys, from, position)?;
            Ok(made)
        }
    }
}

/// Of the whole state at a position.
fn whole_part<'a>(
    alloc: Global,
    reading: &Reading<'a>,
    picker: &Picker<'_>,
    position: u64,
) -> Result<Vec<&'a Event>, Memory>
    requires { IsRead reading.now }
    ensures { IfOk result (λ made. all_now made.items ≡ filter (is_kept_by reading.now picker.now) (state_list (room_in reading.now) (events_of reading.now) position)) }
{
    let state = state_at(alloc, reading.events, reading.room, position)?;
    let made = kept_among(alloc, reading, picker, &state)?;
    Ok(made)
}

/// Of what the state at a position has after an earlier one.
fn later_part<'a>(
    alloc: Global,
    reading: &Reading<'a>,
    picker: &Picker<'_>,
    from: u64,
    position: u64,
) -> Result<Vec<&'a Event>, Memory>
    requires { IsRead reading.now }
    ensures { IfOk result (λ made. all_now made.items ≡ filter (is_kept_by reading.now picker.now) (filter (λ (e : Event). nat_lt from e.id.at) (state_list (room_in reading.now) (events_of reading.now) position))) }
{
    let _front = reading.events.front();
    let later = reading.events.states(alloc, reading.room, from, position)?;
    let made = among(alloc, reading, picker, &later, position)?;
    Ok(made)
}

/// Under some keys up to a position, and all that comes after it.
fn named_part<'a>(
    alloc: Global,
    reading: &Reading<'a>,
    picker: &Picker<'_>,
    keys: &[StateKey<'_>],
    from: u64,
    position: u64,
) -> Result<Vec<&'a Event>, Memory>
    requires read { IsRead reading.now }
    requires covers { Covers reading.now picker.now from keys.now }
    ensures { IfOk result (λ made. all_now made.items ≡ filter (is_kept_by reading.now picker.now) (state_list (room_in reading.now) (events_of reading.now) position)) }
{
    let _front = reading.events.front();
    let under = standing_under(alloc, reading.events, reading.room, keys, position)?;
    let later = reading.events.states(alloc, reading.room, from, position)?;
    let mut made = early_among(alloc, reading, picker, &under, from)?;
    let rest = among(alloc, reading, picker, &later, position)?;
    append(&mut made, &rest)?;
    Ok(made)
}

fn append<'a>(made: &mut Vec<&'a Event>, more: &[&'a Event]) -> Result<(), Memory>
    ensures { OnOk result (all_now made.new.items ≡ all_now made.old.items ++ all_now more.now) }
{
    'events: for event in more {
        made.push(*event)?;
    }
    Ok(())
}

fn early_among<'a>(
    alloc: Global,
    reading: &Reading<'_>,
    picker: &Picker<'_>,
    states: &[&'a Event],
    from: u64,
) -> Result<Vec<&'a Event>, Memory>
    requires { IsRead reading.now }
    ensures { IfOk result (λ made. all_now made.items ≡ filter (is_early_by reading.now picker.now from) (all_now states.now)) }
{
    let mut made = Vec::new(alloc);
    'states: for state in states {
        keep_early(&mut made, reading, picker, *state, from)?;
    }
    Ok(made)
}

#[tactic(auto, unfolding(crate::specs::Picks::is_early_by))]
fn keep_early<'a>(
    made: &mut Vec<&'a Event>,
    reading: &Reading<'_>,
    picker: &Picker<'_>,
    event: &'a Event,
    from: u64,
) -> Result<(), Memory>
    requires { IsRead reading.now }
    ensures { OnOk result (all_now made.new.items ≡ all_now made.old.items ++ filter (is_early_by reading.now picker.now from) (event.now ∷ [])) }
{
    if is_kept(reading, picker, event) && !(from < event.id.at) {
        made.push(event)?;
    }
    Ok(())
}

/// The keys of the member events of those who are named, the senders of these events and the heroes, where anyone is.
pub(crate) fn named_keys<'b>(
    alloc: Global,
    named: bool,
    events: &'b [&'b Event],
    heroes: &'b Seq<Text>,
) -> Result<Vec<StateKey<'b>>, Memory>
    ensures { IfOk result (λ keys. named ≡ true → map key_pair keys.items ≡ map sender_pair (all_now events.now) ++ map hero_pair heroes.now) }
{
    let mut keys = Vec::new(alloc);
    if named {
        add_senders(&mut keys, events)?;
        add_heroes(&mut keys, heroes)?;
    }
    Ok(keys)
}

/// The keys of the member events of the senders of these events.
pub fn sender_keys<'b>(alloc: Global, events: &'b [&'b Event]) -> Result<Vec<StateKey<'b>>, Memory>
    ensures { IfOk result (λ keys. map key_pair keys.items ≡ map sender_pair (all_now events.now)) }
{
    let mut keys = Vec::new(alloc);
    add_senders(&mut keys, events)?;
    Ok(keys)
}

fn add_senders<'b>(keys: &mut Vec<StateKey<'b>>, events: &'b [&'b Event]) -> Result<(), Memory>
    ensures { OnOk result (map key_pair keys.new.items ≡ map key_pair keys.old.items ++ map sender_pair (all_now events.now)) }
{
    'events: for event in events {
        keys.push(StateKey {
            kind: MEMBER,
            key: event.sender.as_str(),
        })?;
    }
    Ok(())
}

fn add_heroes<'b>(keys: &mut Vec<StateKey<'b>>, heroes: &'b Seq<Text>) -> Result<(), Memory>
    ensures { OnOk result (map key_pair keys.new.items ≡ map key_pair keys.old.items ++ map hero_pair heroes.now) }
{
    'heroes: for hero in heroes.as_slice() {
        keys.push(StateKey {
            kind: MEMBER,
            key: hero.as_str(),
        })?;
    }
    Ok(())
}

/// Whether a reply with lazy members names anyone: a sender of these events or a hero.
pub(crate) fn names_some(lazy: bool, events: &[&Event], heroes: &Seq<Text>) -> bool
    ensures { result ≡ (lazy && (is_cons (all_now events.now) || is_cons heroes.now)) }
{
    lazy && (is_any(events) || !heroes.is_empty())
}

fn is_any(events: &[&Event]) -> bool
    ensures { result ≡ is_cons (all_now events.now) }
{
    match events.first() {
        Some(_) => true,
        None => false,
    }
}

fn kept_among<'a>(
    alloc: Global,
    reading: &Reading<'_>,
    picker: &Picker<'_>,
    states: &[&'a Event],
) -> Result<Vec<&'a Event>, Memory>
    requires { IsRead reading.now }
    ensures { IfOk result (λ made. all_now made.items ≡ filter (is_kept_by reading.now picker.now) (all_now states.now)) }
{
    let mut made = Vec::new(alloc);
    'states: for state in states {
        keep_picked(&mut made, reading, picker, *state)?;
    }
    Ok(made)
}

fn keep_picked<'a>(
    made: &mut Vec<&'a Event>,
    reading: &Reading<'_>,
    picker: &Picker<'_>,
    event: &'a Event,
) -> Result<(), Memory>
    requires { IsRead reading.now }
    ensures { OnOk result (all_now made.new.items ≡ all_now made.old.items ++ filter (is_kept_by reading.now picker.now) (event.now ∷ [])) }
{
    if is_kept(reading, picker, event) {
        made.push(event)?;
    }
    Ok(())
}

fn among<'a>(
    alloc: Global,
    reading: &Reading<'_>,
    picker: &Picker<'_>,
    states: &[&'a Event],
    position: u64,
) -> Result<Vec<&'a Event>, Memory>
    requires { IsRead reading.now }
    ensures { IfOk result (λ made. all_now made.items ≡ filter (is_sent_by reading.now picker.now position) (all_now states.now)) }
{
    let mut made = Vec::new(alloc);
    'states: for state in states {
        keep(&mut made, reading, picker, *state, position)?;
    }
    Ok(made)
}

#[tactic(auto, unfolding(crate::specs::Picks::is_sent_by))]
fn keep<'a>(
    made: &mut Vec<&'a Event>,
    reading: &Reading<'_>,
    picker: &Picker<'_>,
    event: &'a Event,
    position: u64,
) -> Result<(), Memory>
    requires { IsRead reading.now }
    ensures { OnOk result (all_now made.new.items ≡ all_now made.old.items ++ filter (is_sent_by reading.now picker.now position) (event.now ∷ [])) }
{
    if is_kept(reading, picker, event)
        && is_standing(reading.events, reading.room, event, position)
    {
        made.push(event)?;
    }
    Ok(())
}

#[tactic(auto, unfolding(crate::specs::Picks::is_kept_by))]
fn is_kept(reading: &Reading<'_>, picker: &Picker<'_>, event: &Event) -> bool
    requires { IsRead reading.now }
    ensures { result ≡ is_kept_by reading.now picker.now event.now }
{
    picker.picks(event) && keeps(reading, event)
}
