//! The words of the program.

use std::env;

/// A look-up in a snapshot.
#[derive(Clone, Copy)]
pub enum Look {
    /// A room's events after a position.
    Room,
    /// The rooms of a user.
    Rooms,
    /// The first redaction of an event.
    Redaction,
    /// The state event that stands under a key at a position.
    Version,
    /// The state of a room at a position, where the room has few state events.
    State,
    /// The state of a room at a position, where most of the room's events are state events.
    States,
    /// A user's account data after a position.
    Account,
    /// The account data of a user and a room that stand.
    Data,
    /// A room's receipts after a position.
    Receipts,
}

/// What is timed.
#[derive(Clone, Copy)]
pub enum Read {
    /// To take the events up to a front that is ten later, and to go on to it.
    Advance,
    Look(Look),
}

/// What is measured.
#[derive(Clone, Copy)]
pub struct Wanted {
    pub read: Read,
    /// How many items each stream has beforehand.
    pub items: u32,
    /// How many reads are timed.
    pub repeats: u32,
}

/// What the words ask: a read and two numbers.
pub fn read_words(rt: &HostRuntime) -> Option<Wanted> {
    let mut words = env::args(rt).ok()?.skip(1);
    let read = words.next()?;
    let items = words.next()?.parse().ok()?;
    let repeats = words.next()?.parse().ok()?;
    Some(Wanted {
        read: read_named(read.as_str())?,
        items,
        repeats,
    })
}

fn read_named(word: &str) -> Option<Read> {
    if word == "advance" {
        Some(Read::Advance)
    } else {
        Some(Read::Look(look_named(word)?))
    }
}

fn look_named(word: &str) -> Option<Look> {
    match word {
        "room" => Some(Look::Room),
        "rooms" => Some(Look::Rooms),
        "redaction" => Some(Look::Redaction),
        "version" => Some(Look::Version),
        "state" => Some(Look::State),
        "states" => Some(Look::States),
        "account" => Some(Look::Account),
        "data" => Some(Look::Data),
        "receipts" => Some(Look::Receipts),
        _ => None,
    }
}
