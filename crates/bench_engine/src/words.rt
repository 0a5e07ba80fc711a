//! The words of the program.

use std::env;

/// What is timed.
#[derive(Clone, Copy)]
pub enum Timed {
    /// Sends of messages.
    Sends,
    /// Syncs of the same ten messages, where a receipt says that the user has read the events before them.
    Syncs,
    /// The same syncs where the user never said what it read.
    Unread,
    /// Syncs, before each of which ten messages are sent, and each since the one before; the user never said what it read.
    Chain,
    /// Sends into a room while syncs rest that these don't concern, and a poll of each sync after each.
    Rests,
    /// Sends into a room while all of its other users' syncs rest, and the answer of each after each, with the begin of its next.
    Wakes,
}

/// What is measured.
#[derive(Clone, Copy)]
pub struct Wanted {
    pub timed: Timed,
    /// How many events the room has beforehand, or how many syncs rest.
    pub size: u32,
    /// How many sends or syncs are timed.
    pub count: u32,
}

impl Wanted {
    /// How many syncs rest.
    pub fn syncs(&self) -> u32 {
        match self.timed {
            Timed::Rests | Timed::Wakes => self.size,
            _ => 0,
        }
    }
}

/// What the words ask: `sends`, `syncs`, `unread`, `chain`, `rests` or `wakes`, and two numbers.
pub fn read_words(rt: &HostRuntime) -> Option<Wanted> {
    let mut words = env::args(rt).ok()?.skip(1);
    let timed = match words.next()?.as_str() {
        "sends" => Timed::Sends,
        "syncs" => Timed::Syncs,
        "unread" => Timed::Unread,
        "chain" => Timed::Chain,
        "rests" => Timed::Rests,
        "wakes" => Timed::Wakes,
        _ => return None,
    };
    let size = words.next()?.parse().ok()?;
    let count = words.next()?.parse().ok()?;
    Some(Wanted { timed, size, count })
}
