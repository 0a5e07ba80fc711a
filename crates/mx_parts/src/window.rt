//! A window of a room's events, and its section.

use mx_event::Event;

/// The positions after `low` and up to `high`, and how many of their events are sent at most.
#[derive(Clone, Copy, Debug, PartialEq, Eq)]
pub struct Window {
    /// The state is sent as it is after the timeline; the section isn't cut at a break then.
    pub after: bool,
    pub limit: u64,
    pub low: u64,
    pub high: u64,
}

/// The last events of a window that may be sent, above the last break (Client-Server API, Syncing).
#[derive(Drop)]
pub struct Section<'a> {
    /// In order of position.
    pub events: Vec<&'a Event>,
    /// An event of the window that may be sent isn't among them.
    pub limited: bool,
    /// The position before the first of them, or the window's end.
    pub cut: u64,
}
