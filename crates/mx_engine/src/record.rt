//! Stores that are made again.

use mx_aims::EventDraft;
use mx_entries::{EntryDraft, ReceiptDraft};
use mx_ids::Memory;

/// A store of a writer: the draft on which it is decided again, and its first position.
#[derive(Drop)]
pub struct Again<D> {
    pub writer: u8,
    pub draft: D,
    pub first: u64,
}

/// A store of one of the streams.
#[derive(Drop)]
pub enum Record {
    Events(Again<EventDraft>),
    Receipts(Again<ReceiptDraft>),
    Accounts(Again<EntryDraft>),
}

/// Why a store isn't made again.
#[derive(Clone, Copy, Debug, PartialEq, Eq)]
pub enum Unreplayed {
    /// There is no such writer.
    Writer,
    /// Its writer refuses it.
    Refused,
    /// Its writer has stored it before, or stores nothing.
    Kept,
    /// It stands at another position, or isn't the only store that was made meanwhile.
    Elsewhere,
    /// Its stream is full.
    Full,
    /// What its writer keeps its stores by refuses it.
    Lost,
    /// An allocation was refused.
    Memory(Memory),
}
