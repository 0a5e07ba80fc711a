//! A filter, with what each of its parts selects.
use mx_ids::{Seq, Text};

/// A filter that is read (Client-Server API, Filtering).
#[derive(Debug, Drop)]
pub struct Filter {
    pub selection: Selection,
    /// How many events of a room's timeline are sent at most: 10 where the filter doesn't say, and at most 1,000.
    pub limit: u64,
}

/// What a filter selects, whatever its limit.
#[derive(Debug, Drop)]
pub struct Selection {
    /// The rooms that are picked; all where there is no list.
    pub rooms: Option<Seq<Text>>,
    pub not_rooms: Seq<Text>,
    pub include_leave: bool,
    pub state: EventFilter,
    pub timeline: EventFilter,
    pub ephemeral: TypeFilter,
    /// Of a room's account data.
    pub room_account: TypeFilter,
    /// Of global account data.
    pub account: TypeFilter,
    /// `lazy_load_members` of the state filter.
    pub lazy: bool,
    /// `include_redundant_members` of the state filter.
    pub redundant: bool,
}

/// Which events of a room pass.
#[derive(Debug, Drop)]
pub struct EventFilter {
    pub kinds: TypeFilter,
    /// The senders whose events pass; all where there is no list.
    pub senders: Option<Seq<Text>>,
    pub not_senders: Seq<Text>,
    /// The rooms whose events pass; all where there is no list.
    pub rooms: Option<Seq<Text>>,
    pub not_rooms: Seq<Text>,
    /// Whether a content has to have a key `url`, or mustn't have it.
    pub contains_url: Option<bool>,
}

/// Which types pass. A `*` in an entry stands for any sequence of characters.
#[derive(Debug, Drop)]
pub struct TypeFilter {
    /// The types that pass; all where there is no list.
    pub types: Option<Seq<Text>>,
    pub not_types: Seq<Text>,
}

/// The parts of a filter by which events of a room are judged.
#[derive(Clone, Copy, Debug, PartialEq, Eq)]
pub enum Part {
    State,
    Timeline,
}

/// The parts of a filter by which account data and receipts are judged, by their type alone.
#[derive(Clone, Copy, Debug, PartialEq, Eq)]
pub enum DataPart {
    Account,
    RoomAccount,
    Ephemeral,
}
