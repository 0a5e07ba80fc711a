//! What a page is asked for.

ghost use Rattle.std.specs.Prelude.{◌≡◌, option_and_then, option_map, unwrap_or};
ghost use Rattle.mx_pager.specs.Asks as bounds;

use mx_filter::Filter;
use mx_ids::{PageToken, RoomId, SyncToken};
use mx_snapshot::Snapshot;

/// A place in a room's list of events, by the token that carries it.
#[derive(Clone, Copy, Debug, PartialEq, Eq)]
pub enum Bound {
    Sync(SyncToken),
    Page(PageToken),
}

/// A page of a room (Client-Server API, Getting events for a room).
#[derive(Clone, Copy)]
pub struct PageAsk<'a> {
    pub room: RoomId,
    /// `dir` is `b`: from `from` on to earlier events.
    pub backward: bool,
    /// Absent, the list's end for a backward page and its beginning for a forward one.
    pub from: Option<Bound>,
    /// Absent, the other end.
    pub to: Option<Bound>,
    /// How many events are sent at most.
    pub limit: u64,
    pub filter: &'a Filter,
}

impl Bound {
    /// The position behind which the place lies.
    pub(crate) fn place(&self) -> u64
        ensures { result ≡ bounds.place_of self.now }
    {
        match self {
            Bound::Sync(token) => token.e,
            Bound::Page(token) => token.at,
        }
    }

    /// The front of events at which the list was read.
    pub(crate) fn cut(&self) -> u64
        ensures { result ≡ bounds.cut_of self.now }
    {
        match self {
            Bound::Sync(token) => token.e,
            Bound::Page(token) => token.e,
        }
    }
}

impl PageAsk<'_> {
    /// Where the page begins, where the front of events is this.
    pub(crate) fn start(&self, front: u64) -> Bound
        ensures { result ≡ bounds.start_of front self.now }
    {
        match self.from {
            Some(bound) => bound,
            None => Bound::Page(PageToken {
                at: if self.backward { front } else { 0 },
                e: front,
            }),
        }
    }

    /// The lower bound.
    pub(crate) fn low(&self, front: u64) -> u64
        ensures { result ≡ bounds.low_of front self.now }
    {
        if self.backward {
            self.to_or(0)
        } else {
            self.start(front).place()
        }
    }

    /// The upper bound.
    pub(crate) fn high(&self, front: u64) -> u64
        ensures { result ≡ bounds.high_of front self.now }
    {
        if self.backward {
            self.start(front).place()
        } else {
            self.to_or(front)
        }
    }

    fn to_or(&self, end: u64) -> u64
        ensures { result ≡ unwrap_or (option_map bounds.place_of self.now.to) end }
    {
        match self.to {
            Some(bound) => bound.place(),
            None => end,
        }
    }
}

/// The first component of the bounds, those of `from` first, that exceeds its stream's front, with that front.
pub(crate) fn ahead(snapshot: &Snapshot, ask: &PageAsk<'_>) -> Option<(u64, u64)>
    ensures { result ≡ bounds.asks_ahead snapshot.now ask.now }
{
    match bound_ahead(snapshot, &ask.from) {
        Some(ahead) => Some(ahead),
        None => bound_ahead(snapshot, &ask.to),
    }
}

fn bound_ahead(snapshot: &Snapshot, bound: &Option<Bound>) -> Option<(u64, u64)>
    ensures { result ≡ option_and_then (bounds.ahead_of snapshot.now) bound.now }
{
    match bound {
        Some(Bound::Sync(token)) => token_ahead(snapshot, token),
        Some(Bound::Page(token)) => exceeds(token.e, snapshot.events.front()),
        None => None,
    }
}

fn token_ahead(snapshot: &Snapshot, token: &SyncToken) -> Option<(u64, u64)>
    ensures { result ≡ bounds.token_ahead snapshot.now token.now }
{
    if let Some(ahead) = exceeds(token.e, snapshot.events.front()) {
        return Some(ahead);
    }
    if let Some(ahead) = exceeds(token.r, snapshot.receipts.front()) {
        return Some(ahead);
    }
    if let Some(ahead) = exceeds(token.a, snapshot.accounts.front()) {
        return Some(ahead);
    }
    exceeds(token.d, 0)
}

fn exceeds(asked: u64, front: u64) -> Option<(u64, u64)>
    ensures { result ≡ bounds.exceeds asked front }
{
    if front < asked {
        Some((asked, front))
    } else {
        None
    }
}
