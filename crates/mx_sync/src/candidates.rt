//! The rooms of which a reply may say something.

ghost use Rattle.std.specs.Prelude.{◌≡◌, ◌+◌, ◌<◌, ◌||◌, true, Some, IfOk, OnOk, drop, length, map};
ghost use Rattle.std.specs.List.{list_any};
ghost use Rattle.mx_ids.specs.declared.room_id.RoomId as ids;
ghost use Rattle.mx_event.specs.Lawful.{same_room};
ghost use Rattle.mx_fold.specs.Lists.{fronts_of};
ghost use Rattle.mx_fold.specs.Replies.{is_behind};
ghost use Rattle.mx_rest.specs.Servers.{lists_of};
ghost use Rattle.mx_snapshot.specs.Looks.{own_now};
ghost use Rattle.mx_view.specs.Tokens.{is_before};
ghost use Rattle.mx_sync.specs.Asks.{asked};
ghost use Rattle.mx_sync.specs.Candidates.{HasAllSaid, goes_on, has_news_of, has_or_event, has_or_receipt};
ghost use Rattle.mx_sync.specs.Quiet.{has_room};

use crate::quiet_rooms::{insert, last_rules, rooms_after};
use crate::sync_ask::SyncAsk;
use mx_event::Event;
use mx_ids::{Memory, RoomId, SyncToken, UserId};
use mx_snapshot::Snapshot;
use std::alloc::Global;
use std::collections::BTreeSet;

/// Up to so many events and receipts that came after `since` are gone through for their rooms; where more came, the user's
/// rooms are.
const MOST_NEWS: u64 = 1024;

/// Each room of which the reply says something, and maybe others: those in which something came after `since`, or all in which
/// the user has a member event.
pub(crate) fn candidates(
    alloc: Global,
    snapshot: &Snapshot,
    ask: &SyncAsk<'_>,
) -> Result<BTreeSet<RoomId>, Memory>
    requires behind { is_behind ask.now.since (fronts_of (lists_of snapshot.now)) ≡ true }
    ensures { IfOk result (λ s. HasAllSaid s (lists_of snapshot.now) ask.now.user.now (asked ask.now)) }
{
    match &ask.since {
        Some(since) => candidates_after(alloc, snapshot, ask, since),
        None => own_rooms(alloc, snapshot, ask),
    }
}

fn candidates_after(
    alloc: Global,
    snapshot: &Snapshot,
    ask: &SyncAsk<'_>,
    since: &SyncToken,
) -> Result<BTreeSet<RoomId>, Memory>
    requires is_since { ask.now.since ≡ Some since.now }
    requires behind { is_before since.now (fronts_of (lists_of snapshot.now)) ≡ true }
    ensures { IfOk result (λ s. HasAllSaid s (lists_of snapshot.now) ask.now.user.now (asked ask.now)) }
{
    if goes_on(snapshot, ask, since) {
        fewer_candidates(alloc, snapshot, ask, since)
    } else {
        own_rooms(alloc, snapshot, ask)
    }
}

/// Whether what is said can be told by what came after the token: not all state is asked for, and no push rules were stored.
fn goes_on(snapshot: &Snapshot, ask: &SyncAsk<'_>, since: &SyncToken) -> bool
    ensures { result ≡ goes_on ask.now.full_state ask.now.user.now (lists_of snapshot.now) since.now }
{
    !ask.full_state && last_rules(snapshot, ask.user) <= since.a
}

fn fewer_candidates(
    alloc: Global,
    snapshot: &Snapshot,
    ask: &SyncAsk<'_>,
    since: &SyncToken,
) -> Result<BTreeSet<RoomId>, Memory>
    requires is_since { ask.now.since ≡ Some since.now }
    requires behind { is_before since.now (fronts_of (lists_of snapshot.now)) ≡ true }
    requires goes_on { goes_on ask.now.full_state ask.now.user.now (lists_of snapshot.now) since.now ≡ true }
    ensures { IfOk result (λ s. HasAllSaid s (lists_of snapshot.now) ask.now.user.now (asked ask.now)) }
{
    if news_after(snapshot, since) <= MOST_NEWS {
        rooms_with_news(alloc, snapshot, ask, since)
    } else {
        own_rooms(alloc, snapshot, ask)
    }
}

/// How many events and receipts came after the token.
fn news_after(snapshot: &Snapshot, since: &SyncToken) -> u64 {
    let events = snapshot.events.front().saturating_sub(since.e);
    let receipts = snapshot.receipts.front().saturating_sub(since.r);
    events.saturating_add(receipts)
}

fn rooms_with_news(
    alloc: Global,
    snapshot: &Snapshot,
    ask: &SyncAsk<'_>,
    since: &SyncToken,
) -> Result<BTreeSet<RoomId>, Memory>
    requires is_since { ask.now.since ≡ Some since.now }
    requires behind { is_before since.now (fronts_of (lists_of snapshot.now)) ≡ true }
    requires goes_on { goes_on ask.now.full_state ask.now.user.now (lists_of snapshot.now) since.now ≡ true }
    ensures { IfOk result (λ s. HasAllSaid s (lists_of snapshot.now) ask.now.user.now (asked ask.now)) }
{
    let _events = snapshot.events.front();
    let _receipts = snapshot.receipts.front();
    let _accounts = snapshot.accounts.front();
    new_rooms(alloc, snapshot, ask.user, since)
}

/// The rooms in which something came after the token.
fn new_rooms(
    alloc: Global,
    snapshot: &Snapshot,
    user: &UserId,
    since: &SyncToken,
) -> Result<BTreeSet<RoomId>, Memory>
    ensures { IfOk result (λ s. (r : ids.RoomId) → has_room s r ≡ has_news_of user.now (lists_of snapshot.now) since.now r) }
{
    let mut rooms = rooms_after(alloc, snapshot, user, since.a)?;
    match add_news(&mut rooms, snapshot, since) {
        Ok(()) => Ok(rooms),
        Err(refused) => {
            drop(rooms);
            Err(refused)
        }
    }
}

fn add_news(
    rooms: &mut BTreeSet<RoomId>,
    snapshot: &Snapshot,
    since: &SyncToken,
) -> Result<(), Memory>
    ensures { OnOk result ((r : ids.RoomId) → has_room rooms.new r ≡ (has_or_event snapshot.now.events rooms.old since.now.e r || list_any (λ x. same_room x.room r) (drop since.now.r snapshot.now.receipts))) }
{
    add_events(rooms, snapshot, since.e)?;
    add_receipts(rooms, snapshot, since.r)
}

fn add_events(rooms: &mut BTreeSet<RoomId>, snapshot: &Snapshot, after: u64) -> Result<(), Memory>
    ensures { OnOk result ((r : ids.RoomId) → has_room rooms.new r ≡ has_or_event snapshot.now.events rooms.old after r) }
{
    'events: for passed in after..snapshot.events.front() {
        add_event(rooms, snapshot, passed)?;
    }
    Ok(())
}

/// Adds the room of the event after the first so many.
fn add_event(rooms: &mut BTreeSet<RoomId>, snapshot: &Snapshot, passed: u64) -> Result<(), Memory>
    requires { passed < length snapshot.now.events }
    ensures { OnOk result ((r : ids.RoomId) → has_or_event snapshot.now.events rooms.new (passed + 1) r ≡ has_or_event snapshot.now.events rooms.old passed r) }
{
    let _front = snapshot.events.front();
    match snapshot.events.at(passed + 1) {
        Some(event) => insert(rooms, event.room),
        None => Ok(()),
    }
}

fn add_receipts(rooms: &mut BTreeSet<RoomId>, snapshot: &Snapshot, after: u64) -> Result<(), Memory>
    ensures { OnOk result ((r : ids.RoomId) → has_room rooms.new r ≡ has_or_receipt snapshot.now.receipts rooms.old after r) }
{
    'receipts: for passed in after..snapshot.receipts.front() {
        add_receipt(rooms, snapshot, passed)?;
    }
    Ok(())
}

/// Adds the room of the receipt after the first so many.
fn add_receipt(rooms: &mut BTreeSet<RoomId>, snapshot: &Snapshot, passed: u64) -> Result<(), Memory>
    requires { passed < length snapshot.now.receipts }
    ensures { OnOk result ((r : ids.RoomId) → has_or_receipt snapshot.now.receipts rooms.new (passed + 1) r ≡ has_or_receipt snapshot.now.receipts rooms.old passed r) }
{
    let _front = snapshot.receipts.front();
    match snapshot.receipts.at(passed + 1) {
        Some(receipt) => insert(rooms, receipt.room),
        None => Ok(()),
    }
}

/// The rooms in which the user has a member event.
fn own_rooms(
    alloc: Global,
    snapshot: &Snapshot,
    ask: &SyncAsk<'_>,
) -> Result<BTreeSet<RoomId>, Memory>
    ensures { IfOk result (λ s. HasAllSaid s (lists_of snapshot.now) ask.now.user.now (asked ask.now)) }
{
    let _front = snapshot.events.front();
    let own = snapshot.events.rooms_of(alloc, ask.user.as_str())?;
    let rooms = set_of(alloc, &own);
    drop(own);
    rooms
}

fn set_of(alloc: Global, own: &[(RoomId, &Event)]) -> Result<BTreeSet<RoomId>, Memory>
    ensures { IfOk result (λ s. (r : ids.RoomId) → has_room s r ≡ list_any (λ p. same_room p.0 r) (map own_now own.now)) }
{
    let mut rooms = BTreeSet::new(alloc);
    'rooms: for room in own {
        insert(&mut rooms, room.0)?;
    }
    Ok(rooms)
}
