//! What a request that reads is told.

ghost use Rattle.std.specs.Prelude.{◌≡◌, ℕ, Bool, Option, IfOk};
ghost use Rattle.mx_acts.specs.Acts.{asked, kind_in, Tells, whoami_said};
ghost use Rattle.mx_acts.specs.declared.kind.ActKind.TheVariants as kinds;
ghost use Rattle.mx_aims.specs.Aims.{site_of};
ghost use Rattle.mx_ask.specs.declared.ask.Ask.TheVariants as asks;
ghost use Rattle.mx_ask.specs.declared.ask.FilterAsk.{FilterAsk};
ghost use Rattle.mx_ids.specs.declared.sync_token.SyncToken.{SyncToken};
ghost use Rattle.mx_rest.specs.Servers.{AreValid, lists_of};

use crate::pages::page_said;
use crate::room_reads::{account, event, members, state, tags, value};
use crate::syncs::sync_said;
use mx_aims::Site;
use mx_ask::{Ask, Known, Said, Who};
use mx_ids::{Copied, Memory, Text};
use mx_snapshot::Snapshot;
use mx_user_reads::{
    joined_rooms, push_rule, push_rules, rule_actions, rule_enabled, stored_filter,
};
use std::alloc::Global;

/// What a request that reads is told, on what is known of the streams.
pub fn read(
    alloc: Global,
    site: &Site,
    known: &mut Known,
    who: &Who,
    ask: &Ask,
) -> Result<Said, Memory>
    requires valid { AreValid (lists_of known.old) }
    requires kind { (now : ℕ) → kind_in (asked (site_of site.now) now who.now ask.now) ≡ kinds.Reads }
    ensures same { known.new ≡ known.old }
    ensures told { (now : ℕ) → IfOk result (λ said. Tells (asked (site_of site.now) now who.now ask.now) (lists_of known.old) said) }
{
    match ask {
        Ask::Sync {
            since,
            filter,
            full_state,
            after,
            timeout: _,
        } => sync_said(alloc, known, &who.user, *since, filter, *full_state, *after),
        _ => read_other(alloc, site, known.as_snapshot(), who, ask),
    }
}

/// The same of one that isn't a sync, on what the snapshot holds.
fn read_other(
    alloc: Global,
    site: &Site,
    snapshot: &Snapshot,
    who: &Who,
    ask: &Ask,
) -> Result<Said, Memory>
    requires valid { AreValid (lists_of snapshot.now) }
    requires kind { (now : ℕ) → kind_in (asked (site_of site.now) now who.now ask.now) ≡ kinds.Reads }
    requires other { (since : Option SyncToken) (filter : FilterAsk) (full_state after : Bool) (timeout : ℕ) → ask.now ≡ asks.Sync since filter full_state after timeout → ⊥ }
    ensures { (now : ℕ) → IfOk result (λ said. Tells (asked (site_of site.now) now who.now ask.now) (lists_of snapshot.now) said) }
{
    let user = &who.user;
    match ask {
        Ask::WhoAmI => named(alloc, site, who),
        Ask::JoinedRooms => joined_rooms(alloc, snapshot, user),
        Ask::GetState { room, kind, key } => value(alloc, site, snapshot, user, room, kind, key),
        Ask::AllState { room } => state(alloc, site, snapshot, user, room),
        Ask::Members {
            room,
            membership,
            not_membership,
        } => members(
            alloc,
            site,
            snapshot,
            user,
            room,
            membership,
            not_membership,
        ),
        Ask::OneEvent { room, event: id } => event(alloc, site, snapshot, user, room, id),
        Ask::Messages {
            room,
            backward,
            from,
            to,
            limit,
            filter,
        } => page_said(
            alloc,
            snapshot,
            user,
            site.room_of(room),
            *backward,
            *from,
            *to,
            *limit,
            filter,
        ),
        Ask::GetFilter { id } => stored_filter(alloc, snapshot, user, id),
        Ask::GetAccount { room, kind } => account(alloc, site, snapshot, who, room, kind),
        Ask::Tags { room } => tags(alloc, site, snapshot, user, room),
        Ask::PushRules { inner } => push_rules(alloc, snapshot, user, *inner),
        Ask::GetRule { kind, id } => push_rule(alloc, snapshot, user, *kind, id),
        Ask::GetEnabled { kind, id } => rule_enabled(alloc, snapshot, user, *kind, id),
        Ask::GetActions { kind, id } => rule_actions(alloc, snapshot, user, *kind, id),
        _ => unreachable!(),
    }
}

/// Who asks: the user, and the name of the device (Client-Server API, `GET /account/whoami`).
#[tactic(auto, unfolding(crate::specs::Acts::whoami_said))]
pub fn named(alloc: Global, site: &Site, who: &Who) -> Result<Said, Memory>
    ensures { IfOk result (λ said. said ≡ whoami_said (site_of site.now) who.now) }
{
    let name = match site.users().users().devices.get(who.device as usize) {
        Some(device) => device.name.copy(alloc)?,
        None => Text::new(alloc),
    };
    Ok(Said::Named(who.user.copy(alloc)?, name))
}
