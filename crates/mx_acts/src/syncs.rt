//! What a sync is told.

ghost use Rattle.std.specs.Prelude.{◌≡◌, IfOk};
ghost use Rattle.std.specs.Option.{option_copied};
ghost use Rattle.mx_acts.specs.Reads as told;
ghost use Rattle.mx_rest.specs.Servers.{AreValid, lists_of};
ghost use Rattle.mx_user_reads.specs.Filters.{filter_named};

use mx_ask::{FilterAsk, Known, Refusal, Said, SyncAsk, SyncFault};
use mx_filter::Filter;
use mx_ids::{Memory, SyncToken, Text, UserId};
use mx_user_reads::filter_named;
use std::alloc::Global;

/// What a sync is told (Client-Server API, `GET /sync`). Refused as `NotFound` exactly where it asks by a stored filter and the user has none of the
/// id, or one that isn't read, and as `TokenAhead` where a component of `since` is past its stream's front.
#[tactic(auto, unfolding(crate::specs::Reads::sync_said))]
pub fn sync_said(
    alloc: Global,
    known: &mut Known,
    user: &UserId,
    since: Option<SyncToken>,
    filter: &FilterAsk,
    full_state: bool,
    after: bool,
) -> Result<Said, Memory>
    requires valid { AreValid (lists_of known.old) }
    ensures same { known.new ≡ known.old }
    ensures told { IfOk result (λ said. said ≡ told.sync_said (lists_of known.old) user.now since filter.now full_state after) }
{
    match filter {
        FilterAsk::Absent => sync_named(alloc, known, user, since, None, full_state, after),
        FilterAsk::Stored(id) => sync_named(alloc, known, user, since, Some(id), full_state, after),
        FilterAsk::Inline(filter) => sync_told(
            alloc, known, user, since, filter, full_state, after,
        ),
    }
}

/// What a sync is told that has no filter of its own, but names a stored one, or none.
fn sync_named(
    alloc: Global,
    known: &mut Known,
    user: &UserId,
    since: Option<SyncToken>,
    id: Option<&Text>,
    full_state: bool,
    after: bool,
) -> Result<Said, Memory>
    requires valid { AreValid (lists_of known.old) }
    ensures same { known.new ≡ known.old }
    ensures told { IfOk result (λ said. said ≡ told.sync_by (lists_of known.old) user.now since full_state after (filter_named (lists_of known.old) user.now (option_copied id.entry))) }
{
    match filter_named(alloc, known.as_snapshot(), user, id)? {
        Some(filter) => sync_told(alloc, known, user, since, &filter, full_state, after),
        None => Ok(Said::Refused(Refusal::NotFound)),
    }
}

/// What a sync by a filter is told.
fn sync_told(
    alloc: Global,
    known: &mut Known,
    user: &UserId,
    since: Option<SyncToken>,
    filter: &Filter,
    full_state: bool,
    after: bool,
) -> Result<Said, Memory>
    requires valid { AreValid (lists_of known.old) }
    ensures same { known.new ≡ known.old }
    ensures told { IfOk result (λ said. said ≡ told.sync_told (lists_of known.old) user.now (told.sync_ask since full_state after filter.now)) }
{
    let ask = SyncAsk {
        user,
        filter,
        since,
        full_state,
        after,
    };
    match known.reply(alloc, &ask) {
        Ok(reply) => Ok(Said::Synced(reply)),
        Err(SyncFault::TokenAhead { asked, front }) => {
            Ok(Said::Refused(Refusal::TokenAhead { asked, front }))
        }
        Err(SyncFault::Memory(refused)) => Err(refused),
    }
}
