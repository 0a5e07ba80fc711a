//! A user's stored filters, and the filter that a sync asks by.

ghost use Rattle.std.specs.Prelude.{◌≡◌, IfOk, option_and_then};
ghost use Rattle.std.specs.Option.{option_copied};
ghost use Rattle.mx_room_reads.specs.Rest.Servers.{lists_of};
ghost use Rattle.mx_snapshot.specs.Looks.{all_now};
ghost use Rattle.mx_user_reads.specs.Filters.{filter_in, filter_named, filter_read, filter_stored, first_filter, number_of, stored_filter};

use crate::told::told_copy;
use mx_account::Entry;
use mx_ask::Said;
use mx_filter::{Filter, FilterFault, everything, read};
use mx_ids::{Memory, Text, UserId};
use mx_json::Json;
use mx_snapshot::{Accounts, Snapshot};
use std::alloc::Global;

/// A user's stored filter of an id, as it was given (Client-Server API, `GET /user/{userId}/filter/{filterId}`). The ids are
/// the decimal texts of numbers below 2^64, without leading zeros.
///
/// `NotFound` exactly where the user has no filter of the id. Takes the time of the user's filters.
#[tactic(auto, unfolding(crate::specs::Filters::stored_filter))]
pub fn stored_filter(
    alloc: Global,
    snapshot: &Snapshot,
    user: &UserId,
    id: &Text,
) -> Result<Said, Memory>
    ensures { IfOk result (λ s. s ≡ stored_filter (lists_of snapshot.now) user.now id.now) }
{
    let filter = filter_stored(alloc, snapshot, user, id)?;
    told_copy(alloc, filter)
}

/// The filter by which a sync asks that has none of its own (Client-Server API, Filtering): the user's stored filter of the
/// id that it names, or one that lets all pass where it names none.
///
/// `None` exactly where the user has no filter of the id, or one that isn't read. Takes the time of the user's filters where an id is
/// named.
pub fn filter_named(
    alloc: Global,
    snapshot: &Snapshot,
    user: &UserId,
    id: Option<&Text>,
) -> Result<Option<Filter>, Memory>
    ensures { IfOk result (λ o. o ≡ filter_named (lists_of snapshot.now) user.now (option_copied id.entry)) }
{
    match id {
        Some(id) => read_stored(alloc, snapshot, user, id),
        None => Ok(Some(everything(alloc)?)),
    }
}

/// The filter that a user's stored filter says, if it is there and is read.
fn read_stored(
    alloc: Global,
    snapshot: &Snapshot,
    user: &UserId,
    id: &Text,
) -> Result<Option<Filter>, Memory>
    ensures { IfOk result (λ o. o ≡ option_and_then filter_read (filter_stored (lists_of snapshot.now) user.now id.now)) }
{
    match filter_stored(alloc, snapshot, user, id)? {
        Some(filter) => filter_read(alloc, filter),
        None => Ok(None),
    }
}

/// The filter that a value says, if it is one of a sync.
fn filter_read(alloc: Global, json: &Json) -> Result<Option<Filter>, Memory>
    ensures { IfOk result (λ o. o ≡ filter_read json.now) }
{
    match read(alloc, json) {
        Ok(filter) => Ok(Some(filter)),
        Err(FilterFault::Shape(_)) => Ok(None),
        Err(FilterFault::Format) => Ok(None),
        Err(FilterFault::Memory(refused)) => Err(refused),
    }
}

/// A user's stored filter of an id.
fn filter_stored<'a>(
    alloc: Global,
    snapshot: &'a Snapshot,
    user: &UserId,
    id: &Text,
) -> Result<Option<&'a Json>, Memory>
    ensures { IfOk result (λ o. option_copied o ≡ filter_stored (lists_of snapshot.now) user.now id.now) }
{
    match number_of(alloc, id)? {
        Some(number) => first_filter(alloc, &snapshot.accounts, user, number),
        None => Ok(None),
    }
}

/// The number whose decimal text an id is.
fn number_of(alloc: Global, id: &Text) -> Result<Option<u64>, Memory>
    ensures { IfOk result (λ o. o ≡ number_of id.now) }
{
    let Ok(number) = id.as_str().parse::<u64>() else {
        return Ok(None);
    };
    let text = format!(in alloc; "{number}")?;
    if text.as_str() == id.as_str() {
        Ok(Some(number))
    } else {
        Ok(None)
    }
}

/// A user's first filter of a number.
fn first_filter<'a>(
    alloc: Global,
    accounts: &'a Accounts,
    user: &UserId,
    number: u64,
) -> Result<Option<&'a Json>, Memory>
    ensures { IfOk result (λ o. option_copied o ≡ first_filter user.now number accounts.now) }
{
    let front = accounts.front();
    let filters = accounts.filters_of(alloc, user.as_str(), 0, front)?;
    Ok(first_among(&filters, user, number))
}

/// The first filter of a user and a number among some.
fn first_among<'a>(filters: &[&'a Entry], user: &UserId, number: u64) -> Option<&'a Json>
    ensures { option_copied result ≡ first_filter user.now number (all_now filters.now) }
{
    'filters: for entry in filters {
        if let Some(filter) = filter_in(*entry, user, number) {
            return Some(filter);
        }
    }
    None
}

/// What an entry holds, if it is the user's filter of this number.
fn filter_in<'a>(entry: &'a Entry, user: &UserId, number: u64) -> Option<&'a Json>
    ensures { option_copied result ≡ filter_in user.now number entry.now }
{
    match entry {
        Entry::Filter {
            user: own_user,
            id,
            filter,
            ..
        } if own_user == user && *id == number => Some(filter),
        Entry::Filter { .. } | Entry::Data { .. } => None,
    }
}
