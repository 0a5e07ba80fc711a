//! Reading filters.
ghost use Rattle.std.specs.Prelude.{◌≡◌, ℕ, List, Some, None, true, false, IfOk, IsErrOf, option_map};
ghost use Rattle.mx_filter.specs.Fields.{is_federation, wrong_filter, wrong_page_filter};
ghost use Rattle.mx_filter.specs.Filters.{data_filters, event_filter, filter_by, filter_of, page_filter_of, selection_by, type_filter};
ghost use Rattle.mx_filter.specs.declared.fault.FilterFault.TheVariants as faults;

use crate::checks::{check_filter, check_page_filter, is_federation};
use crate::fault::FilterFault;
use crate::parts::{EventFilter, Filter, Selection, TypeFilter};
use crate::texts::{both, choice_at, choice_in, field_at, limit_in, truth_at};
use mx_ids::Memory;
use mx_json::Json;
use std::alloc::Global;

/// Reads the filter of a sync (Client-Server API, Filtering). `Shape` exactly where a known field is of the wrong type,
/// else `Format` exactly where `event_format` is `federation`. Fields that aren't known have no effect.
pub fn read(alloc: Global, json: &Json) -> Result<Filter, FilterFault>
    ensures found { IfOk result (λ f. (wrong_filter json.now ≡ None) × (is_federation json.now ≡ false) × (f ≡ filter_of json.now)) }
    ensures shape { (path : List ℕ) → IsErrOf result (faults.Shape path) → wrong_filter json.now ≡ Some path }
    ensures format { IsErrOf result faults.Format → (wrong_filter json.now ≡ None) × (is_federation json.now ≡ true) }
{
    check_filter(alloc, json)?;
    if is_federation(json) {
        return Err(FilterFault::Format);
    }
    Ok(filter_by(alloc, json.field("room"), json.field("account_data"))?)
}

/// Reads the filter of a page (Client-Server API, `GET /rooms/{roomId}/messages`), which is one filter of a room's
/// events. It counts as that of the timeline, and its `lazy_load_members` as that of the state. `Shape` as in `read`.
pub fn read_part(alloc: Global, json: &Json) -> Result<Filter, FilterFault>
    ensures found { IfOk result (λ f. (wrong_page_filter json.now ≡ None) × (f ≡ page_filter_of json.now)) }
    ensures shape { (path : List ℕ) → IsErrOf result (faults.Shape path) → wrong_page_filter json.now ≡ Some path }
    ensures format { IsErrOf result faults.Format → ⊥ }
{
    check_page_filter(alloc, json)?;
    let part = Some(json);
    let lazy = truth_at(part, "lazy_load_members");
    Ok(Filter {
        selection: selection(alloc, None, part, None, lazy)?,
        limit: limit_in(part),
    })
}

/// The filter of a request without one: it lets all pass.
pub fn everything(alloc: Global) -> Result<Filter, Memory>
    ensures { IfOk result (λ f. f ≡ filter_by None None) }
{
    filter_by(alloc, None, None)
}

/// The filter of the parts `room` and `account_data`.
fn filter_by(alloc: Global, room: Option<&Json>, account: Option<&Json>) -> Result<Filter, Memory>
    ensures { IfOk result (λ f. f ≡ filter_by (option_map (λ r. r.now) room.entry) (option_map (λ a. a.now) account.entry)) }
{
    let timeline = field_at(room, "timeline");
    let lazy = truth_at(field_at(room, "state"), "lazy_load_members");
    Ok(Filter {
        selection: selection(alloc, room, timeline, account, lazy)?,
        limit: limit_in(timeline),
    })
}

/// What the parts `room`, with another timeline, and `account_data` select.
fn selection(
    alloc: Global,
    room: Option<&Json>,
    timeline: Option<&Json>,
    account: Option<&Json>,
    lazy: bool,
) -> Result<Selection, Memory>
    ensures { IfOk result (λ s. s ≡ selection_by (option_map (λ r. r.now) room.entry) (option_map (λ t. t.now) timeline.entry) (option_map (λ a. a.now) account.entry) lazy) }
{
    let of_state = field_at(room, "state");
    let choice = choice_in(alloc, room, "rooms", "not_rooms");
    let events = event_filters(alloc, of_state, timeline);
    let data = data_filters(alloc, room, account);
    let ((rooms, not_rooms), ((state, timeline), (ephemeral, (room_account, account)))) = both(
        choice,
        both(events, data),
    )?;
    Ok(Selection {
        rooms,
        not_rooms,
        include_leave: truth_at(room, "include_leave"),
        state,
        timeline,
        ephemeral,
        room_account,
        account,
        lazy,
        redundant: truth_at(of_state, "include_redundant_members"),
    })
}

/// The filters of a room's state and timeline.
fn event_filters(
    alloc: Global,
    state: Option<&Json>,
    timeline: Option<&Json>,
) -> Result<(EventFilter, EventFilter), Memory>
    ensures { IfOk result (λ p. p ≡ (event_filter (option_map (λ s. s.now) state.entry), event_filter (option_map (λ t. t.now) timeline.entry))) }
{
    both(event_filter(alloc, state), event_filter(alloc, timeline))
}

/// The filters of a room's ephemeral events and account data, and of global account data.
fn data_filters(
    alloc: Global,
    room: Option<&Json>,
    account: Option<&Json>,
) -> Result<(TypeFilter, (TypeFilter, TypeFilter)), Memory>
    ensures { IfOk result (λ p. p ≡ data_filters (option_map (λ r. r.now) room.entry) (option_map (λ a. a.now) account.entry)) }
{
    both(
        type_filter(alloc, field_at(room, "ephemeral")),
        both(
            type_filter(alloc, field_at(room, "account_data")),
            type_filter(alloc, account),
        ),
    )
}

fn event_filter(alloc: Global, part: Option<&Json>) -> Result<EventFilter, Memory>
    ensures { IfOk result (λ f. f ≡ event_filter (option_map (λ p. p.now) part.entry)) }
{
    let kinds = type_filter(alloc, part);
    let senders = choice_in(alloc, part, "senders", "not_senders");
    let rooms = choice_in(alloc, part, "rooms", "not_rooms");
    let (kinds, ((senders, not_senders), (rooms, not_rooms))) = both(kinds, both(senders, rooms))?;
    Ok(EventFilter {
        kinds,
        senders,
        not_senders,
        rooms,
        not_rooms,
        contains_url: choice_at(part, "contains_url"),
    })
}

fn type_filter(alloc: Global, part: Option<&Json>) -> Result<TypeFilter, Memory>
    ensures { IfOk result (λ f. f ≡ type_filter (option_map (λ p. p.now) part.entry)) }
{
    let (types, not_types) = choice_in(alloc, part, "types", "not_types")?;
    Ok(TypeFilter { types, not_types })
}
