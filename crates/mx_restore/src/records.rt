//! Stores as the values of lines say them.

ghost use Rattle.std.specs.Prelude.{◌≡◌, IfOk, IfSome, option_map};
ghost use Rattle.mx_restore.specs.Said.{Says, name_of};

use crate::drafts::{entry_draft, receipt_draft};
use mx_account::Entry;
use mx_aims::event_draft;
use mx_engine::{Again, Record};
use mx_event::Event;
use mx_ids::{Memory, Text};
use mx_json::Json;
use mx_receipt::Receipt;
use mx_records::{Line, read_line, stream_text};
use mx_wait::StreamName;
use std::alloc::Global;

/// What a value begins with, where it is a text.
pub(crate) fn name_of(json: &Json) -> Option<&Text>
    ensures { option_map (λ t. t.now) result ≡ name_of json.now }
{
    json.as_list()?.as_slice().first()?.as_text()
}

/// The store that a value says; `None` where it says none.
pub(crate) fn read_record(alloc: Global, json: &Json) -> Result<Option<Record>, Memory>
    ensures { IfOk result (λ o. IfSome o (λ r. Says json.now r)) }
{
    match name_of(json) {
        Some(name) => match name.as_str() {
            "events" => events_record(alloc, json),
            "receipts" => receipts_record(alloc, json),
            "accounts" => accounts_record(alloc, json),
            _ => Ok(None),
        },
        None => Ok(None),
    }
}

fn events_record(alloc: Global, json: &Json) -> Result<Option<Record>, Memory>
    ensures { IfOk result (λ o. IfSome o (λ r. Says json.now r)) }
{
    let name = stream_text(StreamName::Events);
    let Some(line) = read_line::<Event>(alloc, name, json)? else {
        return Ok(None);
    };
    let Line {
        writer,
        items,
        first,
    } = line;
    let Some(draft) = event_draft(alloc, items)? else {
        return Ok(None);
    };
    Ok(Some(Record::Events(Again {
        writer,
        draft,
        first,
    })))
}

fn receipts_record(alloc: Global, json: &Json) -> Result<Option<Record>, Memory>
    ensures { IfOk result (λ o. IfSome o (λ r. Says json.now r)) }
{
    let name = stream_text(StreamName::Receipts);
    let Some(line) = read_line::<Receipt>(alloc, name, json)? else {
        return Ok(None);
    };
    let Line {
        writer,
        items,
        first,
    } = line;
    let Some(draft) = receipt_draft(items) else {
        return Ok(None);
    };
    Ok(Some(Record::Receipts(Again {
        writer,
        draft,
        first,
    })))
}

fn accounts_record(alloc: Global, json: &Json) -> Result<Option<Record>, Memory>
    ensures { IfOk result (λ o. IfSome o (λ r. Says json.now r)) }
{
    let name = stream_text(StreamName::Accounts);
    let Some(line) = read_line::<Entry>(alloc, name, json)? else {
        return Ok(None);
    };
    let Line {
        writer,
        items,
        first,
    } = line;
    let Some(draft) = entry_draft(items) else {
        return Ok(None);
    };
    Ok(Some(Record::Accounts(Again {
        writer,
        draft,
        first,
    })))
}
