//! Items as values.

ghost use Rattle.std.specs.Prelude.{◌≡◌, Option, Some, IfOk, IfSome};
ghost use Rattle.mx_json.specs.declared.value.Json as json;
ghost use Rattle.mx_records.specs.Records.{draft_read, entry_json, entry_read, event_json, receipt_json, receipt_read};

use crate::entries::{entry_value, read_entry};
use crate::events::{event_value, read_draft};
use crate::fault::RecordFault;
use crate::receipts::{read_receipt, receipt_value};
use mx_account::Entry;
use mx_event::{Draft, Event};
use mx_ids::Memory;
use mx_json::Json;
use mx_receipt::Receipt;
use std::alloc::Global;

/// An item of a stream that a journal keeps.
pub trait Recorded: Sized {
    /// What is read of its value.
    type Read: Drop;

    // Its value, without its position.
    ghost value: { Self → json.Json };

    // What is read of a value.
    ghost read: { json.Json → Option Self.Read };

    /// The value.
    fn to_value(&self, alloc: Global) -> Result<Json, RecordFault>
        ensures value { IfOk result (λ j. j ≡ value self.now) };

    /// What is read of a value; `None` where it says none.
    fn read_value(alloc: Global, json: &Json) -> Result<Option<Self::Read>, Memory>
        ensures read { IfOk result (λ o. IfSome o (λ r. read json.now ≡ Some r)) };
}

impl Recorded for Event {
    type Read = Draft;

    ghost value = { event_json };

    ghost read = { draft_read };

    fn to_value(&self, alloc: Global) -> Result<Json, RecordFault> {
        event_value(alloc, self)
    }

    fn read_value(alloc: Global, json: &Json) -> Result<Option<Draft>, Memory> {
        read_draft(alloc, json)
    }
}

impl Recorded for Receipt {
    type Read = Receipt;

    ghost value = { receipt_json };

    ghost read = { receipt_read };

    fn to_value(&self, alloc: Global) -> Result<Json, RecordFault> {
        receipt_value(alloc, self)
    }

    fn read_value(alloc: Global, json: &Json) -> Result<Option<Receipt>, Memory> {
        read_receipt(alloc, json)
    }
}

impl Recorded for Entry {
    type Read = Entry;

    ghost value = { entry_json };

    ghost read = { entry_read };

    fn to_value(&self, alloc: Global) -> Result<Json, RecordFault> {
        entry_value(alloc, self)
    }

    fn read_value(alloc: Global, json: &Json) -> Result<Option<Entry>, Memory> {
        read_entry(alloc, json)
    }
}
