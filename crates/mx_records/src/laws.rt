//! Laws of the definitions: functions that do nothing, whose contracts hold of every store.
ghost use Rattle.mx_records.specs.Laws.{EntriesReadBack, EventsReadBack, ReceiptsReadBack};
ghost use Rattle.mx_records.specs.Texts.{FrontsBegin};

use crate::recorded::Recorded;

/// What is read of the value of a store of events is the store, with each event as the draft that it was made of.
pub fn events_read_back()
    ensures { EventsReadBack }
{}

/// The same of receipts, without their positions.
pub fn receipts_read_back()
    ensures { ReceiptsReadBack }
{}

/// The same of account data and filters.
pub fn entries_read_back()
    ensures { EntriesReadBack }
{}

/// What `put_front` gives, the digits of the first position and a `]` are the compact text of the store's value.
pub fn fronts_begin<I: Recorded>()
    ensures { FrontsBegin I.value }
{}
