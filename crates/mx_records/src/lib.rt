//! The stores of the streams as JSON, a value each, as a journal's lines have them.
#![tactic(auto)]

mod entries;
mod events;
mod fault;
mod laws;
mod lines;
mod receipts;
mod recorded;
mod texts;
mod transactions;
mod values;

pub use entries::{entry_value, read_entry};
pub use events::{event_value, read_draft};
pub use fault::RecordFault;
pub use laws::{entries_read_back, events_read_back, fronts_begin, receipts_read_back};
pub use lines::{Line, read_line};
pub use receipts::{read_receipt, receipt_value};
pub use recorded::Recorded;
pub use texts::{put_front, stream_text};
