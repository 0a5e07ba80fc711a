//! JSON values (RFC 8259) whose numbers are whole: read from bytes, written as one compact text, measured and copied,
//! with look-ups and changes by key.
//!
//! The two calls are `read` and `Json::write`. `read` gives the value that a text is, or the first of three causes
//! for which it is none, by the definition `read_json` of `specs/Reading.antt`. `write` appends the value's one text.
//! The law `text_reads_back` joins them: the text of a value in range that nests at most 127 deep reads back as the
//! value.
//!
//! `Json::field`, `Json::lookup` and `Json::at_path` answer what stands at a key, at keys one below the other, and at
//! a dotted path (Client-Server API, Push rules), exactly. [`Members`] are the members of an object, each key once
//! and in byte order.
//!
//! Begin with `value.rt`, which is the type, then `reader.rt` and `writer.rt`.
#![tactic(auto)]

mod copied;
mod fault;
mod fields;
mod laws;
mod lookup;
mod members;
mod numbers;
mod paths;
mod reader;
mod size;
mod value;
mod writer;

pub use fault::JsonFault;
pub use laws::{data_is_whole, text_reads_back};
pub use members::{Member, Members};
pub use paths::read_path;
pub use reader::read;
pub use size::{number_size, text_size};
pub use value::Json;
