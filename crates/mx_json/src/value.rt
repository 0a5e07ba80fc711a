use crate::members::Members;
use mx_ids::{Seq, Text};

/// A JSON value (RFC 8259) whose numbers are whole. An object has each key once, and its keys are in byte order.
#[derive(Debug, Drop)]
pub enum Json {
    Null,
    Bool(bool),
    Int(i64),
    Text(Text),
    List(Seq<Json>),
    Object(Members<Json>),
}
