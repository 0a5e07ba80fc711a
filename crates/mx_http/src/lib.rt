//! HTTP/1.1 (RFC 9112) for one connection: the requests that its bytes are, and the bytes of its answers.
//!
//! The calls are `Reader::next_request` and `write_answer`. A reader takes bytes from a source until the next request
//! is whole, and gives the request that the bytes begin with, whatever the pieces in which they come; or it answers
//! why there is none: the source ended inside a request, the bytes are no request whatever follows, by one of five
//! faults, or the source failed. The law `calls_are_determined` says that the bytes determine the requests, and the
//! fault. `write_answer` puts just the bytes of the answer to the sink, or a front of them where the sink failed, and
//! takes no memory.
//!
//! Where the bytes come from a port, whose calls never wait, an `Intake` holds them, which a reader asks too: it gives a
//! head, and then its body, once they are whole. A head is taken apart once, however many pieces its body comes in.
//!
//! Beside them stand what is read of a request's target and fields: `path_parts`, `query` and `access_token`.
//!
//! Begin with `requests.rt`; `specs/Calls.antt` says what a request is, and `specs/Answers.antt` what the bytes of an
//! answer are.
#![tactic(auto)]

mod answer;
mod apart;
mod call;
mod fault;
mod fields;
mod grammar;
mod head;
mod held;
mod intake;
mod laws;
mod parameters;
mod print;
mod requests;
mod stage;
mod start;
mod target;

pub use answer::{Answer, Body, WriteFault, write_answer};
pub use call::Call;
pub use fault::HttpFault;
pub use head::Head;
pub use intake::{Intake, Scratch};
pub use laws::calls_are_determined;
pub use parameters::{access_token, parameter, path, path_parts, query};
pub use requests::Reader;
pub use start::reader;
