//! What a request is answered, as a status and JSON (Client-Server API).
//!
//! The call is `render`: of what the engine said it gives the status and the body, for a device and at the server of
//! a name, exactly by definition. An answer's JSON is that of the crate that owns it: `client_form` of `mx_event`,
//! `reply_form` of `mx_sync_json`, `page_form` of `mx_pager`. A refusal has its status, error code and text
//! (Client-Server API, Standard error response).
//!
//! `no_memory` is the answer for want of memory, which takes none.
//!
//! Begin with `rendering.rt` and `specs/Rendered.antt`; `refusals.rt` with `specs/Errors.antt` has the refusals.
#![tactic(auto)]

mod refusals;
mod rendering;

pub use rendering::{no_memory, render};
