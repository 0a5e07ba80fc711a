//! Pages of a room's events between two tokens (Client-Server API, Getting events for a room), and their JSON.
//!
//! The call is `page`: the page that a [`PageAsk`] asks for, as the user sees the room at the snapshot's front. It is
//! exactly the page of its definition, or the first refusal: `TokenAhead` where a token is ahead of the streams,
//! `Forbidden` where the user sees no event of the room. It takes the time of the events from where the page begins
//! until it is full. `page_form` is the page's JSON for a device.
//!
//! The law `pages_are` says that a backward page of a gap that a sync left is the page of which the folding law
//! speaks, so it fills the gap.
//!
//! Begin with `asked.rt` and `sent.rt`, which have the types, then `paging.rt` and `specs/Pages.antt`.
#![tactic(auto)]

mod asked;
mod choosing;
mod fault;
mod forms;
mod laws;
mod members;
mod paging;
mod seeing;
mod sent;

pub use asked::{Bound, PageAsk};
pub use fault::PageFault;
pub use forms::page_form;
pub use laws::pages_are;
pub use paging::page;
pub use sent::Page;
