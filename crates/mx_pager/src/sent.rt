//! What a page sends.

use crate::asked::Bound;
use mx_event::Shown;
use mx_ids::{PageToken, Seq};

/// A page of a room's events (Client-Server API, Getting events for a room).
#[derive(Drop)]
pub struct Page {
    /// In falling order of position for a backward page, else in rising order.
    pub chunk: Seq<Shown>,
    /// Where the page begins.
    pub start: Bound,
    /// Where the next page begins; absent where no event is left out.
    pub end: Option<PageToken>,
    /// With lazy members the member events of the chunk's senders.
    pub members: Option<Seq<Shown>>,
}
