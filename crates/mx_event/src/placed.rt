//! Events in the stream of their writer.
ghost use Rattle.mx_event.specs.Lawful.{lawful_store, placed_event};

use crate::event::Event;
use mx_core::Placed;
use mx_ids::{EventId, RoomId};

/// A store of events is lawful where each stands at its own position, in a room of the store's writer, is allowed after
/// the events of its room before it, and, if it is a redaction, names one of these; a create event's position is that of
/// its room.
impl Placed for Event {
    ghost lawful = { lawful_store };

    ghost placed = { placed_event };

    fn place(&mut self, first: u64, at: u64) {
        self.id = EventId { at };
        if self.room.at == 0 {
            self.room = RoomId {
                writer: self.room.writer,
                at: first,
            };
        }
    }
}
