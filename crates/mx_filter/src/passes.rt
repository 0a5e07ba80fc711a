//! What a filter lets pass.
ghost use Rattle.std.specs.Prelude.{◌≡◌, List, ℕ};
ghost use Rattle.std.specs.List.{list_any};
ghost use Rattle.std.specs.Str.{bytes_eq};
ghost use Rattle.mx_ids.specs.Ids.{room_id_text};
ghost use Rattle.mx_ids.specs.declared.room_id.RoomId.{RoomId};
ghost use Rattle.mx_filter.specs.Passes.{event_passes, names_type, part_of, passes, passes_type, picks, selects, type_passes, types_of, url_passes};

use crate::parts::{DataPart, EventFilter, Filter, Part, Selection, TypeFilter};
use mx_glob::{Same, glob};
use mx_ids::{Seq, Text};
use mx_view::Event;

impl Filter {
    /// Whether the filter picks a room, by the text of its id. Takes no memory.
    pub fn picks(&self, room: &str) -> bool
        ensures { (server : List ℕ) (id : RoomId) → room.now ≡ room_id_text server id → result ≡ picks server self.now.selection id }
    {
        selects(&self.selection.rooms, &self.selection.not_rooms, room)
    }

    /// Whether an event passes, as one of the room of which this is the text of the id. Takes no memory.
    pub fn passes(&self, part: Part, room: &str, event: &Event) -> bool
        ensures { (server : List ℕ) (id : RoomId) → room.now ≡ room_id_text server id → result ≡ passes server self.now.selection part id event.now }
    {
        self.selection.part(part).passes(room, event)
    }

    /// Whether account data or a receipt of a type passes. Takes no memory.
    pub fn passes_type(&self, part: DataPart, kind: &str) -> bool
        ensures { result ≡ passes_type self.now.selection part kind.now }
    {
        self.selection.types(part).passes(kind)
    }
}

impl Selection {
    fn part(&self, part: Part) -> &EventFilter
        ensures { result.now ≡ part_of part self.now }
    {
        match part {
            Part::State => &self.state,
            Part::Timeline => &self.timeline,
        }
    }

    fn types(&self, part: DataPart) -> &TypeFilter
        ensures { result.now ≡ types_of part self.now }
    {
        match part {
            DataPart::Account => &self.account,
            DataPart::RoomAccount => &self.room_account,
            DataPart::Ephemeral => &self.ephemeral,
        }
    }
}

impl EventFilter {
    fn passes(&self, room: &str, event: &Event) -> bool
        ensures { (server : List ℕ) (id : RoomId) → room.now ≡ room_id_text server id → result ≡ event_passes server self.now id event.now }
    {
        self.kinds.passes(event.kind.as_str())
            && (selects(&self.senders, &self.not_senders, event.sender.as_str())
                && (selects(&self.rooms, &self.not_rooms, room)
                    && url_passes(self.contains_url, event.has_url)))
    }
}

impl TypeFilter {
    fn passes(&self, kind: &str) -> bool
        ensures { result ≡ type_passes self.now kind.now }
    {
        !names_type(&self.not_types, kind)
            && match &self.types {
                Some(types) => names_type(types, kind),
                None => true,
            }
    }
}

/// Whether an entry stands for a type.
fn names_type(entries: &Seq<Text>, kind: &str) -> bool
    ensures { result ≡ list_any (names_type kind.now) entries.now }
{
    entries
        .as_slice()
        .iter()
        .any(|entry| glob(Same::Exact, entry.as_str(), kind))
}

fn has_text(entries: &Seq<Text>, text: &str) -> bool
    ensures { result ≡ list_any (bytes_eq text.now) entries.now }
{
    entries
        .as_slice()
        .iter()
        .any(|entry| text == entry.as_str())
}

/// Whether no entry of the one list is the text, and one of the other is, where that is there.
fn selects(wanted: &Option<Seq<Text>>, unwanted: &Seq<Text>, text: &str) -> bool
    ensures { result ≡ selects (bytes_eq text.now) wanted.now unwanted.now }
{
    !has_text(unwanted, text)
        && match wanted {
            Some(entries) => has_text(entries, text),
            None => true,
        }
}

fn url_passes(wanted: Option<bool>, has_url: bool) -> bool
    ensures { result ≡ url_passes wanted has_url }
{
    match wanted {
        Some(wanted) => wanted == has_url,
        None => true,
    }
}
