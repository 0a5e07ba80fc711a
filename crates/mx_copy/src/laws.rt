//! The laws: what a client reads of the JSON is what was sent.

ghost use Rattle.mx_copy.specs.Laws.{EventsReadBack, OthersAreAbsent, PageTextsReadBack, PagesMayBeWritten, PagesReadBack, RepliesHaveRoomsOnce, RepliesMayBeWritten, RepliesReadBack, ReplyTextsReadBack, RoomsAreFound};

/// What a client reads of an event's JSON is the event as it is shown to its device.
pub fn events_read_back()
    ensures { EventsReadBack }
{}

/// What a client reads of the JSON of a page is what the page has.
pub fn pages_read_back()
    ensures { PagesReadBack }
{}

/// What a client reads of the JSON of a reply to a sync is what the reply has: each member of each of its rooms.
pub fn replies_read_back()
    ensures { RepliesReadBack }
{}

/// The same of the texts that are sent, where the JSON may be written.
pub fn texts_read_back()
    ensures replies { ReplyTextsReadBack }
    ensures pages { PageTextsReadBack }
{}

/// The JSON of a reply or a page may be written where its texts are UTF-8 and its contents are in range and nest at most 118
/// deep.
pub fn may_be_written()
    ensures replies { RepliesMayBeWritten }
    ensures pages { PagesMayBeWritten }
{}

/// Under the text of a room's id a client finds what the reply has of the room, where no room stands twice; a reply has none twice.
/// Under another text it finds nothing.
pub fn rooms_are_found()
    ensures found { RoomsAreFound }
    ensures others { OthersAreAbsent }
    ensures once { RepliesHaveRoomsOnce }
{}
