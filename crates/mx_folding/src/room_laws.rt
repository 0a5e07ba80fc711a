//! The folding law of one room, and what agreement says.

ghost use Rattle.mx_folding.specs.Laws.{FoldsReply, FoldsNew, FoldsPage, FoldsNothing, OpenTimeline, WholeState, ClosedTimeline, SectionIsWindow, SentIsVisible};

/// A client's room that agrees with the picture at `s` agrees with that at `t`, after the part that a reply sends for
/// the window (s, t] (Client-Server API, Syncing).
pub fn folds_reply<E, K>()
    ensures { FoldsReply E K }
{}

/// An empty room agrees with the picture at `t`, after the part that a reply sends of a new room.
pub fn folds_new<E, K>()
    ensures { FoldsNew E K }
{}

/// A room that agrees with the picture still does after a backward page of one of its gaps (Client-Server API, Getting
/// events for a room).
pub fn folds_page<E, K>()
    ensures { FoldsPage E K }
{}

/// A part that says nothing leaves a client's room as it is.
pub fn folds_nothing<E, K>()
    ensures { FoldsNothing E K }
{}

/// A timeline that agrees holds the picture's events in order, less those in the stretches of its open gaps.
pub fn open_timeline<E, K>()
    ensures { OpenTimeline E K }
{}

/// With no open gap a timeline that agrees holds the picture's events in order.
pub fn closed_timeline<E, K>()
    ensures { ClosedTimeline E K }
{}

/// A state that agrees has the picture's events under the picture's keys: all without lazy members, and all but the
/// member events with them (Client-Server API, Lazy-loading room members).
pub fn whole_state<E, K>()
    ensures { WholeState E K }
{}

/// A section is what may be sent of the window above its cut, and the reply is limited exactly where something may be
/// sent of the window up to the cut.
pub fn section_is_window<E, K>()
    ensures { SectionIsWindow E K }
{}

/// Each event of a section is visible to the user at the front, and the timeline filter passes it.
pub fn sent_is_visible<E, K>()
    ensures { SentIsVisible E K }
{}
