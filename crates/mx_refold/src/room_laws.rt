//! The folding law of one room whose copies are redacted by what its timeline holds.

ghost use Rattle.mx_refold.specs.Laws.{FoldsAnyPage, RedactsPage, RedactsPart};

/// A room that agrees with the picture still does after a backward page of one of its gaps (Client-Server API, Getting
/// events for a room) and the redactions that its timeline then holds: at any front of at least that where the gap was cut.
pub fn folds_any_page<E, K>()
    ensures { FoldsAnyPage E K }
{}

/// Redactions of the timeline that are applied before a reply's part change nothing of the room after it and them.
pub fn redacts_part<E, K>()
    ensures { RedactsPart E K }
{}

/// So with a page.
pub fn redacts_page<E, K>()
    ensures { RedactsPage E K }
{}
