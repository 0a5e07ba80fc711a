//! Laws of the definitions: functions that do nothing, whose contracts hold of every event.
ghost use Rattle.mx_event.specs.Laws.{RedactsOnce, NamesStay, ShownStays};
ghost use Rattle.mx_event.specs.Valid.{LawfulIsValid, RoomsAreValid};

/// What is redacted stays as it is when it is redacted again.
pub fn redacts_once()
    ensures { RedactsOnce }
{}

/// A redacted redaction names what it named.
pub fn names_stay()
    ensures { NamesStay }
{}

/// How an event is shown at a front is the same in a list that goes on with events after that front.
pub fn shown_stays()
    ensures { ShownStays }
{}

/// The events of a room among a writer's lawful ones are valid: none is denied after those before it, and each redaction
/// names one of those (Room Version 11, Authorization rules).
pub fn lawful_is_valid()
    ensures { LawfulIsValid }
{}

/// In an orderly history of lawful stores each room's list among the items up to the front is valid.
pub fn rooms_are_valid()
    ensures { RoomsAreValid }
{}
