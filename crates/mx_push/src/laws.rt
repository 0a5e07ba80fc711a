//! Laws of the definitions: functions that do nothing, whose contracts hold of all events.
ghost use Rattle.mx_push.specs.Laws.{PathsLeadIntoForm};

/// What stands at a dotted path is what its parts lead to in the event's client form with the room's id and without
/// `unsigned` (Client-Server API, Push rules, Dot-separated property paths), also where the form isn't made.
pub fn paths_lead_into_form()
    ensures { PathsLeadIntoForm }
{}
