//! Laws.

ghost use Rattle.mx_parts.specs.Shows.{PartsAre};

/// What is sent of a room's events is the part of *Reply*.
pub fn parts_are()
    ensures { PartsAre }
{}
