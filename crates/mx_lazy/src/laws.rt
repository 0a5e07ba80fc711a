//! Laws.

ghost use Rattle.mx_lazy.specs.Picks.{PicksAre};
ghost use Rattle.mx_lazy.specs.Stays.{SummaryStays};

/// What a picker picks of a room's state is what a reply sends of it.
pub fn picks_are()
    ensures { PicksAre }
{}

/// The summary stays the same where no member event came after.
pub fn summary_stays()
    ensures { SummaryStays }
{}
