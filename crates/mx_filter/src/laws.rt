//! Laws of filters, on which the folding of replies and pages rests.
ghost use Rattle.mx_filter.specs.Sieves.{FoldsByType, PagesFit, SameFilters};

/// Two filters that are the same by their lists are equal.
pub fn filters_are_same()
    ensures { SameFilters }
{}

/// A filter whose state filter has no senders and no `contains_url` picks state by type and room.
pub fn folds_by_type()
    ensures { FoldsByType }
{}

/// A page by a sync's timeline filter lets the same events pass.
pub fn pages_fit()
    ensures { PagesFit }
{}
