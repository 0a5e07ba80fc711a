//! Laws.

ghost use Rattle.mx_pager.specs.Laws.{PagesAre};

/// A backward page of a gap that a sync left is the page that the folding law speaks of.
pub fn pages_are<V, D>()
    ensures { PagesAre V D }
{}
