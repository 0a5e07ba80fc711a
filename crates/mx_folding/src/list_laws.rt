//! Lists of rooms by id, and lists of events that go on.

ghost use Rattle.mx_folding.specs.Lists.{AllToldAt};
ghost use Rattle.mx_folding.specs.Longer.{SamePart, SamePage};

/// A list of rooms after a list of what was told of rooms has under each id what the step makes of what was told of
/// that id and was held under it.
pub fn all_told_at<I, D, A>()
    ensures { AllToldAt I D A }
{}

/// A reply's part for (s, t] is the same over a list that goes on with events after t.
pub fn same_part<E, K>()
    ensures { SamePart E K }
{}

/// A page at a front is the same over a list that goes on with events after it.
pub fn same_page<E, K>()
    ensures { SamePage E K }
{}
