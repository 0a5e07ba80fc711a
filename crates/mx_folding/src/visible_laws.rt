//! The laws of what a user may see (Client-Server API, Room History Visibility).

ghost use Rattle.mx_folding.specs.Longer.{SameVisible};
ghost use Rattle.mx_folding.specs.Visible.{StaysVisible};

/// What a user who is joined at `s` may see of the events up to `s` is the same at every later front.
pub fn stays_visible<E>()
    ensures { StaysVisible E }
{}

/// What is visible at a front is the same over a list that goes on with events after it.
pub fn same_visible<E>()
    ensures { SameVisible E }
{}
