//! The laws of windows, each as the contract of a function with an empty body.

ghost use Rattle.mx_window.specs.Laws.{WindowsJoin, WindowsNest, LatestAreWindow, LastOfJoined, NonePassesAfterLast, CurrentByKey};

/// A window of a list in order of position is its two halves, joined.
pub fn windows_join<E>()
    ensures { WindowsJoin E }
{}

/// A window of a window is a window of the whole list.
pub fn windows_nest<E>()
    ensures { WindowsNest E }
{}

/// The last `n` passing items of a window are the passing items of a window: of the one that begins right before the
/// first of them. So what a limit leaves of a timeline (Client-Server API, Syncing) is itself a window.
pub fn latest_are_window<E>()
    ensures { LatestAreWindow E }
{}

/// The last passing item of two joined lists is that of the second, or else that of the first.
pub fn last_of_joined<E>()
    ensures { LastOfJoined E }
{}

/// After the last passing item of a window no item of it passes, and where none passes at all the window's lower end
/// stands for that item's position.
pub fn none_passes_after_last<E>()
    ensures { NonePassesAfterLast E }
{}

/// Among the current items (those that no later one of the same key follows) that are picked, the last of a key is
/// the last of that key in the list, if it is picked.
pub fn current_by_key<E>()
    ensures { CurrentByKey E }
{}
