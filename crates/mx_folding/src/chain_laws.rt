//! The folding law over memberships, and over chains of replies and pages.

ghost use Rattle.mx_folding.specs.Stories.{FoldsRoom};
ghost use Rattle.mx_folding.specs.Chains.{ChainsFold};

/// What a client holds of a room agrees after a sync reply, if it agreed before: whatever the user's memberships at the
/// two tokens, whether the room is new, is in the reply or isn't, with the other parts of a room by the section law.
pub fn folds_room<E, K, V, D, T>()
    ensures { FoldsRoom E K V D T }
{}

/// From a client without a token, after any sync replies that answer its tokens and any pages of its gaps, it agrees
/// with the picture at its token.
pub fn chains_fold<X, E, K, V, D, T>()
    ensures { ChainsFold X E K V D T }
{}
