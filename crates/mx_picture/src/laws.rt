//! The laws.

ghost use Rattle.mx_picture.specs.Forward.{ForwardPagesAre};
ghost use Rattle.mx_picture.specs.Rests.{RestsAre};

/// The picture has at a token of each user and kind the standing receipt and no other, where the user is told it; of each type
/// the value of the user's account data of the room and no other, where the filter has the type; and the counts and the summary
/// at the token.
pub fn rests_are()
    ensures { RestsAre }
{}

/// A forward page has just the events of the picture's timeline, at the front, behind the place where it begins and up to its
/// end, or up to the other bound where it has no end; at most so many as its limit, and an end just where one more follows.
#[tactic(auto, using(crate::proofs::Forward::forward_pages_are))]
pub fn forward_pages_are<V, D>()
    ensures { ForwardPagesAre V D }
{}
