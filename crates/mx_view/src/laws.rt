//! Laws of valid rooms.

ghost use Rattle.mx_view.specs.Later.{SamePaged, SameTold};
ghost use Rattle.mx_view.specs.Pictures.{PicturesAre};
ghost use Rattle.mx_view.specs.Reads.{SameRead};
ghost use Rattle.mx_view.specs.Valid.{ValidFolds, ValidIsStory};

/// A valid list of a room's events is what the folding law is about.
pub fn valid_is_story<V, D, T>()
    ensures { ValidIsStory V D T }
{}

/// The folding law over the events of valid rooms.
pub fn valid_folds<X, V, D, T>()
    ensures { ValidFolds X V D T }
{}

/// What a reply says of a room is the same over a longer list.
pub fn same_told<V, D>()
    ensures { SameTold V D }
{}

/// So is a page.
pub fn same_paged()
    ensures { SamePaged }
{}

/// A picture by filters is the one of the folding law.
pub fn pictures_are()
    ensures { PicturesAre }
{}

/// What a reply says of a room depends on contents by no more than what is read of the room's events.
pub fn same_read<V, D>()
    ensures { SameRead V D }
{}
