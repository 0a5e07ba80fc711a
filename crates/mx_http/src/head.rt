//! The head of a request.
ghost use Rattle.std.specs.Prelude.{◌+◌, ◌≤◌};

use mx_ids::Text;

/// What the head of a request says, its length and the size of the body behind it.
#[derive(Drop)]
pub struct Head {
    pub method: Text,
    pub target: Text,
    pub bearer: Option<Text>,
    pub close: bool,
    pub len: usize,
    pub size: usize,
    ghost within: { len + size ≤ 1064960 },
}
