//! A journal that the writers of several streams share. Lines that come while others are being settled are settled together.
//!
//! A [`Desk`] has the journal and the lines that wait for it; a [`DeskKeeper`] is what a writer keeps its stores by: the line of a
//! block is made of its [`Texts`], and given to the desk between the draw of the block and its store. Until the desk is opened, each
//! line has to be the one that is replayed.
//!
//! Begin with `desk.rt`, then `keeping.rt`.
#![tactic(auto)]

mod desk;
mod keeping;
mod texts;

pub use desk::{Block, Desk};
pub use keeping::DeskKeeper;
pub use texts::{StreamTexts, Texts};
