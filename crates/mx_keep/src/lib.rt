//! Writers whose stores are kept elsewhere, as in a journal, before they are made.
//!
//! [`Journaled`] is a writer's value over another one: what that one decides is first kept by a [`Keeper`], and taken in
//! once it is. Where the keeper tells what it has kept, this is the own list at each moment between writes. [`Unkept`] is
//! the keeper of a server without a journal.
//!
//! Begin with `keeper.rt`.
#![tactic(auto)]

mod journaled;
mod keeper;
mod unkept;

pub use journaled::Journaled;
pub use keeper::Keeper;
pub use unkept::Unkept;
