//! Pens and passes, and what a draw answers.

ghost use Rattle.std.specs.Prelude.{◌≡◌, ◌≤◌, [], true, length};
ghost use Rattle.mx_core.specs.Orderly.{IsOrderly};
ghost use Rattle.mx_core.proofs.Orders.{IsOrderly-prop};
ghost use Rattle.mx_core.specs.History.{own, AreOf, keeps_law};
ghost use Rattle.mx_core.proofs.Owns.{AreOf-prop};
ghost use Rattle.mx_front.specs.declared.view.Right.TheVariants.{Nothing};
ghost use Rattle.mx_front.specs.declared.view.Role.TheVariants as roles;
ghost use Rattle.mx_front.specs.declared.view.Turn.TheVariants.{Idle};
ghost use Rattle.mx_front.specs.Told.{can_store};

use crate::board::Place;
use mx_core::Placed;

/// A block that was drawn: `count` positions from `first` on.
#[derive(Clone, Copy, Debug, PartialEq, Eq)]
pub struct Drawn {
    /// The first position, at least 1.
    pub first: u64,
    /// The number of positions, 1 to 512.
    pub count: u16,
}

/// A draw found its stream full.
#[derive(Clone, Copy, Debug, PartialEq, Eq)]
pub struct Full {
    /// The number of positions that were drawn, which is at least the stream's stop.
    pub next: u64,
}

/// The right to store for one writer. It knows all stores of its writer. One that is dropped between a draw and the
/// store of its block holds the stream's front below that block for good.
#[derive(Drop)]
pub struct Pen<I: Placed> {
    pub(crate) seat: Place<I>,
    pub(crate) writer: u8,
    pub(crate) stores: u64,
    /// At least so many items its lane has space for.
    pub(crate) space: u64,
    ghost rests: { (seat.me.0.turn ≡ Idle) × (seat.me.1 ≡ []) },
    ghost writes: { seat.me.0.who ≡ roles.Pen writer },
    ghost lends: { seat.me.0.right ≡ Nothing },
    ghost complete: { own seat.me.0.seen writer ≡ seat.me.0.own },
    ghost lawful: { keeps_law I.lawful [] seat.me.0.seen ≡ true },
    ghost orderly: { IsOrderly seat.me.0.seen } by { IsOrderly-prop seat.me.0.seen },
    ghost counted: { stores ≡ length seat.me.0.seen },
    ghost spaced: { space ≤ seat.me.0.reserve },
}

/// A reader of a stream, with the right to store by its pens. What it has seen is the beginning of the stream's history.
#[derive(Drop)]
pub struct Pass<I: Placed> {
    pub(crate) seat: Place<I>,
    pub(crate) stores: u64,
    ghost rests: { (seat.me.0.turn ≡ Idle) × (seat.me.1 ≡ []) },
    ghost lawful: { keeps_law I.lawful [] seat.me.0.seen ≡ true },
    ghost orderly: { IsOrderly seat.me.0.seen } by { IsOrderly-prop seat.me.0.seen },
    ghost counted: { stores ≡ length seat.me.0.seen },
    ghost of_writers: { AreOf seat.me.0.writers seat.me.0.seen } by { AreOf-prop seat.me.0.writers seat.me.0.seen },
    ghost stores_by: { can_store seat.me.0.right ≡ true },
}
