//! Why push rules aren't changed.
use mx_ids::Memory;
use thiserror::Error;

/// Which neighbour of a rule is meant.
#[derive(Clone, Copy, Debug, PartialEq, Eq)]
pub enum Side {
    Before,
    After,
}

/// Why push rules aren't changed: the first that holds, in this order.
#[derive(Debug, Drop, Error)]
pub enum RuleFault {
    /// A rule whose id begins with `.` is put or removed.
    #[error("default rules are neither put nor removed")]
    DefaultRule,
    /// The rule isn't there.
    #[error("the rule isn't there")]
    NoRule,
    /// What the rule asks beside its kind is of the wrong form.
    #[error("what the rule asks is of the wrong form")]
    BadCondition,
    /// The actions are no list of actions.
    #[error("the actions are of the wrong form")]
    BadAction,
    /// The rule before or after which it is to stand isn't a user's rule of the kind.
    #[error("the neighbour isn't a rule of the user")]
    NoNeighbour(Side),
    /// An allocation was refused.
    #[error("want of memory")]
    Memory(Memory),
}

impl From<Memory> for RuleFault {
    ghost use Rattle.std.specs.Prelude.{◌≡◌};
    ghost use Rattle.mx_rules.specs.declared.fault.RuleFault.TheVariants as faults;

    ghost from_gives = { λ m e. e ≡ faults.Memory m };

    fn from(refused: Memory) -> RuleFault {
        RuleFault::Memory(refused)
    }
}
