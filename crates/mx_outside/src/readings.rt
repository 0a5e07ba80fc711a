//! The readings of a clock, as proofs read them.
ghost use Rattle.std.specs.Prelude.{◌≡◌, ℕ, List, [], ◌∷◌, ◌++◌};
ghost use Rattle.std.specs.Borrow.{ftrue};
ghost use Rattle.std.specs.Coded.{coded_list, coded_ℕ};

use std::marker::Model;

/// The readings of a clock so far, in order, which only proofs read. It takes no memory, and its methods do nothing when they run.
#[derive(Debug, Drop)]
pub(crate) struct Readings {
    pub(crate) ghost all: { List ℕ } by { coded_list coded_ℕ },
}

impl Model for Readings {
    ghost also_owns = { λ _. ftrue };
}

impl Readings {
    /// Readings that the caller's proof names, of what they are made of.
    fn made_of<T>(_parts: &T) -> Readings
        ghost all: { List ℕ }
        ensures { result.all ≡ all }
    {
        Readings {}
    }

    /// No reading.
    pub(crate) fn none() -> Readings
        ensures { result.all ≡ [] }
    {
        Readings::made_of(&())
    }

    /// The same readings.
    pub(crate) fn same(_before: &Readings) -> Readings
        ensures { result.all ≡ _before.now.all }
    {
        Readings::made_of(_before)
    }

    /// The readings with one more.
    pub(crate) fn with(_before: &Readings, _reading: u64) -> Readings
        ensures { result.all ≡ _before.now.all ++ _reading ∷ [] }
    {
        Readings::made_of(&(_before, _reading))
    }
}
