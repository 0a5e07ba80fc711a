//! A gate between the draw of a block and its store, which a test may hold.

ghost use Rattle.std.specs.Prelude.{◌≡◌, ℕ, Bool, true, Some, None};
ghost use Rattle.std.specs.Option.{ForSome};

/// What is called between the draw of a block and its store.
pub trait Gate {
    // Whether the gate was told that a writer drew a block that begins at a position.
    ghost told: { Self → ℕ → ℕ → Bool };

    /// The writer of the shard has drawn a block that begins at `first`, and stores it once this returns: it is kept already.
    fn drawn(&self, shard: u8, first: u64)
        ensures { told self.now shard first ≡ true };
}

/// A gate that is always open.
#[derive(Drop)]
pub struct Open;

impl Gate for Open {
    ghost use Rattle.std.specs.Prelude.{true};

    ghost told = { λ gate shard first. true };

    fn drawn(&self, _shard: u8, _first: u64) {}
}

/// A gate, with the writer and the first position that one write tells it.
#[derive(Drop)]
pub struct Watch<'a, G: Gate> {
    gate: &'a G,
    told: Option<(u8, u64)>,
    ghost heard: { ForSome told (λ block. G.told gate.now block.0 block.1 ≡ true) },
}

impl<'a, G: Gate> Watch<'a, G> {
    /// A gate that no write has told anything yet. Takes no memory.
    pub fn new(gate: &'a G) -> Watch<'a, G>
        ensures { (result.gate.now ≡ gate.now) × (result.told ≡ None) }
    {
        Watch { gate, told: None }
    }

    /// Tells the gate of a block that was drawn.
    pub(crate) fn drawn(&mut self, shard: u8, first: u64)
        ensures { (self.new.gate ≡ self.old.gate) × (self.new.told ≡ Some (shard, first)) }
    {
        self.gate.drawn(shard, first);
        self.told = Some((shard, first));
    }
}
