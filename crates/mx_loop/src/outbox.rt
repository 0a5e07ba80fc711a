//! The bytes of an answer that are yet to be put.
ghost use Rattle.std.specs.Prelude.{◌≡◌, ◌≤◌, [], length, drop};

use std::alloc::Global;
use std::marker::Model;

/// The bytes of an answer that weren't put yet, which contracts see as their list.
#[derive(Drop)]
pub struct Outbox {
    bytes: Vec<u8>,
    at: usize,
}

impl Model for Outbox {
    ghost use Rattle.std.specs.Prelude.{List, ℕ, ◌≤◌, drop, vec_len};

    ghost Value = { List ℕ };

    ghost view = { λ o. drop o.at o.bytes.items };

    ghost invariant = { λ o. o.at ≤ vec_len o.bytes };
}

impl Outbox {
    /// No bytes.
    pub fn new(alloc: Global) -> Outbox
        ensures { result ≡ [] }
    {
        Outbox {
            bytes: Vec::new(alloc),
            at: 0,
        }
    }

    /// These bytes in the place of what is there.
    pub fn set(&mut self, bytes: Vec<u8>)
        ensures { self.new ≡ bytes.items }
    {
        self.bytes = bytes;
        self.at = 0;
    }

    /// No bytes in the place of what is there: the room of an answer is let go.
    pub fn clear(&mut self, alloc: Global)
        ensures { self.new ≡ [] }
    {
        self.set(Vec::new(alloc));
    }

    pub fn as_slice(&self) -> &[u8]
        ensures { result.now ≡ self.now }
    {
        &self.bytes.as_slice()[self.at..]
    }

    /// Lets the first `count` bytes go.
    pub fn advance(&mut self, count: usize)
        requires { count ≤ length self.old }
        ensures { self.new ≡ drop count self.old }
    {
        let left = self.as_slice().len() - count;
        self.at = self.bytes.as_slice().len() - left;
    }
}
