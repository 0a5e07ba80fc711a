ghost use Rattle.std.specs.Prelude.{◌≡◌, [], ◌∷◌, ◌++◌, ◌==◌, length, true, OnOk, OnErr, IfOk, IfErr, option_map};
ghost use Rattle.std.specs.Ordering.{nat_cmp};
ghost use Rattle.std.specs.Cmp.Lexicographic.{slice_cmp};
ghost use Rattle.mx_json.specs.Keys.{keys_of, are_ordered, value_at, with_member};
ghost use Rattle.mx_json.specs.Places.{IsPlaceOf, IsPlaceFor};

use mx_ids::{Memory, Seq, Text};
use std::alloc::Global;
use std::cmp::Ordering;
use std::marker::Model;

/// A key of an object with its value.
#[derive(Debug, Drop)]
pub struct Member<V> {
    pub key: Text,
    pub value: V,
}

/// The members of an object: each key once, and the keys in byte order. Contracts see them as the list of members.
#[derive(Debug, Drop)]
pub struct Members<V> {
    pub(crate) entries: Seq<Member<V>>,
}

impl<V> Model for Members<V> {
    ghost use Rattle.std.specs.Prelude.{List, ◌≡◌, true};
    ghost use Rattle.std.specs.Coded.{coded_list};
    ghost use Rattle.mx_json.specs.declared.members.Member.{Member};
    ghost use Rattle.mx_json.specs.Keys.{keys_of, are_ordered, member_code};

    ghost Value = { List (Member V) };

    ghost coded = { coded_list (member_code V.code) };

    ghost view = { λ m. m.entries };

    ghost invariant = { λ m. are_ordered (keys_of m.entries) ≡ true };
}

impl<V> Members<V> {
    /// No members. Takes no memory.
    pub fn new(alloc: Global) -> Members<V>
        ensures { result ≡ [] }
    {
        Members {
            entries: Seq::new(alloc),
        }
    }

    /// How many members there are.
    pub fn len(&self) -> usize
        ensures { result ≡ length self.now }
    {
        self.entries.len()
    }

    pub fn is_empty(&self) -> bool
        ensures { result ≡ (length self.now == 0) }
    {
        self.entries.is_empty()
    }

    /// The members, in the byte order of their keys.
    pub fn as_slice(&self) -> &[Member<V>]
        ensures value { result.now ≡ self.now }
        ensures ordered { are_ordered (keys_of self.now) ≡ true }
    {
        self.entries.as_slice()
    }

    /// The value at a key, or `None` where no member has it. Costs a binary search.
    pub fn get(&self, key: &str) -> Option<&V>
        ensures { option_map (λ v. v.now) result ≡ value_at key.now self.now }
    {
        let members = self.as_slice();
        match place_of(members, key) {
            Ok(at) => Some(&members[at].value),
            Err(_) => None,
        }
    }

    /// Sets the value at a key, in place of the one that was there. `Memory` leaves the members as they were, and the key
    /// and the value are dropped. Costs a binary search and a move of the members above the key.
    pub fn set(&mut self, key: Text, value: V) -> Result<(), Memory>
    where
        V: Drop,
        ensures ok { OnOk result (self.new ≡ with_member key value self.old) }
        ensures same { OnErr result (self.new ≡ self.old) }
    {
        match place_of(self.as_slice(), key.as_str()) {
            Ok(at) => {
                self.entries.set(at, Member { key, value });
                Ok(())
            }
            Err(at) => self.entries.insert(at, Member { key, value }),
        }
    }

    /// Puts a member at the end, whose key is above all keys there are. `Memory` leaves the members as they were,
    /// and the key and the value are dropped.
    pub fn push(&mut self, key: Text, value: V) -> Result<(), Memory>
    where
        V: Drop,
        requires { are_ordered (keys_of self.old ++ key ∷ []) ≡ true }
        ensures ok { OnOk result (self.new ≡ self.old ++ record { key = key; value = value } ∷ []) }
        ensures same { OnErr result (self.new ≡ self.old) }
    {
        self.entries.push(Member { key, value })
    }

    /// The members that a list in order holds.
    pub(crate) fn from_vec(members: Vec<Member<V>>) -> Members<V>
        requires { are_ordered (keys_of members.items) ≡ true }
        ensures { result ≡ members.items }
    {
        Members {
            entries: Seq::from_vec(members),
        }
    }
}

/// Where a key stands among members in order, or else where it would.
fn place_of<V>(members: &[Member<V>], key: &str) -> Result<usize, usize>
    requires { are_ordered (keys_of members.now) ≡ true }
    ensures found { IfOk result (IsPlaceOf key.now members.now) }
    ensures parted { IfErr result (IsPlaceFor key.now members.now) }
{
    members.binary_search_by(
        |member: &Member<V>| -> Ordering
            ensures { result ≡ slice_cmp nat_cmp member.now.key key.entry.now }
        { member.key.as_str().cmp(key) },
    )
}
