//! The last versions of all keys of a room.

ghost use Rattle.std.specs.Prelude.{◌≡◌, ◌++◌, List, ℕ, IfOk, OnOk};
ghost use Rattle.std.specs.BTreeMap as tree;
ghost use Rattle.std.specs.List.Sorted.{IsNonDecreasingBy, IsPermutation};
ghost use Rattle.std.specs.String.{string_cmp};
ghost use Rattle.mx_snapshot.specs.LastVersions.{AreOrdered, key_lasts, kind_lasts, last_upto};
ghost use Rattle.mx_snapshot.specs.Lists.{itself, key_at, kind_at};

use crate::lists::{Keys, Kinds};
use crate::positions::last_to;
use crate::steps::Steps;
use mx_ids::Memory;
use std::alloc::Global;

/// The positions of the last versions up to a position, one for each key that has one, in rising order. Takes the time of a
/// search for each key, and of sorting what is found.
pub(crate) fn last_versions(alloc: Global, kinds: &Kinds, last: u64) -> Result<Vec<u64>, Memory>
    requires { (t k : List ℕ) → IsNonDecreasingBy itself (kind_at kinds.now t k) }
    ensures ordered { OnOk result (AreOrdered kinds.now) }
    ensures found { IfOk result (λ made. IsPermutation (kind_lasts last kinds.now.entries) made.items) }
    ensures rising { IfOk result (λ made. IsNonDecreasingBy itself made.items) }
{
    let mut found = Vec::with_capacity(alloc, key_count(kinds))?;
    'kinds: for entry in kinds {
        push_kind(&mut found, entry.1, last)?;
    }
    found.sort_unstable();
    Ok(found)
}

/// The same of the keys of one type.
pub(crate) fn last_keys(alloc: Global, keys: &Keys, last: u64) -> Result<Vec<u64>, Memory>
    requires { (k : List ℕ) → IsNonDecreasingBy itself (key_at keys.now k) }
    ensures ordered { OnOk result (tree.IsOrdered string_cmp keys.now) }
    ensures found { IfOk result (λ made. IsPermutation (key_lasts last keys.now.entries) made.items) }
    ensures rising { IfOk result (λ made. IsNonDecreasingBy itself made.items) }
{
    let mut found = Vec::with_capacity(alloc, keys.len())?;
    push_kind(&mut found, keys, last)?;
    found.sort_unstable();
    Ok(found)
}

/// How many keys there are of all types, for which room is made beforehand.
fn key_count(kinds: &Kinds) -> usize {
    let mut count = 0usize;
    'kinds: for entry in kinds {
        count = count.saturating_add(entry.1.len());
    }
    count
}

/// Puts the last positions of all keys of a type behind others.
fn push_kind(found: &mut Vec<u64>, keys: &Keys, last: u64) -> Result<(), Memory>
    requires { (k : List ℕ) → IsNonDecreasingBy itself (key_at keys.now k) }
    ensures ordered { OnOk result (tree.IsOrdered string_cmp keys.now) }
    ensures found { OnOk result (found.new.items ≡ found.old.items ++ key_lasts last keys.now.entries) }
{
    'keys: for entry in keys {
        push_last(found, entry.1.as_slice(), last)?;
    }
    Ok(())
}

fn push_last(found: &mut Vec<u64>, positions: &[u64], last: u64) -> Result<(), Memory>
    requires { IsNonDecreasingBy itself positions.now }
    ensures { OnOk result (found.new.items ≡ found.old.items ++ last_upto last positions.now) }
{
    let mut steps = Steps::new();
    if let Some(position) = last_to(positions, last, &mut steps) {
        found.push(position)?;
    }
    Ok(())
}
