//! The items at some positions.

ghost use Rattle.std.specs.Prelude.{◌≡◌, ◌++◌, OnOk, IfOk};
ghost use Rattle.std.specs.Option.{option_to_list};
ghost use Rattle.mx_snapshot.specs.Looks.{all_now, at_position, looked};

use mx_ids::Memory;
use mx_receipt::Parts;
use std::alloc::Global;

/// The items at some positions, in their order. Takes memory for as many references.
pub(crate) fn gather<'a, I>(
    alloc: Global,
    items: &'a Parts<I>,
    positions: &[u64],
) -> Result<Vec<&'a I>, Memory>
    ensures { IfOk result (λ made. all_now made.items ≡ looked items.now.items positions.now) }
{
    let mut made = Vec::with_capacity(alloc, positions.len())?;
    'positions: for position in positions {
        push_found(&mut made, items, *position)?;
    }
    Ok(made)
}

fn push_found<'a, I>(
    made: &mut Vec<&'a I>,
    items: &'a Parts<I>,
    position: u64,
) -> Result<(), Memory>
    ensures { OnOk result (all_now made.new.items ≡ all_now made.old.items ++ option_to_list (at_position items.now.items position)) }
{
    if let Some(item) = items.at(position) {
        made.push(item)?;
    }
    Ok(())
}
