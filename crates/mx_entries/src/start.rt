//! Writers without stores.

ghost use Rattle.std.specs.Prelude.{◌≡◌, []};

use crate::account_writer::Accounts;
use crate::receipt_writer::Receipts;
use crate::shelf::Shelf;
use std::alloc::Global;

/// The account data of a writer without stores. Takes no memory.
pub fn accounts(alloc: Global, writer: u8) -> Accounts
    ensures { (result.shelf.writer ≡ writer) × (result.shelf.stores.items ≡ []) }
{
    Accounts {
        shelf: Shelf::new(alloc, writer),
    }
}

/// The receipts of a writer without stores. Takes no memory.
pub fn receipts(alloc: Global, writer: u8) -> Receipts
    ensures { (result.shelf.writer ≡ writer) × (result.shelf.stores.items ≡ []) }
{
    Receipts {
        shelf: Shelf::new(alloc, writer),
    }
}
