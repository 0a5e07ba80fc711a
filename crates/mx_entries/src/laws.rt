//! What crosses threads.

use crate::account_writer::Accounts;
use crate::receipt_writer::Receipts;
use mx_core::goes_to_threads;

/// The writers' values go to other threads.
pub fn writers_go_to_threads() {
    goes_to_threads::<Accounts>();
    goes_to_threads::<Receipts>();
}
