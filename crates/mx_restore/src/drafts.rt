//! The drafts of stored receipts and entries, on which they are decided again.

ghost use Rattle.std.specs.Prelude.{◌≡◌, IfSome, Some};
ghost use Rattle.mx_again.specs.Drafts.{entry_draft, of_kind, receipt_draft};
ghost use Rattle.mx_restore.specs.Said.{SaysEntry};

use mx_account::Entry;
use mx_entries::{EntryDraft, ReceiptDraft};
use mx_ids::Seq;
use mx_receipt::{Receipt, ReceiptKind};

/// The draft of the receipts of one store.
pub(crate) fn receipt_draft(receipts: Seq<Receipt>) -> Option<ReceiptDraft>
    ensures { IfSome result (λ d. receipt_draft receipts ≡ Some d) }
{
    let mut receipts = receipts.into_vec().into_iter();
    let first = receipts.next()?;
    match receipts.next() {
        None => Some(of_kind(first)),
        Some(second) => Some(ReceiptDraft {
            room: first.room,
            user: first.user,
            read: Some(first.event),
            private: Some(second.event),
            ts: first.ts,
        }),
    }
}

/// The draft of a receipt.
fn of_kind(receipt: Receipt) -> ReceiptDraft
    ensures { result ≡ of_kind receipt receipt.kind }
{
    let (read, private) = match receipt.kind {
        ReceiptKind::Read => (Some(receipt.event), None),
        ReceiptKind::Private => (None, Some(receipt.event)),
    };
    ReceiptDraft {
        room: receipt.room,
        user: receipt.user,
        read,
        private,
        ts: receipt.ts,
    }
}

/// The draft of the only entry of a store.
pub(crate) fn entry_draft(entries: Seq<Entry>) -> Option<EntryDraft>
    ensures { IfSome result (λ d. SaysEntry entries d) }
{
    let mut entries = entries.into_vec();
    let entry = entries.pop()?;
    if entries.is_empty() {
        Some(draft_of(entry))
    } else {
        None
    }
}

/// The draft of an entry.
fn draft_of(entry: Entry) -> EntryDraft
    ensures { result ≡ entry_draft entry }
{
    match entry {
        Entry::Data {
            user,
            room,
            kind,
            content,
            at: _,
        } => EntryDraft::Data {
            user,
            room,
            kind,
            content,
        },
        Entry::Filter {
            user,
            id: _,
            filter,
            at: _,
        } => EntryDraft::Filter { user, filter },
    }
}
