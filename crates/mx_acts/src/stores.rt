//! Writes of account data and of receipts.

ghost use Rattle.std.specs.Prelude.{◌≡◌, ℕ, IfOk};
ghost use Rattle.mx_acts.specs.Acts.{asked, kind_in, MarksBy, NotesBy, PutsBy};
ghost use Rattle.mx_acts.specs.declared.kind.ActKind.TheVariants as kinds;
ghost use Rattle.mx_aims.specs.Aims.{IsEntryWithin, IsNoteWithin, IsReceiptWithin, entry_aimed_of, note_aimed_of, receipt_aimed_of, site_of};
ghost use Rattle.mx_rest.specs.Servers.{AreValid, lists_of};

use mx_aims::{EntryAim, NoteAim, ReceiptAim, Site};
use mx_ask::{Ask, Who};
use mx_entries::RuleChange;
use mx_ids::Memory;
use mx_snapshot::Snapshot;
use std::alloc::Global;

/// What a request for a write of account data asks of a writer, by the events that the snapshot holds.
pub fn entry_aim(
    alloc: Global,
    site: &Site,
    snapshot: &Snapshot,
    who: &Who,
    ask: Ask,
) -> Result<EntryAim, Memory>
    requires valid { AreValid (lists_of snapshot.now) }
    requires kind { (now : ℕ) → kind_in (asked (site_of site.now) now who.now ask) ≡ kinds.Puts }
    ensures aimed { (now : ℕ) → IfOk result (λ a. PutsBy (asked (site_of site.now) now who.now ask) snapshot.now.events (entry_aimed_of a)) }
    ensures within { IfOk result (IsEntryWithin site.now.workers) }
{
    match ask {
        Ask::PutAccount {
            room,
            kind,
            content,
        } => site.account_aim(alloc, snapshot, who, room, kind, content),
        Ask::PutTag { room, tag, body } => site.tag_aim(alloc, snapshot, who, &room, tag, body),
        Ask::DeleteTag { room, tag } => site.untag_aim(alloc, snapshot, who, &room, tag),
        Ask::Receipt { room, kind, event } => match kind {
            None => site.marker_aim(alloc, snapshot, who, &room, event),
            Some(_) => unreachable!(),
        },
        Ask::PutRule {
            kind,
            id,
            body,
            before,
            after,
        } => {
            let change = RuleChange::Put {
                kind,
                id,
                body,
                before,
                after,
            };
            site.rules_aim(alloc, who, change)
        }
        Ask::DeleteRule { kind, id } => {
            site.rules_aim(alloc, who, RuleChange::Remove { kind, id })
        }
        Ask::PutEnabled { kind, id, on } => {
            site.rules_aim(alloc, who, RuleChange::Enable { kind, id, on })
        }
        Ask::PutActions { kind, id, body } => {
            site.rules_aim(alloc, who, RuleChange::Act { kind, id, body })
        }
        _ => unreachable!(),
    }
}

/// What a request for a write of receipts asks of a writer, likewise, by the clock's reading of the request.
pub fn receipt_aim(
    alloc: Global,
    site: &Site,
    snapshot: &Snapshot,
    now: u64,
    who: &Who,
    ask: &Ask,
) -> Result<ReceiptAim, Memory>
    requires valid { AreValid (lists_of snapshot.now) }
    requires kind { kind_in (asked (site_of site.now) now who.now ask.now) ≡ kinds.Marks }
    ensures aimed { IfOk result (λ a. MarksBy (asked (site_of site.now) now who.now ask.now) snapshot.now.events (receipt_aimed_of a)) }
    ensures within { IfOk result (IsReceiptWithin site.now.workers) }
{
    match ask {
        Ask::Receipt {
            room,
            kind: Some(kind),
            event,
        } => site.receipt_aim(alloc, snapshot, now, who, room, *kind, event),
        Ask::ReadMarkers {
            room,
            fully_read: None,
            read,
            private,
        } => site.receipts_aim(alloc, snapshot, now, who, room, read, private),
        _ => unreachable!(),
    }
}

/// What a request for a write of `m.fully_read` and then of receipts asks of a writer, likewise.
pub fn note_aim(
    alloc: Global,
    site: &Site,
    snapshot: &Snapshot,
    now: u64,
    who: &Who,
    ask: Ask,
) -> Result<NoteAim, Memory>
    requires valid { AreValid (lists_of snapshot.now) }
    requires kind { kind_in (asked (site_of site.now) now who.now ask) ≡ kinds.Notes }
    ensures aimed { IfOk result (λ a. NotesBy (asked (site_of site.now) now who.now ask) snapshot.now.events (note_aimed_of a)) }
    ensures within { IfOk result (IsNoteWithin site.now.workers) }
{
    match ask {
        Ask::ReadMarkers {
            room,
            fully_read,
            read,
            private,
        } => match fully_read {
            Some(event) => {
                site.note_aim(alloc, snapshot, now, who, &room, event, &read, &private)
            }
            None => unreachable!(),
        },
        _ => unreachable!(),
    }
}
