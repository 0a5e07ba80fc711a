//! What a pass knows of each stream goes on to what it has seen.

ghost use Rattle.std.specs.Prelude.{◌≡◌, ◌≤◌, OnOk};
ghost use Rattle.mx_core.specs.Covered.{covered};
ghost use Rattle.mx_core.specs.History.{Begins};
ghost use Rattle.mx_front.specs.Shown.{place_of, place_of_pass, reads, seen_by};
ghost use Rattle.mx_engine.specs.Shown.{IsTaken};

use crate::seat::Seat;
use mx_account::Entry;
use mx_event::Event;
use mx_front::Stream;
use mx_ids::Memory;
use mx_receipt::Receipt;
use mx_still::Known;
use std::alloc::Global;
use std::sync::Wait;

/// The events go on to all that the pass has seen. Where it has seen more stores than they are known of, it sees what is there in the stream's
/// turn; else there is no turn. `Memory` leaves none of them, or what there was.
pub(crate) fn take_events<R: Wait>(
    rt: &R,
    alloc: Global,
    stream: &Stream<Event>,
    seat: &mut Seat<Event>,
    snapshot: &mut Known,
    stores: &mut u64,
) -> Result<(), Memory>
    requires stream { place_of_pass seat.old.pass ≡ place_of stream.now }
    requires taken { IsTaken stores.old snapshot.old.events (seen_by seat.old.pass) }
    ensures stream { place_of_pass seat.new.pass ≡ place_of_pass seat.old.pass }
    ensures begins { Begins (seen_by seat.old.pass) (seen_by seat.new.pass) }
    ensures looks { (reads seat.old.pass).looks ≤ (reads seat.new.pass).looks }
    ensures made { seat.new.made ≡ seat.old.made }
    ensures taken { IsTaken stores.new snapshot.new.events (seen_by seat.new.pass) }
    ensures all { OnOk result (snapshot.new.events ≡ covered (seen_by seat.new.pass)) }
    ensures receipts { snapshot.new.receipts ≡ snapshot.old.receipts }
    ensures accounts { snapshot.new.accounts ≡ snapshot.old.accounts }
{
    if seat.has_just(*stores) {
        return Ok(());
    }
    let parts = seat.look(rt, alloc, stream)?;
    *stores = 0;
    snapshot.advance_events(alloc, parts)?;
    *stores = seat.stores();
    Ok(())
}

/// The receipts go on to all that the pass has seen. Where it has seen more stores than they are known of, it sees what is there in the stream's
/// turn; else there is no turn. `Memory` leaves none of them, or what there was.
pub(crate) fn take_receipts<R: Wait>(
    rt: &R,
    alloc: Global,
    stream: &Stream<Receipt>,
    seat: &mut Seat<Receipt>,
    snapshot: &mut Known,
    stores: &mut u64,
) -> Result<(), Memory>
    requires stream { place_of_pass seat.old.pass ≡ place_of stream.now }
    requires taken { IsTaken stores.old snapshot.old.receipts (seen_by seat.old.pass) }
    ensures stream { place_of_pass seat.new.pass ≡ place_of_pass seat.old.pass }
    ensures begins { Begins (seen_by seat.old.pass) (seen_by seat.new.pass) }
    ensures looks { (reads seat.old.pass).looks ≤ (reads seat.new.pass).looks }
    ensures made { seat.new.made ≡ seat.old.made }
    ensures taken { IsTaken stores.new snapshot.new.receipts (seen_by seat.new.pass) }
    ensures all { OnOk result (snapshot.new.receipts ≡ covered (seen_by seat.new.pass)) }
    ensures events { snapshot.new.events ≡ snapshot.old.events }
    ensures accounts { snapshot.new.accounts ≡ snapshot.old.accounts }
{
    if seat.has_just(*stores) {
        return Ok(());
    }
    let parts = seat.look(rt, alloc, stream)?;
    *stores = 0;
    snapshot.advance_receipts(alloc, parts)?;
    *stores = seat.stores();
    Ok(())
}

/// The entries go on to all that the pass has seen. Where it has seen more stores than they are known of, it sees what is there in the stream's
/// turn; else there is no turn. `Memory` leaves none of them, or what there was.
pub(crate) fn take_accounts<R: Wait>(
    rt: &R,
    alloc: Global,
    stream: &Stream<Entry>,
    seat: &mut Seat<Entry>,
    snapshot: &mut Known,
    stores: &mut u64,
) -> Result<(), Memory>
    requires stream { place_of_pass seat.old.pass ≡ place_of stream.now }
    requires taken { IsTaken stores.old snapshot.old.accounts (seen_by seat.old.pass) }
    ensures stream { place_of_pass seat.new.pass ≡ place_of_pass seat.old.pass }
    ensures begins { Begins (seen_by seat.old.pass) (seen_by seat.new.pass) }
    ensures looks { (reads seat.old.pass).looks ≤ (reads seat.new.pass).looks }
    ensures made { seat.new.made ≡ seat.old.made }
    ensures taken { IsTaken stores.new snapshot.new.accounts (seen_by seat.new.pass) }
    ensures all { OnOk result (snapshot.new.accounts ≡ covered (seen_by seat.new.pass)) }
    ensures events { snapshot.new.events ≡ snapshot.old.events }
    ensures receipts { snapshot.new.receipts ≡ snapshot.old.receipts }
{
    if seat.has_just(*stores) {
        return Ok(());
    }
    let parts = seat.look(rt, alloc, stream)?;
    *stores = 0;
    snapshot.advance_accounts(alloc, parts)?;
    *stores = seat.stores();
    Ok(())
}
