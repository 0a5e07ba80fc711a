//! Receipts: by event, by kind, by user.

ghost use Rattle.std.specs.Prelude.{◌≡◌, ◌++◌, ◌∷◌, [], List, ℕ, true, filter, map, IfOk, IsSome, OnOk};
ghost use Rattle.std.specs.BTreeMap as tree;
ghost use Rattle.std.specs.Cmp.Lexicographic.{slice_cmp};
ghost use Rattle.std.specs.Ordering.{is_lt, nat_cmp};
ghost use Rattle.mx_ids.specs.Ids.{event_id_text};
ghost use Rattle.mx_fold.specs.Latest.{latest, set_item};
ghost use Rattle.mx_json.specs.Keys.{are_ordered, keys_of, with_member};
ghost use Rattle.mx_snapshot.specs.Looks.{all_now};
ghost use Rattle.mx_sync_json.specs.Groups as groups;
ghost use Rattle.mx_sync_json.specs.Receipts as form;

use crate::accounts::data_form;
use crate::members::{events_form, put, single};
use crate::numbers::number;
use mx_ids::{Copied, Memory, Seq, Text, write_event_id};
use mx_json::{Json, Members};
use mx_receipt::{Receipt, ReceiptKind};
use std::alloc::Global;
use std::collections::BTreeMap;

/// The receipts of a room as events: one, or none where there is no receipt (Client-Server API, m.receipt).
pub(crate) fn ephemeral_form(
    alloc: Global,
    server: &str,
    receipts: &Seq<Receipt>,
) -> Result<Json, Memory>
    ensures { IfOk result (λ j. j ≡ form.ephemeral_form server.now receipts.now) }
{
    let events = receipt_events(alloc, server, receipts.as_slice())?;
    events_form(alloc, events)
}

fn receipt_events(alloc: Global, server: &str, receipts: &[Receipt]) -> Result<Vec<Json>, Memory>
    ensures { IfOk result (λ made. made.items ≡ form.receipt_events server.now receipts.now) }
{
    let mut made = Vec::new(alloc);
    if receipts.is_empty() {
        return Ok(made);
    }
    let content = content_form(alloc, server, receipts)?;
    let event = data_form(alloc, "m.receipt", content)?;
    made.push(event)?;
    Ok(made)
}

fn content_form(alloc: Global, server: &str, receipts: &[Receipt]) -> Result<Json, Memory>
    ensures { IfOk result (λ j. j ≡ form.content_form server.now receipts.now) }
{
    let by_event = group(alloc, receipts)?;
    let named = last_of_each(alloc, receipts)?;
    let mut members = Members::new(alloc);
    'events: for (at, receipt) in &named {
        let kinds = kinds_at(alloc, &by_event, at)?;
        put_event(alloc, &mut members, server, receipt, kinds)?;
    }
    Ok(Json::Object(members))
}

/// The last receipt of each event.
fn last_of_each(alloc: Global, receipts: &[Receipt]) -> Result<BTreeMap<u64, &Receipt>, Memory>
    ensures { IfOk result (λ m. map groups.event_now m.entries ≡ latest nat_cmp form.event_at form.itself receipts.now) }
{
    let mut named = BTreeMap::new(alloc);
    'receipts: for receipt in receipts {
        set(&mut named, receipt)?;
    }
    Ok(named)
}

fn set<'a>(named: &mut BTreeMap<u64, &'a Receipt>, receipt: &'a Receipt) -> Result<(), Memory>
    ensures { OnOk result (map groups.event_now named.new.entries ≡ set_item nat_cmp form.event_at form.itself (map groups.event_now named.old.entries) receipt.now) }
{
    named.insert(receipt.event.at, receipt)?;
    Ok(())
}

/// The receipts of each event, in their order. The time is that of a look-up for each receipt.
fn group(alloc: Global, receipts: &[Receipt]) -> Result<BTreeMap<u64, Vec<&Receipt>>, Memory>
    ensures { IfOk result (λ m. (p : ℕ) → groups.list_at m p ≡ form.of_event p receipts.now) }
{
    let mut lists = BTreeMap::new(alloc);
    'receipts: for receipt in receipts {
        add(alloc, &mut lists, receipt)?;
    }
    Ok(lists)
}

fn add<'a>(
    alloc: Global,
    lists: &mut BTreeMap<u64, Vec<&'a Receipt>>,
    receipt: &'a Receipt,
) -> Result<(), Memory>
    ensures { OnOk result ((p : ℕ) → groups.list_at lists.new p ≡ groups.list_at lists.old p ++ form.of_event p (receipt.now ∷ [])) }
{
    if lists.contains_key(&receipt.event.at) {
        add_more(lists, receipt)
    } else {
        let mut list = Vec::new(alloc);
        list.push(receipt)?;
        lists.insert(receipt.event.at, list)?;
        Ok(())
    }
}

fn add_more<'a>(
    lists: &mut BTreeMap<u64, Vec<&'a Receipt>>,
    receipt: &'a Receipt,
) -> Result<(), Memory>
    requires { IsSome (tree.get nat_cmp lists.old receipt.now.event.at) }
    ensures { OnOk result ((p : ℕ) → groups.list_at lists.new p ≡ groups.list_at lists.old p ++ form.of_event p (receipt.now ∷ [])) }
{
    if let Some(list) = lists.get_mut(&receipt.event.at) {
        list.push(receipt)?;
    }
    Ok(())
}

fn put_event(
    alloc: Global,
    members: &mut Members<Json>,
    server: &str,
    named: &Receipt,
    kinds: Json,
) -> Result<(), Memory>
    ensures { OnOk result (members.new ≡ with_member (event_id_text server.now named.now.event) kinds members.old) }
{
    let mut id = Text::new(alloc);
    write_event_id(alloc, &named.event, server, &mut id)?;
    members.set(id, kinds)
}

/// The receipts of the event at a position.
fn kinds_at(
    alloc: Global,
    by_event: &BTreeMap<u64, Vec<&Receipt>>,
    at: &u64,
) -> Result<Json, Memory>
    ensures { IfOk result (λ j. j ≡ form.kinds_form (groups.list_at by_event.now at.now)) }
{
    match by_event.get(at) {
        Some(list) => kinds_form(alloc, list.as_slice()),
        None => Ok(Json::Object(Members::new(alloc))),
    }
}

fn kinds_form(alloc: Global, receipts: &[&Receipt]) -> Result<Json, Memory>
    ensures { IfOk result (λ j. j ≡ form.kinds_form (all_now receipts.now)) }
{
    let public = of_kind(alloc, receipts, ReceiptKind::Read)?;
    let private = of_kind(alloc, receipts, ReceiptKind::Private)?;
    let mut members = Members::new(alloc);
    put_kind(alloc, &mut members, "m.read", &public)?;
    put_kind(alloc, &mut members, "m.read.private", &private)?;
    Ok(Json::Object(members))
}

fn of_kind<'a>(
    alloc: Global,
    receipts: &[&'a Receipt],
    kind: ReceiptKind,
) -> Result<Vec<&'a Receipt>, Memory>
    ensures { IfOk result (λ made. all_now made.items ≡ filter (form.is_kind kind) (all_now receipts.now)) }
{
    let mut made = Vec::new(alloc);
    'receipts: for receipt in receipts {
        if receipt.kind == kind {
            made.push(*receipt)?;
        }
    }
    Ok(made)
}

/// Puts the receipts of a kind, where there are some.
fn put_kind(
    alloc: Global,
    members: &mut Members<Json>,
    key: &str,
    receipts: &[&Receipt],
) -> Result<(), Memory>
    requires { are_ordered (keys_of members.old ++ key.now ∷ []) ≡ true }
    ensures put { OnOk result (members.new ≡ members.old ++ groups.member_of key.now (all_now receipts.now)) }
    ensures next { OnOk result ((k : List ℕ) → is_lt (slice_cmp nat_cmp key.now k) ≡ true → are_ordered (keys_of members.new ++ k ∷ []) ≡ true) }
{
    if receipts.is_empty() {
        return Ok(());
    }
    let users = users_form(alloc, receipts)?;
    put(alloc, members, key, users)
}

fn users_form(alloc: Global, receipts: &[&Receipt]) -> Result<Json, Memory>
    ensures { IfOk result (λ j. j ≡ form.users_form (all_now receipts.now)) }
{
    let mut members = Members::new(alloc);
    'receipts: for receipt in receipts {
        put_mark(alloc, &mut members, receipt)?;
    }
    Ok(Json::Object(members))
}

fn put_mark(alloc: Global, members: &mut Members<Json>, receipt: &Receipt) -> Result<(), Memory>
    ensures { OnOk result (members.new ≡ form.with_mark members.old receipt.now) }
{
    let user = receipt.user.as_text().copy(alloc)?;
    let mark = single(alloc, "ts", number(receipt.ts))?;
    members.set(user, mark)
}
