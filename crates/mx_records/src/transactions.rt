//! Transactions as values.

ghost use Rattle.std.specs.Prelude.{◌≡◌, [], ◌∷◌, ◌++◌, map, IfOk, IfSome, OnOk, Some, option_map};
ghost use Rattle.mx_json.specs.Fields.{text_of};
ghost use Rattle.mx_json.specs.declared.value.Json.TheVariants as json;
ghost use Rattle.mx_records.specs.Values.{each, option_json, option_read, txn_by, txn_in, txn_json, txn_read};

use crate::fault::RecordFault;
use crate::values::{number_of, push_number, push_text};
use mx_event::Txn;
use mx_ids::{Copied, Memory, Seq, Text};
use mx_json::Json;
use std::alloc::Global;

/// Puts a transaction behind other values, or null where there is none.
pub(crate) fn push_if_txn(
    alloc: Global,
    parts: &mut Seq<Json>,
    txn: Option<&Txn>,
) -> Result<(), RecordFault>
    ensures { OnOk result (parts.new ≡ parts.old ++ option_json txn_json (option_map (λ t. t.now) txn.entry) ∷ []) }
{
    match txn {
        Some(txn) => push_txn(alloc, parts, txn),
        None => Ok(parts.push(Json::Null)?),
    }
}

fn push_txn(alloc: Global, parts: &mut Seq<Json>, txn: &Txn) -> Result<(), RecordFault>
    ensures { OnOk result (parts.new ≡ parts.old ++ txn_json txn.now ∷ []) }
{
    let path = path_value(alloc, &txn.path)?;
    let mut own = Seq::new(alloc);
    push_number(&mut own, u64::from(txn.device))?;
    push_text(alloc, &mut own, &txn.id)?;
    own.push(path)?;
    parts.push(Json::List(own))?;
    Ok(())
}

/// The parts of a path, each a text.
fn path_value(alloc: Global, path: &Seq<Text>) -> Result<Json, Memory>
    ensures { IfOk result (λ j. j ≡ json.List (map json.Text path.now)) }
{
    let mut parts = Seq::new(alloc);
    'parts: for part in path.as_slice() {
        push_text(alloc, &mut parts, part)?;
    }
    Ok(Json::List(parts))
}

/// The parts of a transaction, as they are seen in a value.
#[derive(Clone, Copy)]
pub(crate) struct SeenTxn<'a> {
    pub(crate) device: u32,
    pub(crate) id: &'a Text,
    pub(crate) path: &'a Seq<Json>,
}

/// The transaction that a value says, or nothing where it is null.
pub(crate) fn txn_if(alloc: Global, json: &Json) -> Result<Option<Option<Txn>>, Memory>
    ensures { IfOk result (λ o. IfSome o (λ txn. option_read txn_read json.now ≡ Some txn)) }
{
    match json {
        Json::Null => Ok(Some(None)),
        Json::List(parts) => match read_txn(alloc, parts.as_slice())? {
            Some(txn) => Ok(Some(Some(txn))),
            None => Ok(None),
        },
        _ => Ok(None),
    }
}

fn read_txn(alloc: Global, parts: &[Json]) -> Result<Option<Txn>, Memory>
    ensures { IfOk result (λ o. IfSome o (λ txn. txn_in parts.now ≡ Some txn)) }
{
    let Some(seen) = seen_txn(parts) else {
        return Ok(None);
    };
    let Some(path) = path_of(alloc, seen.path)? else {
        return Ok(None);
    };
    Ok(Some(Txn {
        device: seen.device,
        id: seen.id.copy(alloc)?,
        path,
    }))
}

/// The parts of a transaction in their places; its path isn't read yet.
fn seen_txn(parts: &[Json]) -> Option<SeenTxn<'_>>
    ensures { IfSome result (λ s. txn_in parts.now ≡ txn_by (Some s.device) (Some s.id.now) (each text_of s.path.now)) }
{
    let [device, id, path] = parts else {
        return None;
    };
    let ((device, id), path) = number_of(device).zip(id.as_text()).zip(path.as_list())?;
    if device > 4_294_967_295 {
        return None;
    }
    Some(SeenTxn {
        device: device as u32,
        id,
        path,
    })
}

/// The texts that values are; `None` where one of them is no text.
fn path_of(alloc: Global, values: &Seq<Json>) -> Result<Option<Seq<Text>>, Memory>
    ensures { IfOk result (λ o. IfSome o (λ path. each text_of values.now ≡ Some path)) }
{
    let mut path = Seq::new(alloc);
    'values: for value in values.as_slice() {
        match value.as_text() {
            Some(part) => path.push(part.copy(alloc)?)?,
            None => return Ok(None),
        }
    }
    Ok(Some(path))
}
