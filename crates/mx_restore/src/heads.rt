//! The first line of a journal, and its lines of devices.

ghost use Rattle.std.specs.Prelude.{◌≡◌, ◌-◌, ◌^◌, true, pos, Some, OnOk, codes, min};
ghost use Rattle.mx_event.specs.Kinds.{is_text};
ghost use Rattle.mx_json.specs.Fields.{text_of};
ghost use Rattle.mx_restore.specs.Heads.{AddsLines, are_devices, devices_in, is_device, is_first_line, is_head};
ghost use Rattle.mx_restore.specs.Said.{name_of};

use crate::records::name_of;
use mx_ids::{Copied, Memory, Seq, Text, Users};
use mx_journal::{LineFault, add_line};
use mx_json::Json;
use std::alloc::Global;

/// Which form the lines of a journal have.
const VERSION: i64 = 1;

/// Puts the first line of a journal: the server, and the number of writers of each stream.
pub fn put_head(
    alloc: Global,
    lines: &mut Vec<u8>,
    server: &Text,
    writers: u8,
) -> Result<(), Memory>
    ensures { OnOk result (AddsLines lines.old.items lines.new.items) }
{
    let mut parts = Seq::new(alloc);
    parts.push(text_value(alloc, "mxsync")?)?;
    parts.push(Json::Int(VERSION))?;
    parts.push(Json::Text(server.copy(alloc)?))?;
    parts.push(Json::Int(i64::from(writers)))?;
    put_value(alloc, lines, &Json::List(parts))
}

/// Puts the line of the devices of the users file from a number on: the user and the name of each.
pub fn put_devices(
    alloc: Global,
    lines: &mut Vec<u8>,
    users: &Users,
    from: usize,
) -> Result<(), Memory>
    ensures { OnOk result (AddsLines lines.old.items lines.new.items) }
{
    let mut parts = Seq::new(alloc);
    parts.push(text_value(alloc, "devices")?)?;
    parts.push(Json::Int(number_of(from)))?;
    parts.push(device_values(alloc, users, from)?)?;
    put_value(alloc, lines, &Json::List(parts))
}

fn device_values(alloc: Global, users: &Users, from: usize) -> Result<Json, Memory> {
    let mut values = Seq::new(alloc);
    'devices: for device in users.devices.as_slice().iter().skip(from) {
        let Some(user) = users.users.get(device.user as usize) else {
            break;
        };
        let mut parts = Seq::new(alloc);
        parts.push(Json::Text(user.as_text().copy(alloc)?))?;
        parts.push(Json::Text(device.name.copy(alloc)?))?;
        values.push(Json::List(parts))?;
    }
    Ok(Json::List(values))
}

/// The number of a device, as a value has it.
fn number_of(device: usize) -> i64
    ensures { result ≡ pos (min device (2 ^ 63 - 1)) }
{
    i64::try_from(device).unwrap_or(i64::MAX)
}

fn text_value(alloc: Global, text: &str) -> Result<Json, Memory> {
    let mut own = Text::new(alloc);
    own.push_str(text)?;
    Ok(Json::Text(own))
}

/// Puts the line of a value.
fn put_value(alloc: Global, lines: &mut Vec<u8>, value: &Json) -> Result<(), Memory>
    ensures { OnOk result (AddsLines lines.old.items lines.new.items) }
{
    let mut text = Text::new(alloc);
    value.write(alloc, &mut text)?;
    match add_line(lines, text.as_str().as_bytes()) {
        Ok(()) => Ok(()),
        Err(LineFault::Memory(refused)) => Err(refused),
        // (a compact text has no end of a line in it)
        Err(LineFault::End) => Ok(()),
    }
}

/// Whether a value is that of the first line of a journal of this server with so many writers.
pub(crate) fn is_first(json: &Json, server: &Text, writers: u8) -> bool
    ensures is { result ≡ is_first_line server.now writers json.now }
    ensures named { result ≡ true → name_of json.now ≡ Some (codes "mxsync") }
{
    is_named(json, "mxsync") && is_head(json, server, writers)
}

/// Whether a value goes on, behind its name, as the first line of a journal of this server with so many writers.
fn is_head(json: &Json, server: &Text, writers: u8) -> bool
    ensures { result ≡ is_head server.now writers json.now }
{
    let Some(parts) = json.as_list() else {
        return false;
    };
    let [_, version, found, count] = parts.as_slice() else {
        return false;
    };
    version.as_int() == Some(VERSION)
        && is_text(found, server.as_str())
        && count.as_int() == Some(i64::from(writers))
}

/// How many devices a value has behind its name, where these are the ones of the users file from a number on.
pub(crate) fn devices_in(json: &Json, users: &Users, from: usize) -> Option<usize>
    ensures { result ≡ devices_in users.now from json.now }
{
    let [_, first, devices] = json.as_list()?.as_slice() else {
        return None;
    };
    if first.as_int() != Some(number_of(from)) {
        return None;
    }
    let devices = devices.as_list()?.as_slice();
    if are_devices(devices, users, from) {
        Some(devices.len())
    } else {
        None
    }
}

/// Whether values say the devices from a number on.
fn are_devices(values: &[Json], users: &Users, from: usize) -> bool
    ensures { result ≡ are_devices users.now from values.now }
{
    let mut at = from;
    'devices: for value in values {
        if !is_device(value, users, at) {
            return false;
        }
        at = at.saturating_add(1);
    }
    true
}

/// Whether a value says the device of a number.
fn is_device(json: &Json, users: &Users, at: usize) -> bool
    ensures { result ≡ is_device users.now at json.now }
{
    let (Some(parts), Some(device)) = (json.as_list(), users.devices.get(at)) else {
        return false;
    };
    let ([user, name], Some(id)) = (parts.as_slice(), users.users.get(device.user as usize)) else {
        return false;
    };
    is_text(user, id.as_str()) && is_text(name, device.name.as_str())
}

fn is_text(json: &Json, text: &str) -> bool
    ensures { result ≡ is_text text.now (text_of json.now) }
{
    match json.as_text() {
        Some(found) => found.as_str() == text,
        None => false,
    }
}

/// Whether a value begins with a text.
pub(crate) fn is_named(json: &Json, name: &str) -> bool
    ensures is { result ≡ is_text name.now (name_of json.now) }
    ensures named { result ≡ true → name_of json.now ≡ Some name.now }
{
    match name_of(json) {
        Some(found) => found.as_str() == name,
        None => false,
    }
}
