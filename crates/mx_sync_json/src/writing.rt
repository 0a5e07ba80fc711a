//! The reply as a whole.

ghost use Rattle.std.specs.Prelude.{◌≡◌, [], IfOk, OnOk};
ghost use Rattle.mx_ids.specs.Sync.{sync_text};
ghost use Rattle.mx_json.specs.declared.value.Json.TheVariants as json;
ghost use Rattle.mx_sync_json.specs.Replies as form;

use crate::accounts::account_form;
use crate::members::put;
use crate::rooms::{invited_rooms, joined_rooms, left_rooms};
use crate::shown::Reader;
use mx_ids::{Memory, SyncToken, Text, write_sync_token};
use mx_json::{Json, Members};
use mx_sync::Reply;
use std::alloc::Global;

/// The reply to a sync as a device sees it (Client-Server API, Syncing): events in client form without their room, rooms by
/// the texts of their ids. `server` is the name of the server; the device is a number of the users file.
pub fn reply_form(alloc: Global, server: &str, device: u32, reply: &Reply) -> Result<Json, Memory>
    ensures { IfOk result (λ j. j ≡ form.reply_form server.now device reply.now) }
{
    let mut members = Members::new(alloc);
    put_reply(alloc, &mut members, server, device, reply)?;
    Ok(Json::Object(members))
}

/// Puts the members of a reply into an object that has none.
fn put_reply(
    alloc: Global,
    members: &mut Members<Json>,
    server: &str,
    device: u32,
    reply: &Reply,
) -> Result<(), Memory>
    requires { members.old ≡ [] }
    ensures { OnOk result (json.Object members.new ≡ form.reply_form server.now device reply.now) }
{
    let account = account_form(alloc, &reply.account)?;
    put(alloc, members, "account_data", account)?;
    let next_batch = token_text(alloc, &reply.next)?;
    put(alloc, members, "next_batch", Json::Text(next_batch))?;
    let rooms = rooms_form(alloc, server, device, reply)?;
    put(alloc, members, "rooms", rooms)?;
    Ok(())
}

fn token_text(alloc: Global, token: &SyncToken) -> Result<Text, Memory>
    ensures { IfOk result (λ t. t ≡ sync_text token.now) }
{
    let mut text = Text::new(alloc);
    write_sync_token(alloc, token, &mut text)?;
    Ok(text)
}

fn rooms_form(alloc: Global, server: &str, device: u32, reply: &Reply) -> Result<Json, Memory>
    ensures { IfOk result (λ j. j ≡ form.rooms_form server.now device reply.now) }
{
    let mut members = Members::new(alloc);
    put_rooms(alloc, &mut members, server, device, reply)?;
    Ok(Json::Object(members))
}

/// Puts the rooms by the user's membership into an object that has none.
fn put_rooms(
    alloc: Global,
    members: &mut Members<Json>,
    server: &str,
    device: u32,
    reply: &Reply,
) -> Result<(), Memory>
    requires { members.old ≡ [] }
    ensures { OnOk result (json.Object members.new ≡ form.rooms_form server.now device reply.now) }
{
    let to = Reader {
        server,
        device,
        front: reply.next.e,
    };
    let invited = invited_rooms(alloc, server, &reply.invited)?;
    put(alloc, members, "invite", Json::Object(invited))?;
    let joined = joined_rooms(alloc, &to, &reply.joined)?;
    put(alloc, members, "join", Json::Object(joined))?;
    let left = left_rooms(alloc, &to, &reply.left)?;
    put(alloc, members, "leave", Json::Object(left))?;
    Ok(())
}
