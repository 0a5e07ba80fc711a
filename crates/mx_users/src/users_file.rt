//! The users file.
ghost use Rattle.std.specs.Prelude.{◌≡◌, ◌+◌, ◌==◌, ◌<◌, ◌^◌, ◌&&◌, true, false, length, Some, None, IfOk, IsErrOf, ok_or, option_map};
ghost use Rattle.std.specs.List.{slice_split};
ghost use Rattle.mx_ids.specs.Name.{is_access_token, is_device_name, is_localpart};
ghost use Rattle.mx_ids.specs.User.{user_id_text, is_user_id_text};
ghost use Rattle.mx_users.specs.UsersFile.{Reads, starts_full, users_in, users_of_lines, server_in, server_of, with_bytes, with_line, with_lines, with_parts, with_text};
ghost use Rattle.mx_users.specs.declared.fault.LineFault.{LineFault};

use crate::cuts::{cut, cut_line};
use crate::directory::Directory;
use crate::fault::{LineFault, UsersFault};
use crate::name_forms::{is_access_token, is_device_name, is_localpart, is_server_name};
use crate::user_list::{UserList, text_of};
use mx_ids::{Memory, Text, UserId, user_id};
use std::alloc::Global;

/// Reads a users file, whose form is this program's own. Its lines end with LF, which the last may
/// lack, and empty lines are passed over, but counted. The first other line is `server NAME`
/// (Appendices, Server Name). Each line behind it is `LOCALPART DEVICE TOKEN` with single spaces
/// between: a device of the user `@LOCALPART:NAME` (Appendices, User Identifiers), whose requests
/// carry the access token. Users are numbered by first appearance, devices by line, from 0.
///
/// `Line` has the number, from 1, of the first line that isn't UTF-8 or isn't of its form, has a user
/// id above 255 bytes, repeats a device of a user or a token, or is past 4,096 users or 8,192 devices.
/// It is `Line(1)` where all lines are empty.
///
/// The time is linear in the file but for a search in an ordered index at each line.
pub fn read_users(alloc: Global, bytes: &[u8]) -> Result<Directory, UsersFault>
    ensures { Reads (users_in bytes.now) (λ d. d) result }
{
    let UserList {
        users,
        numbers,
        tokens,
        ..
    } = read_file(alloc, bytes)?;
    Ok(Directory {
        users,
        numbers,
        tokens,
    })
}

fn read_file(alloc: Global, bytes: &[u8]) -> Result<UserList, UsersFault>
    ensures { Reads (users_in bytes.now) (λ l. l.users) result }
{
    let (before, rest) = skip_empty(bytes);
    if rest.is_empty() {
        return Err(UsersFault::Line(1));
    }
    let (line, after) = cut_line(rest);
    let Some(server) = server_in(line) else {
        return Err(UsersFault::Line(before + 1));
    };
    let list = UserList::new(alloc, text_of(alloc, server)?);
    read_lines(alloc, list, before + 1, after)
}

/// The number of empty lines at the front, and what stands behind them.
fn skip_empty(bytes: &[u8]) -> (u64, &[u8])
    ensures lines { users_of_lines 0 (slice_split (λ c. c == 10) bytes.now) ≡ users_of_lines result.0 (slice_split (λ c. c == 10) result.1.now) }
    ensures sizes { result.0 + length result.1.now ≡ length bytes.now }
    ensures full { starts_full result.1.now }
{
    let mut before = 0;
    let mut rest = bytes;
    'lines: while let [b'\n', after @ ..] = rest {
        before += 1;
        rest = after;
    }
    (before, rest)
}

/// The list with the users and devices of the lines of `bytes`, behind `before` other lines.
fn read_lines(
    alloc: Global,
    mut list: UserList,
    mut before: u64,
    bytes: &[u8],
) -> Result<UserList, UsersFault>
    requires { before + length bytes.now < 2 ^ 64 }
    ensures { Reads (with_lines list.users before (slice_split (λ c. c == 10) bytes.now)) (λ l. l.users) result }
{
    let mut rest = bytes;
    'lines: while !rest.is_empty() {
        let (line, after) = cut_line(rest);
        before += 1;
        list = read_numbered(alloc, list, before, line)?;
        rest = after;
    }
    Ok(list)
}

/// The list with the user and the device of the line of a number.
fn read_numbered(
    alloc: Global,
    list: UserList,
    number: u64,
    line: &[u8],
) -> Result<UserList, UsersFault>
    ensures { Reads (ok_or (with_line list.users line.now) number) (λ l. l.users) result }
{
    match read_line(alloc, list, line) {
        Ok(list) => Ok(list),
        Err(LineFault::Broken) => Err(UsersFault::Line(number)),
        Err(LineFault::Memory(refused)) => Err(UsersFault::Memory(refused)),
    }
}

/// The server that the first line names, or `None` where it isn't of its form.
fn server_in(line: &[u8]) -> Option<&str>
    ensures { option_map (λ s. s.now) result ≡ server_in line.now }
{
    match str::from_utf8(line) {
        Ok(line) => server_of(line),
        Err(_) => None,
    }
}

#[tactic(auto, unfolding(crate::specs::UsersFile::server_of))]
fn server_of(line: &str) -> Option<&str>
    ensures { option_map (λ s. s.now) result ≡ server_of line.now }
{
    let (word, name) = cut(line, ' ');
    if word == "server" && is_server_name(name) {
        Some(name)
    } else {
        None
    }
}

/// The list with the user and the device of one line, or as it is where the line is empty. `Broken`
/// exactly where the line isn't of its form or may not follow.
fn read_line(alloc: Global, list: UserList, line: &[u8]) -> Result<UserList, LineFault>
    ensures found { IfOk result (λ l. with_line list.users line.now ≡ Some l.users) }
    ensures broken { IsErrOf result LineFault.Broken → with_line list.users line.now ≡ None }
{
    if line.is_empty() {
        return Ok(list);
    }
    read_bytes(alloc, list, line)
}

fn read_bytes(alloc: Global, list: UserList, line: &[u8]) -> Result<UserList, LineFault>
    ensures found { IfOk result (λ l. with_bytes list.users line.now ≡ Some l.users) }
    ensures broken { IsErrOf result LineFault.Broken → with_bytes list.users line.now ≡ None }
{
    match str::from_utf8(line) {
        Ok(text) => read_text(alloc, list, text),
        Err(_) => Err(LineFault::Broken),
    }
}

fn read_text(alloc: Global, list: UserList, line: &str) -> Result<UserList, LineFault>
    ensures found { IfOk result (λ l. with_text list.users line.now ≡ Some l.users) }
    ensures broken { IsErrOf result LineFault.Broken → with_text list.users line.now ≡ None }
{
    let (localpart, rest) = cut(line, ' ');
    let (name, token) = cut(rest, ' ');
    read_parts(alloc, list, localpart, name, token)
}

#[tactic(auto, unfolding(crate::specs::UsersFile::with_parts))]
fn read_parts(
    alloc: Global,
    list: UserList,
    localpart: &str,
    name: &str,
    token: &str,
) -> Result<UserList, LineFault>
    ensures found { IfOk result (λ l. with_parts list.users localpart.now name.now token.now ≡ Some l.users) }
    ensures broken { IsErrOf result LineFault.Broken → with_parts list.users localpart.now name.now token.now ≡ None }
{
    let id = id_in(alloc, localpart, name, token, list.users.server.as_str())?;
    let (list, user) = list.with_user(alloc, id)?;
    list.with_device(alloc, user, name, token)
}

/// The user id of a line of these parts. `Broken` exactly where they aren't of their form.
fn id_in(
    alloc: Global,
    localpart: &str,
    name: &str,
    token: &str,
    server: &str,
) -> Result<UserId, LineFault>
    ensures found { IfOk result (λ id. (id ≡ user_id_text localpart.now server.now) × ((is_localpart localpart.now && is_user_id_text id && is_device_name name.now && is_access_token token.now) ≡ true)) }
    ensures broken { IsErrOf result LineFault.Broken → (is_localpart localpart.now && is_user_id_text (user_id_text localpart.now server.now) && is_device_name name.now && is_access_token token.now) ≡ false }
{
    if !is_localpart(localpart) || !is_device_name(name) || !is_access_token(token) {
        return Err(LineFault::Broken);
    }
    checked_id(id_text(alloc, localpart, server)?)
}

/// The text of a user id, whatever its length.
fn id_text(alloc: Global, localpart: &str, server: &str) -> Result<Text, Memory>
    ensures { IfOk result (λ t. t ≡ user_id_text localpart.now server.now) }
{
    Ok(Text::from_string(format!(in alloc; "@{localpart}:{server}")?))
}

/// The user id that a text is. `Broken` exactly where it is none.
fn checked_id(text: Text) -> Result<UserId, LineFault>
    ensures found { IfOk result (λ id. (id ≡ text) × (is_user_id_text id ≡ true)) }
    ensures broken { IsErrOf result LineFault.Broken → is_user_id_text text ≡ false }
{
    match user_id(text) {
        Some(id) => Ok(id),
        None => Err(LineFault::Broken),
    }
}
