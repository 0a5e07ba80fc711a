//! Whether those who are invited are users of the server.
ghost use Rattle.std.specs.Prelude.{◌≡◌, IfOk, OnOk, codes, option_map};
ghost use Rattle.std.specs.List.{filter_map};
ghost use Rattle.std.specs.Option.{option_to_list};
ghost use Rattle.mx_json.specs.Fields.{text_of};
ghost use Rattle.mx_create.specs.Blocks.{are_known, invites};
ghost use Rattle.mx_create.specs.Bodies.{invited, listed};
ghost use Rattle.mx_create.specs.Strangers.{Adds, Removes, invited_by};

use crate::body::{is_text_at, listed, text_or_empty};
use mx_event::event_types::MEMBER;
use mx_ids::{Memory, UserId, Users};
use mx_json::Json;
use std::alloc::Global;
use std::collections::BTreeSet;

/// Whether all whom a body of `POST /createRoom` invites, by `invite` or by a member event of
/// `initial_state`, are users of the server. Each invitation costs a look-up among those who are
/// invited, and so does each user where someone is.
pub(crate) fn are_known<'a>(alloc: Global, users: &'a Users, ask: &'a Json) -> Result<bool, Memory>
    ensures { IfOk result (λ known. known ≡ are_known users.now ask.now) }
{
    let mut strangers: BTreeSet<&str> = BTreeSet::new(alloc);
    add_invited(&mut strangers, ask)?;
    add_initial(&mut strangers, ask)?;
    remove(&mut strangers, users.users.as_slice());
    Ok(strangers.is_empty())
}

/// Adds the users that `invite` lists.
fn add_invited<'a>(strangers: &mut BTreeSet<&'a str>, ask: &'a Json) -> Result<(), Memory>
    ensures { OnOk result (Adds (invited ask.now) strangers.old strangers.new) }
{
    'users: for user in listed(ask, "invite") {
        add(strangers, as_str(user))?;
    }
    Ok(())
}

/// The text that a value is.
fn as_str(user: &Json) -> Option<&str>
    ensures { option_map (λ id. id.now) result ≡ text_of user.now }
{
    Some(user.as_text()?.as_str())
}

/// Adds the users that the entries of `initial_state` invite.
fn add_initial<'a>(strangers: &mut BTreeSet<&'a str>, ask: &'a Json) -> Result<(), Memory>
    ensures { OnOk result (Adds (filter_map invited_by (listed (codes "initial_state") ask.now)) strangers.old strangers.new) }
{
    'entries: for entry in listed(ask, "initial_state") {
        add(strangers, invited_by(entry))?;
    }
    Ok(())
}

/// Whom an entry of `initial_state` invites.
fn invited_by(entry: &Json) -> Option<&str>
    ensures { option_map (λ id. id.now) result ≡ invited_by entry.now }
{
    if invites(entry) {
        Some(text_or_empty(entry, "state_key"))
    } else {
        None
    }
}

/// Whether an entry of `initial_state` is a member event that invites.
fn invites(entry: &Json) -> bool
    ensures { result ≡ invites entry.now }
{
    is_text_at(entry, "type", MEMBER)
        && match entry.field("content") {
            Some(content) => is_text_at(content, "membership", "invite"),
            None => false,
        }
}

fn add<'a>(strangers: &mut BTreeSet<&'a str>, user: Option<&'a str>) -> Result<(), Memory>
    ensures { OnOk result (Adds (option_to_list (option_map (λ id. id.now) user.entry)) strangers.old strangers.new) }
{
    if let Some(user) = user {
        strangers.insert(user)?;
    }
    Ok(())
}

/// Takes users out of those who are invited. The users are walked only where someone is.
fn remove<'a>(strangers: &mut BTreeSet<&'a str>, users: &'a [UserId])
    ensures { Removes users.now strangers.old strangers.new }
{
    if strangers.is_empty() {
        return;
    }
    'users: for user in users {
        strangers.remove(&user.as_str());
    }
}
