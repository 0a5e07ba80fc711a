//! How events are read as memberships and as settings of a room's history.

ghost use Rattle.std.specs.Prelude.{◌≡◌, option_map};
ghost use Rattle.mx_folding.specs.Visible as seen;
ghost use Rattle.mx_view.specs.Readings as read;
ghost use Rattle.mx_visible.specs.Kinds.{membership_from, setting_from};

use mx_event::Event;
use mx_event::event_types::{HISTORY_VISIBILITY, MEMBER};
use mx_ids::UserId;

/// The membership that a member event gives (Client-Server API, m.room.member).
#[derive(Clone, Copy, Debug, PartialEq, Eq)]
pub enum Membership {
    Join,
    Invite,
    Leave,
    Ban,
}

/// Who may see a room's history (Client-Server API, m.room.history_visibility).
#[derive(Clone, Copy, Debug, PartialEq, Eq)]
pub enum HistoryVisibility {
    WorldReadable,
    Shared,
    Invited,
    Joined,
}

/// Whether it is the user's own member event.
pub fn is_own(event: &Event, user: &UserId) -> bool
    ensures { result ≡ read.is_own user.now event.now }
{
    event.has_key(MEMBER, user.as_str())
}

/// Whether it is a room's history-visibility event.
pub fn is_setting(event: &Event) -> bool
    ensures { result ≡ read.is_setting event.now }
{
    event.has_key(HISTORY_VISIBILITY, "")
}

/// The membership that an event gives, if it is one of the four.
pub fn membership_of(event: &Event) -> Option<Membership>
    ensures { option_map membership_from result ≡ read.membership_of event.now }
{
    membership_as(event.content.text_at("membership")?.as_str())
}

fn membership_as(text: &str) -> Option<Membership>
    ensures { option_map membership_from result ≡ read.membership_as text.now }
{
    if text == "join" {
        Some(Membership::Join)
    } else if text == "invite" {
        Some(Membership::Invite)
    } else if text == "leave" {
        Some(Membership::Leave)
    } else if text == "ban" {
        Some(Membership::Ban)
    } else {
        None
    }
}

/// The setting that an event gives; an absent or unknown one is `Shared`.
pub fn setting_of(event: &Event) -> HistoryVisibility
    ensures { setting_from result ≡ read.setting_of event.now }
{
    match event.content.text_at("history_visibility") {
        Some(text) => setting_as(text.as_str()),
        None => HistoryVisibility::Shared,
    }
}

fn setting_as(text: &str) -> HistoryVisibility
    ensures { setting_from result ≡ read.setting_as text.now }
{
    if text == "world_readable" {
        HistoryVisibility::WorldReadable
    } else if text == "invited" {
        HistoryVisibility::Invited
    } else if text == "joined" {
        HistoryVisibility::Joined
    } else {
        HistoryVisibility::Shared
    }
}

pub(crate) fn is_join(membership: Option<Membership>) -> bool
    ensures { result ≡ seen.is_join (option_map membership_from membership) }
{
    matches!(membership, Some(Membership::Join))
}

pub(crate) fn is_invite(membership: Option<Membership>) -> bool
    ensures { result ≡ seen.is_invite (option_map membership_from membership) }
{
    matches!(membership, Some(Membership::Invite))
}
