//! The rules for member events. Each function says whether a rule refuses an event.
ghost use Rattle.std.specs.Prelude.{◌≡◌, option_map};
ghost use Rattle.mx_event.specs.Kinds.{is_text};
ghost use Rattle.mx_event.specs.State.{is_banned, is_invited, is_joined, membership_of};
ghost use Rattle.mx_event.specs.Denied.{breaks_ban, breaks_invite, breaks_join, breaks_leave, breaks_member_form, is_first_join, is_kick, is_open, is_open_by, is_over_target, is_own_leave, reaches};

use crate::kinds::{gives, is_own, is_text, target};
use crate::levels::{ban_level, invite_level, kick_level, level_of};
use crate::state::AuthState;
use mx_event::Event;
use mx_ids::{Text, is_user_id};

fn has_membership(membership: &str, user: &str, state: &AuthState) -> bool
    ensures { result ≡ is_text membership.now (membership_of user.now state.now.events) }
{
    is_text(membership, state.membership_of(user))
}

pub(crate) fn is_joined(user: &str, state: &AuthState) -> bool
    ensures { result ≡ is_joined user.now state.now.events }
{
    has_membership("join", user, state)
}

fn is_invited(user: &str, state: &AuthState) -> bool
    ensures { result ≡ is_invited user.now state.now.events }
{
    has_membership("invite", user, state)
}

fn is_banned(user: &str, state: &AuthState) -> bool
    ensures { result ≡ is_banned user.now state.now.events }
{
    has_membership("ban", user, state)
}

/// Whether the sender has at least this level.
pub(crate) fn reaches(level: i64, event: &Event, state: &AuthState) -> bool
    ensures { result ≡ reaches level event.now state.now.events }
{
    level <= level_of(state, event.sender.as_str())
}

/// Whether the target's level is below the sender's.
fn is_over_target(event: &Event, state: &AuthState) -> bool
    ensures { result ≡ is_over_target event.now state.now.events }
{
    level_of(state, target(event)) < level_of(state, event.sender.as_str())
}

/// Rule 2: a member event of no user, or with another membership than `join`, `invite`, `leave` and `ban`.
pub(crate) fn breaks_member_form(event: &Event, state: &AuthState) -> bool
    ensures { result ≡ breaks_member_form event.now state.now.events }
{
    !is_user_id(target(event))
        || !(gives("join", event)
            || gives("invite", event)
            || gives("leave", event)
            || gives("ban", event))
}

/// Whether an event is the creator's own join, right after the create event.
fn is_first_join(event: &Event, state: &AuthState) -> bool
    ensures { result ≡ is_first_join event.now state.now.events }
{
    match state.creator() {
        Some(creator) => {
            state.has_one_event() && is_own(event) && creator.as_str() == event.sender.as_str()
        }
        None => false,
    }
}

/// Whether the join rule lets one in who is or isn't invited or joined already.
fn is_open(rule: Option<&Text>, is_member: bool) -> bool
    ensures { result ≡ is_open (option_map (λ t. t.now) rule.entry) is_member }
{
    match rule {
        Some(rule) => is_open_by(rule.as_str(), is_member),
        None => false,
    }
}

fn is_open_by(rule: &str, is_member: bool) -> bool
    ensures { result ≡ is_open_by rule.now is_member }
{
    rule == "public"
        || (is_member
            && (rule == "invite"
                || rule == "knock"
                || rule == "restricted"
                || rule == "knock_restricted"))
}

/// Rule 3: a join, unless it is the first one, or the sender's own, who isn't banned and whom the join rule lets in.
pub(crate) fn breaks_join(event: &Event, state: &AuthState) -> bool
    ensures { result ≡ breaks_join event.now state.now.events }
{
    let sender = event.sender.as_str();
    !is_first_join(event, state)
        && !(is_own(event)
            && !is_banned(sender, state)
            && is_open(
                state.join_rule(),
                is_invited(sender, state) || is_joined(sender, state),
            ))
}

/// Rule 4: an invite, unless by a joined sender with the level, of one who is neither joined nor banned.
pub(crate) fn breaks_invite(event: &Event, state: &AuthState) -> bool
    ensures { result ≡ breaks_invite event.now state.now.events }
{
    !(is_joined(event.sender.as_str(), state)
        && !is_joined(target(event), state)
        && !is_banned(target(event), state)
        && reaches(invite_level(state), event, state))
}

/// Whether an event is one's own leave, of an invitation, a stay or a knock.
fn is_own_leave(event: &Event, state: &AuthState) -> bool
    ensures { result ≡ is_own_leave event.now state.now.events }
{
    is_own(event)
        && (is_invited(target(event), state)
            || is_joined(target(event), state)
            || has_membership("knock", target(event), state))
}

/// Whether an event is a kick or the end of a ban that its sender may send.
fn is_kick(event: &Event, state: &AuthState) -> bool
    ensures { result ≡ is_kick event.now state.now.events }
{
    !is_own(event)
        && is_joined(event.sender.as_str(), state)
        && (!is_banned(target(event), state) || reaches(ban_level(state), event, state))
        && reaches(kick_level(state), event, state)
        && is_over_target(event, state)
}

/// Rule 5: a leave, unless one's own, or of another by a joined sender with the levels, over the target's.
pub(crate) fn breaks_leave(event: &Event, state: &AuthState) -> bool
    ensures { result ≡ breaks_leave event.now state.now.events }
{
    !(is_own_leave(event, state) || is_kick(event, state))
}

/// Rule 6: a ban, unless by a joined sender with the level, over the target's.
pub(crate) fn breaks_ban(event: &Event, state: &AuthState) -> bool
    ensures { result ≡ breaks_ban event.now state.now.events }
{
    !(is_joined(event.sender.as_str(), state)
        && reaches(ban_level(state), event, state)
        && is_over_target(event, state))
}
