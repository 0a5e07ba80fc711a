//! Whether an event is allowed.
ghost use Rattle.std.specs.Prelude.{◌≡◌, [], ◌∷◌, Some, None, MatchResult};
ghost use Rattle.mx_event.specs.Denied.{denied, first_broken, general_rules, membership_rule};

use crate::kinds::{CREATE, MEMBER, gives};
use crate::membership_rules::{
    breaks_ban, breaks_invite, breaks_join, breaks_leave, breaks_member_form,
};
use crate::rules::{
    breaks_create, breaks_level, breaks_power_change, breaks_power_form, breaks_redaction,
    breaks_sender, breaks_user_key,
};
use crate::state::AuthState;
use mx_event::Event;
use thiserror::Error;

/// An event is refused by an authorization rule (Room Version 11, Authorization rules).
#[derive(Clone, Copy, Debug, PartialEq, Eq, Error)]
#[error("forbidden by rule {rule}")]
pub struct Denial {
    /// The number of the first rule that refuses the event, 1 to 12. `allowed` lists them.
    pub rule: u8,
}

/// Whether an event may come next in its room, whose state is given: `Err` exactly where an authorization rule refuses it,
/// with the first such rule. Takes no memory. The rules, in their order (Room Version 11, Authorization rules):
///
/// 1. the create event is the first event, and no other is; no other rule is asked of it;
/// 2. a member event is about a user id, and gives `join`, `invite`, `leave` or `ban`;
/// 3. a join is the creator's, right after the create event, or the sender's own, who isn't banned, and whom the join rule
///    lets in;
/// 4. an invite is by a joined sender with the level, and of one who is neither joined nor banned;
/// 5. a leave is one's own, of an invitation, a stay or a knock, or of another by a joined sender with the level to kick and,
///    where the other is banned, to ban, and above the other's level;
/// 6. a ban is by a joined sender with the level, and above the other's level;
/// 7. the sender of any other event is joined,
/// 8. and has the level that the event needs;
/// 9. a state key that begins with `@` is the sender;
/// 10. power levels are whole numbers, and their maps go to whole numbers, `users` from user ids;
/// 11. power levels change no standing level from or to one above the sender's, and of another user none that the sender's
///     isn't above;
/// 12. a redaction names an event of the room that its sender sent, or the sender has the level (this server's own rule).
pub fn allowed(event: &Event, state: &AuthState) -> Result<(), Denial>
    ensures { MatchResult result (λ _. denied event.now state.now.events ≡ None) (λ denial. denied event.now state.now.events ≡ Some denial.rule) }
{
    match first_broken(event, state) {
        Some(rule) => Err(Denial { rule }),
        None => Ok(()),
    }
}

/// The first rule that refuses an event.
fn first_broken(event: &Event, state: &AuthState) -> Option<u8>
    ensures { result ≡ denied event.now state.now.events }
{
    if breaks_create(event, state) {
        Some(1)
    } else if event.is_of(CREATE) {
        None
    } else if !event.is_of(MEMBER) {
        general_rule(event, state)
    } else if breaks_member_form(event, state) {
        Some(2)
    } else {
        membership_rule(event, state)
    }
}

/// The rule for the membership that a member event gives, if it refuses the event.
fn membership_rule(event: &Event, state: &AuthState) -> Option<u8>
    ensures { result ≡ first_broken (membership_rule event.now state.now.events ∷ []) }
{
    let (rule, is_broken) = if gives("join", event) {
        (3, breaks_join(event, state))
    } else if gives("invite", event) {
        (4, breaks_invite(event, state))
    } else if gives("leave", event) {
        (5, breaks_leave(event, state))
    } else {
        (6, breaks_ban(event, state))
    };
    if is_broken { Some(rule) } else { None }
}

/// The first rule that refuses an event that is neither a create nor a member event.
fn general_rule(event: &Event, state: &AuthState) -> Option<u8>
    ensures { result ≡ first_broken (general_rules event.now state.now.events) }
{
    if breaks_sender(event, state) {
        Some(7)
    } else if breaks_level(event, state) {
        Some(8)
    } else if breaks_user_key(event, state) {
        Some(9)
    } else if breaks_power_form(event, state) {
        Some(10)
    } else if breaks_power_change(event, state) {
        Some(11)
    } else if breaks_redaction(event, state) {
        Some(12)
    } else {
        None
    }
}
