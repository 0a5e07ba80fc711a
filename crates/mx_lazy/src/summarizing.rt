//! The summary of a room.

ghost use Rattle.std.specs.Prelude.{◌≡◌, ◌+◌, ◌<◌, ◌^◌, ◌++◌, OnOk, filter, length, IfOk, if◌then◌else◌};
ghost use Rattle.mx_event.specs.Kinds.{is_text};
ghost use Rattle.mx_event.specs.Lawful.{of_room};
ghost use Rattle.mx_snapshot.specs.Looks.{all_now};
ghost use Rattle.mx_lazy.specs.Summaries as sum;

use crate::room_summary::Summary;
use crate::standing_members::members;
use mx_event::Event;
use mx_ids::{Copied, Memory, RoomId, Seq, Text, UserId};
use mx_snapshot::Events;
use mx_visible::{Membership, membership_of};
use std::alloc::Global;

/// The summary that a user gets of a room at a position. Takes the time of `members`.
pub fn summary(
    alloc: Global,
    events: &Events,
    room: &RoomId,
    user: &UserId,
    position: u64,
) -> Result<Summary, Memory>
    ensures { IfOk result (λ s. s ≡ sum.summary_at user.now (of_room room.now events.now) position) }
{
    let members = members(alloc, events, room, position)?;
    let made = summary_of(alloc, &members, user)?;
    Ok(made)
}

fn summary_of(alloc: Global, members: &[&Event], user: &UserId) -> Result<Summary, Memory>
    ensures { IfOk result (λ s. s ≡ sum.summary_of user.now (all_now members.now)) }
{
    Ok(Summary {
        heroes: heroes(alloc, members, user)?,
        joined: count_joined(members),
        invited: count_invited(members),
    })
}

fn heroes(alloc: Global, members: &[&Event], user: &UserId) -> Result<Seq<Text>, Memory>
    ensures { IfOk result (λ h. h ≡ sum.heroes_of user.now (all_now members.now)) }
{
    let present = first_five(alloc, members, user, false)?;
    if present.is_empty() {
        let gone = first_five(alloc, members, user, true)?;
        Ok(gone)
    } else {
        Ok(present)
    }
}

/// The first five other users that are present, or that are gone.
fn first_five(
    alloc: Global,
    members: &[&Event],
    user: &UserId,
    gone: bool,
) -> Result<Seq<Text>, Memory>
    ensures { IfOk result (λ made. made ≡ sum.first_five (filter (sum.is_hero gone user.now) (all_now members.now))) }
{
    let mut made = Vec::new(alloc);
    'members: for member in members {
        if made.len() == 5 {
            return Ok(Seq::from_vec(made));
        }
        add_hero(alloc, &mut made, member, user, gone)?;
    }
    Ok(Seq::from_vec(made))
}

fn add_hero(
    alloc: Global,
    made: &mut Vec<Text>,
    member: &Event,
    user: &UserId,
    gone: bool,
) -> Result<(), Memory>
    requires { length made.old.items < 5 }
    ensures { OnOk result (made.new.items ≡ made.old.items ++ sum.one_hero gone user.now member.now) }
{
    if is_hero(member, user, gone) {
        made.push(user_of(alloc, member)?)?;
    }
    Ok(())
}

fn user_of(alloc: Global, member: &Event) -> Result<Text, Memory>
    ensures { IfOk result (λ t. t ≡ sum.user_of member.now) }
{
    match &member.state_key {
        Some(key) => key.copy(alloc),
        None => Ok(Text::new(alloc)),
    }
}

fn is_hero(member: &Event, user: &UserId, gone: bool) -> bool
    ensures { result ≡ sum.is_hero gone user.now member.now }
{
    !is_key(&member.state_key, user) && stands(member, gone)
}

fn stands(member: &Event, gone: bool) -> bool
    ensures { result ≡ sum.stands gone member.now }
{
    if gone {
        has_left(member)
    } else {
        is_joined(member) || is_invited(member)
    }
}

fn has_left(member: &Event) -> bool
    ensures { result ≡ sum.has_left member.now }
{
    matches!(
        membership_of(member),
        Some(Membership::Leave | Membership::Ban)
    )
}

fn is_joined(member: &Event) -> bool
    ensures { result ≡ sum.joined_by member.now }
{
    matches!(membership_of(member), Some(Membership::Join))
}

fn is_invited(member: &Event) -> bool
    ensures { result ≡ sum.invited_by member.now }
{
    matches!(membership_of(member), Some(Membership::Invite))
}

fn is_key(state_key: &Option<Text>, user: &UserId) -> bool
    ensures { result ≡ is_text user.now state_key.now }
{
    match state_key {
        Some(key) => key.as_str() == user.as_str(),
        None => false,
    }
}

fn count_joined(members: &[&Event]) -> u64
    ensures { result ≡ length (filter sum.joined_by (all_now members.now)) }
{
    let mut joined: u64 = 0;
    'members: for member in members {
        joined = one_more(joined, is_joined(member));
    }
    joined
}

fn count_invited(members: &[&Event]) -> u64
    ensures { result ≡ length (filter sum.invited_by (all_now members.now)) }
{
    let mut invited: u64 = 0;
    'members: for member in members {
        invited = one_more(invited, is_invited(member));
    }
    invited
}

fn one_more(count: u64, counts: bool) -> u64
    requires { count + 1 < 2 ^ 64 }
    ensures { result ≡ (if counts then count + 1 else count) }
{
    if counts { count + 1 } else { count }
}
