//! What a user sees of a stretch of a room's events, by one walk through them.

ghost use Rattle.std.specs.Prelude.{◌≡◌, ◌++◌, List, IfOk, option_map, unwrap_or};
ghost use Rattle.std.specs.Option.{option_copied, option_and_then};
ghost use Rattle.mx_folding.specs.Visible as seen;
ghost use Rattle.mx_view.specs.Readings as read;
ghost use Rattle.mx_event.specs.declared.event.Event.{Event};
ghost use Rattle.mx_visible.specs.Kinds.{membership_from, setting_from};
ghost use Rattle.mx_visible.specs.Walks as walk;
ghost use Rattle.mx_snapshot.specs.Looks.{all_now};
ghost use Rattle.mx_visible.specs.Walks.{IsStanding, all_sighted, sights};

use crate::readings::{
    HistoryVisibility, Membership, is_invite, is_join, is_own, is_setting, membership_of,
    setting_of,
};
use mx_event::Event;
use mx_ids::{Memory, UserId};
use std::alloc::Global;

/// An event, and whether the user sees it.
#[derive(Clone, Copy)]
pub struct Sighted<'a> {
    pub event: &'a Event,
    pub seen: bool,
}

/// What stood before a stretch of a room's events, for one user.
#[derive(Clone, Copy)]
pub struct StoodBefore<'a> {
    /// The user's member event.
    pub own: Option<&'a Event>,
    /// The room's history-visibility event.
    pub setting: Option<&'a Event>,
    /// The position of the event by which the user last joins, up to the front at which it looks, or 0. It may lie before,
    /// in or after the stretch.
    pub last_join: u64,
}

/// Each event of a stretch of a room, with whether the user sees it. Takes memory for as many, and looks at each once.
pub fn sight_from<'a>(
    alloc: Global,
    user: &UserId,
    before: StoodBefore<'a>,
    window: &[&'a Event],
) -> Result<Vec<Sighted<'a>>, Memory>
    ensures { (past rest : List Event) (front : _) → IsStanding user.now front past rest (all_now window.now) (option_copied before.entry.own) (option_copied before.entry.setting) before.entry.last_join → IfOk result (λ made. all_sighted made.items ≡ sights user.now (past ++ (all_now window.now ++ rest)) front (all_now window.now)) }
{
    walk_through(alloc, user, before, window)
}

fn walk_through<'a>(
    alloc: Global,
    user: &UserId,
    before: StoodBefore<'a>,
    window: &[&'a Event],
) -> Result<Vec<Sighted<'a>>, Memory>
    ensures { IfOk result (λ made. all_sighted made.items ≡ walk.walked user.now before.entry.last_join (option_copied before.entry.own) (option_copied before.entry.setting) (all_now window.now)) }
{
    let mut own = before.own;
    let mut setting = before.setting;
    let last = before.last_join;
    let mut made = Vec::with_capacity(alloc, window.len())?;
    'events: for event in window {
        let event: &'a Event = event;
        let seen = sees(event, user, own, setting, event.id.at < last);
        made.push(Sighted { event, seen })?;
        own = newer(is_own(event, user), event, own);
        setting = newer(is_setting(event), event, setting);
    }
    Ok(made)
}

fn newer<'a>(test: bool, event: &'a Event, old: Option<&'a Event>) -> Option<&'a Event>
    ensures { option_copied result ≡ walk.newer test event.now (option_copied old.entry) }
{
    if test { Some(event) } else { old }
}

/// Whether the user sees an event, by what stands before it and by whether the user joins later.
fn sees(
    event: &Event,
    user: &UserId,
    own: Option<&Event>,
    setting: Option<&Event>,
    later: bool,
) -> bool
    ensures { result ≡ walk.sees user.now (option_copied own.entry) (option_copied setting.entry) later event.now }
{
    let is_own = is_own(event, user);
    let is_setting = is_setting(event);
    allows(
        newer(is_own, event, own),
        newer(is_setting, event, setting),
        later,
    ) || ((is_own || is_setting) && allows(own, setting, later))
}

/// Whether a member event and a setting that stand let the user see an event.
pub(crate) fn allows(own: Option<&Event>, setting: Option<&Event>, later: bool) -> bool
    ensures { result ≡ walk.allows (option_copied own.entry) (option_copied setting.entry) later }
{
    let membership = standing(own);
    match setting_or_shared(setting) {
        HistoryVisibility::WorldReadable => true,
        HistoryVisibility::Shared => is_join(membership) || later,
        HistoryVisibility::Invited => is_join(membership) || is_invite(membership),
        HistoryVisibility::Joined => is_join(membership),
    }
}

fn standing(own: Option<&Event>) -> Option<Membership>
    ensures { option_map membership_from result ≡ option_and_then read.membership_of (option_copied own.entry) }
{
    membership_of(own?)
}

fn setting_or_shared(setting: Option<&Event>) -> HistoryVisibility
    ensures { setting_from result ≡ unwrap_or (option_map read.setting_of (option_copied setting.entry)) seen.SharedSince }
{
    match setting {
        Some(event) => setting_of(event),
        None => HistoryVisibility::Shared,
    }
}
