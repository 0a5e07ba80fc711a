//! Which events of a room's state a reply sends.

ghost use Rattle.std.specs.Prelude.{◌≡◌, ℕ, List, IfOk, OnOk, ◌||◌};
ghost use Rattle.std.specs.Str.{bytes_eq};
ghost use Rattle.mx_event.specs.Kinds.{is_text};
ghost use Rattle.mx_snapshot.specs.Looks.{all_now};
ghost use Rattle.mx_lazy.specs.Picks as pick;

use mx_event::Event;
use mx_event::event_types::MEMBER;
use mx_ids::{Copied, Memory, Seq, Text, UserId};
use std::alloc::Global;
use std::collections::BTreeSet;

/// Which events of a room's state are sent, as far as it doesn't depend on who is named.
#[derive(Clone, Copy, Debug)]
pub enum Pick {
    /// All of a new room; with lazy members, of the member events the user's own and those of the named users.
    New,
    /// Those after the position `from`; with lazy members the member events of the named users besides. Of these one up to
    /// `since` is omitted where the user was joined at every position from `base` to `since` and it lies after `base`, unless
    /// redundant ones are sent.
    Later {
        from: u64,
        since: u64,
        base: u64,
        redundant: bool,
        /// The user was joined at every position from `base` to `since`.
        stayed: bool,
    },
}

/// What decides which events of a room's state are sent (Client-Server API, Lazy-loading room members).
#[derive(Drop)]
pub struct Picker<'a> {
    pub pick: Pick,
    /// The state filter has `lazy_load_members`.
    pub lazy: bool,
    pub user: &'a UserId,
    /// The ids of the heroes of the summary that is sent; with the senders they are the named users.
    pub heroes: &'a Seq<Text>,
    /// The senders of the section's events.
    pub senders: BTreeSet<Text>,
}

impl Picker<'_> {
    /// Whether a state event is sent. Takes no memory, and the time of a look-up and of the heroes.
    pub fn picks(&self, event: &Event) -> bool
        ensures { result ≡ pick.picked self.now event.now }
    {
        match self.pick {
            Pick::New => {
                !self.lazy || !event.is_of(MEMBER) || self.is_own(event) || self.names(event)
            }
            Pick::Later {
                from,
                since,
                base,
                redundant,
                stayed,
            } => {
                from < event.id.at
                    || (self.lazy
                        && event.is_of(MEMBER)
                        && self.names(event)
                        && (redundant || since < event.id.at || !stayed || event.id.at <= base))
            }
        }
    }

    fn is_own(&self, event: &Event) -> bool
        ensures { result ≡ is_text self.now.user.now event.now.state_key }
    {
        match &event.state_key {
            Some(key) => key.as_str() == self.user.as_str(),
            None => false,
        }
    }

    /// Whether the event's state key is the id of a named user.
    fn names(&self, event: &Event) -> bool
        ensures { result ≡ pick.names self.now event.now }
    {
        match &event.state_key {
            Some(key) => self.is_named(key),
            None => false,
        }
    }

    fn is_named(&self, user: &Text) -> bool
        ensures { result ≡ pick.is_named self.now user.now }
    {
        self.senders.contains(user) || is_hero(self.heroes, user.as_str())
    }
}

fn is_hero(heroes: &Seq<Text>, user: &str) -> bool
    ensures { result ≡ pick.is_hero heroes.now user.now }
{
    'heroes: for hero in heroes.as_slice() {
        if hero.as_str() == user {
            return true;
        }
    }
    false
}

/// The senders of events.
pub fn senders(alloc: Global, events: &[&Event]) -> Result<BTreeSet<Text>, Memory>
    ensures { IfOk result (λ s. pick.HasSenders s (all_now events.now)) }
{
    let mut senders = BTreeSet::new(alloc);
    'events: for event in events {
        add_sender(alloc, &mut senders, event)?;
    }
    Ok(senders)
}

fn add_sender(alloc: Global, senders: &mut BTreeSet<Text>, event: &Event) -> Result<(), Memory>
    ensures { OnOk result ((t : List ℕ) → pick.has_sender senders.new t ≡ (bytes_eq event.now.sender t || pick.has_sender senders.old t)) }
{
    senders.insert(event.sender.as_text().copy(alloc)?)?;
    Ok(())
}
