//! The account data of a stream up to its front.

ghost use Rattle.std.specs.Prelude.{◌≡◌, ◌≤◌, ◌<◌, ◌+◌, [], Some, None, length, take, IfOk, OnErr, OnOk};
ghost use Rattle.std.specs.Option.{option_copied};
ghost use Rattle.mx_event.specs.Core.History.{Begins};
ghost use Rattle.mx_window.specs.Lasts.{last_of};
ghost use Rattle.mx_window.specs.Windows.{between};
ghost use Rattle.mx_account.specs.Entries.{is_data_of, position_of};
ghost use Rattle.mx_account.specs.Values.{AreInPlace};
ghost use Rattle.mx_snapshot.specs.Accounts.{IsIndexed, filters_of, is_users, of_user, standing_data};
ghost use Rattle.mx_snapshot.specs.Looks.{all_now, at_position, last_position};

use crate::account_index::{AccountIndex, tops};
use crate::gather::gather;
use crate::looks::{key_positions, kind_positions, version_positions};
use crate::positions::{last_one, last_to, within};
use crate::steps::Steps;
use mx_account::Entry;
use mx_ids::{Memory, RoomId};
use mx_receipt::Parts;
use std::alloc::Global;
use std::marker::Model;

/// The account data of a stream up to its front, with indices beside them. Contracts see it as the list of its entries.
#[derive(Drop)]
pub struct Accounts {
    entries: Parts<Entry>,
    index: AccountIndex,
}

impl Model for Accounts {
    ghost use Rattle.std.specs.Prelude.{List};
    ghost use Rattle.std.specs.Coded.{coded_list};
    ghost use Rattle.mx_account.specs.Values.{AreInPlace};
    ghost use Rattle.mx_account.specs.contracts.entry.Entry as row;
    ghost use Rattle.mx_account.specs.declared.entry.Entry.{Entry};
    ghost use Rattle.mx_snapshot.specs.Accounts.{IsIndexed};

    ghost Value = { List Entry };

    ghost coded = { coded_list row.the_row.coded };

    ghost view = { λ s. s.entries.items };

    ghost invariant = { λ s. AreInPlace s.entries.items × IsIndexed s.index s.entries.items };
}

impl Accounts {
    /// No account data. Takes no memory.
    pub(crate) fn new(alloc: Global) -> Accounts
        ensures { result ≡ [] }
    {
        Accounts {
            entries: Parts::none(alloc),
            index: AccountIndex::new(alloc),
        }
    }

    /// Goes on to a later front: the list begins with what is known, and each entry stands at its own position. Only the entries after the
    /// old front are looked at. `Memory` leaves no entry, and the next call takes in all.
    pub fn advance(&mut self, alloc: Global, entries: Parts<Entry>) -> Result<(), Memory>
        requires begins { Begins self.old entries.items }
        requires placed { AreInPlace entries.items }
        ensures ok { OnOk result (self.new ≡ entries.items) }
        ensures err { OnErr result (self.new ≡ []) }
    {
        let front = self.entries.front();
        let grown = index_after(alloc, &mut self.index, &entries, front);
        if grown.is_ok() {
            self.entries = entries;
        } else {
            drop(entries);
            self.entries = Parts::none(alloc);
            self.index = AccountIndex::new(alloc);
        }
        grown
    }

    /// The front: the number of entries, each of which stands at its own position. Takes no memory.
    pub fn front(&self) -> u64
        ensures count { result ≡ length self.now }
        ensures placed { AreInPlace self.now }
    {
        self.entries.front()
    }

    /// The entry at a position. Takes no memory.
    pub fn at(&self, position: u64) -> Option<&Entry>
        ensures { option_copied result ≡ at_position self.now position }
    {
        self.entries.at(position)
    }

    /// The data of a user, global and of all rooms, at the positions after `low` and up to `high`, in their order. Takes the
    /// time of two searches among the user's data, and of those that it gives.
    pub fn of_user(
        &self,
        alloc: Global,
        user: &str,
        low: u64,
        high: u64,
    ) -> Result<Vec<&Entry>, Memory>
        ensures { IfOk result (λ made. all_now made.items ≡ between position_of low high (of_user user.now self.now)) }
    {
        let positions = key_positions(&self.index.users, user);
        gather(alloc, &self.entries, within(positions, low, high))
    }

    /// The position of a user's last data, or 0 where there are none. Takes the time of a look-up, and no memory.
    pub fn last_in(&self, user: &str) -> u64
        ensures { result ≡ last_position position_of (is_users user.now) self.now }
    {
        last_one(key_positions(&self.index.users, user))
    }

    /// The last data of a user under each type, of a room or global ones where there is no room, in order of position. Takes
    /// the time of a look-up, of these types, however often each was set, and of sorting what is found; memory for as many
    /// positions and references.
    pub fn standing(
        &self,
        alloc: Global,
        user: &str,
        room: Option<&RoomId>,
    ) -> Result<Vec<&Entry>, Memory>
        ensures { IfOk result (λ made. all_now made.items ≡ standing_data user.now (option_copied room.entry) self.now) }
    {
        match self.index.types_of(user, room) {
            Some(types) => {
                let positions = tops(alloc, types)?;
                gather(alloc, &self.entries, positions.as_slice())
            }
            None => Ok(Vec::new(alloc)),
        }
    }

    /// The filters that a user stored, at the positions after `low` and up to `high`, in their order. Takes the time of two searches
    /// among the user's filters, and of those that it gives.
    pub fn filters_of(
        &self,
        alloc: Global,
        user: &str,
        low: u64,
        high: u64,
    ) -> Result<Vec<&Entry>, Memory>
        ensures { IfOk result (λ made. all_now made.items ≡ between position_of low high (filters_of user.now self.now)) }
    {
        let positions = key_positions(&self.index.filters, user);
        gather(alloc, &self.entries, within(positions, low, high))
    }

    /// The last data of a user and a type up to a position, global ones where there is no room (Client-Server API, Client
    /// Config). Takes the time of a search among these, and no memory.
    pub fn last_of(
        &self,
        user: &str,
        room: Option<&RoomId>,
        kind: &str,
        last: u64,
    ) -> Option<&Entry>
        ensures { option_copied result ≡ last_of (is_data_of user.now (option_copied room.entry) kind.now) (between position_of 0 last self.now) }
    {
        match room {
            Some(room) => self.last_of_room(user, room, kind, last),
            None => self.last_global(user, kind, last),
        }
    }

    fn last_of_room(&self, user: &str, room: &RoomId, kind: &str, last: u64) -> Option<&Entry>
        ensures { option_copied result ≡ last_of (is_data_of user.now (Some room.now) kind.now) (between position_of 0 last self.now) }
    {
        let positions = version_positions(&self.index.rooms, room, user, kind);
        let mut steps = Steps::new();
        let position = last_to(positions, last, &mut steps)?;
        self.entries.at(position)
    }

    fn last_global(&self, user: &str, kind: &str, last: u64) -> Option<&Entry>
        ensures { option_copied result ≡ last_of (is_data_of user.now None kind.now) (between position_of 0 last self.now) }
    {
        let positions = kind_positions(&self.index.global, user, kind);
        let mut steps = Steps::new();
        let position = last_to(positions, last, &mut steps)?;
        self.entries.at(position)
    }
}

fn index_after(
    alloc: Global,
    index: &mut AccountIndex,
    entries: &Parts<Entry>,
    from: u64,
) -> Result<(), Memory>
    requires within { from ≤ length entries.now.items }
    requires indexed { IsIndexed index.old (take from entries.now.items) }
    ensures { OnOk result (IsIndexed index.new entries.now.items) }
{
    'entries: for position in from..entries.front() {
        take_next(alloc, index, entries, position)?;
    }
    Ok(())
}

fn take_next(
    alloc: Global,
    index: &mut AccountIndex,
    entries: &Parts<Entry>,
    passed: u64,
) -> Result<(), Memory>
    requires within { passed < length entries.now.items }
    requires indexed { IsIndexed index.old (take passed entries.now.items) }
    ensures { OnOk result (IsIndexed index.new (take (passed + 1) entries.now.items)) }
{
    let _front = entries.front();
    match entries.at(passed + 1) {
        Some(entry) => index.take_in(alloc, entry),
        None => Ok(()),
    }
}
