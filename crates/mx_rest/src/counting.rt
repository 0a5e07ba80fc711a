//! Whether the counts of a room changed.

ghost use Rattle.std.specs.Prelude.{◌≡◌, true, not, take, IfOk};
ghost use Rattle.mx_fold.specs.Lists.{fronts_of, upto};
ghost use Rattle.mx_snapshot.specs.Looks.{all_now};
ghost use Rattle.mx_snapshot.specs.Receipts.{of_room};
ghost use Rattle.mx_unread.specs.Standing.{Stand};
ghost use Rattle.mx_view.specs.Tokens.{is_before};
ghost use Rattle.mx_rest.specs.Rests.{counts_in, news, same_counts};
ghost use Rattle.mx_rest.specs.Servers.{AreValid, lists_of};
ghost use Rattle.mx_rest.specs.Walks.{is_uncounted};

use crate::accounts::last_rules;
use crate::receipts::has_own;
use crate::rest::Rest;
use mx_ids::{Memory, SyncToken};
use mx_receipt::Receipt;
use mx_unread::{Counts, Tallies, counts_with};
use std::alloc::Global;

/// The counts at the snapshot's fronts, by tallies that stand for it.
pub(crate) fn counts_now(
    alloc: Global,
    rest: &Rest<'_>,
    tallies: &mut Tallies,
) -> Result<Counts, Memory>
    requires valid { AreValid (lists_of rest.now.snapshot.now) }
    requires stand { Stand rest.now.snapshot.now tallies.old }
    ensures counts { IfOk result (λ c. c ≡ counts_in rest.now.user.now rest.now.room.now (lists_of rest.now.snapshot.now)) }
    ensures stand { Stand rest.now.snapshot.now tallies.new }
{
    let fronts = SyncToken {
        e: rest.snapshot.events.front(),
        r: rest.snapshot.receipts.front(),
        a: rest.snapshot.accounts.front(),
        d: 0,
        b: 0,
    };
    counts_with(alloc, rest.snapshot, rest.room, rest.user, &fronts, tallies)
}

/// The counts of a room, and whether they aren't what they were at an earlier token.
#[derive(Clone, Copy)]
pub(crate) struct Counted {
    pub(crate) now: Counts,
    pub(crate) differ: bool,
}

/// The counts, and whether they aren't what they were at an earlier token. `receipts` are the room's receipts after it. Tallies
/// go on past the token only where something came that counts rest on: else the counts are those at the token.
pub(crate) fn counts_since(
    alloc: Global,
    rest: &Rest<'_>,
    since: &SyncToken,
    receipts: &[&Receipt],
    tallies: &mut Tallies,
) -> Result<Counted, Memory>
    requires valid { AreValid (lists_of rest.now.snapshot.now) }
    requires behind { is_before since.now (fronts_of (lists_of rest.now.snapshot.now)) ≡ true }
    requires receipts { all_now receipts.now ≡ of_room rest.now.room.now (news (take since.now.r rest.now.snapshot.now.receipts) rest.now.snapshot.now.receipts) }
    requires stand { Stand rest.now.snapshot.now tallies.old }
    ensures now { IfOk result (λ c. c.now ≡ counts_in rest.now.user.now rest.now.room.now (lists_of rest.now.snapshot.now)) }
    ensures differ { IfOk result (λ c. c.differ ≡ not (same_counts (counts_in rest.now.user.now rest.now.room.now (upto since.now (lists_of rest.now.snapshot.now))) (counts_in rest.now.user.now rest.now.room.now (lists_of rest.now.snapshot.now)))) }
    ensures stand { Stand rest.now.snapshot.now tallies.new }
{
    let _events = rest.snapshot.events.front();
    let _receipts = rest.snapshot.receipts.front();
    let _entries = rest.snapshot.accounts.front();
    let before = counts_with(alloc, rest.snapshot, rest.room, rest.user, since, tallies)?;
    if is_uncounted(rest, since, receipts) {
        Ok(Counted {
            now: before,
            differ: false,
        })
    } else {
        let now = counts_now(alloc, rest, tallies)?;
        Ok(Counted {
            now,
            differ: !same_counts(before, now),
        })
    }
}

/// Nothing came after a token that the counts rest on. Takes the time of two look-ups and of the receipts.
fn is_uncounted(rest: &Rest<'_>, since: &SyncToken, receipts: &[&Receipt]) -> bool
    ensures { result ≡ is_uncounted rest.now.room.now rest.now.user.now (lists_of rest.now.snapshot.now) since.now (all_now receipts.now) }
{
    rest.snapshot.events.last_in(rest.room) <= since.e
        && last_rules(&rest.snapshot.accounts, rest.user) <= since.a
        && !has_own(receipts, rest.user)
}

fn same_counts(a: Counts, b: Counts) -> bool
    ensures { result ≡ same_counts a b }
{
    a.notifications == b.notifications && a.highlights == b.highlights
}
