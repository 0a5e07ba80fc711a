//! The push rules of a user that were read last, kept so that they are read once while they stay the same.

ghost use Rattle.std.specs.Prelude.{◌≡◌, Some, None, IfOk};
ghost use Rattle.mx_rules.specs.Rules.{rules_of};
ghost use Rattle.mx_unread.specs.Standing.{AreOf, AreRead, is_of};
ghost use Rattle.mx_unread.specs.Unread.{rules_at};

use crate::same_rules::last_rules;
use crate::stored_rules::rules_at;
use mx_ids::{Copied, Memory, UserId};
use mx_rules::RuleSet;
use mx_snapshot::Accounts;
use std::alloc::Global;

/// A user's push rules.
#[derive(Drop)]
pub(crate) struct ReadRules {
    pub(crate) user: UserId,
    /// The position of the account data that they were read of, or 0 for the default ones.
    pub(crate) at: u64,
    pub(crate) rules: RuleSet,
}

/// A user's push rules at a position, taken out of where those that were read last are kept: these where the user and the
/// account data are the same, else read anew. Takes the time of a look-up, and where they are read that of `rules_at`.
pub(crate) fn take_rules(
    alloc: Global,
    accounts: &Accounts,
    user: &UserId,
    position: u64,
    read: &mut Option<ReadRules>,
) -> Result<ReadRules, Memory>
    requires read { AreRead accounts.now read.old }
    ensures rules { IfOk result (λ r. rules_of r.rules ≡ rules_at user.now position accounts.now) }
    ensures stand { IfOk result (λ r. AreRead accounts.now (Some r)) }
    ensures taken { read.new ≡ None }
{
    let _front = accounts.front();
    let at = last_rules(accounts, user, position);
    known_or_read(alloc, accounts, user, at, read.take())
}

/// The push rules of a user that account data at a position store: those that are known, or read anew.
fn known_or_read(
    alloc: Global,
    accounts: &Accounts,
    user: &UserId,
    at: u64,
    known: Option<ReadRules>,
) -> Result<ReadRules, Memory>
    requires { AreRead accounts.now known }
    ensures { IfOk result (λ r. AreOf r user.now at accounts.now) }
{
    let Some(known) = known else {
        return read_rules(alloc, accounts, user, at);
    };
    if is_of(&known, user, at) {
        return Ok(known);
    }
    drop(known);
    read_rules(alloc, accounts, user, at)
}

/// Whether rules are those of a user that account data at a position store.
fn is_of(known: &ReadRules, user: &UserId, at: u64) -> bool
    ensures { result ≡ is_of user.now at known.now }
{
    known.at == at && known.user == *user
}

/// Reads the push rules of a user at a position.
fn read_rules(
    alloc: Global,
    accounts: &Accounts,
    user: &UserId,
    at: u64,
) -> Result<ReadRules, Memory>
    ensures { IfOk result (λ r. AreOf r user.now at accounts.now) }
{
    let rules = rules_at(alloc, accounts, user, at)?;
    match user.copy(alloc) {
        Ok(user) => Ok(ReadRules { user, at, rules }),
        Err(refused) => {
            drop(rules);
            Err(refused)
        }
    }
}
