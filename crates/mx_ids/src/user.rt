ghost use Rattle.std.specs.Prelude.{◌≡◌, ◌↔◌, IsTrue, IfOk, MatchOption, Some, nat_eq, refl};
ghost use Rattle.std.specs.Char.{is_ascii_graphic};
ghost use Rattle.std.specs.List.{list_all};
ghost use Rattle.std.specs.Ordering.{nat_cmp};
ghost use Rattle.std.specs.Hash as fed;
ghost use Rattle.std.specs.Cmp.Lexicographic.{pointwise, slice_cmp, nat_list_eq_equiv, nat_list_cmp_total, texts_ties, texts_po};
ghost use Rattle.std.specs.Cmp.{partial_equiv_from_equiv};
ghost use Rattle.std.specs.Cmp.Rules.{hashing};
ghost use Rattle.std.proofs.Common.{rules};
ghost use Rattle.mx_ids.specs.User.{IsUserId, is_user_id_text, is_sigil_and_visible, is_visible, server_of};

use crate::copied::Copied;
use crate::memory::Memory;
use crate::text::Text;
use std::alloc::Global;
use std::cmp::Ordering;
use std::hash::{Hash, Hasher};
use std::marker::Model;

/// A user id, `@localpart:server` (Appendices, User Identifiers): a text that `is_user_id`
/// accepts. Equal, ordered and hashed by its bytes.
#[derive(Debug, Drop)]
pub struct UserId {
    text: Text,
}

impl Model for UserId {
    ghost use Rattle.std.specs.Prelude.{◌≡◌, List, ℕ, true};
    ghost use Rattle.std.specs.Coded.{coded_list, coded_ℕ};
    ghost use Rattle.mx_ids.specs.User.{is_user_id_text};

    ghost Value = { List ℕ };

    ghost coded = { coded_list coded_ℕ };

    ghost view = { λ u. u.text };

    ghost invariant = { λ u. is_user_id_text u.text ≡ true };
}

/// Whether a text is a user id: `@`, one or more bytes from 0x21 to 0x7E other than `:`, then `:`
/// and one or more bytes from 0x21 to 0x7E, at most 255 bytes in all. Takes no memory.
pub fn is_user_id(text: &str) -> bool
    ensures form { IsTrue result ↔ IsUserId text.now }
    ensures test { result ≡ is_user_id_text text.now }
{
    is_user_id_text(text)
}

#[tactic(auto, unfolding(crate::specs::User::is_user_id_text))]
fn is_user_id_text(text: &str) -> bool
    ensures { result ≡ is_user_id_text text.now }
{
    match text.split_once(':') {
        Some((front, server)) => {
            text.len() <= 255
                && is_sigil_and_visible(front.as_bytes())
                && is_visible(server.as_bytes())
        }
        None => false,
    }
}

/// The user id that a text is, or `None` exactly where `is_user_id` refuses it. Takes no memory.
pub fn user_id(text: Text) -> Option<UserId>
    ensures { MatchOption result (IsUserId text → ⊥) (λ u. (u ≡ text) × IsUserId text) }
{
    if is_user_id(text.as_str()) {
        Some(UserId { text })
    } else {
        None
    }
}

#[tactic(auto, unfolding(crate::specs::User::is_sigil_and_visible))]
fn is_sigil_and_visible(bytes: &[u8]) -> bool
    ensures { result ≡ is_sigil_and_visible bytes.now }
{
    match bytes {
        [first, rest @ ..] => *first == b'@' && is_visible(rest),
        [] => false,
    }
}

/// Whether there are bytes, and all are from 0x21 to 0x7E.
#[tactic(auto, unfolding(crate::specs::User::is_visible))]
fn is_visible(bytes: &[u8]) -> bool
    ensures { result ≡ is_visible bytes.now }
{
    !bytes.is_empty() && all_graphic(bytes)
}

fn all_graphic(bytes: &[u8]) -> bool
    ensures { result ≡ list_all is_ascii_graphic bytes.now }
{
    bytes.iter().all(|byte| byte.is_ascii_graphic())
}

impl UserId {
    /// The id as a text, borrowed.
    pub fn as_text(&self) -> &Text
        ensures text { result.now ≡ self.now }
        ensures form { IsUserId self.now }
    {
        &self.text
    }

    /// The id as a `str`, borrowed.
    pub fn as_str(&self) -> &str
        ensures text { result.now ≡ self.now }
        ensures form { IsUserId self.now }
    {
        self.as_text().as_str()
    }

    /// The server's name: the part after the first `:`.
    pub fn server(&self) -> &str
        ensures { result.now ≡ server_of self.now }
    {
        match self.text.as_str().split_once(':') {
            Some((_, server)) => server,
            None => "",
        }
    }
}

impl Copied for UserId {
    fn copy(&self, alloc: Global) -> Result<UserId, Memory> {
        Ok(UserId {
            text: self.text.copy(alloc)?,
        })
    }
}

impl PartialEq for UserId {
    ghost eq = { pointwise nat_eq };

    ghost laws = { partial_equiv_from_equiv nat_list_eq_equiv };

    fn eq(&self, other: &UserId) -> bool {
        self.text == other.text
    }
}

impl Eq for UserId {
    ghost laws = { nat_list_eq_equiv };
}

impl PartialOrd for UserId {
    ghost partial_cmp = { λ x y. Some (slice_cmp nat_cmp x y) };

    ghost laws = { texts_po };

    fn partial_cmp(&self, other: &UserId) -> Option<Ordering> {
        self.text.partial_cmp(&other.text)
    }
}

/// User ids are in the order of their bytes.
impl Ord for UserId {
    ghost cmp = { slice_cmp nat_cmp };

    ghost total = { nat_list_cmp_total };

    ghost matches_partial_cmp = { λ x y. refl };

    ghost matches_eq = { texts_ties };

    fn cmp(&self, other: &UserId) -> Ordering {
        self.text.cmp(&other.text)
    }
}

impl Hash for UserId {
    ghost hash_input = { fed.str };

    ghost respects_eq = { Prim.search (hashing, rules) };

    fn hash<H: Hasher>(&self, state: &mut H) {
        self.text.hash(state)
    }
}
