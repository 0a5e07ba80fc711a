ghost use Rattle.std.specs.Prelude.{◌≡◌, ◌≢◌, ◌↔◌, ◌<◌, ◌≤◌, ◌++◌, ◌^◌, ◌-◌, IfOk, Ok, IsErrOf, OnOk, OnErr, string_bytes, decimal, ◌∷◌};
ghost use Rattle.mx_ids.specs.Sync.{sync_text, sync_token_at, judged, is_in_range, IsInRange, IsSyncToken};
ghost use Rattle.mx_ids.specs.declared.sync_token.SyncToken.{SyncToken};

use crate::memory::Memory;
use crate::number::{LIMIT, read_marked};
use crate::text::Text;
use std::alloc::{AllocError, Global};
use thiserror::Error;

/// What a client has seen, as the `since` and `next_batch` of a sync carry it
/// (Client-Server API, Syncing).
///
/// `e`, `r`, `a` and `d` are the fronts of the streams of events, receipts, account data and
/// device messages: the last position that the client has of each. `b` is the event front at
/// which its chain of syncs began. A token that is read from a text has numbers below 2^48, and
/// `b <= e`.
#[derive(Clone, Copy, Debug, PartialEq, Eq)]
pub struct SyncToken {
    pub e: u64,
    pub r: u64,
    pub a: u64,
    pub d: u64,
    pub b: u64,
}

/// Why a text is no token.
#[derive(Clone, Copy, Debug, PartialEq, Eq, Error)]
pub enum TokenFault {
    /// The text isn't of the token's form.
    #[error("not of the form of a token")]
    Shape,
    /// The form holds, and a number is 2^48 or more.
    #[error("a number of the token is too large")]
    TooLarge,
    /// The numbers are in range, and a position stands after the front that it has to precede.
    #[error("the numbers of the token are out of order")]
    Order,
}

/// Reads a sync token, `s{e}_{r}_{a}_{d}_{b}`, in decimal without leading zeros. Takes no memory.
///
/// `Shape` exactly where the text isn't of this form, `TooLarge` exactly where it is and a number
/// is 2^48 or more, and `Order` exactly where the numbers are in range and `b > e`.
pub fn read_sync_token(text: &str) -> Result<SyncToken, TokenFault>
    ensures found { IfOk result (λ t. (text.now ≡ sync_text t) × IsSyncToken t) }
    ensures back { (t : SyncToken) → text.now ≡ sync_text t → IsSyncToken t → result ≡ Ok t }
    ensures shape { IsErrOf result TokenFault.Shape ↔ ((t : SyncToken) → text.now ≢ sync_text t) }
    ensures too_large { IsErrOf result TokenFault.TooLarge ↔ ((t : SyncToken) × (text.now ≡ sync_text t) × ¬ IsInRange t) }
    ensures order { IsErrOf result TokenFault.Order ↔ ((t : SyncToken) × (text.now ≡ sync_text t) × IsInRange t × (t.e < t.b)) }
{
    judge(text.as_bytes())
}

/// A law, with nothing to run: no two sync tokens have one text.
pub fn sync_text_is_injective()
    ensures { (t u : SyncToken) → sync_text t ≡ sync_text u → t ≡ u }
{}

/// Appends the text of a token, `s{e}_{r}_{a}_{d}_{b}`. `Memory` leaves `out` as it was.
pub fn write_sync_token(alloc: Global, token: &SyncToken, out: &mut Text) -> Result<(), Memory>
    ensures ok { OnOk result (out.new ≡ out.old ++ sync_text token.now) }
    ensures same { OnErr result (out.new ≡ out.old) }
{
    let text = print(alloc, *token)?;
    out.push_str(text.as_str())
}

#[tactic(auto, using(crate::proofs::Sync::sync_text_prints))]
fn print(alloc: Global, token: SyncToken) -> Result<String, AllocError>
    ensures { IfOk result (λ s. string_bytes s ≡ sync_text token) }
{
    let SyncToken { e, r, a, d, b } = token;
    format!(in alloc; "s{e}_{r}_{a}_{d}_{b}")
}

#[tactic(auto, unfolding(crate::specs::Fault::answered))]
fn judge(text: &[u8]) -> Result<SyncToken, TokenFault>
    ensures { result ≡ judged (sync_token_at (2 ^ 64 - 1) text.now) }
{
    let token = sync_token_of(text).ok_or(TokenFault::Shape)?;
    if !is_in_range(&token) {
        return Err(TokenFault::TooLarge);
    }
    if token.e < token.b {
        return Err(TokenFault::Order);
    }
    Ok(token)
}

fn is_in_range(token: &SyncToken) -> bool
    ensures { result ≡ is_in_range token.now }
{
    token.e < LIMIT && token.r < LIMIT && token.a < LIMIT && token.d < LIMIT && token.b < LIMIT
}

/// The token that a text spells. A number that no `u64` holds is read as `u64::MAX`.
#[tactic(auto, unfolding(crate::specs::Sync::sync_token_at))]
fn sync_token_of(text: &[u8]) -> Option<SyncToken>
    ensures { result ≡ sync_token_at (2 ^ 64 - 1) text.now }
{
    let (e, rest) = read_marked(b's', text)?;
    let (r, rest) = read_marked(b'_', rest)?;
    let (a, rest) = read_marked(b'_', rest)?;
    let (d, rest) = read_marked(b'_', rest)?;
    let (b, rest) = read_marked(b'_', rest)?;
    if rest.is_empty() {
        Some(SyncToken { e, r, a, d, b })
    } else {
        None
    }
}
