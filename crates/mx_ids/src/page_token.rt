ghost use Rattle.std.specs.Prelude.{◌≡◌, ◌≢◌, ◌↔◌, ◌<◌, ◌++◌, ◌^◌, ◌-◌, IfOk, Ok, IsErrOf, OnOk, OnErr, string_bytes};
ghost use Rattle.mx_ids.specs.Page.{page_text, page_token_at, judged, is_in_range, IsInRange, IsPageToken};
ghost use Rattle.mx_ids.specs.declared.page_token.PageToken.{PageToken};
ghost use Rattle.mx_ids.specs.declared.sync_token.TokenFault.{TokenFault};

use crate::memory::Memory;
use crate::number::{LIMIT, read_marked};
use crate::sync_token::TokenFault;
use crate::text::Text;
use std::alloc::{AllocError, Global};

/// A place in a room's list of events, as the `prev_batch` of a sync and the `from`, `to`, `start` and
/// `end` of a page carry it (Client-Server API, `GET /rooms/{roomId}/messages`).
///
/// `at` is the position behind which the place lies, and `e` the front of the stream of events at
/// which the list was read. A token that is read from a text has numbers below 2^48, and `at <= e`.
#[derive(Clone, Copy, Debug, PartialEq, Eq)]
pub struct PageToken {
    pub at: u64,
    pub e: u64,
}

/// Reads a page token, `p{position}_{e}`, in decimal without leading zeros. Takes no memory.
///
/// `Shape` exactly where the text isn't of this form, `TooLarge` exactly where it is and a number
/// is 2^48 or more, and `Order` exactly where the numbers are in range and `at > e`.
pub fn read_page_token(text: &str) -> Result<PageToken, TokenFault>
    ensures found { IfOk result (λ t. (text.now ≡ page_text t) × IsPageToken t) }
    ensures back { (t : PageToken) → text.now ≡ page_text t → IsPageToken t → result ≡ Ok t }
    ensures shape { IsErrOf result TokenFault.Shape ↔ ((t : PageToken) → text.now ≢ page_text t) }
    ensures too_large { IsErrOf result TokenFault.TooLarge ↔ ((t : PageToken) × (text.now ≡ page_text t) × ¬ IsInRange t) }
    ensures order { IsErrOf result TokenFault.Order ↔ ((t : PageToken) × (text.now ≡ page_text t) × IsInRange t × (t.e < t.at)) }
{
    judge(text.as_bytes())
}

/// A law, with nothing to run: no two page tokens have one text.
pub fn page_text_is_injective()
    ensures { (t u : PageToken) → page_text t ≡ page_text u → t ≡ u }
{}

/// Appends the text of a token, `p{position}_{e}`. `Memory` leaves `out` as it was.
pub fn write_page_token(alloc: Global, token: &PageToken, out: &mut Text) -> Result<(), Memory>
    ensures ok { OnOk result (out.new ≡ out.old ++ page_text token.now) }
    ensures same { OnErr result (out.new ≡ out.old) }
{
    let text = print(alloc, *token)?;
    out.push_str(text.as_str())
}

#[tactic(auto, using(crate::proofs::Page::page_text_prints))]
fn print(alloc: Global, token: PageToken) -> Result<String, AllocError>
    ensures { IfOk result (λ s. string_bytes s ≡ page_text token) }
{
    let PageToken { at, e } = token;
    format!(in alloc; "p{at}_{e}")
}

#[tactic(auto, unfolding(crate::specs::Fault::answered))]
fn judge(text: &[u8]) -> Result<PageToken, TokenFault>
    ensures { result ≡ judged (page_token_at (2 ^ 64 - 1) text.now) }
{
    let token = page_token_of(text).ok_or(TokenFault::Shape)?;
    if !is_in_range(&token) {
        return Err(TokenFault::TooLarge);
    }
    if token.e < token.at {
        return Err(TokenFault::Order);
    }
    Ok(token)
}

fn is_in_range(token: &PageToken) -> bool
    ensures { result ≡ is_in_range token.now }
{
    token.at < LIMIT && token.e < LIMIT
}

/// The token that a text spells. A number that no `u64` holds is read as `u64::MAX`.
#[tactic(auto, unfolding(crate::specs::Page::page_token_at))]
fn page_token_of(text: &[u8]) -> Option<PageToken>
    ensures { result ≡ page_token_at (2 ^ 64 - 1) text.now }
{
    let (at, rest) = read_marked(b'p', text)?;
    let (e, rest) = read_marked(b'_', rest)?;
    if rest.is_empty() {
        Some(PageToken { at, e })
    } else {
        None
    }
}
