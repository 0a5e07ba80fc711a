//! The tokens of a query.
ghost use Rattle.std.specs.Prelude.{◌≡◌};
ghost use Rattle.mx_api.specs.Tokens.{page_token_of, sync_token_of};

use mx_ids::{PageToken, SyncToken, read_page_token, read_sync_token};

/// The sync token that a text is, if it is one. Takes no memory.
pub fn sync_token_of(text: &str) -> Option<SyncToken>
    ensures { result ≡ sync_token_of text.now }
{
    match read_sync_token(text) {
        Ok(token) => Some(token),
        Err(_) => None,
    }
}

/// The page token that a text is, if it is one. Takes no memory.
pub fn page_token_of(text: &str) -> Option<PageToken>
    ensures { result ≡ page_token_of text.now }
{
    match read_page_token(text) {
        Ok(token) => Some(token),
        Err(_) => None,
    }
}
