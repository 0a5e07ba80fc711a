//! Whether a user's own data are asked for as a row says.
use crate::told::{are, body_of};
use mx_ask::Ask;
use mx_ids::SyncToken;
use mx_json::Json;
use std::process::Abort;

/// Whether the row says a sync of this token and timeout.
fn is_sync(rt: &impl Abort, row: &Json, since: &Option<SyncToken>, timeout: u64) -> bool {
    match timeout {
        0 => is_sync_since(rt, row, since),
        25 => are(rt, row, ["sync", "25"].as_slice()),
        300_000 => are(rt, row, ["sync", "300000"].as_slice()),
        _ => false,
    }
}

fn is_sync_since(rt: &impl Abort, row: &Json, since: &Option<SyncToken>) -> bool {
    match since {
        None => are(rt, row, ["sync"].as_slice()),
        Some(token) => {
            token.e == 5 && token.a == 3 && are(rt, row, ["sync", "s5_4_3_2_1"].as_slice())
        }
    }
}

/// Whether this is what the row says.
pub fn is_user_ask(rt: &impl Abort, row: &Json, ask: &Ask) -> bool {
    match ask {
        Ask::WhoAmI => are(rt, row, ["whoami"].as_slice()),
        Ask::Sync { after: true, .. } => are(rt, row, ["sync", "after"].as_slice()),
        Ask::Sync { since, timeout, .. } => is_sync(rt, row, since, *timeout),
        Ask::PutAccount { kind, content, .. } => are(
            rt,
            row,
            ["account", kind.as_str(), body_of(content)].as_slice(),
        ),
        _ => false,
    }
}
