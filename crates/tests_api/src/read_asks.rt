//! Whether rooms are read, or what was read is marked, as a row says.
use crate::told::{are, or_none};
use mx_ask::Ask;
use mx_filter::Filter;
use mx_ids::Text;
use mx_json::Json;
use mx_pager::Bound;
use mx_receipt::ReceiptKind;
use std::process::Abort;

fn kind_of(kind: &Option<ReceiptKind>) -> &'static str {
    match kind {
        Some(ReceiptKind::Read) => "read",
        Some(ReceiptKind::Private) => "private",
        None => "fully",
    }
}

fn bound_of(bound: &Option<Bound>) -> &'static str {
    match bound {
        Some(Bound::Sync(token)) if token.e == 5 => "s5",
        Some(Bound::Page(token)) if token.at == 3 => "p3",
        Some(_) => "other",
        None => "none",
    }
}

fn limit_of(limit: u64) -> &'static str {
    match limit {
        7 => "7",
        10 => "10",
        1000 => "1000",
        _ => "other",
    }
}

fn lazy_of(filter: &Filter) -> &'static str {
    if filter.selection.lazy { "lazy" } else { "all" }
}

fn is_page(
    rt: &impl Abort,
    row: &Json,
    room: &Text,
    dir: &str,
    from: &str,
    to: &str,
    limit: &str,
    lazy: &str,
) -> bool {
    are(
        rt,
        row,
        ["page", room.as_str(), dir, from, to, limit, lazy].as_slice(),
    )
}

fn is_receipt(rt: &impl Abort, row: &Json, room: &Text, kind: &str, event: &Text) -> bool {
    are(
        rt,
        row,
        ["receipt", room.as_str(), kind, event.as_str()].as_slice(),
    )
}

fn is_members(
    rt: &impl Abort,
    row: &Json,
    room: &Text,
    is: &Option<Text>,
    not: &Option<Text>,
) -> bool {
    are(
        rt,
        row,
        ["members", room.as_str(), or_none(is), or_none(not)].as_slice(),
    )
}

/// Whether one of a room's events is read, or marked.
fn is_of_event(rt: &impl Abort, row: &Json, ask: &Ask) -> bool {
    match ask {
        Ask::OneEvent { room, event } => {
            are(rt, row, ["event", room.as_str(), event.as_str()].as_slice())
        }
        Ask::Receipt { room, kind, event } => is_receipt(rt, row, room, kind_of(kind), event),
        _ => false,
    }
}

/// Whether a page is read.
fn is_messages(rt: &impl Abort, row: &Json, ask: &Ask) -> bool {
    match ask {
        Ask::Messages {
            room,
            backward,
            from,
            to,
            limit,
            filter,
        } => is_page(
            rt,
            row,
            room,
            if *backward { "b" } else { "f" },
            bound_of(from),
            bound_of(to),
            limit_of(*limit),
            lazy_of(filter),
        ),
        _ => is_of_event(rt, row, ask),
    }
}

/// Whether this is what the row says.
pub fn is_read_ask(rt: &impl Abort, row: &Json, ask: &Ask) -> bool {
    match ask {
        Ask::JoinedRooms => are(rt, row, ["joined"].as_slice()),
        Ask::AllState { room } => are(rt, row, ["all", room.as_str()].as_slice()),
        Ask::Members {
            room,
            membership,
            not_membership,
        } => is_members(rt, row, room, membership, not_membership),
        _ => is_messages(rt, row, ask),
    }
}
