//! Why a request is refused.

use mx_rules::Side;

/// Why a request is refused by the engine, in the order in which the causes are judged.
#[derive(Clone, Copy, Debug, PartialEq, Eq)]
pub enum Refusal {
    /// What the request names isn't there: a room, an event, a state, account data, a rule, a stored filter, a redaction's
    /// target, or an invited user.
    NotFound,
    /// A component of a token that is past its stream's front, and that front.
    TokenAhead { asked: u64, front: u64 },
    /// The caller has no access.
    Forbidden,
    /// An event would be larger than 65,536 bytes (Client-Server API, Size limits).
    TooLarge,
    /// The first authorization rule that refuses an event (Room Version 11, Authorization rules).
    Denied(u8),
    /// A room version that isn't 11.
    Version,
    /// A preset that isn't one of the standard's.
    Preset,
    /// A new room would have more than 512 events.
    TooMany,
    /// The rule that refuses an event of a new room.
    State(u8),
    /// A push rule whose id begins with `.` isn't put or removed.
    DefaultRule,
    /// The conditions of a push rule, or what stands in their place, aren't of the form.
    BadCondition,
    /// The actions of a push rule aren't of the form.
    BadAction,
    /// The rule before or after which a push rule is to stand isn't a rule of the caller's.
    NoNeighbour(Side),
    /// The stream is full: how many positions were drawn.
    Full(u64),
    /// What the stores are kept by has failed: nothing more is stored.
    Lost,
}
