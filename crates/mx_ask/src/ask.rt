//! What a user asks.

use mx_event::Txn;
use mx_filter::Filter;
use mx_ids::{SyncToken, Text, UserId};
use mx_json::Json;
use mx_pager::Bound;
use mx_receipt::ReceiptKind;
use mx_rules::Kind;

/// Who asks: a user of the server, and the number of one of its devices.
#[derive(Debug, Drop)]
pub struct Who {
    pub user: UserId,
    pub device: u32,
}

/// By which filter a sync asks (Client-Server API, Filtering).
#[derive(Drop)]
pub enum FilterAsk {
    /// By none: everything passes.
    Absent,
    /// By the caller's stored filter of this id.
    Stored(Text),
    /// By this one.
    Inline(Filter),
}

/// What is asked, with the texts of its call after decoding.
#[derive(Drop)]
pub enum Ask {
    /// Who asks (Client-Server API, `GET /account/whoami`).
    WhoAmI,
    /// To create a room (`POST /createRoom`). The body is one that `mx_create::is_create_body` accepts.
    CreateRoom {
        body: Json,
    },
    /// The rooms that the caller is joined in (`GET /joined_rooms`).
    JoinedRooms,
    /// To send a message event to a room (`PUT /rooms/{roomId}/send/{eventType}/{txnId}`). The transaction's path begins with
    /// the room: `[room, "send", kind]`.
    Send {
        room: Text,
        kind: Text,
        txn: Txn,
        content: Json,
    },
    /// To send a state event to a room (`PUT /rooms/{roomId}/state/{eventType}/{stateKey}`).
    PutState {
        room: Text,
        kind: Text,
        key: Text,
        content: Json,
    },
    /// The content of a room's state under a key (`GET /rooms/{roomId}/state/{eventType}/{stateKey}`).
    GetState {
        room: Text,
        kind: Text,
        key: Text,
    },
    /// A room's state (`GET /rooms/{roomId}/state`).
    AllState {
        room: Text,
    },
    /// The member events of a room's state (`GET /rooms/{roomId}/members`).
    Members {
        room: Text,
        /// Those of this membership alone.
        membership: Option<Text>,
        /// Those of another membership alone.
        not_membership: Option<Text>,
    },
    /// An event of a room (`GET /rooms/{roomId}/event/{eventId}`).
    OneEvent {
        room: Text,
        event: Text,
    },
    /// To redact an event of a room (`PUT /rooms/{roomId}/redact/{eventId}/{txnId}`). The transaction's path begins with the
    /// room: `[room, "redact", event]`.
    Redact {
        room: Text,
        event: Text,
        txn: Txn,
        reason: Option<Text>,
    },
    /// To join a room (`POST /join/{roomIdOrAlias}`, `POST /rooms/{roomId}/join`).
    Join {
        room: Text,
        reason: Option<Text>,
    },
    /// To leave a room (`POST /rooms/{roomId}/leave`).
    Leave {
        room: Text,
        reason: Option<Text>,
    },
    /// To invite a user (`POST /rooms/{roomId}/invite`).
    Invite {
        room: Text,
        user: Text,
        reason: Option<Text>,
    },
    /// To make a user leave (`POST /rooms/{roomId}/kick`).
    Kick {
        room: Text,
        user: Text,
        reason: Option<Text>,
    },
    /// To ban a user (`POST /rooms/{roomId}/ban`).
    Ban {
        room: Text,
        user: Text,
        reason: Option<Text>,
    },
    /// To end a user's ban (`POST /rooms/{roomId}/unban`).
    Unban {
        room: Text,
        user: Text,
        reason: Option<Text>,
    },
    /// A page of a room's events (`GET /rooms/{roomId}/messages`). The limit is at most 1,000.
    Messages {
        room: Text,
        /// `dir` is `b`.
        backward: bool,
        from: Option<Bound>,
        to: Option<Bound>,
        limit: u64,
        filter: Filter,
    },
    /// A sync (`GET /sync`).
    Sync {
        since: Option<SyncToken>,
        filter: FilterAsk,
        full_state: bool,
        /// The state of each room is that at the end of its timeline, not that at its beginning.
        after: bool,
        /// How long it may wait for something to tell, in milliseconds, at most 300,000.
        timeout: u64,
    },
    /// To store a filter (`POST /user/{userId}/filter`).
    PutFilter {
        filter: Json,
    },
    /// A stored filter (`GET /user/{userId}/filter/{filterId}`).
    GetFilter {
        id: Text,
    },
    /// To put account data, global or of a room (`PUT /user/{userId}/account_data/{type}`,
    /// `PUT /user/{userId}/rooms/{roomId}/account_data/{type}`).
    PutAccount {
        room: Option<Text>,
        kind: Text,
        content: Json,
    },
    /// Account data, global or of a room (`GET` of the same paths).
    GetAccount {
        room: Option<Text>,
        kind: Text,
    },
    /// The tags of a room (`GET /user/{userId}/rooms/{roomId}/tags`).
    Tags {
        room: Text,
    },
    /// To tag a room (`PUT /user/{userId}/rooms/{roomId}/tags/{tag}`).
    PutTag {
        room: Text,
        tag: Text,
        body: Json,
    },
    /// To take a tag from a room (`DELETE` of the same path).
    DeleteTag {
        room: Text,
        tag: Text,
    },
    /// To mark up to which event of a room the caller has read (`POST /rooms/{roomId}/receipt/{receiptType}/{eventId}`). No
    /// kind is `m.fully_read`.
    Receipt {
        room: Text,
        kind: Option<ReceiptKind>,
        event: Text,
    },
    /// To mark up to which events of a room the caller has read (`POST /rooms/{roomId}/read_markers`).
    ReadMarkers {
        room: Text,
        /// The event of `m.fully_read`.
        fully_read: Option<Text>,
        /// The event of `m.read`.
        read: Option<Text>,
        /// The event of `m.read.private`.
        private: Option<Text>,
    },
    /// All push rules (`GET /pushrules/`), or those of the global set alone (`GET /pushrules/global/`).
    PushRules {
        inner: bool,
    },
    /// A push rule (`GET /pushrules/global/{kind}/{ruleId}`).
    GetRule {
        kind: Kind,
        id: Text,
    },
    /// To put a push rule (`PUT` of the same path).
    PutRule {
        kind: Kind,
        id: Text,
        body: Json,
        /// It goes right before this rule.
        before: Option<Text>,
        /// It goes right after this rule.
        after: Option<Text>,
    },
    /// To remove a push rule (`DELETE` of the same path).
    DeleteRule {
        kind: Kind,
        id: Text,
    },
    /// Whether a push rule is enabled (`GET /pushrules/global/{kind}/{ruleId}/enabled`).
    GetEnabled {
        kind: Kind,
        id: Text,
    },
    /// To enable or disable a push rule (`PUT` of the same path).
    PutEnabled {
        kind: Kind,
        id: Text,
        on: bool,
    },
    /// The actions of a push rule (`GET /pushrules/global/{kind}/{ruleId}/actions`).
    GetActions {
        kind: Kind,
        id: Text,
    },
    /// To set the actions of a push rule (`PUT` of the same path).
    PutActions {
        kind: Kind,
        id: Text,
        body: Json,
    },
}

/// Who asks what.
#[derive(Drop)]
pub struct Request {
    pub who: Who,
    pub ask: Ask,
}
