//! The types of events that the server knows (Client-Server API, Types of room events).

pub const CREATE: &str = "m.room.create";

pub const GUEST_ACCESS: &str = "m.room.guest_access";

pub const HISTORY_VISIBILITY: &str = "m.room.history_visibility";

pub const JOIN_RULES: &str = "m.room.join_rules";

pub const MEMBER: &str = "m.room.member";

pub const NAME: &str = "m.room.name";

pub const POWER_LEVELS: &str = "m.room.power_levels";

pub const REDACTION: &str = "m.room.redaction";

pub const TOPIC: &str = "m.room.topic";
