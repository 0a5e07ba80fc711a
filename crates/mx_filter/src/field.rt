//! The fields of a filter that are known, and the forms of their values.
ghost use Rattle.std.specs.Prelude.{◌≡◌};
ghost use Rattle.mx_filter.specs.Fields.{form_of, key_of, path_of, prefix_of};

/// A field that holds no filter of its own.
#[derive(Clone, Copy, Debug, PartialEq, Eq)]
pub(crate) enum Field {
    ContainsUrl,
    EventFields,
    EventFormat,
    IncludeLeave,
    IncludeRedundantMembers,
    LazyLoadMembers,
    Limit,
    NotRooms,
    NotSenders,
    NotTypes,
    Rooms,
    Senders,
    Types,
}

/// The form of a value.
#[derive(Clone, Copy, Debug, PartialEq, Eq)]
pub(crate) enum Form {
    /// A list of texts.
    Texts,
    /// A whole number of at least 0.
    Count,
    /// A truth value.
    Truth,
    /// `client` or `federation`.
    EventFormat,
}

/// Where in a filter fields stand.
#[derive(Clone, Copy, Debug, PartialEq, Eq)]
pub(crate) enum Place {
    Top,
    AccountData,
    Room,
    RoomAccountData,
    RoomEphemeral,
    RoomState,
    RoomTimeline,
}

impl Field {
    pub(crate) fn key(self) -> &'static str
        ensures { result.now ≡ key_of self }
    {
        match self {
            Field::ContainsUrl => "contains_url",
            Field::EventFields => "event_fields",
            Field::EventFormat => "event_format",
            Field::IncludeLeave => "include_leave",
            Field::IncludeRedundantMembers => "include_redundant_members",
            Field::LazyLoadMembers => "lazy_load_members",
            Field::Limit => "limit",
            Field::NotRooms => "not_rooms",
            Field::NotSenders => "not_senders",
            Field::NotTypes => "not_types",
            Field::Rooms => "rooms",
            Field::Senders => "senders",
            Field::Types => "types",
        }
    }

    pub(crate) fn form(self) -> Form
        ensures { result ≡ form_of self }
    {
        match self {
            Field::ContainsUrl
            | Field::IncludeLeave
            | Field::IncludeRedundantMembers
            | Field::LazyLoadMembers => Form::Truth,
            Field::Limit => Form::Count,
            Field::EventFormat => Form::EventFormat,
            Field::EventFields
            | Field::NotRooms
            | Field::NotSenders
            | Field::NotTypes
            | Field::Rooms
            | Field::Senders
            | Field::Types => Form::Texts,
        }
    }
}

impl Place {
    /// The keys that lead there, with dots between.
    pub(crate) fn path(self) -> &'static str
        ensures { result.now ≡ path_of self }
    {
        match self {
            Place::Top => "body",
            Place::AccountData => "account_data",
            Place::Room => "room",
            Place::RoomAccountData => "room.account_data",
            Place::RoomEphemeral => "room.ephemeral",
            Place::RoomState => "room.state",
            Place::RoomTimeline => "room.timeline",
        }
    }

    /// What stands before the key of a field there.
    pub(crate) fn prefix(self) -> &'static str
        ensures { result.now ≡ prefix_of self }
    {
        match self {
            Place::Top => "",
            Place::AccountData => "account_data.",
            Place::Room => "room.",
            Place::RoomAccountData => "room.account_data.",
            Place::RoomEphemeral => "room.ephemeral.",
            Place::RoomState => "room.state.",
            Place::RoomTimeline => "room.timeline.",
        }
    }
}
