//! The presets of new rooms.
ghost use Rattle.std.specs.Prelude.{◌≡◌};
ghost use Rattle.mx_create.specs.Presets.{by_visibility, guest_access_of, history_visibility_of, join_rule_of, preset_named, preset_of, trusts_invited};

use crate::body::is_text_at;
use mx_json::Json;

/// What a new room is like where its creator says nothing else (Client-Server API, `POST /createRoom`).
#[derive(Clone, Copy, Debug, PartialEq, Eq)]
pub enum Preset {
    /// Users join on an invitation, and guests may.
    PrivateChat,
    /// The same, and those who are invited have the creator's power level.
    TrustedPrivateChat,
    /// Anyone may join, but guests mayn't.
    PublicChat,
}

impl Preset {
    /// The preset that a body of `POST /createRoom` asks for: the one that it names, else the one
    /// that goes with its `visibility`. `None` exactly where it names one that there isn't. Takes
    /// no memory.
    pub fn asked(ask: &Json) -> Option<Preset>
        ensures { result ≡ preset_of ask.now }
    {
        match ask.field("preset") {
            Some(name) => Preset::named(name.as_text()?.as_str()),
            None => Some(Preset::by_visibility(ask)),
        }
    }

    /// The preset with this name, or `None` where there is none.
    pub fn named(name: &str) -> Option<Preset>
        ensures { result ≡ preset_named name.now }
    {
        match name {
            "private_chat" => Some(Preset::PrivateChat),
            "trusted_private_chat" => Some(Preset::TrustedPrivateChat),
            "public_chat" => Some(Preset::PublicChat),
            _ => None,
        }
    }

    /// The preset of a room whose body names none: public where the room is to be listed.
    fn by_visibility(ask: &Json) -> Preset
        ensures { result ≡ by_visibility ask.now }
    {
        if is_text_at(ask, "visibility", "public") {
            Preset::PublicChat
        } else {
            Preset::PrivateChat
        }
    }

    /// The `join_rule` of the room (Client-Server API, `m.room.join_rules`).
    pub fn join_rule(self) -> &'static str
        ensures { result.now ≡ join_rule_of self }
    {
        match self {
            Preset::PrivateChat | Preset::TrustedPrivateChat => "invite",
            Preset::PublicChat => "public",
        }
    }

    /// The `history_visibility` of the room (Client-Server API, `m.room.history_visibility`).
    pub fn history_visibility(self) -> &'static str
        ensures { result.now ≡ history_visibility_of self }
    {
        match self {
            Preset::PrivateChat | Preset::TrustedPrivateChat | Preset::PublicChat => "shared",
        }
    }

    /// The `guest_access` of the room (Client-Server API, `m.room.guest_access`).
    pub fn guest_access(self) -> &'static str
        ensures { result.now ≡ guest_access_of self }
    {
        match self {
            Preset::PrivateChat | Preset::TrustedPrivateChat => "can_join",
            Preset::PublicChat => "forbidden",
        }
    }

    /// Whether those who are invited get the creator's power level.
    pub fn trusts_invited(self) -> bool
        ensures { result ≡ trusts_invited self }
    {
        match self {
            Preset::TrustedPrivateChat => true,
            Preset::PrivateChat | Preset::PublicChat => false,
        }
    }
}
