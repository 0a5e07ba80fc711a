ghost use Rattle.std.specs.Prelude.{◌≡◌, true, List, ℕ};
ghost use Rattle.mx_ids.specs.Name.{is_server_name};
ghost use Rattle.mx_ids.specs.User.{server_of, IsUserId};
ghost use Rattle.mx_ids.specs.Users.{IsUserOf};

use crate::seq::Seq;
use crate::text::Text;
use crate::user::UserId;

/// The users of one server, at most 4,096, and their devices, at most 8,192. A user's number is
/// its index in `users`, and a device's number its index in `devices`.
#[derive(Debug, Drop)]
pub struct Users {
    pub server: Text,
    pub users: Seq<UserId>,
    pub devices: Seq<Device>,
}

/// A device of a user, with the access token that its requests carry
/// (Client-Server API, Client Authentication).
#[derive(Debug, Drop)]
pub struct Device {
    /// The user's number.
    pub user: u32,
    /// The device id: 1 to 64 letters, digits, `_` and `-`.
    pub name: Text,
    /// The access token: 1 to 255 letters, digits, `_`, `-`, `.` and `~`.
    pub token: Text,
}

/// A law, with nothing to run: what the users file names as a user of a server has the form of a
/// user id, and this server is the part behind its first `:`.
pub fn user_of_server_has_user_id()
    ensures form { (server id : List ℕ) → is_server_name server ≡ true → IsUserOf server id → IsUserId id }
    ensures server { (server id : List ℕ) → IsUserOf server id → server_of id ≡ server }
{}
