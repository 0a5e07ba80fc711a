//! The users of a server, and look-ups among them.
ghost use Rattle.std.specs.Prelude.{◌≡◌, ◌<◌, IfSome, length, option_map};
ghost use Rattle.mx_ids.specs.Users.{IsUsers};
ghost use Rattle.mx_users.specs.Finds.{caller_of, device_at, user_at, user_of};

use mx_ids::{Text, UserId, Users};
use std::collections::BTreeMap;
use std::marker::Model;

/// The users of one server, each once, and their devices, with each device name of a user and each access token once.
/// Contracts see it as its `Users`; it finds a user by its id and a device by its access token, each by a look-up whose
/// cost grows with the logarithm of their number.
#[derive(Drop)]
pub struct Directory {
    pub(crate) users: Users,
    /// The number of each user, by its id.
    pub(crate) numbers: BTreeMap<Text, u32>,
    /// The number of each device, by its access token.
    pub(crate) tokens: BTreeMap<Text, u32>,
}

impl Model for Directory {
    ghost use Rattle.mx_ids.specs.declared.users.Users.{Users};
    ghost use Rattle.mx_users.specs.Finds.{IsFound};

    ghost Value = { Users };

    ghost view = { λ d. d.users };

    ghost invariant = { λ d. IsFound d.users d.numbers d.tokens };
}

impl Directory {
    /// The users and their devices. Takes no memory.
    pub fn users(&self) -> &Users
        ensures users { result.now ≡ self.now }
        ensures valid { IsUsers self.now }
    {
        &self.users
    }

    /// The number of the user with an id. Takes no memory.
    pub fn user(&self, id: &Text) -> Option<u32>
        ensures { result ≡ user_at self.now.users id.now }
    {
        self.numbers.get(id).copied()
    }

    /// The number of the device that has an access token (Client-Server API, Client Authentication). Takes no memory.
    pub fn device(&self, token: &Text) -> Option<u32>
        ensures number { result ≡ device_at self.now.devices token.now }
        ensures within { IfSome result (λ device. device < length self.now.devices) }
    {
        self.tokens.get(token).copied()
    }

    /// The user of a device. Takes no memory.
    pub fn user_of(&self, device: u32) -> &UserId
        requires { device < length self.now.devices }
        ensures { result.now ≡ user_of self.now device }
    {
        let device = &self.users.devices.as_slice()[device as usize];
        &self.users.users.as_slice()[device.user as usize]
    }

    /// The user and the device that have an access token (Client-Server API, Client Authentication). Takes no memory.
    pub fn caller(&self, token: &Text) -> Option<(&UserId, u32)>
        ensures { option_map (λ c. (c.0.now, c.1)) result ≡ caller_of self.now token.now }
    {
        let device = self.device(token)?;
        Some((self.user_of(device), device))
    }
}
