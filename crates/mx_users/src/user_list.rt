//! The users and devices of a file, as far as it is read.
ghost use Rattle.std.specs.Prelude.{◌≡◌, ◌≤◌, [], ◌∷◌, ◌++◌, length, Some, None, IfOk, OnOk, IsErrOf};
ghost use Rattle.mx_users.specs.Indexed.{AreNamed, AreNumbered, AreTokened, with_one};
ghost use Rattle.mx_users.specs.UsersFile as file;
ghost use Rattle.mx_users.specs.UsersFile.{number_of};
ghost use Rattle.mx_users.specs.declared.fault.LineFault.{LineFault};

use crate::fault::LineFault;
use mx_ids::{Copied, Device, Memory, Seq, Text, UserId, Users};
use std::alloc::Global;
use std::collections::{BTreeMap, BTreeSet};

/// A file names at most so many users.
const MOST_USERS: usize = 4096;

/// A file names at most so many devices.
const MOST_DEVICES: usize = 8192;

/// Users and their devices, with indices that find a user, a user's device and a token.
#[derive(Drop)]
pub(crate) struct UserList {
    pub(crate) users: Users,
    /// The number of each user, by its id.
    pub(crate) numbers: BTreeMap<Text, u32>,
    /// The user and the name of each device.
    names: BTreeSet<(u32, Text)>,
    /// The number of each device, by its access token.
    pub(crate) tokens: BTreeMap<Text, u32>,
    ghost few: { length users.users ≤ 4096 },
    ghost numbered: { AreNumbered users.users numbers },
    ghost named: { AreNamed users.devices names },
    ghost tokened: { AreTokened users.devices tokens },
}

impl UserList {
    /// A server without users. Takes no memory.
    pub(crate) fn new(alloc: Global, server: Text) -> UserList
        ensures { result.users ≡ record { server = server; users = []; devices = [] } }
    {
        UserList {
            users: Users {
                server,
                users: Seq::new(alloc),
                devices: Seq::new(alloc),
            },
            numbers: BTreeMap::new(alloc),
            names: BTreeSet::new(alloc),
            tokens: BTreeMap::new(alloc),
        }
    }

    /// The list with this user, and the user's number. `Broken` exactly where the user would be
    /// one too many.
    pub(crate) fn with_user(self, alloc: Global, id: UserId) -> Result<(UserList, u32), LineFault>
        ensures found { IfOk result (λ r. file.with_user self.users id ≡ Some r.0.users) }
        ensures number { IfOk result (λ r. r.1 ≡ number_of r.0.users.users id) }
        ensures broken { IsErrOf result LineFault.Broken → file.with_user self.users id ≡ None }
    {
        let UserList {
            mut users,
            mut numbers,
            names,
            tokens,
        } = self;
        let number = place_user(alloc, &mut users, &mut numbers, id)?;
        Ok((
            UserList {
                users,
                numbers,
                names,
                tokens,
            },
            number,
        ))
    }

    /// The list with one device more. `Broken` exactly where its user has one of this name, where
    /// a device has its token, or where it would be one too many.
    pub(crate) fn with_device(
        self,
        alloc: Global,
        user: u32,
        name: &str,
        token: &str,
    ) -> Result<UserList, LineFault>
        ensures found { IfOk result (λ l. file.with_device self.users user name.now token.now ≡ Some l.users) }
        ensures broken { IsErrOf result LineFault.Broken → file.with_device self.users user name.now token.now ≡ None }
    {
        let UserList {
            mut users,
            numbers,
            mut names,
            mut tokens,
        } = self;
        let device = device_of(alloc, user, name, token)?;
        add_device(alloc, &mut users, &mut names, &mut tokens, device)?;
        Ok(UserList {
            users,
            numbers,
            names,
            tokens,
        })
    }
}

/// The number of a user, who is added behind the others where the list lacks it. `Broken` exactly
/// where the user would be one too many. Where it fails, the index may have more than the list.
#[tactic(auto, unfolding(crate::specs::UsersFile::with_user))]
fn place_user(
    alloc: Global,
    users: &mut Users,
    numbers: &mut BTreeMap<Text, u32>,
    id: UserId,
) -> Result<u32, LineFault>
    requires few { length users.old.users ≤ 4096 }
    requires numbered { AreNumbered users.old.users numbers.old }
    ensures found { IfOk result (λ _. file.with_user users.old id ≡ Some users.new) }
    ensures number { IfOk result (λ n. n ≡ number_of users.new.users id) }
    ensures broken { IsErrOf result LineFault.Broken → file.with_user users.old id ≡ None }
    ensures few { IfOk result (λ _. length users.new.users ≤ 4096) }
    ensures numbered { IfOk result (λ _. AreNumbered users.new.users numbers.new) }
    ensures devices { IfOk result (λ _. users.new.devices ≡ users.old.devices) }
{
    if let Some(number) = numbers.get(id.as_text()) {
        return Ok(*number);
    }
    if users.users.len() >= MOST_USERS {
        return Err(LineFault::Broken);
    }
    let number = users.users.len() as u32;
    numbers.insert(id.as_text().copy(alloc)?, number)?;
    users.users.push(id)?;
    Ok(number)
}

/// Adds a device behind the others. `Broken` exactly where its user has one of this name, where a
/// device has its token, or where it would be one too many. Where it fails, the indices may have
/// more than the list.
fn add_device(
    alloc: Global,
    users: &mut Users,
    names: &mut BTreeSet<(u32, Text)>,
    tokens: &mut BTreeMap<Text, u32>,
    device: Device,
) -> Result<(), LineFault>
    requires named { AreNamed users.old.devices names.old }
    requires tokened { AreTokened users.old.devices tokens.old }
    ensures found { IfOk result (λ _. file.with_device users.old device.user device.name device.token ≡ Some users.new) }
    ensures broken { IsErrOf result LineFault.Broken → file.with_device users.old device.user device.name device.token ≡ None }
    ensures named { IfOk result (λ _. AreNamed users.new.devices names.new) }
    ensures tokened { IfOk result (λ _. AreTokened users.new.devices tokens.new) }
    ensures users { IfOk result (λ _. users.new.users ≡ users.old.users) }
{
    index_device(alloc, users, names, tokens, &device)?;
    users.devices.push(device)?;
    Ok(())
}

/// Puts a device that is to follow the others into the indices. `Broken` exactly where its user
/// has one of this name, where a device has its token, or where it would be one too many.
#[tactic(auto, unfolding(crate::specs::UsersFile::with_device))]
fn index_device(
    alloc: Global,
    users: &Users,
    names: &mut BTreeSet<(u32, Text)>,
    tokens: &mut BTreeMap<Text, u32>,
    device: &Device,
) -> Result<(), LineFault>
    requires named { AreNamed users.now.devices names.old }
    requires tokened { AreTokened users.now.devices tokens.old }
    ensures found { OnOk result (file.with_device users.now device.now.user device.now.name device.now.token ≡ Some (with_one users.now device.now)) }
    ensures broken { IsErrOf result LineFault.Broken → file.with_device users.now device.now.user device.now.name device.now.token ≡ None }
    ensures named { OnOk result (AreNamed (users.now.devices ++ device.now ∷ []) names.new) }
    ensures tokened { OnOk result (AreTokened (users.now.devices ++ device.now ∷ []) tokens.new) }
{
    if tokens.contains_key(&device.token) {
        return Err(LineFault::Broken);
    }
    if users.devices.len() >= MOST_DEVICES {
        return Err(LineFault::Broken);
    }
    if !names.insert((device.user, device.name.copy(alloc)?))? {
        return Err(LineFault::Broken);
    }
    let number = users.devices.len() as u32;
    tokens.insert(device.token.copy(alloc)?, number)?;
    Ok(())
}

/// The device of a user, with its name and its access token.
fn device_of(alloc: Global, user: u32, name: &str, token: &str) -> Result<Device, Memory>
    ensures { IfOk result (λ d. d ≡ record { user = user; name = name.now; token = token.now }) }
{
    let name = text_of(alloc, name)?;
    let token = text_of(alloc, token)?;
    Ok(Device { user, name, token })
}

/// A text of its own.
pub(crate) fn text_of(alloc: Global, text: &str) -> Result<Text, Memory>
    ensures { IfOk result (λ t. t ≡ text.now) }
{
    Ok(Text::from_string(String::from_str(alloc, text)?))
}
