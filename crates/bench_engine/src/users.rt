//! The users of the engine.

use crate::unmeasured::Unmeasured;
use mx_ask::Who;
use mx_ids::{Copied, Memory};
use mx_users::Directory;
use std::alloc::Global;

/// A users file of alice and of so many others.
pub fn users_file(alloc: Global, others: u32) -> Result<String, Memory> {
    let mut file = String::from_str(alloc, "server example.org\nalice A1 tok_a1\n")?;
    'users: for number in 0..others {
        let line = format!(in alloc; "u{number} D1 tok_u{number}\n")?;
        file.push_str(line.as_str())?;
    }
    Ok(file)
}

/// The user of this number, alice at 0. `Other` where there is none.
pub fn user_at(alloc: Global, directory: &Directory, number: u32) -> Result<Who, Unmeasured> {
    match directory.users().users.as_slice().get(number as usize) {
        Some(user) => Ok(Who {
            user: user.copy(alloc)?,
            device: 0,
        }),
        None => Err(Unmeasured::Other),
    }
}
