//! The users of a homeserver, as the users file names them, and the look-ups that find a user or a device among them.
//!
//! The call is `read_users`: from the bytes of a users file it makes a [`Directory`], or answers the number of the
//! first line that breaks the file's form. The users that it gives are valid ones: of one server, each once, with
//! each device name of a user and each access token once.
//!
//! A `Directory` is seen by contracts as its `Users`. `user` finds a user's number by the id, `device` and `caller` a
//! device by its access token (Client-Server API, Client Authentication), each exactly where there is one, by a
//! look-up whose cost grows with the logarithm of their number.
//!
//! Begin with `directory.rt`, then `users_file.rt` with `specs/UsersFile.antt`, which has the file's form.
#![tactic(auto)]

mod cuts;
mod directory;
mod fault;
mod name_forms;
mod user_list;
mod users_file;

pub use directory::Directory;
pub use fault::UsersFault;
pub use users_file::read_users;
