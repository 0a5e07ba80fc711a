//! The texts, lists, ids and tokens on which every other crate of mxsync stands.
//!
//! [`Text`] and [`Seq`] are a text and a list that contracts see as their bytes and items; what grows answers
//! [`Memory`] where an allocation is refused, and is then as it was. [`Copied`] is a value of which an equal one can
//! be made.
//!
//! The contract of the readers and writers is that each id and token has one text: `read_sync_token` answers a token
//! exactly where the text is that of a token in range, `write_sync_token` appends just this text, and no two tokens
//! have one text. The same holds of page tokens, room ids and event ids (Appendices, Identifier Grammar).
//! `is_user_id` holds exactly of user ids.
//!
//! Begin with `sync_token.rt`, whose definitions are in `specs/Sync.antt`; `text.rt` shows how contracts see a type
//! of this repository.
#![tactic(auto)]

mod characters;
mod copied;
mod event_id;
mod memory;
mod number;
mod page_token;
mod room_id;
mod seq;
mod server_part;
mod sync_token;
mod text;
mod user;
mod users;

pub use characters::split_first;
pub use copied::Copied;
pub use event_id::{EventId, event_id_text_is_injective, read_event_id, write_event_id};
pub use memory::Memory;
pub use page_token::{PageToken, page_text_is_injective, read_page_token, write_page_token};
pub use room_id::{RoomId, read_room_id, room_id_text_is_injective, write_room_id};
pub use seq::Seq;
pub use sync_token::{
    SyncToken, TokenFault, read_sync_token, sync_text_is_injective, write_sync_token,
};
pub use text::Text;
pub use user::{UserId, is_user_id, user_id};
pub use users::{Device, Users, user_of_server_has_user_id};
