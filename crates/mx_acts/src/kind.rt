//! The kinds of what is asked.

ghost use Rattle.std.specs.Prelude.{◌≡◌, ℕ};
ghost use Rattle.mx_acts.specs.Acts.{asked, kind_in};
ghost use Rattle.mx_aims.specs.Asked.{Site};
ghost use Rattle.mx_ask.specs.declared.ask.Who.{Who};

use mx_ask::Ask;

/// What a request asks of the streams.
#[derive(Clone, Copy, Debug, PartialEq, Eq)]
pub enum ActKind {
    /// An answer that is read off what they cover.
    Reads,
    /// A write of events.
    Sends,
    /// That a filter is stored.
    Files,
    /// A write of account data.
    Puts,
    /// A write of receipts.
    Marks,
    /// A write of `m.fully_read` and then of receipts.
    Notes,
}

/// What a request asks of the streams. Takes no memory.
pub fn kind_of(ask: &Ask) -> ActKind
    ensures { (site : Site) (now : ℕ) (who : Who) → result ≡ kind_in (asked site now who ask.now) }
{
    match ask {
        Ask::WhoAmI
        | Ask::JoinedRooms
        | Ask::GetState { .. }
        | Ask::AllState { .. }
        | Ask::Members { .. }
        | Ask::OneEvent { .. }
        | Ask::Messages { .. }
        | Ask::Sync { .. }
        | Ask::GetFilter { .. }
        | Ask::GetAccount { .. }
        | Ask::Tags { .. }
        | Ask::PushRules { .. }
        | Ask::GetRule { .. }
        | Ask::GetEnabled { .. }
        | Ask::GetActions { .. } => ActKind::Reads,
        Ask::CreateRoom { .. }
        | Ask::Send { .. }
        | Ask::PutState { .. }
        | Ask::Redact { .. }
        | Ask::Join { .. }
        | Ask::Leave { .. }
        | Ask::Invite { .. }
        | Ask::Kick { .. }
        | Ask::Ban { .. }
        | Ask::Unban { .. } => ActKind::Sends,
        Ask::PutFilter { .. } => ActKind::Files,
        Ask::PutAccount { .. }
        | Ask::PutTag { .. }
        | Ask::DeleteTag { .. }
        | Ask::PutRule { .. }
        | Ask::DeleteRule { .. }
        | Ask::PutEnabled { .. }
        | Ask::PutActions { .. }
        | Ask::Receipt { kind: None, .. } => ActKind::Puts,
        Ask::Receipt { kind: Some(_), .. }
        | Ask::ReadMarkers {
            fully_read: None,
            ..
        } => ActKind::Marks,
        Ask::ReadMarkers {
            fully_read: Some(_),
            ..
        } => ActKind::Notes,
    }
}
