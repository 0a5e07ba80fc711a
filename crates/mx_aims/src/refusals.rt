//! What a user is told where a writer stores nothing.

ghost use Rattle.std.specs.Prelude.{◌≡◌};
ghost use Rattle.mx_aims.specs.Asked.{create_refusal, event_refusal};
ghost use Rattle.mx_aims.specs.Stored.{entry_refusal};

use crate::events::EventFault;
use mx_create::CreateFault;
use mx_entries::EntryFault;
use mx_room::RoomFault;
use mx_room_reads::Refusal;

/// Why account data isn't stored.
pub fn entry_refusal(fault: EntryFault) -> Refusal
    ensures { result ≡ entry_refusal fault }
{
    match fault {
        EntryFault::DefaultRule => Refusal::DefaultRule,
        EntryFault::NoRule => Refusal::NotFound,
        EntryFault::BadCondition => Refusal::BadCondition,
        EntryFault::BadAction => Refusal::BadAction,
        EntryFault::NoNeighbour(side) => Refusal::NoNeighbour(side),
    }
}

/// Why events aren't stored.
pub fn event_refusal(fault: EventFault) -> Refusal
    ensures { result ≡ event_refusal fault }
{
    match fault {
        EventFault::Room(RoomFault::TooLarge) => Refusal::TooLarge,
        EventFault::Room(RoomFault::Denied(rule)) => Refusal::Denied(rule),
        EventFault::Room(_) => Refusal::NotFound,
        EventFault::Create(fault) => create_refusal(fault),
    }
}

/// Why a room isn't created.
pub(crate) fn create_refusal(fault: CreateFault) -> Refusal
    ensures { result ≡ create_refusal fault }
{
    match fault {
        CreateFault::Version => Refusal::Version,
        CreateFault::Preset => Refusal::Preset,
        CreateFault::TooMany => Refusal::TooMany,
        CreateFault::TooLarge => Refusal::TooLarge,
        CreateFault::State(rule) => Refusal::State(rule),
        CreateFault::NoUser | CreateFault::Memory(_) => Refusal::NotFound,
    }
}
