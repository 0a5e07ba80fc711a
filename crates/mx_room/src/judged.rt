//! Why an event isn't admitted.
ghost use Rattle.std.specs.Prelude.{◌≡◌, Some, None, MatchResult};
ghost use Rattle.mx_ids.specs.User.{server_of};
ghost use Rattle.mx_event.specs.Forms.{fits};
ghost use Rattle.mx_room.specs.Admitting.{refusal};

use crate::fault::RoomFault;
use mx_auth::{AuthState, allowed, has_target};
use mx_event::Event;

/// Judges an event after those of its room, in the order in which the faults stand, by whether it is small enough. Takes no memory.
pub(crate) fn judge(event: &Event, is_small: bool, state: &AuthState) -> Result<(), RoomFault>
    requires sized { is_small ≡ fits (server_of event.now.sender) event.now }
    ensures { MatchResult result (λ _. refusal event.now state.now.events ≡ None) (λ f. refusal event.now state.now.events ≡ Some f) }
{
    if !is_small {
        return Err(RoomFault::TooLarge);
    }
    if !has_target(event, state) {
        return Err(RoomFault::NoTarget);
    }
    match allowed(event, state) {
        Ok(()) => Ok(()),
        Err(denial) => Err(RoomFault::Denied(denial.rule)),
    }
}
