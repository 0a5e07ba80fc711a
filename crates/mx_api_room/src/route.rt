//! The routes on rooms.

use crate::creation::create;
use crate::events::{redact, send, state, state_at_key};
use crate::membership::{Change, OwnChange, change_member, change_own};
use mx_api::{Asked, Authenticated, Endpoint, one_part, room_of};
use mx_ids::Memory;
use std::alloc::Global;

/// A route, by its path.
#[derive(Clone, Copy, Drop)]
pub(crate) enum Route {
    /// `POST /createRoom`
    CreateRoom,
    /// `PUT /rooms/{roomId}/send/{eventType}/{txnId}`
    Send,
    /// `PUT` and `GET /rooms/{roomId}/state/{eventType}/{stateKey}`
    StateAtKey,
    /// `PUT` and `GET /rooms/{roomId}/state/{eventType}/`
    StateAtEmptyKey,
    /// `PUT` and `GET /rooms/{roomId}/state/{eventType}`
    State,
    /// `PUT /rooms/{roomId}/redact/{eventId}/{txnId}`
    Redact,
    /// `POST /join/{roomId}`
    JoinById,
    /// `POST /rooms/{roomId}/join`
    Join,
    /// `POST /rooms/{roomId}/leave`
    Leave,
    /// `POST /rooms/{roomId}/invite`
    Invite,
    /// `POST /rooms/{roomId}/kick`
    Kick,
    /// `POST /rooms/{roomId}/ban`
    Ban,
    /// `POST /rooms/{roomId}/unban`
    Unban,
}

/// All of them.
pub(crate) const ROUTES: [Route; 13] = [
    Route::CreateRoom,
    Route::Send,
    Route::StateAtKey,
    Route::StateAtEmptyKey,
    Route::State,
    Route::Redact,
    Route::JoinById,
    Route::Join,
    Route::Leave,
    Route::Invite,
    Route::Kick,
    Route::Ban,
    Route::Unban,
];

impl Endpoint for Route {
    ghost use Rattle.mx_api_room.specs.Asked.{route_asked};
    ghost use Rattle.mx_api_room.specs.Routes.{has_method, path_of};

    ghost path = { path_of };

    ghost has_method = { has_method };

    ghost asks = { route_asked };

    fn path(self) -> &'static str {
        match self {
            Route::CreateRoom => "/_matrix/client/v3/createRoom",
            Route::Send => "/_matrix/client/v3/rooms/{roomId}/send/{eventType}/{txnId}",
            Route::StateAtKey => "/_matrix/client/v3/rooms/{roomId}/state/{eventType}/{stateKey}",
            Route::StateAtEmptyKey => "/_matrix/client/v3/rooms/{roomId}/state/{eventType}/",
            Route::State => "/_matrix/client/v3/rooms/{roomId}/state/{eventType}",
            Route::Redact => "/_matrix/client/v3/rooms/{roomId}/redact/{eventId}/{txnId}",
            Route::JoinById => "/_matrix/client/v3/join/{roomId}",
            Route::Join => "/_matrix/client/v3/rooms/{roomId}/join",
            Route::Leave => "/_matrix/client/v3/rooms/{roomId}/leave",
            Route::Invite => "/_matrix/client/v3/rooms/{roomId}/invite",
            Route::Kick => "/_matrix/client/v3/rooms/{roomId}/kick",
            Route::Ban => "/_matrix/client/v3/rooms/{roomId}/ban",
            Route::Unban => "/_matrix/client/v3/rooms/{roomId}/unban",
        }
    }

    fn has_method(self, method: &str) -> bool {
        match self {
            Route::StateAtKey | Route::StateAtEmptyKey | Route::State => {
                method == "PUT" || method == "GET"
            }
            Route::Send | Route::Redact => method == "PUT",
            Route::CreateRoom
            | Route::JoinById
            | Route::Join
            | Route::Leave
            | Route::Invite
            | Route::Kick
            | Route::Ban
            | Route::Unban => method == "POST",
        }
    }

    fn ask(
        self,
        alloc: Global,
        method: &str,
        body: &[u8],
        caller: Authenticated,
    ) -> Result<Asked, Memory> {
        match self {
            Route::CreateRoom => create(alloc, caller, body),
            Route::Send => send(alloc, caller, body),
            Route::StateAtKey | Route::StateAtEmptyKey => state_at_key(alloc, method, caller, body),
            Route::State => state(alloc, method, caller, body),
            Route::Redact => redact(alloc, caller, body),
            Route::JoinById => change_own(
                alloc,
                OwnChange::Join,
                caller.who,
                one_part(caller.parts),
                body,
            ),
            Route::Join => change_own(
                alloc,
                OwnChange::Join,
                caller.who,
                room_of(caller.parts),
                body,
            ),
            Route::Leave => change_own(
                alloc,
                OwnChange::Leave,
                caller.who,
                room_of(caller.parts),
                body,
            ),
            Route::Invite => change_member(
                alloc,
                Change::Invite,
                caller.who,
                room_of(caller.parts),
                body,
            ),
            Route::Kick => change_member(
                alloc,
                Change::Kick,
                caller.who,
                room_of(caller.parts),
                body,
            ),
            Route::Ban => change_member(
                alloc,
                Change::Ban,
                caller.who,
                room_of(caller.parts),
                body,
            ),
            Route::Unban => change_member(
                alloc,
                Change::Unban,
                caller.who,
                room_of(caller.parts),
                body,
            ),
        }
    }
}
