//! The routes that read rooms, and that mark what was read.

use crate::markers::{mark, read_markers};
use crate::messages::messages;
use crate::reads::{event, members, state};
use mx_api::{Asked, Authenticated, Endpoint};
use mx_ask::{Ask, Request};
use mx_ids::Memory;
use std::alloc::Global;

/// A route, by its path.
#[derive(Clone, Copy, Drop)]
pub(crate) enum Route {
    /// `GET /joined_rooms`
    JoinedRooms,
    /// `GET /rooms/{roomId}/state`
    State,
    /// `GET /rooms/{roomId}/members`
    Members,
    /// `GET /rooms/{roomId}/event/{eventId}`
    Event,
    /// `GET /rooms/{roomId}/messages`
    Messages,
    /// `POST /rooms/{roomId}/receipt/{receiptType}/{eventId}`
    Receipt,
    /// `POST /rooms/{roomId}/read_markers`
    ReadMarkers,
}

/// All of them.
pub(crate) const ROUTES: [Route; 7] = [
    Route::JoinedRooms,
    Route::State,
    Route::Members,
    Route::Event,
    Route::Messages,
    Route::Receipt,
    Route::ReadMarkers,
];

impl Endpoint for Route {
    ghost use Rattle.mx_api_reads.specs.Asked.{route_asked};
    ghost use Rattle.mx_api_reads.specs.Routes.{has_method, path_of};

    ghost path = { path_of };

    ghost has_method = { has_method };

    ghost asks = { route_asked };

    fn path(self) -> &'static str {
        match self {
            Route::JoinedRooms => "/_matrix/client/v3/joined_rooms",
            Route::State => "/_matrix/client/v3/rooms/{roomId}/state",
            Route::Members => "/_matrix/client/v3/rooms/{roomId}/members",
            Route::Event => "/_matrix/client/v3/rooms/{roomId}/event/{eventId}",
            Route::Messages => "/_matrix/client/v3/rooms/{roomId}/messages",
            Route::Receipt => {
                "/_matrix/client/v3/rooms/{roomId}/receipt/{receiptType}/{eventId}"
            }
            Route::ReadMarkers => "/_matrix/client/v3/rooms/{roomId}/read_markers",
        }
    }

    fn has_method(self, method: &str) -> bool {
        match self {
            Route::JoinedRooms | Route::State | Route::Members | Route::Event | Route::Messages =>
                method == "GET",
            Route::Receipt | Route::ReadMarkers => method == "POST",
        }
    }

    fn ask(
        self,
        alloc: Global,
        _method: &str,
        body: &[u8],
        caller: Authenticated,
    ) -> Result<Asked, Memory> {
        match self {
            Route::JoinedRooms => Ok(Asked::Request(Request {
                who: caller.who,
                ask: Ask::JoinedRooms,
            })),
            Route::State => Ok(state(caller)),
            Route::Members => members(alloc, caller),
            Route::Event => Ok(event(caller)),
            Route::Messages => messages(alloc, caller),
            Route::Receipt => mark(alloc, caller, body),
            Route::ReadMarkers => read_markers(alloc, caller, body),
        }
    }
}
