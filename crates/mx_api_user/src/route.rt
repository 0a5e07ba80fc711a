//! The routes on a user's own data.

use crate::account::{account, room_account};
use crate::filters::{get_filter, put_filter};
use crate::rules::{actions, all_rules, enabled, rule};
use crate::sync::sync;
use crate::tags::{tag, tags};
use mx_api::{Asked, Authenticated, Endpoint};
use mx_ask::{Ask, Request};
use mx_ids::Memory;
use std::alloc::Global;

/// A route, by its path.
#[derive(Clone, Copy, Drop)]
pub(crate) enum Route {
    /// `GET /account/whoami`
    WhoAmI,
    /// `GET /sync`
    Sync,
    /// `POST /user/{userId}/filter`
    Filters,
    /// `GET /user/{userId}/filter/{filterId}`
    Filter,
    /// `PUT` and `GET /user/{userId}/account_data/{type}`
    AccountData,
    /// `PUT` and `GET /user/{userId}/rooms/{roomId}/account_data/{type}`
    RoomAccountData,
    /// `GET /user/{userId}/rooms/{roomId}/tags`
    Tags,
    /// `PUT` and `DELETE /user/{userId}/rooms/{roomId}/tags/{tag}`
    Tag,
    /// `GET /pushrules/`
    PushRules,
    /// `GET /pushrules/global/`
    GlobalRules,
    /// `GET`, `PUT` and `DELETE /pushrules/global/{kind}/{ruleId}`
    Rule,
    /// `PUT` and `GET /pushrules/global/{kind}/{ruleId}/enabled`
    Enabled,
    /// `PUT` and `GET /pushrules/global/{kind}/{ruleId}/actions`
    Actions,
}

/// All of them.
pub(crate) const ROUTES: [Route; 13] = [
    Route::WhoAmI,
    Route::Sync,
    Route::Filters,
    Route::Filter,
    Route::AccountData,
    Route::RoomAccountData,
    Route::Tags,
    Route::Tag,
    Route::PushRules,
    Route::GlobalRules,
    Route::Rule,
    Route::Enabled,
    Route::Actions,
];

impl Endpoint for Route {
    ghost use Rattle.mx_api_user.specs.Asked.{route_asked};
    ghost use Rattle.mx_api_user.specs.Routes.{has_method, path_of};

    ghost path = { path_of };

    ghost has_method = { has_method };

    ghost asks = { route_asked };

    fn path(self) -> &'static str {
        match self {
            Route::WhoAmI => "/_matrix/client/v3/account/whoami",
            Route::Sync => "/_matrix/client/v3/sync",
            Route::Filters => "/_matrix/client/v3/user/{userId}/filter",
            Route::Filter => "/_matrix/client/v3/user/{userId}/filter/{filterId}",
            Route::AccountData => "/_matrix/client/v3/user/{userId}/account_data/{type}",
            Route::RoomAccountData => {
                "/_matrix/client/v3/user/{userId}/rooms/{roomId}/account_data/{type}"
            }
            Route::Tags => "/_matrix/client/v3/user/{userId}/rooms/{roomId}/tags",
            Route::Tag => "/_matrix/client/v3/user/{userId}/rooms/{roomId}/tags/{tag}",
            Route::PushRules => "/_matrix/client/v3/pushrules/",
            Route::GlobalRules => "/_matrix/client/v3/pushrules/global/",
            Route::Rule => "/_matrix/client/v3/pushrules/global/{kind}/{ruleId}",
            Route::Enabled => "/_matrix/client/v3/pushrules/global/{kind}/{ruleId}/enabled",
            Route::Actions => "/_matrix/client/v3/pushrules/global/{kind}/{ruleId}/actions",
        }
    }

    fn has_method(self, method: &str) -> bool {
        match self {
            Route::WhoAmI
            | Route::Sync
            | Route::Filter
            | Route::Tags
            | Route::PushRules
            | Route::GlobalRules => method == "GET",
            Route::Filters => method == "POST",
            Route::AccountData | Route::RoomAccountData | Route::Enabled | Route::Actions => {
                method == "PUT" || method == "GET"
            }
            Route::Tag => method == "PUT" || method == "DELETE",
            Route::Rule => method == "GET" || method == "PUT" || method == "DELETE",
        }
    }

    fn ask(
        self,
        alloc: Global,
        method: &str,
        body: &[u8],
        caller: Authenticated,
    ) -> Result<Asked, Memory> {
        match self {
            Route::WhoAmI => Ok(Asked::Request(Request {
                who: caller.who,
                ask: Ask::WhoAmI,
            })),
            Route::Sync => sync(alloc, caller),
            Route::Filters => put_filter(alloc, caller, body),
            Route::Filter => Ok(get_filter(caller)),
            Route::AccountData => account(alloc, method, caller, body),
            Route::RoomAccountData => room_account(alloc, method, caller, body),
            Route::Tags => Ok(tags(caller)),
            Route::Tag => tag(alloc, method, caller, body),
            Route::PushRules => Ok(all_rules(caller.who, false)),
            Route::GlobalRules => Ok(all_rules(caller.who, true)),
            Route::Rule => rule(alloc, method, caller, body),
            Route::Enabled => enabled(alloc, method, caller, body),
            Route::Actions => actions(alloc, method, caller, body),
        }
    }
}
