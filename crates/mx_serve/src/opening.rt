//! What a call comes to before the engine is asked.
ghost use Rattle.std.specs.Prelude.{◌≡◌, IfOk};
ghost use Rattle.mx_api.specs.Errors.{refused_json, refused_status};
ghost use Rattle.mx_poll.specs.Aims.Asked.{Site};
ghost use Rattle.mx_poll.specs.OfEngine.Answers.{Stops};
ghost use Rattle.mx_poll.specs.OfEngine.Shown.{site_of, stops_of};
ghost use Rattle.mx_http.specs.Answers.{body_text};
ghost use Rattle.mx_json.specs.Texts.{json_text};
ghost use Rattle.mx_serve.specs.Asked.{IsCallAsked, call_asked};
ghost use Rattle.mx_serve.specs.Opens.{Opens};

use crate::call_asked::CallAsked;
use crate::server::Server;
use mx_api::{Refused, refused_json};
use mx_ask::Request;
use mx_http::{Answer, Body, Call};
use mx_ids::Memory;
use mx_poll::Outside;
use mx_render::no_memory;
use std::alloc::Global;

/// What a call comes to before the engine is asked.
#[derive(Drop)]
pub enum Opened {
    /// It is answered without the engine, by a mark that writes nothing and says whether memory was wanting.
    Answered(Answer, bool),
    /// It is a request of the engine.
    Asked(Request),
}

impl<G: Outside> Server<G> {
    /// What a call comes to before the engine is asked. Takes no turn.
    pub fn open(&self, alloc: Global, call: &Call) -> Opened
        ensures { Opens (site_of self.now.engine) (stops_of self.now.engine) (call_asked self.now.engine.site.users call.now) result }
    {
        match self.routes.ask(alloc, call, self.engine.users()) {
            Ok(asked) => open_asked(alloc, asked),
            Err(refused) => Opened::Answered(no_memory(refused), true),
        }
    }
}

/// What it asks comes to.
fn open_asked(alloc: Global, asked: CallAsked) -> Opened
    requires ask { IsCallAsked asked }
    ensures { (site : Site) (stops : Stops) → Opens site stops asked result }
{
    match asked {
        CallAsked::Options => Opened::Answered(fixed(b"{}"), false),
        CallAsked::Versions => Opened::Answered(
            fixed(b"{\"unstable_features\":{},\"versions\":[\"v1.11\"]}"),
            false,
        ),
        CallAsked::Refused(refused) => match refusal(alloc, refused) {
            Ok(answer) => Opened::Answered(answer, false),
            Err(refused) => Opened::Answered(no_memory(refused), true),
        },
        CallAsked::Request(request) => Opened::Asked(request),
    }
}

/// A refusal (Client-Server API, Standard error response).
pub(crate) fn refusal(alloc: Global, refused: Refused) -> Result<Answer, Memory>
    ensures status { IfOk result (λ a. a.status ≡ refused_status refused) }
    ensures body { IfOk result (λ a. body_text a.body ≡ json_text (refused_json refused)) }
{
    Ok(Answer {
        status: refused.status(),
        body: Body::Json(refused_json(alloc, &refused)?),
    })
}

/// A body that is always the same, with status 200.
pub(crate) fn fixed(body: &'static [u8]) -> Answer
    ensures status { result.status ≡ 200 }
    ensures body { body_text result.body ≡ body.now }
{
    Answer {
        status: 200,
        body: Body::Fixed(body),
    }
}
