//! Why a call is refused before an engine is asked.
ghost use Rattle.std.specs.Prelude.{◌≡◌, IfOk};
ghost use Rattle.mx_api.specs.Errors.{field_name, parameter_name, refused_code, refused_json, refused_status, refused_text};

use crate::texts::{error_json, text};
use mx_create::BodyField;
use mx_ids::{Memory, Text};
use mx_json::Json;
use std::alloc::Global;

/// A parameter of a query.
#[derive(Clone, Copy, Debug, PartialEq, Eq)]
pub enum Parameter {
    Since,
    FullState,
    UseStateAfter,
    Timeout,
    Filter,
    Dir,
    From,
    To,
    Limit,
    Before,
    After,
}

/// What of a body or of a filter isn't of its form.
#[derive(Debug, Drop)]
pub enum Field {
    /// The text `user_id` of a membership call.
    UserId,
    /// What the body of a room's creation has wrong, or that a body is no object.
    Creation(BodyField),
    /// The text `m.fully_read` of a call that sets read markers.
    FullyRead,
    /// The text `m.read` of such a call.
    Read,
    /// The text `m.read.private` of such a call.
    ReadPrivate,
    /// The truth value `enabled` of a push rule.
    Enabled,
    /// The list `actions` of a push rule.
    Actions,
    /// The object `content`.
    Content,
    /// The field at this path: keys that are joined by dots.
    Path(Text),
}

/// Why a call is refused before an engine is asked, in the order in which the causes are judged.
#[derive(Debug, Drop)]
pub enum Refused {
    /// No route has the path.
    NoPath,
    /// The path's routes have another method.
    NoMethod,
    /// There is no access token.
    NoToken,
    /// No device has the access token.
    UnknownToken,
    /// A part of the path isn't UTF-8, or is none of the words that may stand there.
    BadPath,
    /// The path names another user than the caller.
    NotCaller,
    /// The query lacks a parameter that has to be there.
    MissingParameter(Parameter),
    /// The value of a parameter isn't of its form.
    BadParameter(Parameter),
    /// The body, or the filter of the query, isn't JSON.
    NotJson,
    /// A number of it isn't whole.
    Fraction,
    /// A number of it is outside plus or minus 9,007,199,254,740,991.
    IntegerRange,
    /// It nests more than 100 levels.
    TooDeep,
    /// It isn't of its form.
    BadShape(Field),
    /// A filter asks for the event format `federation`.
    EventFormat,
    /// The type is one that clients don't put.
    OwnType,
}

impl Parameter {
    /// The name of the parameter.
    pub fn name(self) -> &'static str
        ensures { result.now ≡ parameter_name self }
    {
        match self {
            Parameter::Since => "since",
            Parameter::FullState => "full_state",
            Parameter::UseStateAfter => "use_state_after",
            Parameter::Timeout => "timeout",
            Parameter::Filter => "filter",
            Parameter::Dir => "dir",
            Parameter::From => "from",
            Parameter::To => "to",
            Parameter::Limit => "limit",
            Parameter::Before => "before",
            Parameter::After => "after",
        }
    }
}

impl Field {
    /// The name of the field, or its path; `body` where the body is no object.
    pub fn name(&self) -> &str
        ensures { result.now ≡ field_name self.now }
    {
        match self {
            Field::UserId => "user_id",
            Field::Creation(BodyField::Body) => "body",
            Field::Creation(BodyField::InitialState) => "initial_state",
            Field::Creation(BodyField::Invite) => "invite",
            Field::FullyRead => "m.fully_read",
            Field::Read => "m.read",
            Field::ReadPrivate => "m.read.private",
            Field::Enabled => "enabled",
            Field::Actions => "actions",
            Field::Content => "content",
            Field::Path(path) => path.as_str(),
        }
    }
}

impl Refused {
    /// The status of the answer.
    pub fn status(&self) -> u16
        ensures { result ≡ refused_status self.now }
    {
        match self {
            Refused::NoPath => 404,
            Refused::NoMethod | Refused::OwnType => 405,
            Refused::NoToken | Refused::UnknownToken => 401,
            Refused::NotCaller => 403,
            Refused::BadPath
            | Refused::MissingParameter(_)
            | Refused::BadParameter(_)
            | Refused::NotJson
            | Refused::Fraction
            | Refused::IntegerRange
            | Refused::TooDeep
            | Refused::BadShape(_)
            | Refused::EventFormat => 400,
        }
    }

    /// The error code (Client-Server API, Standard error response).
    pub fn code(&self) -> &'static str
        ensures { result.now ≡ refused_code self.now }
    {
        match self {
            Refused::NoPath | Refused::NoMethod => "M_UNRECOGNIZED",
            Refused::NoToken => "M_MISSING_TOKEN",
            Refused::UnknownToken => "M_UNKNOWN_TOKEN",
            Refused::NotCaller => "M_FORBIDDEN",
            Refused::MissingParameter(_) => "M_MISSING_PARAM",
            Refused::BadPath | Refused::BadParameter(_) | Refused::EventFormat => "M_INVALID_PARAM",
            Refused::NotJson => "M_NOT_JSON",
            Refused::Fraction
            | Refused::IntegerRange
            | Refused::TooDeep
            | Refused::BadShape(_)
            | Refused::OwnType => "M_BAD_JSON",
        }
    }

    /// The text of the error.
    fn text(&self, alloc: Global) -> Result<Text, Memory>
        ensures { IfOk result (λ text. text ≡ refused_text self.now) }
    {
        match self {
            Refused::NoPath => text(alloc, "no such path"),
            Refused::NoMethod => text(alloc, "no such method"),
            Refused::NoToken => text(alloc, "missing token"),
            Refused::UnknownToken => text(alloc, "unknown token"),
            Refused::BadPath => text(alloc, "invalid parameter: path"),
            Refused::NotCaller => text(alloc, "forbidden"),
            Refused::MissingParameter(parameter) => missing_text(alloc, *parameter),
            Refused::BadParameter(parameter) => parameter_text(alloc, *parameter),
            Refused::NotJson => text(alloc, "not JSON"),
            Refused::Fraction => text(alloc, "bad JSON: fraction"),
            Refused::IntegerRange => text(alloc, "bad JSON: integer out of range"),
            Refused::TooDeep => text(alloc, "bad JSON: nested too deep"),
            Refused::BadShape(field) => field_text(alloc, field),
            Refused::EventFormat => text(alloc, "invalid parameter: event_format"),
            Refused::OwnType => text(alloc, "bad JSON: type"),
        }
    }
}

fn missing_text(alloc: Global, parameter: Parameter) -> Result<Text, Memory>
    ensures { IfOk result (λ text. text ≡ refused_text (Refused.MissingParameter parameter)) }
{
    let text = format!(in alloc; "missing parameter: {}", parameter.name())?;
    Ok(Text::from_string(text))
}

fn parameter_text(alloc: Global, parameter: Parameter) -> Result<Text, Memory>
    ensures { IfOk result (λ text. text ≡ refused_text (Refused.BadParameter parameter)) }
{
    let text = format!(in alloc; "invalid parameter: {}", parameter.name())?;
    Ok(Text::from_string(text))
}

fn field_text(alloc: Global, field: &Field) -> Result<Text, Memory>
    ensures { IfOk result (λ text. text ≡ refused_text (Refused.BadShape field.now)) }
{
    let text = format!(in alloc; "bad JSON: {}", field.name())?;
    Ok(Text::from_string(text))
}

/// The object of a refusal (Client-Server API, Standard error response).
pub fn refused_json(alloc: Global, refused: &Refused) -> Result<Json, Memory>
    ensures { IfOk result (λ json. json ≡ refused_json refused.now) }
{
    error_json(alloc, refused.code(), refused.text(alloc)?)
}
