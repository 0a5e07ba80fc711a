//! The headline's laws on what an engine answers.

ghost use Rattle.mx_chains.specs.Chains.{AnswersAgree, AnswersSee, ClientsAgree, ClientsRedact, ClientsSee, FollowersAgree};

/// Whatever is asked on a pass, and whatever others store in between: the chain of each device with each filter that picks
/// state by type and room agrees with the picture at its token (Client-Server API, Syncing).
pub fn answers_agree()
    ensures { AnswersAgree }
{}

/// Each event that a timeline or a page sends was visible to its user at the front (Client-Server API, Room History
/// Visibility).
pub fn answers_see()
    ensures { AnswersSee }
{}

/// Whatever is asked, on whatever passes of an engine and in whatever order: the chain of each device with each filter that picks
/// state by type and room agrees with the picture at its token, if its pages were asked where the lists reach its token
/// (Client-Server API, Syncing).
pub fn clients_agree()
    ensures { ClientsAgree }
{}

/// Of a client that redacts each copy which a redaction in its room's timeline names nothing is asked of pages: once its copies are
/// redacted so, its chain agrees with the picture at its token, on whatever passes its syncs and pages were answered and in whatever
/// order (Client-Server API, Syncing, Redactions).
pub fn clients_redact()
    ensures { ClientsRedact }
{}

/// Each event that a timeline or a page sends on any of them was visible to its user at the front (Client-Server API, Room History
/// Visibility).
pub fn clients_see()
    ensures { ClientsSee }
{}

/// Of a client that asks its pages on the connection of its last sync nothing else is needed.
pub fn followers_agree()
    ensures { FollowersAgree }
{}
