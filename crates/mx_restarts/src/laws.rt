//! The headline's laws over restarts.

ghost use Rattle.mx_restarts.specs.Kept.{KeptGoesOn};
ghost use Rattle.mx_restarts.specs.Restarts.{RestartsAgree, RestartsRedact};

/// Whichever runs of a server answered a client's syncs and pages, one run after the other: once the client's copies are
/// redacted by all redactions that its timelines hold, its chain agrees with the picture at its last token, in the last run
/// (Client-Server API, Syncing, Redactions).
pub fn restarts_redact()
    ensures { RestartsRedact }
{}

/// So does the chain of a client that doesn't redact its copies, if its pages were asked where the lists reach its token.
pub fn restarts_agree()
    ensures { RestartsAgree }
{}

/// What a run has seen is kept at each later start, if at each start what the run before it had seen is kept.
pub fn kept_goes_on()
    ensures { KeptGoesOn }
{}
