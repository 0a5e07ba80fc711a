//! The folding law over chains, of clients that redact their copies by what their timelines hold.

ghost use Rattle.mx_refold.specs.Chains.{ChainsRedact, NeedsRedactions};

/// From a client without a token, after any sync replies that answer its tokens and any pages of its gaps, it agrees with
/// the picture at its token, once its copies are redacted by all redactions that its timelines hold.
pub fn chains_redact<X, E, K, V, D, T>()
    ensures { ChainsRedact X E K V D T }
{}

/// Without these redactions it doesn't: a page of a front before the client's token brings back an event unredacted whose
/// redaction the timeline holds.
#[tactic(auto, using(crate::proofs::Needs::needs_redactions))]
pub fn needs_redactions()
    ensures { NeedsRedactions }
{}
