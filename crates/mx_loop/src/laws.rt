//! The headline, as a law.
ghost use Rattle.mx_loop.specs.Laws.{SessionsAgree};

/// Whatever a session is doing and whatever others store in between: what a client of a device holds after the replies to its syncs and the
/// pages of their gaps is what the picture at its token has, and each event that it was sent is visible to its user.
#[tactic(auto, using(crate::proofs::Agreeing::sessions_agree))]
pub fn sessions_agree()
    ensures { SessionsAgree }
{}
