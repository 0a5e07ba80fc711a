//! The folding law with its premises asked or dropped.

ghost use Rattle.std.specs.Prelude.{Bool, false};
ghost use Rattle.mx_folding_needs.specs.Premises.{all_asked, AllAsked, FailsWith};

/// With all premises asked the law is the folding law.
pub fn all_are_asked<X, E, K, V, D, T>()
    ensures { AllAsked X E K V D T }
{}

/// The law fails where positions don't rise, a redaction names a later event, a later token has an earlier position, or
/// a reply's token comes before the one that it answers.
#[tactic(auto, using(crate::proofs::Turns::needs_ascends, crate::proofs::Rooms::needs_earlier, crate::proofs::Turns::needs_rises, crate::proofs::Turns::needs_next))]
pub fn needs_order()
    ensures ascends { FailsWith (record all_asked { ascends = false }) }
    ensures earlier { FailsWith (record all_asked { earlier = false }) }
    ensures rises { FailsWith (record all_asked { rises = false }) }
    ensures next { FailsWith (record all_asked { next = false }) }
{}

/// The law fails where the state filter doesn't judge by key, or keys are said to be equal that aren't.
#[tactic(auto, using(crate::proofs::Rooms::needs_kept, crate::proofs::Rooms::needs_keys))]
pub fn needs_keys()
    ensures keys { FailsWith (record all_asked { keys = false }) }
    ensures kept { FailsWith (record all_asked { kept = false }) }
{}

/// The law fails where redaction changes an event's position, key, sender or what it names, or isn't idempotent.
#[tactic(auto, using(crate::proofs::Rooms::needs_red_at, crate::proofs::Rooms::needs_red_key, crate::proofs::Rooms::needs_red_sender, crate::proofs::Rooms::needs_red_names, crate::proofs::Rooms::needs_red_red))]
pub fn needs_redaction()
    ensures red_at { FailsWith (record all_asked { red_at = false }) }
    ensures red_key { FailsWith (record all_asked { red_key = false }) }
    ensures red_sender { FailsWith (record all_asked { red_sender = false }) }
    ensures red_names { FailsWith (record all_asked { red_names = false }) }
    ensures red_red { FailsWith (record all_asked { red_red = false }) }
{}

/// The law fails where what a joined user sees doesn't stay visible, a member event has no membership, or who stayed
/// joined wasn't joined, at the end or before it.
#[tactic(auto, using(crate::proofs::Turns::needs_stays, crate::proofs::Turns::needs_kinds, crate::proofs::Rooms::needs_stayed, crate::proofs::Rooms::needs_stayed_less))]
pub fn needs_joined()
    ensures stays { FailsWith (record all_asked { stays = false }) }
    ensures kinds { FailsWith (record all_asked { kinds = false }) }
    ensures stayed { FailsWith (record all_asked { stayed = false }) }
    ensures stayed_less { FailsWith (record all_asked { stayed_less = false }) }
{}

/// The law fails without either half of the section law.
#[tactic(auto, using(crate::proofs::Turns::needs_folds, crate::proofs::Turns::needs_still))]
pub fn needs_rest()
    ensures folds { FailsWith (record all_asked { folds = false }) }
    ensures still { FailsWith (record all_asked { still = false }) }
{}

/// The law fails for pages at a front before the token's, and for pages of no open gap.
#[tactic(auto, using(crate::proofs::Turns::needs_past, crate::proofs::Turns::needs_gaps))]
pub fn needs_page()
    ensures past { FailsWith (record all_asked { past = false }) }
    ensures gaps { FailsWith (record all_asked { gaps = false }) }
{}
