//! Laws of the definitions: functions that do nothing, whose contracts hold of every list of stores.
ghost use Rattle.mx_room.specs.Storing.{ReadyIsLawful};

/// An event that a writer's rooms admit is a lawful store after the writer's own stores, wherever it stands.
#[tactic(auto, using(crate::proofs::Lawful::ready_lawful))]
pub fn ready_is_lawful()
    ensures { ReadyIsLawful }
{}
