//! Laws of the definitions: functions that do nothing, whose contracts hold of every list of stores.
ghost use Rattle.mx_create.specs.Storing.{BlockIsLawful};

/// The block that `admit_block` answers is a lawful store after the writer's own stores, from each position above theirs.
#[tactic(auto, using(crate::proofs::Placing::block_lawful))]
pub fn block_is_lawful()
    ensures { BlockIsLawful }
{}
