//! Worked values of the definitions that the laws speak of.

ghost use Rattle.mx_picture.specs.Values.{AliceIsTold, BobIsTold, DataAreTold, EndsAtLast, MoreFollows, NextForward, NoData, NoReceipts, NoneFollows, TwoForward};

/// Which receipts and which account data of a room a user is told.
#[tactic(auto, using(crate::proofs::Values::alice_is_told, crate::proofs::Values::bob_is_told, crate::proofs::Values::no_receipts, crate::proofs::Values::data_are_told, crate::proofs::Values::no_data))]
pub fn rests_compute()
    ensures alice_is_told { AliceIsTold }
    ensures bob_is_told { BobIsTold }
    ensures no_receipts { NoReceipts }
    ensures data_are_told { DataAreTold }
    ensures no_data { NoData }
{}

/// A forward page of two events, and the one that follows it.
#[tactic(auto, using(crate::proofs::Values::two_forward, crate::proofs::Values::more_follows, crate::proofs::Values::ends_at_last, crate::proofs::Values::next_forward, crate::proofs::Values::none_follows))]
pub fn forward_computes()
    ensures two_forward { TwoForward }
    ensures more_follows { MoreFollows }
    ensures ends_at_last { EndsAtLast }
    ensures next_forward { NextForward }
    ensures none_follows { NoneFollows }
{}
