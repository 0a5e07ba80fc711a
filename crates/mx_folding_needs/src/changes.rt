//! The folding law of one room at any b, with a weaker agreement, or with a definition changed.

ghost use Rattle.std.specs.Prelude.{◌↔◌, Bool};
ghost use Rattle.mx_folding.specs.Agreement.{RoomAgrees};
ghost use Rattle.mx_folding.specs.Clients.{with_page};
ghost use Rattle.mx_folding.specs.Laws.{FoldsReply, FoldsPage};
ghost use Rattle.mx_folding.specs.Parts.{is_omitted};
ghost use Rattle.mx_folding_needs.specs.Changes.{FoldsReplyBy, FoldsPageBy, FoldsNewAnywhere, FoldsNewUncut, at_cut, at_upper, put_over, omits_unjoined, omits_before, InPast, CutInPast};
ghost use Rattle.mx_folding_needs.specs.Premises.{Item};

/// With nothing changed they are the laws of a reply and of a page.
pub fn unchanged_is_same<E, K>()
    ensures reply { FoldsReplyBy E K RoomAgrees is_omitted ↔ FoldsReply E K }
    ensures page { FoldsPageBy E K RoomAgrees with_page at_cut ↔ FoldsPage E K }
{}

/// A new room's law fails without its premise on b.
#[tactic(auto, using(crate::proofs::OneRoom::needs_base))]
pub fn needs_base()
    ensures { FoldsNewAnywhere Item Bool → ⊥ }
{}

/// The laws fail where all that agreement says of the order of a timeline is that gaps end at or before the token, or
/// that they were cut at or before it.
#[tactic(auto, using(crate::proofs::OneRoom::needs_cut_in_past, crate::proofs::OneRoom::needs_in_past))]
pub fn needs_gap_order()
    ensures cut { FoldsPageBy Item Bool InPast with_page at_cut → ⊥ }
    ensures upper { FoldsReplyBy Item Bool CutInPast is_omitted → ⊥ }
{}

/// A new room's law fails where the section isn't cut at the last state event that may not be sent.
#[tactic(auto, using(crate::proofs::OneRoom::needs_break))]
pub fn needs_break()
    ensures { FoldsNewUncut Item Bool → ⊥ }
{}

/// A page's law fails where its lazy members are those of the state at the gap's upper end and not at the front of its
/// page token, and where they are put over held ones.
#[tactic(auto, using(crate::proofs::OneRoom::needs_front, crate::proofs::OneRoom::needs_held))]
pub fn needs_page_members()
    ensures front { FoldsPageBy Item Bool RoomAgrees with_page at_upper → ⊥ }
    ensures held { FoldsPageBy Item Bool RoomAgrees put_over at_cut → ⊥ }
{}

/// A reply's law fails where lazy members are omitted though the user wasn't joined throughout, or though they came at
/// or before b.
#[tactic(auto, using(crate::proofs::OneRoom::needs_joined_throughout, crate::proofs::OneRoom::needs_after_b))]
pub fn needs_omission()
    ensures joined { FoldsReplyBy Item Bool RoomAgrees omits_unjoined → ⊥ }
    ensures after_b { FoldsReplyBy Item Bool RoomAgrees omits_before → ⊥ }
{}
