//! The rows: each is a law over literal events.

ghost use Rattle.mx_fold_rows.specs.Said.{RoomsSay, SaysMembership, SaysNames, SaysSetting};
ghost use Rattle.mx_fold_rows.specs.Account.{FirstAccount, LaterAccount, NoAccount, NoType};
ghost use Rattle.mx_fold_rows.specs.Exchanged.{FirstIsTold, NextIsTold, Begins, TakesPage, PassesPages, PassesReplies, GoesOnFrom, BeginsAnew, HasNotBegun};
ghost use Rattle.mx_fold_rows.specs.Limits.{LastTen, RestOnePage, RestJustFits, PageOfThree, NoTimeline, LaterState, FullState, NothingNew, NeverThere};
ghost use Rattle.mx_fold_rows.specs.Stays.{BreakAtHidden, PageOfStay, StateAfter, NoBreakAtDropped, HasLeft, CameBack, IsInvited, InviteShows, LeftAlready, InvitedAlready, LeaveIncluded, LeaveLeftOut, LeftSinceToken, LeftLimited, LeftBeforeToken, LeftSender, LeftFullState, StayEnds, BannedAfter, BannedBare, FirstBase, KeptBase};
ghost use Rattle.mx_fold_rows.specs.Visible.{SharedSeen, SharedUnseen, JoinAfterFront, JoinedSeen, JoinedPage, WorldReads, WorldDoesnt, WorldReadsSetting, InvitedSees, InvitedJoinsLater, InvitedStays, BannedSees, OtherLeaves, UnsetIsShared, UnknownIsShared, MessageSetsNothing, OtherKeySetsNothing, EmptyKeySets, MessageJoinsNobody, KeyJoins};
ghost use Rattle.mx_fold_rows.specs.Redacted.{RedactionSent, RedactionHidden, SentRedacted, SentBefore, CopyRedacted, CopyStays};
ghost use Rattle.mx_fold_rows.specs.Lazy.{FirstMembers, FirstSender, FirstHero, SentOnceMore, HeroesSent, MemberOmitted, RedundantSent, SentByBase, MembersAfter, PageMembers};
ghost use Rattle.mx_fold_rows.specs.Anywhere.{BroughtBack, FallsShort, FollowsSync, GoesAcross, GoesBack, ReachesIt, StaysRedacted};
ghost use Rattle.mx_fold_rows.specs.Chains.{FirstSync, WithPage, GoesOn, NotBegun, PageOfBreak};

/// What the rows read of contents is what the contents say.
#[tactic(auto, using(crate::proofs::Saying::says_membership, crate::proofs::Saying::says_setting, crate::proofs::Saying::says_names))]
pub fn contents_say()
    ensures says_membership { SaysMembership }
    ensures says_setting { SaysSetting }
    ensures says_names { SaysNames }
    ensures rooms_say { RoomsSay }
{}

/// Limits, pages, and which state a reply has.
#[tactic(auto, using(crate::proofs::Limits::last_ten, crate::proofs::Limits::rest_one_page, crate::proofs::Limits::rest_just_fits, crate::proofs::Limits::page_of_three, crate::proofs::Limits::no_timeline, crate::proofs::Limits::later_state, crate::proofs::Limits::full_state, crate::proofs::Limits::nothing_new, crate::proofs::Limits::never_there))]
pub fn limits_compute()
    ensures last_ten { LastTen }
    ensures rest_one_page { RestOnePage }
    ensures rest_just_fits { RestJustFits }
    ensures page_of_three { PageOfThree }
    ensures no_timeline { NoTimeline }
    ensures later_state { LaterState }
    ensures full_state { FullState }
    ensures nothing_new { NothingNew }
    ensures never_there { NeverThere }
{}

/// A user who leaves and comes back, one who is invited, and what a left room has.
#[tactic(auto, using(crate::proofs::Stays::break_at_hidden, crate::proofs::Stays::page_of_stay, crate::proofs::Stays::state_after, crate::proofs::Stays::no_break_at_dropped, crate::proofs::Stays::has_left, crate::proofs::Stays::came_back, crate::proofs::Stays::is_invited, crate::proofs::Stays::invite_shows, crate::proofs::Stays::left_already, crate::proofs::Stays::invited_already, crate::proofs::Stays::leave_included, crate::proofs::Stays::leave_left_out, crate::proofs::Stays::left_since_token, crate::proofs::Stays::left_limited, crate::proofs::Stays::left_before_token, crate::proofs::Stays::left_sender, crate::proofs::Stays::left_full_state, crate::proofs::Stays::stay_ends, crate::proofs::Stays::banned_after, crate::proofs::Stays::banned_bare, crate::proofs::Stays::first_base, crate::proofs::Stays::kept_base))]
pub fn stays_compute()
    ensures break_at_hidden { BreakAtHidden }
    ensures page_of_stay { PageOfStay }
    ensures state_after { StateAfter }
    ensures no_break_at_dropped { NoBreakAtDropped }
    ensures has_left { HasLeft }
    ensures came_back { CameBack }
    ensures is_invited { IsInvited }
    ensures invite_shows { InviteShows }
    ensures left_already { LeftAlready }
    ensures invited_already { InvitedAlready }
    ensures leave_included { LeaveIncluded }
    ensures leave_left_out { LeaveLeftOut }
    ensures left_since_token { LeftSinceToken }
    ensures left_limited { LeftLimited }
    ensures left_before_token { LeftBeforeToken }
    ensures left_sender { LeftSender }
    ensures left_full_state { LeftFullState }
    ensures stay_ends { StayEnds }
    ensures banned_after { BannedAfter }
    ensures banned_bare { BannedBare }
    ensures first_base { FirstBase }
    ensures kept_base { KeptBase }
{}

/// What a user may see, and which events set what it is judged by.
#[tactic(auto, using(crate::proofs::Visible::shared_seen, crate::proofs::Visible::shared_unseen, crate::proofs::Visible::join_after_front, crate::proofs::Visible::joined_seen, crate::proofs::Visible::joined_page, crate::proofs::Visible::world_reads, crate::proofs::Visible::world_doesnt, crate::proofs::Visible::world_reads_setting, crate::proofs::Visible::invited_sees, crate::proofs::Visible::invited_joins_later, crate::proofs::Visible::invited_stays, crate::proofs::Visible::banned_sees, crate::proofs::Visible::other_leaves, crate::proofs::Visible::unset_is_shared, crate::proofs::Visible::unknown_is_shared, crate::proofs::Visible::message_sets_nothing, crate::proofs::Visible::other_key_sets_nothing, crate::proofs::Visible::empty_key_sets, crate::proofs::Visible::message_joins_nobody, crate::proofs::Visible::key_joins))]
pub fn visibility_computes()
    ensures shared_seen { SharedSeen }
    ensures shared_unseen { SharedUnseen }
    ensures join_after_front { JoinAfterFront }
    ensures joined_seen { JoinedSeen }
    ensures joined_page { JoinedPage }
    ensures world_reads { WorldReads }
    ensures world_doesnt { WorldDoesnt }
    ensures world_reads_setting { WorldReadsSetting }
    ensures invited_sees { InvitedSees }
    ensures invited_joins_later { InvitedJoinsLater }
    ensures invited_stays { InvitedStays }
    ensures banned_sees { BannedSees }
    ensures other_leaves { OtherLeaves }
    ensures unset_is_shared { UnsetIsShared }
    ensures unknown_is_shared { UnknownIsShared }
    ensures message_sets_nothing { MessageSetsNothing }
    ensures other_key_sets_nothing { OtherKeySetsNothing }
    ensures empty_key_sets { EmptyKeySets }
    ensures message_joins_nobody { MessageJoinsNobody }
    ensures key_joins { KeyJoins }
{}

/// What redaction changes in replies and in copies.
#[tactic(auto, using(crate::proofs::Redacted::redaction_sent, crate::proofs::Redacted::redaction_hidden, crate::proofs::Redacted::sent_redacted, crate::proofs::Redacted::sent_before, crate::proofs::Redacted::copy_redacted, crate::proofs::Redacted::copy_stays))]
pub fn redactions_compute()
    ensures redaction_sent { RedactionSent }
    ensures redaction_hidden { RedactionHidden }
    ensures sent_redacted { SentRedacted }
    ensures sent_before { SentBefore }
    ensures copy_redacted { CopyRedacted }
    ensures copy_stays { CopyStays }
{}

/// Which member events a reply and a page have with lazy members.
#[tactic(auto, using(crate::proofs::Lazy::first_members, crate::proofs::Lazy::first_sender, crate::proofs::Lazy::first_hero, crate::proofs::Lazy::sent_once_more, crate::proofs::Lazy::heroes_sent, crate::proofs::Lazy::member_omitted, crate::proofs::Lazy::redundant_sent, crate::proofs::Lazy::sent_by_base, crate::proofs::Lazy::members_after, crate::proofs::Lazy::page_members))]
pub fn members_compute()
    ensures first_members { FirstMembers }
    ensures first_sender { FirstSender }
    ensures first_hero { FirstHero }
    ensures sent_once_more { SentOnceMore }
    ensures heroes_sent { HeroesSent }
    ensures member_omitted { MemberOmitted }
    ensures redundant_sent { RedundantSent }
    ensures sent_by_base { SentByBase }
    ensures members_after { MembersAfter }
    ensures page_members { PageMembers }
{}

/// A sync with limit 1, a page of its gap, a sync that goes on, and a client that has not begun.
#[tactic(auto, using(crate::proofs::Chains::first_sync, crate::proofs::Chains::with_page, crate::proofs::Chains::goes_on, crate::proofs::Chains::not_begun, crate::proofs::Chains::page_of_break))]
pub fn chains_compute()
    ensures first_sync { FirstSync }
    ensures with_page { WithPage }
    ensures goes_on { GoesOn }
    ensures not_begun { NotBegun }
    ensures page_of_break { PageOfBreak }
{}

/// The chains of two devices over answers to a connection: which answers a client takes, and what it holds then.
#[tactic(auto, using(crate::proofs::Exchanged::first_is_told, crate::proofs::Exchanged::next_is_told, crate::proofs::Exchanged::begins, crate::proofs::Exchanged::takes_page, crate::proofs::Exchanged::passes_pages, crate::proofs::Exchanged::passes_replies, crate::proofs::Exchanged::goes_on_from, crate::proofs::Exchanged::begins_anew, crate::proofs::Exchanged::has_not_begun))]
pub fn exchanges_compute()
    ensures first_is_told { FirstIsTold }
    ensures next_is_told { NextIsTold }
    ensures begins { Begins }
    ensures takes_page { TakesPage }
    ensures passes_pages { PassesPages }
    ensures passes_replies { PassesReplies }
    ensures goes_on_from { GoesOnFrom }
    ensures begins_anew { BeginsAnew }
    ensures has_not_begun { HasNotBegun }
{}

/// A chain over two connections: which pages reach the client's token, which are asked on the connection of its last sync, and that
/// one of an older front brings back an event that the client knows to be redacted.
#[tactic(auto, using(crate::proofs::Anywhere::goes_across, crate::proofs::Anywhere::reaches_it, crate::proofs::Anywhere::falls_short, crate::proofs::Anywhere::follows_sync, crate::proofs::Anywhere::goes_back, crate::proofs::Anywhere::stays_redacted, crate::proofs::Anywhere::brought_back))]
pub fn connections_compute()
    ensures goes_across { GoesAcross }
    ensures reaches_it { ReachesIt }
    ensures falls_short { FallsShort }
    ensures follows_sync { FollowsSync }
    ensures goes_back { GoesBack }
    ensures stays_redacted { StaysRedacted }
    ensures brought_back { BroughtBack }
{}

/// The global account data of a reply.
#[tactic(auto, using(crate::proofs::Account::first_account, crate::proofs::Account::later_account, crate::proofs::Account::no_account, crate::proofs::Account::no_type))]
pub fn account_computes()
    ensures first_account { FirstAccount }
    ensures later_account { LaterAccount }
    ensures no_account { NoAccount }
    ensures no_type { NoType }
{}
