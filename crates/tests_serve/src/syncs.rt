//! Syncs, pages and other reads, table by table.
use crate::sessions::holds;
use crate::sync_tables;
use std::test::Fail;

#[test]
fn a_first_sync_tells_the_push_rules(rt: HostRuntime) -> Result<(), Fail> {
    holds(&rt, rt.alloc(), sync_tables::FIRST_SYNC)?;
    Ok(())
}

#[test]
fn account_data_by_syncs(rt: HostRuntime) -> Result<(), Fail> {
    holds(&rt, rt.alloc(), sync_tables::ACCOUNT_DATA)?;
    Ok(())
}

#[test]
fn a_limited_sync_and_its_pages(rt: HostRuntime) -> Result<(), Fail> {
    holds(&rt, rt.alloc(), sync_tables::LIMITED)?;
    Ok(())
}

#[test]
fn a_room_left_and_joined_again(rt: HostRuntime) -> Result<(), Fail> {
    holds(&rt, rt.alloc(), sync_tables::BREAK)?;
    Ok(())
}

#[test]
fn a_redaction_sent_while_away(rt: HostRuntime) -> Result<(), Fail> {
    holds(&rt, rt.alloc(), sync_tables::HIDDEN_REDACTION)?;
    Ok(())
}

#[test]
fn shared_history_is_told_whole(rt: HostRuntime) -> Result<(), Fail> {
    holds(&rt, rt.alloc(), sync_tables::SHARED_HISTORY)?;
    Ok(())
}

#[test]
fn joined_history_is_told_from_the_join(rt: HostRuntime) -> Result<(), Fail> {
    holds(&rt, rt.alloc(), sync_tables::JOINED_HISTORY)?;
    Ok(())
}

#[test]
fn reads_tell_what_is_redacted_without_its_content(rt: HostRuntime) -> Result<(), Fail> {
    holds(&rt, rt.alloc(), sync_tables::REDACTED_READS)?;
    Ok(())
}

#[test]
fn state_redacted_between_syncs(rt: HostRuntime) -> Result<(), Fail> {
    holds(&rt, rt.alloc(), sync_tables::REDACTED_STATE)?;
    Ok(())
}

#[test]
fn receipts_in_syncs(rt: HostRuntime) -> Result<(), Fail> {
    holds(&rt, rt.alloc(), sync_tables::RECEIPTS)?;
    Ok(())
}

#[test]
fn transactions_of_the_own_device(rt: HostRuntime) -> Result<(), Fail> {
    holds(&rt, rt.alloc(), sync_tables::TRANSACTIONS)?;
    Ok(())
}

#[test]
fn rooms_of_invites_and_rooms_left(rt: HostRuntime) -> Result<(), Fail> {
    holds(&rt, rt.alloc(), sync_tables::INVITED_AND_LEFT)?;
    Ok(())
}

#[test]
fn reads_of_rooms(rt: HostRuntime) -> Result<(), Fail> {
    holds(&rt, rt.alloc(), sync_tables::READS)?;
    Ok(())
}

#[test]
fn receipts_and_their_refusals(rt: HostRuntime) -> Result<(), Fail> {
    holds(&rt, rt.alloc(), sync_tables::MARKS)?;
    Ok(())
}

#[test]
fn pages_and_their_parameters(rt: HostRuntime) -> Result<(), Fail> {
    holds(&rt, rt.alloc(), sync_tables::PAGES)?;
    Ok(())
}

#[test]
fn counts_by_the_default_rules(rt: HostRuntime) -> Result<(), Fail> {
    holds(&rt, rt.alloc(), sync_tables::COUNTS)?;
    Ok(())
}
