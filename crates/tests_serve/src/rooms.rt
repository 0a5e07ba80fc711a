//! What calls are answered, table by table, and the bounds of events and of blocks.
use crate::sessions::{holds, holds_by};
use crate::tables::{CREATE, LEVELS, MEMBERS, REFUSED, ROOM};
use mx_ids::Memory;
use std::alloc::Global;
use std::test::Fail;

#[test]
fn a_room_by_calls(rt: HostRuntime) -> Result<(), Fail> {
    holds(&rt, rt.alloc(), ROOM)?;
    Ok(())
}

#[test]
fn memberships_and_their_refusals(rt: HostRuntime) -> Result<(), Fail> {
    holds(&rt, rt.alloc(), MEMBERS)?;
    Ok(())
}

#[test]
fn levels_of_equals(rt: HostRuntime) -> Result<(), Fail> {
    holds(&rt, rt.alloc(), LEVELS)?;
    Ok(())
}

#[test]
fn rooms_by_presets_and_bodies(rt: HostRuntime) -> Result<(), Fail> {
    holds(&rt, rt.alloc(), CREATE)?;
    Ok(())
}

#[test]
fn each_call_gets_its_answer_whatever_the_pieces(rt: HostRuntime) -> Result<(), Fail> {
    'pieces: for piece in [1, 4096, 1_000_000] {
        holds_by(&rt, rt.alloc(), REFUSED, piece)?;
    }
    Ok(())
}

/// A room, a message whose event has 65,536 bytes, and one whose event has 65,537.
fn two_sizes(alloc: Global) -> Result<String, Memory> {
    let mut table = String::from_str(
        alloc,
        "POST /createRoom tok_a1 {}\n200 {\"room_id\":\"!0-1:example.org\"}\nPUT /rooms/!0-1:example.org/send/m.room.message/t1 tok_a1 {\"body\":\"",
    )?;
    push_letters(&mut table, 65_350)?;
    table.push_str(
        "\"}\n200 {\"event_id\":\"$7:example.org\"}\nPUT /rooms/!0-1:example.org/send/m.room.message/t2 tok_a1 {\"body\":\"",
    )?;
    push_letters(&mut table, 65_351)?;
    table.push_str("\"}\n413 {\"errcode\":\"M_TOO_LARGE\",\"error\":\"too large\"}\n")?;
    Ok(table)
}

fn push_letters(text: &mut String, count: u32) -> Result<(), Memory> {
    'letters: for _ in 0..count {
        text.push('x')?;
    }
    Ok(())
}

#[test]
fn an_event_has_at_most_65536_bytes(rt: HostRuntime) -> Result<(), Fail> {
    let alloc = rt.alloc();
    let table = two_sizes(alloc)?;
    holds(&rt, alloc, table.as_str())?;
    Ok(())
}

/// The creation of a room with so many state entries, and its answer.
fn push_creation(
    alloc: Global,
    table: &mut String,
    entries: u32,
    told: &str,
) -> Result<(), Memory> {
    table.push_str(
        "POST /createRoom tok_a1 {\"initial_state\":[{\"content\":{},\"state_key\":\"0\",\"type\":\"a\"}",
    )?;
    'entries: for key in 1..entries {
        let entry = format!(in alloc;
            ",{{\"content\":{{}},\"state_key\":\"{key}\",\"type\":\"a\"}}"
        )?;
        table.push_str(entry.as_str())?;
    }
    let end = format!(in alloc; "]}}\n{told}\n")?;
    table.push_str(end.as_str())?;
    Ok(())
}

/// Blocks of 511, 512 and 513 events.
fn three_blocks(alloc: Global) -> Result<String, Memory> {
    let mut table = String::new(alloc);
    push_creation(
        alloc,
        &mut table,
        505,
        "200 {\"room_id\":\"!0-1:example.org\"}",
    )?;
    push_creation(
        alloc,
        &mut table,
        506,
        "200 {\"room_id\":\"!0-512:example.org\"}",
    )?;
    let refusal =
        "400 {\"errcode\":\"M_INVALID_PARAM\",\"error\":\"invalid parameter: initial_state\"}";
    push_creation(alloc, &mut table, 507, refusal)?;
    Ok(table)
}

#[test]
fn a_room_is_created_by_at_most_512_events(rt: HostRuntime) -> Result<(), Fail> {
    let alloc = rt.alloc();
    let table = three_blocks(alloc)?;
    holds(&rt, alloc, table.as_str())?;
    Ok(())
}

/// A block of 512 events, and a sync since the position behind it.
fn one_block(alloc: Global) -> Result<String, Memory> {
    let mut table = String::new(alloc);
    push_creation(
        alloc,
        &mut table,
        506,
        "200 {\"room_id\":\"!0-1:example.org\"}",
    )?;
    table.push_str(
        "GET /sync?since=s513_0_0_0_0 tok_a1\n400 {\"errcode\":\"M_INVALID_PARAM\",\"error\":\"token ahead: 513 > 512\"}\n",
    )?;
    Ok(table)
}

#[test]
fn a_block_of_512_events_moves_the_front_at_once(rt: HostRuntime) -> Result<(), Fail> {
    let alloc = rt.alloc();
    let table = one_block(alloc)?;
    holds(&rt, alloc, table.as_str())?;
    Ok(())
}
