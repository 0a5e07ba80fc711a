//! What is refused, table by table, and by full streams.

ghost use Rattle.std.specs.Prelude.{◌≤◌, IfOk};
ghost use Rattle.mx_engine.specs.Shown.{Ties};

use crate::make::{Case, sink, source, usual_case};
use crate::refusal_tables;
use crate::sessions::{holds, read_table};
use mx_engine::{EnginePass, Setup, engine};
use mx_ids::Memory;
use mx_outside::{MemSink, StepClock};
use mx_serve::{End, Server, serve_connection};
use mx_users::read_users;
use mx_writers::Open;
use std::alloc::Global;
use std::process::Abort;
use std::rt;
use std::sync::Wait;
use std::test::Fail;

#[test]
fn the_first_refusal_is_told_before_the_engine_is_asked(rt: HostRuntime) -> Result<(), Fail> {
    holds(&rt, rt.alloc(), refusal_tables::BEFORE_THE_ENGINE)?;
    Ok(())
}

#[test]
fn the_first_refusal_of_the_engine_is_told(rt: HostRuntime) -> Result<(), Fail> {
    holds(&rt, rt.alloc(), refusal_tables::BY_THE_ENGINE)?;
    Ok(())
}

#[test]
fn the_first_rule_that_refuses_is_told(rt: HostRuntime) -> Result<(), Fail> {
    holds(&rt, rt.alloc(), refusal_tables::RULE_BY_RULE)?;
    Ok(())
}

#[test]
fn the_first_refusal_of_a_new_room_is_told(rt: HostRuntime) -> Result<(), Fail> {
    holds(&rt, rt.alloc(), refusal_tables::NEW_ROOMS)?;
    Ok(())
}

#[test]
fn the_first_refusal_of_a_push_rule_is_told(rt: HostRuntime) -> Result<(), Fail> {
    holds(&rt, rt.alloc(), refusal_tables::PUSH_RULES)?;
    Ok(())
}

/// The table with what its marks stand for.
fn filled(alloc: Global, table: &str) -> Result<String, Memory> {
    let letters = "x".repeat(alloc, 65_536)?;
    let entries = r#"{"content":{},"type":"a"},"#.repeat(alloc, 506)?;
    let mut filled = String::new(alloc);
    'marks: for mark in table.chars() {
        match mark {
            '~' => filled.push_str(letters.as_str())?,
            '^' => filled.push_str(entries.as_str())?,
            _ => filled.push(mark)?,
        }
    }
    Ok(filled)
}

#[test]
fn an_event_that_is_too_large_is_told_in_its_place(rt: HostRuntime) -> Result<(), Fail> {
    let alloc = rt.alloc();
    let table = filled(alloc, refusal_tables::TOO_LARGE)?;
    holds(&rt, alloc, table.as_str())?;
    Ok(())
}

/// A server on an engine whose streams have this stop, and a pass.
fn server_up_to(
    rt: &impl Abort,
    alloc: Global,
    users: &str,
    stop: u64,
) -> Result<(Server<Open>, EnginePass), Memory>
    requires stop { stop ≤ 281474976694272 }
    ensures ties { IfOk result (λ r. Ties r.0.engine r.1) }
{
    let setup = Setup {
        users: read_users(alloc, users.as_bytes()).expect(rt, "a users file"),
        workers: 1,
        stop,
    };
    let (engine, pass) = engine(alloc, setup, Open)?;
    match Server::new(alloc, engine, 1000) {
        Ok(server) => Ok((server, pass)),
        Err(refused) => {
            drop(pass);
            Err(refused)
        }
    }
}

/// The end of a connection that a pass serves.
fn end_on<R: Abort + Wait + rt::Clock>(
    rt: &R,
    alloc: Global,
    server: &Server<Open>,
    pass: &mut EnginePass,
    case: &Case,
    output: &mut MemSink,
) -> Result<End, Memory>
    requires ties { Ties server.now.engine pass.old }
{
    let mut input = source(alloc, case)?;
    let mut clock = StepClock::new(1000, 1);
    let ended = serve_connection(rt, alloc, server, pass, &mut input, output, &mut clock);
    let end = ended.end;
    drop(ended);
    drop(input);
    Ok(end)
}

/// The end of a connection to a server on an engine whose streams have this stop.
fn end_by<R: Abort + Wait + rt::Clock>(
    rt: &R,
    alloc: Global,
    case: &Case,
    stop: u64,
    output: &mut MemSink,
) -> Result<End, Memory>
    requires { stop ≤ 281474976694272 }
{
    let (server, mut pass) = server_up_to(rt, alloc, case.users, stop)?;
    let end = end_on(rt, alloc, &server, &mut pass, case, output);
    drop(pass);
    drop(server);
    end
}

/// A connection to an engine whose streams have this stop is asked the calls of a table, and writes its answers.
fn holds_up_to<R: Abort + Wait + rt::Clock>(
    rt: &R,
    alloc: Global,
    table: &str,
    stop: u64,
) -> Result<(), Memory>
    requires { stop ≤ 281474976694272 }
{
    let session = read_table(alloc, table)?;
    let case = usual_case(session.requests.as_str());
    let mut output = sink(alloc, case.failing_write)?;
    let end = end_by(rt, alloc, &case, stop, &mut output);
    let is_written = output.written() == session.answers.as_bytes();
    drop(output);
    drop(session);
    assert_eq!(rt; end?, End::Closed);
    assert!(rt; is_written);
    Ok(())
}

#[test]
fn streams_without_a_position_are_full(rt: HostRuntime) -> Result<(), Fail> {
    holds_up_to(&rt, rt.alloc(), refusal_tables::FULL_FROM_THE_START, 0)?;
    Ok(())
}

#[test]
fn streams_are_full_once_their_positions_are_drawn(rt: HostRuntime) -> Result<(), Fail> {
    holds_up_to(&rt, rt.alloc(), refusal_tables::FULL_AFTER_ONE_BLOCK, 1)?;
    Ok(())
}
