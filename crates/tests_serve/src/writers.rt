//! The writers of the words, as room ids tell them: a room has the writer of its creator.
use crate::make::{expect_by, usual_case};
use crate::servers::{pair, status_by};
use crate::sessions::read_table;
use mx_ids::Memory;
use mx_outside::{MemListener, Spawner};
use std::alloc::Global;
use std::process::Abort;
use std::rt;
use std::sync::atomic::{AtomicU64, Ordering};
use std::sync::{Arc, Wait};
use std::test::Fail;
use std::thread::Threads;

/// A room of alice, of bob and of carol, each by its writer.
const ALICE_BY_0: &str = "POST /createRoom tok_a1 {}\n200 {\"room_id\":\"!0-1:example.org\"}\n";

const BOB_BY_0: &str = "POST /createRoom tok_b1 {}\n200 {\"room_id\":\"!0-7:example.org\"}\n";

const BOB_BY_1: &str = "POST /createRoom tok_b1 {}\n200 {\"room_id\":\"!1-7:example.org\"}\n";

const CAROL_BY_0: &str = "POST /createRoom tok_c1 {}\n200 {\"room_id\":\"!0-13:example.org\"}\n";

const CAROL_BY_2: &str = "POST /createRoom tok_c1 {}\n200 {\"room_id\":\"!2-13:example.org\"}\n";

/// The rooms where there is one writer, where there are two and where there are three.
const ONE: [&str; 3] = [ALICE_BY_0, BOB_BY_0, CAROL_BY_0];

const TWO: [&str; 3] = [ALICE_BY_0, BOB_BY_1, CAROL_BY_0];

const THREE: [&str; 3] = [ALICE_BY_0, BOB_BY_1, CAROL_BY_2];

/// These words, with `--workers` and a number, if it is given.
fn words(alloc: Global, first: &[&str], workers: &str) -> Result<Vec<String>, Memory> {
    let mut words = Vec::new(alloc);
    for word in first {
        words.push(String::from_str(alloc, word)?)?;
    }
    if !workers.is_empty() {
        words.push(String::from_str(alloc, "--workers")?)?;
        words.push(String::from_str(alloc, workers)?)?;
    }
    Ok(words)
}

/// Asserts that a run in mode `pipe` answers these tables over one connection.
fn expect_piped<R: Abort + Wait + rt::Clock + Threads + Copy + Drop + Send + 'static>(
    rt: &R,
    alloc: Global,
    workers: &str,
    tables: &[&str],
) -> Result<(), Memory> {
    let session = read_table(alloc, tables.join(alloc, "")?.as_str())?;
    let words = words(alloc, &["--users", "users", "--mode", "pipe"], workers)?;
    let case = usual_case(session.requests.as_str());
    expect_by(
        rt,
        alloc,
        words.as_slice(),
        &case,
        0,
        session.answers.as_str(),
        "",
    )
}

/// Asserts that a run in mode `serve` answers each of these tables over a connection of its own.
fn expect_served<R: Abort + Wait + rt::Clock + Threads + Copy + Drop + Send + 'static>(
    rt: &R,
    alloc: Global,
    workers: &str,
    tables: &[&str],
) -> Result<(), Memory> {
    let whole = Arc::new(alloc, AtomicU64::new(0))?;
    let mut pairs = Vec::new(alloc);
    for table in tables {
        pairs.push(pair(alloc, table, &whole)?)?;
    }
    let first = ["--users", "users", "--mode", "serve", "--listen", "here"];
    let words = words(alloc, &first, workers)?;
    let mut listener = MemListener::new(pairs, Vec::new(alloc));
    let mut spawner = Spawner::in_caller(Vec::new(alloc));
    let told = "mxsync: listening on here, and keeps nothing: no journal is named\n";
    let status = status_by(
        rt,
        alloc,
        words.as_slice(),
        &mut listener,
        &mut spawner,
        told,
    );
    drop(spawner);
    drop(listener);
    assert_eq!(rt;
        (status?, whole.load(Ordering::SeqCst)),
        (0, tables.len() as u64)
    );
    Ok(())
}

#[test]
fn a_room_has_the_writer_of_its_creator(rt: HostRuntime) -> Result<(), Fail> {
    let alloc = rt.alloc();
    for (workers, tables) in [("2", TWO), ("3", THREE), ("1", ONE), ("", ONE)] {
        expect_piped(&rt, alloc, workers, tables.as_slice())?;
        expect_served(&rt, alloc, workers, tables.as_slice())?;
    }
    Ok(())
}
