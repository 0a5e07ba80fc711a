//! The program: the sync engine of a Matrix homeserver for local users (Client-Server API v1.11).
//!
//! `main` has no decision of its own. It makes the objects of the system (the files, the journals, the standard streams, the
//! clock, a TCP listener, ports over TCP and a spawner of threads), reads the words of the command line, and hands all of them to `run` of
//! `mx_pool`, whose contract says what the run does. The status of the process is the number of the status of the
//! run, 0 to 7; a line to standard error says why it isn't 0.
//!
//! What no contract covers is what stands in this file and the adapters of `mx_outside`. `main` is only run, on the
//! sample session.
//!
//! Begin with `mx_pool`'s `session.rt`.
#![tactic(auto)]

use mx_ids::Memory;
use mx_log::HostLogs;
use mx_outside::{HostClock, HostFiles, Spawner, StdErr, StdIn, StdOut, TcpAccept, TcpPorts};
use mx_pool::{Status, run, tell};
use std::alloc::AllocError;
use std::env;
use std::io::ErrorKind;
use std::process::ExitCode;

fn main(rt: HostRuntime) -> ExitCode {
    let mut errors = StdErr::new(rt.stderr());
    let words = match program_words(&rt) {
        Ok(words) => words,
        Err(refused) => return short(&mut errors, refused),
    };
    let mut spawner = match Spawner::in_threads(rt.alloc()) {
        Ok(spawner) => spawner,
        Err(refused) => return short(&mut errors, refused.into()),
    };
    let mut files = HostFiles::new(rt);
    let mut logs = HostLogs::new(rt);
    let mut input = StdIn::new(rt.stdin());
    let mut output = StdOut::new(rt.stdout());
    let mut clock = HostClock::new(rt);
    let mut listener = TcpAccept::new(rt, rt.alloc(), rt.stdin());
    let mut ports = TcpPorts::new(rt.alloc(), rt);
    let ran = run(
        &rt,
        rt.alloc(),
        words.as_slice(),
        &mut files,
        &mut logs,
        &mut input,
        &mut output,
        &mut errors,
        &mut clock,
        &mut listener,
        &mut spawner,
        &mut ports,
    );
    ExitCode::from(ran.status.number())
}

/// The end of a run for which memory was wanting before it began.
fn short(errors: &mut StdErr, refused: Memory) -> ExitCode {
    let status = Status::Memory(refused);
    tell(errors, status, None);
    ExitCode::from(status.number())
}

/// The words after the program's name. One that isn't UTF-8 makes the whole no words at all.
fn program_words(rt: &HostRuntime) -> Result<Vec<String>, Memory> {
    let mut words = Vec::new(rt.alloc());
    let args = match env::args(rt) {
        Ok(args) => args,
        Err(error) if error.kind() == ErrorKind::OutOfMemory => return Err(AllocError.into()),
        Err(_) => return Ok(words),
    };
    for word in args.skip(1) {
        words.push(word)?;
    }
    Ok(words)
}
