//! Measures what a room costs an engine. The program is no part of mxsync: it is built and run by hand.
//!
//! With the words `sends EVENTS COUNT` it prints the milliseconds that so many sends take into a room that has so
//! many events; with `syncs EVENTS COUNT` those of so many syncs, each of the same ten messages that were sent after
//! so many events, of which the user has sent a receipt for the last; with `unread EVENTS COUNT` those of the same
//! syncs without a receipt; with `chain EVENTS COUNT` those of so many syncs that each tell of ten messages sent
//! since the one before, without a receipt. With `rests SYNCS COUNT` it prints those of so many sends while so many
//! syncs rest that the sends don't concern, and with `wakes SYNCS COUNT` while as many rest that each send answers.
//! With no words it prints nothing. `bench/sends`, `bench/syncs` and `bench/rests` run it and print ratios.
//!
//! Begin with `room.rt`, which makes the room and measures; `rests.rt` has the syncs that rest, `words.rt` reads the
//! words.
#![tactic(auto)]

mod rests;
mod room;
mod unmeasured;
mod users;
mod words;

use crate::room::measure;
use crate::words::read_words;
use mx_outside::{Clock, HostClock, Sink, StdOut};
use std::process::ExitCode;

fn main(rt: HostRuntime) -> ExitCode {
    let Some(wanted) = read_words(&rt) else {
        return ExitCode::from(0);
    };
    let mut clock = HostClock::new(rt);
    let mut output = StdOut::new(rt.stdout());
    let Ok(took) = measure(&rt, rt.alloc(), &mut clock, wanted) else {
        return ExitCode::from(1);
    };
    match format!(in rt.alloc(); "{took}\n") {
        Ok(line) => {
            let _ = output.put(line.as_bytes());
            ExitCode::from(0)
        }
        Err(_) => ExitCode::from(1),
    }
}
