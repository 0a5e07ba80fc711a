//! Measures what reads of a snapshot cost. The program is no part of mxsync: it is built and run by hand.
//!
//! With the words `READ ITEMS REPEATS` it prints the milliseconds that so many reads take in streams that have so
//! many items, and with no words nothing. `bench/reads` runs it and prints ratios.
//!
//! Begin with `words.rt`, which lists the reads, then `looks.rt` and `advances.rt`; `stock.rt` makes the streams.
#![tactic(auto)]

mod advances;
mod history;
mod looks;
mod others;
mod stock;
mod unmeasured;
mod words;

use crate::advances::measure_advances;
use crate::looks::measure_looks;
use crate::unmeasured::Unmeasured;
use crate::words::{Read, Wanted, read_words};
use mx_outside::{Clock, HostClock, Sink, StdOut};
use std::alloc::Global;
use std::process::ExitCode;

fn main(rt: HostRuntime) -> ExitCode {
    let Some(wanted) = read_words(&rt) else {
        return ExitCode::from(0);
    };
    let mut clock = HostClock::new(rt);
    let mut output = StdOut::new(rt.stdout());
    let Ok(took) = measure(rt.alloc(), &mut clock, wanted) else {
        return ExitCode::from(1);
    };
    match format!(in rt.alloc(); "{took}\n") {
        Ok(line) => {
            let _ = output.put(line.as_bytes());
            ExitCode::from(0)
        }
        Err(_) => ExitCode::from(1),
    }
}

/// The milliseconds that are asked for.
fn measure<C: Clock>(alloc: Global, clock: &mut C, wanted: Wanted) -> Result<u64, Unmeasured> {
    let Wanted {
        read,
        items,
        repeats,
    } = wanted;
    match read {
        Read::Advance => measure_advances(alloc, clock, u64::from(items), repeats),
        Read::Look(look) => measure_looks(alloc, clock, look, u64::from(items), repeats),
    }
}
