//! Watching the standard input, with which a server may end.
use std::alloc::Global;
use std::io::{self, Read, Stdin};
use std::sync::Arc;
use std::sync::atomic::{AtomicBool, Ordering};
use std::thread;
use std::thread::Threads;

/// Whether what is watched has ended; nothing is watched where there is none.
pub(crate) fn has_ended(ended: &Option<Arc<AtomicBool>>) -> bool {
    match ended {
        Some(ended) => ended.load(Ordering::SeqCst),
        None => false,
    }
}

/// Starts a thread that reads the standard input until it has ended or failed, and then says so.
pub(crate) fn watch<R: Threads>(
    rt: &R,
    alloc: Global,
    input: Stdin,
) -> io::Result<Arc<AtomicBool>> {
    let ended = Arc::new(alloc, AtomicBool::new(false))?;
    let theirs = Arc::try_clone(&ended)?;
    let started = thread::spawn(rt, move || {
        read_all(input);
        theirs.store(true, Ordering::SeqCst);
    });
    drop(started?);
    Ok(ended)
}

/// Reads what comes, up to the end, an error, or 2^64 - 1 pieces.
fn read_all(mut input: Stdin) {
    let mut into = [0u8; 4096];
    'reads: for _ in 0..u64::MAX {
        match input.read(&mut into) {
            Ok(0) | Err(_) => return,
            Ok(_) => {}
        }
    }
}
