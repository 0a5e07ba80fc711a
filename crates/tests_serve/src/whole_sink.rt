//! A sink that knows what it is to be sent.
use mx_outside::{Put, Sink};
use std::sync::Arc;
use std::sync::atomic::{AtomicU64, Ordering};

/// What a connection is to be sent, how much of it came, and a count that goes up by one once all of it came, and by 1,000 with
/// each further or other put.
#[derive(Drop)]
pub struct WholeSink {
    wanted: String,
    came: usize,
    whole: Arc<AtomicU64>,
}

impl WholeSink {
    pub fn new(wanted: String, whole: Arc<AtomicU64>) -> WholeSink {
        WholeSink {
            wanted,
            came: 0,
            whole,
        }
    }

    /// What a put adds to the count.
    fn add(&mut self, bytes: &[u8]) -> u64 {
        let Some(rest) = self.wanted.as_bytes().get(self.came..) else {
            return 1000;
        };
        if !rest.starts_with(bytes) {
            return 1000;
        }
        let left = rest.len() - bytes.len();
        self.came = self.wanted.len() - left;
        if left == 0 { 1 } else { 0 }
    }
}

impl Sink for WholeSink {
    ghost use Rattle.std.specs.Prelude.{None};

    ghost written = { λ _. None };

    ghost faults = { λ _. 0 };

    fn put(&mut self, bytes: &[u8]) -> Put {
        let more = self.add(bytes);
        self.whole.fetch_add(more, Ordering::SeqCst);
        Put::Done
    }

    fn is_gone(&mut self) -> bool {
        false
    }
}
