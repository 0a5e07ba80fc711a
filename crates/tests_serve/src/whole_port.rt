//! A port that knows what it is to be sent.
use crate::whole_sink::WholeSink;
use mx_outside::{Port, PutNow, Sink, TookNow};

/// A call moves so many bytes at most.
const PIECE: usize = 7;

/// The bytes of a connection, of which each second call isn't ready, and what it is to be sent.
#[derive(Drop)]
pub struct WholePort {
    bytes: Vec<u8>,
    at: usize,
    sink: WholeSink,
    is_busy: bool,
    faults: u64,
    waits: u64,
}

impl WholePort {
    pub fn new(bytes: Vec<u8>, sink: WholeSink) -> WholePort {
        WholePort {
            bytes,
            at: 0,
            sink,
            is_busy: false,
            faults: 0,
            waits: 0,
        }
    }
}

impl Port for WholePort {
    ghost use Rattle.std.specs.Prelude.{None};

    ghost left = { λ _. None };

    ghost written = { λ _. None };

    ghost faults = { λ s. s.faults };

    ghost waits = { λ s. s.waits };

    fn take_now(&mut self, into: &mut [u8]) -> TookNow {
        self.is_busy = !self.is_busy;
        if self.is_busy {
            self.waits = self.waits.saturating_add(1);
            return TookNow::NotYet;
        }
        let Some(rest) = self.bytes.get(self.at..) else {
            return TookNow::End;
        };
        let count = rest.len().min(into.len()).min(PIECE);
        if count == 0 {
            return TookNow::End;
        }
        into[..count].copy_from_slice(&rest[..count]);
        self.at = self.at.saturating_add(count);
        TookNow::Got(count)
    }

    fn put_now(&mut self, bytes: &[u8]) -> PutNow {
        self.is_busy = !self.is_busy;
        if self.is_busy {
            self.waits = self.waits.saturating_add(1);
            return PutNow::NotYet;
        }
        let count = bytes.len().min(PIECE);
        let _ = self.sink.put(&bytes[..count]);
        PutNow::Put(count)
    }

    fn give_up(&mut self) {
        self.faults = self.faults.saturating_add(1);
    }
}
