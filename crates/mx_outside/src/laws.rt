//! What may go to another thread.
use crate::host_clock::HostClock;
use crate::mem_sink::MemSink;
use crate::mem_source::MemSource;
use crate::step_clock::StepClock;
use crate::tcp_ends::{TcpIn, TcpOut};

/// A value of the type may go to another thread: a call at a type is proved only where that holds.
fn goes_to_threads<T: Send>() {}

/// The ends of a connection go to threads: those over TCP where the system's runtime does, and those in memory.
pub fn ends_go_to_threads<R: Send>() {
    goes_to_threads::<TcpIn<R>>();
    goes_to_threads::<TcpOut>();
    goes_to_threads::<MemSource>();
    goes_to_threads::<MemSink>();
}

/// Clocks go to threads: that of the system where its runtime does.
pub fn clocks_go_to_threads<R: Send>() {
    goes_to_threads::<HostClock<R>>();
    goes_to_threads::<StepClock>();
}
