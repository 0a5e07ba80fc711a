//! The outside of the program, as values that a contract can speak of: a [`Source`] of bytes, a [`Sink`] of bytes,
//! the [`Files`] that are read by name, a [`Listener`] for connections, a [`Spawner`] of jobs and a [`Clock`]. A [`Port`]
//! is both ways of a connection whose calls never wait, and [`Ports`] give such connections: they count besides how often
//! nothing was ready.
//!
//! Each but the clock counts its faults, and answers that it failed only in a call in which that count rose, or
//! stands at its last value. Where a source tells what is left to come, a call gives its beginning; where a sink
//! tells what was written, it has just the bytes that it was given. A clock can't fail, and contracts read all that it
//! has answered.
//!
//! Each has a form in memory ([`MemSource`], [`MemSink`], [`MemFiles`], [`MemListener`], [`MemPorts`], [`StepClock`]),
//! whose calls fail where the caller lists them, and an adapter to the system ([`StdIn`], [`StdOut`], [`StdErr`],
//! [`HostFiles`], [`TcpAccept`], [`TcpPorts`], [`HostClock`]), of which no contract can say what the system gives or takes.
//! A spawner of either kind is one type.
//!
//! Begin with `source.rt`: a trait with its counts, of which the other traits are variations.
#![tactic(auto)]

mod calls;
mod clock;
mod file_set;
mod host_clock;
mod host_files;
mod laws;
mod listener;
mod mem_file;
mod mem_files;
mod mem_listener;
mod mem_port;
mod mem_ports;
mod mem_sink;
mod mem_source;
mod port;
mod ports;
mod readings;
mod running;
mod shares;
mod sink;
mod source;
mod spawner;
mod step_clock;
mod streams;
mod tcp_accept;
mod tcp_ends;
mod tcp_ports;
mod watching;

pub use clock::Clock;
pub use file_set::{FileFault, Files};
pub use host_clock::HostClock;
pub use host_files::HostFiles;
pub use laws::{clocks_go_to_threads, ends_go_to_threads};
pub use listener::{Accepted, Listened, Listener};
pub use mem_file::MemFile;
pub use mem_files::MemFiles;
pub use mem_listener::MemListener;
pub use mem_port::MemPort;
pub use mem_ports::MemPorts;
pub use mem_sink::MemSink;
pub use mem_source::MemSource;
pub use port::{Port, PutNow, TookNow};
pub use ports::{AcceptedNow, Ports};
pub use sink::{Put, Sink};
pub use source::{Source, Took};
pub use spawner::{Job, Spawner, Started};
pub use step_clock::StepClock;
pub use streams::{Reading, StdErr, StdIn, StdOut, Writing};
pub use tcp_accept::TcpAccept;
pub use tcp_ends::{TcpIn, TcpOut};
pub use tcp_ports::{TcpPort, TcpPorts};
