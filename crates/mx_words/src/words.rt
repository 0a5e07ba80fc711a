//! What the words of the command line say.

use std::alloc::AllocError;

/// How the program serves.
#[derive(Drop)]
pub enum Mode {
    /// One connection, over the standard input and output.
    Pipe,
    /// Connections at this address, of which nothing is told but that it is a text.
    Serve(String),
    /// Connections at this address, by sessions that few threads step.
    Loop(String),
}

/// The words of a run, read.
#[derive(Drop)]
pub struct Words {
    /// The name of the users file.
    pub users: String,
    pub mode: Mode,
    /// Threads of mode `loop`, each with a loop of its own, 1 to 16.
    pub threads: u8,
    /// Writers a stream, 1 to 16.
    pub workers: u8,
    /// Connections at once, 1 to 1,000; in mode `loop` 1 to 50,000.
    pub connections: u64,
    /// Requests that a connection is served, 1 to 4,294,967,296.
    pub requests: u64,
    /// Seconds that a connection may be silent, 1 to 86,400.
    pub idle: u64,
    /// Whether the program ends once its standard input has ended.
    pub until_eof: bool,
    /// The name of the journal, where stores are kept in one.
    pub journal: Option<String>,
}

/// What the words of the command line ask.
#[derive(Drop)]
pub enum Asked {
    /// A run of the program.
    Run(Words),
    /// The help: the text that `clap` makes of the options, of several lines.
    Help(String),
    /// The version: the line that `clap` makes of it.
    Version(String),
}

/// Why the words aren't read.
#[derive(Drop)]
pub enum WordsFault {
    /// They aren't of the form that the program takes, as this text says, which names the word or the option. What stands in the words
    /// stands in it as it is, also a line's end.
    Usage(String),
    /// Want of memory.
    Memory(AllocError),
}

impl From<AllocError> for WordsFault {
    ghost use Rattle.std.specs.Prelude.{◌≡◌};
    ghost use Rattle.mx_words.specs.declared.words.WordsFault.TheVariants as faults;

    ghost from_gives = { λ m e. e ≡ faults.Memory m };

    fn from(refused: AllocError) -> WordsFault {
        WordsFault::Memory(refused)
    }
}
