//! The words of the command line, read by `clap`.
//!
//! The call is `read_words`: what the words ask, as [`Asked`] (a run with its [`Words`], the help or the version), or the
//! fault `Usage` exactly where they aren't of their form, which is `clap`'s definition of a command with these options
//! and the program's own conditions on them: three modes, `--listen` with the modes `serve` and `loop` alone, the bounds of
//! `--threads`, `--workers`, `--requests` and `--idle`, and that of `--connections`, which depends on the mode.
//!
//! The laws are checks on the definition itself: the words `--users FILE --mode pipe`, and
//! `--users FILE --mode loop --listen ADDRESS`, are read, and say what a reader expects; `--help` and `--version` ask for
//! the help and the version.
//!
//! Begin with `words.rt`, which has the types and the faults, then `reading.rt`. `specs/Words.antt` has the
//! definition, and `program.rt` the command.
#![tactic(auto)]

mod laws;
mod matches;
mod program;
mod reading;
mod words;

pub use laws::{help_and_version_are_asked, loop_words_are_read, pipe_words_are_read};
pub use reading::read_words;
pub use words::{Asked, Mode, Words, WordsFault};
