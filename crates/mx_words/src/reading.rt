//! Reading the words of the command line.
ghost use Rattle.std.specs.Prelude.{◌≡◌, IfOk, map, option_map, string_bytes};
ghost use Rattle.clap.specs.Words.{found_of, kind_of, rows_of};
ghost use Rattle.mx_words.specs.Matches.{HasNumbers, IsAskedBy, IsRunBy, said_by_values, way_at, why_of};
ghost use Rattle.mx_words.specs.Words.{AreWithin, IfRun, IsRead, asked_of, journal_of, said_by, said_of, way_by};

use crate::matches::{ModeAt, Values, Wrong, read_matches};
use crate::program::program;
use crate::words::{Asked, Mode, Words, WordsFault};
use clap::ArgMatches;
use clap::error::{Error, ErrorKind};
use std::alloc::{AllocError, Global};

/// Reads the words of the command line, those after the program's name, in any order:
///
/// - `--users FILE` and `--mode pipe`, `--mode serve` or `--mode loop`, both needed;
/// - `--listen ADDRESS`, which the modes `serve` and `loop` need and mode `pipe` refuses;
/// - `--threads N`, 1 to 16, and `--workers N`, 1 to 16, each 1 where it isn't given;
/// - `--connections N`: in modes `pipe` and `serve` 1 to 1,000, 64 where it isn't given, and in mode `loop` 1 to 50,000, 10,000 where it
///   isn't given;
/// - `--requests N`, 1 to 4,294,967,296, 1,000 where it isn't given, and `--idle N`, 1 to 86,400, 60 where it isn't given;
/// - `--until-eof`;
/// - `--journal FILE`.
///
/// No option is given twice. A value may stand after `=` in its option's word, and one that begins with `-` and has more stands only there.
/// A number is decimal digits, before which a plus or zeros may stand. `--help` or `-h` asks for the help, and `--version` or `-V` for the
/// version, where no word before it is refused.
///
/// `Usage` comes exactly where `clap` refuses the words for another cause than memory, the mode is none of the three, or the condition on
/// `--listen` or that on `--connections` fails; of these the first in this order is told. Its text is exact for the last three; what `clap`
/// says isn't told. `Memory` comes only for want of memory.
#[tactic(auto, unfolding(crate::specs::Words::asked_of))]
pub fn read_words(alloc: Global, words: &[String]) -> Result<Asked, WordsFault>
    ensures read { IsRead result (asked_of (map string_bytes words.now)) }
    ensures within { IfOk result (λ asked. IfRun asked AreWithin) }
{
    match program(alloc)?.try_get_matches_from(words) {
        Ok(matches) => Ok(Asked::Run(read_run(alloc, &matches)?)),
        Err(error) => asked_by(alloc, &error),
    }
}

/// The words of a run by their matches.
fn read_run(alloc: Global, matches: &ArgMatches) -> Result<Words, WordsFault>
    requires { HasNumbers (found_of matches.now) }
    ensures run { IsRunBy result (said_of (rows_of (found_of matches.now))) }
    ensures within { IfOk result AreWithin }
{
    match read_matches(matches) {
        Ok(values) => Ok(owned(alloc, values)?),
        Err(wrong) => Err(WordsFault::Usage(why(alloc, wrong)?)),
    }
}

/// The words with texts of their own.
fn owned(alloc: Global, values: Values) -> Result<Words, AllocError>
    ensures { IfOk result (λ w. said_by w ≡ said_by_values values.entry) }
{
    let users = String::from_str(alloc, values.users)?;
    let mode = own_mode(alloc, values.mode)?;
    let journal = journal_of(alloc, values.journal)?;
    Ok(Words {
        users,
        mode,
        threads: values.threads,
        workers: values.workers,
        connections: values.connections,
        requests: values.requests,
        idle: values.idle,
        until_eof: values.until_eof,
        journal,
    })
}

/// A mode with a text of its own as its address.
fn own_mode(alloc: Global, mode: ModeAt) -> Result<Mode, AllocError>
    ensures { IfOk result (λ own. way_by own ≡ way_at mode.entry) }
{
    match mode {
        ModeAt::Pipe => Ok(Mode::Pipe),
        ModeAt::Serve(address) => Ok(Mode::Serve(String::from_str(alloc, address)?)),
        ModeAt::Loop(address) => Ok(Mode::Loop(String::from_str(alloc, address)?)),
    }
}

/// The name of a journal as a text of its own.
fn journal_of(alloc: Global, name: Option<&str>) -> Result<Option<String>, AllocError>
    ensures { IfOk result (λ own. journal_of own ≡ option_map (λ s. s.now) name.entry) }
{
    match name {
        Some(name) => Ok(Some(String::from_str(alloc, name)?)),
        None => Ok(None),
    }
}

/// Why there is no run, as one text.
fn why(alloc: Global, wrong: Wrong) -> Result<String, AllocError>
    ensures { IfOk result (λ text. string_bytes text ≡ why_of wrong.entry) }
{
    let mut text = String::from_str(alloc, wrong.says)?;
    text.push_str(wrong.word)?;
    Ok(text)
}

/// What is asked where there are no matches.
fn asked_by(alloc: Global, error: &Error) -> Result<Asked, WordsFault>
    ensures { IsAskedBy result (kind_of error.now) }
{
    match error.kind() {
        ErrorKind::DisplayHelp => Ok(Asked::Help(error.to_string(alloc)?)),
        ErrorKind::DisplayVersion => Ok(Asked::Version(error.to_string(alloc)?)),
        ErrorKind::OutOfMemory => Err(WordsFault::Memory(AllocError)),
        _ => Err(WordsFault::Usage(first_part(alloc, error)?)),
    }
}

/// What `clap` says of an error up to the first empty line, in one line: behind it come tips and the usage.
fn first_part(alloc: Global, error: &Error) -> Result<String, AllocError> {
    let all = error.to_string(alloc)?;
    let said = all.as_str();
    let mut part = String::new(alloc);
    for line in said.strip_prefix("error: ").unwrap_or(said).lines() {
        if line.is_empty() {
            break;
        }
        if !part.is_empty() {
            part.push(' ')?;
        }
        part.push_str(line.trim())?;
    }
    Ok(part)
}
