//! The lines to the error stream.
ghost use Rattle.std.specs.Prelude.{◌≡◌, ◌⊎◌, ◌++◌, Some, IfOk, codes, decimal, option_map, string_bytes};
ghost use Rattle.mx_ids.specs.Memory.{refused_memory};
ghost use Rattle.mx_pool.specs.Lines.{Tells, end_of, line_of, listening_line, limit_text, shown};

use crate::status::{JournalFault, Status};
use itoa::Buffer;
use mx_ids::{Memory, split_first};
use mx_outside::{Put, Sink};
use std::alloc::Global;

/// Puts one line to `errors` that says why the status isn't `Done`; nothing where it is. A fault of `errors` is passed over. Takes no
/// memory.
///
/// The line of `Usage`, `UsersFile`, `Outside`, `Listener` and `Journal` goes on with `: ` and what the status is about, where it is given: why the
/// words aren't of their form, the name of the users file, the address that can't be bound, the name of the journal, or what is wrong with its
/// line. It stands as it is, so it has no line's end.
pub fn tell<E: Sink>(errors: &mut E, status: Status, about: Option<&str>)
    ensures { Tells (E.written errors.old) (E.written errors.new) (E.faults errors.old) (E.faults errors.new) (line_of status (option_map (λ s. s.now) about.entry)) }
{
    match status {
        Status::Done => {}
        Status::RequestStream => put_text(errors, b"mxsync: request stream\n"),
        Status::Usage => put_line(errors, b"mxsync: usage", about, b"\n"),
        Status::UsersFile(line) => put_users_line(errors, line, about),
        Status::Outside => put_line(errors, b"mxsync: outside", about, b": can't be read\n"),
        Status::Memory(_) => put_text(errors, b"mxsync: memory\n"),
        Status::Listener => put_line(errors, b"mxsync: listener", about, b": can't be bound\n"),
        Status::Journal(fault) => put_journal_line(errors, fault, about),
    }
}

/// Tells a status with what it is about, of which each control character is shown as a space; the status, or `Memory`, which is told
/// then, for want of memory.
pub(crate) fn tell_about<E: Sink>(
    alloc: Global,
    errors: &mut E,
    status: Status,
    about: &str,
) -> Status
    ensures status { (result ≡ status) ⊎ (result ≡ Status.Memory refused_memory) }
    ensures told { Tells (E.written errors.old) (E.written errors.new) (E.faults errors.old) (E.faults errors.new) (line_of result (Some (shown about.now))) }
{
    match on_one_line(alloc, about) {
        Ok(about) => {
            tell(errors, status, Some(about.as_str()));
            drop(about);
            status
        }
        Err(refused) => {
            let short = Status::Memory(refused);
            tell(errors, short, None);
            short
        }
    }
}

/// A text on one line: each control character is a space there.
fn on_one_line(alloc: Global, text: &str) -> Result<String, Memory>
    ensures { IfOk result (λ line. string_bytes line ≡ shown text.now) }
{
    let mut line = String::new(alloc);
    let mut rest = text;
    'characters: while let Some((first, behind)) = split_first(rest) {
        line.push(if first.is_control() { ' ' } else { first })?;
        rest = behind;
    }
    Ok(line)
}

/// Puts the line that names the address at which a server listens, and what is said behind that. A fault is passed over. Takes no memory.
pub(crate) fn tell_address<E: Sink>(errors: &mut E, address: &str, says: &[u8])
    ensures { Tells (E.written errors.old) (E.written errors.new) (E.faults errors.old) (E.faults errors.new) (listening_line address.now says.now) }
{
    match errors.put(b"mxsync: listening on ") {
        Put::Failed => {}
        Put::Done => put_about(errors, address, says),
    }
}

/// Puts a line: its begin, what it is about, if that is given, and what is said of that, with the line's end.
fn put_line<E: Sink>(errors: &mut E, begin: &[u8], about: Option<&str>, says: &[u8])
    ensures { Tells (E.written errors.old) (E.written errors.new) (E.faults errors.old) (E.faults errors.new) (begin.now ++ end_of (option_map (λ s. s.now) about.entry) says.now) }
{
    match errors.put(begin) {
        Put::Failed => {}
        Put::Done => put_end(errors, about, says),
    }
}

/// Puts the end of a line: what it is about, if that is given, and what is said of that.
fn put_end<E: Sink>(errors: &mut E, about: Option<&str>, says: &[u8])
    ensures { Tells (E.written errors.old) (E.written errors.new) (E.faults errors.old) (E.faults errors.new) (end_of (option_map (λ s. s.now) about.entry) says.now) }
{
    match about {
        None => put_text(errors, b"\n"),
        Some(about) => put_named(errors, about, says),
    }
}

/// Puts `: `, what a line is about, and what is said of that.
fn put_named<E: Sink>(errors: &mut E, about: &str, says: &[u8])
    ensures { Tells (E.written errors.old) (E.written errors.new) (E.faults errors.old) (E.faults errors.new) (codes ": " ++ (about.now ++ says.now)) }
{
    match errors.put(b": ") {
        Put::Failed => {}
        Put::Done => put_about(errors, about, says),
    }
}

/// Puts what a line is about, and what is said of that.
fn put_about<E: Sink>(errors: &mut E, about: &str, says: &[u8])
    ensures { Tells (E.written errors.old) (E.written errors.new) (E.faults errors.old) (E.faults errors.new) (about.now ++ says.now) }
{
    match errors.put(about.as_bytes()) {
        Put::Failed => {}
        Put::Done => put_text(errors, says),
    }
}

/// Puts the line that names a line of the users file.
fn put_users_line<E: Sink>(errors: &mut E, line: u64, about: Option<&str>)
    ensures { Tells (E.written errors.old) (E.written errors.new) (E.faults errors.old) (E.faults errors.new) (line_of (Status.UsersFile line) (option_map (λ s. s.now) about.entry)) }
{
    match errors.put(b"mxsync: users file, line ") {
        Put::Failed => {}
        Put::Done => put_number(errors, line, about),
    }
}

/// Puts the line that tells why a run has no journal.
fn put_journal_line<E: Sink>(errors: &mut E, fault: JournalFault, about: Option<&str>)
    ensures { Tells (E.written errors.old) (E.written errors.new) (E.faults errors.old) (E.faults errors.new) (line_of (Status.Journal fault) (option_map (λ s. s.now) about.entry)) }
{
    match fault {
        JournalFault::Busy => put_line(errors, b"mxsync: journal: in use", about, b"\n"),
        JournalFault::Failed => {
            put_line(
                errors,
                b"mxsync: journal",
                about,
                b": can't be read or written\n",
            );
        }
        JournalFault::Line(number) => put_refused_line(errors, number, about),
    }
}

/// Puts the line that names a line of the journal.
fn put_refused_line<E: Sink>(errors: &mut E, number: u64, about: Option<&str>)
    ensures { Tells (E.written errors.old) (E.written errors.new) (E.faults errors.old) (E.faults errors.new) (line_of (Status.Journal (JournalFault.Line number)) (option_map (λ s. s.now) about.entry)) }
{
    match errors.put(b"mxsync: journal: line ") {
        Put::Failed => {}
        Put::Done => put_digits(errors, number, about),
    }
}

/// Puts a number, and the end of a line.
fn put_digits<E: Sink>(errors: &mut E, number: u64, about: Option<&str>)
    ensures { Tells (E.written errors.old) (E.written errors.new) (E.faults errors.old) (E.faults errors.new) (decimal number ++ end_of (option_map (λ s. s.now) about.entry) (codes "\n")) }
{
    let mut digits = Buffer::new();
    put_line(errors, digits.format(number).as_bytes(), about, b"\n");
}

/// Puts the number of a line of the users file, and the end of the line.
fn put_number<E: Sink>(errors: &mut E, line: u64, about: Option<&str>)
    ensures { Tells (E.written errors.old) (E.written errors.new) (E.faults errors.old) (E.faults errors.new) (decimal line ++ end_of (option_map (λ s. s.now) about.entry) (limit_text line)) }
{
    let mut digits = Buffer::new();
    put_line(errors, digits.format(line).as_bytes(), about, says_of(line));
}

/// What is said of a users file behind its name, with the line's end.
fn says_of(line: u64) -> &'static [u8]
    ensures { result.now ≡ limit_text line }
{
    if line == 0 {
        b": more than 1048576 bytes\n"
    } else {
        b"\n"
    }
}

/// Puts a text. A fault is passed over.
fn put_text<E: Sink>(errors: &mut E, text: &[u8])
    ensures { Tells (E.written errors.old) (E.written errors.new) (E.faults errors.old) (E.faults errors.new) text.now }
{
    let _ = errors.put(text);
}
