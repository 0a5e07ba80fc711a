//! Runs of the program over sources, sinks and files in memory, and the bytes of answers.
use mx_ids::Memory;
use mx_log::MemLogs;
use mx_outside::{
    MemFile, MemFiles, MemListener, MemPort, MemPorts, MemSink, MemSource, Spawner, StepClock,
};
use mx_pool::run;
use std::alloc::Global;
use std::process::Abort;
use std::rt;
use std::sync::Wait;
use std::thread::Threads;

pub const USERS: &str = "\nserver example.org\n\nalice A1 tok_a1\nbob B1 tok_b1\ncarol C1 tok_c1";

/// The number of a call that isn't made.
pub const NEVER: u64 = 1_000_000;

/// What a run is given.
#[derive(Clone, Copy)]
pub struct Case<'a> {
    pub file: &'a str,
    pub mode: &'a str,
    pub users: &'a str,
    pub input: &'a str,
    pub piece: usize,
    pub failing_read: u64,
    pub failing_write: u64,
    /// What stands in the journal, and how many calls to it don't fail.
    pub journal: &'a str,
    pub kept: u64,
}

/// A run whose words and users file are of their form, where nothing fails.
pub fn usual_case(input: &str) -> Case {
    Case {
        file: "users",
        mode: "pipe",
        users: USERS,
        input,
        piece: 1000,
        failing_read: NEVER,
        failing_write: NEVER,
        journal: "",
        kept: NEVER,
    }
}

/// The words `--users FILE --mode MODE`.
pub fn words(alloc: Global, file: &str, mode: &str) -> Result<Vec<String>, Memory> {
    let words = [
        String::from_str(alloc, "--users")?,
        String::from_str(alloc, file)?,
        String::from_str(alloc, "--mode")?,
        String::from_str(alloc, mode)?,
    ];
    Ok(Vec::from_array(alloc, words)?)
}

pub fn files(alloc: Global, users: &str) -> Result<MemFiles, Memory> {
    let file = MemFile {
        name: String::from_str(alloc, "users")?,
        bytes: Vec::from_slice(alloc, users.as_bytes())?,
    };
    Ok(MemFiles::new(Vec::from_array(alloc, [file])?, Vec::new(alloc)))
}

pub fn source(alloc: Global, case: &Case) -> Result<MemSource, Memory> {
    let bytes = Vec::from_slice(alloc, case.input.as_bytes())?;
    let failing = Vec::from_array(alloc, [case.failing_read])?;
    Ok(MemSource::new(bytes, case.piece.max(1), failing))
}

pub fn sink(alloc: Global, failing: u64) -> Result<MemSink, Memory> {
    Ok(MemSink::new(alloc, Vec::from_array(alloc, [failing])?))
}

/// A run ends with this status, and writes this to the output and to the errors.
pub fn expect<R: Abort + Wait + rt::Clock + Threads + Copy + Drop + Send + 'static>(
    rt: &R,
    alloc: Global,
    case: &Case,
    status: u8,
    written: &str,
    told: &str,
) -> Result<(), Memory> {
    let words = words(alloc, case.file, case.mode)?;
    expect_by(rt, alloc, words.as_slice(), case, status, written, told)
}

/// The same of a run with these words.
pub fn expect_by<R: Abort + Wait + rt::Clock + Threads + Copy + Drop + Send + 'static>(
    rt: &R,
    alloc: Global,
    words: &[String],
    case: &Case,
    status: u8,
    written: &str,
    told: &str,
) -> Result<(), Memory> {
    let mut output = sink(alloc, case.failing_write)?;
    let mut errors = sink(alloc, NEVER)?;
    let found = status_of(rt, alloc, words, case, &mut output, &mut errors);
    let is_written = output.written() == written.as_bytes();
    let is_told = errors.written() == told.as_bytes();
    drop(errors);
    drop(output);
    assert_eq!(rt; found?, status);
    assert!(rt; is_written);
    assert!(rt; is_told);
    Ok(())
}

/// The status of a run with these words.
pub fn status_of<R: Abort + Wait + rt::Clock + Threads + Copy + Drop + Send + 'static>(
    rt: &R,
    alloc: Global,
    words: &[String],
    case: &Case,
    output: &mut MemSink,
    errors: &mut MemSink,
) -> Result<u8, Memory> {
    let mut files = files(alloc, case.users)?;
    let mut logs = MemLogs::new(Vec::from_slice(alloc, case.journal.as_bytes())?, case.kept);
    let mut input = source(alloc, case)?;
    let status = status_on(
        rt, alloc, words, &mut files, &mut logs, &mut input, output, errors,
    );
    drop(input);
    drop(logs);
    drop(files);
    Ok(status)
}

/// Ports of which none comes.
pub fn no_ports(alloc: Global) -> MemPorts<MemPort> {
    MemPorts::new(Vec::new(alloc), Vec::new(alloc), Vec::new(alloc))
}

/// The status of a run with these words, over these files, this journal and this input.
fn status_on<R: Abort + Wait + rt::Clock + Threads + Copy + Drop + Send + 'static>(
    rt: &R,
    alloc: Global,
    words: &[String],
    files: &mut MemFiles,
    logs: &mut MemLogs,
    input: &mut MemSource,
    output: &mut MemSink,
    errors: &mut MemSink,
) -> u8 {
    let mut clock = StepClock::new(1000, 1);
    let pairs: Vec<(MemSource, MemSink)> = Vec::new(alloc);
    let mut listener = MemListener::new(pairs, Vec::new(alloc));
    let mut spawner = Spawner::in_caller(Vec::new(alloc));
    let mut ports = no_ports(alloc);
    let ran = run(
        rt,
        alloc,
        words,
        files,
        logs,
        input,
        output,
        errors,
        &mut clock,
        &mut listener,
        &mut spawner,
        &mut ports,
    );
    let status = ran.status.number();
    drop(ran);
    drop(ports);
    drop(spawner);
    drop(listener);
    status
}

const HEADERS: &str =
    "Access-Control-Allow-Origin: *\r\nAccess-Control-Allow-Methods: GET, POST, PUT, DELETE, OPTIONS\r\nAccess-Control-Allow-Headers: X-Requested-With, Content-Type, Authorization\r\n";

/// The bytes of an answer, with what its head ends with.
pub fn answer(alloc: Global, status: &str, end: &str, body: &str) -> Result<String, Memory> {
    let size = body.len();
    Ok(format!(in alloc;
        "HTTP/1.1 {status}\r\nContent-Type: application/json\r\nContent-Length: {size}\r\n{HEADERS}{end}\r\n{body}"
    )?)
}
