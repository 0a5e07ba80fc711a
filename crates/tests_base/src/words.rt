//! The words of the command line.
use mx_words::{Asked, Mode, Words, WordsFault, read_words};
use std::alloc::{AllocError, AllocFailed, Global};
use std::test::Fail;

/// Words and, after a bar, what they ask: the users file, the mode (`pipe`, or another with its address after an `=`), the threads, the
/// writers, the connections, the requests, the seconds of silence of a run, whether it ends with its input and the journal, where one is
/// named; `help` or `version`; or, after a `!`, why they are refused.
const TABLE: &str = "\
--users u.txt --mode pipe|u.txt pipe 1 1 64 1000 60 no
--mode pipe --users u.txt|u.txt pipe 1 1 64 1000 60 no
--users=u.txt --mode=pipe|u.txt pipe 1 1 64 1000 60 no
--users u.txt --mode pipe --workers 16 --connections 64|u.txt pipe 1 16 64 1000 60 no
--workers=1 --connections=1 --users u.txt --mode pipe|u.txt pipe 1 1 1 1000 60 no
--users u.txt --mode pipe --workers +3 --connections 010|u.txt pipe 1 3 10 1000 60 no
--users u.txt --mode serve --listen 127.0.0.1:8008|u.txt serve=127.0.0.1:8008 1 1 64 1000 60 no
--listen [::1]:80 --connections 2 --mode serve --workers 4 --users a/b.txt|a/b.txt serve=[::1]:80 1 4 2 1000 60 no
--users u.txt --mode pipe --requests 1|u.txt pipe 1 1 64 1 60 no
--requests=4294967296 --users u.txt --mode pipe|u.txt pipe 1 1 64 4294967296 60 no
--users u.txt --mode pipe --connections 1000 --idle 1|u.txt pipe 1 1 1000 1000 1 no
--idle=86400 --users u.txt --mode pipe|u.txt pipe 1 1 64 1000 86400 no
--until-eof --users u.txt --mode serve --listen a:1|u.txt serve=a:1 1 1 64 1000 60 yes
--users u.txt --mode pipe --journal j.txt|u.txt pipe 1 1 64 1000 60 no j.txt
--journal=j --until-eof --users u.txt --mode serve --listen a:1|u.txt serve=a:1 1 1 64 1000 60 yes j
--users u.txt --mode serve --listen a:1 --connections 1000|u.txt serve=a:1 1 1 1000 1000 60 no
--users u.txt --mode serve --listen a:1 --threads 2|u.txt serve=a:1 2 1 64 1000 60 no
--users u.txt --mode loop --listen 127.0.0.1:8008|u.txt loop=127.0.0.1:8008 1 1 10000 1000 60 no
--mode=loop --threads=16 --listen=[::1]:80 --users=u.txt --workers 4|u.txt loop=[::1]:80 16 4 10000 1000 60 no
--users u.txt --mode loop --listen a:1 --connections 50000 --idle 5|u.txt loop=a:1 1 1 50000 1000 5 no
--users u.txt --mode loop --listen a:1 --connections 1001 --threads +02|u.txt loop=a:1 2 1 1001 1000 60 no
--connections 1 --users u.txt --mode loop --listen a:1|u.txt loop=a:1 1 1 1 1000 60 no
--until-eof --users u.txt --mode loop --listen a:1 --journal j|u.txt loop=a:1 1 1 10000 1000 60 yes j
--users pipe --mode pipe|pipe pipe 1 1 64 1000 60 no
--users - --mode pipe|- pipe 1 1 64 1000 60 no
--users=-u --mode pipe|-u pipe 1 1 64 1000 60 no
--users= --mode pipe| pipe 1 1 64 1000 60 no
--help|help
-h|help
--users u.txt --mode pipe --help|help
--help --seed 1|help
--version|version
-V|version
--users u.txt --mode serve --version|version
|!the following required arguments were not provided: --users <FILE> --mode <MODE>
--users u.txt|!the following required arguments were not provided: --mode <MODE>
--mode pipe|!the following required arguments were not provided: --users <FILE>
--users u.txt --mode serve|!mode serve needs --listen ADDRESS
--users u.txt --mode loop|!mode loop needs --listen ADDRESS
--users u.txt --mode loop --connections 20000|!mode loop needs --listen ADDRESS
--users u.txt --mode pipe --listen 127.0.0.1:8008|!mode pipe takes no --listen: 127.0.0.1:8008
--users u.txt --mode soak|!the mode is none of pipe, serve and loop: soak
--users u.txt --mode Pipe|!the mode is none of pipe, serve and loop: Pipe
--users u.txt --mode Loop --listen 127.0.0.1:8008|!the mode is none of pipe, serve and loop: Loop
--users u.txt --mode soak --listen 127.0.0.1:8008|!the mode is none of pipe, serve and loop: soak
--users u.txt --mode pipe --workers 17|!invalid value '17' for '--workers <N>': 17 is not in 1..=16
--users u.txt --mode pipe --workers 0|!invalid value '0' for '--workers <N>': 0 is not in 1..=16
--users u.txt --mode pipe --workers -1|!unexpected argument '-1' found
--users u.txt --mode pipe --workers 1x|!invalid value '1x' for '--workers <N>': invalid digit found in string
--users u.txt --mode pipe --workers 257|!invalid value '257' for '--workers <N>': 257 is not in 1..=16
--users u.txt --mode pipe --threads 17|!invalid value '17' for '--threads <N>': 17 is not in 1..=16
--users u.txt --mode loop --listen a:1 --threads 0|!invalid value '0' for '--threads <N>': 0 is not in 1..=16
--users u.txt --mode pipe --connections 0|!invalid value '0' for '--connections <N>': 0 is not in 1..=50000
--users u.txt --mode loop --listen a:1 --connections 50001|!invalid value '50001' for '--connections <N>': 50001 is not in 1..=50000
--users u.txt --mode serve --listen a:1 --connections 50001|!invalid value '50001' for '--connections <N>': 50001 is not in 1..=50000
--users u.txt --mode pipe --connections=-1|!invalid value '-1' for '--connections <N>': -1 is not in 1..=50000
--users u.txt --mode pipe --connections|!a value is required for '--connections <N>' but none was supplied
--users u.txt --mode serve --listen a:1 --connections 1001|!mode serve takes at most 1000 connections: 1001
--connections=50000 --users u.txt --mode serve --listen a:1|!mode serve takes at most 1000 connections: 50000
--users u.txt --mode serve --listen a:1 --connections +01001|!mode serve takes at most 1000 connections: +01001
--users u.txt --mode pipe --connections 1001|!mode pipe takes at most 1000 connections: 1001
--users u.txt --mode pipe --listen a:1 --connections 1001|!mode pipe takes no --listen: a:1
--users u.txt --mode serve --connections 1001|!mode serve needs --listen ADDRESS
--users u.txt --mode soak --connections 1001|!the mode is none of pipe, serve and loop: soak
--users u.txt --mode pipe --requests 0|!invalid value '0' for '--requests <N>': 0 is not in 1..=4294967296
--users u.txt --mode pipe --requests 4294967297|!invalid value '4294967297' for '--requests <N>': 4294967297 is not in 1..=4294967296
--users u.txt --mode pipe --idle 0|!invalid value '0' for '--idle <N>': 0 is not in 1..=86400
--users u.txt --mode pipe --idle 86401|!invalid value '86401' for '--idle <N>': 86401 is not in 1..=86400
--users u.txt --mode pipe --until-eof=x|!unexpected value 'x' for '--until-eof' found; no more were expected
--users u.txt --mode pipe --until-eof --until-eof|!the argument '--until-eof' cannot be used multiple times
--users u.txt --mode pipe more|!unexpected argument 'more' found
--users u.txt --mode pipe --seed 1|!unexpected argument '--seed' found
--seed 1 --help|!unexpected argument '--seed' found
--users u.txt --mode pipe --work 1|!unexpected argument '--work' found
--users u.txt --mode pipe -w 1|!unexpected argument '-w' found
--users u.txt --mode pipe --help=x|!unexpected value 'x' for '--help' found; no more were expected
--users u.txt --mode|!a value is required for '--mode <MODE>' but none was supplied
--users --mode pipe|!a value is required for '--users <FILE>' but none was supplied
--users -u --mode pipe|!unexpected argument '-u' found
--users u.txt --mode pipe --journal|!a value is required for '--journal <FILE>' but none was supplied
--users u.txt --mode pipe --journal j --journal k|!the argument '--journal <FILE>' cannot be used multiple times
--users u.txt --mode pipe --mode pipe|!the argument '--mode <MODE>' cannot be used multiple times
--users u.txt --users u.txt --mode pipe|!the argument '--users <FILE>' cannot be used multiple times
--users u.txt -- --mode pipe|!unexpected argument '--mode' found
mxsync --users u.txt --mode pipe|!unexpected argument 'mxsync' found
";

/// The help.
const HELP: &str = "\
The sync engine of a Matrix homeserver for local users

Usage: mxsync [OPTIONS] --users <FILE> --mode <MODE>

Options:
      --users <FILE>      The users file
      --mode <MODE>       pipe: one connection over standard input and output; serve: connections at an address, a thread for each; loop: as serve, by few threads
      --listen <ADDRESS>  The address of mode serve or loop, as 127.0.0.1:8008
      --threads <N>       Threads of mode loop, each with a loop of its own, 1 to 16 [default: 1]
      --workers <N>       Writers of each stream, 1 to 16 [default: 1]
      --connections <N>   Connections at once: in mode serve 1 to 1000, 64 where it isn't given; in mode loop 1 to 50000, 10000 where it isn't given
      --requests <N>      Requests that a connection is served, 1 to 4294967296 [default: 1000]
      --idle <N>          Seconds that a connection may be silent in mode serve or loop, 1 to 86400 [default: 60]
      --until-eof         In mode serve, end once the standard input has ended
      --journal <FILE>    The journal: what is stored is kept there, and is there after a restart
  -h, --help              Print help
  -V, --version           Print version
";

/// The words of a text, which stand between spaces.
fn split(alloc: Global, text: &str) -> Result<Vec<String>, AllocError> {
    let mut words = Vec::new(alloc);
    for word in text.split(' ') {
        if !word.is_empty() {
            words.push(String::from_str(alloc, word)?)?;
        }
    }
    Ok(words)
}

/// Whether words say this: the users file, the mode, the threads, the writers, the connections, the requests, the seconds of silence, the
/// end and the journal.
fn say(words: &Words, told: &str) -> bool {
    let mut fields = told.split(' ');
    fields.next() == Some(words.users.as_str())
        && is_mode(fields.next(), &words.mode)
        && is_number(fields.next(), u64::from(words.threads))
        && is_number(fields.next(), u64::from(words.workers))
        && is_number(fields.next(), words.connections)
        && is_number(fields.next(), words.requests)
        && is_number(fields.next(), words.idle)
        && fields.next() == Some(if words.until_eof { "yes" } else { "no" })
        && fields.next() == words.journal.as_ref().map(|name| name.as_str())
}

/// Whether a field is this mode with its address.
fn is_mode(field: Option<&str>, mode: &Mode) -> bool {
    let Some(text) = field else {
        return false;
    };
    match mode {
        Mode::Pipe => text == "pipe",
        Mode::Serve(address) => text.strip_prefix("serve=") == Some(address.as_str()),
        Mode::Loop(address) => text.strip_prefix("loop=") == Some(address.as_str()),
    }
}

fn is_number(field: Option<&str>, number: u64) -> bool {
    match field {
        Some(text) => text.parse::<u64>() == Ok(number),
        None => false,
    }
}

/// Whether the words of a line are read as the line says.
fn is_read(alloc: Global, line: &str) -> Result<bool, AllocError> {
    let Some((text, told)) = line.split_once('|') else {
        return Ok(false);
    };
    match read_words(alloc, split(alloc, text)?.as_slice()) {
        Ok(Asked::Run(words)) => Ok(say(&words, told)),
        Ok(Asked::Help(text)) => Ok(told == "help" && text.as_str() == HELP),
        Ok(Asked::Version(text)) => Ok(told == "version" && text.as_str() == "mxsync 0.1.0\n"),
        Err(WordsFault::Usage(why)) => Ok(told.strip_prefix('!') == Some(why.as_str())),
        Err(WordsFault::Memory(refused)) => Err(refused),
    }
}

/// The number of the first line that isn't read as it says, from 1; 0 where each is.
fn first_other(alloc: Global, table: &str) -> Result<u64, AllocError> {
    let mut number = 0u64;
    for line in table.lines() {
        number = number.saturating_add(1);
        if !is_read(alloc, line)? {
            return Ok(number);
        }
    }
    Ok(0)
}

#[test]
fn words_are_read_or_refused(rt: HostRuntime) -> Result<(), Fail> {
    assert_eq!(rt; first_other(rt.alloc(), TABLE)?, 0);
    let second =
        "--users u.txt --mode pipe|u.txt pipe 1 1 64 1000 60 no\n--users u.txt --mode pipe|u.txt pipe 1 1 65 1000 60 no\n";
    assert_eq!(rt; first_other(rt.alloc(), second)?, 2);
    Ok(())
}
