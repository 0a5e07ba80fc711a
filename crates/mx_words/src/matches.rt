//! What the matches of `clap` say.
ghost use Rattle.std.specs.Prelude.{◌≡◌, codes, option_map};
ghost use Rattle.std.specs.Result.{result_map_both};
ghost use Rattle.clap.specs.Words.{first_of, found_of, one_of, rows_of};
ghost use Rattle.mx_words.specs.Matches.{HasNumber, HasNumberIfGiven, HasNumbers, said_by_values, way_at, why_of};
ghost use Rattle.mx_words.specs.Words.{connections_of, is_set, most_connections, number_in, said_of, too_many, usual_connections};
ghost use Rattle.mx_words.specs.Words.{way_of, with_address, without_address};

use clap::ArgMatches;

/// A mode with its address, which is a text of the words themselves.
#[derive(Clone, Copy)]
pub(crate) enum ModeAt<'a> {
    Pipe,
    Serve(&'a str),
    Loop(&'a str),
}

/// What the words of a run say, as texts of the words themselves.
#[derive(Clone, Copy)]
pub(crate) struct Values<'a> {
    pub users: &'a str,
    pub mode: ModeAt<'a>,
    pub threads: u8,
    pub workers: u8,
    pub connections: u64,
    pub requests: u64,
    pub idle: u64,
    pub until_eof: bool,
    /// The name of the journal, if there is one.
    pub journal: Option<&'a str>,
}

/// Why words that `clap` takes make no run: a text that the program has, and the word that it is of, if it is of one.
#[derive(Clone, Copy)]
pub(crate) struct Wrong<'a> {
    pub says: &'a str,
    pub word: &'a str,
}

/// What the matches say; or why they make no run: the mode is none of the three, `pipe` has an address, another has none, or there are more
/// connections than the mode takes.
pub(crate) fn read_matches<'a>(matches: &ArgMatches<'a>) -> Result<Values<'a>, Wrong<'a>>
    requires { HasNumbers (found_of matches.now) }
    ensures { result_map_both said_by_values why_of result ≡ said_of (rows_of (found_of matches.now)) }
{
    let Some(users) = text(matches, "users") else {
        return Err(only("--users is missing"));
    };
    let Some(mode) = text(matches, "mode") else {
        return Err(only("--mode is missing"));
    };
    let mode = way(mode, text(matches, "listen"))?;
    let connections = connections(matches, mode)?;
    Ok(Values {
        users,
        mode,
        threads: small_number(matches, "threads"),
        workers: small_number(matches, "workers"),
        connections,
        requests: number(matches, "requests"),
        idle: number(matches, "idle"),
        until_eof: is_set(text(matches, "until-eof")),
        journal: text(matches, "journal"),
    })
}

/// The mode that this word and the address make, if there is one; else why that makes no run.
fn way<'a>(mode: &'a str, listen: Option<&'a str>) -> Result<ModeAt<'a>, Wrong<'a>>
    ensures { result_map_both way_at why_of result ≡ way_of mode.entry.now (option_map (λ s. s.now) listen.entry) }
{
    let serves = mode == "serve";
    match listen {
        Some(address) => {
            if serves {
                Ok(ModeAt::Serve(address))
            } else if mode == "loop" {
                Ok(ModeAt::Loop(address))
            } else {
                Err(beside_address(mode, address))
            }
        }
        None => {
            if mode == "pipe" {
                Ok(ModeAt::Pipe)
            } else {
                Err(without_address(mode))
            }
        }
    }
}

/// The connections at once: the number of the words, or the usual one of the mode; or why the number is too high for the mode.
fn connections<'a>(matches: &ArgMatches<'a>, mode: ModeAt<'a>) -> Result<u64, Wrong<'a>>
    requires { HasNumberIfGiven 50000 (found_of matches.now) (codes "connections") }
    ensures { result_map_both (λ n. n) why_of result
        ≡ connections_of (way_at mode.entry) (first_of (codes "connections") (rows_of (found_of matches.now))) }
{
    let Some(word) = text(matches, "connections") else {
        return Ok(usual_connections(mode));
    };
    let given = number(matches, "connections");
    if most_connections(mode) < given {
        Err(Wrong {
            says: too_many(mode),
            word,
        })
    } else {
        Ok(given)
    }
}

/// The connections of a mode where the words give no number of them.
fn usual_connections(mode: ModeAt) -> u64
    ensures { result ≡ usual_connections (way_at mode.entry) }
{
    match mode {
        ModeAt::Pipe => 64,
        ModeAt::Serve(_) => 64,
        ModeAt::Loop(_) => 10_000,
    }
}

/// The most connections of a mode.
fn most_connections(mode: ModeAt) -> u64
    ensures { result ≡ most_connections (way_at mode.entry) }
{
    match mode {
        ModeAt::Pipe => 1000,
        ModeAt::Serve(_) => 1000,
        ModeAt::Loop(_) => 50_000,
    }
}

/// What is told of more connections than a mode takes, before the word that gives their number.
fn too_many<'a>(mode: ModeAt) -> &'a str
    ensures { result.now ≡ too_many (way_at mode.entry) }
{
    match mode {
        ModeAt::Pipe => "mode pipe takes at most 1000 connections: ",
        ModeAt::Serve(_) => "mode serve takes at most 1000 connections: ",
        ModeAt::Loop(_) => "mode loop takes at most 50000 connections: ",
    }
}

/// Why a mode other than `serve` and `loop` makes no run with this address.
fn beside_address<'a>(mode: &'a str, address: &'a str) -> Wrong<'a>
    ensures { why_of result ≡ with_address mode.entry.now address.entry.now }
{
    if mode == "pipe" {
        Wrong {
            says: "mode pipe takes no --listen: ",
            word: address,
        }
    } else {
        unknown(mode)
    }
}

/// Why a mode other than `pipe` makes no run without an address.
fn without_address<'a>(mode: &'a str) -> Wrong<'a>
    ensures { why_of result ≡ without_address mode.entry.now }
{
    if mode == "serve" {
        only("mode serve needs --listen ADDRESS")
    } else if mode == "loop" {
        only("mode loop needs --listen ADDRESS")
    } else {
        unknown(mode)
    }
}

/// A mode that is none of the three.
fn unknown<'a>(mode: &'a str) -> Wrong<'a>
    ensures says { result.says.now ≡ codes "the mode is none of pipe, serve and loop: " }
    ensures word { result.word.now ≡ mode.entry.now }
{
    Wrong {
        says: "the mode is none of pipe, serve and loop: ",
        word: mode,
    }
}

/// A text that is of no word.
fn only<'a>(says: &'a str) -> Wrong<'a>
    ensures { why_of result ≡ says.entry.now }
{
    Wrong { says, word: "" }
}

/// Whether a flag with this value was given.
fn is_set<'a>(value: Option<&'a str>) -> bool
    ensures { result ≡ is_set (option_map (λ s. s.now) value.entry) }
{
    match value {
        Some(value) => value == "true",
        None => false,
    }
}

/// The value of an option, if it has one.
fn text<'a>(matches: &ArgMatches<'a>, id: &str) -> Option<&'a str>
    ensures { option_map (λ s. s.now) result ≡ first_of id.now (rows_of (found_of matches.now)) }
{
    matches.get_str(id)
}

/// The number of an option that has one below 256.
fn small_number(matches: &ArgMatches, id: &str) -> u8
    requires { HasNumber 8 (found_of matches.now) id.now }
    ensures { result ≡ number_in (one_of id.now (rows_of (found_of matches.now))) }
{
    match matches.get_one::<u8>(id) {
        Some(number) => number,
        None => unreachable!(),
    }
}

/// The number of an option that has one below 2^64.
fn number(matches: &ArgMatches, id: &str) -> u64
    requires { HasNumber 64 (found_of matches.now) id.now }
    ensures { result ≡ number_in (one_of id.now (rows_of (found_of matches.now))) }
{
    match matches.get_one::<u64>(id) {
        Some(number) => number,
        None => unreachable!(),
    }
}
