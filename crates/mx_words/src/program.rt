//! The command that `clap` reads the words by, and makes the help of.
ghost use Rattle.std.specs.Prelude.{◌≡◌, ◌++◌, IfOk, false, pos};
ghost use Rattle.clap.specs.Words.{app_of, rule_of};
ghost use Rattle.clap.specs.declared.builder.value_parser.ValueParser.TheVariants as parsers;
ghost use Rattle.mx_words.specs.Program.{bare, flag_rule, free_number_rule, number_rule, text_rule};
ghost use Rattle.mx_words.specs.Program.{bound_rules, mode_rules, program, with_options};

use clap::builder::ValueParser;
use clap::{Arg, ArgAction, Command, value_parser};
use std::alloc::{AllocError, Global};

/// What `--version` tells behind the program's name.
const VERSION: &str = "0.1.0";

/// The help of `--mode`.
const MODE_HELP: &str =
    "pipe: one connection over standard input and output; serve: connections at an address, a thread for each; loop: as serve, by few threads";

/// The help of `--connections`, whose bounds depend on the mode.
const CONNECTIONS_HELP: &str =
    "Connections at once: in mode serve 1 to 1000, 64 where it isn't given; in mode loop 1 to 50000, 10000 where it isn't given";

/// The program's command, with its options.
pub(crate) fn program<'a>(alloc: Global) -> Result<Command<'a>, AllocError>
    ensures { IfOk result (λ c. app_of c ≡ program) }
{
    with_bounds(alloc)?
        .arg(flag_arg(
            alloc,
            "until-eof",
            "In mode serve, end once the standard input has ended",
        ))?
        .arg(text_arg(
            alloc,
            "journal",
            false,
            "FILE",
            "The journal: what is stored is kept there, and is there after a restart",
        ))
}

/// The command with the options that say how the program serves.
fn with_modes<'a>(alloc: Global) -> Result<Command<'a>, AllocError>
    ensures { IfOk result (λ c. app_of c ≡ with_options mode_rules) }
{
    bare(alloc)
        .arg(text_arg(alloc, "users", true, "FILE", "The users file"))?
        .arg(text_arg(alloc, "mode", true, "MODE", MODE_HELP))?
        .arg(text_arg(
            alloc,
            "listen",
            false,
            "ADDRESS",
            "The address of mode serve or loop, as 127.0.0.1:8008",
        ))
}

/// The command with the options of numbers besides.
fn with_bounds<'a>(alloc: Global) -> Result<Command<'a>, AllocError>
    ensures { IfOk result (λ c. app_of c ≡ with_options (mode_rules ++ bound_rules)) }
{
    with_modes(alloc)?
        .arg(number_arg(
            alloc,
            "threads",
            16,
            "1",
            "Threads of mode loop, each with a loop of its own, 1 to 16",
        ))?
        .arg(number_arg(alloc, "workers", 16, "1", "Writers of each stream, 1 to 16"))?
        .arg(free_number_arg(alloc, "connections", 50_000, CONNECTIONS_HELP))?
        .arg(number_arg(
            alloc,
            "requests",
            4_294_967_296,
            "1000",
            "Requests that a connection is served, 1 to 4294967296",
        ))?
        .arg(number_arg(
            alloc,
            "idle",
            86_400,
            "60",
            "Seconds that a connection may be silent in mode serve or loop, 1 to 86400",
        ))
}

/// The command without options: no name of the program stands before its words.
fn bare<'a>(alloc: Global) -> Command<'a>
    ensures { app_of result ≡ bare }
{
    Command::new(alloc, "mxsync")
        .version(VERSION)
        .about("The sync engine of a Matrix homeserver for local users")
        .no_binary_name(true)
}

/// An option `--NAME VALUE`.
fn text_arg<'a>(
    alloc: Global,
    name: &'a str,
    required: bool,
    value: &'a str,
    help: &'a str,
) -> Arg<'a>
    ensures rule { rule_of result ≡ text_rule name.entry.now required }
    ensures local { result.global ≡ false }
{
    Arg::new(alloc, name)
        .long(name)
        .action(ArgAction::Set)
        .required(required)
        .value_name(value)
        .help(help)
}

/// A flag `--NAME`.
fn flag_arg<'a>(alloc: Global, name: &'a str, help: &'a str) -> Arg<'a>
    ensures rule { rule_of result ≡ flag_rule name.entry.now }
    ensures local { result.global ≡ false }
{
    Arg::new(alloc, name)
        .long(name)
        .action(ArgAction::SetTrue)
        .help(help)
}

/// An option `--NAME N` with a number of 1 to `most`, and what it is where it isn't given.
fn number_arg<'a>(
    alloc: Global,
    name: &'a str,
    most: i64,
    otherwise: &'a str,
    help: &'a str,
) -> Arg<'a>
    ensures rule { rule_of result ≡ number_rule name.entry.now most otherwise.entry.now }
    ensures local { result.global ≡ false }
{
    free_number_arg(alloc, name, most, help).default_value(otherwise)
}

/// An option `--NAME N` with a number of 1 to `most`, and none where it isn't given.
fn free_number_arg<'a>(alloc: Global, name: &'a str, most: i64, help: &'a str) -> Arg<'a>
    ensures rule { rule_of result ≡ free_number_rule name.entry.now most }
    ensures local { result.global ≡ false }
{
    Arg::new(alloc, name)
        .long(name)
        .action(ArgAction::Set)
        .value_parser(up_to(most))
        .value_name("N")
        .help(help)
}

/// What takes a number of 1 to `most`.
fn up_to<'a>(most: i64) -> ValueParser<'a>
    ensures { result ≡ parsers.Signed (pos 1) most }
{
    value_parser!(i64).range(1..=most)
}
