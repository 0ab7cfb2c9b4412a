//! The arguments of a command line: a file's name, options with a value, and flags.
ghost use Rattle.std.specs.Prelude.{◌≡◌, false};
ghost use Rattle.clap.specs.Words.{rule_of};
ghost use Rattle.command_words.specs.Words.{file_rule, flag_rule, option_rule, up_to as is_up_to};

use clap::builder::ValueParser;
use clap::{Arg, ArgAction, value_parser};
use std::alloc::Global;

const FILE: &str = "The history, one JSON event a line; standard input if it is absent or -";

/// The one argument: the name of the file.
pub fn file<'a>(alloc: Global) -> Arg<'a>
    ensures rule { rule_of result ≡ file_rule }
    ensures local { result.global ≡ false }
{
    Arg::new(alloc, "file").value_name("FILE").help(FILE)
}

/// A whole number from 1 to `most`.
pub fn up_to<'a>(most: u32) -> ValueParser<'a>
    ensures { result ≡ is_up_to most }
{
    value_parser!(u32).range(1..=i64::from(most))
}

/// An option with a value that the parser takes, which is `default` if the option isn't given.
pub fn option<'a>(
    alloc: Global,
    name: &'a str,
    parser: ValueParser<'a>,
    default: &'a str,
) -> Arg<'a>
    ensures rule { rule_of result ≡ option_rule name.entry.now parser.entry default.entry.now }
    ensures local { result.global ≡ false }
{
    Arg::new(alloc, name)
        .long(name)
        .value_name("N")
        .action(ArgAction::Set)
        .value_parser(parser)
        .default_value(default)
}

/// A flag, which stands once or not at all.
pub fn flag<'a>(alloc: Global, name: &'a str) -> Arg<'a>
    ensures rule { rule_of result ≡ flag_rule name.entry.now }
    ensures local { result.global ≡ false }
{
    Arg::new(alloc, name).long(name).action(ArgAction::SetTrue)
}
