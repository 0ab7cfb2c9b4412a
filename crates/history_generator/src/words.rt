//! The command line.
use crate::kind::{Kind, NAMES};
use crate::settings::{MOST, Settings};
use clap::builder::ValueParser;
use clap::error::ErrorKind;
use clap::{Arg, Command, Error, value_parser};
use std::alloc::{AllocError, Global};

/// An option that takes a whole number from 1 to [`MOST`].
fn number<'a>(alloc: Global, name: &'a str, help: &'a str) -> Arg<'a> {
    Arg::new(alloc, name)
        .long(name)
        .value_name("N")
        .value_parser(value_parser!(u32).range(1..=i64::from(MOST)))
        .help(help)
}

/// The command with its options and their help.
fn command<'a>(alloc: Global) -> Result<Command<'a>, AllocError> {
    Command::new(alloc, "history_generator")
        .about(
            "Writes a generated history of read/write registers. The same words give the same bytes.",
        )
        .arg(
            Arg::new(alloc, "kind")
                .required(true)
                .value_parser(ValueParser::Names(NAMES.as_slice()))
                .help("What the history is like"),
        )?
        .arg(number(alloc, "events", "How many events").default_value("1000"))?
        .arg(
            Arg::new(alloc, "seed")
                .long("seed")
                .value_name("N")
                .value_parser(value_parser!(u64))
                .default_value("0")
                .help("What the random choices come from"),
        )?
        .arg(number(
            alloc,
            "processes",
            "How many clients at once, at most [default: by the kind]",
        ))?
        .arg(number(
            alloc,
            "registers",
            "How many registers, at most [default: by the kind]",
        ))
}

/// What the words of the command line ask for, the program's name first.
pub fn read_words<'a>(alloc: Global, words: &'a [String]) -> Result<Settings, Error> {
    let mut command = command(alloc)?;
    let matches = command.try_get_matches_from_mut(words)?;
    let kind = matches.get_str("kind").and_then(Kind::named);
    match (kind, matches.get_one("events"), matches.get_one("seed")) {
        (Some(kind), Some(events), Some(seed)) => Ok(Settings::new(
            kind,
            events,
            seed,
            matches.get_one("processes"),
            matches.get_one("registers"),
        )),
        _ => Err(command.error(ErrorKind::MissingRequiredArgument, "no kind")?),
    }
}
