//! Words, read by a command.
ghost use Rattle.std.specs.Prelude.{◌≡◌, codes, map, option_map, string_bytes, true, IfOk, IfErr};
ghost use Rattle.clap.specs.Words.{app_of, first_value, found_of, is_simple_and_free};
ghost use Rattle.clap.specs.Words.{matches_of, rows_of, IsParsedFrom};
ghost use Rattle.command_words.specs.Words.{file_of, IsFaultless, IsTaken};

use crate::fault::{WordsFault, fault};
use clap::{ArgMatches, Command};
use std::alloc::{AllocError, Global};

/// The word for standard input, in the place of a file's name.
const STANDARD_INPUT: &str = "-";

/// Reads the words after the program's name by a command.
///
/// # Errors
/// `Bad` if the words are others than the command takes, or ask for help or the version; `Memory` if memory
/// ran out.
pub fn read<'a>(
    alloc: Global,
    command: Command<'a>,
    words: &'a [String],
) -> Result<ArgMatches<'a>, WordsFault>
    requires { is_simple_and_free (app_of command) ≡ true }
    ensures parsed { IfOk result (λ matches. IsParsedFrom command.entry matches) }
    ensures rows { IfOk result (λ matches.
        rows_of (found_of matches) ≡ matches_of (app_of command.entry) (map string_bytes words.entry.now)) }
    ensures faultless { IfOk result
        (λ _. IsFaultless (app_of command.entry) (map string_bytes words.entry.now)) }
    ensures taken { IfErr result (λ fault. IsTaken (app_of command.entry) (map string_bytes words.entry.now)
        → fault ≡ WordsFault.Memory) }
{
    match command.try_get_matches_from(words) {
        Ok(matches) => Ok(matches),
        Err(error) => Err(fault(alloc, &error)),
    }
}

/// The name of the file that was found; none for standard input, which the word `-` means, as does giving no
/// file.
pub fn file_in(alloc: Global, matches: &ArgMatches) -> Result<Option<String>, AllocError>
    ensures { IfOk result (λ file.
        option_map string_bytes file ≡ file_of (first_value (found_of matches.now) (codes "file"))) }
{
    match matches.get_str("file") {
        Some(name) if name != STANDARD_INPUT => Ok(Some(String::from_str(alloc, name)?)),
        _ => Ok(None),
    }
}
