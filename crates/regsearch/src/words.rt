//! The words of the command line.
ghost use Rattle.std.specs.Prelude.{◌≡◌, ◌≤◌, ◌<◌, ◌^◌, codes, map, option_map};
ghost use Rattle.std.specs.Prelude.{string_bytes, IfOk, IfErr, Some};
ghost use Rattle.clap.specs.Words.{app_of};
ghost use Rattle.clap.specs.declared.builder.value_parser.ValueParser.TheVariants.{Unsigned};
ghost use Rattle.command_words.specs.Words.{file_named, number_named, IsFaultless, IsTaken};
ghost use Rattle.configurations.specs.declared.bounds.TheConstants.{MAX_CONFIGURATIONS, MAX_STEPS};
ghost use Rattle.search_report.specs.declared.settings.TheConstants.{MAX_WORKERS};
ghost use Rattle.regsearch.specs.Words.{command_line};

use clap::builder::ValueParser;
use clap::{Command, value_parser};
use command_words::{WordsFault, file, file_in, option, read};
use register_search::{Bounds, MAX_CONFIGURATIONS, MAX_STEPS};
use search_report::{MAX_WORKERS, Settings};
use std::alloc::{AllocError, Global};

const ABOUT: &str =
    "Decides whether each register of a recorded history of reads, writes, deletes, swaps and compare-and-swap is atomic (linearizable), as far as the bounds allow.";

const VERSION: &str = "1.2.0 (rattle logic dac8208d650f15bf)";

const WORKERS: &str = "Workers, 1 to 16; the report is the same with any number";

const STEPS: &str =
    "Steps that the search of a register may take, 1 to 1000000000000; past them it gives up";

const CONFIGURATIONS: &str =
    "Configurations that the search may hold in one list, 1 to 1048576; past them it gives up";

const STATUSES: &str = "The report goes to standard output. Exit status:
  0  the history is atomic
  1  it isn't
  2  the history is refused: it isn't well formed, or too long
  3  the command line is refused, or it asked for this help or the version
  4  the history couldn't be read, the report couldn't be written, or there was no memory or no thread
  6  not decided within the bounds";

/// What the words ask for.
#[derive(Drop)]
pub struct Words {
    /// The name of the file with the history; standard input if there is none.
    pub file: Option<String>,
    pub settings: Settings,
}

/// A whole number from 1 to `most`.
fn up_to<'a>(most: u64) -> ValueParser<'a>
    requires { most < 2 ^ 63 }
    ensures { result ≡ Unsigned 1 most }
{
    value_parser!(u64).range(1..=most as i64)
}

fn command<'a>(alloc: Global) -> Result<Command<'a>, AllocError>
    ensures { IfOk result (λ command. app_of command ≡ command_line) }
{
    Command::new(alloc, "regsearch")
        .no_binary_name(true)
        .version(VERSION)
        .about(ABOUT)
        .after_help(STATUSES)
        .arg(file(alloc))?
        .arg(option(alloc, "workers", up_to(u64::from(MAX_WORKERS)), "4").help(WORKERS))?
        .arg(option(alloc, "steps", up_to(MAX_STEPS), "1000000000").help(STEPS))?
        .arg(option(
            alloc,
            "configurations",
            up_to(MAX_CONFIGURATIONS as u64),
            "65536",
        )
        .help(CONFIGURATIONS))
}

/// Reads the words after the program's name: one file at most, `--workers N`, `--steps N` and
/// `--configurations N`. If they don't say, there are 4 workers, 1,000,000,000 steps and 65,536
/// configurations. The word `-` means standard input, as does giving no file.
///
/// # Errors
/// `Bad` if the words are others, or ask for help or the version; `Memory` if memory ran out.
pub fn read_words(alloc: Global, words: &[String]) -> Result<Words, WordsFault>
    ensures file { IfOk result (λ read.
        option_map string_bytes read.file ≡ file_named command_line (map string_bytes words.now)) }
    ensures workers { IfOk result (λ read.
        Some read.settings.workers ≡ number_named command_line (codes "workers")
        (map string_bytes words.now)) }
    ensures steps { IfOk result (λ read.
        Some read.settings.bounds.steps ≡ number_named command_line (codes "steps")
        (map string_bytes words.now)) }
    ensures configurations { IfOk result (λ read. Some read.settings.bounds.configurations
        ≡ number_named command_line (codes "configurations") (map string_bytes words.now)) }
    ensures workers_limits { IfOk result (λ read. (1 ≤ read.settings.workers)
        × (read.settings.workers ≤ MAX_WORKERS)) }
    ensures steps_limits { IfOk result (λ read. (1 ≤ read.settings.bounds.steps)
        × (read.settings.bounds.steps ≤ MAX_STEPS)) }
    ensures configurations_limits { IfOk result (λ read. (1 ≤ read.settings.bounds.configurations)
        × (read.settings.bounds.configurations ≤ MAX_CONFIGURATIONS)) }
    ensures faultless { IfOk result (λ _. IsFaultless command_line (map string_bytes words.now)) }
    ensures taken { IfErr result (λ fault. IsTaken command_line (map string_bytes words.now)
        → fault ≡ WordsFault.Memory) }
{
    let matches = read(alloc, command(alloc)?, words)?;
    let workers: u64 = matches.get_one("workers").unwrap();
    let steps: u64 = matches.get_one("steps").unwrap();
    let configurations: u64 = matches.get_one("configurations").unwrap();
    let bounds = Bounds {
        steps,
        configurations: configurations as usize,
    };
    Ok(Words {
        file: file_in(alloc, &matches)?,
        settings: Settings::new(workers as u32, bounds).unwrap(),
    })
}
