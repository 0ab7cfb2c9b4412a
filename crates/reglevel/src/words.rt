//! The words of the command line.
ghost use Rattle.std.specs.Prelude.{◌≡◌, ◌≤◌, codes, map, option_map, string_bytes, IfOk, IfErr, Some};
ghost use Rattle.clap.specs.Words.{app_of};
ghost use Rattle.command_words.specs.Words.{file_named, number_named, program, text_given};
ghost use Rattle.command_words.specs.Words.{IsFaultless, IsFlag, IsTaken};
ghost use Rattle.level_report.specs.declared.settings.TheConstants.{MAX_WORKERS};
ghost use Rattle.report_text.specs.Level.Words.{required_word};
ghost use Rattle.reglevel.specs.Words.{command_line, AreLevelWords};

use clap::Command;
use clap::builder::ValueParser;
use command_words::{WordsFault, file, file_in, flag, option, read, up_to};
use level_report::{Asked, MAX_WORKERS, Required, Settings};
use std::alloc::{AllocError, Global};

const ABOUT: &str =
    "Says which guarantees each register of a recorded history of reads and writes kept, and how old its reads were.";

const VERSION: &str = "1.2.0 (rattle logic dac8208d650f15bf)";

const REQUIRE: &str =
    "What has to hold for the exit status to be 0: a level of each register, or causal of the whole";

const WORKERS: &str = "Workers, 1 to 16; the report is the same with any number";

const STALE: &str = "Lists each stale read with the missed write that ended first";

const ORDERS: &str =
    "Gives an order for the strongest level that a register kept, and a causal order of all writes";

const STATUSES: &str = "The report goes to standard output. Exit status:
  0  each register kept the level that is required, or the history is causal
  1  some register didn't, or it isn't
  2  the history is refused: it isn't well formed, or too long
  3  the command line is refused, or it asked for this help or the version
  4  the history couldn't be read, the report couldn't be written, or there was no memory or no thread
  6  causal is required, and wasn't decided: the history has too many sessions";

/// What `--require` takes.
pub const LEVELS: [&str; 7] = [
    "atomic",
    "regular",
    "session",
    "own_writes",
    "monotonic",
    "sequential",
    "causal",
];

/// What the words ask for.
#[derive(Drop)]
pub struct Words {
    /// The name of the file with the history; standard input if there is none.
    pub file: Option<String>,
    pub settings: Settings,
}

/// The program, without its arguments.
fn named<'a>(alloc: Global) -> Command<'a>
    ensures { app_of result ≡ program (codes "reglevel") }
{
    Command::new(alloc, "reglevel")
        .no_binary_name(true)
        .version(VERSION)
        .about(ABOUT)
        .after_help(STATUSES)
}

fn command<'a>(alloc: Global, levels: &'a [&'a str]) -> Result<Command<'a>, AllocError>
    ensures { IfOk result (λ command. app_of command ≡ command_line levels.entry) }
{
    named(alloc)
        .arg(file(alloc))?
        .arg(
            option(alloc, "require", ValueParser::Names(levels), "atomic")
                .value_name("LEVEL")
                .help(REQUIRE),
        )?
        .arg(option(alloc, "workers", up_to(MAX_WORKERS), "4").help(WORKERS))?
        .arg(flag(alloc, "stale").help(STALE))?
        .arg(flag(alloc, "orders").help(ORDERS))
}

/// Reads the words after the program's name: one file at most, `--require LEVEL`, where LEVEL is one of the
/// `levels`, `--workers N`, `--stale` and `--orders`. If they don't say, atomic is required, and there are 4
/// workers. The word `-` means standard input, as does giving no file.
///
/// # Errors
/// `Bad` if the words are others, or ask for help or the version; `Memory` if memory ran out.
pub fn read_words(alloc: Global, levels: &[&str], words: &[String]) -> Result<Words, WordsFault>
    requires { AreLevelWords levels }
    ensures file { IfOk result (λ read. option_map string_bytes read.file
        ≡ file_named (command_line levels.entry) (map string_bytes words.now)) }
    ensures required { IfOk result (λ read. Some (required_word read.settings.required)
        ≡ text_given (command_line levels.entry) (codes "require") (map string_bytes words.now)) }
    ensures workers { IfOk result (λ read. Some read.settings.workers
        ≡ number_named (command_line levels.entry) (codes "workers") (map string_bytes words.now)) }
    ensures stale { IfOk result (λ read. IsFlag (text_given (command_line levels.entry) (codes "stale")
        (map string_bytes words.now)) read.settings.asked.stale) }
    ensures orders { IfOk result (λ read. IsFlag (text_given (command_line levels.entry) (codes "orders")
        (map string_bytes words.now)) read.settings.asked.orders) }
    ensures limits { IfOk result (λ read. (1 ≤ read.settings.workers)
        × (read.settings.workers ≤ MAX_WORKERS)) }
    ensures faultless { IfOk result (λ _.
        IsFaultless (command_line levels.entry) (map string_bytes words.now)) }
    ensures taken { IfErr result (λ fault. IsTaken (command_line levels.entry) (map string_bytes words.now)
        → fault ≡ WordsFault.Memory) }
{
    let matches = read(alloc, command(alloc, levels)?, words)?;
    let required: Required = matches.get_one("require").unwrap();
    let workers = matches.get_one("workers").unwrap();
    let asked = Asked {
        stale: matches.get_flag("stale"),
        orders: matches.get_flag("orders"),
    };
    Ok(Words {
        file: file_in(alloc, &matches)?,
        settings: Settings::new(workers, required, asked).unwrap(),
    })
}
