//! The words of the command line.
ghost use Rattle.std.specs.Prelude.{◌≡◌, ◌≤◌, codes, map, option_map, string_bytes, IfOk, IfErr, Some};
ghost use Rattle.clap.specs.Words.{app_of};
ghost use Rattle.command_words.specs.Words.{file_named, number_named, text_given};
ghost use Rattle.command_words.specs.Words.{IsFaultless, IsFlag, IsTaken};
ghost use Rattle.reg_report.specs.declared.pieces.settings.TheConstants.{MAX_CUT, MAX_WORKERS};
ghost use Rattle.regcheck.specs.Words.{command_line};

use clap::Command;
use command_words::{WordsFault, file, file_in, flag, option, read, up_to};
use reg_report::{MAX_CUT, MAX_WORKERS, Settings};
use std::alloc::{AllocError, Global};

const ABOUT: &str =
    "Checks a recorded history of reads and writes of registers: whether each is safe, regular and atomic.";

const VERSION: &str = "1.2.0 (rattle logic dac8208d650f15bf)";

const WORKERS: &str = "Workers, 1 to 16; the report is the same with any number";

const CUT: &str =
    "How many reads of a register a worker takes at once, 1 to 1048576; the report is the same with any number";

const FIRST: &str =
    "Reports only the first register that isn't atomic, if there is one, and no order";

const STATUSES: &str = "The report goes to standard output. Exit status:
  0  the history is atomic
  1  it isn't
  2  the history is refused: it isn't well formed, or too long
  3  the command line is refused, or it asked for this help or the version
  4  the history couldn't be read, the report couldn't be written, or there was no memory or no thread";

/// What the words ask for.
#[derive(Drop)]
pub struct Words {
    /// The name of the file with the history; standard input if there is none.
    pub file: Option<String>,
    pub settings: Settings,
}

fn command<'a>(alloc: Global) -> Result<Command<'a>, AllocError>
    ensures { IfOk result (λ command. app_of command ≡ command_line) }
{
    Command::new(alloc, "regcheck")
        .no_binary_name(true)
        .version(VERSION)
        .about(ABOUT)
        .after_help(STATUSES)
        .arg(file(alloc))?
        .arg(option(alloc, "workers", up_to(MAX_WORKERS), "4").help(WORKERS))?
        .arg(option(alloc, "cut", up_to(MAX_CUT), "4096").help(CUT))?
        .arg(flag(alloc, "first").help(FIRST))
}

/// Reads the words after the program's name: one file at most, `--workers N`, `--cut N` and `--first`. If
/// they don't say, there are 4 workers, and the cut is 4096. The word `-` means standard
/// input, as does giving no file.
///
/// # Errors
/// `Bad` if the words are others, or ask for help or the version; `Memory` if memory ran out.
pub fn read_words(alloc: Global, words: &[String]) -> Result<Words, WordsFault>
    ensures file { IfOk result (λ read.
        option_map string_bytes read.file ≡ file_named command_line (map string_bytes words.now)) }
    ensures workers { IfOk result (λ read.
        Some read.settings.workers ≡ number_named command_line (codes "workers")
        (map string_bytes words.now)) }
    ensures cut { IfOk result (λ read.
        Some read.settings.cut ≡ number_named command_line (codes "cut") (map string_bytes words.now)) }
    ensures first { IfOk result (λ read.
        IsFlag (text_given command_line (codes "first")
        (map string_bytes words.now)) read.settings.first) }
    ensures limits { IfOk result (λ read. (1 ≤ read.settings.workers) × (read.settings.workers ≤ MAX_WORKERS)
        × (1 ≤ read.settings.cut) × (read.settings.cut ≤ MAX_CUT)) }
    ensures faultless { IfOk result (λ _. IsFaultless command_line (map string_bytes words.now)) }
    ensures taken { IfErr result (λ fault. IsTaken command_line (map string_bytes words.now)
        → fault ≡ WordsFault.Memory) }
{
    let matches = read(alloc, command(alloc)?, words)?;
    let workers = matches.get_one("workers").unwrap();
    let cut = matches.get_one("cut").unwrap();
    Ok(Words {
        file: file_in(alloc, &matches)?,
        settings: Settings::new(workers, cut, matches.get_flag("first")).unwrap(),
    })
}
