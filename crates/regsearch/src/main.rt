//! Decides whether each register of a recorded history with compare-and-swap is atomic, as far as the bounds
//! allow, and writes its report to standard output.
#![tactic(auto)]

mod ending;
mod words;

ghost use Rattle.std.specs.Prelude.{◌-◌, ◌^◌, ◌<◌};

use command_words::{Ended, WordsFault, status, tell, tell_no_words, tell_unopened, words_given};
use ending::ending_of;
use search_report::{FromReader, FromWriter, Refusal, Settings, Source, run};
use std::io;
use std::process::ExitCode;
use std::random::RandomSource;
use std::rt::{Env, Files};
use std::thread::Threads;
use words::{Words, read_words};

/// Reports what the source has to standard output.
fn report<S: Source>(
    rt: &(impl Threads + RandomSource + Sync + Print + Eprint + AllocGlobal),
    source: &mut S,
    settings: Settings,
) -> Ended
    requires { S.failed source.old < 2 ^ 64 - 1 }
{
    let mut sink = FromWriter::new(io::writer(rt));
    match run(rt, rt.alloc(), source, &mut sink, settings) {
        Ok(outcome) => ending_of(outcome),
        Err(refusal) => tell(rt, &refusal, refusal.number()),
    }
}

/// Reports the history that the words name.
fn history(
    rt: &(impl Threads + RandomSource + Sync + Files + Input + Print + Eprint + AllocGlobal),
    words: &Words,
) -> Ended {
    let Some(path) = &words.file else {
        return report(rt, &mut FromReader::new(rt.reader()), words.settings);
    };
    match std::fs::open(rt, path.as_str()) {
        Ok(file) => report(rt, &mut FromReader::new(file), words.settings),
        Err(error) => {
            let refusal = Refusal::InputFailed;
            tell_unopened(rt, &refusal, refusal.number(), path.as_str(), &error)
        }
    }
}

/// The words after the program's name, read.
fn asked(rt: &(impl Env + AllocGlobal)) -> Result<Words, WordsFault> {
    let given = words_given(rt, "regsearch")?;
    read_words(rt.alloc(), given.as_slice())
}

fn main(rt: HostRuntime) -> ExitCode {
    let ended = match asked(&rt) {
        Ok(words) => history(&rt, &words),
        Err(fault) => tell_no_words(&rt, &fault),
    };
    ExitCode::from(status(ended))
}
