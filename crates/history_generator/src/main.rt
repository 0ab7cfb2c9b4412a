//! Writes a generated history of read/write registers to standard output: the same words, the same bytes.
//!
//! Read it in this order: `kind` and `settings`, what is asked for; `event` and `history`,
//! what comes out; `memory` and `client`, who is simulated; `simulation`, which lets clients
//! take turns; `opening` and `rounds`, the shapes that are laid out by hand; `generate`, which
//! picks among them; `words`, the command line.
#![tactic(auto)]

mod client;
mod event;
mod generate;
mod history;
mod kind;
mod memory;
mod opening;
mod rounds;
mod settings;
mod simulation;
mod words;

use generate::generate;
use std::io::{self, Write};
use std::process::ExitCode;
use words::read_words;

fn main(rt: HostRuntime) -> anyhow::Result<ExitCode> {
    let alloc = rt.alloc();
    let words: Vec<String> = std::env::args(&rt)?.collect(alloc)?;
    let settings = match read_words(alloc, words.as_slice()) {
        Ok(settings) => settings,
        Err(error) => {
            error.print(&rt)?;
            return Ok(ExitCode::from(error.exit_code() as u8));
        }
    };
    let text = generate(alloc, settings)?;
    let mut writer = io::writer(&rt);
    writer.write_all(text.as_bytes())?;
    writer.flush()?;
    Ok(ExitCode::SUCCESS)
}
