//! From settings to the text of a history.
use crate::history::History;
use crate::kind::Kind;
use crate::memory::Memory;
use crate::opening::open;
use crate::rounds::{hot, zones};
use crate::settings::Settings;
use crate::simulation::Simulation;
use std::alloc::{AllocError, Global};

/// A history of clients that take turns, after the opening of its kind.
fn simulated(
    alloc: Global,
    settings: Settings,
    mut history: History,
) -> Result<History, AllocError> {
    let mut memory = Memory::new(alloc, settings.registers)?;
    open(settings.kind, &mut memory, &mut history)?;
    let mut simulation = Simulation::new(alloc, settings, memory, history)?;
    simulation.run()?;
    Ok(simulation.into_history())
}

/// The lines of a history with exactly the events wanted; one that is left over is a call that stays pending.
/// Of the kinds that aren't atomic, an inversion has its fault from 6 events on, and the others from 4 on.
pub fn generate(alloc: Global, settings: Settings) -> Result<String, AllocError> {
    let mut history = History::new(alloc, settings.events);
    match settings.kind {
        Kind::Hot | Kind::HotReverse => hot(settings, &mut history)?,
        Kind::Zones => zones(settings, &mut history)?,
        _ => history = simulated(alloc, settings, history)?,
    }
    Ok(history.into_text())
}
