//! What is found of all registers, in two rounds. In the first, workers that share the registers search all
//! of them, or one thread does; in the second, those on which the search gave up are searched again, one
//! after another. So a history takes at most four times the steps of one register, and four workers hold
//! about as much memory as one.
ghost use Rattle.std.specs.Prelude.{◌≡◌, ◌≤◌, ◌*◌, min, IfOk};
ghost use Rattle.search_report.specs.Registers.{AreFindings, AreFindingsOf, IsFinding};

use crate::register::{Finding, finding_of, is_unknown};
use crate::settings::Settings;
use history_model::Operation;
use parallel::{map_each, share_of};
use reg_intake::cas_history::History;
use register_search::Bounds;
use std::alloc::{AllocError, Global};
use std::thread::Threads;

/// How many times the steps of one register a round may take in all.
const REGISTERS_IN_A_ROUND: u64 = 2;

/// In how many parts the bounds are cut for the first round, if there are as many registers: by
/// default at most that many are searched at once.
const MOST_PARTS: u64 = 4;

/// How far the search of each of this many registers goes if they are searched one after another.
fn in_turn(bounds: Bounds, registers: usize) -> Bounds
    ensures each { result.steps ≤ bounds.steps }
    ensures all { result.steps * registers ≤ 2 * bounds.steps }
    ensures configurations { result.configurations ≡ bounds.configurations }
{
    let steps = bounds.steps.saturating_mul(REGISTERS_IN_A_ROUND) / (registers as u64).max(1);
    Bounds {
        steps: bounds.steps.min(steps),
        ..bounds
    }
}

/// How far it goes if several of them are searched at once: those that are hold no more than one alone.
fn at_once(bounds: Bounds, registers: usize) -> Bounds
    ensures all { result.steps * registers ≤ 2 * bounds.steps }
    ensures steps { result.steps * min registers 4 ≤ bounds.steps }
    ensures configurations { result.configurations * min registers 4 ≤ bounds.configurations }
{
    let parts = (registers as u64).clamp(1, MOST_PARTS);
    Bounds {
        steps: in_turn(bounds, registers).steps.min(bounds.steps / parts),
        configurations: bounds.configurations / parts as usize,
    }
}

/// What is found of the register with these operations: what was found before, or what another search finds
/// if that gave up.
fn known_or_found(
    alloc: Global,
    lines: &[u32],
    ops: &[Operation],
    before: Finding,
    bounds: Bounds,
) -> Result<Finding, AllocError>
    requires { IsFinding lines.now ops.now before }
    ensures { IfOk result (IsFinding lines.now ops.now) }
{
    if is_unknown(&before.atomicity) {
        finding_of(alloc, lines, ops, bounds)
    } else {
        Ok(before)
    }
}

/// What is found of each register with these operations, in order: those that are unknown are searched again.
fn found_again(
    alloc: Global,
    lines: &[u32],
    registers: &[Vec<Operation>],
    before: Vec<Finding>,
    bounds: Bounds,
) -> Result<Vec<Finding>, AllocError>
    requires { AreFindingsOf lines.now registers.now before.items }
    ensures { IfOk result (λ findings. AreFindingsOf lines.now registers.now findings.items) }
{
    let mut findings = Vec::new(alloc);
    for finding in before {
        let ops = &registers[findings.len()];
        findings.push(known_or_found(alloc, lines, ops, finding, bounds)?)?;
    }
    Ok(findings)
}

/// The second round, within what it may take of these bounds.
fn second_round(
    alloc: Global,
    lines: &[u32],
    registers: &[Vec<Operation>],
    first: Vec<Finding>,
    bounds: Bounds,
) -> Result<Vec<Finding>, AllocError>
    requires { AreFindingsOf lines.now registers.now first.items }
    ensures { IfOk result (λ findings. AreFindingsOf lines.now registers.now findings.items) }
{
    let left = first
        .iter()
        .filter(|finding| is_unknown(&finding.atomicity))
        .count();
    let second = in_turn(bounds, left);
    if left == 0 || second == at_once(bounds, registers.len()) {
        return Ok(first);
    }
    found_again(alloc, lines, registers, first, second)
}

/// What is found of each register, in order, by at most this many workers, which share the registers.
fn found_by_workers(
    rt: &(impl Threads + Sync),
    alloc: Global,
    history: &History,
    workers: u32,
    bounds: Bounds,
) -> Result<Vec<Finding>, AllocError>
    ensures { IfOk result (λ found. AreFindings history.now found.items) }
{
    let lines = history.lines.as_slice();
    let registers = history.registers.as_slice();
    map_each(
        rt,
        alloc,
        registers,
        share_of(registers.len(), workers),
        |ops: &Vec<Operation>| -> Result<Finding, AllocError>
            ensures { IfOk result (IsFinding lines.entry.now ops.now.items) }
        { finding_of(alloc, lines, ops, bounds) },
    )
}

/// What is found of each register, in order, by workers that share the registers in the first round.
pub(crate) fn findings(
    rt: &(impl Threads + Sync),
    alloc: Global,
    history: &History,
    settings: Settings,
) -> Result<Vec<Finding>, AllocError>
    ensures { IfOk result (λ found. AreFindings history.now found.items) }
{
    let bounds = settings.bounds();
    let within = at_once(bounds, history.registers.len());
    let first = found_by_workers(rt, alloc, history, settings.workers(), within)?;
    second_round(alloc, &history.lines, &history.registers, first, bounds)
}

/// What is found of each register with these operations, in order, by this thread.
fn found_of_each(
    alloc: Global,
    lines: &[u32],
    registers: &[Vec<Operation>],
    bounds: Bounds,
) -> Result<Vec<Finding>, AllocError>
    ensures { IfOk result (λ found. AreFindingsOf lines.now registers.now found.items) }
{
    let mut findings = Vec::new(alloc);
    for ops in registers {
        findings.push(finding_of(alloc, lines, ops, bounds)?)?;
    }
    Ok(findings)
}

/// What is found of each register, in order, by this thread.
pub(crate) fn findings_alone(
    alloc: Global,
    history: &History,
    bounds: Bounds,
) -> Result<Vec<Finding>, AllocError>
    ensures { IfOk result (λ found. AreFindings history.now found.items) }
{
    let within = at_once(bounds, history.registers.len());
    let first = found_of_each(alloc, &history.lines, &history.registers, within)?;
    second_round(alloc, &history.lines, &history.registers, first, bounds)
}
