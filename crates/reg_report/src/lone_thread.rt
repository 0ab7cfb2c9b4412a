//! What is found of all registers by one thread, which takes one register after another.
ghost use Rattle.std.specs.Prelude.{◌≡◌, ◌<◌, length, IfOk};
ghost use Rattle.history_model.specs.Operations.{calls, register_of};
ghost use Rattle.reg_report.specs.Levels.{AreLevels};
ghost use Rattle.reg_report.specs.Registers.{AreFindings, IsFinding};
ghost use Rattle.reg_report.specs.Tally.{AreTallies};

use crate::findings::Finding;
use crate::levels::{Levels, levels_by, several_writers};
use crate::pieces::{BadReads, judge};
use crate::tally::{CallCounts, Tally, count_calls};
use history_model::RegId;
use reg_arena::Arena;
use reg_lamport::{reads, single_writer};
use std::alloc::{AllocError, Global};

/// Both levels of a register, from all its reads.
fn whole_levels(alloc: Global, arena: &Arena, register: RegId) -> Result<Levels, AllocError>
    ensures { IfOk result (AreLevels (register_of arena.now register.0)) }
{
    if single_writer(arena, register) {
        let list = reads(alloc, arena, register)?;
        let first = BadReads::among(arena, &list, 0, list.len());
        Ok(levels_by(arena, register, first))
    } else {
        Ok(several_writers())
    }
}

/// What is found of one register, from the counts of all registers' calls.
pub(crate) fn finding_of(
    alloc: Global,
    arena: &Arena,
    register: RegId,
    tallies: &[Tally],
) -> Result<Finding, AllocError>
    requires register { register.0 < length arena.now.names }
    requires tallies { AreTallies arena.now tallies.now }
    ensures register { IfOk result (λ finding. finding.register ≡ register) }
    ensures finding { IfOk result (IsFinding arena.now) }
{
    let judged = judge(alloc, arena, register)?;
    let levels = whole_levels(alloc, arena, register)?;
    let tally = tallies[register.0 as usize];
    Ok(Finding {
        register,
        judged,
        levels,
        tally,
    })
}

/// What is found of all registers, in the order of their first calls, from the counts of their calls.
fn findings_of(alloc: Global, arena: &Arena, tallies: &[Tally]) -> Result<Vec<Finding>, AllocError>
    requires { AreTallies arena.now tallies.now }
    ensures { IfOk result (λ findings. AreFindings arena.now findings.items) }
{
    let count = arena.register_count();
    let mut findings = Vec::with_capacity(alloc, count as usize)?;
    for number in 0..count {
        findings.push(finding_of(alloc, arena, RegId(number), tallies)?)?;
    }
    Ok(findings)
}

/// What is found of all registers, and how many operations there are.
///
/// The thread judges a register and finds its levels before it goes on to the next one. So its events are
/// likely still at hand, and nothing is kept of it but what was found.
pub(crate) fn find_one_by_one(
    alloc: Global,
    arena: &Arena,
) -> Result<(Vec<Finding>, u32), AllocError>
    ensures { IfOk result (λ found. AreFindings arena.now found.0.items
        × (found.1 ≡ length (calls arena.now.events))) }
{
    let CallCounts {
        operations,
        tallies,
    } = count_calls(alloc, arena)?;
    let findings = findings_of(alloc, arena, &tallies)?;
    Ok((findings, operations))
}
