//! The stages of a search. No contract depends on this table: a no counts only if
//! nothing was let go, and a yes is checked.
ghost use Rattle.std.specs.Prelude.{◌<◌, ◌*◌, ◌^◌, [], IfOk};
ghost use Rattle.configurations.specs.Reached.{IsReached};
ghost use Rattle.configurations.specs.Runs.{AreInOrder};

use crate::bounds::Bound;
use crate::depth_first::depth_first;
use crate::eased::eased_run;
use crate::moment::Moment;
use crate::op::{NEVER, Op, looks, writes};
use crate::reached::Reached;
use crate::relay::relay;
use crate::run::run;
use crate::work::{Limits, Thrift};
use std::alloc::{AllocError, Global};

/// How a stage goes, and what its answer may be used for.
#[derive(Clone, Copy, PartialEq, Eq)]
enum Form {
    /// Over the operations of the register. A yes counts; a no does if no configuration was let go.
    Exact,
    /// The same, but that configurations are let go that are unlikely to explain what comes: only a yes
    /// counts.
    Guided,
    /// The same, and no call that never replies takes effect where something else explains a reply.
    Thrifty,
    /// The same as exact, but that a cas without a reply may take effect at any value: only a no counts.
    Eased,
    /// As guided, in short legs, which go back if no configuration is left: only a yes counts.
    Relay,
    /// One order at a time: only a yes counts.
    DepthFirst,
}

/// A stage: its form, how many configurations go on from one reply to the next, how many a list may hold,
/// and how many 64th parts of the steps that are left it may spend.
#[derive(Clone, Copy)]
struct Stage {
    form: Form,
    beam: usize,
    configurations: usize,
    parts: u64,
}

/// A stage as one line: its form, its beam, its configurations and its parts of the steps.
macro_rules! stage {
    ($form:ident, $beam:expr, $configurations:expr, $parts:expr) => {
        Stage {
            form: Form::$form,
            beam: $beam,
            configurations: $configurations,
            parts: $parts,
        }
    };
}

/// As many as the bounds allow.
const MOST: usize = usize::MAX;

/// All that is left.
const ALL: u64 = 64;

/// The stages if some changes have no reply: first those that are quick where they suffice, with few steps.
/// An exact one comes before an eased one, since the reply that the latter names need not be the first
/// hopeless one. The last is as wide as the bounds allow.
const STAGES: [Stage; 11] = [
    stage!(DepthFirst, 1, 1, 32),
    stage!(Thrifty, 8, MOST, 2),
    stage!(Relay, 1, MOST, 8),
    stage!(Thrifty, 32, MOST, 2),
    stage!(Exact, MOST, 256, 2),
    stage!(Eased, MOST, 4_096, 2),
    stage!(Relay, 5, MOST, 58),
    stage!(Guided, 64, MOST, 40),
    stage!(Exact, MOST, 2_048, 24),
    stage!(Eased, MOST, 8_192, 60),
    stage!(Exact, MOST, MOST, ALL),
];

/// The stages if each change has a reply.
const ANSWERED: [Stage; 3] = [
    stage!(Exact, MOST, 256, 48),
    stage!(Relay, 5, MOST, 48),
    stage!(Exact, MOST, MOST, ALL),
];

/// The stages that look for a reply that is hopeless before the one that eased operations show.
const EARLIER: [Stage; 2] = [
    stage!(Exact, MOST, 1_024, 48),
    stage!(Exact, MOST, MOST, ALL),
];

/// How many steps they may take beside a quarter of those that were taken before.
const STEPS_OF_EARLIER: u64 = 1 << 24;

/// Goes through the stages until one answers.
pub(crate) fn in_stages<const W: usize>(
    alloc: Global,
    ops: &[Op],
    events: &[Moment],
    limits: Limits,
) -> Result<Reached, AllocError>
    requires room { 64 * W < 2 ^ 32 }
    ensures { IfOk result (λ found. AreInOrder ops.now [] events.now → IsReached ops.now events.now found) }
{
    let mut limits = limits;
    let mut bound = Bound::Steps;
    let stages: &[Stage] = if has_unanswered_changes(ops) {
        &STAGES
    } else {
        &ANSWERED
    };
    let given = limits.steps;
    for stage in stages {
        match run_stage::<W>(alloc, ops, events, *stage, &mut limits)? {
            Reached::Stopped(met) => bound = met,
            found => {
                if stage.form != Form::Eased || !are_some_eased(ops) {
                    return Ok(found);
                }
                let again = given.saturating_sub(limits.steps) / 4;
                limits.steps = limits.steps.min(again.saturating_add(STEPS_OF_EARLIER));
                return earlier::<W>(alloc, ops, events, found, limits);
            }
        }
    }
    Ok(Reached::Stopped(bound))
}

/// The first hopeless reply, if exact stages find it among the events up to the one that was found over
/// eased operations; or else that one.
fn earlier<const W: usize>(
    alloc: Global,
    ops: &[Op],
    events: &[Moment],
    found: Reached,
    limits: Limits,
) -> Result<Reached, AllocError>
    requires room { 64 * W < 2 ^ 32 }
    requires found { AreInOrder ops.now [] events.now → IsReached ops.now events.now found }
    ensures { IfOk result (λ found. AreInOrder ops.now [] events.now → IsReached ops.now events.now found) }
{
    let place = place_of(&found);
    if place >= events.len() {
        return Ok(found);
    }
    let mut limits = limits;
    for stage in EARLIER {
        if let Reached::Hopeless {
            place: first,
            before,
        } = run_stage::<W>(alloc, ops, &events[..place + 1], stage, &mut limits)?
        {
            if first <= place {
                return Ok(Reached::Hopeless {
                    place: first,
                    before,
                });
            }
        }
    }
    Ok(found)
}

/// The place of a hopeless reply; none is so far if there is none.
fn place_of(found: &Reached) -> usize {
    match found {
        Reached::Hopeless { place, .. } => *place,
        _ => usize::MAX,
    }
}

/// Whether some changes have no reply.
fn has_unanswered_changes(ops: &[Op]) -> bool {
    ops.iter().any(|op| op.rank >= NEVER && !looks(op))
}

/// Whether a cas without a reply is among them, so that an eased stage goes over others.
fn are_some_eased(ops: &[Op]) -> bool {
    ops.iter()
        .any(|op| op.rank >= NEVER && !looks(op) && !writes(op))
}

/// One stage, within its share of the limits. The steps that are left remain.
fn run_stage<const W: usize>(
    alloc: Global,
    ops: &[Op],
    events: &[Moment],
    stage: Stage,
    limits: &mut Limits,
) -> Result<Reached, AllocError>
    requires room { 64 * W < 2 ^ 32 }
    ensures { IfOk result (λ found. AreInOrder ops.now [] events.now → IsReached ops.now events.now found) }
{
    let share = share_of(stage, limits.steps);
    let mut own = Limits {
        steps: share,
        configurations: limits.configurations.min(stage.configurations),
        beam: stage.beam,
        is_guided: is_guided(stage.form),
        thrift: thrift_of(stage.form),
        ..*limits
    };
    let found = match stage.form {
        Form::Exact => run::<W>(alloc, ops, events, &mut own)?,
        Form::Guided => run::<W>(alloc, ops, events, &mut own)?,
        Form::Thrifty => run::<W>(alloc, ops, events, &mut own)?,
        Form::Eased => eased_run::<W>(alloc, ops, events, &mut own)?,
        Form::Relay => relay(alloc, ops, events, &mut own)?,
        Form::DepthFirst => depth_first(alloc, ops, events, &mut own)?,
    };
    limits.steps = limits.steps.saturating_sub(share.saturating_sub(own.steps));
    Ok(found)
}

/// Whether configurations are let go that are unlikely to explain what comes.
fn is_guided(form: Form) -> bool {
    matches!(form, Form::Guided | Form::Thrifty | Form::Relay)
}

/// How a stage of this form spares calls that never reply.
fn thrift_of(form: Form) -> Thrift {
    match form {
        Form::Thrifty => Thrift::Most,
        Form::Relay => Thrift::Much,
        Form::Guided | Form::Exact | Form::Eased | Form::DepthFirst => Thrift::Little,
    }
}

/// How many of the steps that are left a stage may spend, so that some are left for the others: whole
/// eighths, and then the rest of its parts.
fn share_of(stage: Stage, steps: u64) -> u64 {
    if stage.parts == ALL {
        return steps;
    }
    let eighths = (steps / 8).saturating_mul(stage.parts / 8);
    eighths.saturating_add((steps / ALL).saturating_mul(stage.parts % 8))
}
