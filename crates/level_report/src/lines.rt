//! Operations by the lines of their calls.
ghost use Rattle.std.specs.Prelude.{◌≡◌, map, option_map, IfOk};
ghost use Rattle.level_report.specs.Lines as shown;

use history_model::Operation;
use reg_levels::counts::OldRead;
use reg_levels::gap::Gap;
use report_text::level::{GapLines, MissedWrite, WentBack};
use std::alloc::{AllocError, Global};

/// The line of the operation at a place; the initial write has line 0.
pub(crate) fn line_of(ops: &[Operation], place: u32) -> u32
    ensures { result ≡ shown.line_of ops.now place }
{
    match ops.get(place as usize) {
        Some(op) => op.line,
        None => 0,
    }
}

fn pair_of(ops: &[Operation], places: (u32, u32)) -> (u32, u32)
    ensures { result ≡ shown.pair_of ops.now places }
{
    (line_of(ops, places.0), line_of(ops, places.1))
}

/// The line of a write, if there is one.
pub(crate) fn line_if(ops: &[Operation], place: Option<u32>) -> Option<u32>
    ensures { result ≡ option_map (shown.line_of ops.now) place }
{
    match place {
        Some(place) => Some(line_of(ops, place)),
        None => None,
    }
}

/// An old read that missed a write, if there is one.
pub(crate) fn missed_if(ops: &[Operation], read: Option<OldRead>) -> Option<MissedWrite>
    ensures { result ≡ option_map (shown.missed_of ops.now) read }
{
    match read {
        Some(x) => Some(MissedWrite {
            newer: line_of(ops, x.newer),
            read: line_of(ops, x.read),
            seen: line_of(ops, x.seen),
        }),
        None => None,
    }
}

/// An old read that came after a newer one, if there is one.
pub(crate) fn went_back_if(ops: &[Operation], read: Option<OldRead>) -> Option<WentBack>
    ensures { result ≡ option_map (shown.went_back_of ops.now) read }
{
    match read {
        Some(x) => Some(WentBack {
            earlier: line_of(ops, x.earlier),
            newer: line_of(ops, x.newer),
            read: line_of(ops, x.read),
            seen: line_of(ops, x.seen),
        }),
        None => None,
    }
}

/// The gap, if there is one.
pub(crate) fn gap_if(ops: &[Operation], gap: Option<Gap>) -> Option<GapLines>
    ensures { result ≡ option_map (shown.gap_of_lines ops.now) gap }
{
    match gap {
        Some(gap) => Some(GapLines {
            events: gap.events,
            first: pair_of(ops, gap.first),
            second: pair_of(ops, gap.second),
            writes: pair_of(ops, gap.writes),
        }),
        None => None,
    }
}

/// Old reads, each with the write that it missed.
pub(crate) fn stale_pairs(
    alloc: Global,
    ops: &[Operation],
    reads: &[OldRead],
) -> Result<Vec<(u32, u32)>, AllocError>
    ensures { IfOk result (λ pairs. pairs.items ≡ map (shown.stale_pair ops.now) reads.now) }
{
    reads
        .iter()
        .map(|x| (line_of(ops, x.read), line_of(ops, x.newer)))
        .collect(alloc)
}
