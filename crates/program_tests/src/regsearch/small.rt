//! All registers of three operations with a few acts and times: the
//! search, and zones, against each order of them.
use crate::regsearch::distinct;
use crate::regsearch::registers::{AFTER_ALL, ONE, TWO, operation, verdict};
use history_model::{Act, Operation};
use history_text::Val;
use register_search::{Bounds, Verdict, check_order};
use std::alloc::{AllocError, Global};
use std::test::Fail;

/// A call and a reply.
type Times = (u32, Option<u32>);

const ACTS: u32 = 8;

fn act(number: u32) -> Act {
    match number % ACTS {
        0 => Act::Write(ONE),
        1 => Act::Write(TWO),
        2 => Act::Read(Some(ONE)),
        3 => Act::Read(Some(Val::Null)),
        4 => Act::Cas { from: ONE, to: TWO },
        5 => Act::CasUnless {
            unless: Val::Null,
            to: TWO,
        },
        6 => Act::Write(Val::Null),
        _ => Act::Miss { from: ONE },
    }
}

/// Whether some order of some of three operations is legal. A digit of a code is a place, or 3 for none.
fn has_order(alloc: Global, ops: &[Operation]) -> Result<bool, AllocError> {
    for code in 0u32..64 {
        let mut order = Vec::new(alloc);
        for digit in [code % 4, code / 4 % 4, code / 16] {
            if digit < 3 {
                order.push(digit)?;
            }
        }
        if check_order(alloc, ops, &order)?.is_some() {
            return Ok(true);
        }
    }
    Ok(false)
}

/// The operations that were called up to a time, without later replies.
fn known(alloc: Global, ops: &[Operation], time: u32) -> Result<Vec<Operation>, AllocError> {
    let mut known = Vec::new(alloc);
    for op in ops {
        if op.call <= time {
            let reply = op.reply_time().filter(|reply| *reply <= time);
            known.push(Operation {
                reply: reply.unwrap_or(AFTER_ALL),
                completed: reply.is_some(),
                ..*op
            })?;
        }
    }
    Ok(known)
}

/// Whether a verdict says what the orders say: yes if one is legal; else no at a
/// reply at which none is, with one before it.
fn agrees(alloc: Global, ops: &[Operation], verdict: Verdict) -> Result<bool, AllocError> {
    match verdict {
        Verdict::Yes { .. } => has_order(alloc, ops),
        Verdict::No { reply, before } => {
            let Some(time) = ops.get(reply as usize).and_then(|op| op.reply_time()) else {
                return Ok(false);
            };
            let at_reply = known(alloc, ops, time)?;
            Ok(before.is_some() && !has_order(alloc, &at_reply)? && !has_order(alloc, ops)?)
        }
        Verdict::Unknown(_) => Ok(false),
    }
}

/// Whether a bound may keep the operations from being decided: there is a cas, or a value is written twice,
/// or null is.
fn may_give_up(ops: &[Operation]) -> bool {
    for (place, op) in ops.iter().enumerate() {
        if is_cas(op.act) || is_written_again(&ops[..place], op.act) {
            return true;
        }
    }
    false
}

/// Whether an act is a cas, be it that it missed.
fn is_cas(act: Act) -> bool {
    match act {
        Act::Read(_) | Act::Write(_) => false,
        Act::Cas { .. } | Act::CasUnless { .. } | Act::Miss { .. } => true,
    }
}

/// Whether an act is a write of what was there before.
fn is_written_again(before: &[Operation], act: Act) -> bool {
    match act {
        Act::Write(Val::Null) => true,
        Act::Write(_) => before.iter().any(|op| op.act == act),
        _ => false,
    }
}

/// Whether zones say what the orders say, with bounds that let the search say nothing.
fn agrees_by_zones(alloc: Global, ops: &[Operation]) -> Result<bool, AllocError> {
    match distinct::verdict(alloc, ops)? {
        Verdict::Unknown(_) => Ok(may_give_up(ops)),
        verdict => agrees(alloc, ops, verdict),
    }
}

#[test]
fn three_operations(rt: HostRuntime) -> Result<(), Fail> {
    let rows: [(&str, [Times; 3]); 5] = [
        ("all overlap", [(2, Some(5)), (3, Some(6)), (4, Some(7))]),
        (
            "each before the next",
            [(2, Some(3)), (4, Some(5)), (6, Some(7))],
        ),
        (
            "two overlap, then one",
            [(2, Some(5)), (3, Some(4)), (6, Some(7))],
        ),
        (
            "the first before the last",
            [(2, Some(4)), (3, Some(7)), (5, Some(6))],
        ),
        (
            "the first is pending",
            [(2, None), (3, Some(4)), (5, Some(6))],
        ),
    ];
    for (name, times) in rows {
        let [first, second, third] = times;
        for code in 0..ACTS * ACTS * ACTS {
            let ops = [
                operation(first.0, first.1, act(code)),
                operation(second.0, second.1, act(code / ACTS)),
                operation(third.0, third.1, act(code / ACTS / ACTS)),
            ];
            let searched = verdict(rt.alloc(), &ops, Bounds::DEFAULT)?;
            assert!(rt; agrees(rt.alloc(), &ops, searched)?, "{name}: {ops:?}");
            assert!(rt;
                agrees_by_zones(rt.alloc(), &ops)?,
                "{name}, by zones: {ops:?}"
            );
        }
    }
    Ok(())
}
