//! The values of a report that are objects or lists, and what is sent to a serializer for each.
ghost use Rattle.std.specs.Prelude.{codes, OnOk};
ghost use Rattle.serde_json.specs.Events.{SendsValue};
ghost use Rattle.report_text.specs.JsonFields.Fields.{always, number_json, pair_json, shown, yes_or_no};
ghost use Rattle.report_text.specs.JsonFields.Sends.{SendsFields};
ghost use Rattle.report_text.specs.Level.Text.{early_json, fault_json, gap_json, missed_json, pairs_json};
ghost use Rattle.report_text.specs.Level.Text.{went_back_json};

use crate::json_fields::{send_numbers, send_pair, send_text, send_yes_or_no};
use crate::level::report::{EarlyRead, FaultLines, GapLines, MissedWrite, WentBack};
use serde::Serializer;

pub(crate) fn send_number<S: Serializer>(out: &mut S, key: &str, n: u32) -> Result<(), S::Error>
    ensures { OnOk result
        (SendsFields (always key.now (number_json n)) (S.written out.old) (S.written out.new)) }
{
    crate::json_fields::send_number(out, key, u64::from(n))
}

pub(crate) fn show_yes_or_no<S: Serializer>(
    out: &mut S,
    key: &str,
    answer: Option<bool>,
) -> Result<(), S::Error>
    ensures { OnOk result
        (SendsFields (shown key.now yes_or_no answer) (S.written out.old) (S.written out.new)) }
{
    match answer {
        Some(yes) => send_yes_or_no(out, key, yes),
        None => Ok(()),
    }
}

fn send_pair_items<S: Serializer>(out: &mut S, pairs: &[(u32, u32)]) -> Result<(), S::Error>
    ensures { OnOk result (SendsValue (pairs_json pairs.now) (S.written out.old) (S.written out.new)) }
{
    out.begin_seq(Some(pairs.len()))?;
    for pair in pairs {
        send_two(out, *pair)?;
    }
    out.end_seq()
}

fn send_two<S: Serializer>(out: &mut S, pair: (u32, u32)) -> Result<(), S::Error>
    ensures { OnOk result (SendsValue (pair_json pair) (S.written out.old) (S.written out.new)) }
{
    out.begin_seq(Some(2))?;
    out.u64(u64::from(pair.0))?;
    out.u64(u64::from(pair.1))?;
    out.end_seq()
}

pub(crate) fn show_pairs<S: Serializer>(
    out: &mut S,
    key: &str,
    pairs: &Option<Vec<(u32, u32)>>,
) -> Result<(), S::Error>
    ensures { OnOk result
        (SendsFields (shown key.now (λ pairs. pairs_json pairs.items) pairs.now) (S.written out.old)
        (S.written out.new)) }
{
    match pairs {
        Some(pairs) => {
            out.key(key)?;
            send_pair_items(out, pairs.as_slice())
        }
        None => Ok(()),
    }
}

fn send_missed<S: Serializer>(out: &mut S, missed: MissedWrite) -> Result<(), S::Error>
    ensures { OnOk result (SendsValue (missed_json missed) (S.written out.old) (S.written out.new)) }
{
    out.begin_map(Some(3))?;
    send_number(out, "newer", missed.newer)?;
    send_number(out, "read", missed.read)?;
    send_number(out, "seen", missed.seen)?;
    out.end_map()
}

pub(crate) fn show_missed<S: Serializer>(
    out: &mut S,
    key: &str,
    missed: Option<MissedWrite>,
) -> Result<(), S::Error>
    ensures { OnOk result
        (SendsFields (shown key.now missed_json missed) (S.written out.old) (S.written out.new)) }
{
    match missed {
        Some(missed) => {
            out.key(key)?;
            send_missed(out, missed)
        }
        None => Ok(()),
    }
}

fn send_went_back<S: Serializer>(out: &mut S, back: WentBack) -> Result<(), S::Error>
    ensures { OnOk result (SendsValue (went_back_json back) (S.written out.old) (S.written out.new)) }
{
    out.begin_map(Some(4))?;
    send_number(out, "earlier", back.earlier)?;
    send_number(out, "newer", back.newer)?;
    send_number(out, "read", back.read)?;
    send_number(out, "seen", back.seen)?;
    out.end_map()
}

pub(crate) fn show_went_back<S: Serializer>(
    out: &mut S,
    key: &str,
    back: Option<WentBack>,
) -> Result<(), S::Error>
    ensures { OnOk result
        (SendsFields (shown key.now went_back_json back) (S.written out.old) (S.written out.new)) }
{
    match back {
        Some(back) => {
            out.key(key)?;
            send_went_back(out, back)
        }
        None => Ok(()),
    }
}

fn send_early<S: Serializer>(out: &mut S, early: EarlyRead) -> Result<(), S::Error>
    ensures { OnOk result (SendsValue (early_json early) (S.written out.old) (S.written out.new)) }
{
    out.begin_map(Some(2))?;
    send_number(out, "read", early.read)?;
    send_number(out, "write", early.write)?;
    out.end_map()
}

pub(crate) fn show_early<S: Serializer>(
    out: &mut S,
    key: &str,
    early: Option<EarlyRead>,
) -> Result<(), S::Error>
    ensures { OnOk result
        (SendsFields (shown key.now early_json early) (S.written out.old) (S.written out.new)) }
{
    match early {
        Some(early) => {
            out.key(key)?;
            send_early(out, early)
        }
        None => Ok(()),
    }
}

fn send_gap<S: Serializer>(out: &mut S, gap: GapLines) -> Result<(), S::Error>
    ensures { OnOk result (SendsValue (gap_json gap) (S.written out.old) (S.written out.new)) }
{
    out.begin_map(Some(4))?;
    send_number(out, "events", gap.events)?;
    send_pair(out, "first", gap.first)?;
    send_pair(out, "second", gap.second)?;
    send_pair(out, "writes", gap.writes)?;
    out.end_map()
}

pub(crate) fn show_gap<S: Serializer>(
    out: &mut S,
    key: &str,
    gap: Option<GapLines>,
) -> Result<(), S::Error>
    ensures { OnOk result
        (SendsFields (shown key.now gap_json gap) (S.written out.old) (S.written out.new)) }
{
    match gap {
        Some(gap) => {
            out.key(key)?;
            send_gap(out, gap)
        }
        None => Ok(()),
    }
}

fn send_unwritten<S: Serializer>(out: &mut S, read: u32) -> Result<(), S::Error>
    ensures { OnOk result
        (SendsValue (fault_json (FaultLines.Unwritten read)) (S.written out.old) (S.written out.new)) }
{
    out.begin_map(Some(2))?;
    send_text(out, "kind", "unwritten")?;
    send_number(out, "read", read)?;
    out.end_map()
}

fn send_early_fault<S: Serializer>(out: &mut S, read: u32, write: u32) -> Result<(), S::Error>
    ensures { OnOk result
        (SendsValue (fault_json (FaultLines.Early read write)) (S.written out.old) (S.written out.new)) }
{
    out.begin_map(Some(3))?;
    send_text(out, "kind", "early")?;
    send_number(out, "read", read)?;
    send_number(out, "write", write)?;
    out.end_map()
}

fn send_steps<S: Serializer>(out: &mut S, steps: &[(u32, u32)]) -> Result<(), S::Error>
    ensures { OnOk result
        (SendsFields (always (codes "steps") (pairs_json steps.now)) (S.written out.old)
        (S.written out.new)) }
{
    out.key("steps")?;
    send_pair_items(out, steps)
}

fn send_cycle<S: Serializer>(
    out: &mut S,
    steps: &Vec<(u32, u32)>,
    writes: &Vec<u32>,
) -> Result<(), S::Error>
    ensures { OnOk result
        (SendsValue (fault_json (FaultLines.Cycle steps.now writes.now)) (S.written out.old)
        (S.written out.new)) }
{
    out.begin_map(Some(3))?;
    send_text(out, "kind", "cycle")?;
    send_steps(out, steps.as_slice())?;
    send_numbers(out, "writes", writes.as_slice())?;
    out.end_map()
}

fn send_fault<S: Serializer>(out: &mut S, fault: &FaultLines) -> Result<(), S::Error>
    ensures { OnOk result (SendsValue (fault_json fault.now) (S.written out.old) (S.written out.new)) }
{
    match fault {
        FaultLines::Unwritten { read } => send_unwritten(out, *read),
        FaultLines::Early { read, write } => send_early_fault(out, *read, *write),
        FaultLines::Cycle { steps, writes } => send_cycle(out, steps, writes),
    }
}

pub(crate) fn show_fault<S: Serializer>(
    out: &mut S,
    key: &str,
    fault: &Option<FaultLines>,
) -> Result<(), S::Error>
    ensures { OnOk result
        (SendsFields (shown key.now fault_json fault.now) (S.written out.old) (S.written out.new)) }
{
    match fault {
        Some(fault) => {
            out.key(key)?;
            send_fault(out, fault)
        }
        None => Ok(()),
    }
}
