//! What the lines of a report send to a serializer.
ghost use Rattle.std.specs.Prelude.{◌≡◌, ◌+◌, length, OnOk};
ghost use Rattle.serde_json.specs.Events.{SendsValue};
ghost use Rattle.report_text.specs.JsonFields.Fields.{always, fields_of, number_json, numbers_json};
ghost use Rattle.report_text.specs.JsonFields.Fields.{pair_json, shown};
ghost use Rattle.report_text.specs.JsonFields.Sends.{SendsFields, SendsParts};
ghost use Rattle.report_text.specs.Check.Text.{verdict_json, fault_json, register_json};
ghost use Rattle.report_text.specs.Check.Text.{register_parts, summary_json, summary_parts};

use crate::check::lists::Lines;
use crate::check::report::{FaultLines, RegReport, Report, Verdict};
use crate::json_fields::{one_if, send_numbers, send_pair, send_text, send_yes_or_no, show_number};
use serde::{Described, Serialize, Serializer};

fn send_number<S: Serializer>(out: &mut S, key: &str, n: u32) -> Result<(), S::Error>
    ensures { OnOk result
        (SendsFields (always key.now (number_json n)) (S.written out.old) (S.written out.new)) }
{
    crate::json_fields::send_number(out, key, u64::from(n))
}

fn send_verdict<S: Serializer>(out: &mut S, key: &str, verdict: Verdict) -> Result<(), S::Error>
    ensures { OnOk result
        (SendsFields (always key.now (verdict_json verdict)) (S.written out.old) (S.written out.new)) }
{
    match verdict {
        Verdict::Yes => send_text(out, key, "yes"),
        Verdict::No => send_text(out, key, "no"),
        Verdict::SeveralWriters => send_text(out, key, "several writers"),
    }
}

fn show_lines<S: Serializer>(out: &mut S, key: &str, lines: &Option<Lines>) -> Result<(), S::Error>
    ensures { OnOk result
        (SendsFields (shown key.now numbers_json lines.now) (S.written out.old) (S.written out.new)) }
{
    match lines {
        Some(lines) => send_numbers(out, key, lines.as_slice()),
        None => Ok(()),
    }
}

fn send_unwritten<S: Serializer>(out: &mut S, read: u32) -> Result<(), S::Error>
    ensures { OnOk result
        (SendsValue (fault_json (FaultLines.Unwritten read)) (S.written out.old) (S.written out.new)) }
{
    out.begin_map(Some(2))?;
    send_text(out, "kind", "unwritten")?;
    send_number(out, "read", read)?;
    out.end_map()
}

fn send_early<S: Serializer>(out: &mut S, read: u32, write: u32) -> Result<(), S::Error>
    ensures { OnOk result
        (SendsValue (fault_json (FaultLines.Early read write)) (S.written out.old) (S.written out.new)) }
{
    out.begin_map(Some(3))?;
    send_text(out, "kind", "early")?;
    send_number(out, "read", read)?;
    send_number(out, "write", write)?;
    out.end_map()
}

fn send_zones<S: Serializer>(
    out: &mut S,
    writes: (u32, u32),
    first: (u32, u32),
    second: (u32, u32),
) -> Result<(), S::Error>
    ensures { OnOk result (SendsValue (fault_json (FaultLines.Zones writes first second)) (S.written out.old)
        (S.written out.new)) }
{
    out.begin_map(Some(4))?;
    send_pair(out, "first", first)?;
    send_text(out, "kind", "zones")?;
    send_pair(out, "second", second)?;
    send_pair(out, "writes", writes)?;
    out.end_map()
}

fn send_fault<S: Serializer>(out: &mut S, fault: FaultLines) -> Result<(), S::Error>
    ensures { OnOk result (SendsValue (fault_json fault) (S.written out.old) (S.written out.new)) }
{
    match fault {
        FaultLines::Unwritten { read } => send_unwritten(out, read),
        FaultLines::Early { read, write } => send_early(out, read, write),
        FaultLines::Zones {
            writes,
            first,
            second,
        } => send_zones(out, writes, first, second),
    }
}

fn show_fault<S: Serializer>(
    out: &mut S,
    key: &str,
    fault: Option<FaultLines>,
) -> Result<(), S::Error>
    ensures { OnOk result
        (SendsFields (shown key.now fault_json fault) (S.written out.old) (S.written out.new)) }
{
    match fault {
        Some(fault) => {
            out.key(key)?;
            send_fault(out, fault)
        }
        None => Ok(()),
    }
}

fn show_pair<S: Serializer>(
    out: &mut S,
    key: &str,
    pair: Option<(u32, u32)>,
) -> Result<(), S::Error>
    ensures { OnOk result
        (SendsFields (shown key.now pair_json pair) (S.written out.old) (S.written out.new)) }
{
    match pair {
        Some(pair) => send_pair(out, key, pair),
        None => Ok(()),
    }
}

fn register_len(reg: &RegReport) -> usize
    ensures { result ≡ length (fields_of (register_parts reg.now)) }
{
    7 + one_if(reg.fault.is_some())
        + one_if(reg.inversion.is_some())
        + one_if(reg.order.is_some())
        + one_if(reg.points.is_some())
        + one_if(reg.regular_read.is_some())
        + one_if(reg.safe_read.is_some())
}

fn send_register_parts<S: Serializer>(out: &mut S, reg: &RegReport) -> Result<(), S::Error>
    ensures { OnOk result (SendsParts (register_parts reg.now) (S.written out.old) (S.written out.new)) }
{
    send_yes_or_no(out, "atomic", reg.atomic)?;
    show_fault(out, "fault", reg.fault)?;
    show_pair(out, "inversion", reg.inversion)?;
    show_lines(out, "order", &reg.order)?;
    send_number(out, "pending", reg.pending)?;
    show_lines(out, "points", &reg.points)?;
    send_number(out, "reads", reg.reads)?;
    send_text(out, "register", reg.register.as_str())?;
    send_verdict(out, "regular", reg.regular)?;
    show_number(out, "regular_read", reg.regular_read)?;
    send_verdict(out, "safe", reg.safe)?;
    show_number(out, "safe_read", reg.safe_read)?;
    send_number(out, "writes", reg.writes)
}

impl Described for RegReport {
    ghost writes = { λ reg. SendsValue (register_json reg) };
}

impl Serialize for RegReport {
    fn serialize<S: Serializer>(&self, out: &mut S) -> Result<(), S::Error> {
        out.begin_map(Some(register_len(self)))?;
        send_register_parts(out, self)?;
        out.end_map()
    }
}

/// The last line of a report.
#[derive(Clone, Copy)]
pub(crate) struct Summary<'a> {
    pub(crate) report: &'a Report,
}

fn summary_len(report: &Report) -> usize
    ensures { result ≡ length (fields_of (summary_parts report.now)) }
{
    3 + one_if(report.order.is_some())
}

fn send_summary_parts<S: Serializer>(out: &mut S, report: &Report) -> Result<(), S::Error>
    ensures { OnOk result (SendsParts (summary_parts report.now) (S.written out.old) (S.written out.new)) }
{
    send_yes_or_no(out, "atomic", report.atomic)?;
    send_number(out, "operations", report.operations)?;
    show_lines(out, "order", &report.order)?;
    send_number(out, "registers", report.registers)
}

impl Described for Summary<'_> {
    ghost writes = { λ summary. SendsValue (summary_json summary.report.now) };
}

impl Serialize for Summary<'_> {
    fn serialize<S: Serializer>(&self, out: &mut S) -> Result<(), S::Error> {
        let report = self.report;
        out.begin_map(Some(summary_len(report)))?;
        send_summary_parts(out, report)?;
        out.end_map()
    }
}
