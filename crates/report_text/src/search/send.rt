//! What the lines of a report send to a serializer.
ghost use Rattle.std.specs.Prelude.{◌≡◌, length, OnOk};
ghost use Rattle.serde_json.specs.Events.{SendsValue};
ghost use Rattle.report_text.specs.JsonFields.Fields.{always, shown, fields_of, numbers_json, object_json};
ghost use Rattle.report_text.specs.JsonFields.Sends.{SendsFields, SendsParts};
ghost use Rattle.report_text.specs.Search.Text.{bound_json, fault_parts, outcome_json};
ghost use Rattle.report_text.specs.Search.Text.{gave_up_parts, cas_field, pending_field, last_fields};
ghost use Rattle.report_text.specs.Search.Text.{register_json, register_parts, summary_json, summary_parts};

use crate::json_fields::{send_number, send_numbers, send_text};
use crate::search::report::{Atomicity, Fault, Outcome, ReachedBound, RegisterReport, Report};
use serde::{Described, Serialize, Serializer};

fn show_numbers<S: Serializer>(
    out: &mut S,
    key: &str,
    numbers: &Option<Vec<u32>>,
) -> Result<(), S::Error>
    ensures { OnOk result
        (SendsFields (shown key.now (λ lines. numbers_json lines.items) numbers.now) (S.written out.old)
        (S.written out.new)) }
{
    match numbers {
        Some(numbers) => send_numbers(out, key, numbers.as_slice()),
        None => Ok(()),
    }
}

fn send_bound<S: Serializer>(out: &mut S, key: &str, bound: ReachedBound) -> Result<(), S::Error>
    ensures { OnOk result
        (SendsFields (always key.now (bound_json bound)) (S.written out.old) (S.written out.new)) }
{
    match bound {
        ReachedBound::Configurations => send_text(out, key, "configurations"),
        ReachedBound::Steps => send_text(out, key, "steps"),
    }
}

fn send_outcome<S: Serializer>(out: &mut S, key: &str, outcome: Outcome) -> Result<(), S::Error>
    ensures { OnOk result
        (SendsFields (always key.now (outcome_json outcome)) (S.written out.old) (S.written out.new)) }
{
    match outcome {
        Outcome::Yes => send_text(out, key, "yes"),
        Outcome::No => send_text(out, key, "no"),
        Outcome::Unknown => send_text(out, key, "unknown"),
    }
}

fn fault_len(fault: &Fault) -> usize
    ensures { result ≡ length (fields_of (fault_parts fault.now)) }
{
    match fault {
        Fault::Unwritten { .. } => 2,
        Fault::Search { before: None, .. } => 3,
        Fault::Search {
            before: Some(_),
            ..
        } => 4,
    }
}

fn send_unwritten<S: Serializer>(out: &mut S, call: u32) -> Result<(), S::Error>
    ensures { OnOk result
        (SendsParts (fault_parts (Fault.Unwritten call)) (S.written out.old) (S.written out.new)) }
{
    send_number(out, "call", u64::from(call))?;
    send_text(out, "kind", "unwritten")
}

fn send_search<S: Serializer>(
    out: &mut S,
    asks: &Vec<u32>,
    before: &Option<Vec<u32>>,
    reply: u32,
) -> Result<(), S::Error>
    ensures { OnOk result
        (SendsParts (fault_parts (Fault.Search asks.now before.now reply)) (S.written out.old)
        (S.written out.new)) }
{
    send_numbers(out, "asks", asks.as_slice())?;
    show_numbers(out, "before", before)?;
    send_text(out, "kind", "search")?;
    send_number(out, "reply", u64::from(reply))
}

fn send_fault_parts<S: Serializer>(out: &mut S, fault: &Fault) -> Result<(), S::Error>
    ensures { OnOk result (SendsParts (fault_parts fault.now) (S.written out.old) (S.written out.new)) }
{
    match fault {
        Fault::Unwritten { call } => send_unwritten(out, *call),
        Fault::Search {
            asks,
            before,
            reply,
        } => send_search(out, asks, before, *reply),
    }
}

fn send_fault<S: Serializer>(out: &mut S, fault: &Fault) -> Result<(), S::Error>
    ensures { OnOk result
        (SendsValue (object_json (fault_parts fault.now)) (S.written out.old) (S.written out.new)) }
{
    out.begin_map(Some(fault_len(fault)))?;
    send_fault_parts(out, fault)?;
    out.end_map()
}

fn send_gave_up<S: Serializer>(out: &mut S, bound: ReachedBound) -> Result<(), S::Error>
    ensures { OnOk result
        (SendsValue (object_json (gave_up_parts bound)) (S.written out.old) (S.written out.new)) }
{
    out.begin_map(Some(1))?;
    send_bound(out, "bound", bound)?;
    out.end_map()
}

fn send_cas<S: Serializer>(out: &mut S, reg: &RegisterReport) -> Result<(), S::Error>
    ensures { OnOk result (SendsFields (cas_field reg.now) (S.written out.old) (S.written out.new)) }
{
    send_number(out, "cas", reg.cas as u64)
}

fn send_pending<S: Serializer>(out: &mut S, reg: &RegisterReport) -> Result<(), S::Error>
    ensures { OnOk result (SendsFields (pending_field reg.now) (S.written out.old) (S.written out.new)) }
{
    send_number(out, "pending", reg.pending as u64)
}

fn send_last<S: Serializer>(out: &mut S, reg: &RegisterReport) -> Result<(), S::Error>
    ensures { OnOk result (SendsParts (last_fields reg.now) (S.written out.old) (S.written out.new)) }
{
    send_number(out, "reads", reg.reads as u64)?;
    send_text(out, "register", reg.register.as_str())?;
    send_number(out, "writes", reg.writes as u64)
}

fn send_yes<S: Serializer>(
    out: &mut S,
    reg: &RegisterReport,
    order: &Vec<u32>,
    points: &Vec<u32>,
) -> Result<(), S::Error>
    ensures { OnOk result
        (SendsParts (register_parts reg.now (Atomicity.Yes order.now points.now)) (S.written out.old)
        (S.written out.new)) }
{
    send_text(out, "atomic", "yes")?;
    send_cas(out, reg)?;
    send_numbers(out, "order", order.as_slice())?;
    send_pending(out, reg)?;
    send_numbers(out, "points", points.as_slice())?;
    send_last(out, reg)
}

fn send_no<S: Serializer>(out: &mut S, reg: &RegisterReport, fault: &Fault) -> Result<(), S::Error>
    ensures { OnOk result (SendsParts (register_parts reg.now (Atomicity.No fault.now)) (S.written out.old)
        (S.written out.new)) }
{
    send_text(out, "atomic", "no")?;
    send_cas(out, reg)?;
    out.key("fault")?;
    send_fault(out, fault)?;
    send_pending(out, reg)?;
    send_last(out, reg)
}

fn send_unknown<S: Serializer>(
    out: &mut S,
    reg: &RegisterReport,
    bound: ReachedBound,
) -> Result<(), S::Error>
    ensures { OnOk result (SendsParts (register_parts reg.now (Atomicity.Unknown bound)) (S.written out.old)
        (S.written out.new)) }
{
    send_text(out, "atomic", "unknown")?;
    send_cas(out, reg)?;
    out.key("gave_up")?;
    send_gave_up(out, bound)?;
    send_pending(out, reg)?;
    send_last(out, reg)
}

fn register_len(reg: &RegisterReport) -> usize
    ensures { result ≡ length (fields_of (register_parts reg.now reg.now.atomicity)) }
{
    match &reg.atomicity {
        Atomicity::Yes { .. } => 8,
        Atomicity::No(_) | Atomicity::Unknown(_) => 7,
    }
}

fn send_register_parts<S: Serializer>(out: &mut S, reg: &RegisterReport) -> Result<(), S::Error>
    ensures { OnOk result
        (SendsParts (register_parts reg.now reg.now.atomicity) (S.written out.old) (S.written out.new)) }
{
    match &reg.atomicity {
        Atomicity::Yes { order, points } => send_yes(out, reg, order, points),
        Atomicity::No(fault) => send_no(out, reg, fault),
        Atomicity::Unknown(bound) => send_unknown(out, reg, *bound),
    }
}

impl Described for RegisterReport {
    ghost writes = { λ reg. SendsValue (register_json reg) };
}

impl Serialize for RegisterReport {
    fn serialize<S: Serializer>(&self, out: &mut S) -> Result<(), S::Error> {
        out.begin_map(Some(register_len(self)))?;
        send_register_parts(out, self)?;
        out.end_map()
    }
}

/// The last line of a report.
#[derive(Clone, Copy)]
pub(crate) struct Summary<'a> {
    pub(crate) report: &'a Report,
}

fn send_summary_parts<S: Serializer>(out: &mut S, report: &Report) -> Result<(), S::Error>
    ensures { OnOk result (SendsParts (summary_parts report.now) (S.written out.old) (S.written out.new)) }
{
    send_outcome(out, "atomic", report.atomic)?;
    send_number(out, "operations", report.operations as u64)?;
    send_number(out, "registers", report.registers.len() as u64)
}

impl Described for Summary<'_> {
    ghost writes = { λ summary. SendsValue (summary_json summary.report.now) };
}

impl Serialize for Summary<'_> {
    fn serialize<S: Serializer>(&self, out: &mut S) -> Result<(), S::Error> {
        out.begin_map(Some(3))?;
        send_summary_parts(out, self.report)?;
        out.end_map()
    }
}
