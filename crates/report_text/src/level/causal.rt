//! Whether a whole history is causal, and how that is sent to a serializer.
ghost use Rattle.std.specs.Prelude.{◌≡◌, ◌≤◌, codes, length, OnOk};
ghost use Rattle.serde_json.specs.Events.{SendsValue};
ghost use Rattle.report_text.specs.JsonFields.Fields.{always, fields_of, numbers_json, shown};
ghost use Rattle.report_text.specs.JsonFields.Sends.{SendsFields, SendsParts};
ghost use Rattle.report_text.specs.Level.Causal.{causal_fault_json, causal_parts, step_json, step_parts};
ghost use Rattle.report_text.specs.Level.Causal.{steps_json};
ghost use Rattle.report_text.specs.Level.Causal.{reason_word, verdict_word};
ghost use Rattle.report_text.specs.declared.level.causal.CausalFaultLines.TheVariants as fault;

use crate::json_fields::{one_if, send_numbers, send_text, show_number};
use crate::level::objects::send_number;
use serde::Serializer;

/// The answer for a whole history.
#[derive(Clone, Copy, Debug, PartialEq, Eq)]
pub enum CausalVerdict {
    Yes,
    No,
    /// It would have taken more steps or memory than the bounds allow.
    Unknown,
}

/// Why an operation comes before another.
#[derive(Clone, Copy, Debug, PartialEq, Eq)]
pub enum StepReason {
    /// Their session called it first.
    Process,
    /// The other one read its value.
    Read,
    /// It is an initial write.
    Initial,
    /// A read gave the other one's value although it knew of this one.
    Hidden,
}

/// A step of a cycle.
#[derive(Debug, Drop, PartialEq)]
pub struct StepLines {
    pub from: u32,
    pub to: u32,
    pub why: StepReason,
    /// Of a hidden step the read, and the operations by which it knew of the first one, that and the read
    /// among them; those are left out where the search for them passed its bound.
    pub read: Option<u32>,
    pub knew: Option<Vec<u32>>,
}

/// Why a history isn't causal.
#[derive(Debug, Drop, PartialEq)]
pub enum CausalFaultLines {
    /// A read whose value nobody wrote.
    Unwritten { read: u32 },
    /// Each step leads to where the next one begins, the last to where the first does.
    Cycle { steps: Vec<StepLines> },
}

/// What a report says of the whole history.
#[derive(Debug, Drop)]
pub struct CausalLines {
    pub verdict: CausalVerdict,
    /// If the answer is no.
    pub fault: Option<CausalFaultLines>,
    /// If it is yes and an order was asked for: one of the writes, without the initial ones.
    pub order: Option<Vec<u32>>,
}

impl CausalVerdict {
    fn word(self) -> &'static str
        ensures { result.now ≡ verdict_word self }
    {
        match self {
            CausalVerdict::Yes => "yes",
            CausalVerdict::No => "no",
            CausalVerdict::Unknown => "unknown",
        }
    }
}

impl StepReason {
    fn word(self) -> &'static str
        ensures { result.now ≡ reason_word self }
    {
        match self {
            StepReason::Process => "process",
            StepReason::Read => "read",
            StepReason::Initial => "initial",
            StepReason::Hidden => "hidden",
        }
    }
}

fn show_numbers<S: Serializer>(
    out: &mut S,
    key: &str,
    numbers: &Option<Vec<u32>>,
) -> Result<(), S::Error>
    ensures { OnOk result
        (SendsFields (shown key.now (λ numbers. numbers_json numbers.items) numbers.now) (S.written out.old)
        (S.written out.new)) }
{
    match numbers {
        Some(numbers) => send_numbers(out, key, numbers.as_slice()),
        None => Ok(()),
    }
}

fn step_len(step: &StepLines) -> usize
    ensures { result ≡ length (fields_of (step_parts step.now)) }
{
    3 + one_if(step.knew.is_some()) + one_if(step.read.is_some())
}

fn send_step_parts<S: Serializer>(out: &mut S, step: &StepLines) -> Result<(), S::Error>
    ensures { OnOk result (SendsParts (step_parts step.now) (S.written out.old) (S.written out.new)) }
{
    send_number(out, "from", step.from)?;
    show_numbers(out, "knew", &step.knew)?;
    show_number(out, "read", step.read)?;
    send_number(out, "to", step.to)?;
    send_text(out, "why", step.why.word())
}

fn send_step<S: Serializer>(out: &mut S, step: &StepLines) -> Result<(), S::Error>
    ensures { OnOk result (SendsValue (step_json step.now) (S.written out.old) (S.written out.new)) }
{
    out.begin_map(Some(step_len(step)))?;
    send_step_parts(out, step)?;
    out.end_map()
}

fn send_step_items<S: Serializer>(out: &mut S, steps: &[StepLines]) -> Result<(), S::Error>
    ensures { OnOk result (SendsValue (steps_json steps.now) (S.written out.old) (S.written out.new)) }
{
    out.begin_seq(Some(steps.len()))?;
    for step in steps {
        send_step(out, step)?;
    }
    out.end_seq()
}

fn send_steps<S: Serializer>(out: &mut S, steps: &[StepLines]) -> Result<(), S::Error>
    ensures { OnOk result
        (SendsFields (always (codes "steps") (steps_json steps.now)) (S.written out.old)
        (S.written out.new)) }
{
    out.key("steps")?;
    send_step_items(out, steps)
}

fn send_unwritten<S: Serializer>(out: &mut S, read: u32) -> Result<(), S::Error>
    ensures { OnOk result
        (SendsValue (causal_fault_json (fault.Unwritten read)) (S.written out.old) (S.written out.new)) }
{
    out.begin_map(Some(2))?;
    send_text(out, "kind", "unwritten")?;
    send_number(out, "read", read)?;
    out.end_map()
}

fn send_cycle<S: Serializer>(out: &mut S, steps: &Vec<StepLines>) -> Result<(), S::Error>
    ensures { OnOk result
        (SendsValue (causal_fault_json (fault.Cycle steps.now)) (S.written out.old) (S.written out.new)) }
{
    out.begin_map(Some(2))?;
    send_text(out, "kind", "cycle")?;
    send_steps(out, steps.as_slice())?;
    out.end_map()
}

fn send_causal_fault<S: Serializer>(out: &mut S, fault: &CausalFaultLines) -> Result<(), S::Error>
    ensures { OnOk result
        (SendsValue (causal_fault_json fault.now) (S.written out.old) (S.written out.new)) }
{
    match fault {
        CausalFaultLines::Unwritten { read } => send_unwritten(out, *read),
        CausalFaultLines::Cycle { steps } => send_cycle(out, steps),
    }
}

fn show_causal_fault<S: Serializer>(
    out: &mut S,
    fault: &Option<CausalFaultLines>,
) -> Result<(), S::Error>
    ensures { OnOk result
        (SendsFields (shown (codes "causal_fault") causal_fault_json fault.now) (S.written out.old)
        (S.written out.new)) }
{
    match fault {
        Some(fault) => {
            out.key("causal_fault")?;
            send_causal_fault(out, fault)
        }
        None => Ok(()),
    }
}

/// How many fields the summary has for the whole history.
pub(crate) fn causal_len(causal: &CausalLines) -> usize
    ensures fields { result ≡ length (fields_of (causal_parts causal.now)) }
    ensures few { result ≤ 3 }
{
    1 + one_if(causal.fault.is_some()) + one_if(causal.order.is_some())
}

/// The fields of the summary for the whole history.
pub(crate) fn send_causal<S: Serializer>(out: &mut S, causal: &CausalLines) -> Result<(), S::Error>
    ensures { OnOk result (SendsParts (causal_parts causal.now) (S.written out.old) (S.written out.new)) }
{
    send_text(out, "causal", causal.verdict.word())?;
    show_causal_fault(out, &causal.fault)?;
    show_numbers(out, "causal_order", &causal.order)
}
