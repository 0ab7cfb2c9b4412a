//! What the lines of a report send to a serializer.
ghost use Rattle.std.specs.Prelude.{◌≡◌, ◌≤◌, codes, length, OnOk};
ghost use Rattle.serde_json.specs.Events.{SendsValue};
ghost use Rattle.report_text.specs.JsonFields.Fields.{always, fields_of, number_json, numbers_json, shown};
ghost use Rattle.report_text.specs.JsonFields.Sends.{SendsFields, SendsParts};
ghost use Rattle.report_text.specs.Level.Text.{first_parts, first_totals, last_parts, last_totals};
ghost use Rattle.report_text.specs.Level.Text.{level_json};
ghost use Rattle.report_text.specs.Level.Text.{register_json, register_parts, second_parts, second_totals};
ghost use Rattle.report_text.specs.Level.Text.{third_parts, totals_json, totals_parts};

use crate::json_fields::{one_if, send_numbers, send_text, send_yes_or_no, show_number};
use crate::level::causal::{causal_len, send_causal};
use crate::level::objects::{
    send_number, show_early, show_fault, show_gap, show_missed, show_pairs, show_went_back,
    show_yes_or_no,
};
use crate::level::report::{OrderLines, RegisterLevels, Totals};
use serde::{Described, Serialize, Serializer};

fn show_order<S: Serializer>(out: &mut S, order: &Option<OrderLines>) -> Result<(), S::Error>
    ensures { OnOk result
        (SendsFields (shown (codes "order") (λ order. numbers_json order.lines.items) order.now)
        (S.written out.old) (S.written out.new)) }
{
    match order {
        Some(order) => send_numbers(out, "order", order.lines.as_slice()),
        None => Ok(()),
    }
}

fn show_order_level<S: Serializer>(out: &mut S, order: &Option<OrderLines>) -> Result<(), S::Error>
    ensures { OnOk result
        (SendsFields (shown (codes "order_of") (λ order. level_json order.level) order.now)
        (S.written out.old) (S.written out.new)) }
{
    match order {
        Some(order) => send_text(out, "order_of", order.level.word()),
        None => Ok(()),
    }
}

// ---- a register's line

fn first_len(reg: &RegisterLevels) -> usize
    ensures fields { result ≡ length (fields_of (first_parts reg.now)) }
    ensures few { result ≤ 9 }
{
    1 + one_if(reg.freshness.back.is_some())
        + one_if(reg.freshness.back_read.is_some())
        + one_if(reg.freshness.early.is_some())
        + one_if(reg.freshness.gap.is_some())
        + one_if(reg.freshness.inverted.is_some())
        + one_if(reg.freshness.inverted_read.is_some())
        + one_if(reg.freshness.lost.is_some())
        + one_if(reg.freshness.lost_write.is_some())
}

fn second_len(reg: &RegisterLevels) -> usize
    ensures fields { result ≡ length (fields_of (second_parts reg.now)) }
    ensures few { result ≤ 8 }
{
    one_if(reg.guarantees.monotonic.is_some())
        + one_if(reg.guarantees.monotonic_fault.is_some())
        + one_if(reg.order.is_some())
        + one_if(reg.order.is_some())
        + one_if(reg.freshness.own.is_some())
        + one_if(reg.freshness.own_read.is_some())
        + one_if(reg.guarantees.own_writes.is_some())
        + one_if(reg.guarantees.own_writes_fault.is_some())
}

fn third_len(reg: &RegisterLevels) -> usize
    ensures fields { result ≡ length (fields_of (third_parts reg.now)) }
    ensures few { result ≤ 8 }
{
    6 + one_if(reg.guarantees.sequential_fault.is_some())
        + one_if(reg.guarantees.session_fault.is_some())
}

fn last_len(reg: &RegisterLevels) -> usize
    ensures fields { result ≡ length (fields_of (last_parts reg.now)) }
    ensures few { result ≤ 5 }
{
    1 + one_if(reg.freshness.stale.is_some())
        + one_if(reg.freshness.stale_read.is_some())
        + one_if(reg.freshness.stale_reads.is_some())
        + one_if(reg.freshness.unwritten.is_some())
}

fn send_first<S: Serializer>(out: &mut S, reg: &RegisterLevels) -> Result<(), S::Error>
    ensures { OnOk result (SendsParts (first_parts reg.now) (S.written out.old) (S.written out.new)) }
{
    send_yes_or_no(out, "atomic", reg.freshness.atomic)?;
    show_number(out, "back", reg.freshness.back)?;
    show_went_back(out, "back_read", reg.freshness.back_read)?;
    show_early(out, "early", reg.freshness.early)?;
    show_gap(out, "gap", reg.freshness.gap)?;
    show_number(out, "inverted", reg.freshness.inverted)?;
    show_went_back(out, "inverted_read", reg.freshness.inverted_read)?;
    show_number(out, "lost", reg.freshness.lost)?;
    show_number(out, "lost_write", reg.freshness.lost_write)
}

fn send_second<S: Serializer>(out: &mut S, reg: &RegisterLevels) -> Result<(), S::Error>
    ensures { OnOk result (SendsParts (second_parts reg.now) (S.written out.old) (S.written out.new)) }
{
    show_yes_or_no(out, "monotonic", reg.guarantees.monotonic)?;
    show_fault(out, "monotonic_fault", &reg.guarantees.monotonic_fault)?;
    show_order(out, &reg.order)?;
    show_order_level(out, &reg.order)?;
    show_number(out, "own", reg.freshness.own)?;
    show_missed(out, "own_read", reg.freshness.own_read)?;
    show_yes_or_no(out, "own_writes", reg.guarantees.own_writes)?;
    show_fault(out, "own_writes_fault", &reg.guarantees.own_writes_fault)
}

fn send_third<S: Serializer>(out: &mut S, reg: &RegisterLevels) -> Result<(), S::Error>
    ensures { OnOk result (SendsParts (third_parts reg.now) (S.written out.old) (S.written out.new)) }
{
    send_number(out, "pending", reg.operations.pending)?;
    send_number(out, "reads", reg.operations.reads)?;
    send_text(out, "register", reg.register.as_str())?;
    send_yes_or_no(out, "regular", reg.freshness.regular)?;
    send_yes_or_no(out, "sequential", reg.guarantees.sequential)?;
    show_fault(out, "sequential_fault", &reg.guarantees.sequential_fault)?;
    send_yes_or_no(out, "session", reg.guarantees.session)?;
    show_fault(out, "session_fault", &reg.guarantees.session_fault)
}

fn send_last<S: Serializer>(out: &mut S, reg: &RegisterLevels) -> Result<(), S::Error>
    ensures { OnOk result (SendsParts (last_parts reg.now) (S.written out.old) (S.written out.new)) }
{
    show_number(out, "stale", reg.freshness.stale)?;
    show_missed(out, "stale_read", reg.freshness.stale_read)?;
    show_pairs(out, "stale_reads", &reg.freshness.stale_reads)?;
    show_number(out, "unwritten", reg.freshness.unwritten)?;
    send_number(out, "writes", reg.operations.writes)
}

fn register_len(reg: &RegisterLevels) -> usize
    ensures { result ≡ length (fields_of (register_parts reg.now)) }
{
    first_len(reg) + second_len(reg) + third_len(reg) + last_len(reg)
}

fn send_register_parts<S: Serializer>(out: &mut S, reg: &RegisterLevels) -> Result<(), S::Error>
    ensures { OnOk result (SendsParts (register_parts reg.now) (S.written out.old) (S.written out.new)) }
{
    send_first(out, reg)?;
    send_second(out, reg)?;
    send_third(out, reg)?;
    send_last(out, reg)
}

impl Described for RegisterLevels {
    ghost writes = { λ reg. SendsValue (register_json reg) };
}

impl Serialize for RegisterLevels {
    fn serialize<S: Serializer>(&self, out: &mut S) -> Result<(), S::Error> {
        out.begin_map(Some(register_len(self)))?;
        send_register_parts(out, self)?;
        out.end_map()
    }
}

// ---- the summary

fn send_total<S: Serializer>(out: &mut S, key: &str, n: u64) -> Result<(), S::Error>
    ensures { OnOk result
        (SendsFields (always key.now (number_json n)) (S.written out.old) (S.written out.new)) }
{
    crate::json_fields::send_number(out, key, n)
}

fn show_total<S: Serializer>(out: &mut S, key: &str, n: Option<u64>) -> Result<(), S::Error>
    ensures { OnOk result
        (SendsFields (shown key.now number_json n) (S.written out.old) (S.written out.new)) }
{
    match n {
        Some(n) => send_total(out, key, n),
        None => Ok(()),
    }
}

fn totals_len(totals: &Totals) -> usize
    ensures { result ≡ length (fields_of (totals_parts totals.now)) }
{
    12 + causal_len(&totals.causal)
        + one_if(totals.gap.is_some())
        + one_if(totals.monotonic.is_some())
        + one_if(totals.own_writes.is_some())
        + one_if(totals.unclean.is_some())
}

fn send_first_totals<S: Serializer>(out: &mut S, totals: &Totals) -> Result<(), S::Error>
    ensures { OnOk result (SendsParts (first_totals totals.now) (S.written out.old) (S.written out.new)) }
{
    send_yes_or_no(out, "atomic", totals.atomic)?;
    send_total(out, "back", totals.back)
}

fn send_second_totals<S: Serializer>(out: &mut S, totals: &Totals) -> Result<(), S::Error>
    ensures { OnOk result (SendsParts (second_totals totals.now) (S.written out.old) (S.written out.new)) }
{
    show_total(out, "gap", totals.gap)?;
    send_total(out, "inverted", totals.inverted)?;
    send_total(out, "lost", totals.lost)?;
    show_yes_or_no(out, "monotonic", totals.monotonic)?;
    send_total(out, "operations", totals.operations)?;
    send_total(out, "own", totals.own)?;
    show_yes_or_no(out, "own_writes", totals.own_writes)
}

fn send_last_totals<S: Serializer>(out: &mut S, totals: &Totals) -> Result<(), S::Error>
    ensures { OnOk result (SendsParts (last_totals totals.now) (S.written out.old) (S.written out.new)) }
{
    send_total(out, "reads", totals.reads)?;
    send_total(out, "registers", totals.registers)?;
    send_yes_or_no(out, "regular", totals.regular)?;
    send_yes_or_no(out, "sequential", totals.sequential)?;
    send_yes_or_no(out, "session", totals.session)?;
    send_total(out, "stale", totals.stale)?;
    show_total(out, "unclean", totals.unclean)
}

fn send_totals_parts<S: Serializer>(out: &mut S, totals: &Totals) -> Result<(), S::Error>
    ensures { OnOk result (SendsParts (totals_parts totals.now) (S.written out.old) (S.written out.new)) }
{
    send_first_totals(out, totals)?;
    send_causal(out, &totals.causal)?;
    send_second_totals(out, totals)?;
    send_last_totals(out, totals)
}

impl Described for Totals {
    ghost writes = { λ totals. SendsValue (totals_json totals) };
}

impl Serialize for Totals {
    fn serialize<S: Serializer>(&self, out: &mut S) -> Result<(), S::Error> {
        out.begin_map(Some(totals_len(self)))?;
        send_totals_parts(out, self)?;
        out.end_map()
    }
}
