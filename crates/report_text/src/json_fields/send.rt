//! What is sent to a serializer for a field: its key, and then its value.
ghost use Rattle.std.specs.Prelude.{OnOk};
ghost use Rattle.serde_json.specs.Data.{string};
ghost use Rattle.serde_json.specs.Events.{SendsValue};
ghost use Rattle.report_text.specs.JsonFields.Fields.{always, number_json, numbers_json, pair_json, shown};
ghost use Rattle.report_text.specs.JsonFields.Fields.{yes_or_no};
ghost use Rattle.report_text.specs.JsonFields.Sends.{SendsFields};

use serde::Serializer;

/// Sends a field whose value is a text.
///
/// # Errors
/// If the serializer fails.
pub fn send_text<S: Serializer>(out: &mut S, key: &str, text: &str) -> Result<(), S::Error>
    ensures { OnOk result
        (SendsFields (always key.now (string text.now)) (S.written out.old) (S.written out.new)) }
{
    out.key(key)?;
    out.str(text)
}

/// Sends a field whose value is a number.
///
/// # Errors
/// If the serializer fails.
pub fn send_number<S: Serializer>(out: &mut S, key: &str, n: u64) -> Result<(), S::Error>
    ensures { OnOk result
        (SendsFields (always key.now (number_json n)) (S.written out.old) (S.written out.new)) }
{
    out.key(key)?;
    out.u64(n)
}

fn send_items<S: Serializer>(out: &mut S, numbers: &[u32]) -> Result<(), S::Error>
    ensures { OnOk result (SendsValue (numbers_json numbers.now) (S.written out.old) (S.written out.new)) }
{
    out.begin_seq(Some(numbers.len()))?;
    for n in numbers {
        out.u64(u64::from(*n))?;
    }
    out.end_seq()
}

/// Sends a field whose value is a list of numbers.
///
/// # Errors
/// If the serializer fails.
pub fn send_numbers<S: Serializer>(out: &mut S, key: &str, numbers: &[u32]) -> Result<(), S::Error>
    ensures { OnOk result
        (SendsFields (always key.now (numbers_json numbers.now)) (S.written out.old) (S.written out.new)) }
{
    out.key(key)?;
    send_items(out, numbers)
}

/// Sends a field whose value is a pair of numbers.
///
/// # Errors
/// If the serializer fails.
pub fn send_pair<S: Serializer>(out: &mut S, key: &str, pair: (u32, u32)) -> Result<(), S::Error>
    ensures { OnOk result
        (SendsFields (always key.now (pair_json pair)) (S.written out.old) (S.written out.new)) }
{
    send_numbers(out, key, &[pair.0, pair.1])
}

/// Sends a field whose value is `"yes"` or `"no"`.
///
/// # Errors
/// If the serializer fails.
pub fn send_yes_or_no<S: Serializer>(out: &mut S, key: &str, yes: bool) -> Result<(), S::Error>
    ensures { OnOk result
        (SendsFields (always key.now (yes_or_no yes)) (S.written out.old) (S.written out.new)) }
{
    if yes {
        send_text(out, key, "yes")
    } else {
        send_text(out, key, "no")
    }
}

/// Sends a field whose value is a number, if there is one.
///
/// # Errors
/// If the serializer fails.
pub fn show_number<S: Serializer>(out: &mut S, key: &str, n: Option<u32>) -> Result<(), S::Error>
    ensures { OnOk result
        (SendsFields (shown key.now number_json n) (S.written out.old) (S.written out.new)) }
{
    match n {
        Some(n) => send_number(out, key, u64::from(n)),
        None => Ok(()),
    }
}
