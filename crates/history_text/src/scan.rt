//! The pieces of a line of JSON, each read from the front of a text: spaces, numbers, strings.
//!
//! Each function gives what it read and the text after it, both as slices of the line, so nothing
//! is copied. `None` says only that the piece doesn't stand there in the form that is read here.
ghost use Rattle.std.specs.Prelude.{◌≡◌, ◌<◌, ◌≤◌, ◌^◌, ◌+◌, ◌++◌, ◌∷◌, [], length, MatchOption};
ghost use Rattle.std.specs.Prelude.{IfSome, decimal, ⊤, FitsSigned};
ghost use Rattle.std.specs.Bool.{MatchBool};
ghost use Rattle.std.specs.Fmt.{signed_decimal};
ghost use Rattle.std.specs.Int.{w32, w64, from_le_bytes};
ghost use Rattle.std.specs.Str.{IsUtf8};
ghost use lib.Signed.{mag};
ghost use Rattle.history_text.specs.Lines.{is_space as is_space_byte};
ghost use Rattle.history_text.specs.Flat.{Spaced, IsPlain, IsPlainByte, four_from};

// A number from here on takes no further digit: it might pass the greatest `i64`.
const FULL: u64 = 922_337_203_685_477_580;

/// The first byte, and the text after it.
#[inline(always)]
pub(crate) fn next_byte(text: &[u8]) -> Option<(u8, &[u8])>
    ensures { MatchOption result (text.now ≡ []) (λ r. text.now ≡ r.0 ∷ r.1.now) }
{
    let (byte, rest) = text.split_first()?;
    Some((*byte, rest))
}

/// Four bytes as one number.
#[inline(always)]
fn four(text: &[u8], at: usize) -> u32
    requires { at + 4 ≤ length text.now }
    ensures { result ≡ from_le_bytes w32 (four_from at text.now) }
{
    u32::from_le_bytes([text[at], text[at + 1], text[at + 2], text[at + 3]])
}

/// The text after `front`, if it begins with that. Four bytes are compared at once.
#[inline(always)]
pub(crate) fn after<'a>(text: &'a [u8], front: &[u8]) -> Option<&'a [u8]>
    ensures { IfSome result (λ rest. text.now ≡ front.now ++ rest.now) }
{
    if text.len() < front.len() {
        return None;
    }
    let fours = front.len() / 4;
    for i in 0..fours {
        if four(text, 4 * i) != four(front, 4 * i) {
            return None;
        }
    }
    for place in 4 * fours..front.len() {
        if text[place] != front[place] {
            return None;
        }
    }
    Some(&text[front.len()..])
}

/// Whether the byte is a space, a tab or a carriage return. JSON's fourth, the line feed, ends a line.
#[inline(always)]
pub(crate) fn is_space(byte: u8) -> bool
    ensures { result ≡ is_space_byte byte }
{
    byte == b' ' || byte == b'\t' || byte == b'\r'
}

/// The text after the spaces at its front.
#[inline(always)]
pub(crate) fn skip_spaces(text: &[u8]) -> &[u8]
    ensures { Spaced text.now result.now }
{
    let mut rest = text;
    while let Some((byte, next)) = next_byte(rest) {
        if !is_space(byte) {
            break;
        }
        rest = next;
    }
    rest
}

/// A whole number without a sign and with no leading zero, below 9,223,372,036,854,775,800.
#[inline(always)]
pub(crate) fn unsigned(text: &[u8]) -> Option<(u64, &[u8])>
    ensures text { IfSome result (λ r. text.now ≡ decimal r.0 ++ r.1.now) }
    ensures bound { IfSome result (λ r. r.0 < 2 ^ 63) }
{
    let (leading, behind) = next_byte(text)?;
    if leading == b'0' {
        return Some((0, behind));
    }
    if leading < b'1' || leading > b'9' {
        return None;
    }
    let mut number = (leading - b'0') as u64;
    let mut rest = behind;
    while let Some((digit, next)) = next_byte(rest) {
        if digit < b'0' || digit > b'9' {
            break;
        }
        if number >= FULL {
            return None;
        }
        number = number * 10 + (digit - b'0') as u64;
        rest = next;
    }
    Some((number, rest))
}

/// A whole number, with a minus if it is below zero. `-0` is not read: `serde_json` takes it for a float.
#[inline(always)]
pub(crate) fn signed(text: &[u8]) -> Option<(i64, &[u8])>
    ensures text { IfSome result (λ r. text.now ≡ signed_decimal r.0 ++ r.1.now) }
    ensures bound { IfSome result (λ r. mag r.0 < 2 ^ 63) }
    ensures fits { IfSome result (λ r. FitsSigned w64 r.0) }
{
    let (sign, digits) = next_byte(text)?;
    if sign == b'-' {
        let (number, rest) = unsigned(digits)?;
        if number == 0 {
            return None;
        }
        Some((-(number as i64), rest))
    } else {
        let (number, rest) = unsigned(text)?;
        Some((number as i64, rest))
    }
}

/// Whether the byte stands for itself in a string: no control, no quote and no backslash.
#[inline(always)]
fn is_plain(byte: u8) -> bool
    ensures { MatchBool result (IsPlainByte byte) ⊤ }
{
    byte >= b' ' && byte != b'"' && byte != b'\\'
}

/// The text of a string without escapes. What is not UTF-8 is not read.
#[inline(always)]
pub(crate) fn plain_string(text: &[u8]) -> Option<(&str, &[u8])>
    ensures plain { IfSome result (λ r. IsPlain r.0.now) }
    ensures utf8 { IfSome result (λ r. IsUtf8 r.0.now) }
    ensures text { IfSome result (λ r. text.now ≡ 34 ∷ (r.0.now ++ 34 ∷ r.1.now)) }
{
    let (quote, inner) = next_byte(text)?;
    if quote != b'"' {
        return None;
    }
    let mut end = 0;
    while end < inner.len() && is_plain(inner[end]) {
        end += 1;
    }
    if end == inner.len() || inner[end] != b'"' {
        return None;
    }
    let string = std::str::from_utf8(&inner[..end]).ok()?;
    Some((string, &inner[end + 1..]))
}
