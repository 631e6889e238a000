//! The line of an ask or a post with few values, written from its end, so that it is put with one copy.
ghost use Rattle.std.specs.Prelude.{◌≡◌, ◌+◌, ◌≤◌, ◌++◌, length, drop, codes, decimal};
ghost use Rattle.std.specs.Fmt.{signed_decimal};
ghost use Rattle.asrun_lines.specs.Texts.{key_text, object_text};
ghost use Rattle.ang_remote.specs.Asks.{value_text, values_text, kind_text, word_text, line_text};

use crate::asks::AskKind;
use ang_kinds::Value;
use itoa::{Buffer, write_digits};

/// The most values in a short line.
pub const FEW: usize = 3;

/// Room for a short line: 25 bytes up to its driver's number, 51 from there to its values, 65 of these and 2 behind them at
/// most.
pub const SHORT: usize = 144;

/// Writes bytes so that they end at `end`, and gives where they start.
#[inline(always)]
fn write_bytes(line: &mut [u8], bytes: &[u8], end: usize) -> usize
    requires room { length bytes.now ≤ end }
    requires within { end ≤ length line.old }
    ensures start { result + length bytes.now ≡ end }
    ensures written { drop result line.new ≡ bytes.now ++ drop end line.old }
{
    let start = end - bytes.len();
    line[start..end].copy_from_slice(bytes);
    start
}

/// Writes a number in decimal digits so that they end at `end`, and gives where they start.
#[inline(always)]
fn write_number(line: &mut [u8], n: u64, end: usize) -> usize
    requires room { 20 ≤ end }
    requires within { end ≤ length line.old }
    ensures before { result ≤ end }
    ensures short { end ≤ result + 20 }
    ensures written { drop result line.new ≡ decimal n ++ drop end line.old }
{
    write_digits(n, line, end)
}

/// The same of a number below 0.
#[inline(never)]
fn write_negative(line: &mut [u8], n: i64, end: usize) -> usize
    requires room { 20 ≤ end }
    requires within { end ≤ length line.old }
    ensures before { result ≤ end }
    ensures short { end ≤ result + 20 }
    ensures written { drop result line.new ≡ signed_decimal n ++ drop end line.old }
{
    let mut digits = Buffer::new();
    write_bytes(line, digits.format(n).as_bytes(), end)
}

/// Writes a number in decimal digits, with `-` before it where it is negative.
#[inline(always)]
fn write_signed(line: &mut [u8], n: i64, end: usize) -> usize
    requires room { 20 ≤ end }
    requires within { end ≤ length line.old }
    ensures before { result ≤ end }
    ensures short { end ≤ result + 20 }
    ensures written { drop result line.new ≡ signed_decimal n ++ drop end line.old }
{
    match u64::try_from(n) {
        Ok(positive) => write_number(line, positive, end),
        Err(_) => write_negative(line, n, end),
    }
}

/// Writes a number in decimal digits, with `u` behind it.
#[tactic(auto, using(crate::proofs::Texts::texts))]
#[inline(always)]
fn write_unsigned(line: &mut [u8], n: u64, end: usize) -> usize
    requires room { 21 ≤ end }
    requires within { end ≤ length line.old }
    ensures before { result ≤ end }
    ensures short { end ≤ result + 21 }
    ensures written { drop result line.new ≡ (decimal n ++ codes "u") ++ drop end line.old }
{
    let at = write_bytes(line, b"u", end);
    write_number(line, n, at)
}

/// Writes `#KEY`.
#[inline(always)]
fn write_key(line: &mut [u8], key: u64, end: usize) -> usize
    requires room { 21 ≤ end }
    requires within { end ≤ length line.old }
    ensures before { result ≤ end }
    ensures short { end ≤ result + 21 }
    ensures written { drop result line.new ≡ key_text key ++ drop end line.old }
{
    let at = write_number(line, key, end);
    write_bytes(line, b"#", at)
}

/// Writes `#KEY`, or `-` for no object.
#[tactic(auto, unfolding(asrun_lines::specs::Texts::object_text))]
#[inline(always)]
fn write_object(line: &mut [u8], object: Option<u64>, end: usize) -> usize
    requires room { 21 ≤ end }
    requires within { end ≤ length line.old }
    ensures before { result ≤ end }
    ensures short { end ≤ result + 21 }
    ensures written { drop result line.new ≡ object_text object ++ drop end line.old }
{
    match object {
        None => write_bytes(line, b"-", end),
        Some(key) => write_key(line, key, end),
    }
}

/// Writes a value.
#[tactic(auto, unfolding(crate::specs::Asks::value_text))]
#[inline(always)]
fn write_value(line: &mut [u8], value: Value, end: usize) -> usize
    requires room { 21 ≤ end }
    requires within { end ≤ length line.old }
    ensures before { result ≤ end }
    ensures short { end ≤ result + 21 }
    ensures written { drop result line.new ≡ value_text value ++ drop end line.old }
{
    match value {
        Value::Int(n) => write_signed(line, n, end),
        Value::Uint(n) => write_unsigned(line, n, end),
        Value::Bool(true) => write_bytes(line, b"true", end),
        Value::Bool(false) => write_bytes(line, b"false", end),
        Value::Key(None) => write_bytes(line, b"null", end),
        Value::Key(Some(key)) => write_key(line, key, end),
    }
}

/// Writes two values with a comma between them.
#[inline(always)]
fn write_two(line: &mut [u8], first: Value, second: Value, end: usize) -> usize
    requires room { 43 ≤ end }
    requires within { end ≤ length line.old }
    ensures before { result ≤ end }
    ensures short { end ≤ result + 43 }
    ensures written { drop result line.new
        ≡ value_text first ++ codes "," ++ value_text second ++ drop end line.old }
{
    let at = write_value(line, second, end);
    let at = write_bytes(line, b",", at);
    write_value(line, first, at)
}

/// Writes three values with a comma between two.
#[inline(never)]
fn write_three(line: &mut [u8], first: Value, second: Value, third: Value, end: usize) -> usize
    requires room { 65 ≤ end }
    requires within { end ≤ length line.old }
    ensures before { result ≤ end }
    ensures short { end ≤ result + 65 }
    ensures written { drop result line.new ≡ value_text first ++ codes "," ++ value_text second
        ++ codes "," ++ value_text third ++ drop end line.old }
{
    let at = write_two(line, second, third, end);
    let at = write_bytes(line, b",", at);
    write_value(line, first, at)
}

/// Writes three values at most, with a comma between two.
#[tactic(auto, using(crate::proofs::Texts::texts), unfolding(crate::specs::Asks::values_text))]
#[inline(always)]
fn write_values(line: &mut [u8], values: &[Value], end: usize) -> usize
    requires few { length values.now ≤ 3 }
    requires room { 65 ≤ end }
    requires within { end ≤ length line.old }
    ensures before { result ≤ end }
    ensures short { end ≤ result + 65 }
    ensures written { drop result line.new ≡ values_text values.now ++ drop end line.old }
{
    match values {
        [] => end,
        [only] => write_value(line, *only, end),
        [first, second] => write_two(line, *first, *second, end),
        [first, second, third] => write_three(line, *first, *second, *third, end),
        _ => unreachable!(),
    }
}

/// Writes the values, at the end of the line.
#[inline(always)]
fn write_last(line: &mut [u8], values: &[Value]) -> usize
    requires few { length values.now ≤ 3 }
    requires long { length line.old ≡ 144 }
    ensures before { result ≤ 144 }
    ensures short { 77 ≤ result }
    ensures written { drop result line.new ≡ values_text values.now ++ codes ")\n" }
{
    let at = write_bytes(line, b")\n", SHORT);
    write_values(line, values, at)
}

/// Writes what is asked.
#[tactic(auto, unfolding(crate::specs::Asks::kind_text))]
#[inline(always)]
fn write_kind(line: &mut [u8], kind: AskKind, end: usize) -> usize
    requires room { 5 ≤ end }
    requires within { end ≤ length line.old }
    ensures before { result ≤ end }
    ensures short { end ≤ result + 5 }
    ensures written { drop result line.new ≡ kind_text kind ++ drop end line.old }
{
    match kind {
        AskKind::Make => write_bytes(line, b"make", end),
        AskKind::Call => write_bytes(line, b"call", end),
        AskKind::Read => write_bytes(line, b"read", end),
        AskKind::Write => write_bytes(line, b"write", end),
    }
}

/// Writes what stands between the driver's number and the values.
#[inline(always)]
fn write_asked(line: &mut [u8], kind: AskKind, f: u32, object: Option<u64>, end: usize) -> usize
    requires room { 51 ≤ end }
    requires within { end ≤ length line.old }
    ensures before { result ≤ end }
    ensures short { end ≤ result + 51 }
    ensures written { drop result line.new ≡ codes " " ++ kind_text kind ++ codes " " ++ decimal f
        ++ codes " " ++ object_text object ++ codes " (" ++ drop end line.old }
{
    let at = write_bytes(line, b" (", end);
    let at = write_object(line, object, at);
    let at = write_bytes(line, b" ", at);
    let at = write_number(line, u64::from(f), at);
    let at = write_bytes(line, b" ", at);
    let at = write_kind(line, kind, at);
    write_bytes(line, b" ", at)
}

/// Writes the word with which the line begins.
#[tactic(auto, unfolding(crate::specs::Asks::word_text))]
#[inline(always)]
fn write_word(line: &mut [u8], posted: bool, end: usize) -> usize
    requires room { 5 ≤ end }
    requires within { end ≤ length line.old }
    ensures before { result ≤ end }
    ensures written { drop result line.new ≡ word_text posted ++ drop end line.old }
{
    if posted {
        write_bytes(line, b"post ", end)
    } else {
        write_bytes(line, b"ask ", end)
    }
}

/// Writes the line of three values at most, and gives where it starts.
#[tactic(auto, unfolding(crate::specs::Asks::line_text))]
#[inline(always)]
pub fn write_line(
    line: &mut [u8],
    posted: bool,
    driver: u32,
    kind: AskKind,
    f: u32,
    object: Option<u64>,
    values: &[Value],
) -> usize
    requires few { length values.now ≤ 3 }
    requires long { length line.old ≡ 144 }
    ensures before { result ≤ 144 }
    ensures written { drop result line.new
        ≡ line_text posted driver kind f object values.now }
{
    let at = write_last(line, values);
    let at = write_asked(line, kind, f, object, at);
    let at = write_number(line, u64::from(driver), at);
    write_word(line, posted, at)
}
