//! The fields of a line, and the numbers and masks that they spell.
ghost use Rattle.std.specs.Prelude.{◌≡◌, ◌≤◌, ◌^◌, ◌<◌, ◌==◌, length, position, IfSome, option_map};
ghost use Rattle.asrun_lines.specs.Fields.{field_of, last_field_of, rest_of, numeral64_of, decimal_of, mask_of, number_of, positive32_of, negative32_of, signed_of};

use ang_kinds::Mask;

/// The place of the first such byte.
pub fn place_of(text: &[u8], byte: u8) -> Option<usize>
    ensures exact { result ≡ position (λ b. b == byte) text.now }
    ensures within { IfSome result (λ at. at < length text.now) }
{
    text.iter().position(|b| *b == byte)
}

/// The first field of a line, and what follows the space after it. None where no space ends the
/// field, or it is empty.
#[tactic(auto, unfolding(crate::specs::Fields::field_of))]
pub fn field(line: &[u8]) -> Option<(&[u8], &[u8])>
    ensures exact { option_map (λ x. (x.0.now, x.1.now)) result ≡ field_of line.now }
{
    let at = place_of(line, b' ')?;
    if at == 0 {
        return None;
    }
    Some((&line[..at], &line[at + 1..]))
}

/// The last field of a line: all of it, if it is neither empty nor has a space.
#[tactic(auto, unfolding(crate::specs::Fields::last_field_of))]
pub fn last_field(line: &[u8]) -> Option<&[u8]>
    ensures exact { option_map (λ x. x.now) result ≡ last_field_of line.now }
{
    if line.is_empty() || line.contains(&b' ') {
        return None;
    }
    Some(line)
}

/// The rest of a line, spaces and all, if it isn't empty.
#[tactic(auto, unfolding(crate::specs::Fields::rest_of))]
pub fn rest(line: &[u8]) -> Option<&[u8]>
    ensures exact { option_map (λ x. x.now) result ≡ rest_of line.now }
{
    if line.is_empty() {
        return None;
    }
    Some(line)
}

/// The number that digits of the base write, if each is one and the number has at most 64 bits.
fn numeral(text: &[u8], base: u32) -> Option<u64>
    requires few { 2 ≤ base }
    requires most { base ≤ 36 }
    ensures exact { result ≡ numeral64_of base text.now }
{
    let mut n: u64 = 0;
    for b in text {
        let digit = char::from(*b).to_digit(base)?;
        n = n
            .checked_mul(u64::from(base))?
            .checked_add(u64::from(digit))?;
    }
    Some(n)
}

/// The number of at most 64 bits that 1 to `most` decimal digits write. None where the text is empty, has more
/// than `most` bytes or another byte than a digit, or where the number takes more than 64 bits.
#[tactic(auto, unfolding(crate::specs::Fields::decimal_of))]
pub fn decimal(text: &[u8], most: usize) -> Option<u64>
    ensures exact { result ≡ decimal_of most text.now }
{
    if text.is_empty() || most < text.len() {
        return None;
    }
    numeral(text, 10)
}

/// The number of at most 32 bits that 1 to 10 decimal digits write.
#[tactic(auto, unfolding(crate::specs::Fields::number_of))]
pub fn number(text: &[u8]) -> Option<u32>
    ensures exact { result ≡ number_of text.now }
{
    u32::try_from(decimal(text, 10)?).ok()
}

/// The mask that eight hexadecimal digits write.
#[tactic(auto, unfolding(crate::specs::Fields::mask_of))]
pub fn mask(text: &[u8]) -> Option<Mask>
    ensures exact { result ≡ mask_of text.now }
{
    if text.len() != 8 {
        return None;
    }
    u32::try_from(numeral(text, 16)?).ok().map(Mask)
}

/// The number of 32 bits that `7` spells.
#[tactic(auto, unfolding(crate::specs::Fields::positive32_of))]
fn positive(digits: &[u8]) -> Option<i32>
    ensures exact { result ≡ positive32_of digits.now }
{
    i32::try_from(decimal(digits, 10)?).ok()
}

/// The number of 32 bits that `-7` spells, without its sign.
#[tactic(auto, unfolding(crate::specs::Fields::negative32_of))]
fn negative(digits: &[u8]) -> Option<i32>
    ensures exact { result ≡ negative32_of digits.now }
{
    let n = i128::from(decimal(digits, 10)?);
    i32::try_from(-n).ok()
}

/// The number of 32 bits with a sign that `7` or `-7` spells, in 1 to 10 digits.
#[tactic(auto, unfolding(crate::specs::Fields::signed_of))]
pub fn signed(text: &[u8]) -> Option<i32>
    ensures exact { result ≡ signed_of text.now }
{
    if text.is_empty() {
        return None;
    }
    if text[0] == b'-' {
        return negative(&text[1..]);
    }
    positive(text)
}
