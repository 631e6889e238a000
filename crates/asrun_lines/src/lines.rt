//! The lines of a text.
ghost use Rattle.std.specs.Prelude.{◌≡◌, ◌+◌, ◌≤◌, ◌<◌, ◌∷◌, ◌++◌, [], length, take, drop, IfNone, IfSome, MatchOption, option_map};
ghost use Rattle.std.specs.List.{concat};
ghost use Rattle.asrun_lines.specs.Lines.{lines_of, before_last, shown_of, is_skipped};

use crate::fields::place_of;

/// The first line of the text, with its LF where it has one, and what follows it. None at the end.
pub fn first_line(text: &[u8]) -> Option<(&[u8], &[u8])>
    ensures none { IfNone result (lines_of text.now ≡ []) }
    ensures some { IfSome result (λ x. lines_of text.now ≡ x.0.now ∷ lines_of x.1.now) }
    ensures whole { IfSome result (λ x. x.0.now ++ x.1.now ≡ text.now) }
    ensures shorter { IfSome result (λ x. length x.1.now < length text.now) }
{
    if text.is_empty() {
        return None;
    }
    let end = match place_of(text, b'\n') {
        Some(at) => at + 1,
        None => text.len(),
    };
    Some(text.split_at(end))
}

/// The first `count` lines of the text, and what follows them. None where it has fewer.
pub fn first_lines(text: &[u8], count: u64) -> Option<(&[u8], &[u8])>
    ensures none { IfNone result (length (lines_of text.now) < count) }
    ensures some { IfSome result (λ x. count ≤ length (lines_of text.now)) }
    ensures front { IfSome result (λ x. x.0.now ≡ concat (take count (lines_of text.now))) }
    ensures back { IfSome result (λ x. lines_of x.1.now ≡ drop count (lines_of text.now)) }
    ensures room { IfSome result (λ x. count + length x.1.now ≤ length text.now) }
{
    let mut rest = text;
    for _ in 0..count {
        let (_, after) = first_line(rest)?;
        rest = after;
    }
    Some(text.split_at(text.len() - rest.len()))
}

/// What stands before the last byte, where that is `byte`.
#[tactic(auto, unfolding(crate::specs::Lines::before_last))]
fn before_last(line: &[u8], byte: u8) -> Option<&[u8]>
    ensures exact { option_map (λ x. x.now) result ≡ before_last byte line.now }
{
    if line.is_empty() {
        return None;
    }
    let last = line.len() - 1;
    if line[last] == byte {
        Some(&line[..last])
    } else {
        None
    }
}

/// The line without its LF and a CR before that. A CR without a LF stays.
#[tactic(auto, unfolding(crate::specs::Lines::shown_of))]
pub fn shown(line: &[u8]) -> &[u8]
    ensures exact { result.now ≡ shown_of line.now }
{
    match before_last(line, b'\n') {
        None => line,
        Some(text) => match before_last(text, b'\r') {
            None => text,
            Some(shorter) => shorter,
        },
    }
}

/// Whether the line says nothing: it is empty or begins with `#`.
pub fn is_skipped(line: &[u8]) -> bool
    ensures exact { result ≡ is_skipped line.now }
{
    line.is_empty() || line[0] == b'#'
}
