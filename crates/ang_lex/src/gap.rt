//! How far comments go.
ghost use Rattle.std.specs.Prelude.{◌≡◌, ℕ, ◌+◌, ◌<◌, ◌≤◌, length, IfSome};
ghost use Rattle.ang_lex.specs.Tokens as spec;

/// The bytes up to the end of the line, without its LF.
pub fn line_len(rest: &[u8]) -> usize
    ensures value { result ≡ spec.line_len rest.now }
    ensures within { result ≤ length rest.now }
{
    rest.iter().take_while(|b| **b != b'\n').count()
}

/// The bytes up to the next `*/` and with it, if one comes.
pub fn closing_len(rest: &[u8]) -> Option<usize>
    ensures value { result ≡ spec.closing_len rest.now }
    ensures within { IfSome result (λ n. n ≤ length rest.now) }
{
    for i in 0..rest.len() {
        if rest[i..].starts_with(b"*/") {
            return Some(i + 2);
        }
    }
    None
}
