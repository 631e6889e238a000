//! Classes of bytes.
ghost use Rattle.std.specs.Prelude.{◌≡◌, ◌≤◌};
ghost use Rattle.std.specs.Char.{digit_value};
ghost use Rattle.ang_lex.specs.Bytes as spec;

/// A space, a tab, a CR or an LF.
pub fn is_white(b: u8) -> bool
    ensures exact { result ≡ spec.is_white b }
{
    b == b' ' || b == b'\t' || b == b'\r' || b == b'\n'
}

/// A letter or `_`.
pub fn is_name_start(b: u8) -> bool
    ensures exact { result ≡ spec.is_name_start b }
{
    b.is_ascii_alphabetic() || b == b'_'
}

/// A letter, a digit or `_`.
pub fn is_name_byte(b: u8) -> bool
    ensures exact { result ≡ spec.is_name_byte b }
{
    b.is_ascii_alphanumeric() || b == b'_'
}

/// What a text may have between its quotes.
pub fn is_text_byte(b: u8) -> bool
    ensures exact { result ≡ spec.is_text_byte b }
{
    b' ' <= b && b <= b'~' && b != b'"' && b != b'\\'
}

/// The first byte is one of a name.
pub fn begins_name_byte(rest: &[u8]) -> bool
    ensures exact { result ≡ spec.begins spec.is_name_byte rest.now }
{
    match rest {
        [] => false,
        [b, ..] => is_name_byte(*b),
    }
}

/// The value of a digit or a letter, up to 35; 36 for any other byte.
pub fn digit_value(b: u8) -> u8
    ensures value { result ≡ digit_value b }
    ensures range { result ≤ 36 }
{
    match b {
        b'0'..=b'9' => b - b'0',
        b'A'..=b'Z' => b - b'A' + 10,
        b'a'..=b'z' => b - b'a' + 10,
        _ => 36,
    }
}
