//! Texts that are put together piece by piece. Where a growth of memory is refused, nothing is promised of what was put
//! together until then.
ghost use Rattle.std.specs.Prelude.{◌≡◌, ◌<◌, ◌++◌, OnOk, codes, decimal};
ghost use Rattle.std.specs.Fmt.{signed_decimal};
ghost use Rattle.asrun_lines.specs.Texts.{key_text, object_text};

use itoa::Buffer;
use std::alloc::AllocError;

/// The bytes of a text, put after what stands in `out`.
///
/// # Errors
/// A growth of memory was refused.
pub fn push_text(out: &mut Vec<u8>, text: &str) -> Result<(), AllocError>
    ensures added { OnOk result (out.new.items ≡ out.old.items ++ text.now) }
{
    out.extend_from_slice(text.as_bytes())
}

/// A number in decimal digits, put after what stands in `out`.
///
/// # Errors
/// A growth of memory was refused.
pub fn push_number(out: &mut Vec<u8>, n: u64) -> Result<(), AllocError>
    ensures added { OnOk result (out.new.items ≡ out.old.items ++ decimal n) }
{
    if n < 10 {
        out.push(b'0' + n as u8)?;
        return Ok(());
    }
    push_digits(out, n)
}

/// A number in decimal digits and a blank behind it, put after what stands in `out`.
///
/// # Errors
/// A growth of memory was refused.
#[tactic(auto, using(crate::proofs::Joined::texts))]
#[inline(always)]
pub fn push_spaced_number(out: &mut Vec<u8>, n: u64) -> Result<(), AllocError>
    ensures added { OnOk result (out.new.items ≡ out.old.items ++ (decimal n ++ codes " ")) }
{
    if n < 10 {
        out.extend_from_slice(&[b'0' + n as u8, b' '])?;
        return Ok(());
    }
    push_digits(out, n)?;
    push_text(out, " ")
}

/// A number of any length, as `push_number` puts it. It stands apart, so that one digit takes no buffer.
#[inline(never)]
fn push_digits(out: &mut Vec<u8>, n: u64) -> Result<(), AllocError>
    ensures added { OnOk result (out.new.items ≡ out.old.items ++ decimal n) }
{
    let mut digits = Buffer::new();
    push_text(out, digits.format(n))
}

/// A number in decimal digits, with `-` before it where it is negative, put after what stands in `out`.
///
/// # Errors
/// A growth of memory was refused.
pub fn push_signed(out: &mut Vec<u8>, n: i64) -> Result<(), AllocError>
    ensures added { OnOk result (out.new.items ≡ out.old.items ++ signed_decimal n) }
{
    match u64::try_from(n) {
        Ok(positive) => push_number(out, positive),
        Err(_) => push_negative(out, n),
    }
}

/// The same of a number that may be negative. It stands apart, so that one digit takes no buffer.
#[inline(never)]
fn push_negative(out: &mut Vec<u8>, n: i64) -> Result<(), AllocError>
    ensures added { OnOk result (out.new.items ≡ out.old.items ++ signed_decimal n) }
{
    let mut digits = Buffer::new();
    push_text(out, digits.format(n))
}

/// `#KEY`, put after what stands in `out`.
///
/// # Errors
/// A growth of memory was refused.
#[tactic(auto, using(crate::proofs::Joined::texts))]
pub fn push_key(out: &mut Vec<u8>, key: u64) -> Result<(), AllocError>
    ensures added { OnOk result (out.new.items ≡ out.old.items ++ key_text key) }
{
    push_text(out, "#")?;
    push_number(out, key)
}

/// `#KEY`, or `-` for no object, put after what stands in `out`.
///
/// # Errors
/// A growth of memory was refused.
#[tactic(auto, using(crate::proofs::Joined::texts), unfolding(crate::specs::Texts::object_text))]
pub fn push_object(out: &mut Vec<u8>, object: Option<u64>) -> Result<(), AllocError>
    ensures added { OnOk result (out.new.items ≡ out.old.items ++ object_text object) }
{
    match object {
        None => push_text(out, "-"),
        Some(key) => push_key(out, key),
    }
}
