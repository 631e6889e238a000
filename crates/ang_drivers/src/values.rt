//! What drivers read from what they are asked.
ghost use Rattle.std.specs.Prelude.{◌≡◌};
ghost use Rattle.ang_drivers.specs.Tables.{int_32, is_bare_making, one_int_32, property_0};

use ang_kinds::Value;

/// The most that a tally counts to.
pub const LIMIT: u64 = 9_223_372_036_854_775_807;

/// The answer where the function number is unknown, or the arguments are of another form.
pub const UNKNOWN: u32 = 1;

/// The answer where a list or a map has fewer elements than an index asks for.
pub const NO_SUCH_INDEX: u32 = 2;

/// The answer where a map has no number under a key.
pub const NO_SUCH_KEY: u32 = 3;

/// An `Int` that fits into 32 bits.
pub fn read_int_32(value: Value) -> Option<i32>
    ensures exact { result ≡ int_32 value }
{
    match value {
        Value::Int(number) => i32::try_from(number).ok(),
        _ => None,
    }
}

/// An `Int` that fits into 32 bits, where it is the only argument.
pub fn read_one_int_32(args: &[Value]) -> Option<i32>
    ensures exact { result ≡ one_int_32 args.now }
{
    match args {
        [value] => read_int_32(*value),
        _ => None,
    }
}

/// The object whose property is meant, where there is one and only the property 0 is known.
pub fn read_property_0(f: u32, object: Option<u64>) -> Option<u64>
    ensures exact { result ≡ property_0 f object }
{
    if f == 0 { object } else { None }
}

/// Whether the factory 0 is asked, which takes nothing.
pub fn is_bare_making(f: u32, args: &[Value]) -> bool
    ensures exact { result ≡ is_bare_making f args.now }
{
    f == 0 && args.is_empty()
}
