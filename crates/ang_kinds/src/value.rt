//! Values that pass between a script and its host.

/// A value that is handed to a driver or that comes from one, and an argument or the result of a call from
/// outside.
#[derive(Clone, Copy, PartialEq, Eq, Debug)]
pub enum Value {
    /// A value of a signed integer type.
    Int(i64),
    /// A value of an unsigned integer type.
    Uint(u64),
    /// A truth value.
    Bool(bool),
    /// The key of a host object, or none for the null handle.
    Key(Option<u64>),
}

impl Default for Value {
    ghost use Rattle.std.specs.Prelude.{◌≡◌, pos};
    ghost use Rattle.ang_kinds.specs.declared.value.Value.TheVariants.{Int};

    ghost is_default = { λ v. v ≡ Int (pos 0) };

    /// `Int(0)`, which fills the places of a list that has fewer values than places.
    fn default() -> Value {
        Value::Int(0)
    }
}
