//! What the scripts declare, by name, as far as it takes no memory.
ghost use Rattle.std.specs.Prelude.{◌≡◌, ◌==◌, [], slice_get};
ghost use Rattle.std.specs.List.{list_any};
ghost use Rattle.std.specs.Option.{option_map_or};
ghost use Rattle.ang_names_known.specs.declared.names.Default.TheVariants as default;
ghost use Rattle.ang_names_known.specs.Headings as headings;
ghost use Rattle.ang_names_known.specs.Lookup as spec;

use crate::names::{
    Access, Default, Family, ScriptConstructor, ScriptFunction, ScriptParameter, Written,
};
use ang_types::ArgType;

/// Whether a variable of this written type can't be assigned: `const int`, `const T`, `T@ const`.
pub fn is_read_only(written: Written) -> bool
    ensures exact { result ≡ spec.is_read_only written }
{
    match written.ty {
        ArgType::Handle { .. } => written.const_handle,
        ArgType::Void
        | ArgType::Null
        | ArgType::Plain(_)
        | ArgType::Enumeration { .. }
        | ArgType::Object { .. } => written.constant,
    }
}

/// Whether two types are one, `const` included. Object types and enumerations go by their numbers.
pub fn same_type(one: ArgType, other: ArgType) -> bool
    ensures exact { result ≡ spec.same_type one other }
{
    match (one, other) {
        (ArgType::Void, ArgType::Void) | (ArgType::Null, ArgType::Null) => true,
        (ArgType::Plain(one), ArgType::Plain(other)) => one == other,
        (ArgType::Enumeration { number }, ArgType::Enumeration { number: other }) => {
            number == other
        }
        (
            ArgType::Object { number, read_only },
            ArgType::Object {
                number: other,
                read_only: other_read_only,
            },
        )
        | (
            ArgType::Handle { number, read_only },
            ArgType::Handle {
                number: other,
                read_only: other_read_only,
            },
        ) => number == other && read_only == other_read_only,
        _ => false,
    }
}

fn same_written(one: Written, other: Written) -> bool
    ensures exact { result ≡ spec.same_written one other }
{
    same_type(one.ty, other.ty)
        && one.constant == other.constant
        && one.const_handle == other.const_handle
}

fn same_parameter(one: &ScriptParameter, other: &ScriptParameter) -> bool
    ensures exact { result ≡ spec.same_parameter one.now other.now }
{
    same_written(one.written, other.written) && one.pass == other.pass
}

/// Whether two lists of parameters are the same as they are written; names don't count.
pub fn same_parameters(params: &[ScriptParameter], others: &[ScriptParameter]) -> bool
    ensures exact { result ≡ spec.same_parameters params.now others.now }
{
    params.len() == others.len()
        && params
            .iter()
            .zip(others)
            .all(|(one, other)| same_parameter(one, other))
}

/// Whether an import can be bound to a function: they have the same result and parameters, as they are written. It takes
/// no memory.
pub fn same_call(one: &ScriptFunction, other: &ScriptFunction) -> bool
    ensures exact { result ≡ spec.same_call one.now other.now }
{
    same_written(one.result, other.result)
        && same_parameters(one.params.as_slice(), other.params.as_slice())
}

/// Whether two headings are the same: names, results and parameters. It takes no memory.
pub fn same_heading(one: &ScriptFunction, other: &ScriptFunction) -> bool
    ensures exact { result ≡ spec.same_heading one.now other.now }
{
    one.name.as_slice() == other.name.as_slice() && same_call(one, other)
}

/// Whether the function of this number has this heading.
fn has_heading(functions: &[ScriptFunction], number: usize, heading: &ScriptFunction) -> bool
    ensures exact { result ≡ headings.has_heading functions.now heading.now number }
{
    match functions.get(number) {
        None => false,
        Some(function) => same_heading(heading, function),
    }
}

/// The first of these numbers whose function has this heading.
pub(crate) fn heading_among(
    functions: &[ScriptFunction],
    numbers: &[usize],
    heading: &ScriptFunction,
) -> Option<usize>
    ensures exact { result ≡ headings.heading_among functions.now heading.now numbers.now }
{
    for number in numbers {
        if has_heading(functions, *number, heading) {
            return Some(*number);
        }
    }
    None
}

/// The families above a family, by number.
fn above_of(families: &[Family], family: usize) -> &[u8]
    ensures exact { result.now
        ≡ option_map_or (λ f. f.above) (slice_get families.now family) [] }
{
    match families.get(family) {
        None => &[],
        Some(family) => family.above.as_slice(),
    }
}

/// Whether a number is among some numbers of families.
fn is_among(families: &[u8], other: usize) -> bool
    ensures exact { result ≡ list_any (λ k. k == other) families.now }
{
    families.iter().any(|number| *number as usize == other)
}

/// Whether a family is another one, or stands under it. It takes no memory.
pub fn is_under(families: &[Family], family: usize, other: usize) -> bool
    ensures exact { result ≡ spec.is_under families.now family other }
{
    family == other || is_among(above_of(families, family), other)
}

/// Whether a member of the family `owner` may be used in a body of the class `within`, or in one of no class. It takes no
/// memory.
pub fn may_use(families: &[Family], within: Option<usize>, owner: usize, access: Access) -> bool
    ensures exact { result ≡ spec.may_use families.now within owner access }
{
    match access {
        Access::Public => true,
        Access::Protected => match within {
            None => false,
            Some(class) => is_under(families, class, owner),
        },
        Access::Private => match within {
            None => false,
            Some(class) => class == owner,
        },
    }
}

/// The families of which a family has members, itself first, by number.
#[tactic(auto, unfolding(crate::specs::Lookup::kin_of))]
pub(crate) fn order_of(families: &[Family], family: usize) -> &[u8]
    ensures exact { spec.families_at families.now result.now ≡ spec.kin_of families.now family }
{
    match families.get(family) {
        None => &[],
        Some(family) => family.order.as_slice(),
    }
}

#[tactic(auto, using(crate::proofs::Kin::empty_is))]
fn takes_nothing(constructor: &ScriptConstructor) -> bool
    ensures exact { result ≡ spec.takes_nothing constructor.now }
{
    constructor.function.params.as_slice().is_empty()
}

/// The body of the constructor without parameters among some.
fn default_among(constructors: &[ScriptConstructor]) -> Option<usize>
    ensures exact { result ≡ spec.default_among constructors.now }
{
    for constructor in constructors {
        if takes_nothing(constructor) {
            return Some(constructor.body);
        }
    }
    None
}

/// The constructors that a family declares itself.
fn constructors_of(families: &[Family], family: usize) -> &[ScriptConstructor]
    ensures exact { result.now ≡ spec.constructors_in (slice_get families.now family) }
{
    match families.get(family) {
        None => &[],
        Some(family) => family.constructors.as_slice(),
    }
}

/// The body of the constructor without parameters of the nearest class, from this one on upwards, that has constructors.
#[tactic(auto, using(crate::proofs::Kin::default_with))]
fn nearest_default(families: &[Family], family: usize) -> Option<usize>
    ensures exact { result ≡ spec.nearest_default (spec.kin_of families.now family) }
{
    let order = order_of(families, family);
    for number in order {
        let constructors = constructors_of(families, *number as usize);
        if !constructors.is_empty() {
            return default_among(constructors);
        }
    }
    None
}

fn own_default(body: Option<usize>) -> Default
    ensures exact { result ≡ spec.written_or default.Missing body }
{
    match body {
        None => Default::Missing,
        Some(body) => Default::Written(body),
    }
}

fn written_default(body: Option<usize>) -> Default
    ensures exact { result ≡ spec.written_or default.Unwritten body }
{
    match body {
        None => Default::Unwritten,
        Some(body) => Default::Written(body),
    }
}

/// How an object of a class is made without arguments. It takes no memory.
#[tactic(auto, unfolding(crate::specs::Lookup::default_of))]
pub fn default_of(families: &[Family], family: usize) -> Default
    ensures exact { result ≡ spec.default_of families.now family }
{
    let own = constructors_of(families, family);
    if own.is_empty() {
        written_default(nearest_default(families, family))
    } else {
        own_default(default_among(own))
    }
}
