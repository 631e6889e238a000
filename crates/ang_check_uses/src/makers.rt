//! What makes an object, as functions that a call can mean.
ghost use Rattle.std.specs.Prelude.{◌≡◌, IfOk, option_to_list, slice_get, map as list_map};
ghost use Rattle.ang_names_known.specs.Lookup as lookup;
ghost use Rattle.ang_names_known.specs.Spaces as spaces;
ghost use Rattle.ang_check_uses.specs.CallableKinds as kinds;
ghost use Rattle.ang_check_uses.specs.Uses as spec;

use crate::callables::{Callables, push_callable};
use crate::uses::{Callable, Called};
use ang_kinds::{List, Pass};
use ang_names_known::{Default, Family, ScriptConstructor, default_of, parameters_of};
use ang_types::{ArgType, Candidate};
use std::alloc::{AllocError, Global};

/// What makes an object of a class, by a constructor with this body or by none.
fn maker(family: usize, number: u32, body: Option<usize>, params: List<(ArgType, Pass)>) -> Callable
    requires same { spaces.family_type family ≡ number }
    ensures exact { result ≡ kinds.made_callable family body params }
{
    Callable {
        called: Called::Makes(family, body),
        result: ArgType::Object {
            number,
            read_only: false,
        },
        candidate: Candidate { params },
        reach: None,
    }
}

fn default_maker(alloc: Global, family: usize, number: u32, default: Default) -> Option<Callable>
    requires same { spaces.family_type family ≡ number }
    ensures exact { option_to_list result ≡ spec.default_maker family default }
{
    let none = List::from_vec(Vec::new(alloc));
    match default {
        Default::Missing => None,
        Default::Unwritten => Some(maker(family, number, None, none)),
        Default::Written(body) => Some(maker(family, number, Some(body), none)),
    }
}

pub fn constructor_of(
    alloc: Global,
    family: usize,
    number: u32,
    constructor: &ScriptConstructor,
) -> Result<Callable, AllocError>
    requires same { spaces.family_type family ≡ number }
    ensures exact { IfOk result (λ c. c ≡ spec.constructor_of family constructor.now) }
{
    let params = parameters_of(alloc, &constructor.function)?;
    Ok(maker(family, number, Some(constructor.body), params))
}

/// These constructors of a class.
fn constructors_of(
    alloc: Global,
    family: usize,
    number: u32,
    constructors: &[ScriptConstructor],
) -> Result<Callables, AllocError>
    requires same { spaces.family_type family ≡ number }
    ensures exact { IfOk result
        (λ c. c ≡ list_map (spec.constructor_of family) constructors.now) }
{
    let mut found = Callables::new(alloc);
    for constructor in constructors {
        let callable = constructor_of(alloc, family, number, constructor)?;
        found.push(callable)?;
    }
    Ok(found)
}

/// What makes an object of a class by its default constructor, if anything does.
fn default_makers(
    alloc: Global,
    families: &[Family],
    family: usize,
    number: u32,
) -> Result<Callables, AllocError>
    requires same { spaces.family_type family ≡ number }
    ensures exact { IfOk result
        (λ c. c ≡ spec.default_maker family (lookup.default_of families.now family)) }
{
    let mut found = Callables::new(alloc);
    let maker = default_maker(alloc, family, number, default_of(families, family));
    push_callable(&mut found, maker)?;
    Ok(found)
}

/// The constructors of a class, or the default one where it has none; an interface has none.
#[tactic(auto, using(ang_names_known::proofs::Kin::empty_is))]
pub fn makers_in(
    alloc: Global,
    families: &[Family],
    family: usize,
    number: u32,
) -> Result<Callables, AllocError>
    requires same { spaces.family_type family ≡ number }
    ensures exact { IfOk result
        (λ c. c ≡ spec.makers_in families.now family (slice_get families.now family)) }
{
    let Some(declared) = families.get(family) else {
        return Ok(Callables::new(alloc));
    };
    if !declared.is_class {
        return Ok(Callables::new(alloc));
    }
    let constructors = declared.constructors.as_slice();
    if constructors.is_empty() {
        default_makers(alloc, families, family, number)
    } else {
        constructors_of(alloc, family, number, constructors)
    }
}
