//! The text of a declaration, without a body.
ghost use Rattle.std.specs.Prelude.{◌≡◌, ◌++◌, OnOk, codes, flat_map, slice_get};
ghost use Rattle.ang_view.specs.Registration.{entry_at};
ghost use Rattle.ang_engine_call.specs.Texts as spec;

use ang_kinds::{EntityNo, Pass, Prim};
use ang_names_known::{
    Family, Names, ScriptFunction, ScriptGlobal, ScriptParameter, Written, family_of_type,
};
use ang_types::ArgType;
use ang_view::View;
use std::alloc::AllocError;

fn push_text(out: &mut Vec<u8>, text: &str) -> Result<(), AllocError>
    ensures added { OnOk result (out.new.items ≡ out.old.items ++ text.now) }
{
    out.extend_from_slice(text.as_bytes())
}

fn push_bytes(out: &mut Vec<u8>, bytes: &[u8]) -> Result<(), AllocError>
    ensures added { OnOk result (out.new.items ≡ out.old.items ++ bytes.now) }
{
    out.extend_from_slice(bytes)
}

#[tactic(auto, unfolding(crate::specs::Texts::primitive_text))]
fn primitive_name(primitive: Prim) -> &'static str
    ensures exact { result.now ≡ spec.primitive_text primitive }
{
    match primitive {
        Prim::I8 => "int8",
        Prim::I16 => "int16",
        Prim::I32 => "int",
        Prim::I64 => "int64",
        Prim::U8 => "uint8",
        Prim::U16 => "uint16",
        Prim::U32 => "uint",
        Prim::U64 => "uint64",
        Prim::Bool => "bool",
    }
}

/// The name of the entry of this number, if it is seen.
fn push_entry(out: &mut Vec<u8>, view: &View, number: u32) -> Result<(), AllocError>
    ensures added { OnOk result
        (out.new.items ≡ out.old.items ++ spec.entry_name (entry_at view.now number)) }
{
    match view.get(EntityNo(number)) {
        Some(entry) => push_bytes(out, entry.signature.name.as_slice()),
        None => Ok(()),
    }
}

fn push_family(out: &mut Vec<u8>, families: &[Family], family: usize) -> Result<(), AllocError>
    ensures added { OnOk result
        (out.new.items ≡ out.old.items ++ spec.family_name (slice_get families.now family)) }
{
    match families.get(family) {
        Some(family) => push_bytes(out, family.name.as_slice()),
        None => Ok(()),
    }
}

/// The name of the object type of this number.
fn push_object(
    out: &mut Vec<u8>,
    view: &View,
    families: &[Family],
    number: u32,
) -> Result<(), AllocError>
    ensures added { OnOk result
        (out.new.items ≡ out.old.items ++ spec.name_of_type view.now families.now number) }
{
    match family_of_type(number) {
        Some(family) => push_family(out, families, family),
        None => push_entry(out, view, number),
    }
}

fn push_const_handle(out: &mut Vec<u8>, const_handle: bool) -> Result<(), AllocError>
    ensures added { OnOk result
        (out.new.items ≡ out.old.items ++ spec.const_handle_text const_handle) }
{
    if const_handle {
        push_text(out, "@ const")
    } else {
        push_text(out, "@")
    }
}

#[tactic(auto, using(crate::proofs::Joined::texts), unfolding(crate::specs::Texts::type_text))]
fn push_type(
    out: &mut Vec<u8>,
    view: &View,
    families: &[Family],
    ty: ArgType,
    const_handle: bool,
) -> Result<(), AllocError>
    ensures added { OnOk result (out.new.items
        ≡ out.old.items ++ spec.type_text view.now families.now ty const_handle) }
{
    match ty {
        ArgType::Void => push_text(out, "void"),
        ArgType::Null => push_text(out, "null"),
        ArgType::Plain(primitive) => push_text(out, primitive_name(primitive)),
        ArgType::Enumeration { number } => push_entry(out, view, number),
        ArgType::Object {
            number,
            read_only: _,
        } => push_object(out, view, families, number),
        ArgType::Handle {
            number,
            read_only: _,
        } => {
            push_object(out, view, families, number)?;
            push_const_handle(out, const_handle)
        }
    }
}

fn push_const(out: &mut Vec<u8>, constant: bool) -> Result<(), AllocError>
    ensures added { OnOk result (out.new.items ≡ out.old.items ++ spec.const_text constant) }
{
    if constant {
        push_text(out, "const ")
    } else {
        Ok(())
    }
}

/// A type as it is written.
#[tactic(auto, using(crate::proofs::Joined::texts))]
fn push_written(
    out: &mut Vec<u8>,
    view: &View,
    families: &[Family],
    written: Written,
) -> Result<(), AllocError>
    ensures added { OnOk result
        (out.new.items ≡ out.old.items ++ spec.written_text view.now families.now written) }
{
    push_const(out, written.constant)?;
    push_type(out, view, families, written.ty, written.const_handle)
}

fn push_pass(out: &mut Vec<u8>, pass: Pass) -> Result<(), AllocError>
    ensures added { OnOk result (out.new.items ≡ out.old.items ++ spec.pass_text pass) }
{
    match pass {
        Pass::Value => Ok(()),
        Pass::RefIn => push_text(out, " &in"),
        Pass::RefOut => push_text(out, " &out"),
        Pass::RefInOut => push_text(out, " &inout"),
    }
}

/// A name after a blank, if there is one.
#[tactic(auto, using(crate::proofs::Joined::texts))]
fn push_name(out: &mut Vec<u8>, name: &[u8]) -> Result<(), AllocError>
    ensures added { OnOk result (out.new.items ≡ out.old.items ++ spec.name_text name.now) }
{
    match name {
        [] => Ok(()),
        _ => {
            push_text(out, " ")?;
            push_bytes(out, name)
        }
    }
}

#[tactic(auto, using(crate::proofs::Joined::texts))]
fn push_parameter(
    out: &mut Vec<u8>,
    view: &View,
    families: &[Family],
    param: &ScriptParameter,
) -> Result<(), AllocError>
    ensures added { OnOk result
        (out.new.items ≡ out.old.items ++ spec.parameter_text view.now families.now param.now) }
{
    push_written(out, view, families, param.written)?;
    push_pass(out, param.pass)?;
    push_name(out, param.name.as_slice())
}

/// Parameters after the first.
#[tactic(auto, using(crate::proofs::Joined::texts))]
fn push_more(
    out: &mut Vec<u8>,
    view: &View,
    families: &[Family],
    params: &[ScriptParameter],
) -> Result<(), AllocError>
    ensures added { OnOk result (out.new.items ≡ out.old.items
        ++ flat_map (λ q. codes ", " ++ spec.parameter_text view.now families.now q) params.now) }
{
    for param in params {
        push_text(out, ", ")?;
        push_parameter(out, view, families, param)?;
    }
    Ok(())
}

#[tactic(auto, using(crate::proofs::Joined::texts), unfolding(crate::specs::Texts::parameters_text))]
fn push_parameters(
    out: &mut Vec<u8>,
    view: &View,
    families: &[Family],
    params: &[ScriptParameter],
) -> Result<(), AllocError>
    ensures added { OnOk result
        (out.new.items ≡ out.old.items ++ spec.parameters_text view.now families.now params.now) }
{
    match params {
        [] => Ok(()),
        [first, more @ ..] => {
            push_parameter(out, view, families, first)?;
            push_more(out, view, families, more)
        }
    }
}

/// Writes the declaration of a function or an import behind what stands in `out`: without its body, with the types as
/// they are written, each by the name that it has in the module, and with the names of its parameters.
///
/// The only error is want of memory: a part of the text may then stand in `out`.
#[tactic(auto, using(crate::proofs::Joined::texts))]
pub fn push_function(
    out: &mut Vec<u8>,
    view: &View,
    names: &Names,
    function: &ScriptFunction,
) -> Result<(), AllocError>
    ensures added { OnOk result (out.new.items
        ≡ out.old.items ++ spec.function_text view.now names.now.families function.now) }
{
    let families = names.families();
    push_written(out, view, families, function.result)?;
    push_text(out, " ")?;
    push_bytes(out, function.name.as_slice())?;
    push_text(out, "(")?;
    push_parameters(out, view, families, function.params.as_slice())?;
    push_text(out, ")")
}

/// Writes the declaration of a global variable behind what stands in `out`, without its initializer.
///
/// The only error is want of memory: a part of the text may then stand in `out`.
#[tactic(auto, using(crate::proofs::Joined::texts))]
pub fn push_global(
    out: &mut Vec<u8>,
    view: &View,
    names: &Names,
    global: &ScriptGlobal,
) -> Result<(), AllocError>
    ensures added { OnOk result
        (out.new.items ≡ out.old.items ++ spec.global_text view.now names.now.families global.now) }
{
    push_written(out, view, names.families(), global.written)?;
    push_text(out, " ")?;
    push_bytes(out, global.name.as_slice())
}
