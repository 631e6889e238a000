//! What a module declares at the top level: how much, by which text, and the number of an import.
ghost use Rattle.std.specs.Prelude.{◌≡◌, ◌≤◌, ◌++◌, [], OnOk, IfOk, is_some, unwrap_or, length};
ghost use Rattle.ang_engine_call.specs.Declarations.{declared_count, declared_text, bindable, declared_import};
ghost use Rattle.ang_engine_call.specs.declared.declarations.DeclarationKind.TheVariants as kinds;

use crate::finding::find_import;
use crate::texts::{push_function, push_global};
use ang_names_known::Names;
use ang_view::View;
use std::alloc::{AllocError, Global};

/// A kind of declaration at the top level of a module.
#[derive(Clone, Copy)]
pub enum DeclarationKind {
    /// A function.
    Function,
    /// A global variable.
    Global,
    /// An import.
    Import,
}

/// How many declarations of a kind a module has.
pub fn declared_count(names: &Names, kind: DeclarationKind) -> usize
    ensures exact { result ≡ declared_count kind names.now }
{
    match kind {
        DeclarationKind::Function => names.functions().len(),
        DeclarationKind::Global => names.globals().len(),
        DeclarationKind::Import => names.imports().len(),
    }
}

fn write_function(
    out: &mut Vec<u8>,
    view: &View,
    names: &Names,
    number: usize,
) -> Result<bool, AllocError>
    ensures found { IfOk result (λ found.
        found ≡ is_some (declared_text kinds.Function number view.now names.now)) }
    ensures written { OnOk result (out.new.items ≡ out.old.items
        ++ unwrap_or (declared_text kinds.Function number view.now names.now) []) }
{
    match names.functions().get(number) {
        Some(function) => {
            push_function(out, view, names, function)?;
            Ok(true)
        }
        None => Ok(false),
    }
}

fn write_global(
    out: &mut Vec<u8>,
    view: &View,
    names: &Names,
    number: usize,
) -> Result<bool, AllocError>
    ensures found { IfOk result (λ found.
        found ≡ is_some (declared_text kinds.Global number view.now names.now)) }
    ensures written { OnOk result (out.new.items ≡ out.old.items
        ++ unwrap_or (declared_text kinds.Global number view.now names.now) []) }
{
    match names.globals().get(number) {
        Some(global) => {
            push_global(out, view, names, global)?;
            Ok(true)
        }
        None => Ok(false),
    }
}

fn write_import(
    out: &mut Vec<u8>,
    view: &View,
    names: &Names,
    number: usize,
) -> Result<bool, AllocError>
    ensures found { IfOk result (λ found.
        found ≡ is_some (declared_text kinds.Import number view.now names.now)) }
    ensures written { OnOk result (out.new.items ≡ out.old.items
        ++ unwrap_or (declared_text kinds.Import number view.now names.now) []) }
{
    match names.imports().get(number) {
        Some(import) => {
            push_function(out, view, names, import)?;
            Ok(true)
        }
        None => Ok(false),
    }
}

/// Writes the declaration of a kind that has this number behind what stands in `out`, and answers whether
/// there is one.
///
/// The only error is want of memory: a part of the text may then stand in `out`.
pub fn write_declared(
    out: &mut Vec<u8>,
    view: &View,
    names: &Names,
    kind: DeclarationKind,
    number: usize,
) -> Result<bool, AllocError>
    ensures found { IfOk result (λ found.
        found ≡ is_some (declared_text kind number view.now names.now)) }
    ensures written { OnOk result (out.new.items ≡ out.old.items
        ++ unwrap_or (declared_text kind number view.now names.now) []) }
{
    match kind {
        DeclarationKind::Function => write_function(out, view, names, number),
        DeclarationKind::Global => write_global(out, view, names, number),
        DeclarationKind::Import => write_import(out, view, names, number),
    }
}

/// A number that an import can be bound by, as each module's imports have it.
fn bindable(number: Option<usize>) -> Option<u32>
    ensures exact { result ≡ bindable number }
{
    match number {
        Some(number) => {
            if number < 0x1_0000_0000 {
                Some(number as u32)
            } else {
                None
            }
        }
        None => None,
    }
}

/// The number of the import that a declaration names.
///
/// The only error is want of memory.
pub fn declared_import(
    alloc: Global,
    view: &View,
    names: &Names,
    decl: &[u8],
) -> Result<Option<u32>, AllocError>
    requires few { length names.now.families ≤ 256 }
    ensures exact { IfOk result (λ number.
        number ≡ declared_import view.now names.now decl.now) }
{
    Ok(bindable(find_import(alloc, view, names, decl)?))
}
