//! The numbers of the kinds of all parameters that scripts declare.
ghost use Rattle.std.specs.Prelude.{◌≡◌, ◌++◌, IfOk, OnOk, Some, ℕ, map as list_map};
ghost use Rattle.ang_types.specs.Overloads.{Params};
ghost use Rattle.ang_names_known.specs.Lookup.{type_and_pass};
ghost use Rattle.ang_names_known.specs.Kinds as spec;
ghost use Rattle.ang_names_known.specs.declared.numbering.ParameterKinds.{ParameterKinds};
ghost use Rattle.ang_names_known.specs.Numbering as numbering;

use crate::kinds::{KindRows, KindTable};
use crate::names::{Family, Names, ScriptFunction, ScriptMethod, ScriptParameter};
use ang_kinds::Pass;
use ang_types::ArgType;
use std::alloc::{AllocError, Global};

/// The kinds of the parameters of functions, imports and methods, and for each of these the numbers of its own.
#[derive(Drop)]
pub(crate) struct ParameterKinds {
    pub(crate) kinds: Vec<(ArgType, Pass)>,
    pub(crate) functions: KindRows,
    pub(crate) imports: KindRows,
    /// Those of each family.
    pub(crate) methods: Vec<KindRows>,
}

/// The number of the kind of a method's receiver: 0 where it may be changed, 1 where it is read only.
pub fn receiver_number(read_only: bool) -> u32
    ensures exact { result ≡ spec.receiver_number read_only }
{
    if read_only { 1 } else { 0 }
}

/// Puts the numbers of the kinds of some parameters in after those that are there.
///
/// The only error is want of memory.
fn push_numbers(
    table: &mut KindTable,
    params: &[ScriptParameter],
    row: &mut Vec<u32>,
) -> Result<(), AllocError>
    ensures keeps { OnOk result
        ((t : ℕ) → spec.Keeps (spec.numbered t table.old) (spec.numbered t table.new)) }
    ensures pushed { OnOk result ((t : ℕ) (front : Params) →
        spec.kinds_at (spec.numbered t table.old) row.old.items ≡ list_map Some front →
        spec.kinds_at (spec.numbered t table.new) row.new.items
        ≡ list_map Some (front ++ list_map type_and_pass params.now)) }
{
    for param in params {
        let number = table.number(param.written.ty, param.pass)?;
        row.push(number)?;
    }
    Ok(())
}

/// The rows of some functions.
///
/// The only error is want of memory.
fn rows_of_functions(
    alloc: Global,
    table: &mut KindTable,
    functions: &[ScriptFunction],
) -> Result<KindRows, AllocError>
    ensures keeps { OnOk result
        ((t : ℕ) → spec.Keeps (spec.numbered t table.old) (spec.numbered t table.new)) }
    ensures rows { IfOk result (λ rows. spec.AreRows table.new rows
        (λ t. spec.function_params functions.now)) }
{
    let mut rows = KindRows::new(alloc);
    let mut row = Vec::new(alloc);
    for function in functions {
        row.clear();
        push_numbers(table, function.params.as_slice(), &mut row)?;
        rows.push(row.as_slice())?;
    }
    Ok(rows)
}

/// The rows of some methods, with the number of its receiver in front of each one's.
///
/// The only error is want of memory.
fn rows_of_methods(
    alloc: Global,
    table: &mut KindTable,
    methods: &[ScriptMethod],
) -> Result<KindRows, AllocError>
    ensures keeps { OnOk result
        ((t : ℕ) → spec.Keeps (spec.numbered t table.old) (spec.numbered t table.new)) }
    ensures rows { IfOk result (λ rows. spec.AreRows table.new rows
        (λ t. spec.method_params t methods.now)) }
{
    let mut rows = KindRows::new(alloc);
    let mut row = Vec::new(alloc);
    for method in methods {
        row.clear();
        row.push(receiver_number(method.read_only))?;
        push_numbers(table, method.function.params.as_slice(), &mut row)?;
        rows.push(row.as_slice())?;
    }
    Ok(rows)
}

/// The rows of the methods of each family.
///
/// The only error is want of memory.
fn rows_of_families(
    alloc: Global,
    table: &mut KindTable,
    families: &[Family],
) -> Result<Vec<KindRows>, AllocError>
    ensures keeps { OnOk result
        ((t : ℕ) → spec.Keeps (spec.numbered t table.old) (spec.numbered t table.new)) }
    ensures rows { IfOk result
        (λ rows. numbering.AreMethodRows table.new rows.items families.now) }
{
    let mut all = Vec::with_capacity(alloc, families.len())?;
    for family in families {
        let rows = rows_of_methods(alloc, table, family.methods.as_slice())?;
        all.push(rows)?;
    }
    Ok(all)
}

/// How many methods some families declare.
pub(crate) fn method_count(families: &[Family]) -> usize {
    let mut count: usize = 0;
    for family in families {
        count = count.saturating_add(family.methods.as_slice().len());
    }
    count
}

/// How many functions and methods names have.
fn function_count(names: &Names) -> usize {
    let functions = names.functions.as_slice().len();
    let imports = names.imports.as_slice().len();
    functions
        .saturating_add(imports)
        .saturating_add(method_count(names.families.as_slice()))
}

/// The kinds of the parameters of all functions, imports and methods.
///
/// The only error is want of memory.
pub(crate) fn parameter_kinds(alloc: Global, names: &Names) -> Result<ParameterKinds, AllocError>
    ensures kinds { IfOk result (λ kinds. numbering.AreKinds names.now kinds) }
{
    let mut table = KindTable::new(alloc, function_count(names))?;
    let functions = rows_of_functions(alloc, &mut table, names.functions.as_slice())?;
    let imports = rows_of_functions(alloc, &mut table, names.imports.as_slice())?;
    let methods = rows_of_families(alloc, &mut table, names.families.as_slice())?;
    Ok(ParameterKinds {
        kinds: table.into_kinds(),
        functions,
        imports,
        methods,
    })
}
