//! The names of declarations, with what their types mean.
ghost use Rattle.std.specs.Prelude.{◌≡◌, ◌≤◌, length, map as list_map, IfOk};
ghost use Rattle.std.specs.List.{filter_map};
ghost use Rattle.ang_names_known.specs.Spaces as spaces;
ghost use Rattle.ang_names_listed.specs.Declarations.{declared_name};
ghost use Rattle.ang_names_listed.specs.Declarations as listed;
ghost use Rattle.ang_names_classes.specs.Tables as tables;
ghost use Rattle.ang_names_classes.specs.Resolved as spec;

use crate::counting::add_bytes;
use crate::families::families_in;
use crate::space::space_of;
use crate::{Tables, function_with, heading_of, parameters_of, tables_of};
use ang_kinds::List;
use ang_names_known::{Family, NameLists, Names, ScriptFunction, ScriptGlobal, Space};
use ang_names_listed::{
    Declaring, ListedDeclaration, Part, TypePosition, copy_at, declares_function, families_of,
    written_in,
};
use ang_tree::{Parameter, TypeName};
use ang_view::View;
use std::alloc::{AllocError, Global};

fn import_of(
    alloc: Global,
    space: &Space<'_>,
    declared: &ListedDeclaration<'_>,
    ty: &TypeName,
    params: &[Parameter],
) -> Result<ScriptFunction, AllocError>
    ensures exact { IfOk result
        (λ f. f ≡ spec.import_of space.now declared.now ty.now params.now) }
{
    let text = declared.text.bytes();
    let result_type = written_in(space, TypePosition::ImportResult, text, ty);
    let params = parameters_of(alloc, space, text, true, params)?;
    function_with(
        alloc,
        declared.origin,
        text,
        &declared.name,
        result_type,
        params,
    )
}

fn global_with(
    alloc: Global,
    space: &Space<'_>,
    declared: &ListedDeclaration<'_>,
    ty: &TypeName,
) -> Result<ScriptGlobal, AllocError>
    ensures exact { IfOk result (λ g. g ≡ spec.global_with space.now declared.now ty.now) }
{
    let text = declared.text.bytes();
    let name = copy_at(alloc, text, &declared.name)?;
    Ok(ScriptGlobal {
        name,
        place: declared.name.place,
        written: written_in(space, TypePosition::Variable, text, ty),
        origin: declared.origin,
    })
}

/// The function that a declaration declares, if it declares one.
#[tactic(auto, unfolding(crate::specs::Resolved::function_of))]
fn function_of(
    alloc: Global,
    space: &Space<'_>,
    declared: &ListedDeclaration<'_>,
) -> Result<Option<ScriptFunction>, AllocError>
    ensures exact { IfOk result (λ f. f ≡ spec.function_of space.now declared.now) }
{
    match &declared.part {
        Part::Function(ty, params) => {
            let text = declared.text.bytes();
            let origin = declared.origin;
            let one = heading_of(
                alloc,
                space,
                origin,
                text,
                &declared.name,
                ty,
                params.items(),
            )?;
            Ok(Some(one))
        }
        Part::Family(_) | Part::Import(_, _) | Part::Global(_) => Ok(None),
    }
}

/// The import that a declaration declares, if it declares one.
#[tactic(auto, unfolding(crate::specs::Resolved::imported_of))]
fn imported_of(
    alloc: Global,
    space: &Space<'_>,
    declared: &ListedDeclaration<'_>,
) -> Result<Option<ScriptFunction>, AllocError>
    ensures exact { IfOk result (λ f. f ≡ spec.imported_of space.now declared.now) }
{
    match &declared.part {
        Part::Import(ty, params) => {
            let one = import_of(alloc, space, declared, ty, params.items())?;
            Ok(Some(one))
        }
        Part::Family(_) | Part::Function(_, _) | Part::Global(_) => Ok(None),
    }
}

/// The global that a declaration declares, if it declares one.
#[tactic(auto, unfolding(crate::specs::Resolved::global_of))]
fn global_of(
    alloc: Global,
    space: &Space<'_>,
    declared: &ListedDeclaration<'_>,
) -> Result<Option<ScriptGlobal>, AllocError>
    ensures exact { IfOk result (λ g. g ≡ spec.global_of space.now declared.now) }
{
    match &declared.part {
        Part::Global(ty) => Ok(Some(global_with(alloc, space, declared, ty)?)),
        Part::Family(_) | Part::Function(_, _) | Part::Import(_, _) => Ok(None),
    }
}

fn functions_in(
    alloc: Global,
    space: &Space<'_>,
    all: &[ListedDeclaration<'_>],
) -> Result<List<ScriptFunction>, AllocError>
    ensures exact { IfOk result (λ fs. fs ≡ filter_map (spec.function_of space.now) all.now) }
{
    let mut functions = Vec::new(alloc);
    for declared in all {
        if let Some(function) = function_of(alloc, space, declared)? {
            functions.push(function)?;
        }
    }
    Ok(List::from_vec(functions))
}

fn imports_in(
    alloc: Global,
    space: &Space<'_>,
    all: &[ListedDeclaration<'_>],
) -> Result<List<ScriptFunction>, AllocError>
    ensures exact { IfOk result (λ fs. fs ≡ filter_map (spec.imported_of space.now) all.now) }
{
    let mut imports = Vec::new(alloc);
    for declared in all {
        if let Some(import) = imported_of(alloc, space, declared)? {
            imports.push(import)?;
        }
    }
    Ok(List::from_vec(imports))
}

fn globals_in(
    alloc: Global,
    space: &Space<'_>,
    all: &[ListedDeclaration<'_>],
) -> Result<List<ScriptGlobal>, AllocError>
    ensures exact { IfOk result (λ gs. gs ≡ filter_map (spec.global_of space.now) all.now) }
{
    let mut globals = Vec::new(alloc);
    for declared in all {
        if let Some(global) = global_of(alloc, space, declared)? {
            globals.push(global)?;
        }
    }
    Ok(List::from_vec(globals))
}

/// All names that are declared.
fn declared_names(
    alloc: Global,
    all: &[ListedDeclaration<'_>],
) -> Result<List<List<u8>>, AllocError>
    ensures exact { IfOk result (λ names. names ≡ list_map declared_name all.now) }
{
    let mut names = Vec::new(alloc);
    for declared in all {
        let name = copy_at(alloc, declared.text.bytes(), &declared.name)?;
        names.push(name)?;
    }
    Ok(List::from_vec(names))
}

/// How many functions are declared.
#[tactic(auto, using(crate::proofs::MemberCounts::functions_counted))]
fn function_count(all: &[ListedDeclaration<'_>]) -> usize
    ensures exact { (E : spaces.Space) → result ≡ length (spec.functions_in E all.now) }
{
    all.iter().filter(|d| declares_function(&d.part)).count()
}

/// The classes and interfaces of the declarations, by their tables.
#[tactic(auto, unfolding(crate::specs::Resolved::families_in))]
fn families_by(
    alloc: Global,
    space: &Space<'_>,
    all: &[ListedDeclaration<'_>],
    declaring: &[Declaring<'_, '_>],
    known: &Tables,
) -> Result<List<Family>, AllocError>
    requires few { length (listed.families_of all.now) ≤ 256 }
    requires declaring { declaring.now ≡ listed.families_of all.now }
    requires known { tables.AreTables space.now (listed.families_of all.now) known.now }
    ensures exact { IfOk result (λ families. families ≡ spec.families_in space.now all.now) }
{
    let mut bodies = Vec::new(alloc);
    add_bytes(function_count(all), &mut bodies)?;
    families_in(alloc, space, declaring, known, &mut bodies)
}

/// The classes and interfaces of the declarations, with what stands above each; and the tables of that.
///
/// The only error is want of memory.
pub fn families_among(
    alloc: Global,
    space: &Space<'_>,
    all: &[ListedDeclaration<'_>],
) -> Result<(List<Family>, Tables), AllocError>
    requires few { length (listed.families_of all.now) ≤ 256 }
    ensures families { IfOk result (λ found. found.0 ≡ spec.families_in space.now all.now) }
    ensures tables { IfOk result
        (λ found. tables.AreTables space.now (listed.families_of all.now) found.1) }
{
    let declaring = families_of(alloc, all)?;
    let tables = tables_of(alloc, space, declaring.as_slice())?;
    match families_by(alloc, space, all, declaring.as_slice(), &tables) {
        Ok(families) => Ok((families, tables)),
        Err(error) => {
            drop(tables);
            Err(error)
        }
    }
}

/// The same without the tables.
///
/// The only error is want of memory.
fn families_alone(
    alloc: Global,
    space: &Space<'_>,
    all: &[ListedDeclaration<'_>],
) -> Result<List<Family>, AllocError>
    requires few { length (listed.families_of all.now) ≤ 256 }
    ensures exact { IfOk result (λ families. families ≡ spec.families_in space.now all.now) }
{
    let (families, tables) = families_among(alloc, space, all)?;
    drop(tables);
    Ok(families)
}

/// The lists of all names.
///
/// The only error is want of memory.
fn lists_of(
    alloc: Global,
    space: &Space<'_>,
    all: &[ListedDeclaration<'_>],
) -> Result<NameLists, AllocError>
    requires few { length (listed.families_of all.now) ≤ 256 }
    ensures declared { IfOk result (λ n. n.declared ≡ list_map declared_name all.now) }
    ensures families { IfOk result (λ n. n.families ≡ spec.families_in space.now all.now) }
    ensures functions { IfOk result (λ n. n.functions ≡ spec.functions_in space.now all.now) }
    ensures imports { IfOk result
        (λ n. n.imports ≡ filter_map (spec.imported_of space.now) all.now) }
    ensures globals { IfOk result
        (λ n. n.globals ≡ filter_map (spec.global_of space.now) all.now) }
{
    let declared = declared_names(alloc, all)?;
    let families = families_alone(alloc, space, all)?;
    let functions = functions_in(alloc, space, all)?;
    let imports = imports_in(alloc, space, all)?;
    let globals = globals_in(alloc, space, all)?;
    Ok(NameLists {
        declared,
        families,
        functions,
        imports,
        globals,
    })
}

/// All names of the declarations, each kind in order.
///
/// The only error is want of memory.
#[tactic(auto, unfolding(crate::specs::Resolved::names_of))]
pub fn names_of<'a>(
    alloc: Global,
    view: &'a View,
    all: &[ListedDeclaration<'a>],
) -> Result<Names, AllocError>
    requires few { length (listed.families_of all.now) ≤ 256 }
    ensures exact { IfOk result (λ names. names ≡ spec.names_of view.now all.now) }
{
    let space = space_of(alloc, view, all)?;
    let lists = lists_of(alloc, &space, all)?;
    Names::new(alloc, lists)
}
