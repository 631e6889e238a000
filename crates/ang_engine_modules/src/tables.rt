//! The code of a module as the machine's table has it.
ghost use Rattle.std.specs.Prelude.{◌≡◌, ◌<◌, ◌^◌, [], None, IfOk, length, map as list_map};
ghost use Rattle.ang_engine_modules.specs.Loaded as spec;
ghost use Rattle.ang_engine_modules.specs.Trees.{headings_in, classes_from};

use crate::classes::classes_of;
use crate::entities::uses_of;
use ang_code::RoutineCode;
use ang_gen::Code;
use ang_lower::passings;
use ang_meaning::Passing;
use ang_typed::{Heading, Typed};
use ang_view::View;
use ang_vm_stack::body::LoadedBody;
use ang_vm_stack::table::{LinkedImport, ModuleCode};
use std::alloc::{AllocError, Global};

/// The code of bodies, each with its steps.
///
/// # Errors
/// Want of memory.
fn bodies_of(alloc: Global, codes: Vec<RoutineCode>) -> Result<Vec<LoadedBody>, AllocError>
    ensures same { IfOk result (λ bodies. bodies.items ≡ codes.items) }
{
    let mut bodies = Vec::with_capacity(alloc, codes.len())?;
    for code in codes {
        bodies.push(LoadedBody::new(alloc, code)?)?;
    }
    Ok(bodies)
}

/// The code of a place that no module has. It takes no memory.
pub fn no_code(alloc: Global) -> ModuleCode
    ensures name { result.name.items ≡ [] }
    ensures bodies { result.bodies.items ≡ [] }
    ensures imports { result.imports.items ≡ [] }
    ensures entities { result.entities.items ≡ [] }
    ensures classes { result.classes.items ≡ [] }
    ensures slots { result.slots.items ≡ [] }
{
    ModuleCode {
        name: Vec::new(alloc),
        bodies: Vec::new(alloc),
        imports: Vec::new(alloc),
        entities: Vec::new(alloc),
        classes: Vec::new(alloc),
        slots: Vec::new(alloc),
    }
}

/// How functions of these headings take their arguments, in order.
///
/// # Errors
/// Want of memory.
fn slots_of(alloc: Global, headings: &[Heading]) -> Result<Vec<Vec<Passing>>, AllocError>
    ensures exact { IfOk result
        (λ slots. list_map (λ y. y.items) slots.items ≡ headings_in headings.now) }
{
    let mut slots = Vec::with_capacity(alloc, headings.len())?;
    for heading in headings {
        slots.push(passings(alloc, heading.parameters.as_slice())?)?;
    }
    Ok(slots)
}

/// Imports that are bound to nothing yet.
///
/// # Errors
/// Want of memory.
fn imports_of(alloc: Global, headings: &[Heading]) -> Result<Vec<LinkedImport>, AllocError>
    ensures params { IfOk result
        (λ imports. list_map (λ y. y.params.items) imports.items ≡ headings_in headings.now) }
    ensures bound { IfOk result
        (λ imports. list_map (λ y. y.bound) imports.items ≡ list_map (λ h. None) headings.now) }
{
    let mut imports = Vec::with_capacity(alloc, headings.len())?;
    for heading in headings {
        let params = passings(alloc, heading.parameters.as_slice())?;
        imports.push(LinkedImport {
            params,
            bound: None,
        })?;
    }
    Ok(imports)
}

/// A module's code in the place `home` of the table: its bodies, the entities of its view, and what
/// its tree declares. The tree's own bodies are given up first.
///
/// # Errors
/// Want of memory.
pub fn code_of(
    alloc: Global,
    home: u32,
    name: &[u8],
    view: &View,
    tree: Typed,
    code: Code,
) -> Result<ModuleCode, AllocError>
    ensures name { IfOk result (λ m. m.name.items ≡ name.now) }
    ensures bodies { IfOk result (λ m. m.bodies.items ≡ code) }
    ensures imports { IfOk result
        (λ m. list_map (λ y. y.params.items) m.imports.items ≡ headings_in tree.imports) }
    ensures bound { IfOk result
        (λ m. list_map (λ y. y.bound) m.imports.items ≡ list_map (λ h. None) tree.imports) }
    ensures entities { IfOk result (λ m. m.entities.items ≡ spec.uses_of view.now) }
    ensures classes { IfOk result (λ m. list_map spec.class_of m.classes.items
        ≡ classes_from home tree.classes 0 tree.classes) }
    ensures slots { IfOk result
        (λ m. list_map (λ y. y.items) m.slots.items ≡ headings_in tree.methods) }
{
    let Typed {
        functions,
        globals,
        classes,
        methods,
        imports,
    } = tree;
    drop(functions);
    drop(globals);
    let codes = code.into_bodies();
    let name = Vec::from_slice(alloc, name)?;
    let entities = uses_of(alloc, view)?;
    let imports = imports_of(alloc, imports.as_slice())?;
    let classes = classes_of(alloc, home, classes.into_vec())?;
    let slots = slots_of(alloc, methods.as_slice())?;
    let bodies = bodies_of(alloc, codes)?;
    Ok(ModuleCode {
        name,
        bodies,
        imports,
        entities,
        classes,
        slots,
    })
}
