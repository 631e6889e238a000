//! The code of all modules, and what else stays the same while a script runs.
ghost use Rattle.std.specs.Prelude.{◌≡◌, Some, None, MatchOption, IfSome};
ghost use Rattle.ang_vm_stack.specs.Tables as spec;

use crate::body::LoadedBody;
use crate::methods::Methods;
use ang_kinds::EntityNo;
use ang_meaning::{Class, HostUse, Passing, Routine};

/// An imported function.
#[derive(Drop)]
pub struct LinkedImport {
    /// How each parameter takes its argument, as the module declares the import, the last one first.
    pub params: Vec<Passing>,
    /// The function that it is bound to, if any.
    pub bound: Option<Routine>,
}

/// What running code has to know of one class.
#[derive(Drop)]
pub struct ClassCode {
    /// What its objects are made of, and what it stands under. Its number is its place in its module.
    pub class: Class,
    /// Its methods, its own and the inherited ones.
    pub methods: Methods,
}

/// What running code has to know of one module.
#[derive(Drop)]
pub struct ModuleCode {
    /// The module's name, as events list it.
    pub name: Vec<u8>,
    /// The code of its functions and initializers, by number, with its steps.
    pub bodies: Vec<LoadedBody>,
    /// Its imports, by number.
    pub imports: Vec<LinkedImport>,
    /// The registered entities, by number, each where the module sees it.
    pub entities: Vec<Option<HostUse>>,
    /// Its classes, by number.
    pub classes: Vec<ClassCode>,
    /// By slot, how the parameters of its methods take their arguments, the last one first, and so the
    /// receiver last.
    pub slots: Vec<Vec<Passing>>,
}

/// The code of all modules, by number.
#[derive(Drop)]
pub struct Table {
    /// The modules.
    pub modules: Vec<ModuleCode>,
}

/// The name of a module, as events list it; empty where there is no such module.
pub fn name_at(table: &Table, home: u32) -> &[u8]
    ensures exact { result.now ≡ spec.name_of table.now home }
{
    match table.modules.get(home as usize) {
        Some(module) => &module.name,
        None => &[],
    }
}

/// The code of a body, where there is such a body.
#[inline(always)]
pub fn body_at(table: &Table, body: Routine) -> Option<&LoadedBody>
    ensures exact { MatchOption result (spec.body_of table.now body ≡ None)
        (λ code. spec.body_of table.now body ≡ Some code.now) }
{
    let module = table.modules.get(body.home as usize)?;
    module.bodies.get(body.number)
}

/// An import of a module, where there is one.
#[inline(always)]
pub fn import_at(table: &Table, home: u32, number: usize) -> Option<&LinkedImport>
    ensures exact { MatchOption result (spec.import_of table.now home number ≡ None)
        (λ import. spec.import_of table.now home number ≡ Some import.now) }
{
    let module = table.modules.get(home as usize)?;
    module.imports.get(number)
}

/// The function that an import of a module is bound to, where there is such an import and it is bound.
#[inline(always)]
pub fn linked_at(table: &Table, home: u32, number: usize) -> Option<Routine>
    ensures exact { result ≡ spec.linked_of table.now home number }
{
    import_at(table, home, number)?.bound
}

/// A registered entity, where the module sees it.
#[inline(always)]
pub fn entity_at(table: &Table, home: u32, entity: EntityNo) -> Option<&HostUse>
    ensures exact { MatchOption result (spec.entity_of table.now home entity.0 ≡ None)
        (λ host. spec.entity_of table.now home entity.0 ≡ Some host.now) }
{
    let module = table.modules.get(home as usize)?;
    match module.entities.get(entity.0 as usize)? {
        Some(host) => Some(host),
        None => None,
    }
}

/// A class of a module, where there is one of this number.
#[inline(always)]
pub fn class_at(table: &Table, home: u32, number: usize) -> Option<&Class>
    ensures exact { MatchOption result (spec.class_of table.now home number ≡ None)
        (λ class. spec.class_of table.now home number ≡ Some class.now) }
    ensures numbered { IfSome result (λ class. class.now.number ≡ number) }
{
    let code = class_code_at(table, home, number)?;
    if code.class.number != number {
        return None;
    }
    Some(&code.class)
}

/// What stands in the place of a class, where there is such a place.
#[inline(always)]
fn class_code_at(table: &Table, home: u32, number: usize) -> Option<&ClassCode>
    ensures exact { MatchOption result (spec.class_code_of table.now home number ≡ None)
        (λ code. spec.class_code_of table.now home number ≡ Some code.now) }
{
    let module = table.modules.get(home as usize)?;
    module.classes.get(number)
}

/// The method that a class has in a slot, its own or an inherited one, where it has one.
pub fn method_at(table: &Table, home: u32, class: usize, slot: usize) -> Option<Routine>
    ensures exact { result ≡ spec.method_of table.now home class slot }
{
    let code = class_code_at(table, home, class)?;
    code.methods.find(slot)
}

/// How the parameters of the methods in a slot take their arguments, the last one first, and so the
/// receiver last, where there is such a slot.
#[inline(always)]
pub fn slot_at(table: &Table, home: u32, slot: usize) -> Option<&[Passing]>
    ensures exact { MatchOption result (spec.slot_of table.now home slot ≡ None)
        (λ params. spec.slot_of table.now home slot ≡ Some params.now) }
{
    let module = table.modules.get(home as usize)?;
    let params = module.slots.get(slot)?;
    Some(params.as_slice())
}
