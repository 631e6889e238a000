//! Modules written by hand, and the table that they make.
use crate::classes::CLASSES;
use crate::entities::entities;
use crate::handles::{EXPORTER, HANDLES};
use crate::numbers::NUMBERS;
use ang_code::{Instruction, RoutineCode};
use ang_kinds::{List, Prim};
use ang_meaning::{Class, Passing, Routine, Slot, ValueKind};
use ang_vm_stack::body::LoadedBody;
use ang_vm_stack::methods::{MethodEntry, Methods};
use ang_vm_stack::table::{ClassCode, LinkedImport, ModuleCode, Table};
use std::alloc::{AllocError, Global};

/// A body: its parameters, the last one first, the most values that it has above them, and its text.
pub type Text = (&'static [Passing], usize, &'static [Instruction]);

/// A class: its rank, its fields, the classes that it is or stands under, and its methods, each with its slot.
pub type ClassRow = (
    usize,
    &'static [ValueKind],
    &'static [usize],
    &'static [(usize, usize)],
);

/// An import: its parameters, the last one first, and where it leads.
pub type ImportRow = (&'static [Passing], Option<Routine>);

/// A module.
#[derive(Clone, Copy)]
pub struct Module {
    /// Its name, which is one letter.
    pub name: u8,
    /// The primitive type of each body's value, if it is of one.
    pub result: Option<Prim>,
    /// Its bodies, by number.
    pub texts: &'static [Text],
    /// Its imports, by number.
    pub imports: &'static [ImportRow],
    /// Its classes, by number.
    pub classes: &'static [ClassRow],
    /// The parameters of the methods in each slot, the last one first.
    pub slots: &'static [&'static [Passing]],
    /// What its globals hold at first.
    pub globals: &'static [Slot],
}

/// A module without anything, for the rest of one that has something: the value of its bodies is a `uint64`.
pub const BLANK: Module = Module {
    name: b'-',
    result: Some(Prim::U64),
    texts: &[],
    imports: &[],
    classes: &[],
    slots: &[],
    globals: &[],
};

/// The modules, by number.
const MODULES: &[Module] = &[NUMBERS, HANDLES, EXPORTER, CLASSES];

/// One item more.
pub fn put<T: Drop>(items: &mut Vec<T>, item: T) -> Result<(), AllocError> {
    Ok(items.push(item)?)
}

fn body(alloc: Global, ty: Option<Prim>, text: &Text) -> Result<LoadedBody, AllocError> {
    let code = RoutineCode {
        params: text.0.to_vec(alloc)?,
        result: ty,
        height: text.1,
        text: text.2.to_vec(alloc)?,
        marks: Vec::new(alloc),
    };
    LoadedBody::new(alloc, code)
}

fn bodies(alloc: Global, written: &Module) -> Result<Vec<LoadedBody>, AllocError> {
    let mut bodies = Vec::new(alloc);
    for text in written.texts {
        put(&mut bodies, body(alloc, written.result, text)?)?;
    }
    Ok(bodies)
}

fn imports(alloc: Global, rows: &[ImportRow]) -> Result<Vec<LinkedImport>, AllocError> {
    let mut imports = Vec::new(alloc);
    for (params, bound) in rows {
        let import = LinkedImport {
            params: Vec::from_slice(alloc, params)?,
            bound: *bound,
        };
        put(&mut imports, import)?;
    }
    Ok(imports)
}

fn methods(alloc: Global, home: u32, rows: &[(usize, usize)]) -> Result<Methods, AllocError> {
    let mut methods = Vec::new(alloc);
    for (slot, number) in rows {
        methods.push(MethodEntry {
            slot: *slot,
            function: Routine {
                home,
                number: *number,
            },
        })?;
    }
    Methods::new(methods)
}

fn class(alloc: Global, number: usize, row: &ClassRow) -> Result<Class, AllocError> {
    Ok(Class {
        number,
        rank: row.0,
        fields: List::from_vec(Vec::from_slice(alloc, row.1)?),
        under: List::from_vec(Vec::from_slice(alloc, row.2)?),
    })
}

fn classes(alloc: Global, home: u32, rows: &[ClassRow]) -> Result<Vec<ClassCode>, AllocError> {
    let mut classes = Vec::new(alloc);
    for (number, row) in rows.iter().enumerate() {
        let class = class(alloc, number, row)?;
        let methods = methods(alloc, home, row.3)?;
        put(&mut classes, ClassCode { class, methods })?;
    }
    Ok(classes)
}

fn slots(alloc: Global, rows: &[&[Passing]]) -> Result<Vec<Vec<Passing>>, AllocError> {
    let mut slots = Vec::new(alloc);
    for params in rows {
        put(&mut slots, Vec::from_slice(alloc, params)?)?;
    }
    Ok(slots)
}

/// The code of a module.
fn module_code(alloc: Global, home: u32, written: &Module) -> Result<ModuleCode, AllocError> {
    Ok(ModuleCode {
        name: vec![in alloc; written.name; 1]?,
        bodies: bodies(alloc, written)?,
        imports: imports(alloc, written.imports)?,
        entities: entities(alloc)?,
        classes: classes(alloc, home, written.classes)?,
        slots: slots(alloc, written.slots)?,
    })
}

/// The table of these modules, each of which sees all entities.
pub fn table_of(alloc: Global, written: &[Module]) -> Result<Table, AllocError> {
    let mut modules = Vec::new(alloc);
    let mut home: u32 = 0;
    for module in written {
        put(&mut modules, module_code(alloc, home, module)?)?;
        home = home.wrapping_add(1);
    }
    Ok(Table { modules })
}

/// The table of all modules.
pub fn table(alloc: Global) -> Result<Table, AllocError> {
    table_of(alloc, MODULES)
}

/// What the globals of all modules hold at first.
pub fn first_globals(alloc: Global) -> Result<Vec<Box<Vec<Slot>>>, AllocError> {
    let mut globals = Vec::new(alloc);
    for written in MODULES {
        put(
            &mut globals,
            Box::new(alloc, Vec::from_slice(alloc, written.globals)?)?,
        )?;
    }
    Ok(globals)
}
