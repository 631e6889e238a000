//! What is kept of a module's resolved tree when its code is made.
ghost use Rattle.std.specs.Prelude.{◌≡◌, ◌++◌, IfOk, OnOk, length, map as list_map};
ghost use Rattle.ang_gen.specs.Initialized.{numbered, initialized_from};

use crate::tree_record::TreeRecord;
use ang_typed as tree;
use ang_typed::Global as GlobalVariable;
use ang_types::ArgType;
use std::alloc::{AllocError, Global};
use std::marker::Model;

/// What runs read of a module's resolved tree. Contracts see the tree.
#[derive(Drop)]
pub struct KeptTree {
    /// The tree, for clauses.
    record: TreeRecord,
    /// The types of its globals, the numbers of those that have initializers, and how many functions it has.
    globals: Vec<ArgType>,
    initialized: Vec<usize>,
    functions: usize,
}

impl Model for KeptTree {
    ghost use Rattle.std.specs.Prelude.{◌≡◌, length, map as list_map};
    ghost use Rattle.ang_typed.specs.declared.program.Typed.{Typed};
    ghost use Rattle.ang_typed.specs.contracts.program.Typed as typed;
    ghost use Rattle.ang_gen.specs.Initialized.{initialized_from};

    ghost Value = { Typed };

    ghost coded = { typed.the_row.coded };

    ghost view = { λ k. k.record.tree };

    ghost invariant = { λ k. (k.globals.items ≡ list_map (λ g. g.ty) k.record.tree.globals)
        × (k.initialized.items ≡ initialized_from 0 k.record.tree.globals)
        × (k.functions ≡ length k.record.tree.functions) };
}

/// The types of globals.
///
/// # Errors
/// Want of memory.
fn types_of(alloc: Global, globals: &[GlobalVariable]) -> Result<Vec<ArgType>, AllocError>
    ensures exact { IfOk result (λ types. types.items ≡ list_map (λ g. g.ty) globals.now) }
{
    let mut types = Vec::with_capacity(alloc, globals.len())?;
    for global in globals {
        types.push(global.ty)?;
    }
    Ok(types)
}

/// The number of a global, where it has an initializer, at the end of some.
///
/// # Errors
/// Want of memory.
fn add_number(
    numbers: &mut Vec<usize>,
    number: usize,
    global: &GlobalVariable,
) -> Result<(), AllocError>
    ensures added { OnOk result (numbers.new.items
        ≡ numbers.old.items ++ numbered number global.now.initializer) }
{
    match &global.initializer {
        Some(_) => {
            numbers.push(number)?;
            Ok(())
        }
        None => Ok(()),
    }
}

/// The numbers of the globals that have initializers.
///
/// # Errors
/// Want of memory.
fn initialized_of(alloc: Global, globals: &[GlobalVariable]) -> Result<Vec<usize>, AllocError>
    ensures exact { IfOk result (λ numbers. numbers.items ≡ initialized_from 0 globals.now) }
{
    let mut numbers = Vec::new(alloc);
    for (number, global) in globals.iter().enumerate() {
        add_number(&mut numbers, number, global)?;
    }
    Ok(numbers)
}

impl KeptTree {
    /// What is kept of this tree.
    ///
    /// # Errors
    /// Want of memory.
    pub fn of(alloc: Global, tree: &tree::Typed) -> Result<KeptTree, AllocError>
        ensures same { IfOk result (λ kept. kept ≡ tree.now) }
    {
        let globals = types_of(alloc, tree.globals.as_slice())?;
        let initialized = initialized_of(alloc, tree.globals.as_slice())?;
        Ok(KeptTree {
            record: TreeRecord::of(tree),
            globals,
            initialized,
            functions: tree.functions.as_slice().len(),
        })
    }

    /// The types of the global variables, in order.
    pub fn globals(&self) -> &[ArgType]
        ensures exact { result.now ≡ list_map (λ g. g.ty) self.now.globals }
    {
        self.globals.as_slice()
    }

    /// The numbers of the global variables that have initializers, in order: one for each initializer's body.
    pub fn initialized(&self) -> &[usize]
        ensures exact { result.now ≡ initialized_from 0 self.now.globals }
    {
        self.initialized.as_slice()
    }

    /// How many functions there are.
    pub fn function_count(&self) -> usize
        ensures exact { result ≡ length self.now.functions }
    {
        self.functions
    }
}
