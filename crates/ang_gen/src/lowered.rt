//! The bodies of a module between its resolved tree and its code.
ghost use Rattle.std.specs.Prelude.{◌≡◌, IfOk, []};
ghost use Rattle.ang_typed.specs.View.{view_typed};

use crate::tree_record::TreeRecord;
use ang_core::CoreBody;
use ang_kinds::List;
use ang_lower::lower;
use ang_typed::Typed;
use std::alloc::{AllocError, Global};
use std::marker::Model;

/// What a module's code is made of: the bodies of its resolved tree, lowered. The tree's own may be let go before there is
/// any code. Contracts see the tree.
#[derive(Drop)]
pub struct LoweredTree {
    /// The tree, for clauses.
    record: TreeRecord,
    bodies: Vec<CoreBody>,
}

impl Model for LoweredTree {
    ghost use Rattle.std.specs.Prelude.{◌≡◌, map as list_map};
    ghost use Rattle.ang_typed.specs.declared.program.Typed.{Typed};
    ghost use Rattle.ang_typed.specs.contracts.program.Typed as typed;
    ghost use Rattle.ang_typed.specs.View.{view_typed};
    ghost use Rattle.ang_lower.specs.Plain.{plain_body};
    ghost use Rattle.ang_lower.specs.Lowered.{lowered_module};
    ghost use Rattle.ang_lower.specs.Positions.{listed, of_module};

    ghost Value = { Typed };

    ghost coded = { typed.the_row.coded };

    ghost view = { λ l. l.record.tree };

    ghost invariant = { λ l.
        (list_map plain_body l.bodies.items ≡ lowered_module (view_typed l.record.tree))
        × (listed l.bodies.items ≡ of_module (view_typed l.record.tree)) };
}

impl LoweredTree {
    ghost use Rattle.std.specs.Prelude.{map as list_map};
    ghost use Rattle.ang_lower.specs.Plain.{plain_body};
    ghost use Rattle.ang_lower.specs.Lowered.{lowered_module};
    ghost use Rattle.ang_lower.specs.Positions.{listed, of_module};

    /// The bodies of a tree, lowered.
    ///
    /// # Errors
    /// Want of memory.
    pub fn of(alloc: Global, tree: &Typed) -> Result<LoweredTree, AllocError>
        ensures same { IfOk result (λ lowered. lowered ≡ tree.now) }
    {
        let bodies = lower(alloc, tree)?;
        Ok(LoweredTree {
            record: TreeRecord::of(tree),
            bodies,
        })
    }

    /// The bodies: the functions', and then the initializers', each in the order of declaration. It takes no memory.
    pub fn into_bodies(self) -> Vec<CoreBody>
        ensures lowered { list_map plain_body result.items ≡ lowered_module (view_typed self) }
        ensures positions { listed result.items ≡ of_module (view_typed self) }
    {
        self.bodies
    }
}

/// The same tree without bodies and globals, which are let go.
pub fn without_bodies(alloc: Global, tree: Typed) -> Typed
    ensures functions_let_go { result.functions ≡ [] }
    ensures globals_let_go { result.globals ≡ [] }
    ensures classes { result.classes ≡ tree.classes }
    ensures methods { result.methods ≡ tree.methods }
    ensures imports { result.imports ≡ tree.imports }
{
    let Typed {
        functions,
        globals,
        classes,
        methods,
        imports,
    } = tree;
    drop(functions);
    drop(globals);
    Typed {
        functions: List::from_vec(Vec::new(alloc)),
        globals: List::from_vec(Vec::new(alloc)),
        classes,
        methods,
        imports,
    }
}
