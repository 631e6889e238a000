//! Generates the machine's instructions: the code of a module's bodies does what the module means
//! (docs/CLAIMS.md, "What a script means" and "Code").
//!
//! What runs read of the resolved tree is kept beside it (`KeptTree`).
//!
//! `specs/` has the code of a body and of a module, and what it means that code does what bodies do;
//! `laws` says that it does, and that a module's code behaves as its source.
#![tactic(auto)]

ghost use Rattle.std.specs.Prelude.{◌≡◌, IfOk, [], map as list_map};
ghost use Rattle.ang_typed.specs.View.{view_typed};
ghost use Rattle.ang_view.specs.Registration.{RegistrationList};
ghost use Rattle.ang_source.specs.Sound.{SoundProgram};
ghost use Rattle.ang_source.specs.Meaning.{passings_in, results_in};
ghost use Rattle.ang_gen.specs.Behaves.{MeansProgram};
ghost use Rattle.ang_gen.specs.Compiled.{IsCompiled};

use ang_typed::Typed;
use code::code_of;
use lowered::{LoweredTree, without_bodies};
use std::alloc::{AllocError, Global};

pub mod body_laws;
mod code;
mod expression;
mod height;
mod kept;
pub mod laws;
mod lowered;
mod marks;
mod module_code;
mod room;
mod statement;
mod text;
mod tree_record;

pub use code::Code;
pub use kept::KeptTree;
pub use module_code::generate_module;

/// Generates the code of a module: of its functions and then of its initializers, each in the order of
/// declaration. The tree has to be sound over some view of the host, as that of a checked module is. The code
/// means what the tree means: each run of it ends as its source does.
///
/// # Errors
/// Want of memory.
pub fn generate(alloc: Global, program: &Typed) -> Result<Code, AllocError>
    requires sound { (V : RegistrationList) × SoundProgram V (view_typed program.now) }
    ensures means { IfOk result (λ code. MeansProgram (view_typed program.now) code) }
    ensures code { IfOk result (λ code. IsCompiled (view_typed program.now) code) }
    ensures params { IfOk result (λ code. list_map (λ c. c.params.items) code
        ≡ passings_in (view_typed program.now)) }
    ensures results { IfOk result (λ code. list_map (λ c. c.result) code
        ≡ results_in (view_typed program.now)) }
{
    let lowered = LoweredTree::of(alloc, program)?;
    generate_lowered(alloc, lowered)
}

/// The same code, of a tree that was lowered before. The only error is want of memory.
fn generate_lowered(alloc: Global, program: LoweredTree) -> Result<Code, AllocError>
    requires sound { (V : RegistrationList) × SoundProgram V (view_typed program) }
    ensures means { IfOk result (λ code. MeansProgram (view_typed program) code) }
    ensures code { IfOk result (λ code. IsCompiled (view_typed program) code) }
    ensures params { IfOk result (λ code. list_map (λ c. c.params.items) code
        ≡ passings_in (view_typed program)) }
    ensures results { IfOk result (λ code. list_map (λ c. c.result) code
        ≡ results_in (view_typed program)) }
{
    let bodies = program.into_bodies();
    let codes = generate_module(alloc, bodies)?;
    Ok(code_of(codes))
}

/// The same code, and the tree without its bodies and globals: they are let go before there is any code, so that less
/// memory is taken at once.
///
/// # Errors
/// Want of memory.
pub fn generate_dropping_bodies(alloc: Global, tree: Typed) -> Result<(Code, Typed), AllocError>
    requires sound { (V : RegistrationList) × SoundProgram V (view_typed tree) }
    ensures means { IfOk result (λ made. MeansProgram (view_typed tree) made.0) }
    ensures code { IfOk result (λ made. IsCompiled (view_typed tree) made.0) }
    ensures params { IfOk result (λ made. list_map (λ c. c.params.items) made.0
        ≡ passings_in (view_typed tree)) }
    ensures results { IfOk result (λ made. list_map (λ c. c.result) made.0
        ≡ results_in (view_typed tree)) }
    ensures functions_let_go { IfOk result (λ made. made.1.functions ≡ []) }
    ensures globals_let_go { IfOk result (λ made. made.1.globals ≡ []) }
    ensures classes { IfOk result (λ made. made.1.classes ≡ tree.classes) }
    ensures methods { IfOk result (λ made. made.1.methods ≡ tree.methods) }
    ensures imports { IfOk result (λ made. made.1.imports ≡ tree.imports) }
{
    let lowered = match LoweredTree::of(alloc, &tree) {
        Ok(lowered) => lowered,
        Err(error) => {
            drop(tree);
            return Err(error);
        }
    };
    let rest = without_bodies(alloc, tree);
    match generate_lowered(alloc, lowered) {
        Ok(code) => Ok((code, rest)),
        Err(error) => {
            drop(rest);
            Err(error)
        }
    }
}
