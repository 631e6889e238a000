//! The code of a module.
ghost use Rattle.std.specs.Prelude.{◌≡◌};
ghost use Rattle.ang_gen.specs.Compiled.{IsWellFormed};

use ang_code::RoutineCode;
use std::marker::Model;

/// The code of a module: that of each of its bodies, by the body's number. `generate` alone makes it, and it is
/// well formed: no run of it is lost, whatever other well-formed code it calls ([`crate::laws::no_run_is_lost`]).
/// Contracts see the list.
#[derive(Drop)]
pub struct Code {
    bodies: Vec<RoutineCode>,
}

impl Model for Code {
    ghost use Rattle.std.specs.Prelude.{List};
    ghost use Rattle.ang_code.specs.declared.instruction.RoutineCode.{RoutineCode};
    ghost use Rattle.ang_gen.specs.Compiled.{IsWellFormed};

    ghost Value = { List RoutineCode };

    ghost view = { λ c. c.bodies.items };

    ghost invariant = { λ c. IsWellFormed c.bodies.items };
}

/// Code of these bodies, which are well formed.
pub(crate) fn code_of(bodies: Vec<RoutineCode>) -> Code
    requires well_formed { IsWellFormed bodies.items }
    ensures same { result ≡ bodies.items }
{
    Code { bodies }
}

impl Code {
    /// The code of each body, by its number. It takes no memory.
    pub fn into_bodies(self) -> Vec<RoutineCode>
        ensures same { result.items ≡ self }
        ensures well_formed { IsWellFormed self }
    {
        self.bodies
    }
}
