//! The functions of scripts, with the numbers of the kinds of their parameters.
ghost use Rattle.std.specs.Prelude.{◌≡◌, ℕ, option_map, slice_get};
ghost use Rattle.ang_names_known.specs.Kinds.{Says};
ghost use Rattle.ang_names_known.specs.Lookup.{parameters_of};

use crate::names::ScriptFunction;
use crate::numbering::ParameterKinds;
use ang_kinds::Pass;
use ang_types::ArgType;
use std::marker::Model;

/// The functions and imports of scripts, and for each the numbers of its parameters' kinds.
#[derive(Drop)]
pub struct KnownFunctions<'a> {
    functions: &'a [ScriptFunction],
    imports: &'a [ScriptFunction],
    numbering: &'a ParameterKinds,
}

impl<'a> Model for KnownFunctions<'a> {
    ghost use Rattle.ang_names_known.specs.Known as spec;

    ghost Value = { spec.KnownFunctions };

    ghost view = { λ k. record {
      functions = k.functions.now;
      imports = k.imports.now;
      kinds = k.numbering.now.kinds.items;
    } };

    ghost invariant = { λ k. spec.AreNumbered k.functions.now k.imports.now k.numbering.now };
}

impl<'a> KnownFunctions<'a> {
    ghost use Rattle.ang_names_known.specs.Known as spec;

    /// These, with their numbers. It takes no memory.
    pub(crate) fn new(
        functions: &'a [ScriptFunction],
        imports: &'a [ScriptFunction],
        numbering: &'a ParameterKinds,
    ) -> KnownFunctions<'a>
        requires numbered { spec.AreNumbered functions.now imports.now numbering.now }
        ensures functions { result.functions ≡ functions.now }
        ensures imports { result.imports ≡ imports.now }
    {
        KnownFunctions {
            functions,
            imports,
            numbering,
        }
    }

    /// The kinds, in the order of their numbers.
    pub fn kinds(&self) -> &'a [(ArgType, Pass)]
        ensures same { result.now ≡ self.now.kinds }
    {
        self.numbering.kinds.as_slice()
    }

    /// The numbers of the kinds of a function's parameters. It takes no memory.
    #[inline(always)]
    pub fn of_function(&self, number: usize) -> Option<&[u32]>
        ensures says { (t : ℕ) → Says t self.now.kinds (option_map (λ row. row.now) result)
            (option_map parameters_of (slice_get self.now.functions number)) }
    {
        self.numbering.functions.row(number)
    }

    /// The numbers of the kinds of an import's parameters. It takes no memory.
    #[inline(always)]
    pub fn of_import(&self, number: usize) -> Option<&[u32]>
        ensures says { (t : ℕ) → Says t self.now.kinds (option_map (λ row. row.now) result)
            (option_map parameters_of (slice_get self.now.imports number)) }
    {
        self.numbering.imports.row(number)
    }
}
