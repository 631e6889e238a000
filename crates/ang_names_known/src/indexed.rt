//! What scripts declare, found by name.
ghost use Rattle.std.specs.Prelude.{◌≡◌, IfOk};
ghost use Rattle.ang_names_known.specs.Lookup as spec;

use crate::beside::{Beside, MemberPlaces};
use crate::crowded::{CrowdedMethods, listed, no_lists};
use crate::found::{FoundMethods, MethodPlaces};
use crate::known::KnownFunctions;
use crate::lookup::heading_among;
use crate::members::{field_in, has_method_in};
use crate::methods::methods_in;
use crate::names::{Family, FoundField, Names, ScriptFunction, ScriptGlobal};
use crate::numbering::ParameterKinds;
use crate::places::{DECLARED, FAMILIES, FUNCTIONS, GLOBALS, IMPORTS, first_of};
use ang_index::Index;
use std::alloc::{AllocError, Global};
use std::marker::Model;

/// The names of a module's scripts, each kind in the order of sections and text, found by name.
///
/// Contracts see the lists. Beside them stand the places of all names by kind, and those of members by family, so that no
/// call that looks for one goes through a list of them.
#[derive(Drop)]
pub struct IndexedNames {
    lists: Names,
    kinds: Index<usize>,
    fields: Index<usize>,
    methods: Index<usize>,
    crowded: CrowdedMethods,
    numbering: ParameterKinds,
}

impl Model for IndexedNames {
    ghost use Rattle.ang_names_known.specs.declared.names.Names.{Names as NameLists};
    ghost use Rattle.ang_names_known.specs.Indexes.{Indexes};

    ghost Value = { NameLists };

    ghost view = { λ n. n.lists };

    ghost invariant = { λ n. Indexes n.lists n.kinds n.fields n.methods n.crowded n.numbering };
}

impl IndexedNames {
    ghost use Rattle.std.specs.Prelude.{◌≡◌, ◌<◌, IfOk, IfSome, bytes_eq, length, map};
    ghost use Rattle.std.specs.List.{position};
    ghost use Rattle.ang_names_known.specs.Indexes.{Indexes};
    ghost use Rattle.ang_names_known.specs.Known.{places_in};
    ghost use Rattle.ang_names_known.specs.MethodPlaces.{AreFound, found_in};
    ghost use Rattle.ang_names_known.specs.NameIndex.{places_of};

    /// These names, with the places of each.
    ///
    /// The only error is want of memory.
    pub fn new(alloc: Global, lists: Names) -> Result<IndexedNames, AllocError>
        ensures same { IfOk result (λ names. names ≡ lists) }
    {
        match Beside::new(alloc, &lists) {
            Ok(beside) => Ok(IndexedNames::of(lists, beside)),
            Err(error) => {
                drop(lists);
                Err(error)
            }
        }
    }

    /// These names, with what stands beside them.
    fn of(lists: Names, beside: Beside) -> IndexedNames
        requires right { Indexes lists beside.kinds beside.members.fields beside.members.methods
            beside.members.crowded beside.numbering }
        ensures same { result ≡ lists }
    {
        let Beside {
            kinds,
            members,
            numbering,
        } = beside;
        let MemberPlaces {
            fields,
            methods,
            crowded,
        } = members;
        IndexedNames {
            lists,
            kinds,
            fields,
            methods,
            crowded,
            numbering,
        }
    }

    /// The same names without the lists of methods that many have, which bodies are judged by: of a module that is built
    /// none is asked. It takes no memory.
    pub fn without_lists(self, alloc: Global) -> IndexedNames
        ensures same { result ≡ self }
    {
        let IndexedNames {
            lists,
            kinds,
            fields,
            methods,
            crowded,
            numbering,
        } = self;
        drop(crowded);
        IndexedNames {
            lists,
            kinds,
            fields,
            methods,
            crowded: no_lists(alloc),
            numbering,
        }
    }

    /// The classes and interfaces.
    pub fn families(&self) -> &[Family]
        ensures same { result.now ≡ self.now.families }
    {
        self.lists.families.as_slice()
    }

    /// The functions.
    pub fn functions(&self) -> &[ScriptFunction]
        ensures same { result.now ≡ self.now.functions }
    {
        self.lists.functions.as_slice()
    }

    /// The imports.
    pub fn imports(&self) -> &[ScriptFunction]
        ensures same { result.now ≡ self.now.imports }
    {
        self.lists.imports.as_slice()
    }

    /// The global variables.
    pub fn globals(&self) -> &[ScriptGlobal]
        ensures same { result.now ≡ self.now.globals }
    {
        self.lists.globals.as_slice()
    }

    /// The places of the declarations of this name among all declarations, in the order of sections and text, where each name
    /// of a declaration of globals is one; rising. It takes no memory.
    pub fn find(&self, name: &[u8]) -> &[usize]
        ensures exact { result.now ≡ places_of self.now.declared name.now }
    {
        self.kinds.find(DECLARED, name)
    }

    /// Whether some declaration has this name. It takes no memory.
    #[tactic(auto, using(crate::proofs::NameIndex::any_place))]
    pub fn is_declared(&self, name: &[u8]) -> bool
        ensures exact { result ≡ spec.is_declared self.now.declared name.now }
    {
        !self.find(name).is_empty()
    }

    /// The numbers of the functions of this name, rising. It takes no memory.
    #[tactic(auto, using(crate::proofs::NameIndex::functions_are))]
    pub fn functions_named(&self, name: &[u8]) -> &[usize]
        ensures exact { result.now ≡ spec.functions_named self.now.functions name.now }
    {
        self.kinds.find(FUNCTIONS, name)
    }

    /// The numbers of the imports of this name, rising. It takes no memory.
    #[tactic(auto, using(crate::proofs::NameIndex::functions_are))]
    pub fn imports_named(&self, name: &[u8]) -> &[usize]
        ensures exact { result.now ≡ spec.functions_named self.now.imports name.now }
    {
        self.kinds.find(IMPORTS, name)
    }

    /// The number of the global of this name. It takes no memory.
    pub fn global_named(&self, name: &[u8]) -> Option<usize>
        ensures exact { result ≡ spec.global_named self.now.globals name.now }
    {
        first_of(self.kinds.find(GLOBALS, name))
    }

    /// The number of the class or interface of this name. It takes no memory.
    #[tactic(auto, using(crate::proofs::NameIndex::family_is))]
    pub fn family_named(&self, name: &[u8]) -> Option<usize>
        ensures exact { result
            ≡ position (bytes_eq name.now) (map (λ f. f.name) self.now.families) }
        ensures within { IfSome result (λ number. number < length self.now.families) }
    {
        first_of(self.kinds.find(FAMILIES, name))
    }

    /// The number of the function with this heading. It takes no memory.
    #[tactic(auto, using(crate::proofs::Headings::heading_is))]
    pub fn function_with(&self, heading: &ScriptFunction) -> Option<usize>
        ensures exact { result ≡ spec.function_with self.now.functions heading.now }
    {
        let places = self.functions_named(heading.name.as_slice());
        heading_among(self.functions(), places, heading)
    }

    /// The field of this name that objects of a family have. It takes no memory.
    pub fn field_named(&self, family: usize, name: &[u8]) -> Option<FoundField>
        ensures exact { result ≡ spec.field_named self.now.families family name.now }
    {
        field_in(self.families(), &self.fields, family, name)
    }

    /// Whether a family has a method of this name, own or inherited. It takes no memory.
    pub fn has_method(&self, family: usize, name: &[u8]) -> bool
        ensures exact { result ≡ spec.has_method self.now.families family name.now }
    {
        has_method_in(self.families(), &self.methods, family, name)
    }

    /// Whether a family has a field or a method of this name, own or inherited. It takes no memory.
    pub fn has_member(&self, family: usize, name: &[u8]) -> bool
        ensures exact { result ≡ spec.has_member self.now.families family name.now }
    {
        self.field_named(family, name).is_some() || self.has_method(family, name)
    }

    /// The functions and imports, with the numbers of the kinds of their parameters. It takes no memory.
    pub fn known_functions(&self) -> KnownFunctions<'_>
        ensures functions { result.functions ≡ self.now.functions }
        ensures imports { result.imports ≡ self.now.imports }
    {
        KnownFunctions::new(self.functions(), self.imports(), &self.numbering)
    }

    /// The places of the methods of this name that objects of a family have, own and inherited.
    fn method_places(
        &self,
        alloc: Global,
        family: usize,
        name: &[u8],
    ) -> Result<MethodPlaces<'_>, AllocError>
        ensures there { IfOk result (λ p. AreFound self.now.families (places_in p)) }
        ensures exact { IfOk result (λ p. found_in self.now.families (places_in p)
            ≡ spec.methods_named self.now.families family name.now) }
    {
        match listed(&self.crowded, family, name) {
            Some(kept) => Ok(MethodPlaces::Kept(kept)),
            None => {
                let found = methods_in(alloc, self.families(), &self.methods, family, name)?;
                Ok(MethodPlaces::Listed(found))
            }
        }
    }

    /// The methods of this name that objects of a family have, own and inherited.
    ///
    /// The only error is want of memory.
    pub fn methods_named(
        &self,
        alloc: Global,
        family: usize,
        name: &[u8],
    ) -> Result<FoundMethods<'_>, AllocError>
        ensures exact { IfOk result
            (λ found. found.methods ≡ spec.methods_named self.now.families family name.now) }
    {
        let places = self.method_places(alloc, family, name)?;
        Ok(FoundMethods::new(self.families(), &self.numbering, places))
    }
}
