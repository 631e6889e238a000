//! What stands beside the lists of names, so that no look-up goes through them. It is made in steps each of which owns little.
use crate::crowded::{CrowdedMethods, crowded_methods};
use crate::names::{Family, Names};
use crate::numbering::{ParameterKinds, parameter_kinds};
use crate::places::{places_by_kind, places_of_fields, places_of_methods};
use ang_index::Index;
use std::alloc::{AllocError, Global};

/// The places of members, by family and name.
pub(crate) struct MemberPlaces {
    pub(crate) fields: Index<usize>,
    pub(crate) methods: Index<usize>,
    pub(crate) crowded: CrowdedMethods,
}

/// All that stands beside the lists.
pub(crate) struct Beside {
    pub(crate) kinds: Index<usize>,
    pub(crate) members: MemberPlaces,
    pub(crate) numbering: ParameterKinds,
}

impl MemberPlaces {
    ghost use Rattle.std.specs.Prelude.{IfOk};
    ghost use Rattle.ang_names_known.specs.Crowded.{AreRight};
    ghost use Rattle.ang_names_known.specs.NameIndex.{IndexesFields, IndexesMethods};

    /// The places of the members of these families.
    ///
    /// The only error is want of memory.
    fn new(alloc: Global, families: &[Family]) -> Result<MemberPlaces, AllocError>
        ensures fields { IfOk result (λ m. IndexesFields families.now m.fields) }
        ensures methods { IfOk result (λ m. IndexesMethods families.now m.methods) }
        ensures crowded { IfOk result (λ m. AreRight families.now m.crowded) }
    {
        let methods = places_of_methods(alloc, families)?;
        let crowded = crowded_methods(alloc, families, &methods)?;
        let fields = places_of_fields(alloc, families)?;
        Ok(MemberPlaces {
            fields,
            methods,
            crowded,
        })
    }
}

impl Beside {
    ghost use Rattle.std.specs.Prelude.{IfOk};
    ghost use Rattle.ang_names_known.specs.Indexes.{Indexes};

    /// What stands beside these lists.
    ///
    /// The only error is want of memory.
    pub(crate) fn new(alloc: Global, lists: &Names) -> Result<Beside, AllocError>
        ensures right { IfOk result (λ b. Indexes lists.now b.kinds b.members.fields
            b.members.methods b.members.crowded b.numbering) }
    {
        let numbering = parameter_kinds(alloc, lists)?;
        let kinds = places_by_kind(alloc, lists)?;
        let members = MemberPlaces::new(alloc, lists.families.as_slice())?;
        Ok(Beside {
            kinds,
            members,
            numbering,
        })
    }
}
