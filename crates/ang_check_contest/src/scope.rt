//! What a use is asked over.
ghost use Rattle.std.specs.Prelude.{◌≡◌, ◌≤◌, length};

use crate::known_view::KnownView;
use ang_names_known::Names;
use ang_types::Lineage;
use ang_view::View;
use std::marker::Model;

/// What a use is asked over: what a module sees of the host, what its scripts declare, and what stands above each object
/// type.
#[derive(Drop)]
pub struct Scope<'a> {
    view: &'a KnownView<'a>,
    names: &'a Names,
    lineage: &'a Lineage,
}

impl<'a> Model for Scope<'a> {
    ghost use Rattle.std.specs.Prelude.{◌≤◌, length};
    ghost use Rattle.ang_check_contest.specs.Scopes as spec;

    ghost Value = { spec.Scope };

    ghost view = { λ s. record { view = s.view.now; names = s.names.now; ancestors = s.lineage.now } };

    ghost invariant = { λ s. length s.names.now.families ≤ 256 };
}

impl<'a> Scope<'a> {
    /// Borrows these for the uses of one build. Nothing checks that they are of one.
    pub fn new(view: &'a KnownView<'a>, names: &'a Names, lineage: &'a Lineage) -> Scope<'a>
        requires few { length names.now.families ≤ 256 }
        ensures view { result.view ≡ view.now }
        ensures names { result.names ≡ names.now }
        ensures ancestors { result.ancestors ≡ lineage.now }
    {
        Scope {
            view,
            names,
            lineage,
        }
    }

    /// What the module sees of the host.
    pub fn view(&self) -> &'a View
        ensures same { result.now ≡ self.now.view }
    {
        self.view.view()
    }

    /// The same, with the kinds of its parameters.
    pub fn known_view(&self) -> &'a KnownView<'a>
        ensures same { result.now ≡ self.now.view }
    {
        self.view
    }

    /// What the scripts declare.
    pub fn names(&self) -> &'a Names
        ensures same { result.now ≡ self.now.names }
        ensures few { length result.now.families ≤ 256 }
    {
        self.names
    }

    /// What stands above each object type.
    pub fn lineage(&self) -> &'a Lineage
        ensures same { result.now ≡ self.now.ancestors }
    {
        self.lineage
    }
}
