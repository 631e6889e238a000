//! Parts of trees, which contracts see without where they lie in memory.
use ang_tree::Parameter;
use std::marker::Model;

/// The parameters of a function, which contracts see as the list of them.
#[derive(Drop)]
pub struct WrittenParameters<'a> {
    items: &'a [Parameter],
}

impl<'a> Model for WrittenParameters<'a> {
    ghost use Rattle.std.specs.Prelude.{List};
    ghost use Rattle.ang_tree.specs.declared.declaration.Parameter.{Parameter};

    ghost Value = { List Parameter };

    ghost view = { λ p. p.items.now };
}

impl<'a> WrittenParameters<'a> {
    ghost use Rattle.std.specs.Prelude.{◌≡◌};

    /// Borrows these parameters, which are not copied.
    pub fn new(items: &'a [Parameter]) -> WrittenParameters<'a>
        ensures exact { result ≡ items.now }
    {
        WrittenParameters { items }
    }

    /// The parameters that were borrowed, in order, which can be kept when this value is gone.
    pub fn items(&self) -> &'a [Parameter]
        ensures exact { result.now ≡ self.now }
    {
        self.items
    }
}
