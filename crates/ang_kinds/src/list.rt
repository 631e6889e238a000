//! A list that contracts see as the list of its items.
ghost use Rattle.std.specs.Prelude.{◌≡◌};

use std::marker::Model;

/// A list that keeps its items in one vector, for the fields of public types.
///
/// None of its calls takes memory, and each keeps the items and their order.
#[derive(Drop, Debug)]
pub struct List<T> {
    items: Vec<T>,
}

impl<T> Model for List<T> {
    ghost use Rattle.std.specs.Prelude.{List};

    ghost Value = { List T };

    ghost view = { λ a. a.items.items };
}

impl<T> List<T> {
    /// The list of the vector's items.
    pub fn from_vec(items: Vec<T>) -> List<T>
        ensures same { result ≡ items.items }
    {
        Self { items }
    }

    /// The items, in their order.
    pub fn as_slice(&self) -> &[T]
        ensures same { result.now ≡ self.now }
    {
        self.items.as_slice()
    }

    /// The vector of the items, in their order.
    pub fn into_vec(self) -> Vec<T>
        ensures same { result.items ≡ self }
    {
        let List { items } = self;
        items
    }
}
