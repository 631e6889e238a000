//! What items stand under: a scope's number and a name.
ghost use Rattle.std.specs.Prelude.{◌≡◌, ◌==◌, ◌&&◌, IfOk, nat_eq};
ghost use Rattle.std.specs.Cmp.Lexicographic.{pointwise};
ghost use Rattle.std.proofs.Common.{rules};

use indexmap::Equivalent;
use std::alloc::{AllocError, Global};

/// A scope's number and a name.
#[derive(PartialEq, Eq, Hash, Drop)]
pub(crate) struct Key {
    scope: u64,
    name: Vec<u8>,
}

/// A scope's number and a name that are looked for. The name is not copied.
#[derive(Clone, Copy, PartialEq, Eq, Hash)]
pub(crate) struct Asked<'a> {
    pub(crate) scope: u64,
    pub(crate) name: &'a [u8],
}

impl<'a> Equivalent<Key> for Asked<'a> {
    ghost equivalent = { λ q k. q.scope == k.scope && pointwise nat_eq q.name.now k.name.items };

    ghost respects_hash = { Prim.search rules };

    ghost respects_eq = { Prim.search rules };

    fn equivalent(&self, key: &Key) -> bool {
        self.scope == key.scope && self.name == key.name.as_slice()
    }
}

/// The key of these two.
pub(crate) fn key_of(alloc: Global, scope: u64, name: &[u8]) -> Result<Key, AllocError>
    ensures scope { IfOk result (λ key. key.scope ≡ scope) }
    ensures name { IfOk result (λ key. key.name.items ≡ name.now) }
{
    let name = Vec::from_slice(alloc, name)?;
    Ok(Key { scope, name })
}
