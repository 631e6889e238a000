//! The numbers of the scripts' families as types.
ghost use Rattle.std.specs.Prelude.{◌≡◌, ◌<◌, IfSome};
ghost use Rattle.ang_names_known.specs.Spaces as spaces;

/// The number of the first family as a type, above those of all entries.
pub const FIRST_FAMILY: u32 = 1024;

/// The number of a family as a type. It takes no memory.
pub fn family_type(family: usize) -> u32
    requires few { family < 256 }
    ensures exact { result ≡ spaces.family_type family }
{
    FIRST_FAMILY + family as u32
}

/// The number of the family that a type is, among the families. It takes no memory.
pub fn family_of_type(number: u32) -> Option<usize>
    ensures exact { result ≡ spaces.family_of_type number }
    ensures back { IfSome result (λ family. spaces.family_type family ≡ number) }
{
    if number < FIRST_FAMILY {
        None
    } else {
        Some((number - FIRST_FAMILY) as usize)
    }
}
