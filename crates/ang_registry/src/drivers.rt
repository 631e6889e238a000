//! The drivers that entries name.
ghost use Rattle.std.specs.Prelude.{◌≡◌, ◌↔◌, IsTrue};
ghost use Rattle.ang_registry.specs.Drivers.{HaveDrivers, has_driver};

use crate::Registry;
use ang_kinds::EntityNo;
use ang_view::EntryKind;

/// Whether entries of this kind are a driver's: an enumeration and a value of one are no driver's.
fn has_driver(kind: EntryKind) -> bool
    ensures exact { result ≡ has_driver kind }
{
    match kind {
        EntryKind::HostType
        | EntryKind::Factory
        | EntryKind::Method
        | EntryKind::Property
        | EntryKind::Function
        | EntryKind::Global => true,
        EntryKind::Enumeration | EntryKind::EnumValue(_) => false,
    }
}

/// Whether each entry's driver is in a list of `count`.
pub fn have_drivers(registry: &Registry, count: usize) -> bool
    ensures exact { IsTrue result ↔ HaveDrivers registry.now.entries count }
{
    for number in 0..registry.len() as u32 {
        if let Some(entry) = registry.get(EntityNo(number)) {
            if has_driver(entry.kind) && entry.driver as usize >= count {
                return false;
            }
        }
    }
    true
}
