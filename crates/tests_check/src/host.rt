//! Hosts as rows of a test.

use ang_kinds::Mask;
use ang_registry::Registry;

/// One registration.
pub enum Line {
    /// The mask of what is registered from here on.
    Mask(u32),
    Type(&'static [u8], u32),
    Factory(&'static [u8], u32, &'static [u8]),
    Method(&'static [u8], u32, &'static [u8]),
    Property(&'static [u8], u32, &'static [u8]),
    Function(u32, u32, &'static [u8]),
    Global(u32, u32, &'static [u8]),
    Enum(&'static [u8]),
    Value(&'static [u8], &'static [u8], i32),
}

fn is_taken(registry: &mut Registry, line: &Line) -> bool {
    match line {
        Line::Mask(mask) => {
            let _ = registry.set_default_mask(Mask(*mask));
            true
        }
        Line::Type(name, driver) => registry.type_(name, *driver).is_ok(),
        Line::Factory(name, f, decl) => registry.factory(name, *f, decl).is_ok(),
        Line::Method(name, f, decl) => registry.method(name, *f, decl).is_ok(),
        Line::Property(name, f, decl) => registry.property(name, *f, decl).is_ok(),
        Line::Function(driver, f, decl) => registry.function(*driver, *f, decl).is_ok(),
        Line::Global(driver, f, decl) => registry.global_property(*driver, *f, decl).is_ok(),
        Line::Enum(name) => registry.enum_(name).is_ok(),
        Line::Value(of, name, value) => registry.enum_value(of, name, *value).is_ok(),
    }
}

/// Whether each registration is taken.
pub fn are_taken(registry: &mut Registry, lines: &[Line]) -> bool {
    for line in lines {
        if !is_taken(registry, line) {
            return false;
        }
    }
    true
}
