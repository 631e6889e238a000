//! The lines of a profile.
ghost use Rattle.std.specs.Prelude.{◌≡◌, option_map};
ghost use Rattle.asrun_lines.specs.Fields.{mask_of};
ghost use Rattle.asrun_lines.specs.Limits.{limit_of};
ghost use Rattle.asrun_lines.specs.ProfileLines.{DefaultMask, Limit, Factory, Method, Property, Function, Posted, Global, entry, type_of, member_of, own_of, enumeration_of, enum_value_of, group_of, entry_behind, entry_of};

use crate::fields::{field, last_field, mask, number, rest, signed};
use crate::limits::{LimitLine, limit};
use ang_kinds::Mask;

/// A line of a profile that is neither empty nor a comment. A declaration is the rest of its line.
#[derive(Drop)]
pub enum ProfileLine<'a> {
    /// `mask M`: the default mask of what is registered next.
    Mask(Mask),
    /// `limit KIND N`: how much scripts may hold, or a command may list.
    Limit(LimitLine),
    /// `type NAME DRIVER`: a type of host objects.
    HostType {
        /// The type's name.
        name: &'a [u8],
        /// The driver of its objects.
        driver: u32,
    },
    /// `factory TYPE F DECL`: a factory.
    Factory {
        /// The type whose objects it makes.
        type_name: &'a [u8],
        /// The driver's number of the factory.
        f: u32,
        /// The declaration.
        decl: &'a [u8],
    },
    /// `method TYPE F DECL`: a method.
    Method {
        /// The type that has it.
        type_name: &'a [u8],
        /// The driver's number of the method.
        f: u32,
        /// The declaration.
        decl: &'a [u8],
    },
    /// `property TYPE F DECL`: an object property.
    Property {
        /// The type that has it.
        type_name: &'a [u8],
        /// The driver's number of the property.
        f: u32,
        /// The declaration.
        decl: &'a [u8],
    },
    /// `function DRIVER F DECL`: a host function.
    Function {
        /// The driver that answers.
        driver: u32,
        /// The driver's number of the function.
        f: u32,
        /// The declaration.
        decl: &'a [u8],
    },
    /// `posted DRIVER F DECL`: a host function whose calls want no answer.
    Posted {
        /// The driver that is told.
        driver: u32,
        /// The driver's number of the function.
        f: u32,
        /// The declaration.
        decl: &'a [u8],
    },
    /// `global DRIVER F DECL`: a global property.
    Global {
        /// The driver that answers.
        driver: u32,
        /// The driver's number of the property.
        f: u32,
        /// The declaration.
        decl: &'a [u8],
    },
    /// `enum NAME`: an enumeration.
    Enumeration {
        /// The enumeration's name.
        name: &'a [u8],
    },
    /// `value ENUM NAME N`: a value of an enumeration.
    EnumValue {
        /// The enumeration that has it.
        enumeration: &'a [u8],
        /// The value's name.
        name: &'a [u8],
        /// Its number.
        value: i32,
    },
    /// `group NAME`: what follows belongs to the group.
    Group {
        /// The group's name.
        name: &'a [u8],
    },
    /// `endgroup`: the group ends.
    EndGroup,
    /// `blank`: a number without an entry.
    Blank,
}

#[tactic(auto, unfolding(crate::specs::ProfileLines::type_of))]
fn type_line(text: &[u8]) -> Option<ProfileLine<'_>>
    ensures exact { option_map entry result ≡ type_of text.now }
{
    let (name, text) = field(text)?;
    let driver = number(text)?;
    Some(ProfileLine::HostType { name, driver })
}

/// `TYPE F DECL`
#[tactic(auto, unfolding(crate::specs::ProfileLines::member_of))]
fn member(text: &[u8]) -> Option<(&[u8], u32, &[u8])>
    ensures exact { option_map (λ m. (m.0.now, m.1, m.2.now)) result ≡ member_of text.now }
{
    let (type_name, text) = field(text)?;
    let (f, text) = field(text)?;
    let f = number(f)?;
    let decl = rest(text)?;
    Some((type_name, f, decl))
}

/// `DRIVER F DECL`
#[tactic(auto, unfolding(crate::specs::ProfileLines::own_of))]
fn own(text: &[u8]) -> Option<(u32, u32, &[u8])>
    ensures exact { option_map (λ o. (o.0, o.1, o.2.now)) result ≡ own_of text.now }
{
    let (driver, text) = field(text)?;
    let driver = number(driver)?;
    let (f, text) = field(text)?;
    let f = number(f)?;
    let decl = rest(text)?;
    Some((driver, f, decl))
}

#[tactic(auto, unfolding(crate::specs::ProfileLines::enumeration_of))]
fn enumeration_line(text: &[u8]) -> Option<ProfileLine<'_>>
    ensures exact { option_map entry result ≡ enumeration_of text.now }
{
    let name = last_field(text)?;
    Some(ProfileLine::Enumeration { name })
}

#[tactic(auto, unfolding(crate::specs::ProfileLines::enum_value_of))]
fn enum_value_line(text: &[u8]) -> Option<ProfileLine<'_>>
    ensures exact { option_map entry result ≡ enum_value_of text.now }
{
    let (enumeration, text) = field(text)?;
    let (name, text) = field(text)?;
    let value = signed(text)?;
    Some(ProfileLine::EnumValue {
        enumeration,
        name,
        value,
    })
}

#[tactic(auto, unfolding(crate::specs::ProfileLines::group_of))]
fn group_line(text: &[u8]) -> Option<ProfileLine<'_>>
    ensures exact { option_map entry result ≡ group_of text.now }
{
    let name = last_field(text)?;
    Some(ProfileLine::Group { name })
}

/// `M`, after the word `mask`
fn mask_line(text: &[u8]) -> Option<ProfileLine<'_>>
    ensures exact { option_map entry result ≡ option_map DefaultMask (mask_of text.now) }
{
    let mask = mask(text)?;
    Some(ProfileLine::Mask(mask))
}

/// `KIND N`, after the word `limit`
fn limit_line(text: &[u8]) -> Option<ProfileLine<'_>>
    ensures exact { option_map entry result ≡ option_map Limit (limit_of text.now) }
{
    let limit = limit(text)?;
    Some(ProfileLine::Limit(limit))
}

/// `TYPE F DECL`, after the word `factory`
fn factory_line(text: &[u8]) -> Option<ProfileLine<'_>>
    ensures exact { option_map entry result
        ≡ option_map (λ m. Factory m.0 m.1 m.2) (member_of text.now) }
{
    let (type_name, f, decl) = member(text)?;
    Some(ProfileLine::Factory { type_name, f, decl })
}

/// `TYPE F DECL`, after the word `method`
fn method_line(text: &[u8]) -> Option<ProfileLine<'_>>
    ensures exact { option_map entry result
        ≡ option_map (λ m. Method m.0 m.1 m.2) (member_of text.now) }
{
    let (type_name, f, decl) = member(text)?;
    Some(ProfileLine::Method { type_name, f, decl })
}

/// `TYPE F DECL`, after the word `property`
fn property_line(text: &[u8]) -> Option<ProfileLine<'_>>
    ensures exact { option_map entry result
        ≡ option_map (λ m. Property m.0 m.1 m.2) (member_of text.now) }
{
    let (type_name, f, decl) = member(text)?;
    Some(ProfileLine::Property { type_name, f, decl })
}

/// `DRIVER F DECL`, after the word `function`
fn function_line(text: &[u8]) -> Option<ProfileLine<'_>>
    ensures exact { option_map entry result
        ≡ option_map (λ o. Function o.0 o.1 o.2) (own_of text.now) }
{
    let (driver, f, decl) = own(text)?;
    Some(ProfileLine::Function { driver, f, decl })
}

/// `DRIVER F DECL`, after the word `posted`
fn posted_line(text: &[u8]) -> Option<ProfileLine<'_>>
    ensures exact { option_map entry result
        ≡ option_map (λ o. Posted o.0 o.1 o.2) (own_of text.now) }
{
    let (driver, f, decl) = own(text)?;
    Some(ProfileLine::Posted { driver, f, decl })
}

/// `DRIVER F DECL`, after the word `global`
fn global_line(text: &[u8]) -> Option<ProfileLine<'_>>
    ensures exact { option_map entry result
        ≡ option_map (λ o. Global o.0 o.1 o.2) (own_of text.now) }
{
    let (driver, f, decl) = own(text)?;
    Some(ProfileLine::Global { driver, f, decl })
}

/// What a line spells after its first word.
#[tactic(auto, unfolding(crate::specs::ProfileLines::entry_behind))]
fn line_behind<'a>(word: &[u8], text: &'a [u8]) -> Option<ProfileLine<'a>>
    ensures exact { option_map entry result ≡ entry_behind word.now text.now }
{
    if word == b"mask".as_slice() {
        return mask_line(text);
    }
    if word == b"limit".as_slice() {
        return limit_line(text);
    }
    if word == b"type".as_slice() {
        return type_line(text);
    }
    if word == b"factory".as_slice() {
        return factory_line(text);
    }
    if word == b"method".as_slice() {
        return method_line(text);
    }
    if word == b"property".as_slice() {
        return property_line(text);
    }
    if word == b"function".as_slice() {
        return function_line(text);
    }
    if word == b"posted".as_slice() {
        return posted_line(text);
    }
    if word == b"global".as_slice() {
        return global_line(text);
    }
    if word == b"enum".as_slice() {
        return enumeration_line(text);
    }
    if word == b"value".as_slice() {
        return enum_value_line(text);
    }
    if word == b"group".as_slice() {
        return group_line(text);
    }
    None
}

/// What the line spells. None where it is of another form.
#[tactic(auto, unfolding(crate::specs::ProfileLines::entry_of))]
pub fn profile_line(line: &[u8]) -> Option<ProfileLine<'_>>
    ensures exact { option_map entry result ≡ entry_of line.now }
{
    if line == b"blank".as_slice() {
        return Some(ProfileLine::Blank);
    }
    if line == b"endgroup".as_slice() {
        return Some(ProfileLine::EndGroup);
    }
    let (word, text) = field(line)?;
    line_behind(word, text)
}
