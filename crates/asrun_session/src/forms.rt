//! What is wanted of the lines of both texts, in words (docs/FORMATS.md, "Profile" and "Session").

use ang_registry::RegError;
use asrun_lines::field;

/// What is wanted of a function that is posted.
pub const NO_RESULT: &str = "a function without a result, since no answer is waited for";

/// What is wanted of a line that begins or ends a group.
pub const GROUPS: &str =
    "group NAME, an identifier that no group above has, and endgroup before the next; 64 at most";

const PROFILE_WORDS: &str = "a line that begins with mask, limit, type, factory, method, property, \
                             function, posted, global, enum, value, group, endgroup or blank";

const SESSION_WORDS: &str = "a line that begins with module, mask, section, build, bind, unbind, \
                             call, discard, remove or budget";

/// The forms of the lines of a profile, by their first words.
const PROFILE_FORMS: &[(&str, &str)] = &[
    ("mask", "mask MASK, of eight hexadecimal digits"),
    (
        "limit",
        "limit KIND MOST, of events, slots or objects, and a number below 2^63",
    ),
    ("type", "type NAME DRIVER"),
    ("factory", "factory TYPE F DECL"),
    ("method", "method TYPE F DECL"),
    ("property", "property TYPE F DECL"),
    ("function", "function DRIVER F DECL"),
    ("posted", "posted DRIVER F DECL"),
    ("global", "global DRIVER F DECL"),
    ("enum", "enum NAME"),
    (
        "value",
        "value ENUM NAME NUMBER, of a number from -2147483648 to 2147483647",
    ),
    ("group", "group NAME"),
    ("endgroup", "endgroup alone"),
    ("blank", "blank alone"),
];

/// The forms of the lines of a session, by their first words.
const SESSION_FORMS: &[(&str, &str)] = &[
    ("module", "module NAME MASK, of eight hexadecimal digits"),
    ("mask", "mask NAME MASK, of eight hexadecimal digits"),
    ("section", "section NAME N, with N lines of script after it"),
    ("build", "build NAME"),
    ("bind", "bind NAME INDEX EXPORTER DECL"),
    ("unbind", "unbind NAME INDEX"),
    (
        "call",
        "call NAME (V,V) DECL, with values as 7, 7u or true, and no space between",
    ),
    ("discard", "discard NAME"),
    ("remove", "remove NAME, of a group of the profile"),
    ("budget", "budget N, of 1 to 10 digits"),
];

/// The first word of a line.
fn first_word(line: &[u8]) -> &[u8] {
    match field(line) {
        Some((word, _)) => word,
        None => line,
    }
}

/// The form of a line that begins with this word.
fn form_of(forms: &[(&str, &'static str)], word: &[u8]) -> Option<&'static str> {
    for form in forms {
        if form.0.as_bytes() == word {
            return Some(form.1);
        }
    }
    None
}

/// What is wanted in place of a line of a profile.
pub fn profile_form(line: &[u8]) -> &'static str {
    form_of(PROFILE_FORMS, first_word(line)).unwrap_or(PROFILE_WORDS)
}

/// What is wanted in place of a line of a session.
pub fn session_form(line: &[u8]) -> &'static str {
    form_of(SESSION_FORMS, first_word(line)).unwrap_or(SESSION_WORDS)
}

/// What is wanted of a registration that was refused.
pub fn registration_form(why: RegError) -> &'static str {
    match why {
        RegError::Limit => "no more than 1024 entries, of 32 parameters each",
        RegError::EmptyMask => "a mask above that is not 00000000",
        RegError::BadDeclaration => "a declaration of this kind of entry",
        RegError::UnknownType => "a type, or an enumeration, that a line above has",
        RegError::WrongDriver => "a driver below 64, and the same of all types in the declaration",
        RegError::Duplicate => "a name that no line above has, or other parameters",
        RegError::Memory => "memory",
    }
}
