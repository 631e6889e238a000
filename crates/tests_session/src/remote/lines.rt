//! Lines that are read byte by byte.

use crate::remote::harness::Host;
use ang_remote::{Heard, read_line};
use asrun_lines::is_header;
use std::alloc::Global;

/// What is heard of a text after `ab`, with at most 4 bytes in all, and whether this is kept and that many bytes are left.
fn heard(alloc: Global, text: &str, kept: &str, unread: usize) -> Option<Heard> {
    let mut host = Host::new(text, 0);
    let Ok(mut line) = Vec::from_slice(alloc, b"ab") else {
        return None;
    };
    let heard = read_line(&mut host, &mut line, 4);
    let is_right = line.as_slice() == kept.as_bytes() && host.unread() == unread;
    is_right.then_some(heard)
}

const LINES: &[(&str, Heard, &str, usize)] = &[
    ("c\nd\n", Heard::Line, "abc\n", 2),
    ("\n\n", Heard::Line, "ab\n", 1),
    ("cd", Heard::Last, "abcd", 0),
    ("", Heard::End, "ab", 0),
    ("cd\ne\n", Heard::Long, "abcd", 2),
    ("cde", Heard::Long, "abcd", 0),
];

#[test]
fn each_end_of_a_line(rt: HostRuntime) {
    for (at, (text, want, kept, unread)) in LINES.iter().enumerate() {
        let given = heard(rt.alloc(), text, kept, *unread);
        assert!(rt; given == Some(*want), "row {at}");
    }
}

/// Lines that may be the head of a section, however they are spelled, and others.
const HEADS: &[(&str, bool)] = &[
    ("section a 3", true),
    ("section", true),
    ("section\r", true),
    ("section\ta 3", true),
    ("section  a 3", true),
    (" section a 3", true),
    ("\t\rsection a 3", true),
    ("\u{feff}section a 3", true),
    ("> section", true),
    ("12 section", true),
    ("SECTION a 3", true),
    ("sEctioN", true),
    ("sections", true),
    ("sectio", false),
    ("sect ion a 3", false),
    ("a section", false),
    ("module section 00000001", false),
    ("", false),
    (" \t", false),
    ("7", false),
];

#[test]
fn each_spelling_of_a_head(rt: HostRuntime) {
    for (at, (text, want)) in HEADS.iter().enumerate() {
        assert!(rt; is_header(text.as_bytes()) == *want, "row {at}");
    }
}
