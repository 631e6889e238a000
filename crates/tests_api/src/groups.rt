//! Groups of a registry: refusals and their order, what a removal leaves, and a growth of memory that is refused.

use ang_kinds::EntityNo;
use ang_registry::{GroupError, Registry};
use std::alloc::{AllocError, Global};

/// One call, and what it gives.
enum Step {
    /// A group is begun, or that is refused.
    Begin(&'static [u8], Option<GroupError>),
    /// The group is ended, or that is refused.
    End(Option<GroupError>),
    /// A group is removed, or that is refused.
    Remove(&'static [u8], Option<GroupError>),
    /// A type of the second driver gets this number.
    Type(u32, &'static [u8]),
    /// A function of that driver gets this number.
    Function(u32, &'static [u8]),
    /// A blank gets this number.
    Blank(u32),
    /// Groups without entries, so many.
    Empty(u8),
    /// Whether there is an entry of this number.
    Entry(u32, bool),
    /// Whether a type of this name is found.
    Finds(&'static [u8], bool),
    /// So many groups are there that were ended.
    Groups(usize),
    /// The group of this name has the entries from the first number up to the second one, without it.
    Range(&'static [u8], u32, u32),
}

fn why(answer: Result<(), GroupError>) -> Option<GroupError> {
    match answer {
        Ok(()) => None,
        Err(error) => Some(error),
    }
}

fn puts_empty(registry: &mut Registry, count: u8) -> bool {
    for number in 0..count {
        let name = [b'A' + number / 16, b'a' + number % 16];
        if registry.begin_group(&name).is_err() || registry.end_group().is_err() {
            return false;
        }
    }
    true
}

fn has_range(registry: &Registry, name: &[u8], first: u32, after: u32) -> bool {
    match registry.group(name) {
        Some(group) => group.first == first && group.after == after,
        None => false,
    }
}

/// Whether the list is so.
fn is_so(registry: &Registry, step: &Step) -> bool {
    match step {
        Step::Entry(number, want) => registry.get(EntityNo(*number)).is_some() == *want,
        Step::Finds(name, want) => registry.find_type(name).is_some() == *want,
        Step::Groups(count) => registry.groups().len() == *count,
        Step::Range(name, first, after) => has_range(registry, name, *first, *after),
        _ => false,
    }
}

/// Whether a call gives what it has to.
fn gives(registry: &mut Registry, step: &Step) -> bool {
    match step {
        Step::Begin(name, want) => why(registry.begin_group(name)) == *want,
        Step::End(want) => why(registry.end_group()) == *want,
        Step::Remove(name, want) => why(registry.remove_group(name)) == *want,
        Step::Type(number, name) => registry.type_(name, 2) == Ok(EntityNo(*number)),
        Step::Function(number, decl) => registry.function(2, 0, decl) == Ok(EntityNo(*number)),
        Step::Blank(number) => registry.blank() == Ok(EntityNo(*number)),
        Step::Empty(count) => puts_empty(registry, *count),
        _ => is_so(registry, step),
    }
}

fn first_wrong_over(registry: &mut Registry, steps: &[Step]) -> Option<usize> {
    for (at, step) in steps.iter().enumerate() {
        if !gives(registry, step) {
            return Some(at);
        }
    }
    None
}

/// The place of the first call that does not give what it has to, over a list that is empty at first.
fn first_wrong(alloc: Global, steps: &[Step]) -> Option<usize> {
    let mut registry = Registry::new(alloc);
    let wrong = first_wrong_over(&mut registry, steps);
    drop(registry);
    wrong
}

const REFUSALS: &[Step] = &[
    Step::End(Some(GroupError::NoGroup)),
    Step::Begin(b"1x", Some(GroupError::BadName)),
    Step::Begin(b"", Some(GroupError::BadName)),
    Step::Begin(b"class", Some(GroupError::BadName)),
    Step::Begin(b"g", None),
    Step::Begin(b"1x", Some(GroupError::GroupOpen)),
    Step::Begin(b"g", Some(GroupError::GroupOpen)),
    Step::Remove(b"g", Some(GroupError::NoGroup)),
    Step::Groups(0),
    Step::End(None),
    Step::Groups(1),
    Step::End(Some(GroupError::NoGroup)),
    Step::Begin(b"g", Some(GroupError::Duplicate)),
    Step::Remove(b"h", Some(GroupError::NoGroup)),
];

const LIMIT: &[Step] = &[
    Step::Empty(64),
    Step::Begin(b"g", Some(GroupError::Limit)),
    Step::Begin(b"1x", Some(GroupError::BadName)),
    Step::Begin(b"Aa", Some(GroupError::Duplicate)),
    Step::Groups(64),
    Step::Remove(b"Dp", None),
    Step::Begin(b"g", None),
    Step::Groups(63),
];

const REMOVAL: &[Step] = &[
    Step::Function(0, b"void first()"),
    Step::Begin(b"g", None),
    Step::Type(1, b"Cell"),
    Step::Blank(2),
    Step::Function(3, b"Cell@+ pick(Cell@+)"),
    Step::End(None),
    Step::Begin(b"h", None),
    Step::Function(4, b"void last()"),
    Step::Range(b"g", 1, 4),
    Step::Remove(b"h", Some(GroupError::NoGroup)),
    Step::Remove(b"g", None),
    Step::Entry(0, true),
    Step::Entry(1, false),
    Step::Entry(3, false),
    Step::Entry(4, true),
    Step::Finds(b"Cell", false),
    Step::Remove(b"g", Some(GroupError::NoGroup)),
    Step::End(None),
    Step::Range(b"h", 4, 5),
    Step::Groups(1),
    Step::Begin(b"g", None),
    Step::Type(5, b"Cell"),
    Step::End(None),
    Step::Range(b"g", 5, 6),
    Step::Remove(b"h", None),
    Step::Entry(4, false),
    Step::Finds(b"Cell", true),
];

const NAMED_OUTSIDE: &[Step] = &[
    Step::Begin(b"g", None),
    Step::Type(0, b"Cell"),
    Step::End(None),
    Step::Begin(b"h", None),
    Step::Function(1, b"void take(Cell@+)"),
    Step::End(None),
    Step::Remove(b"g", Some(GroupError::InUse)),
    Step::Entry(0, true),
    Step::Range(b"g", 0, 1),
    Step::Remove(b"h", None),
    Step::Remove(b"g", None),
];

const CASES: &[(&str, &[Step])] = &[
    ("refusals", REFUSALS),
    ("a limit", LIMIT),
    ("a removal", REMOVAL),
    ("a type that is named outside", NAMED_OUTSIDE),
];

#[test]
fn groups_are_begun_ended_and_removed(rt: HostRuntime) {
    for case in CASES {
        assert_eq!(rt; first_wrong(rt.alloc(), case.1), None, "{}", case.0);
    }
}

/// Run with each growth of memory refused in turn, a group may find none, and the next call does.
fn begins_again(registry: &mut Registry) -> bool {
    match registry.begin_group(b"g") {
        Err(GroupError::Memory) => registry.begin_group(b"g") == Ok(()),
        answer => answer == Ok(()),
    }
}

/// Whether a group is begun, and which removals are refused before and after its end.
fn removed_at_last(alloc: Global) -> Result<(bool, bool, bool), AllocError> {
    let mut registry = Registry::new(alloc);
    let is_begun = begins_again(&mut registry);
    let is_open = registry.remove_group(b"g") == Err(GroupError::NoGroup);
    let is_removed = registry.end_group() == Ok(()) && registry.remove_group(b"g") == Ok(());
    drop(registry);
    Ok((is_begun, is_open, is_removed))
}

#[test]
fn a_refused_growth_begins_no_group(rt: HostRuntime) -> Result<(), AllocError> {
    assert_eq!(rt; removed_at_last(rt.alloc())?, (true, true, true));
    Ok(())
}
