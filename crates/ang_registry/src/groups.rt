//! Groups of entries, which go together.
ghost use Rattle.std.specs.Prelude.{◌≡◌, ◌≢◌, ◌<◌, length, find, None, Some, IfErr, IfOk, IfSome, OnErr, OnOk, slice_get};
ghost use Rattle.std.specs.List.{list_any, position};
ghost use Rattle.std.specs.Option.{option_copied};
ghost use Rattle.ang_view.specs.Groups.{group_named, is_called, without_group};
ghost use Rattle.ang_registry.specs.Groups as spec;
ghost use Rattle.ang_registry.specs.Registrations.{closed, closed_of, grouped};

use crate::{GroupError, Registry};
use ang_kinds::List;
use ang_lex::is_name;
use ang_view::{Group, is_named_outside};
use std::alloc::{AllocError, Global};

/// How many groups there can be.
const MOST_GROUPS: usize = 64;

/// Whether one of these groups has the name.
fn has_group(groups: &[Group], name: &[u8]) -> bool
    ensures exact { result ≡ list_any (is_called name.now) groups.now }
{
    groups.iter().any(|group| group.name.as_slice() == name)
}

/// The place of the first of these groups that has the name.
fn place_of(groups: &[Group], name: &[u8]) -> Option<usize>
    ensures exact { result ≡ position (is_called name.now) groups.now }
{
    groups
        .iter()
        .position(|group| group.name.as_slice() == name)
}

/// The first of these groups that has the name.
fn group_of<'a>(groups: &'a [Group], name: &[u8]) -> Option<&'a Group>
    ensures exact { option_copied result ≡ find (is_called name.now) groups.now }
{
    groups.iter().find(|group| group.name.as_slice() == name)
}

/// Those of these groups that were ended: all but the last one, where that one is open.
fn ended(groups: &[Group], is_open: bool) -> &[Group]
    ensures exact { result.now ≡ closed_of is_open groups.now }
{
    if !is_open {
        return groups;
    }
    match groups.split_last() {
        None => groups,
        Some((_, ended)) => ended,
    }
}

/// Ends the last of these groups before a number.
fn end_last(groups: &mut [Group], after: u32)
    ensures ended { groups.new ≡ spec.ended_at after groups.old }
{
    if let Some(group) = groups.last_mut() {
        group.after = after;
    }
}

/// A group of no entries yet.
fn group_from(alloc: Global, name: &[u8], first: u32) -> Result<Group, AllocError>
    ensures exact { IfOk result (λ group. (group.name ≡ name.now) × (group.first ≡ first)
        × (group.after ≡ first)) }
{
    let name = List::from_vec(Vec::from_slice(alloc, name)?);
    Ok(Group {
        name,
        first,
        after: first,
    })
}

impl Registry {
    /// Begins a group: what is registered until `end_group` belongs to it, blanks among it. Groups don't nest. `Engine::new`
    /// ends one that is still open.
    ///
    /// # Errors
    ///
    /// The first of these that applies: `GroupOpen` where a group was begun and not ended; `BadName` where the name is no
    /// identifier; `Duplicate` where there is a group of that name; `Limit` where 64 groups are there. `Memory`, where the
    /// allocator refused memory, may come instead of any other answer. After an error the registry is as it was.
    #[tactic(auto, unfolding(crate::specs::Groups::refusal_of_begin))]
    pub fn begin_group(&mut self, name: &[u8]) -> Result<(), GroupError>
        ensures accepted { OnOk result (spec.refusal_of_begin self.old name.now ≡ None) }
        ensures opened { OnOk result (self.new ≡ spec.with_opened self.old name.now) }

        ensures first_refusal { IfErr result (λ why. why ≢ GroupError.Memory
            → spec.refusal_of_begin self.old name.now ≡ Some why) }
        ensures unchanged { OnErr result (self.new ≡ self.old) }
    {
        if self.is_open {
            return Err(GroupError::GroupOpen);
        }
        if !is_name(name) {
            return Err(GroupError::BadName);
        }
        if has_group(self.groups.as_slice(), name) {
            return Err(GroupError::Duplicate);
        }
        if self.groups.len() >= MOST_GROUPS {
            return Err(GroupError::Limit);
        }
        let group = group_from(self.alloc, name, self.list.len() as u32)?;
        self.groups.push(group)?;
        self.is_open = true;
        Ok(())
    }

    /// Ends the group that is open. It may have no entries. It takes no memory.
    ///
    /// # Errors
    ///
    /// `NoGroup` where none is open. Then the registry is as it was.
    pub fn end_group(&mut self) -> Result<(), GroupError>
        ensures accepted { OnOk result (spec.refusal_of_end self.old ≡ None) }
        ensures ended { OnOk result (self.new ≡ spec.with_ended self.old) }

        ensures first_refusal { IfErr result (λ why. spec.refusal_of_end self.old ≡ Some why) }
        ensures unchanged { OnErr result (self.new ≡ self.old) }
    {
        if !self.is_open {
            return Err(GroupError::NoGroup);
        }
        self.close();
        Ok(())
    }

    /// Removes a group: its entries become blanks, and its name is free. All other entries stay, under their numbers. It takes
    /// no memory. This call is for a registry without an engine: the command `RemoveGroup` also looks at what modules use.
    ///
    /// # Errors
    ///
    /// The first of these that applies: `NoGroup` where no group of that name was ended (one that is open is not found);
    /// `InUse` where the declaration of an entry outside the group names a type or an enumeration of it, or belongs to one.
    /// After an error the registry is as it was.
    pub fn remove_group(&mut self, name: &[u8]) -> Result<(), GroupError>
        ensures accepted { OnOk result (spec.refusal_of_removal self.old name.now ≡ None) }
        ensures removed { OnOk result (self.new ≡ spec.without self.old name.now) }
        ensures left { OnOk result (IfSome (group_named name.now (grouped self.old))
            (λ group. grouped self.new ≡ without_group group (grouped self.old))) }

        ensures first_refusal { IfErr result
            (λ why. spec.refusal_of_removal self.old name.now ≡ Some why) }
        ensures unchanged { OnErr result (self.new ≡ self.old) }
    {
        let Some(place) = place_of(self.groups(), name) else {
            return Err(GroupError::NoGroup);
        };
        if is_named_outside(&self.list, &self.groups()[place]) {
            return Err(GroupError::InUse);
        }
        self.remove_at(place);
        Ok(())
    }

    /// The groups that were ended, in the order in which they were begun.
    pub fn groups(&self) -> &[Group]
        ensures exact { result.now ≡ closed self.now }
    {
        ended(self.groups.as_slice(), self.is_open)
    }

    /// The group of this name that was ended, or none. It takes no memory.
    pub fn group(&self, name: &[u8]) -> Option<&Group>
        ensures exact { option_copied result ≡ group_named name.now (grouped self.now) }
    {
        group_of(self.groups(), name)
    }

    /// Ends the group that is open, where one is, as `Engine::new` does. It takes no memory.
    pub fn close(&mut self)
        ensures ended { self.new ≡ spec.all_ended self.old }
    {
        if !self.is_open {
            return;
        }
        let after = self.list.len() as u32;
        end_last(self.groups.as_mut_slice(), after);
        self.is_open = false;
    }

    /// The registry with its open group ended, where it has one.
    pub fn closed(self) -> Registry
        ensures ended { result ≡ spec.all_ended self }
    {
        let mut registry = self;
        registry.close();
        registry
    }

    /// Makes blanks of the entries of the group at a place, and takes the group out.
    fn remove_at(&mut self, place: usize)
        requires there { place < length self.old.groups }
        ensures removed { IfSome (slice_get self.old.groups place)
            (λ group. self.new ≡ spec.with_removed_at self.old group place) }
    {
        let group = self.groups.remove(place);
        self.list.blank(group.first as usize, group.after as usize);
    }
}
