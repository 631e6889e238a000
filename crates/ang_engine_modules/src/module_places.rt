//! The modules of an engine, by name, and their waiting sections.
ghost use Rattle.std.specs.Prelude.{ℕ, ◌≡◌, ◌≢◌, ◌⊎◌, ◌<◌, ◌≤◌, ◌^◌, ◌++◌, ◌∷◌, [], Option, Some, None, length, position, is_none, filter, not, ◌==◌, IsSome, IfSome, IfOk, IfErr, OnOk, OnErr, slice_get, slice_index_or, slice_set};
ghost use Rattle.ang_meaning.specs.World.{World as RunWorld};
ghost use Rattle.ang_heap.specs.Globals.{values_in};
ghost use Rattle.ang_engine_modules.specs.Loaded.{unbound_in};
ghost use Rattle.ang_engine_modules.specs.declared.modules.LoadedModule.{LoadedModule};
ghost use Rattle.ang_engine_modules.specs.declared.reply.Refusal.TheVariants.{Limit, Memory};
ghost use Rattle.ang_engine_modules.specs.States.{places_of, place_of, states_in, state_of, is_named, world_beside, build_in, HaveSameBuilds};
ghost use Rattle.ang_engine_modules.specs.Outcomes.{IsDone, IsDoneWithoutMemory, IsAdded, adding, masking};
ghost use Rattle.ang_engine_modules.specs.Sound.{IsKept, ArePlacesKept, IsSameList};
ghost use Rattle.ang_engine_modules.specs.Taken.{IsReadied, HasTaken, IsFull};
ghost use Rattle.ang_engine_modules.specs.Commands.{added_module};
ghost use Rattle.ang_engine_modules.specs.World.{has_name, module_in, left_to};

use crate::module::{MOST_MODULES, MOST_SECTIONS, Module, ModuleList};
use crate::reply::Refusal;
use ang_heap::Globals;
use ang_kinds::{List, Mask};
use ang_lex::is_name;
use ang_meaning::Slot;
use std::alloc::{AllocError, Global};

/// Whether there is a module of that name in a place.
fn is_named(place: &Option<Module>, name: &[u8]) -> bool
    ensures exact { result ≡ is_named name.now place.now }
{
    match place {
        Some(module) => module.name.as_slice() == name,
        None => false,
    }
}

/// The place of the module of that name.
fn place_named(places: &[Option<Module>], name: &[u8]) -> Option<usize>
    ensures exact { result ≡ position (is_named name.now) places.now }
{
    places.iter().position(|place| is_named(place, name))
}

/// The first empty place.
fn first_empty(places: &[Option<Module>]) -> Option<usize>
    ensures exact { result ≡ position is_none places.now }
{
    places.iter().position(|place| place.is_none())
}

/// The number of the module of that name, where there is one.
pub fn find(places: &[Option<Module>], name: &[u8]) -> Option<u32>
    requires few { length places.now < 2 ^ 32 }
    ensures exact { (code : List (Option LoadedModule))
        → result ≡ position (has_name name.now) (places_of places.now code) }
    ensures within { IfSome result (λ i. i < length places.now) }
    ensures there { IfSome result (λ i. IsSome (slice_index_or places.now i None)) }
{
    match place_named(places, name) {
        Some(place) => Some(place as u32),
        None => None,
    }
}

/// Puts these values in the place of the globals of the module of that number, where there is one.
#[tactic(auto, using(crate::proofs::PlaceLists::map_set))]
pub fn put_globals(globals: &mut Globals, home: u32, values: Vec<Slot>)
    ensures set { values_in globals.new ≡ slice_set (values_in globals.old) home values.items }
{
    let home = home as usize;
    if home < globals.modules.len() {
        *globals.modules[home] = values;
    }
}

/// Adds an empty place, without globals.
///
/// # Errors
/// Want of memory.
fn push_place(alloc: Global, list: &mut ModuleList, globals: &mut Globals) -> Result<(), AllocError>
    ensures places { OnOk result (list.new.places.items ≡ list.old.places.items ++ None ∷ []) }
    ensures code { OnOk result (list.new.code ≡ list.old.code ++ None ∷ []) }
    ensures globals { OnOk result (values_in globals.new ≡ values_in globals.old ++ [] ∷ []) }
    ensures places_unchanged { OnErr result (list.new.places.items ≡ list.old.places.items) }
    ensures code_unchanged { OnErr result (list.new.code ≡ list.old.code) }
    ensures globals_unchanged { OnErr result (values_in globals.new ≡ values_in globals.old) }
    ensures order { list.new.order ≡ list.old.order }
    ensures builds { list.new.builds ≡ list.old.builds }
{
    list.places.reserve(1)?;
    globals.modules.reserve(1)?;
    let values = Box::new(alloc, Vec::new(alloc))?;
    list.code.add(alloc)?;
    list.places.push_reserved(None);
    globals.modules.push_reserved(values);
    Ok(())
}

/// The number of an empty place: of the first one that there is, or of one more after all others.
///
/// # Errors
/// `Limit` where there are as many places as there can be modules; `Memory`.
fn ready_place(
    alloc: Global,
    list: &mut ModuleList,
    globals: &mut Globals,
) -> Result<usize, Refusal>
    ensures ready { IfOk result (λ place. IsReadied list.old (values_in globals.old) list.new
        (values_in globals.new) place) }
    ensures limit { IfErr result (λ why. (why ≡ Memory) ⊎ ((why ≡ Limit) × IsFull list.old)) }
    ensures places_unchanged { OnErr result (list.new.places.items ≡ list.old.places.items) }
    ensures code_unchanged { OnErr result (list.new.code ≡ list.old.code) }
    ensures globals_unchanged { OnErr result (values_in globals.new ≡ values_in globals.old) }
    ensures order { list.new.order ≡ list.old.order }
    ensures builds { list.new.builds ≡ list.old.builds }
{
    if let Some(place) = first_empty(&list.places) {
        return Ok(place);
    }
    let place = list.places.len();
    if place >= MOST_MODULES {
        return Err(Refusal::Limit);
    }
    match push_place(alloc, list, globals) {
        Ok(()) => Ok(place),
        Err(_) => Err(Refusal::Memory),
    }
}

/// Puts a module into the first empty place, or into a new one, as the module made last.
///
/// # Errors
/// `Limit` where no place is empty and there are as many as there can be modules; `Memory`.
fn put_module(
    alloc: Global,
    list: &mut ModuleList,
    globals: &mut Globals,
    new_one: Module,
) -> Result<(), Refusal>
    requires few { length list.old.places.items ≤ 64 }
    requires unbuilt { new_one.build ≡ None }
    ensures taken { OnOk result (HasTaken list.old (values_in globals.old) new_one list.new
        (values_in globals.new)) }
    ensures limit { IfErr result (λ why. (why ≡ Memory) ⊎ ((why ≡ Limit) × IsFull list.old)) }
    ensures places_unchanged { OnErr result (list.new.places.items ≡ list.old.places.items) }
    ensures code_unchanged { OnErr result (list.new.code ≡ list.old.code) }
    ensures globals_unchanged { OnErr result (values_in globals.new ≡ values_in globals.old) }
    ensures order_unchanged { OnErr result (list.new.order.items ≡ list.old.order.items) }
    ensures builds { HaveSameBuilds list.old list.new }
{
    if list.order.reserve(1).is_err() {
        return Err(Refusal::Memory);
    }
    match ready_place(alloc, list, globals) {
        Ok(place) => {
            list.places[place] = Some(new_one);
            list.order.push_reserved(place as u32);
            Ok(())
        }
        Err(refusal) => Err(refusal),
    }
}

/// Adds a module without sections, unbuilt: `Command::NewModule`.
///
/// # Errors
/// The first that applies: `BadName` where the name is no identifier, `ModuleExists` where a module
/// has it, `Limit` where there are 64 modules; or `Memory`. All is then as it was.
pub fn add_module(
    alloc: Global,
    list: &mut ModuleList,
    globals: &mut Globals,
    name: List<u8>,
    mask: Mask,
) -> Result<(), Refusal>
    requires few { length list.old.places.items ≤ 64 }
    requires zipped { length list.old.code ≡ length list.old.places.items }
    requires empty { (i : ℕ) → slice_get list.old.places.items i ≡ Some None
        → slice_index_or list.old.code i None ≡ None }
    ensures done { (r : RunWorld) → IsDone result
        (added_module name mask.0 (world_beside list.old globals.old r))
        (world_beside list.old globals.old r) (world_beside list.new globals.new r) }
    ensures taken { OnOk result ((one : Module) × (one.name ≡ name) × HasTaken list.old
        (values_in globals.old) one list.new (values_in globals.new)) }
    ensures free { OnOk result ((i : ℕ) (m : Module)
        → slice_get list.old.places.items i ≡ Some (Some m) → m.name ≢ name) }
    ensures unchanged { OnErr result (IsSameList list.old list.new) }
    ensures globals_unchanged { OnErr result (values_in globals.new ≡ values_in globals.old) }
    ensures builds { HaveSameBuilds list.old list.new }
{
    if !is_name(name.as_slice()) {
        return Err(Refusal::BadName);
    }
    if find(&list.places, name.as_slice()).is_some() {
        return Err(Refusal::ModuleExists);
    }
    let module = Module {
        name,
        mask,
        built_mask: mask,
        build: None,
        sections: Vec::new(alloc),
    };
    put_module(alloc, list, globals, module)
}

/// Gives the module in a place another mask.
fn put_mask(place: &mut Option<Module>, mask: Mask)
    requires there { IsSome place.old }
    ensures masked { (l : Option LoadedModule) → place_of place.new l
        ≡ Some (record (module_in (place_of place.old l)) { mask = mask.0 }) }
    ensures kept { IsKept place.old place.new }
    ensures build { build_in place.new ≡ build_in place.old }
{
    match place {
        Some(module) => module.mask = mask,
        None => unreachable!(),
    }
}

/// Gives the module of that name another mask: `Command::SetMask`. It takes no memory.
///
/// # Errors
/// `NoModule` where there is none of that name. All is then as it was.
pub fn set_mask(list: &mut ModuleList, name: List<u8>, mask: Mask) -> Result<(), Refusal>
    requires few { length list.old.places.items < 2 ^ 32 }
    ensures done { (r : RunWorld) → IsDoneWithoutMemory result (masking name mask.0
        (left_to (states_in list.old) r)) (left_to (states_in list.old) r)
        (left_to (states_in list.new) r) }
    ensures kept { ArePlacesKept list.old list.new }
    ensures builds { HaveSameBuilds list.old list.new }
{
    let Some(i) = find(&list.places, name.as_slice()) else {
        return Err(Refusal::NoModule);
    };
    put_mask(&mut list.places[i as usize], mask);
    Ok(())
}

/// Adds a section to those that wait in a module.
///
/// # Errors
/// `Limit` where 64 wait; `Memory`. The module is then as it was.
fn push_section(into: &mut Module, text: List<u8>) -> Result<(), Refusal>
    ensures added { (l : Option LoadedModule)
        → IsAdded result text (state_of into.old l) (state_of into.new l) }
    ensures name { into.new.name ≡ into.old.name }
    ensures built_mask { into.new.built_mask ≡ into.old.built_mask }
    ensures build { into.new.build ≡ into.old.build }
{
    if into.sections.len() >= MOST_SECTIONS {
        return Err(Refusal::Limit);
    }
    if into.sections.push(text).is_err() {
        return Err(Refusal::Memory);
    }
    Ok(())
}

/// The same of the module in a place.
fn push_text(place: &mut Option<Module>, text: List<u8>) -> Result<(), Refusal>
    requires there { IsSome place.old }
    ensures added { (l : Option LoadedModule) → IsAdded result text
        (module_in (place_of place.old l)) (module_in (place_of place.new l)) }
    ensures kept { IsKept place.old place.new }
    ensures build { build_in place.new ≡ build_in place.old }
{
    match place {
        Some(module) => push_section(module, text),
        None => unreachable!(),
    }
}

/// Adds a section to those that wait in the module of that name: `Command::AddSection`.
///
/// # Errors
/// The first that applies: `NoModule` where there is none of that name, `Limit` where 64 sections
/// wait in it; or `Memory`. All is then as it was.
pub fn add_section(list: &mut ModuleList, name: List<u8>, text: List<u8>) -> Result<(), Refusal>
    requires few { length list.old.places.items < 2 ^ 32 }
    ensures done { (r : RunWorld) → IsDone result (adding name text
        (left_to (states_in list.old) r)) (left_to (states_in list.old) r)
        (left_to (states_in list.new) r) }
    ensures kept { ArePlacesKept list.old list.new }
    ensures builds { HaveSameBuilds list.old list.new }
{
    let Some(i) = find(&list.places, name.as_slice()) else {
        return Err(Refusal::NoModule);
    };
    push_text(&mut list.places[i as usize], text)
}

/// Takes a number out of the order.
fn remove_number(order: &mut Vec<u32>, home: u32)
    ensures removed { order.new.items ≡ filter (λ j. not (j == home)) order.old.items }
{
    order.retain(|number| *number != home);
}

/// Takes the module out of its place, which is empty from here on, and every import that is bound
/// to it is unbound.
pub fn remove_module(alloc: Global, list: &mut ModuleList, home: u32)
    ensures places { list.new.places.items ≡ slice_set list.old.places.items home None }
    ensures code { list.new.code ≡ unbound_in home (slice_set list.old.code home None) }
    ensures order { list.new.order.items ≡ filter (λ j. not (j == home)) list.old.order.items }
    ensures builds { list.new.builds ≡ list.old.builds }
{
    let place = home as usize;
    if place < list.places.len() {
        list.places[place] = None;
    }
    list.code.unload(alloc, home);
    remove_number(&mut list.order, home);
}
