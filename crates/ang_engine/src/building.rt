//! Builds.
ghost use Rattle.std.specs.Prelude.{ℕ, ◌≡◌, ◌≢◌, ◌<◌, ◌≤◌, ◌+◌, ◌-◌, ◌^◌, [], Option, Some, None, length, IfOk, IfErr, IsSome, OnOk, OnErr, slice_set, slice_index_or, map as list_map};
ghost use Rattle.ang_host.specs.Logs.{listed_in, is_heard};
ghost use Rattle.ang_host.specs.Boxes.{members};
ghost use Rattle.ang_view.specs.Registration.{seen};
ghost use Rattle.ang_source.specs.Sound.{SoundProgram};
ghost use Rattle.ang_engine_build.specs.Narrowed.{narrowed};
ghost use Rattle.ang_typed.specs.View.{view_typed};
ghost use Rattle.ang_meaning.specs.Counting.{IsCounted};
ghost use Rattle.ang_heap.specs.Globals.{values_in};
ghost use Rattle.ang_heap.specs.Stores.{world_of, IsReady};
ghost use Rattle.ang_vm.specs.Machines.{lent};
ghost use Rattle.ang_engine_build.specs.Answer.{HasDenials};
ghost use Rattle.ang_engine_build.specs.Build.{build_of, denials_in, resolved_of};
ghost use Rattle.ang_engine_modules.specs.Executed.{first_globals};
ghost use Rattle.ang_engine_modules.specs.Loaded.{loaded_at, modules_of, unbound_in};
ghost use Rattle.ang_engine_modules.specs.Modules.{module_at as built_module_at, AreDriversThere};
ghost use Rattle.ang_engine_modules.specs.declared.modules.LoadedModule.{LoadedModule};
ghost use Rattle.ang_engine.specs.Asked.{HasRunOn, HasAsked};
ghost use Rattle.ang_engine_modules.specs.States.{states_in, state_of, place_of, program_in, build_in, build_at};
ghost use Rattle.ang_engine.specs.Engines.{resolved_in, world_during};
ghost use Rattle.ang_engine.specs.Outcomes.{IfRefusedAtOnce, IsBegun, IsCompiled, HasStarted, refused_by, building, reply_to_build};
ghost use Rattle.ang_engine_modules.specs.Sound.{HasSameName, HaveGlobals};
ghost use Rattle.ang_engine.specs.Prepared.{HaveMoved, replaced};
ghost use Rattle.ang_engine.specs.Sound.{IsBuiltBy, IsSoundPlace, HaveDrivers, AreSoundModules, AreNumbered};
ghost use Rattle.ang_engine_modules.specs.declared.command.Command.TheVariants as command;
ghost use Rattle.ang_engine.specs.Step.{Leads, emptied, build, is_budget};
ghost use Rattle.ang_engine_modules.specs.World.{module_at, module_in, left_to};

use crate::ending::end_globals;
use ang_engine_build::{NoProgram, Program, build_sections, narrow};
use ang_engine_modules::{
    KeptFailure, LoadedModule, Module, ModuleList, Modules, Refusal, WholeModule, find, put_failed,
    put_globals,
};
use ang_host::{Driver, EventBuffer};
use ang_kinds::{Denial, Error, Fault, List, Mask};
use ang_meaning::Slot;
use ang_registry::Registry;
use ang_view::View;
use ang_vm::Machine;
use std::alloc::{AllocError, Global};
use std::mem;

/// Why a module was not built.
#[derive(Drop)]
pub enum BuildRefused {
    /// Before anything was changed.
    Before(Refusal),
    /// A growth of memory was refused before the first initializer.
    Memory,
    /// The sections have these errors, with these denials.
    Errors(List<Error>, List<Denial>),
    /// An initializer failed.
    Initializer(Fault),
}

/// The greatest budget, in ticks.
const MOST_TICKS: u64 = 2_147_483_647;

/// Whether a budget is within its bounds.
pub fn may_run(budget: u64) -> bool
    ensures exact { result ≡ is_budget budget }
{
    1 <= budget && budget <= MOST_TICKS
}

/// What a build is refused by that comes to no program.
pub fn refused_by(why: NoProgram) -> BuildRefused
    ensures exact { result ≡ refused_by why }
    ensures begun { IsBegun result }
{
    match why {
        NoProgram::Errors { errors, denials } => BuildRefused::Errors(errors, denials),
        NoProgram::Memory => BuildRefused::Memory,
    }
}

/// Takes the sections that waited, and the mask becomes the mask of the last build, which has this number.
fn take_sections(alloc: Global, from: &mut Module, number: u64) -> Vec<List<u8>>
    ensures sections { result.items ≡ from.old.sections.items }
    ensures few { length result.items ≤ 64 }
    ensures emptied { (l : Option LoadedModule)
        → state_of from.new None ≡ emptied (state_of from.old l) }
    ensures name { from.new.name ≡ from.old.name }
    ensures built_mask { from.new.built_mask ≡ from.old.mask }
    ensures build { from.new.build ≡ Some number }
{
    from.built_mask = from.mask;
    from.build = Some(number);
    mem::replace(&mut from.sections, Vec::new(alloc))
}

/// The module of a program, which keeps of this view what the program uses.
///
/// # Errors
/// Want of memory.
fn with_uses(
    alloc: Global,
    name: &[u8],
    view: View,
    program: Program,
) -> Result<WholeModule, AllocError>
    ensures name { IfOk result (λ l. l.name ≡ name.now) }
    ensures view { IfOk result (λ l. l.view ≡ narrowed view (view_typed l.tree)) }
    ensures program { IfOk result (λ l. resolved_in l ≡ resolved_of program) }
    ensures unbound { IfOk result (λ l. l.links ≡ list_map (λ h. None) l.tree.imports) }
{
    let Program { names, tree } = program;
    match narrow(alloc, &view, &tree) {
        Ok(kept) => {
            drop(view);
            WholeModule::unbound(alloc, name, kept, names, tree)
        }
        Err(error) => {
            drop(tree);
            drop(names);
            drop(view);
            Err(error)
        }
    }
}

/// What the sections build to over what the mask sees. The module keeps of that what its program uses.
pub fn compile(
    alloc: Global,
    registry: &Registry,
    name: &[u8],
    mask: Mask,
    sections: &[List<u8>],
) -> Result<WholeModule, NoProgram>
    requires few { length sections.now < 2 ^ 32 }
    ensures compiled { IsCompiled result
        (build_of (seen registry.now.entries mask.0) sections.now) }
    ensures denials { HasDenials result (denials_in registry.now.entries mask.0 sections.now) }
    ensures name { IfOk result (λ l. l.name ≡ name.now) }
    ensures view { IfOk result
        (λ l. l.view ≡ narrowed (seen registry.now.entries mask.0) (view_typed l.tree)) }
    ensures unbound { IfOk result (λ l. l.links ≡ list_map (λ h. None) l.tree.imports) }
    ensures sound { IfOk result (λ l. SoundProgram l.view (view_typed l.tree)) }
{
    let Ok(view) = registry.seen(alloc, mask) else {
        return Err(NoProgram::Memory);
    };
    match build_sections(alloc, registry, mask, &view, sections) {
        Ok(program) => match with_uses(alloc, name, view, program) {
            Ok(loaded) => Ok(loaded),
            Err(_) => Err(NoProgram::Memory),
        },
        Err(why) => {
            drop(view);
            Err(why)
        }
    }
}

/// Takes the sections that waited, and builds them over what the module's mask sees now: the build of this
/// number.
fn compile_waiting(
    alloc: Global,
    registry: &Registry,
    from: &mut Module,
    number: u64,
) -> Result<WholeModule, NoProgram>
    ensures compiled { IsCompiled result
        (build_of (seen registry.now.entries from.old.mask.0) from.old.sections.items) }
    ensures denials { HasDenials result
        (denials_in registry.now.entries from.old.mask.0 from.old.sections.items) }
    ensures built { IfOk result
        (λ l. IsBuiltBy registry.now.entries from.new.name from.new.built_mask.0 l) }
    ensures shown { IfOk result
        (λ l. l.view ≡ narrowed (seen registry.now.entries from.old.mask.0) (view_typed l.tree)) }
    ensures unbound { IfOk result (λ l. l.links ≡ list_map (λ h. None) l.tree.imports) }
    ensures sound { IfOk result (λ l. SoundProgram l.view (view_typed l.tree)) }
    ensures emptied { (l : Option LoadedModule)
        → state_of from.new None ≡ emptied (state_of from.old l) }
    ensures name { from.new.name ≡ from.old.name }
    ensures built_mask { from.new.built_mask ≡ from.old.mask }
    ensures build { from.new.build ≡ Some number }
{
    let sections = take_sections(alloc, from, number);
    compile(
        alloc,
        registry,
        from.name.as_slice(),
        from.built_mask,
        &sections,
    )
}

/// Loads a module, and gives the first values of its globals.
///
/// # Errors
/// Want of memory, before or after the module was loaded.
fn load(
    alloc: Global,
    code: &mut Modules,
    home: u32,
    loaded: WholeModule,
) -> Result<Vec<Slot>, AllocError>
    requires sound { SoundProgram loaded.view (view_typed loaded.tree) }
    requires unbound { loaded.links ≡ list_map (λ h. None) loaded.tree.imports }
    requires empty { loaded_at code.old home ≡ None }
    requires free { unbound_in home code.old ≡ code.old }
    ensures loaded { OnOk result (code.new ≡ slice_set code.old home (Some loaded)) }
    ensures values { IfOk result
        (λ values. values.items ≡ first_globals (built_module_at (modules_of code.new) home).tree) }
    ensures unloaded { unbound_in home (slice_set code.new home None) ≡ code.old }
{
    code.load(alloc, home, loaded)?;
    code.first_globals(alloc, home)
}

/// Loads a module that has no globals, and runs the initializers of its globals. Where one fails its
/// globals end.
///
/// # Errors
/// `Memory` or `Initializer`. Then the module is not built; after `Initializer` what it was loaded with is kept
/// for its names.
fn start(
    alloc: Global,
    code: &mut Modules,
    failed: &mut Option<KeptFailure>,
    machine: &mut Machine,
    events: &mut EventBuffer,
    home: u32,
    loaded: WholeModule,
    budget: u64,
) -> Result<(), BuildRefused>
    requires sound { SoundProgram loaded.view (view_typed loaded.tree) }
    requires unbound { loaded.links ≡ list_map (λ h. None) loaded.tree.imports }
    requires empty { loaded_at code.old home ≡ None }
    requires free { unbound_in home code.old ≡ code.old }
    requires drivers { AreDriversThere (modules_of (slice_set code.old home (Some loaded)))
        (length (members machine.old.store.drivers)) }
    requires ready { IsReady ⟦<dyn Driver as Driver>⟧ (lent machine.old events.old) }
    requires counted { IsCounted []
        (world_of ⟦<dyn Driver as Driver>⟧ (lent machine.old events.old)) }
    requires none { slice_index_or (values_in machine.old.store.globals) home [] ≡ [] }
    requires within { home < length code.old }
    ensures started { HasStarted (modules_of (slice_set code.old home (Some loaded))) home budget
        (program_in loaded) (world_of ⟦<dyn Driver as Driver>⟧ (lent machine.old events.old)) result
        (world_of ⟦<dyn Driver as Driver>⟧ (lent machine.new events.new)) }
    ensures asked { HasRunOn ⟦<dyn Driver as Driver>⟧
        (modules_of (slice_set code.old home (Some loaded))) (lent machine.old events.old)
        (lent machine.new events.new) }
    ensures globals { (n : ℕ) × (list_map length (values_in machine.new.store.globals)
        ≡ slice_set (list_map length (values_in machine.old.store.globals)) home n) }
    ensures built { OnOk result (code.new ≡ slice_set code.old home (Some loaded)) }
    ensures unloaded { OnErr result (code.new ≡ code.old) }
    ensures begun { IfErr result IsBegun }
{
    match load(alloc, code, home, loaded) {
        Ok(values) => put_globals(&mut machine.store.globals, home, values),
        Err(_) => {
            code.unload(alloc, home);
            return Err(BuildRefused::Memory);
        }
    }
    match code.initialize(machine, home, budget, events) {
        Ok(()) => Ok(()),
        Err(fault) => {
            end_globals(alloc, machine, events, home as usize);
            put_failed(failed, code.unload_failed(alloc, home));
            Err(BuildRefused::Initializer(fault))
        }
    }
}

/// The same of the module in a place.
fn compile_place(
    alloc: Global,
    registry: &Registry,
    place: &mut Option<Module>,
    number: u64,
) -> Result<WholeModule, NoProgram>
    requires there { IsSome place.old }
    ensures compiled { (l : Option LoadedModule) → IsCompiled result
        (build_of (seen registry.now.entries (module_in (place_of place.old l)).mask)
        (module_in (place_of place.old l)).sections) }
    ensures denials { (l : Option LoadedModule) → HasDenials result
        (denials_in registry.now.entries (module_in (place_of place.old l)).mask
        (module_in (place_of place.old l)).sections) }
    ensures built { IfOk result
        (λ loaded. IsSoundPlace registry.now.entries place.new (Some loaded)) }
    ensures shown { IfOk result (λ loaded. (k : Option LoadedModule) → loaded.view
        ≡ narrowed (seen registry.now.entries (module_in (place_of place.old k)).mask)
        (view_typed loaded.tree)) }
    ensures unbound { IfOk result (λ l. l.links ≡ list_map (λ h. None) l.tree.imports) }
    ensures sound { IfOk result (λ l. SoundProgram l.view (view_typed l.tree)) }
    ensures emptied { (l : Option LoadedModule)
        → place_of place.new None ≡ Some (emptied (module_in (place_of place.old l))) }
    ensures name { HasSameName place.old place.new }
    ensures build { build_in place.new ≡ Some number }
{
    match place {
        Some(module) => compile_waiting(alloc, registry, module, number),
        None => unreachable!(),
    }
}

/// Builds a module, after its globals have ended and every import that was bound to it is unbound.
fn build_module(
    alloc: Global,
    registry: &Registry,
    list: &mut ModuleList,
    machine: &mut Machine,
    events: &mut EventBuffer,
    home: u32,
    budget: u64,
) -> Result<(), BuildRefused>
    requires within { home < length list.old.places.items }
    requires there { IsSome (slice_index_or list.old.places.items home None) }
    requires globals { HaveGlobals list.old (values_in machine.old.store.globals) }
    requires modules { AreSoundModules registry.now.entries list.old }
    requires drivers { HaveDrivers registry.now.entries
        (length (members machine.old.store.drivers)) }
    requires ready { IsReady ⟦<dyn Driver as Driver>⟧ (lent machine.old events.old) }
    requires counted { IsCounted []
        (world_of ⟦<dyn Driver as Driver>⟧ (lent machine.old events.old)) }
    requires first { listed_in events.old ≡ [] }
    requires more { list.old.builds < 2 ^ 64 - 1 }
    ensures done { Leads (build registry.now.entries
        (world_during ⟦<dyn Driver as Driver>⟧ list.old machine.old) home
        (module_at (world_during ⟦<dyn Driver as Driver>⟧ list.old machine.old) home)
        budget)
        (reply_to_build result (listed_in events.new))
        (world_during ⟦<dyn Driver as Driver>⟧ list.new machine.new) }
    ensures asked { HasAsked ⟦<dyn Driver as Driver>⟧ registry.now.entries
        (left_to (states_in list.new) (world_of ⟦<dyn Driver as Driver>⟧ machine.new.store))
        (reply_to_build result (listed_in events.new)).events machine.old.store machine.new.store }
    ensures sound { AreSoundModules registry.now.entries list.new }
    ensures globals { HaveGlobals list.new (values_in machine.new.store.globals) }
    ensures heard { is_heard events.new ≡ is_heard events.old }
    ensures begun { IfErr result IsBegun }
    ensures builds { list.new.builds ≡ list.old.builds + 1 }
    ensures build { build_at list.new.places.items home ≡ Some list.new.builds }
    ensures others { (i : ℕ) → i ≢ home
        → build_at list.new.places.items i ≡ build_at list.old.places.items i }
    ensures numbered { AreNumbered list.old → AreNumbered list.new }
{
    end_globals(alloc, machine, events, home as usize);
    list.code.unload(alloc, home);
    let number = list.builds + 1;
    list.builds = number;
    match compile_place(alloc, registry, &mut list.places[home as usize], number) {
        Ok(loaded) => start(
            alloc,
            &mut list.code,
            &mut list.failed,
            machine,
            events,
            home,
            loaded,
            budget,
        ),
        Err(why) => Err(refused_by(why)),
    }
}

/// Builds the module of that name: `Command::Build`. The events need room for the end of each live
/// host object.
pub fn build(
    alloc: Global,
    registry: &Registry,
    list: &mut ModuleList,
    machine: &mut Machine,
    events: &mut EventBuffer,
    name: &[u8],
    budget: u64,
) -> Result<(), BuildRefused>
    requires modules { AreSoundModules registry.now.entries list.old }
    requires globals { HaveGlobals list.old (values_in machine.old.store.globals) }
    requires drivers { HaveDrivers registry.now.entries
        (length (members machine.old.store.drivers)) }
    requires ready { IsReady ⟦<dyn Driver as Driver>⟧ (lent machine.old events.old) }
    requires counted { IsCounted []
        (world_of ⟦<dyn Driver as Driver>⟧ (lent machine.old events.old)) }
    requires first { listed_in events.old ≡ [] }
    requires more { list.old.builds < 2 ^ 64 - 1 }
    ensures done { Leads (building registry.now.entries name.now budget
        (world_during ⟦<dyn Driver as Driver>⟧ list.old machine.old))
        (reply_to_build result (listed_in events.new))
        (world_during ⟦<dyn Driver as Driver>⟧ list.new machine.new) }
    ensures asked { HasAsked ⟦<dyn Driver as Driver>⟧ registry.now.entries
        (left_to (states_in list.new) (world_of ⟦<dyn Driver as Driver>⟧ machine.new.store))
        (reply_to_build result (listed_in events.new)).events machine.old.store machine.new.store }
    ensures sound { AreSoundModules registry.now.entries list.new }
    ensures globals { HaveGlobals list.new (values_in machine.new.store.globals) }
    ensures refused { IfRefusedAtOnce (reply_to_build result (listed_in events.new)).outcome
        (members machine.new.store.drivers ≡ members machine.old.store.drivers) }
    ensures heard { is_heard events.new ≡ is_heard events.old }
    ensures prepared { HaveMoved (replaced (command.Build name.now budget)
        (reply_to_build result (listed_in events.new)).outcome
        (world_during ⟦<dyn Driver as Driver>⟧ list.old machine.old))
        list.old.builds (build_at list.old.places.items)
        list.new.builds (build_at list.new.places.items) }
    ensures numbered { AreNumbered list.old → AreNumbered list.new }
{
    let Some(home) = find(&list.places, name) else {
        return Err(BuildRefused::Before(Refusal::NoModule));
    };
    if !may_run(budget) {
        return Err(BuildRefused::Before(Refusal::BadBudget));
    }
    build_module(alloc, registry, list, machine, events, home, budget)
}
