//! The modules of an engine.
ghost use Rattle.std.specs.Prelude.{◌≡◌, ◌<◌, ◌++◌, ◌∷◌, List as ListOf, [], None, Some, IfOk, IfSome, OnOk, OnErr, option_map, length, reverse, slice_index_or, slice_set, map as list_map};
ghost use Rattle.std.specs.List.{AllByRecursion, list_any};
ghost use Rattle.ang_engine_modules.specs.Keeping.{place_keeps_some};
ghost use Rattle.std.specs.Option.{option_copied};
ghost use Rattle.ang_host.specs.Logs.{listed_in};
ghost use Rattle.ang_host.specs.Boxes.{members};
ghost use Rattle.ang_host.specs.declared.event.Role.{Role};
ghost use Rattle.ang_meaning.specs.Counting.{IsCounted};
ghost use Rattle.ang_heap.specs.Globals.{values_in};
ghost use Rattle.ang_heap.specs.Stores.{world_of, IsReady, StoreMoves};
ghost use Rattle.ang_vm.specs.Machines.{lent};
ghost use Rattle.ang_typed.specs.View.{view_typed};
ghost use Rattle.ang_source.specs.Sound.{SoundProgram};
ghost use Rattle.ang_engine_modules.specs.Executed.{first_globals, call_of, initialization_of};
ghost use Rattle.ang_engine_modules.specs.Ends.{Ends, Answers, completed};
ghost use Rattle.ang_engine_modules.specs.declared.modules.LoadedModule.{LoadedModule};
ghost use Rattle.ang_engine_modules.specs.Loaded.{loaded_at, modules_of, linked_in, unbound_in};
ghost use Rattle.ang_engine_modules.specs.Traced.{frame_of, frame_in, failed_at, traced_in, StandsIn};
ghost use Rattle.ang_engine_modules.specs.Modules.{module_at, result_at, LinkFits, TakesSoMany, AreDriversThere, AgreesWith, IsAskedIn};

use crate::failed::{KeptFailure, failed_frame, failed_module, marks_at};
use crate::globals::defaults;
use crate::groups::some_keep;
use crate::links::{bind_import, unbind_codes, unbind_places};
use crate::runs::{body_count, run_initializers};
use crate::tables::{code_of, no_code};
use crate::traced::{TraceFrame, trace_frame};
use crate::whole::WholeModule;
use ang_gen::{KeptTree, generate_dropping_bodies};
use ang_host::{Driver, EventBuffer};
use ang_kinds::{Fault, List, Value};
use ang_meaning::{Routine, Slot};
use ang_names_known::Names;
use ang_view::{Group, View};
use ang_vm::{Machine, Table, run};
use ang_vm_stack::table::ModuleCode;
use std::alloc::{AllocError, Global};
use std::marker::Model;
use std::mem;

/// What a built module is loaded with.
#[derive(Drop)]
pub struct LoadedModule {
    /// Its name, as events list it.
    pub name: List<u8>,
    /// What its scripts declare.
    pub names: Names,
    /// What it sees of the host.
    pub view: View,
    /// Its resolved tree, for clauses, and what runs read of it.
    pub tree: KeptTree,
    /// By the number of an import, the function that it is bound to, if any.
    pub links: List<Option<Routine>>,
}

/// The modules of an engine, by number, each with its compiled code where it is built. Contracts
/// see the list of what is built.
///
/// Names and views are kept beside the code. No run reads them: contracts speak of them, and a call by
/// declaration looks both up ([`Modules::loaded`]). Of trees only what runs read is kept.
#[derive(Drop)]
pub struct Modules {
    table: Table,
    loaded: Vec<Option<LoadedModule>>,
}

impl Model for Modules {
    ghost use Rattle.std.specs.Prelude.{List, Option};
    ghost use Rattle.std.specs.Coded.{codes};
    ghost use Rattle.ang_typed.specs.contracts.statement.TypedStatement as statement;
    ghost use Rattle.ang_typed.specs.contracts.expression.TypedExpression as expression;
    ghost use Rattle.ang_engine_modules.specs.declared.modules.LoadedModule.{LoadedModule};
    ghost use Rattle.ang_engine_modules.specs.Loaded.{IsLoaded};

    ghost Value = { List (Option LoadedModule) };

    ghost coded = { Prim.hlevel (codes, statement.the_row.coded, expression.the_row.coded) };

    ghost view = { λ m. m.loaded.items };

    ghost invariant = { λ m. IsLoaded m.table m.loaded.items };
}

/// A place more for a module.
///
/// # Errors
/// Want of memory.
fn push_place(
    codes: &mut Vec<ModuleCode>,
    loaded: &mut Vec<Option<LoadedModule>>,
    code: ModuleCode,
) -> Result<(), AllocError>
    ensures codes { OnOk result (codes.new.items ≡ codes.old.items ++ code ∷ []) }
    ensures loaded { OnOk result (loaded.new.items ≡ loaded.old.items ++ None ∷ []) }
    ensures codes_unchanged { OnErr result (codes.new.items ≡ codes.old.items) }
    ensures loaded_unchanged { OnErr result (loaded.new.items ≡ loaded.old.items) }
{
    loaded.reserve(1)?;
    codes.push(code)?;
    loaded.push_reserved(None);
    Ok(())
}

/// Puts code into the place of a module, where there is one, and answers the code that it replaces.
fn replace_code(codes: &mut Vec<ModuleCode>, home: u32, code: ModuleCode) -> ModuleCode
    ensures put { codes.new.items ≡ slice_set codes.old.items home code }
    ensures replaced { result ≡ slice_index_or codes.old.items home code }
{
    let place = home as usize;
    if place < codes.len() {
        mem::replace(&mut codes[place], code)
    } else {
        code
    }
}

/// The same, where that code is given up.
fn put_code(codes: &mut Vec<ModuleCode>, home: u32, code: ModuleCode)
    ensures put { codes.new.items ≡ slice_set codes.old.items home code }
{
    drop(replace_code(codes, home, code));
}

/// Puts what a module is loaded with into its place, where there is one.
fn put_loaded(loaded: &mut Vec<Option<LoadedModule>>, home: u32, item: Option<LoadedModule>)
    ensures put { loaded.new.items ≡ slice_set loaded.old.items home item }
{
    let place = home as usize;
    if place < loaded.len() {
        drop(mem::replace(&mut loaded[place], item));
    } else {
        drop(item);
    }
}

/// Takes what a module is loaded with out of its place, where there is one.
fn take_loaded(loaded: &mut Vec<Option<LoadedModule>>, home: u32) -> Option<LoadedModule>
    ensures taken { loaded.new.items ≡ slice_set loaded.old.items home None }
    ensures item { result ≡ loaded_at loaded.old.items home }
{
    let place = home as usize;
    if place < loaded.len() {
        return mem::replace(&mut loaded[place], None);
    }
    None
}

impl Modules {
    /// No modules. It takes no memory.
    pub fn new(alloc: Global) -> Modules
        ensures none { result ≡ [] }
    {
        Modules {
            table: Table {
                modules: Vec::new(alloc),
            },
            loaded: Vec::new(alloc),
        }
    }

    /// Adds a module that is not built, after those that there are.
    ///
    /// # Errors
    /// Want of memory.
    pub fn add(&mut self, alloc: Global) -> Result<(), AllocError>
        ensures added { OnOk result (self.new ≡ self.old ++ None ∷ []) }
        ensures unchanged { OnErr result (self.new ≡ self.old) }
    {
        push_place(&mut self.table.modules, &mut self.loaded, no_code(alloc))
    }

    /// Builds the module of that number, which is not built, with no import bound yet: compiles its
    /// tree, and makes the machine's code of it.
    ///
    /// # Errors
    /// Want of memory.
    pub fn load(&mut self, alloc: Global, home: u32, loaded: WholeModule) -> Result<(), AllocError>
        requires sound { SoundProgram loaded.view (view_typed loaded.tree) }
        requires unbound { loaded.links ≡ list_map (λ h. None) loaded.tree.imports }
        requires empty { loaded_at self.old home ≡ None }
        ensures placed { OnOk result (self.new ≡ slice_set self.old home (Some loaded)) }
        ensures unchanged { OnErr result (self.new ≡ self.old) }
    {
        let (loaded, tree) = loaded.into_parts();
        let (generated, tree) = match generate_dropping_bodies(alloc, tree) {
            Ok(made) => made,
            Err(error) => {
                drop(loaded);
                return Err(error);
            }
        };
        let name = loaded.name.as_slice();
        let code = match code_of(alloc, home, name, &loaded.view, tree, generated) {
            Ok(code) => code,
            Err(error) => {
                drop(loaded);
                return Err(error);
            }
        };
        put_code(&mut self.table.modules, home, code);
        put_loaded(&mut self.loaded, home, Some(loaded));
        Ok(())
    }

    /// The module of that number is not built any more, and every import that is bound to a
    /// function of it is unbound. It takes no memory.
    pub fn unload(&mut self, alloc: Global, home: u32)
        ensures unloaded { self.new ≡ unbound_in home (slice_set self.old home None) }
    {
        put_code(&mut self.table.modules, home, no_code(alloc));
        put_loaded(&mut self.loaded, home, None);
        unbind_codes(home, &mut self.table.modules);
        unbind_places(alloc, home, &mut self.loaded);
    }

    /// The same where an initializer of the module has failed: answers what it was loaded with and its code, for its
    /// trace. It takes no memory.
    pub fn unload_failed(&mut self, alloc: Global, home: u32) -> Option<KeptFailure>
        ensures unloaded { self.new ≡ unbound_in home (slice_set self.old home None) }
        ensures kept { result ≡ option_map (failed_at home) (loaded_at self.old home) }
    {
        let codes = &mut self.table.modules;
        let code = replace_code(codes, home, no_code(alloc));
        let loaded = take_loaded(&mut self.loaded, home);
        let failed = failed_module(home, loaded, code);
        unbind_codes(home, codes);
        unbind_places(alloc, home, &mut self.loaded);
        failed
    }

    /// Binds an import of a module to a function of another one, or of the same. An earlier binding
    /// is replaced. It takes no memory.
    pub fn bind(&mut self, alloc: Global, home: u32, index: usize, exporter: u32, number: usize)
        requires within { home < length self.old }
        requires fits { LinkFits (modules_of self.old) home index
            (record { home = exporter; number = number }) }
        ensures bound { self.new
            ≡ linked_in home index (Some (record { home = exporter; number = number })) self.old }
    {
        let codes = &mut self.table.modules;
        let function = Routine {
            home: exporter,
            number,
        };
        bind_import(alloc, codes, &mut self.loaded, home, index, Some(function));
    }

    /// Unbinds an import of a module, where there is one of that number. It takes no memory.
    pub fn unbind(&mut self, alloc: Global, home: u32, index: usize)
        requires within { home < length self.old }
        ensures unbound { self.new ≡ linked_in home index None self.old }
    {
        let codes = &mut self.table.modules;
        bind_import(alloc, codes, &mut self.loaded, home, index, None);
    }

    /// What a module is loaded with, where it is built.
    pub fn loaded(&self, home: u32) -> Option<&LoadedModule>
        ensures exact { option_copied result ≡ loaded_at self.now home }
    {
        self.loaded.get(home as usize)?.as_ref()
    }

    /// Whether a built module keeps an entry of the group. It takes no memory, and at most as many steps as the group has
    /// entries for each module.
    pub fn keep(&self, group: &Group) -> bool
        ensures exact { result ≡ list_any (place_keeps_some group.now) self.now }
    {
        some_keep(self.loaded.as_slice(), group)
    }

    /// What a body is declared as whose module is built, or has failed; with the place of the statement of which its
    /// instruction before instruction `at` is. `None` where there is no such body.
    pub fn trace_frame<'a>(
        &'a self,
        failed: &'a Option<KeptFailure>,
        body: Routine,
        at: usize,
    ) -> Option<TraceFrame<'a>>
        ensures named { (l : LoadedModule) → traced_in self.now failed.now body.home ≡ Some l
            → option_map frame_of result ≡ frame_in l body.number }
        ensures stands { (l : LoadedModule) → traced_in self.now failed.now body.home ≡ Some l
            → IfSome result (λ f. IfSome f.place (StandsIn l body.number f.declared.sect)) }
        ensures section { IfSome result (λ f. IfSome f.place (λ p. p.sect ≡ f.declared.sect)) }
    {
        match self.loaded(body.home) {
            Some(loaded) => trace_frame(loaded, marks_at(&self.table, body), body.number, at),
            None => failed_frame(failed, body, at),
        }
    }

    /// The values with which a module's globals begin, each 0, `false` or null.
    ///
    /// # Errors
    /// Want of memory.
    pub fn first_globals(&self, alloc: Global, home: u32) -> Result<Vec<Slot>, AllocError>
        ensures exact { IfOk result
            (λ values. values.items ≡ first_globals (module_at (modules_of self.now) home).tree) }
    {
        match self.loaded(home) {
            Some(loaded) => defaults(alloc, loaded.tree.globals()),
            None => Ok(Vec::new(alloc)),
        }
    }

    /// How many functions a module has: the number of its first initializer.
    fn function_count(&self, home: u32) -> usize
        ensures exact { result ≡ length (module_at (modules_of self.now) home).tree.functions }
    {
        match self.loaded(home) {
            Some(loaded) => loaded.tree.function_count(),
            None => 0,
        }
    }

    /// Runs the initializers of a module's globals, in the order of declaration and on one budget
    /// of ticks. What they ask and which objects end is listed after the events, which need room
    /// for the end of each live host object. A module that is not built has none.
    ///
    /// # Errors
    /// The fault that ended them.
    pub fn initialize(
        &self,
        machine: &mut Machine,
        home: u32,
        budget: u64,
        events: &mut EventBuffer,
    ) -> Result<(), Fault>
        requires drivers { AreDriversThere (modules_of self.now)
            (length (members machine.old.store.drivers)) }
        requires ready { IsReady ⟦<dyn Driver as Driver>⟧ (lent machine.old events.old) }
        requires counted { IsCounted []
            (world_of ⟦<dyn Driver as Driver>⟧ (lent machine.old events.old)) }
        ensures means { Ends (initialization_of (modules_of self.now) budget home)
            (world_of ⟦<dyn Driver as Driver>⟧ (lent machine.old events.old)) (completed result)
            (world_of ⟦<dyn Driver as Driver>⟧ (lent machine.new events.new)) }
        ensures asked { AllByRecursion (IsAskedIn (modules_of self.now)) (listed_in events.old)
            → AllByRecursion (IsAskedIn (modules_of self.now)) (listed_in events.new) }
        ensures counted { IsCounted []
            (world_of ⟦<dyn Driver as Driver>⟧ (lent machine.new events.new)) }
        ensures globals { list_map length (values_in machine.new.store.globals)
            ≡ list_map length (values_in machine.old.store.globals) }
        ensures moves { (roles : ListOf Role) → AgreesWith roles (modules_of self.now)
            → StoreMoves ⟦<dyn Driver as Driver>⟧ roles (lent machine.old events.old)
            (lent machine.new events.new) }
        ensures ready { IsReady ⟦<dyn Driver as Driver>⟧ (lent machine.new events.new) }
        ensures count { length (members machine.new.store.drivers)
            ≡ length (members machine.old.store.drivers) }
    {
        let first = self.function_count(home);
        let end = body_count(&self.table, home);
        run_initializers(&self.table, machine, home, first, end, budget, events)
    }

    /// Calls the function of a number of a module with a budget of ticks, and answers its value,
    /// where it is of a primitive type. Any other value has been given up. The arguments stand in
    /// the order of the parameters. What the function asks and which objects end is listed after
    /// the events, which need room for the end of each live host object.
    ///
    /// # Errors
    /// The fault of the script.
    pub fn call(
        &self,
        machine: &mut Machine,
        home: u32,
        number: usize,
        args: &[Slot],
        budget: u64,
        events: &mut EventBuffer,
    ) -> Result<Option<Value>, Fault>
        requires drivers { AreDriversThere (modules_of self.now)
            (length (members machine.old.store.drivers)) }
        requires takes { TakesSoMany (modules_of self.now) home number (length args.now) }
        requires ready { IsReady ⟦<dyn Driver as Driver>⟧ (lent machine.old events.old) }
        requires counted { IsCounted (reverse args.now)
            (world_of ⟦<dyn Driver as Driver>⟧ (lent machine.old events.old)) }
        ensures means { Answers (result_at (modules_of self.now) home number)
            (call_of (modules_of self.now) budget home number args.now)
            (world_of ⟦<dyn Driver as Driver>⟧ (lent machine.old events.old)) result
            (world_of ⟦<dyn Driver as Driver>⟧ (lent machine.new events.new)) }
        ensures asked { AllByRecursion (IsAskedIn (modules_of self.now)) (listed_in events.old)
            → AllByRecursion (IsAskedIn (modules_of self.now)) (listed_in events.new) }
        ensures counted { IsCounted []
            (world_of ⟦<dyn Driver as Driver>⟧ (lent machine.new events.new)) }
        ensures globals { list_map length (values_in machine.new.store.globals)
            ≡ list_map length (values_in machine.old.store.globals) }
        ensures moves { (roles : ListOf Role) → AgreesWith roles (modules_of self.now)
            → StoreMoves ⟦<dyn Driver as Driver>⟧ roles (lent machine.old events.old)
            (lent machine.new events.new) }
        ensures ready { IsReady ⟦<dyn Driver as Driver>⟧ (lent machine.new events.new) }
        ensures count { length (members machine.new.store.drivers)
            ≡ length (members machine.old.store.drivers) }
    {
        let table = &self.table;
        let entry = Routine { home, number };
        run(table, machine, entry, args, budget, events)
    }
}
