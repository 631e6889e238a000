//! A module whose initializer failed, kept for the trace of where it did.
ghost use Rattle.std.specs.Prelude.{◌≡◌, None, Some, IfSome, option_map, slice_get};
ghost use Rattle.ang_vm_stack.specs.Tables.{body_of};
ghost use Rattle.ang_engine_modules.specs.declared.modules.LoadedModule.{LoadedModule};
ghost use Rattle.ang_engine_modules.specs.Loaded.{module_of, IsCodeOf};
ghost use Rattle.ang_engine_modules.specs.Traced.{frame_of, frame_in, marks_in, failed_at, failed_in, StandsIn};

use crate::modules::LoadedModule;
use crate::traced::{TraceFrame, trace_frame};
use ang_code::Mark;
use ang_meaning::Routine;
use ang_vm_stack::body::LoadedBody;
use ang_vm_stack::table::{ModuleCode, Table, body_at};
use std::marker::Model;
use std::mem;

/// A module that was built and is not any more, since an initializer of it failed: its number, and what it was loaded
/// with.
#[derive(Drop)]
pub struct FailedModule {
    /// Its number.
    pub home: u32,
    /// What it was loaded with.
    pub loaded: LoadedModule,
}

/// Such a module with its code. Contracts see the module.
#[derive(Drop)]
pub struct KeptFailure {
    module: FailedModule,
    code: ModuleCode,
}

impl Model for KeptFailure {
    ghost use Rattle.std.specs.Prelude.{Some};
    ghost use Rattle.ang_engine_modules.specs.declared.failed.FailedModule.{FailedModule};
    ghost use Rattle.ang_engine_modules.specs.contracts.failed.FailedModule as failed_module;
    ghost use Rattle.ang_engine_modules.specs.Loaded.{module_of, IsCodeOf};

    ghost Value = { FailedModule };

    ghost coded = { failed_module.the_row.coded };

    ghost view = { λ k. k.module };

    ghost invariant = { λ k. IsCodeOf k.module.home (Some k.code) (module_of (Some k.module.loaded)) };
}

/// What is kept of the module of that number that failed, where it was built.
pub fn failed_module(
    home: u32,
    loaded: Option<LoadedModule>,
    code: ModuleCode,
) -> Option<KeptFailure>
    requires code { IsCodeOf home (Some code) (module_of loaded) }
    ensures exact { result ≡ option_map (failed_at home) loaded }
{
    match loaded {
        Some(loaded) => Some(KeptFailure {
            module: FailedModule { home, loaded },
            code,
        }),
        None => {
            drop(code);
            None
        }
    }
}

/// Keeps this in the place of what was kept.
pub fn put_failed(failed: &mut Option<KeptFailure>, item: Option<KeptFailure>)
    ensures put { failed.new ≡ item }
{
    drop(mem::replace(failed, item));
}

/// What was kept of a module that failed is given up.
pub fn forget_failed(failed: &mut Option<KeptFailure>)
    ensures none { failed.new ≡ None }
{
    put_failed(failed, None);
}

/// The marks of the body of that number, if there is one.
pub fn marks_in(bodies: &[LoadedBody], number: usize) -> &[Mark]
    ensures exact { result.now ≡ marks_in (slice_get bodies.now number) }
{
    match bodies.get(number) {
        Some(body) => body.marks(),
        None => &[],
    }
}

/// The marks of a body of a table, if there is one of that number.
pub fn marks_at(table: &Table, body: Routine) -> &[Mark]
    ensures exact { result.now ≡ marks_in (body_of table.now body) }
{
    match body_at(table, body) {
        Some(code) => code.marks(),
        None => &[],
    }
}

impl KeptFailure {
    /// What a body of it is declared as, and the place of the statement of which the instruction before instruction
    /// `at` is. `None` where the body is of another module.
    fn frame(&self, body: Routine, at: usize) -> Option<TraceFrame<'_>>
        ensures named { (l : LoadedModule) → failed_in (Some self.now) body.home ≡ Some l
            → option_map frame_of result ≡ frame_in l body.number }
        ensures stands { (l : LoadedModule) → failed_in (Some self.now) body.home ≡ Some l
            → IfSome result (λ f. IfSome f.place (StandsIn l body.number f.declared.sect)) }
        ensures section { IfSome result (λ f. IfSome f.place (λ p. p.sect ≡ f.declared.sect)) }
    {
        if self.module.home != body.home {
            return None;
        }
        let marks = marks_in(self.code.bodies.as_slice(), body.number);
        trace_frame(&self.module.loaded, marks, body.number, at)
    }
}

/// The same of the module that failed, if one did.
pub fn failed_frame(
    failed: &Option<KeptFailure>,
    body: Routine,
    at: usize,
) -> Option<TraceFrame<'_>>
    ensures named { (l : LoadedModule) → failed_in failed.now body.home ≡ Some l
        → option_map frame_of result ≡ frame_in l body.number }
    ensures stands { (l : LoadedModule) → failed_in failed.now body.home ≡ Some l
        → IfSome result (λ f. IfSome f.place (StandsIn l body.number f.declared.sect)) }
    ensures section { IfSome result (λ f. IfSome f.place (λ p. p.sect ≡ f.declared.sect)) }
{
    match failed {
        Some(failed) => failed.frame(body, at),
        None => None,
    }
}
