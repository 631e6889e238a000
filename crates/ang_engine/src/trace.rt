//! Where the last command faulted, and the ticks that it used.
ghost use Rattle.std.specs.Prelude.{◌≡◌, ◌≤◌, ℕ, List, Some, IsNone, IfSome, option_map, length, slice_get};
ghost use Rattle.ang_code.specs.declared.instruction.Frame.{Frame};
ghost use Rattle.ang_view.specs.Registration.{RegistrationList};
ghost use Rattle.ang_engine_modules.specs.declared.modules.LoadedModule.{LoadedModule};
ghost use Rattle.ang_engine_modules.specs.Traced.{frame_of, frame_in};
ghost use Rattle.ang_engine_build.specs.Build.{Compiled, build_of};
ghost use Rattle.ang_engine_build.specs.Placed.{IsTokenPlace};
ghost use Rattle.ang_engine.specs.Engines.{resolved_in};

use crate::engine::Engine;
use ang_engine_modules::{TraceFrame, frame_count, trace_at};
use ang_host::Driver;

impl Engine {
    ghost use Rattle.ang_engine.specs.Trace.{trace_in, traced_module, ticks_in};
    ghost use Rattle.ang_engine.specs.Sound.{IsSound};

    /// How many bodies were running where the last command ended with a fault: the one that faulted, and those
    /// that had called it. 0 after any other command, and where there was no memory to keep them. A command that
    /// ends with a fault is one that answers `Failed` or `InitFailed`; what is no command changes nothing of it.
    pub fn trace_len(&self) -> usize
        requires sound { IsSound ⟦<dyn Driver as Driver>⟧ self.now }
        ensures exact { result ≡ length (trace_in self.now) }
    {
        frame_count(&self.machine.last)
    }

    /// The one of that number of these bodies, with the statement in which it stood: 0 is the one that faulted,
    /// and each further one had called the one before it. `None` past the last. It takes no memory, and is gone
    /// with the next command.
    ///
    /// A trace names functions of whatever module the fault came to: it is for the host, not for the author of
    /// a script.
    pub fn trace(&self, depth: usize) -> Option<TraceFrame<'_>>
        requires sound { IsSound ⟦<dyn Driver as Driver>⟧ self.now }
        ensures past { length (trace_in self.now) ≤ depth → IsNone (option_map frame_of result) }
        ensures named { (frame : Frame) (l : LoadedModule)
            → slice_get (trace_in self.now) depth ≡ Some frame
            → traced_module self.now frame.of.home ≡ Some l
            → option_map frame_of result ≡ frame_in l frame.of.number }
        ensures placed { (frame : Frame) (l : LoadedModule) (sight : RegistrationList)
            (sections : List (List ℕ))
            → slice_get (trace_in self.now) depth ≡ Some frame
            → traced_module self.now frame.of.home ≡ Some l
            → build_of sight sections ≡ Compiled (resolved_in l)
            → IfSome result (λ f. IsTokenPlace sections f.declared
            × IfSome f.place (IsTokenPlace sections)) }
        ensures section { IfSome result (λ f. IfSome f.place (λ p. p.sect ≡ f.declared.sect)) }
    {
        let modules = &self.modules;
        trace_at(&modules.code, &modules.failed, &self.machine.last, depth)
    }

    /// How many ticks of its budget the last command used; 0 where it ran nothing. After a fault it is those
    /// used until then.
    pub fn ticks_used(&self) -> u64
        requires sound { IsSound ⟦<dyn Driver as Driver>⟧ self.now }
        ensures exact { result ≡ ticks_in self.now }
    {
        self.ticks
    }
}
