//! What a run leaves behind for whoever asks how it ended: where it faulted, and its ticks.
ghost use Rattle.std.specs.Prelude.{◌≡◌, ◌⊎◌, ◌+◌, [], ◌∷◌, ◌++◌};
ghost use Rattle.ang_code.specs.declared.instruction.Frame.{Frame};
ghost use Rattle.ang_vm.specs.Traces.{IsNoted};

use ang_code::Frame;
use ang_meaning::Routine;
use ang_vm_stack::place::{Cursor, RunResult};
use std::alloc::Global;

/// Where the last run of a machine faulted, and how many ticks it left. Before the first run there are no
/// frames and no ticks.
#[derive(Drop)]
pub struct LastRun {
    /// Of a run that faulted: the bodies that were running, the outermost first, the one that faulted last.
    /// `at` is the number of the instruction after the one at which the body stood: of a caller the
    /// instruction after its call, and of the last frame the one after the step that faulted. A step that
    /// lends operands to a host call stands at the first of them.
    ///
    /// There are none where the run gave a value or its code was not generated from a tree, where it ended
    /// before its first body began, and where there was no memory to keep all of them.
    pub frames: Vec<Frame>,
    /// The ticks that the run left of its budget: after a fault those of the moment at which it faulted.
    pub left: u64,
    /// Where the running body stood before the instruction that was done alone last, and where it faults.
    pub(crate) place: Cursor,
}

impl LastRun {
    /// What a machine has that ran nothing yet. It takes no memory.
    pub fn none(alloc: Global) -> LastRun
        ensures frames { result.frames.items ≡ [] }
        ensures left { result.left ≡ 0 }
    {
        LastRun {
            frames: Vec::new(alloc),
            left: 0,
            place: Cursor {
                at: 0,
                top: 0,
                ticks: 0,
            },
        }
    }
}

/// A run begins: nothing is kept of the one before it.
pub fn begin_run(last: &mut LastRun, budget: u64)
    ensures frames { last.new.frames.items ≡ [] }
    ensures left { last.new.left ≡ budget }
{
    last.frames.clear();
    last.left = budget;
}

/// A run faults in this body, at the place that is kept: it stands above its callers then, and the ticks are those
/// that are left there. Where there is no memory for it, no frame is kept.
///
/// It stays apart, so that the loop over bodies stays small.
#[inline(never)]
pub fn note_fault(last: &mut LastRun, of: Routine, room: usize)
    ensures frames { (last.new.frames.items ≡ []) ⊎ (last.new.frames.items
        ≡ last.old.frames.items
        ++ record { of = of; at = last.old.place.at + 1; room = room } ∷ []) }
    ensures left { last.new.left ≡ last.old.place.ticks }
{
    last.left = last.place.ticks;
    let Some(at) = last.place.at.checked_add(1) else {
        last.frames.clear();
        return;
    };
    let frame = Frame { of, at, room };
    if last.frames.extend_from_slice(&[frame]).is_err() {
        last.frames.clear();
    }
}

/// A run is over: one that did not fault keeps no frames.
pub fn end_run(last: &mut LastRun, ending: RunResult)
    ensures ended { IsNoted ending last.old last.new }
{
    match ending {
        RunResult::Gives(_, left) => {
            last.frames.clear();
            last.left = left;
        }
        RunResult::Stops(_) => {}
        RunResult::Stuck => {
            last.frames.clear();
            last.left = 0;
        }
    }
}
