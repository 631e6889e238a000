//! What is kept of how the last command ended: the frames of where it faulted, and the ticks that it used.
ghost use Rattle.std.specs.Prelude.{◌≡◌, ◌≤◌, [], false, Some, IsNone, IfSome, option_map, length, slice_get};
ghost use Rattle.ang_code.specs.declared.instruction.Frame.{Frame};
ghost use Rattle.ang_engine_modules.specs.declared.modules.LoadedModule.{LoadedModule};
ghost use Rattle.ang_engine_modules.specs.Traced.{frame_of, frame_in, frames_of, traced_in, StandsIn};
ghost use Rattle.ang_engine_modules.specs.Ended.{is_fault, may_have_run};

use crate::failed::KeptFailure;
use crate::faults::{is_fault, may_have_run};
use crate::modules::Modules;
use crate::reply::Outcome;
use crate::traced::TraceFrame;
use ang_code::Frame;
use ang_vm::LastRun;

/// A command with this budget has ended so: one that did not end with a fault keeps no frames. Answers the ticks
/// that it used.
#[tactic(auto, using(crate::proofs::Tracing::no_frames))]
pub fn end_last(last: &mut LastRun, budget: u64, outcome: Outcome) -> u64
    ensures frames { is_fault outcome ≡ false → frames_of last.new ≡ [] }
    ensures within { result ≤ budget }
    ensures none { may_have_run outcome ≡ false → result ≡ 0 }
{
    if !is_fault(outcome) {
        last.frames.clear();
    }
    if may_have_run(outcome) {
        budget.saturating_sub(last.left)
    } else {
        0
    }
}

/// How many bodies were running where it faulted.
#[tactic(auto, using(crate::proofs::Tracing::frames_count))]
pub fn frame_count(last: &LastRun) -> usize
    ensures exact { result ≡ length (frames_of last.now) }
{
    last.frames.len()
}

/// The frame of that number of these, that of the body that faulted being 0.
#[tactic(auto, using(crate::proofs::Tracing::frame_there, crate::proofs::Tracing::frame_past))]
fn frame_at(last: &LastRun, depth: usize) -> Option<Frame>
    ensures exact { result ≡ slice_get (frames_of last.now) depth }
{
    let count = last.frames.len();
    if depth >= count {
        return None;
    }
    match last.frames.get(count - 1 - depth) {
        Some(frame) => Some(*frame),
        None => None,
    }
}

/// What the body of that frame is declared as, and the statement in which it stood, where its module is loaded, or
/// has failed by this command.
pub fn trace_at<'a>(
    code: &'a Modules,
    failed: &'a Option<KeptFailure>,
    last: &LastRun,
    depth: usize,
) -> Option<TraceFrame<'a>>
    ensures past { length (frames_of last.now) ≤ depth → IsNone (option_map frame_of result) }
    ensures named { (frame : Frame) (l : LoadedModule)
        → slice_get (frames_of last.now) depth ≡ Some frame
        → traced_in code.now failed.now frame.of.home ≡ Some l
        → option_map frame_of result ≡ frame_in l frame.of.number }
    ensures stands { (frame : Frame) (l : LoadedModule)
        → slice_get (frames_of last.now) depth ≡ Some frame
        → traced_in code.now failed.now frame.of.home ≡ Some l
        → IfSome result (λ f. IfSome f.place (StandsIn l frame.of.number f.declared.sect)) }
    ensures section { IfSome result (λ f. IfSome f.place (λ p. p.sect ≡ f.declared.sect)) }
{
    let frame = frame_at(last, depth)?;
    code.trace_frame(failed, frame.of, frame.at)
}
