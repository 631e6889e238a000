//! The text of a trace: each body that was running where a command ended with a fault, on a line of its own
//! (docs/FORMATS.md, "Traces").
ghost use Rattle.std.specs.Prelude.{◌≡◌, ◌++◌, OnOk};
ghost use Rattle.asrun_text.specs.Trace.{frame_name, place_or_none, trace_line, trace_line_text};

use crate::reply::{push_bytes, push_place};
use ang_engine::TraceFrame;
use ang_kinds::Place;
use asrun_lines::push_text;
use std::alloc::AllocError;

/// `f`, `C::f`, or `global g`.
#[tactic(auto, using(crate::proofs::Texts::texts), unfolding(crate::specs::Trace::frame_name))]
fn push_frame_name(
    out: &mut Vec<u8>,
    class: &[u8],
    name: &[u8],
    is_global: bool,
) -> Result<(), AllocError>
    ensures added { OnOk result
        (out.new.items ≡ out.old.items ++ frame_name class.now name.now is_global) }
{
    if is_global {
        push_text(out, "global ")?;
        return push_bytes(out, name);
    }
    if class.is_empty() {
        return push_bytes(out, name);
    }
    push_bytes(out, class)?;
    push_text(out, "::")?;
    push_bytes(out, name)
}

#[tactic(auto, using(crate::proofs::Texts::texts))]
fn push_place_or_none(out: &mut Vec<u8>, place: Option<Place>) -> Result<(), AllocError>
    ensures added { OnOk result (out.new.items ≡ out.old.items ++ place_or_none place) }
{
    match place {
        Some(place) => push_place(out, place),
        None => push_text(out, "-"),
    }
}

/// The line of one body of a trace, put after what stands in `out`: its module; the class, where it is a method or a
/// constructor, and its name, or that of the global whose initializer it is; where that name is declared; and the place of
/// the statement in which it stood, where there is one.
///
/// # Errors
/// A growth of memory was refused. Nothing is promised of `out` then.
#[tactic(auto, using(crate::proofs::Texts::texts), unfolding(crate::specs::Trace::trace_line_text))]
pub fn push_trace_frame(out: &mut Vec<u8>, frame: &TraceFrame<'_>) -> Result<(), AllocError>
    ensures added { OnOk result
        (out.new.items ≡ out.old.items ++ trace_line_text (trace_line frame.now)) }
{
    push_text(out, "at ")?;
    push_bytes(out, frame.module)?;
    push_text(out, " ")?;
    push_frame_name(out, frame.class, frame.name, frame.is_global)?;
    push_text(out, " ")?;
    push_place(out, frame.declared)?;
    push_text(out, " ")?;
    push_place_or_none(out, frame.place)?;
    push_text(out, "\n")
}
