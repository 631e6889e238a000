//! The code of whole bodies and of modules.
ghost use Rattle.std.specs.Prelude.{◌≡◌, ◌<◌, ◌^◌, [], IfOk, IfSome};
ghost use Rattle.std.specs.List.{AllZip};
ghost use Rattle.ang_gen.specs.Code.{body_code};
ghost use Rattle.ang_gen.specs.Marks.{AreAmong};
ghost use Rattle.ang_gen.specs.Peaks.{statement_peak, body_peak};
ghost use Rattle.ang_gen.specs.Programs.{IsBodyCode};

use crate::height::statement_peak;
use crate::room::higher;
use crate::statement::{Exits, declared_by, write_statement};
use crate::text::InstructionBuffer;
use ang_code::{Instruction, Mark, RoutineCode};
use ang_core::{CoreBody, CoreStatement};
use ang_kinds::Position;
use std::alloc::{AllocError, Global};

// The instructions of a whole body with `params` parameters, into a text that is empty so far, and their marks, where these are
// its statements' places.
fn body_text(
    alloc: Global,
    mut text: InstructionBuffer,
    params: usize,
    s: &CoreStatement,
    positions: &[Position],
) -> Result<(Vec<Instruction>, Vec<Mark>), AllocError>
    requires empty { text ≡ [] }
    requires room { statement_peak params s.now < 2 ^ 64 }
    ensures exact { IfOk result (λ code. code.0.items ≡ body_code params s.now) }
    ensures among { IfOk result (λ code. AreAmong positions.now code.1.items) }
{
    text.put(Instruction::Return(declared_by(s)))?;
    text.put(Instruction::PushBits(0))?;
    let end = text.len();
    let exits = Exits {
        params,
        alive: 0,
        exit: end,
        again: end,
    };
    write_statement(&mut text, exits, params, s)?;
    text.into_code(alloc, positions)
}

// The greatest number of values in the frame of a whole body with `params` parameters.
fn frame_peak(params: usize, s: &CoreStatement) -> Option<usize>
    ensures exact { IfSome result (λ n. n ≡ body_peak params s.now) }
{
    let locals = higher(declared_by(s), params)?;
    let end = higher(locals, 1)?;
    let inside = statement_peak(params, s)?;
    Some(inside.max(end))
}

// The same, and an empty text. Each value above the parameters is put there by an instruction, so the text
// begins with room for as many instructions: where the frame can't be counted, that room is refused.
fn frame_of(
    alloc: Global,
    params: usize,
    s: &CoreStatement,
    statements: usize,
) -> Result<(usize, InstructionBuffer), AllocError>
    ensures peak { IfOk result (λ found. found.0 ≡ body_peak params s.now) }
    ensures counted { IfOk result (λ found. found.0 < 2 ^ 64) }
    ensures empty { IfOk result (λ found. found.1 ≡ []) }
{
    let peak = frame_peak(params, s);
    let room = peak.unwrap_or(usize::MAX);
    let text = InstructionBuffer::with_room(alloc, room, statements)?;
    Ok((room, text))
}

/// Generates the code of one body: its instructions, how its parameters take their arguments, the primitive
/// type of its value, the least number of values above the parameters within which it always stays, and which of its
/// instructions are those of which statement.
fn generate_body(alloc: Global, body: &CoreBody) -> Result<RoutineCode, AllocError>
    ensures code { IfOk result (λ code. IsBodyCode body.now code) }
{
    let count = body.params.len();
    let positions = body.positions.as_slice();
    let (peak, text) = frame_of(alloc, count, &body.statement, positions.len())?;
    let (text, marks) = body_text(alloc, text, count, &body.statement, positions)?;
    let params = body.params.clone()?;
    Ok(RoutineCode {
        params,
        result: body.result,
        height: peak - count,
        text,
        marks,
    })
}

/// Generates the code of one module's bodies, one code for each body, in their order: its instructions, how
/// its parameters take their arguments, the primitive type of its value, and the least number of values above
/// the parameters within which it always stays. Each body is let go once its code is made.
///
/// # Errors
/// Want of memory.
pub fn generate_module(alloc: Global, bodies: Vec<CoreBody>) -> Result<Vec<RoutineCode>, AllocError>
    ensures codes { IfOk result (λ codes. AllZip IsBodyCode bodies.items codes.items) }
{
    let mut codes = Vec::with_capacity(alloc, bodies.len())?;
    for body in bodies {
        let code = generate_body(alloc, &body)?;
        codes.push(code)?;
    }
    Ok(codes)
}
