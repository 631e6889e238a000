//! What the host registers: sample drivers by the numbers of their entities, and instructions that ask them.
use crate::program::put;
use ang_code::Instruction;
use ang_host::Role;
use ang_kinds::{EntityNo, List, Prim};
use ang_meaning::{HostUse, HostValueType, Operation};
use std::alloc::{AllocError, Global};

/// The driver without objects.
pub const CONSOLE: u32 = 0;

/// The driver whose objects count.
pub const COUNTER: u32 = 1;

/// The driver whose objects hold a number.
pub const CELL: u32 = 2;

const NOTHING: HostValueType = HostValueType::Nothing;

const INT: HostValueType = HostValueType::Plain(Prim::I32);

const LONG: HostValueType = HostValueType::Plain(Prim::I64);

const BYTE: HostValueType = HostValueType::Plain(Prim::I8);

const NATURAL: HostValueType = HostValueType::Plain(Prim::U32);

const HANDLE: HostValueType = HostValueType::Handle;

/// An entity: its driver, its role, whether it is asked of an object, its parameters and its result.
type Entity = (u32, Role, bool, &'static [HostValueType], HostValueType);

/// By number: the types `Counter` (0) and `Cell` (6), which nobody asks, with what belongs to them; what belongs to
/// no type; and at the end a sum with a result that is too small.
const ENTITIES: &[Option<Entity>] = &[
    None,
    Some((COUNTER, Role::Making(0), false, &[], HANDLE)),
    Some((COUNTER, Role::Making(1), false, &[INT], HANDLE)),
    Some((COUNTER, Role::Calling(0), true, &[], NOTHING)),
    Some((COUNTER, Role::Calling(1), true, &[], INT)),
    Some((COUNTER, Role::Property(0), true, &[], INT)),
    None,
    Some((CELL, Role::Making(0), false, &[INT], HANDLE)),
    Some((CELL, Role::Making(1), false, &[HANDLE, INT], HANDLE)),
    Some((CELL, Role::Calling(0), true, &[], INT)),
    Some((CELL, Role::Calling(1), true, &[INT], NOTHING)),
    Some((CELL, Role::Calling(2), false, &[HANDLE], HANDLE)),
    Some((CONSOLE, Role::Calling(0), false, &[LONG], NOTHING)),
    Some((CONSOLE, Role::Calling(1), false, &[LONG, LONG], LONG)),
    Some((CONSOLE, Role::Calling(2), false, &[NATURAL], NOTHING)),
    Some((CONSOLE, Role::Property(0), false, &[], LONG)),
    None,
    Some((CONSOLE, Role::Calling(1), false, &[LONG, LONG], BYTE)),
];

/// `Counter(int)`
pub const NEW_COUNTER: Instruction = Instruction::Apply(Operation::Ask(EntityNo(2)));

/// `Counter::bump`
pub const BUMP: Instruction = Instruction::Apply(Operation::Ask(EntityNo(3)));

/// `Counter::value`
pub const VALUE: Instruction = Instruction::Apply(Operation::Ask(EntityNo(4)));

/// `Counter::step`
pub const STEP: EntityNo = EntityNo(5);

/// `Cell(int)`
pub const NEW_CELL: Instruction = Instruction::Apply(Operation::Ask(EntityNo(7)));

/// `Cell(Cell@+, int)`
pub const CELL_ABOVE: Instruction = Instruction::Apply(Operation::Ask(EntityNo(8)));

/// `Cell::get`
pub const GET: Instruction = Instruction::Apply(Operation::Ask(EntityNo(9)));

/// `Cell::set`
pub const SET: Instruction = Instruction::Apply(Operation::Ask(EntityNo(10)));

/// `pick`
pub const PICK: Instruction = Instruction::Apply(Operation::Ask(EntityNo(11)));

/// `print`, as events have it.
pub const PRINTING: u32 = 12;

/// `print`
pub const PRINT: Instruction = Instruction::Apply(Operation::Ask(EntityNo(PRINTING)));

/// `sum`
pub const SUM: Instruction = Instruction::Apply(Operation::Ask(EntityNo(13)));

/// `fail`
pub const FAIL: Instruction = Instruction::Apply(Operation::Ask(EntityNo(14)));

/// The register.
pub const REGISTER: EntityNo = EntityNo(15);

/// The sum whose result is too small.
pub const SMALL_SUM: Instruction = Instruction::Apply(Operation::Ask(EntityNo(17)));

fn entity(alloc: Global, row: &Option<Entity>) -> Result<Option<HostUse>, AllocError> {
    let Some((driver, role, member, params, result)) = *row else {
        return Ok(None);
    };
    Ok(Some(HostUse {
        driver,
        role,
        member,
        params: List::from_vec(Vec::from_slice(alloc, params)?),
        result,
        read_only: false,
    }))
}

/// The entities, each of which a module sees.
pub fn entities(alloc: Global) -> Result<Vec<Option<HostUse>>, AllocError> {
    let mut entities = Vec::new(alloc);
    for row in ENTITIES {
        put(&mut entities, entity(alloc, row)?)?;
    }
    Ok(entities)
}
