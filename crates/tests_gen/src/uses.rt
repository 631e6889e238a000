//! Registered entities as code asks them.
use ang_host::Role;
use ang_kinds::{EntityNo, List, Mask, Param, Pass, Prim, Shape, Signature, TypeRef};
use ang_lower::host_use;
use ang_meaning::{HostUse, HostValueType};
use ang_view::{Entry, EntryKind};
use std::alloc::{AllocError, Global};

fn handle(alloc: Global) -> TypeRef {
    TypeRef::Object {
        name: List::from_vec(Vec::new(alloc)),
        shape: Shape::Handle,
        const_object: false,
        const_handle: false,
    }
}

fn enumeration(alloc: Global) -> TypeRef {
    TypeRef::Enumeration {
        name: List::from_vec(Vec::new(alloc)),
    }
}

fn param(alloc: Global, ty: TypeRef) -> Param {
    Param {
        ty,
        pass: Pass::Value,
        read_only: false,
        name: List::from_vec(Vec::new(alloc)),
    }
}

/// An `int64`, a handle and an enumeration.
fn params(alloc: Global) -> Result<Vec<Param>, AllocError> {
    let mut params = Vec::with_capacity(alloc, 3)?;
    params.push(param(alloc, TypeRef::Plain(Prim::I64)))?;
    params.push(param(alloc, handle(alloc)))?;
    params.push(param(alloc, enumeration(alloc)))?;
    Ok(params)
}

/// A `const` entry of driver 3 with the driver's number 7, that takes an `int64`, a handle and an enumeration and
/// gives a `bool`.
fn entry(alloc: Global, kind: EntryKind) -> Result<Entry, AllocError> {
    let params = params(alloc)?;
    Ok(Entry {
        kind,
        owner: Some(EntityNo(1)),
        driver: 3,
        f: 7,
        signature: Signature {
            name: List::from_vec(Vec::new(alloc)),
            result: TypeRef::Plain(Prim::Bool),
            params: List::from_vec(params),
            read_only: true,
        },
        mask: Mask(1),
    })
}

/// What code knows of an entry of that kind, which is not used again.
fn used(alloc: Global, kind: EntryKind) -> Result<HostUse, AllocError> {
    let entry = entry(alloc, kind)?;
    let found = host_use(alloc, &entry);
    drop(entry);
    found
}

/// Its kind, its role, whether it belongs to an object, and whether it is a property that is never written.
type Row = (EntryKind, Role, bool, bool);

const ROWS: &[Row] = &[
    (EntryKind::Factory, Role::Making(7), false, false),
    (EntryKind::Method, Role::Calling(7), true, false),
    (EntryKind::Property, Role::Property(7), true, true),
    (EntryKind::Function, Role::Calling(7), false, false),
    (EntryKind::Global, Role::Property(7), false, true),
];

/// Whether the parameters of a function, and its result, pass as they have to.
fn passes(function: &HostUse) -> bool {
    let params = matches!(
        function.params.as_slice(),
        [
            HostValueType::Plain(Prim::I64),
            HostValueType::Handle,
            HostValueType::Plain(Prim::I32),
        ]
    );
    params && matches!(function.result, HostValueType::Plain(Prim::Bool))
}

fn is_used_so(found: &HostUse, row: Row) -> bool {
    let (kind, role, member, read_only) = row;
    found.driver == 3
        && found.role == role
        && found.member == member
        && found.read_only == read_only
        && (kind != EntryKind::Function || passes(found))
}

/// The first row that is used otherwise.
fn first_wrong(alloc: Global) -> Result<Option<usize>, AllocError> {
    for (at, row) in ROWS.iter().enumerate() {
        if !is_used_so(&used(alloc, row.0)?, *row) {
            return Ok(Some(at));
        }
    }
    Ok(None)
}

#[test]
fn entries_are_asked_by_their_kinds(rt: HostRuntime) -> Result<(), AllocError> {
    assert_eq!(rt; first_wrong(rt.alloc())?, None);
    Ok(())
}
