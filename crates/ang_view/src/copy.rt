//! Copies of entries.
ghost use Rattle.std.specs.Prelude.{◌≡◌, IfOk};

use crate::Entry;
use ang_kinds::{List, Param, Signature, TypeRef};
use std::alloc::{AllocError, Global};

fn copy_name(alloc: Global, name: &List<u8>) -> Result<List<u8>, AllocError>
    ensures exact { IfOk result (λ copy. copy ≡ name.now) }
{
    Ok(List::from_vec(Vec::from_slice(alloc, name.as_slice())?))
}

fn copy_type(alloc: Global, ty: &TypeRef) -> Result<TypeRef, AllocError>
    ensures exact { IfOk result (λ copy. copy ≡ ty.now) }
{
    match ty {
        TypeRef::Void => Ok(TypeRef::Void),
        TypeRef::Plain(primitive) => Ok(TypeRef::Plain(*primitive)),
        TypeRef::Enumeration { name } => Ok(TypeRef::Enumeration {
            name: copy_name(alloc, name)?,
        }),
        TypeRef::Object {
            name,
            shape,
            const_object,
            const_handle,
        } => Ok(TypeRef::Object {
            name: copy_name(alloc, name)?,
            shape: *shape,
            const_object: *const_object,
            const_handle: *const_handle,
        }),
    }
}

fn copy_parameter(alloc: Global, param: &Param) -> Result<Param, AllocError>
    ensures exact { IfOk result (λ copy. copy ≡ param.now) }
{
    let ty = copy_type(alloc, &param.ty)?;
    let name = copy_name(alloc, &param.name)?;
    Ok(Param {
        ty,
        pass: param.pass,
        read_only: param.read_only,
        name,
    })
}

fn copy_parameters(alloc: Global, params: &[Param]) -> Result<Vec<Param>, AllocError>
    ensures exact { IfOk result (λ copies. copies.items ≡ params.now) }
{
    let mut copies = Vec::new(alloc);
    for param in params {
        let copy = copy_parameter(alloc, param)?;
        copies.push(copy)?;
    }
    Ok(copies)
}

fn copy_signature(alloc: Global, signature: &Signature) -> Result<Signature, AllocError>
    ensures exact { IfOk result (λ copy. copy ≡ signature.now) }
{
    let name = copy_name(alloc, &signature.name)?;
    let result = copy_type(alloc, &signature.result)?;
    let params = copy_parameters(alloc, signature.params.as_slice())?;
    Ok(Signature {
        name,
        result,
        params: List::from_vec(params),
        read_only: signature.read_only,
    })
}

/// An entry like this one.
pub fn copy_entry(alloc: Global, entry: &Entry) -> Result<Entry, AllocError>
    ensures exact { IfOk result (λ copy. copy ≡ entry.now) }
{
    let signature = copy_signature(alloc, &entry.signature)?;
    Ok(Entry {
        kind: entry.kind,
        owner: entry.owner,
        driver: entry.driver,
        f: entry.f,
        signature,
        mask: entry.mask,
    })
}

/// An entry or a blank like this one.
pub(crate) fn copy_of(alloc: Global, entry: &Option<Entry>) -> Result<Option<Entry>, AllocError>
    ensures exact { IfOk result (λ copy. copy ≡ entry.now) }
{
    match entry {
        None => Ok(None),
        Some(entry) => Ok(Some(copy_entry(alloc, entry)?)),
    }
}

/// Entries and blanks like these.
pub fn copy_entries(
    alloc: Global,
    entries: &[Option<Entry>],
) -> Result<Vec<Option<Entry>>, AllocError>
    ensures exact { IfOk result (λ copies. copies.items ≡ entries.now) }
{
    let mut copies = Vec::new(alloc);
    for entry in entries {
        let copy = copy_of(alloc, entry)?;
        copies.push(copy)?;
    }
    Ok(copies)
}
