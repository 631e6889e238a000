//! Registered entities as code asks them.
ghost use Rattle.std.specs.Prelude.{◌≡◌, IfOk, map as list_map};
ghost use Rattle.ang_source.specs.Hosts as spec;

use ang_host::Role;
use ang_kinds::{List, Param, Prim, TypeRef};
use ang_meaning::{HostUse, HostValueType};
use ang_view::{Entry, EntryKind};
use std::alloc::{AllocError, Global};

fn host_type(ty: &TypeRef) -> HostValueType
    ensures same { result ≡ spec.host_type_of ty.now }
{
    match ty {
        TypeRef::Void => HostValueType::Nothing,
        TypeRef::Plain(primitive) => HostValueType::Plain(*primitive),
        TypeRef::Enumeration { .. } => HostValueType::Plain(Prim::I32),
        TypeRef::Object { .. } => HostValueType::Handle,
    }
}

fn is_member(kind: EntryKind) -> bool
    ensures same { result ≡ spec.is_member kind }
{
    match kind {
        EntryKind::Method | EntryKind::Property => true,
        EntryKind::HostType
        | EntryKind::Factory
        | EntryKind::Function
        | EntryKind::Global
        | EntryKind::Enumeration
        | EntryKind::EnumValue(_) => false,
    }
}

/// Which method of its driver answers.
fn role(kind: EntryKind, f: u32) -> Role
    ensures same { result ≡ spec.role_in kind f }
{
    match kind {
        EntryKind::HostType
        | EntryKind::Factory
        | EntryKind::Enumeration
        | EntryKind::EnumValue(_) => Role::Making(f),
        EntryKind::Method | EntryKind::Function => Role::Calling(f),
        EntryKind::Property | EntryKind::Global => Role::Property(f),
    }
}

/// Whether it is a property that is declared `const`.
fn is_constant(kind: EntryKind, f: u32, declared: bool) -> bool
    ensures same { result ≡ spec.is_constant kind f declared }
{
    match kind {
        EntryKind::Property | EntryKind::Global => declared,
        EntryKind::HostType
        | EntryKind::Factory
        | EntryKind::Method
        | EntryKind::Function
        | EntryKind::Enumeration
        | EntryKind::EnumValue(_) => false,
    }
}

fn host_types(alloc: Global, params: &[Param]) -> Result<Vec<HostValueType>, AllocError>
    ensures exact { IfOk result (λ v. v.items ≡ list_map (λ p. spec.host_type_of p.ty) params.now) }
{
    params
        .iter()
        .map(|param| host_type(&param.ty))
        .collect(alloc)
}

/// What code has to know of a registered entity to ask it.
///
/// # Errors
/// Want of memory.
pub fn host_use(alloc: Global, entry: &Entry) -> Result<HostUse, AllocError>
    ensures exact { IfOk result (λ u. u ≡ spec.use_of entry.now) }
{
    let params = host_types(alloc, entry.signature.params.as_slice())?;
    Ok(HostUse {
        driver: entry.driver,
        role: role(entry.kind, entry.f),
        member: is_member(entry.kind),
        params: List::from_vec(params),
        result: host_type(&entry.signature.result),
        read_only: is_constant(entry.kind, entry.f, entry.signature.read_only),
    })
}
