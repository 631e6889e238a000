//! What the texts of a host declare.
ghost use Rattle.std.specs.Prelude.{◌≡◌, ◌≢◌, IfOk, IfErr, OnOk};
ghost use Rattle.ang_registry.specs.Declarations as spec;

use crate::RegError;
use ang_decl::{DeclError, parse_factory, parse_function, parse_method, parse_property};
use ang_kinds::{List, Signature, TypeRef};
use ang_lex::is_name;
use std::alloc::Global;

/// A refused text declares nothing; want of memory is passed on.
fn declared(parsed: Result<Signature, DeclError>) -> Result<Option<Signature>, RegError>
    ensures exact { IfOk result (λ s. s ≡ spec.signature_in parsed) }
    ensures memory { IfErr result (λ why. why ≡ RegError.Memory) }
    ensures known { OnOk result (IfErr parsed (λ e. e ≢ DeclError.Memory)) }
{
    match parsed {
        Ok(signature) => Ok(Some(signature)),
        Err(DeclError::Syntax) | Err(DeclError::Unsupported) => Ok(None),
        Err(DeclError::Memory) => Err(RegError::Memory),
    }
}

/// The signature that the text declares by `type NAME params`, or none.
pub fn declared_function(alloc: Global, decl: &[u8]) -> Result<Option<Signature>, RegError>
    ensures exact { IfOk result (λ s. s ≡ spec.declared_function decl.now) }
    ensures memory { IfErr result (λ why. why ≡ RegError.Memory) }
{
    declared(parse_function(alloc, decl))
}

/// The signature that the text declares by `type NAME params [ "const" ]`, or none.
pub fn declared_method(alloc: Global, decl: &[u8]) -> Result<Option<Signature>, RegError>
    ensures exact { IfOk result (λ s. s ≡ spec.declared_method decl.now) }
    ensures memory { IfErr result (λ why. why ≡ RegError.Memory) }
{
    declared(parse_method(alloc, decl))
}

/// The signature that the text declares by `T@ NAME params`, or none.
pub fn declared_factory(alloc: Global, decl: &[u8]) -> Result<Option<Signature>, RegError>
    ensures exact { IfOk result (λ s. s ≡ spec.declared_factory decl.now) }
    ensures memory { IfErr result (λ why. why ≡ RegError.Memory) }
{
    declared(parse_factory(alloc, decl))
}

/// The signature that the text declares by `[ "const" ] type NAME`, or none.
pub fn declared_property(alloc: Global, decl: &[u8]) -> Result<Option<Signature>, RegError>
    ensures exact { IfOk result (λ s. s ≡ spec.declared_property decl.now) }
    ensures memory { IfErr result (λ why. why ≡ RegError.Memory) }
{
    declared(parse_property(alloc, decl))
}

/// The signature of a type of this name, or none where the name is no identifier.
pub fn declared_type(alloc: Global, name: &[u8]) -> Result<Option<Signature>, RegError>
    ensures exact { IfOk result (λ s. s ≡ spec.declared_type name.now) }
    ensures memory { IfErr result (λ why. why ≡ RegError.Memory) }
{
    if !is_name(name) {
        return Ok(None);
    }
    let name = Vec::from_slice(alloc, name)?;
    Ok(Some(Signature {
        name: List::from_vec(name),
        result: TypeRef::Void,
        params: List::from_vec(Vec::new(alloc)),
        read_only: false,
    }))
}
