//! The parsers of host declarations.
ghost use Rattle.std.specs.Prelude.{◌≡◌, Ok, Err, IfOk};
ghost use Rattle.ang_decl.specs.Parsed.{declared_type_alone, declared_property, declared_method, declared_function, declared_factory};
ghost use Rattle.ang_decl.specs.Grammar.{SpellsType, SpellsProperty, SpellsMethod, SpellsFunction, SpellsFactory};
ghost use Rattle.ang_decl.specs.Meaning.{Declares, IsLeftOut, IsNoDeclaration, IfFault, IfSyntax, IfUnsupported};
ghost use Rattle.ang_decl.specs.Signatures as spec;

use crate::DeclError;
use crate::read::{whole_function, whole_property, whole_type};
use crate::signatures::{function_signature, property_signature, type_signature};
use crate::taken::{
    is_factory_form, is_factory_left_out, is_function_form, is_function_left_out,
    is_property_left_out, is_type_left_out,
};
use ang_kinds::Signature;
use ang_lex::lex;
use std::alloc::Global;

#[tactic(auto, unfolding(crate::specs::Parsed::declared_type_alone))]
fn type_in(alloc: Global, text: &[u8]) -> Result<Signature, DeclError>
    ensures exact { IfOk result (λ s. declared_type_alone text.now ≡ Ok s) }
    ensures fault { IfFault result (λ e. declared_type_alone text.now ≡ Err e) }
{
    let tokens = lex(alloc, text, 0)?;
    let host_type = whole_type(&tokens)?;
    if is_type_left_out(&host_type) {
        return Err(DeclError::Unsupported);
    }
    Ok(type_signature(alloc, text, &host_type)?)
}

/// The type that the text is, as the result of a signature without a name: `const Cell@+`.
///
/// The `const` of a primitive type or a bare name makes the signature read only. A bare name is an object by value.
///
/// # Errors
///
/// `Syntax` where the text is no type. `Unsupported` where it is one that no declaration of a host can
/// have, as `Cell@ const` or `int@`. `Memory` only where a growth was refused.
pub fn parse_type(alloc: Global, text: &[u8]) -> Result<Signature, DeclError>
    ensures signature { IfOk result
        (Declares SpellsType spec.is_type_left_out spec.type_signature text.now) }
    ensures unsupported { IfUnsupported result
        (IsLeftOut SpellsType spec.is_type_left_out text.now) }
    ensures syntax { IfSyntax result (IsNoDeclaration SpellsType text.now) }
    // the same as an equation, for the crates above
    ensures exact { IfOk result (λ s. declared_type_alone text.now ≡ Ok s) }
    ensures fault { IfFault result (λ e. declared_type_alone text.now ≡ Err e) }
{
    type_in(alloc, text)
}

#[tactic(auto, unfolding(crate::specs::Parsed::declared_function))]
fn function_in(alloc: Global, text: &[u8]) -> Result<Signature, DeclError>
    ensures exact { IfOk result (λ s. declared_function text.now ≡ Ok s) }
    ensures fault { IfFault result (λ e. declared_function text.now ≡ Err e) }
{
    let tokens = lex(alloc, text, 0)?;
    let function = whole_function(alloc, &tokens)?;
    if !is_function_form(&function) {
        return Err(DeclError::Syntax);
    }
    if is_function_left_out(&function) {
        return Err(DeclError::Unsupported);
    }
    Ok(function_signature(alloc, text, &function)?)
}

/// The signature of the function that the text declares, by `type NAME params`: `Cell@+ pick(Cell@+)`.
///
/// A parameter without a name has the empty one. `(void)` is the empty list of parameters.
///
/// # Errors
///
/// `Syntax` where the text is of another form. `Unsupported` where it is of that form, and a parameter
/// is no primitive by value, no bare name and no `T@+` or `const T@+`, or the result is none of these and not
/// `void`. `Memory` only where a growth was refused.
pub fn parse_function(alloc: Global, text: &[u8]) -> Result<Signature, DeclError>
    ensures signature { IfOk result
        (Declares SpellsFunction spec.is_function_left_out spec.function_signature text.now) }
    ensures unsupported { IfUnsupported result
        (IsLeftOut SpellsFunction spec.is_function_left_out text.now) }
    ensures syntax { IfSyntax result (IsNoDeclaration SpellsFunction text.now) }
    // the same as an equation, for the crates above
    ensures exact { IfOk result (λ s. declared_function text.now ≡ Ok s) }
    ensures fault { IfFault result (λ e. declared_function text.now ≡ Err e) }
{
    function_in(alloc, text)
}

#[tactic(auto, unfolding(crate::specs::Parsed::declared_method))]
fn method_in(alloc: Global, text: &[u8]) -> Result<Signature, DeclError>
    ensures exact { IfOk result (λ s. declared_method text.now ≡ Ok s) }
    ensures fault { IfFault result (λ e. declared_method text.now ≡ Err e) }
{
    let tokens = lex(alloc, text, 0)?;
    let method = whole_function(alloc, &tokens)?;
    if is_function_left_out(&method) {
        return Err(DeclError::Unsupported);
    }
    Ok(function_signature(alloc, text, &method)?)
}

/// The signature of the method that the text declares, by `type NAME params [ "const" ]`: `int get() const`.
///
/// The `const` after the parameters makes the signature read only.
///
/// # Errors
///
/// `Syntax` where the text is of another form. `Unsupported` where it is of that form, and a parameter
/// or the result is none that a function can have. `Memory` only where a growth was refused.
pub fn parse_method(alloc: Global, text: &[u8]) -> Result<Signature, DeclError>
    ensures signature { IfOk result
        (Declares SpellsMethod spec.is_function_left_out spec.function_signature text.now) }
    ensures unsupported { IfUnsupported result
        (IsLeftOut SpellsMethod spec.is_function_left_out text.now) }
    ensures syntax { IfSyntax result (IsNoDeclaration SpellsMethod text.now) }
    // the same as an equation, for the crates above
    ensures exact { IfOk result (λ s. declared_method text.now ≡ Ok s) }
    ensures fault { IfFault result (λ e. declared_method text.now ≡ Err e) }
{
    method_in(alloc, text)
}

#[tactic(auto, unfolding(crate::specs::Parsed::declared_property))]
fn property_in(alloc: Global, text: &[u8]) -> Result<Signature, DeclError>
    ensures exact { IfOk result (λ s. declared_property text.now ≡ Ok s) }
    ensures fault { IfFault result (λ e. declared_property text.now ≡ Err e) }
{
    let tokens = lex(alloc, text, 0)?;
    let property = whole_property(&tokens)?;
    if is_property_left_out(&property) {
        return Err(DeclError::Unsupported);
    }
    Ok(property_signature(alloc, text, &property)?)
}

/// The signature of the property that the text declares, by `type NAME`: `const int64 limit`.
///
/// Its type is the result, and it is read only where it is declared `const`.
///
/// # Errors
///
/// `Syntax` where the text is of another form. `Unsupported` where it is of that form, and its type is
/// no primitive one and no bare name, with or without `const`. `Memory` only where a growth was refused.
pub fn parse_property(alloc: Global, text: &[u8]) -> Result<Signature, DeclError>
    ensures signature { IfOk result
        (Declares SpellsProperty spec.is_property_left_out spec.property_signature text.now) }
    ensures unsupported { IfUnsupported result
        (IsLeftOut SpellsProperty spec.is_property_left_out text.now) }
    ensures syntax { IfSyntax result (IsNoDeclaration SpellsProperty text.now) }
    // the same as an equation, for the crates above
    ensures exact { IfOk result (λ s. declared_property text.now ≡ Ok s) }
    ensures fault { IfFault result (λ e. declared_property text.now ≡ Err e) }
{
    property_in(alloc, text)
}

#[tactic(auto, unfolding(crate::specs::Parsed::declared_factory))]
fn factory_in(alloc: Global, text: &[u8]) -> Result<Signature, DeclError>
    ensures exact { IfOk result (λ s. declared_factory text.now ≡ Ok s) }
    ensures fault { IfFault result (λ e. declared_factory text.now ≡ Err e) }
{
    let tokens = lex(alloc, text, 0)?;
    let factory = whole_function(alloc, &tokens)?;
    if !is_factory_form(&factory) {
        return Err(DeclError::Syntax);
    }
    if is_factory_left_out(&factory) {
        return Err(DeclError::Unsupported);
    }
    Ok(function_signature(alloc, text, &factory)?)
}

/// The signature of the factory that the text declares, by `T@ NAME params`: `Cell@ f(Cell@+, int)`.
///
/// # Errors
///
/// `Syntax` where the text is of another form, also where the result is anything but `T@`. `Unsupported`
/// where it is of that form, and a parameter is none that a function can have. `Memory` only where a
/// growth was refused.
pub fn parse_factory(alloc: Global, text: &[u8]) -> Result<Signature, DeclError>
    ensures signature { IfOk result
        (Declares SpellsFactory spec.is_factory_left_out spec.function_signature text.now) }
    ensures unsupported { IfUnsupported result
        (IsLeftOut SpellsFactory spec.is_factory_left_out text.now) }
    ensures syntax { IfSyntax result (IsNoDeclaration SpellsFactory text.now) }
    // the same as an equation, for the crates above
    ensures exact { IfOk result (λ s. declared_factory text.now ≡ Ok s) }
    ensures fault { IfFault result (λ e. declared_factory text.now ≡ Err e) }
{
    factory_in(alloc, text)
}
