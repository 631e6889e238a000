//! What any use means.
ghost use Rattle.std.specs.Prelude.{◌≡◌, IfOk};
ghost use Rattle.ang_check_contest.specs.declared.host.WantedProperty.TheVariants as property;
ghost use Rattle.ang_check_contest.specs.Host as host;
ghost use Rattle.ang_names_known.specs.Spaces as spaces;
ghost use Rattle.ang_check_uses.specs.Uses as spec;

use crate::choosing::{factory_meant, function_meant, host_method_meant, maker_meant};
use crate::hosts::entity_of;
use crate::uses::Resolution;
use crate::values::{enumeration_called, value_meant};
use ang_check_contest::{Scope, SeenProperty, WantedProperty, property_where};
use ang_kinds::ErrorKind;
use ang_names_known::{BorrowedText, Named, ScriptGlobal, Space, is_read_only};
use ang_typed::TypedVariable;
use ang_types::{ArgType, Asks};
use ang_view::View;
use std::alloc::{AllocError, Global};

/// Why a use means nothing; where it means what can't stand there no such name is known. It takes no memory.
pub fn why(resolution: Resolution) -> ErrorKind
    ensures exact { result ≡ spec.why resolution }
{
    match resolution {
        Resolution::Refused(kind) => kind,
        Resolution::Variable(..)
        | Resolution::Property(_)
        | Resolution::Call(_)
        | Resolution::Type(_)
        | Resolution::Enumeration(_)
        | Resolution::Value(_) => ErrorKind::UnknownName,
    }
}

fn host_meant(view: &View, name: &[u8], found: Option<SeenProperty>) -> Resolution
    ensures exact { result ≡ spec.host_meant (spec.value_meant view.now name.now) found }
{
    match found {
        None => value_meant(view, name),
        Some(found) => {
            let variable = TypedVariable::Property(entity_of(found));
            Resolution::Variable(variable, found.ty, found.read_only)
        }
    }
}

fn global_or_host(
    view: &View,
    name: &[u8],
    globals: &[ScriptGlobal],
    number: Option<usize>,
    hosts: Option<SeenProperty>,
) -> Resolution
    ensures exact { result ≡ spec.global_or_host (spec.value_meant view.now name.now) globals.now
        number hosts }
{
    let Some(number) = number else {
        return host_meant(view, name, hosts);
    };
    match globals.get(number) {
        None => host_meant(view, name, hosts),
        Some(global) => {
            let read_only = is_read_only(global.written);
            Resolution::Variable(TypedVariable::Global(number), global.written.ty, read_only)
        }
    }
}

#[tactic(auto, unfolding(crate::specs::Uses::global_meant))]
fn global_meant(scope: &Scope<'_>, name: &[u8]) -> Resolution
    ensures exact { result ≡ spec.global_meant scope.now name.now }
{
    let names = scope.names();
    let view = scope.view();
    let hosts = property_where(view, &WantedProperty::Global(BorrowedText::new(name)));
    global_or_host(view, name, names.globals(), names.global_named(name), hosts)
}

/// What the name means as a type.
pub fn type_named(scope: &Scope<'_>, name: &[u8]) -> Named
    ensures exact { result
        ≡ spaces.type_of_name (spaces.space_of_names scope.now.view scope.now.names) name.now }
{
    let space = Space::of_names(scope.view(), scope.names());
    space.named(name)
}

fn type_meant(named: Named) -> Resolution
    ensures exact { result ≡ spec.type_meant named }
{
    match named {
        Named::Unknown => Resolution::Refused(ErrorKind::UnknownType),
        Named::Object(number) => Resolution::Type(number),
        Named::Enumeration(number) => Resolution::Enumeration(number),
    }
}

/// What the name in front of a `::` means where it means this as a type.
fn enumeration_meant(named: Named) -> Resolution
    ensures exact { result ≡ spec.enumeration_meant named }
{
    match named {
        Named::Unknown | Named::Object(_) => Resolution::Refused(ErrorKind::UnknownName),
        Named::Enumeration(number) => Resolution::Enumeration(number),
    }
}

fn property_meant(found: Option<SeenProperty>) -> Resolution
    ensures exact { result ≡ spec.property_meant found }
{
    match found {
        None => Resolution::Refused(ErrorKind::UnknownName),
        Some(property) => Resolution::Property(property),
    }
}

fn property_of(scope: &Scope<'_>, number: u32, name: &[u8]) -> Option<SeenProperty>
    ensures exact { result ≡ host.property_where (property.Member number name.now) scope.now.view }
{
    property_where(
        scope.view(),
        &WantedProperty::Member(number, BorrowedText::new(name)),
    )
}

/// What a call of a bare name means: of an enumeration's name a conversion, of an object type's what makes an object, else
/// a function.
#[tactic(auto, unfolding(crate::specs::Uses::called_name))]
fn called_name(
    alloc: Global,
    scope: &Scope<'_>,
    name: &[u8],
    args: &[ArgType],
) -> Result<Resolution, AllocError>
    ensures exact { IfOk result (λ r. r ≡ spec.called_name scope.now name.now args.now) }
{
    match type_named(scope, name) {
        Named::Object(number) => maker_meant(alloc, scope, ErrorKind::NoMatch, number, args),
        Named::Enumeration(number) => Ok(enumeration_called(number, args)),
        Named::Unknown => function_meant(alloc, scope, name, args),
    }
}

/// The best factory of a host type for arguments of these types.
fn made(
    alloc: Global,
    scope: &Scope<'_>,
    unviable: ErrorKind,
    number: u32,
    args: &[ArgType],
) -> Result<Resolution, AllocError>
    ensures exact { IfOk result (λ r. r ≡ spec.best_of_those scope.now.ancestors unviable
        (spec.factories_of scope.now.view number) args.now) }
{
    factory_meant(alloc, scope, unviable, number, args)
}

/// The best method of a host type on a receiver that is read only or not, for arguments of these types.
fn method_meant(
    alloc: Global,
    scope: &Scope<'_>,
    name: &[u8],
    receiver: (u32, bool),
    args: &[ArgType],
) -> Result<Resolution, AllocError>
    ensures exact { IfOk result (λ r. r ≡ spec.best_method scope.now.ancestors
        (spec.host_methods scope.now.view receiver.0 name.now) receiver.0 receiver.1 args.now) }
{
    let (number, read_only) = receiver;
    host_method_meant(alloc, scope, number, name, read_only, args)
}

/// What a use of this name means, where no local and no member of a script's class has it.
///
/// `Resolution::Refused` says why it means nothing. The only error is want of memory.
pub fn resolution_of(
    alloc: Global,
    scope: &Scope<'_>,
    name: &[u8],
    asks: &Asks,
) -> Result<Resolution, AllocError>
    ensures exact { IfOk result (λ r. r ≡ spec.resolution_of scope.now name.now asks.now) }
{
    match asks {
        Asks::Value => Ok(global_meant(scope, name)),
        Asks::Type => Ok(type_meant(type_named(scope, name))),
        Asks::Enumeration => Ok(enumeration_meant(type_named(scope, name))),
        Asks::Call(args) => called_name(alloc, scope, name, args.as_slice()),
        Asks::Make(number, args) => {
            made(alloc, scope, ErrorKind::NoMatch, *number, args.as_slice())
        }
        Asks::Default(number) => made(alloc, scope, ErrorKind::NoDefault, *number, &[]),
        Asks::Property(number) => Ok(property_meant(property_of(scope, *number, name))),
        Asks::Method(number, read_only, args) => {
            let receiver = (*number, *read_only);
            method_meant(alloc, scope, name, receiver, args.as_slice())
        }
    }
}
