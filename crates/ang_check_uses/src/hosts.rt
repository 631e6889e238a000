//! Functions, factories and methods of the host, as ones that a call can mean.
ghost use Rattle.std.specs.Prelude.{◌≡◌, ◌++◌, IfOk, OnOk, map as list_map};
ghost use Rattle.ang_check_contest.specs.Host as host;
ghost use Rattle.ang_check_uses.specs.CallableKinds as kinds;
ghost use Rattle.ang_check_uses.specs.Uses as spec;

use crate::callables::Callables;
use crate::uses::{Callable, Called};
use ang_check_contest::{Scope, SeenFunction, SeenProperty, Wanted, host_where};
use ang_kinds::{List, Pass};
use ang_names_known::BorrowedText;
use ang_typed::HostEntity;
use ang_types::{ArgType, Candidate};
use ang_view::View;
use std::alloc::{AllocError, Global};

/// As what a function of the host is called.
#[derive(Clone, Copy)]
pub enum HostCallKind {
    /// By its name.
    Function,
    /// As what makes an object of the type of this number.
    Maker(u32),
    /// As a method of the type of this number.
    Method(u32),
}

/// How the host is asked for a property.
pub fn entity_of(property: SeenProperty) -> HostEntity
    ensures exact { result ≡ spec.entity_of property }
{
    HostEntity {
        entity: property.entity,
        driver: property.driver,
        f: property.f,
    }
}

/// The parameters of a method, with its receiver in front.
///
/// The only error is want of memory.
pub fn params_with_receiver(
    params: List<(ArgType, Pass)>,
    number: u32,
    read_only: bool,
) -> Result<List<(ArgType, Pass)>, AllocError>
    ensures exact { IfOk result (λ all. all ≡ kinds.with_receiver number read_only params) }
{
    let receiver = (ArgType::Object { number, read_only }, Pass::RefInOut);
    let mut all = params.into_vec();
    all.insert(0, receiver)?;
    Ok(List::from_vec(all))
}

fn host_callable(asked: HostEntity, gives: ArgType, params: List<(ArgType, Pass)>) -> Callable
    ensures exact { result ≡ kinds.host_callable_of asked gives params }
{
    Callable {
        called: Called::Host(asked),
        result: gives,
        candidate: Candidate { params },
        reach: None,
    }
}

/// A function of the host as one that a call can mean.
///
/// The only error is want of memory.
pub fn callable_as(usage: HostCallKind, function: SeenFunction) -> Result<Callable, AllocError>
    ensures exact { IfOk result (λ c. c ≡ kinds.host_callable_as usage function) }
{
    let SeenFunction {
        entity,
        driver,
        f,
        result: gives,
        params,
        read_only,
    } = function;
    let asked = HostEntity { entity, driver, f };
    match usage {
        HostCallKind::Function => Ok(host_callable(asked, gives, params)),
        HostCallKind::Maker(number) => {
            let object = ArgType::Object {
                number,
                read_only: false,
            };
            Ok(host_callable(asked, object, params))
        }
        HostCallKind::Method(number) => {
            let params = params_with_receiver(params, number, read_only)?;
            Ok(host_callable(asked, gives, params))
        }
    }
}

fn push_hosts(
    found: &mut Callables,
    usage: HostCallKind,
    hosts: Vec<SeenFunction>,
) -> Result<(), AllocError>
    ensures pushed { OnOk result
        (found.new ≡ found.old ++ list_map (kinds.host_callable_as usage) hosts.items) }
{
    for host in hosts {
        let callable = callable_as(usage, host)?;
        found.push(callable)?;
    }
    Ok(())
}

/// Puts those of the host at the end that are wanted.
///
/// The only error is want of memory.
pub fn push_wanted(
    alloc: Global,
    found: &mut Callables,
    view: &View,
    wanted: &Wanted<'_>,
    usage: HostCallKind,
) -> Result<(), AllocError>
    ensures pushed { OnOk result (found.new ≡ found.old
        ++ list_map (kinds.host_callable_as usage) (host.host_where wanted.now view.now)) }
{
    let hosts = host_where(alloc, view, wanted)?;
    push_hosts(found, usage, hosts)
}

/// The methods of this name of the host type of this number, each with its receiver in front.
///
/// The only error is want of memory.
pub fn host_methods(
    alloc: Global,
    scope: &Scope<'_>,
    number: u32,
    name: &[u8],
) -> Result<Callables, AllocError>
    ensures exact { IfOk result (λ c. c ≡ spec.host_methods scope.now.view number name.now) }
{
    let mut found = Callables::new(alloc);
    let wanted = Wanted::Method(number, BorrowedText::new(name));
    push_wanted(
        alloc,
        &mut found,
        scope.view(),
        &wanted,
        HostCallKind::Method(number),
    )?;
    Ok(found)
}
