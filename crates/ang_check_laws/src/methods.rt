//! Calls of methods by an object's class: each law is the contract of a function that does nothing.
ghost use Rattle.ang_check_laws.specs.Methods.{ClassesHaveBodies, ClassesHaveMethods, InterfacesAreMet};
ghost use Rattle.ang_check_laws.specs.Methods.{MethodsStand, OverridesKeepResults, SlotsAreAlike};

/// Methods that override one another, or stand in for a method of an interface, have one name and the same parameters.
#[tactic(auto, using(crate::proofs::MethodsSlots::in_one_slot))]
pub fn slots_are_alike()
    ensures slots { SlotsAreAlike }
{}

/// Where nothing is refused, an override has the result of what it overrides, and a class has the methods of the interfaces
/// above it.
#[tactic(auto, using(crate::proofs::MethodsPhases::overrides, crate::proofs::MethodsPhases::interfaces_met))]
pub fn heirs_fit()
    ensures overrides { OverridesKeepResults }
    ensures interfaces { InterfacesAreMet }
{}

/// For each method of its own and of the classes above it, a class has a body with that method's result: its own, or that of
/// the nearest base class that has one.
pub fn classes_have_bodies()
    ensures bodies { ClassesHaveBodies }
{}

/// So it has for each method of an interface above it.
pub fn classes_have_methods()
    ensures methods { ClassesHaveMethods }
{}

/// Whatever the class of the object, a call of a method finds a body that takes the arguments and gives the result of the
/// method that is called.
pub fn methods_stand()
    ensures each { MethodsStand }
{}
