//! The classes of a build: each law is the contract of a function that does nothing.
ghost use Rattle.ang_check_laws.specs.Kin.{BasesStandAbove, OrdersStandAbove, TablesAreTyped};

/// Where nothing is refused, a class has the fields of what stands above it at the same places, what stands above that stands
/// above the class, and what its fields can hold is of a lower rank, so that objects hold one another in no cycle.
#[tactic(auto, using(crate::proofs::ClassesTyped::typed))]
pub fn classes_are_typed()
    ensures classes { TablesAreTyped }
{}

/// A base class stands above its class, and so does each other family of which a class or an interface has members.
#[tactic(auto, using(crate::proofs::ClassesKin::bases_above, crate::proofs::ClassesKin::orders_above))]
pub fn kin_stands_above()
    ensures bases { BasesStandAbove }
    ensures orders { OrdersStandAbove }
{}
