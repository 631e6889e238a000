//! What holds of every world.
ghost use Rattle.ang_meaning.specs.Causes.{BadAnswersAreBad, NoObjectIsMade, RefusedHoldsAreDue};
ghost use Rattle.ang_meaning.specs.Counting.{NoRoots};
ghost use Rattle.ang_meaning.specs.Giving.{GivesObjects, LeavesWorld};

/// What it comes to that a place gives up its value. Of a script object there is one place fewer; where it was
/// the last one, the object leaves the world, and then its fields are given up in the same way, the first one
/// first. A value that names nothing that is there changes nothing.
#[tactic(auto, using(crate::proofs::Giving::gives_objects, crate::proofs::Giving::leaves_world))]
pub fn giving_up()
    ensures objects { GivesObjects }
    ensures nothing { LeavesWorld }
{}

/// Where the counts are the numbers of places, ranks fall along fields, and no place outside the fields
/// holds anything, there is no script object, and no host object is counted.
#[tactic(auto, using(crate::proofs::Roots::no_roots))]
pub fn nothing_without_roots()
    ensures empty { NoRoots }
{}

/// What a host call faults for: with `BadAnswer` only where the driver's answer is not of the declared type or
/// not in its range, and with `NoObject` only where a factory made none.
#[tactic(auto, using(crate::proofs::Refused::bad_answer, crate::proofs::Refused::no_object))]
pub fn answers_refused()
    ensures bad_answer { BadAnswersAreBad }
    ensures no_object { NoObjectIsMade }
{}

/// One place more of a value is refused only where that is due: of a script object where its count stands at
/// its end, and of a host object where its driver refused a reference, which the world then notes.
#[tactic(auto, using(crate::proofs::Refused::told_due))]
pub fn holds_refused()
    ensures due { RefusedHoldsAreDue }
{}
