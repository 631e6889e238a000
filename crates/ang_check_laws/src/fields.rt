//! Where the fields of a build's classes stand: the law is the contract of a function that does nothing.
ghost use Rattle.ang_check_laws.specs.Fields.{FieldsStand};

/// A field that is found by its name stands where its number says, and has the type that it is written with.
#[tactic(auto, using(crate::proofs::FieldsFound::fields_stand))]
pub fn fields_stand()
    ensures each { FieldsStand }
{}
