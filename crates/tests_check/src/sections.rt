//! What sections come to: the cases of all kinds. A test for each kind, since all the rows of one function are proved as
//! one.

use crate::outcomes::first_wrong;
use crate::{denials, enumerations, objects, positions, rows};

#[test]
fn bodies_come_to_what_they_should(rt: HostRuntime) {
    for case in rows::CASES {
        assert_eq!(rt; first_wrong(rt.alloc(), case), None, "{}", case.0);
    }
}

#[test]
fn objects_are_used_as_they_may_be(rt: HostRuntime) {
    for case in objects::CASES {
        assert_eq!(rt; first_wrong(rt.alloc(), case), None, "{}", case.0);
    }
}

#[test]
fn statements_have_their_places(rt: HostRuntime) {
    for case in positions::CASES {
        assert_eq!(rt; first_wrong(rt.alloc(), case), None, "{}", case.0);
    }
}

#[test]
fn enumerations_are_used_as_they_may_be(rt: HostRuntime) {
    for case in enumerations::CASES {
        assert_eq!(rt; first_wrong(rt.alloc(), case), None, "{}", case.0);
    }
}

#[test]
fn what_a_mask_hides_is_reported(rt: HostRuntime) {
    for case in denials::CASES {
        assert_eq!(rt; first_wrong(rt.alloc(), case), None, "{}", case.0);
    }
}
