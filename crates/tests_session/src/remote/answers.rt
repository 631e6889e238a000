//! Each form of an answer, and of what is none.

use crate::remote::harness::{Asking, answered, making};
use ang_host::{Answer, Made};
use ang_kinds::Value;
use ang_remote::{BAD_FORM, INPUT_ENDED, NOT_LIVE, OTHER_KIND};
use std::alloc::AllocError;

const CALL: &str = "ask 3 call 8 - (-7,7u,true)\n";

fn int(number: i64) -> Answer {
    Answer::Gave(Value::Int(number))
}

/// What the host writes, what is answered, and how many bytes are left.
const ANSWERS: &[(&str, Answer, usize)] = &[
    ("void\n", Answer::Void, 0),
    ("void\r\nvoid\n", Answer::Void, 5),
    ("void", Answer::Void, 0),
    ("7\n", Answer::Gave(Value::Int(7)), 0),
    ("-7\n", Answer::Gave(Value::Int(-7)), 0),
    (
        "-9223372036854775808\n",
        Answer::Gave(Value::Int(-9_223_372_036_854_775_808)),
        0,
    ),
    ("9223372036854775808\n", Answer::Fault(BAD_FORM), 0),
    ("7u\n", Answer::Gave(Value::Uint(7)), 0),
    (
        "18446744073709551615u\n",
        Answer::Gave(Value::Uint(18_446_744_073_709_551_615)),
        0,
    ),
    ("true\n", Answer::Gave(Value::Bool(true)), 0),
    ("false\n", Answer::Gave(Value::Bool(false)), 0),
    ("null\n", Answer::Gave(Value::Key(None)), 0),
    ("#5\n", Answer::Fault(NOT_LIVE), 0),
    ("#18446744073709551616\n", Answer::Fault(BAD_FORM), 0),
    ("#\n", Answer::Fault(BAD_FORM), 0),
    ("fault 3\n", Answer::Fault(3), 0),
    ("fault 4294967295\n", Answer::Fault(4_294_967_295), 0),
    ("fault 4294967296\n", Answer::Fault(BAD_FORM), 0),
    ("fault\n", Answer::Fault(BAD_FORM), 0),
    ("memory\n", Answer::Memory, 0),
    ("made #5\n", Answer::Fault(OTHER_KIND), 0),
    ("nothing\n", Answer::Fault(OTHER_KIND), 0),
    ("full\n", Answer::Fault(BAD_FORM), 0),
    ("\n", Answer::Fault(BAD_FORM), 0),
    ("", Answer::Fault(INPUT_ENDED), 0),
    (" void\n", Answer::Fault(BAD_FORM), 0),
    ("void \n", Answer::Fault(BAD_FORM), 0),
    ("7 \n", Answer::Fault(BAD_FORM), 0),
    ("Void\n", Answer::Fault(BAD_FORM), 0),
    ("void\r", Answer::Fault(BAD_FORM), 0),
    ("made 5\n", Answer::Fault(BAD_FORM), 0),
    ("made #5 \n", Answer::Fault(BAD_FORM), 0),
    ("made  #5\n", Answer::Fault(BAD_FORM), 0),
    (
        "0000000000000000000000000000000000000000000000000000000000000000\nvoid\n",
        Answer::Fault(BAD_FORM),
        5,
    ),
];

#[test]
fn each_form_of_an_answer(rt: HostRuntime) -> Result<(), AllocError> {
    for (at, (text, answer, unread)) in ANSWERS.iter().enumerate() {
        let given = answered(rt.alloc(), Asking::Call, text, CALL, *unread)?;
        assert!(rt; given == Some(*answer), "row {at}");
    }
    Ok(())
}

#[test]
fn a_property_is_read_and_written(rt: HostRuntime) -> Result<(), AllocError> {
    let read = answered(rt.alloc(), Asking::Read, "8\n", "ask 3 read 9 - ()\n", 0)?;
    let written = answered(
        rt.alloc(),
        Asking::Write,
        "void\n",
        "ask 3 write 10 - (null)\n",
        0,
    )?;
    assert!(rt; read == Some(int(8)));
    assert!(rt; written == Some(Answer::Void));
    Ok(())
}

const MAKE: &str = "ask 3 make 4294967295 - (false)\n";

const MAKINGS: &[(&str, Made)] = &[
    ("made #0\n", Made::Key(0)),
    (
        "made #18446744073709551615\n",
        Made::Key(18_446_744_073_709_551_615),
    ),
    ("made #18446744073709551616\n", Made::Fault(BAD_FORM)),
    ("nothing\n", Made::Nothing),
    ("fault 7\n", Made::Fault(7)),
    ("memory\n", Made::Memory),
    ("void\n", Made::Fault(OTHER_KIND)),
    ("#0\n", Made::Fault(OTHER_KIND)),
    ("made\n", Made::Fault(BAD_FORM)),
    ("", Made::Fault(INPUT_ENDED)),
];

#[test]
fn each_form_of_an_answer_to_a_making(rt: HostRuntime) -> Result<(), AllocError> {
    for (at, (text, made)) in MAKINGS.iter().enumerate() {
        let given = making(rt.alloc(), text, MAKE)?;
        assert!(rt; given == Some(*made), "row {at}");
    }
    Ok(())
}
