// What is looked for in a call's answer.
use circuit::{Failure, Refusal};
use std::fmt::Debug;
use std::process::Abort;
use std::test::Fail;

pub(crate) fn gives<T: PartialEq + Drop, E: Debug + Drop>(
    rt: &impl Abort,
    answer: Result<Vec<T>, E>,
    expected: &[T],
) -> Result<(), Fail> {
    let found = answer?;
    assert!(rt; found.as_slice() == expected);
    Ok(())
}

pub(crate) fn refused<T: Drop>(rt: &impl Abort, answer: Result<T, Failure>, expected: Refusal) {
    assert_eq!(rt; answer.err(), Some(Failure::Refused(expected)));
}
