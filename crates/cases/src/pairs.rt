// Coins and their pairing, values and lines.
use crate::answers::{gives, refused};
use circuit::{Failure, Refusal, Sheet};
use scheme::Pairing;
use std::alloc::Global;
use std::process::Abort;
use std::test::Fail;

// One gate, and, of two inputs. Outputs are the gate alone; or input 0, the gate and input 1.
const AND: &[u8; 24] = b"\x01\0\x02\0\0\0\0\0\x01\0\0\0\0\0\0\0\x01\x01\0\x01\0\0\0\x02";

const OPEN: &[u8; 32] =
    b"\x01\0\x02\0\0\0\0\0\x01\0\0\0\0\0\0\0\x01\x01\0\x03\0\0\0\0\0\0\0\x02\0\0\0\x01";

fn paired(
    rt: &impl Abort,
    answer: Result<Pairing, Failure>,
    expected: &[bool],
) -> Result<(), Fail> {
    match answer? {
        Pairing::Coins(found) => {
            assert!(rt; found.as_slice() == expected);
            Ok(())
        }
        Pairing::Differ(_) => Err(Fail::new("the results differ")),
    }
}

#[test]
fn coins_are_paired(rt: HostRuntime) -> Result<(), Fail> {
    let heap = rt.alloc();
    let and = Sheet::read(heap, AND)?;
    let open = Sheet::read(heap, OPEN)?;
    paired(
        &rt,
        scheme::pair(
            heap,
            &and,
            &[true, false],
            &[false, true],
            &[false, false, false],
        ),
        &[true, true, false],
    )?;
    // and back
    paired(
        &rt,
        scheme::pair(
            heap,
            &and,
            &[false, true],
            &[true, false],
            &[true, true, false],
        ),
        &[false, false, false],
    )?;
    // the same input keeps its coins
    paired(
        &rt,
        scheme::pair(
            heap,
            &open,
            &[true, true],
            &[true, true],
            &[true, false, true],
        ),
        &[true, false, true],
    )
}

// The first output in which the results of two inputs of a text's sheet differ.
fn difference(
    heap: Global,
    text: &[u8],
    first: [bool; 2],
    second: [bool; 2],
) -> Result<usize, Fail> {
    let sheet = Sheet::read(heap, text)?;
    match scheme::pair(heap, &sheet, &first, &second, &[false, false, false])? {
        Pairing::Differ(output) => Ok(output),
        Pairing::Coins(_) => Err(Fail::new("the results are the same")),
    }
}

// Not a loop over a table: its rows would be these lines.
#[test]
fn the_first_output_that_differs(rt: HostRuntime) -> Result<(), Fail> {
    let heap = rt.alloc();
    assert_eq!(rt; difference(heap, AND, [true, false], [true, true])?, 0);
    assert_eq!(rt; difference(heap, OPEN, [false, false], [true, true])?, 0);
    assert_eq!(rt; difference(heap, OPEN, [true, false], [true, true])?, 1);
    assert_eq!(rt; difference(heap, OPEN, [false, true], [false, false])?, 2);
    Ok(())
}

#[test]
fn what_does_not_fit(rt: HostRuntime) -> Result<(), Fail> {
    let heap = rt.alloc();
    let and = Sheet::read(heap, AND)?;
    let two = [true, false];
    let three = [true, false, true];
    let cases: [(&[bool], &[bool], &[bool], Refusal); 4] = [
        (&three, &two, &three, Refusal::Values),
        (&two, &three, &three, Refusal::Values),
        (&two, &two, &two, Refusal::Malformed),
        // values before coins
        (&two, &three, &two, Refusal::Values),
    ];
    for (first, second, coins, refusal) in cases {
        refused(&rt, scheme::pair(heap, &and, first, second, coins), refusal);
    }
    Ok(())
}

#[test]
fn values(rt: HostRuntime) -> Result<(), Fail> {
    let heap = rt.alloc();
    gives(
        &rt,
        bits::read_values(heap, 3, b"\x01\0\x01"),
        &[true, false, true],
    )?;
    gives(&rt, bits::read_values(heap, 0, b""), &[])?;
    let others: [(usize, &[u8]); 4] = [
        (2, b"\x01\0\x01"),
        (3, b"\x01\0"),
        (2, b"\x01\x02"),
        (1, b"1"),
    ];
    for (count, text) in others {
        refused(&rt, bits::read_values(heap, count, text), Refusal::Values);
    }
    Ok(())
}

#[test]
fn lines(rt: HostRuntime) -> Result<(), Fail> {
    let heap = rt.alloc();
    gives(&rt, bits::read_line(heap, 3, b"101"), &[true, false, true])?;
    gives(
        &rt,
        bits::read_line(heap, 3, b"101\n"),
        &[true, false, true],
    )?;
    gives(&rt, bits::read_line(heap, 0, b"\n"), &[])?;
    let others: [&[u8]; 5] = [b"10", b"101\n\n", b"10 ", b"102", b"\x01\0\x01"];
    for text in others {
        refused(&rt, bits::read_line(heap, 3, text), Refusal::Malformed);
    }
    assert!(rt; bits::line_of(heap, &[true, false, true])?.as_str() == "101");
    Ok(())
}
