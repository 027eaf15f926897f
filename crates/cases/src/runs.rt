// Sheets that are run, and written as they were read.
use crate::answers::{gives, refused};
use circuit::{Refusal, Sheet};
use std::alloc::{AllocError, Global};
use std::test::Fail;

// Two inputs; gate 0 is and of both, gate 1 exclusive or of wire 0 with itself, gate 2 not of gate 0, its left wire, and gate 3
// gives 1 for the case 1 0 of the inputs alone. Outputs are gate 0, gate 2, gate 1, gate 3, input 1 and gate 0 again.
const MIXED: &[u8; 71] = b"\x01\0\x02\0\x01\0\0\0\x04\
    \0\0\0\0\0\0\0\x01\x01\0\0\0\0\0\0\0\0\x06\0\0\0\x02\0\0\0\x01\x0c\0\0\0\0\0\0\0\x01\x02\
    \0\x06\0\0\0\x02\0\0\0\x04\0\0\0\x03\0\0\0\x05\0\0\0\x01\0\0\0\x02";

#[test]
fn shared_and_repeated_wires(rt: HostRuntime) -> Result<(), Fail> {
    let heap = rt.alloc();
    let sheet = Sheet::read(heap, MIXED)?;
    let cases = [
        ([false, false], [false, true, false, false, false, false]),
        ([false, true], [false, true, false, false, true, false]),
        ([true, false], [false, true, false, true, false, false]),
        ([true, true], [true, false, false, false, true, true]),
    ];
    for (inputs, outputs) in cases {
        gives(&rt, sheet.run(heap, &inputs), &outputs)?;
    }
    gives(
        &rt,
        sheet.values(heap, &[true, false]),
        &[true, false, false, false, true, true],
    )?;
    assert_eq!(rt; sheet.wire_count(), 6);
    gives(&rt, sheet.write(heap), MIXED)
}

#[test]
fn other_than_as_many_values(rt: HostRuntime) -> Result<(), Fail> {
    let heap = rt.alloc();
    let sheet = Sheet::read(heap, MIXED)?;
    let inputs: [&[bool]; 3] = [&[], &[true], &[true, true, true]];
    for values in inputs {
        refused(&rt, sheet.run(heap, values), Refusal::Values);
        refused(&rt, sheet.values(heap, values), Refusal::Values);
    }
    Ok(())
}

// A chain of as many gates as a sheet may have, each exclusive or of the wire before it and wire 0, and its end as as many outputs.
fn chain(heap: Global) -> Result<Vec<u8>, AllocError> {
    let mut text = Vec::new(heap);
    text.extend_from_slice(b"\x01\0\x01\0\0\0\x01\0\0")?;
    for i in 0..65536u32 {
        text.extend_from_slice(&i.to_be_bytes())?;
        text.extend_from_slice(b"\0\0\0\0\x06")?;
    }
    text.extend_from_slice(b"\x04\0")?;
    for _ in 0..1024 {
        text.extend_from_slice(b"\0\x01\0\0")?;
    }
    Ok(text)
}

#[test]
fn as_many_gates_as_may_be(rt: HostRuntime) -> Result<(), Fail> {
    let heap = rt.alloc();
    let text = chain(heap)?;
    let sheet = Sheet::read(heap, &text)?;
    gives(&rt, sheet.run(heap, &[true]), &[true; 1024])?;
    gives(&rt, sheet.write(heap), &text)
}
