// Damaged and cut sheets, and the number that each is refused with.
use crate::answers::refused;
use circuit::{Failure, Refusal, Sheet};
use std::alloc::Global;
use std::test::Fail;

// A case on each line: the number of its refusal, or 0 where it is read, and its bytes.
const CASES: &str = "
0  01 0002 0001 00000001  00000000 00000001 01  0001 00000002   # one gate, and
0  01 0000 0000 00000000  0000                                  # nothing at all is a sheet
0  01 0002 0002 00000001  00000001 00000001 0f  0002 00000002 00000002   # a wire taken twice, an output twice
0  01 0400 0400 00000000  0000                                  # 1,024 inputs

1                                                               # kinds
1  00 0002 0001 00000001  00000000 00000001 01  0001 00000002
1  02 0002 0001 00000001  00000000 00000001 01  0001 00000002
1  ff

1  01 0002 0001 00000001  00000000 00000001 01  0001 00000002 00   # bytes left over
1  01 0000 0000 00000000  0000 01

2  01 0401                                                      # inputs, also where the text ends there
2  01 ffff 0000 00000000  0000
2  01 0002 0003 00000001  00000000 00000001 01  0001 00000002   # the opener's more than all
2  01 0400 0401
2  01 0002 0001 00010001                                        # gates
2  01 0002 0001 ffffffff
2  01 0002 0001 00000000  0401                                  # outputs
2  01 0002 0001 00000000  ffff 00000002

3  01 0002 0001 00000001  00000002 00000001 01  0001 00000002   # a gate's own wire, left and right
3  01 0002 0001 00000001  00000000 00000002 01  0001 00000002
3  01 0002 0001 00000001  80000000 00000001 01  0001 00000002
3  01 0000 0000 00000001  00000000 00000000 01  0000            # no wire is there
3  01 0001 0000 00000002  00000000 00000000 01  00000000 00000002 01  0000
3  01 0002 0001 00000001  00000000 00000001 01  0001 00000003   # outputs
3  01 0000 0000 00000000  0001 00000000
3  01 0001 0000 00000000  0002 00000001                         # also where the next is missing

4  01 0002 0001 00000001  00000000 00000001 10  0001 00000002   # tables of more than four bits
4  01 0002 0001 00000001  00000000 00000001 ff  0001 00000002

3  01 0001 0000 00000002  00000001 00000000 01                  # the first gate's fault, and the second is missing
4  01 0001 0000 00000002  00000000 00000000 10
3  01 0001 0000 00000001  00000001 00000000 10                  # of a gate's faults the lowest
1  01 0001 0000 00000001  00000001 00000000
4  01 0001 0000 00000002  00000000 00000000 10  00000009 00000009 10   # the first gate's before the second's
3  01 0001 0000 00000002  00000001 00000000 01  00000000 00000000 10
";

// A text, and the number that it is refused with, or none where it is read.
#[derive(Drop)]
struct Case {
    text: Vec<u8>,
    refusal: Option<u8>,
}

// The case of a line, if it has one.
fn case_in(heap: Global, line: &str) -> Result<Option<Case>, Fail> {
    let digits: Vec<u8> = line
        .chars()
        .take_while(|c| *c != '#')
        .filter_map(|c| u8::try_from(c.to_digit(16)?).ok())
        .collect(heap)?;
    let [number, digits @ ..] = digits.as_slice() else {
        return Ok(None);
    };
    let (bytes, rest) = digits.as_chunks::<2>();
    if !rest.is_empty() {
        return Err(Fail::new("half a byte"));
    }
    Ok(Some(Case {
        text: bytes
            .iter()
            .map(|[high, low]| *high << 4 | *low)
            .collect(heap)?,
        refusal: (*number != 0).then_some(*number),
    }))
}

// The number that a text is refused with, or none where it is read.
fn number(heap: Global, text: &[u8]) -> Result<Option<u8>, Fail> {
    match Sheet::read(heap, text) {
        Ok(_) => Ok(None),
        Err(Failure::Refused(refusal)) => Ok(Some(refusal.number())),
        Err(Failure::Memory) => Err(Fail::new("out of memory")),
    }
}

#[test]
fn each_text_has_its_number(rt: HostRuntime) -> Result<(), Fail> {
    let heap = rt.alloc();
    let mut cases = 0u32;
    for line in CASES.lines() {
        let Some(case) = case_in(heap, line)? else {
            continue;
        };
        assert_eq!(rt; number(heap, &case.text)?, case.refusal, "{}", line);
        cases = cases.saturating_add(1);
    }
    assert_eq!(rt; cases, 34);
    Ok(())
}

#[test]
fn every_cut_is_refused(rt: HostRuntime) -> Result<(), Fail> {
    let heap = rt.alloc();
    let text = b"\x01\0\x02\0\x01\0\0\0\x01\0\0\0\0\0\0\0\x01\x01\0\x01\0\0\0\x02";
    assert_eq!(rt; number(heap, text)?, None);
    for n in 0..text.len() {
        refused(&rt, Sheet::read(heap, &text[..n]), Refusal::Malformed);
    }
    Ok(())
}

#[test]
fn its_text_has_the_number(rt: HostRuntime) -> Result<(), Fail> {
    let told = [
        (Refusal::Malformed, 1, "refused: 1"),
        (Refusal::Count, 2, "refused: 2"),
        (Refusal::NotMade, 3, "refused: 3"),
        (Refusal::Table, 4, "refused: 4"),
        (Refusal::Values, 7, "refused: 7"),
    ];
    for (refusal, number, expected) in told {
        assert_eq!(rt; refusal.number(), number);
        let text = format!(in rt.alloc(); "{refusal}")?;
        assert!(rt; text.as_str() == expected);
    }
    Ok(())
}
