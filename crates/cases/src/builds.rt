// Build lines, each with the answer that it gets.
use gate::build_error::BuildError;
use line::gateway::Gateway;
use market::refusal::RefusalCode;
use rules::pro_rata::ProRata;
use std::alloc::Global;
use std::test::Fail;

// The number of instruments, or the refusal's number, layer and place.
type Answer = Result<u32, (u32, u32, u32)>;

// The answer to a build line.
fn built(heap: Global, line: &[u8]) -> Result<Answer, Fail> {
    match Gateway::build(heap, ProRata, line) {
        Ok(opening) => Ok(Ok(opening.answer.0)),
        Err(BuildError::Refused(refusal)) => {
            let code = RefusalCode::from(refusal);
            Ok(Err((code.number, code.layer.into(), code.place)))
        }
        Err(BuildError::OutOfMemory) => Err(Fail::new("memory ran out")),
    }
}

#[test]
fn lines_refused(rt: HostRuntime) -> Result<(), Fail> {
    let cases: [(&[u8], Answer); 28] = [
        (b"f 1 1 9", Err((1, 1, 0))),
        (b"F 1 1 9\r", Err((1, 1, 7))),
        (b"F 2 0 0 x 0", Err((1, 1, 8))),
        (b"", Err((2, 1, 0))),
        (b"P O", Err((2, 1, 0))),
        (b"E 1 1 B 1 5 D", Err((2, 1, 0))),
        (b"D 1 2 1 2 1 -1", Err((2, 1, 0))),
        (b"FO 1 1 9", Err((2, 1, 0))),
        (b" F 1 1 9", Err((2, 1, 0))),
        (b"F", Err((2, 1, 1))),
        (b"F 0", Err((2, 1, 1))),
        (b"O 0 1 9", Err((2, 1, 1))),
        (b"F 65", Err((2, 1, 1))),
        (b"F -1 1 9", Err((2, 1, 1))),
        (b"F 01 1 9", Err((2, 1, 1))),
        (b"F B 1 9", Err((2, 1, 1))),
        (b"F 1", Err((2, 1, 2))),
        (b"F 1 1", Err((2, 1, 3))),
        (b"F 1 1 ", Err((2, 1, 3))),
        (b"F 1 1 9 ", Err((2, 1, 4))),
        (b"F 1 1 9 9", Err((2, 1, 4))),
        (b"F 2 1 1 9", Err((2, 1, 5))),
        (b"F 2 1 1 9 9 9", Err((2, 1, 6))),
        (b"F 2 1  9 9", Err((2, 1, 3))),
        (b"F 1 -1 9", Err((2, 1, 2))),
        (b"F 1 1 -9", Err((2, 1, 3))),
        (b"F 1 1 1000000000", Err((2, 1, 3))),
        (b"F 2 0 9 8 05", Err((2, 1, 5))),
    ];
    // As in the next test: a function for both would need the handle that may end the program, which no function takes.
    for (line, answer) in cases.iter() {
        assert_eq!(rt; built(rt.alloc(), line)?, *answer);
    }
    Ok(())
}

#[test]
fn all_instruments(rt: HostRuntime) -> Result<(), Fail> {
    let mut line = Vec::new(rt.alloc());
    line.extend_from_slice(b"F 64")?;
    for _ in 0..128 {
        line.extend_from_slice(b" 999999")?;
    }
    assert_eq!(rt; line.len(), 900);
    assert_eq!(rt; built(rt.alloc(), line.as_slice())?, Ok(64));
    line.extend_from_slice(b" 999999")?;
    assert_eq!(rt; built(rt.alloc(), line.as_slice())?, Err((2, 1, 130)));
    Ok(())
}

#[test]
fn bands_judged(rt: HostRuntime) -> Result<(), Fail> {
    let cases: [(&[u8], Answer); 16] = [
        (b"F 1 1 1", Ok(1)),
        (b"O 1 1 999999", Ok(1)),
        (b"F 2 90 950 110 1050", Ok(2)),
        (b"O 3 5 5 5 5 6 999999", Ok(3)),
        (b"F 1 0 9", Err((3, 2, 2))),
        (b"F 1 1 1000000", Err((3, 2, 3))),
        (b"F 1 1 0", Err((3, 2, 2))),
        (b"F 1 10 9", Err((3, 2, 2))),
        (b"F 1 1000001 1000000", Err((3, 2, 3))),
        (b"F 1 1000000 9", Err((3, 2, 2))),
        (b"F 1 0 999999999", Err((3, 2, 2))),
        (b"F 3 10 20 0 5 1000000 9", Err((3, 2, 4))),
        (b"F 3 10 0 0 5 1000000 9", Err((3, 2, 3))),
        (b"F 3 10 20 30 5 1000000 1000000", Err((3, 2, 6))),
        (b"F 3 10 20 30 10 19 9", Err((3, 2, 3))),
        (b"O 3 10 20 30 10 20 29", Err((3, 2, 4))),
    ];
    for (line, answer) in cases.iter() {
        assert_eq!(rt; built(rt.alloc(), line)?, *answer);
    }
    Ok(())
}
