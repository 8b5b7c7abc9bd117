// Lines that define combinations, one after another in one venue, each with the answer that it gets.
use line::gateway::Gateway;
use market::refusal::RefusalCode;
use market::row::{Row, RowKind};
use rules::price_time::PriceTime;
use std::alloc::Global;
use std::test::Fail;

// The two numbers of an answer, or the refusal's number, layer and place.
type Answer = Result<(u32, u32), (u32, u32, u32)>;

fn opened(heap: Global, line: &[u8]) -> Result<Gateway<PriceTime>, Fail> {
    match Gateway::build(heap, PriceTime, line) {
        Ok(opening) => Ok(opening.gateway),
        Err(_) => Err(Fail::new("no venue is built")),
    }
}

// The answer to a line whose report has one row.
fn told(gateway: &mut Gateway<PriceTime>, line: &[u8]) -> Answer {
    let mut report = [Row::blank(); 1];
    gateway.call(line, &mut report).map_err(|refusal| {
        let code = RefusalCode::from(refusal);
        (code.number, code.layer.into(), code.place)
    })
}

#[test]
fn spreads_refused(rt: HostRuntime) -> Result<(), Fail> {
    let cases: [(&[u8], Answer); 28] = [
        (b"D 7 2 1 2 1 -1", Err((4, 2, 0))),
        (b"P O", Ok((0, 0))),
        (b"D 0 2 1 2 1 -1", Err((5, 2, 1))),
        (b"D 1000 2 0 2 1 -1", Err((5, 2, 1))),
        (b"D 7 2 0 2 1 -1", Err((6, 2, 3))),
        (b"D 7 2 1 4 1 -1", Err((6, 2, 4))),
        (b"D 7 2 4 0 1 -1", Err((6, 2, 3))),
        (b"D 7 2 1 1001 1 -1", Err((6, 2, 4))),
        (b"D 7 3 1 2 4 1 1 1", Err((6, 2, 5))),
        (b"D 7 3 1 2 3 1 1 -2", Err((11, 2, 2))),
        (b"D 7 3 3 2 1 0 0 0", Err((11, 2, 2))),
        (b"D 7 2 2 1 1 -1", Err((11, 2, 4))),
        (b"D 7 2 1 1 1 -1", Err((11, 2, 4))),
        (b"D 7 2 2 1 0 0", Err((11, 2, 4))),
        (b"D 7 2 1 2 0 -1", Err((11, 2, 5))),
        (b"D 7 2 1 2 0 0", Err((11, 2, 5))),
        (b"D 7 2 1 2 11 0", Err((11, 2, 6))),
        (b"D 7 2 1 2 11 -12", Err((11, 2, 5))),
        (b"D 7 2 1 2 -22 24", Err((11, 2, 5))),
        (b"D 7 2 1 2 1 -11", Err((11, 2, 6))),
        (b"D 7 2 1 2 999999999 -2", Err((11, 2, 5))),
        (b"D 7 2 1 2 2 -10", Err((11, 2, 6))),
        (b"D 7 2 1 2 -10 2", Err((11, 2, 5))),
        (b"D 7 2 1 2 9 -2", Err((11, 2, 5))),
        (b"D 7 2 1 2 1 5", Err((11, 2, 6))),
        (b"D 7 2 1 2 1 1", Err((11, 2, 6))),
        (b"D 7 2 1 2 -3 -3", Err((11, 2, 6))),
        (b"E 5 1001 B 5 6 D", Err((6, 2, 2))),
    ];
    let mut gateway = opened(rt.alloc(), b"F 3 1 1 1 9 9 9")?;
    for (line, answer) in cases.iter() {
        assert_eq!(rt; told(&mut gateway, line), *answer);
    }
    Ok(())
}

#[test]
fn spreads_made(rt: HostRuntime) -> Result<(), Fail> {
    let cases: [(&[u8], Answer); 25] = [
        (b"P O", Ok((0, 0))),
        (b"D 7 2 1 2 -2 4", Ok((1001, 1))),
        (b"D 8 2 1 2 1 -2", Ok((1001, 0))),
        (b"D 8 2 1 2 300 -600", Ok((1001, 0))),
        (b"D 9 2 1 2 10 -40", Ok((1002, 0))),
        (b"D 9 2 1 2 -1 4", Ok((1002, 1))),
        (b"D 9 2 1 2 4 -1", Ok((1003, 0))),
        (b"D 9 2 1 2 999999999 -999999999", Ok((1004, 0))),
        (b"D 9 2 1 3 1 -2", Ok((1005, 0))),
        (b"D 9 2 2 3 1 -2", Ok((1006, 0))),
        (b"D 9 2 1 3 -10 9", Ok((1007, 1))),
        (b"D 9 2 1 2 -5 10", Ok((1001, 1))),
        (b"D 9 2 1 2 -1 1", Ok((1004, 1))),
        (b"E 5 1001 B 5 6 D", Ok((1, 0))),
        (b"E 5 1007 S 0 6 D", Err((8, 2, 4))),
        (b"E 0 1001 B 5 6 D", Err((5, 2, 1))),
        (b"E 5 1008 B 5 6 D", Err((6, 2, 2))),
        (b"E 5 1000 B 5 6 D", Err((6, 2, 2))),
        (b"E 5 4 B 5 6 D", Err((6, 2, 2))),
        (b"E 5 3 B 5 6 D", Ok((2, 0))),
        (b"P H", Ok((0, 0))),
        (b"D 8 2 1 2 1 -2", Err((4, 2, 0))),
        (b"P R", Ok((0, 0))),
        (b"D 8 2 1 2 1 -2", Ok((1001, 0))),
        (b"D 8 2 1 3 5 -6", Ok((1008, 0))),
    ];
    let mut gateway = opened(rt.alloc(), b"F 3 1 1 1 9 9 9")?;
    for (line, answer) in cases.iter() {
        assert_eq!(rt; told(&mut gateway, line), *answer);
    }
    Ok(())
}

#[test]
fn combinations_of_options_made(rt: HostRuntime) -> Result<(), Fail> {
    let cases: [(&[u8], Answer); 9] = [
        (b"P O", Ok((0, 0))),
        (b"D 7 2 1 2 1 1", Ok((1001, 0))),
        (b"D 7 2 1 2 -7 -7", Ok((1001, 1))),
        (b"D 7 2 1 2 1 -1", Ok((1002, 0))),
        (b"D 7 3 1 2 3 6 -12 3", Ok((1003, 0))),
        (b"D 7 3 1 2 3 -2 4 -1", Ok((1003, 1))),
        (b"D 7 3 1 2 4 2 -4 1", Ok((1004, 0))),
        (
            b"D 7 10 1 2 3 4 5 6 7 8 9 10 9 10 9 10 9 -9 -10 9 10 9",
            Ok((1005, 0)),
        ),
        (
            b"D 7 10 1 2 3 4 5 6 7 8 9 10 -9 -10 -9 -10 -9 9 10 -9 -10 -9",
            Ok((1005, 1)),
        ),
    ];
    let mut gateway = opened(rt.alloc(), b"O 10 1 1 1 1 1 1 1 1 1 1 9 9 9 9 9 9 9 9 9 9")?;
    for (line, answer) in cases.iter() {
        assert_eq!(rt; told(&mut gateway, line), *answer);
    }
    Ok(())
}

#[test]
fn legs_of_options_refused(rt: HostRuntime) -> Result<(), Fail> {
    let cases: [(&[u8], Answer); 13] = [
        (b"P O", Ok((0, 0))),
        (b"D 7 3 1 2 3 6 -15 3", Err((11, 2, 7))),
        (b"D 7 3 1 2 3 1 5 11", Err((11, 2, 8))),
        (b"D 7 3 1 2 3 1 5 9", Err((11, 2, 7))),
        (b"D 7 3 1 2 3 5 1 9", Err((11, 2, 6))),
        (b"D 7 3 1 2 3 12 1 0", Err((11, 2, 8))),
        (b"D 7 3 1 3 2 1 1 1", Err((11, 2, 5))),
        (b"D 7 3 2 1 3 1 1 1", Err((11, 2, 4))),
        (b"D 7 3 1 3 3 1 1 1", Err((11, 2, 5))),
        (
            b"D 7 10 1 2 3 4 5 6 7 8 9 11 9 10 9 10 9 -9 -10 9 10 9",
            Err((6, 2, 12)),
        ),
        (
            b"D 7 10 1 2 3 4 5 6 7 8 10 9 9 10 9 10 9 -9 -10 9 10 9",
            Err((11, 2, 12)),
        ),
        (
            b"D 7 10 1 2 3 4 5 6 7 8 9 10 9 10 9 10 9 -9 -10 9 10 2",
            Err((11, 2, 13)),
        ),
        (
            b"D 7 10 1 2 3 4 5 6 7 8 9 10 9 10 9 10 9 -9 -10 9 10 11",
            Err((11, 2, 22)),
        ),
    ];
    let mut gateway = opened(rt.alloc(), b"O 10 1 1 1 1 1 1 1 1 1 1 9 9 9 9 9 9 9 9 9 9")?;
    for (line, answer) in cases.iter() {
        assert_eq!(rt; told(&mut gateway, line), *answer);
    }
    Ok(())
}

// A line that defines a combination of two instruments with one digit each.
fn pair_line(first: u8, second: u8) -> [u8; 13] {
    let mut line = *b"D 7 2 1 2 1 1";
    line[6] = first;
    line[8] = second;
    line
}

#[test]
fn combinations_spent(rt: HostRuntime) -> Result<(), Fail> {
    let mut gateway = opened(rt.alloc(), b"O 9 1 1 1 1 1 1 1 1 1 9 9 9 9 9 9 9 9 9")?;
    assert_eq!(rt; told(&mut gateway, b"P O"), Ok((0, 0)));
    let mut made = 0;
    for first in b'1'..b'9' {
        for second in first + 1..=b'9' {
            let answer = told(&mut gateway, &pair_line(first, second));
            if made < 32 {
                made += 1;
                assert_eq!(rt; answer, Ok((1000 + made, 0)));
            } else {
                assert_eq!(rt; answer, Err((12, 2, 0)));
            }
        }
    }
    assert_eq!(rt; made, 32);
    assert_eq!(rt; told(&mut gateway, b"D 7 2 1 2 -3 -3"), Ok((1001, 1)));
    assert_eq!(rt; told(&mut gateway, b"D 7 2 1 2 1 2"), Err((12, 2, 0)));
    assert_eq!(rt; told(&mut gateway, b"D 7 2 1 2 1 5"), Err((11, 2, 6)));
    Ok(())
}

// A definition tells no row, and what a report held before is gone.
#[test]
fn no_row_told(rt: HostRuntime) -> Result<(), Fail> {
    let mut gateway = opened(rt.alloc(), b"O 2 1 1 9 9")?;
    let mut none = [Row::blank(); 0];
    let mut report = [Row::blank(); 1];
    assert!(rt; gateway.call(b"P O", &mut none).is_ok());
    assert!(rt; gateway.call(b"D 7 2 1 2 1 1", &mut none).is_ok());
    assert!(rt; gateway.call(b"E 1 1 B 1 5 I", &mut report).is_ok());
    assert_eq!(rt; report[0].kind, RowKind::Cancellation);
    assert!(rt; gateway.call(b"D 7 2 1 2 1 2", &mut report).is_ok());
    assert_eq!(rt; report[0].kind, RowKind::Blank);
    Ok(())
}
