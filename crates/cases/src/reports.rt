// Calls with a report of no row and of one row.
use line::gateway::Gateway;
use market::refusal::{Refusal, RefusalCode};
use market::row::{Row, RowKind};
use rules::price_time::PriceTime;
use std::test::Fail;

// The refusal of a call that has more rows than the report, by its number, layer and place.
const TOO_FEW_ROWS: Result<(u32, u32), (u32, u32, u32)> = Err((15, 3, 0));

// What a call answers: its two numbers, or the refusal's number, layer and place.
fn told(answer: Result<(u32, u32), Refusal>) -> Result<(u32, u32), (u32, u32, u32)> {
    answer.map_err(|refusal| {
        let code = RefusalCode::from(refusal);
        (code.number, code.layer.into(), code.place)
    })
}

// A venue in Continuous with a sell of two contracts at 5 and one at 6.
fn opened(rt: &HostRuntime) -> Result<Gateway<PriceTime>, Fail> {
    let Ok(opening) = Gateway::build(rt.alloc(), PriceTime, b"F 1 1 9") else {
        return Err(Fail::new("no venue is built"));
    };
    let mut gateway = opening.gateway;
    let mut report = [Row::blank(); 0];
    let _ = gateway.call(b"P O", &mut report);
    let _ = gateway.call(b"E 7 1 S 2 5 D", &mut report);
    let _ = gateway.call(b"E 8 1 S 1 6 D", &mut report);
    Ok(gateway)
}

#[test]
fn no_row(rt: HostRuntime) -> Result<(), Fail> {
    let mut gateway = opened(&rt)?;
    let mut report = [Row::blank(); 0];
    assert_eq!(rt;
        told(gateway.call(b"E 9 1 B 1 5 D", &mut report)),
        TOO_FEW_ROWS
    );
    assert_eq!(rt; told(gateway.call(b"C 7 1", &mut report)), TOO_FEW_ROWS);
    assert_eq!(rt; told(gateway.call(b"P X", &mut report)), TOO_FEW_ROWS);
    assert_eq!(rt;
        told(gateway.call(b"E 9 1 B 1 4 D", &mut report)),
        Ok((3, 0))
    );
    Ok(())
}

// An amend and a quote that have one row to tell are refused for want of it, and then nothing has happened: both orders and the quote rest as they did.
#[test]
fn amends_and_quotes_without_a_row(rt: HostRuntime) -> Result<(), Fail> {
    let mut gateway = opened(&rt)?;
    let mut none = [Row::blank(); 0];
    assert_eq!(rt; told(gateway.call(b"Q 9 1 2 3 0 0", &mut none)), Ok((3, 0)));
    // Fewer contracts, and more: both cancel something.
    assert_eq!(rt; told(gateway.call(b"A 7 1 1 5", &mut none)), TOO_FEW_ROWS);
    assert_eq!(rt; told(gateway.call(b"A 7 1 3 5", &mut none)), TOO_FEW_ROWS);
    // The bid with one contract less, and at another price.
    assert_eq!(rt;
        told(gateway.call(b"Q 9 1 1 3 0 0", &mut none)),
        TOO_FEW_ROWS
    );
    assert_eq!(rt;
        told(gateway.call(b"Q 9 1 2 4 0 0", &mut none)),
        TOO_FEW_ROWS
    );
    // As it rests: nothing to tell.
    assert_eq!(rt; told(gateway.call(b"A 7 1 2 5", &mut none)), Ok((1, 0)));
    assert_eq!(rt; told(gateway.call(b"Q 9 1 2 3 0 0", &mut none)), Ok((3, 0)));
    let mut one = [Row::blank(); 1];
    assert_eq!(rt; told(gateway.call(b"C 7 1", &mut one)), Ok((1, 2)));
    assert_eq!(rt; told(gateway.call(b"Q 9 1 0 0 0 0", &mut one)), Ok((0, 0)));
    assert_eq!(rt; one[0].quantity, 2);
    assert_eq!(rt; one[0].buyer, 3);
    Ok(())
}

#[test]
fn one_row(rt: HostRuntime) -> Result<(), Fail> {
    let mut gateway = opened(&rt)?;
    let mut report = [Row::blank(); 1];
    assert_eq!(rt;
        told(gateway.call(b"E 9 1 B 3 6 D", &mut report)),
        TOO_FEW_ROWS
    );
    assert_eq!(rt; report[0].kind, RowKind::Blank);
    assert_eq!(rt; report[0].seller, 0);
    assert_eq!(rt;
        told(gateway.call(b"E 9 1 B 3 5 I", &mut report)),
        TOO_FEW_ROWS
    );
    assert_eq!(rt;
        told(gateway.call(b"E 9 1 B 2 5 I", &mut report)),
        Ok((3, 2))
    );
    assert_eq!(rt; report[0].kind, RowKind::Trade);
    assert_eq!(rt; report[0].quantity, 2);
    assert_eq!(rt; report[0].buyer, 3);
    assert_eq!(rt; report[0].seller, 1);
    assert_eq!(rt; told(gateway.call(b"C 8 2", &mut report)), Ok((2, 1)));
    assert_eq!(rt; report[0].kind, RowKind::Cancellation);
    Ok(())
}

#[test]
fn killed_in_one_row(rt: HostRuntime) -> Result<(), Fail> {
    let mut gateway = opened(&rt)?;
    let mut report = [Row::blank(); 1];
    // The two fills that are tried would take two rows, and leave none.
    assert_eq!(rt;
        told(gateway.call(b"E 9 1 B 9 6 F", &mut report)),
        Ok((3, 0))
    );
    assert_eq!(rt; report[0].kind, RowKind::Cancellation);
    assert_eq!(rt; report[0].quantity, 9);
    assert_eq!(rt; report[0].buyer, 3);
    Ok(())
}

// A combination order that takes three units from its legs tells four rows; a report of three is too short, and then nothing has happened.
#[test]
fn three_rows(rt: HostRuntime) -> Result<(), Fail> {
    let Ok(opening) = Gateway::build(rt.alloc(), PriceTime, b"F 2 1 1 999 999") else {
        return Err(Fail::new("no venue is built"));
    };
    let mut gateway = opening.gateway;
    let mut three = [Row::blank(); 3];
    let lines: [(&[u8], (u32, u32)); 5] = [
        (b"P O", (0, 0)),
        (b"D 7 2 1 2 1 -1", (1001, 0)),
        (b"E 7 1 S 3 105 D", (1, 0)),
        (b"E 8 2 B 2 100 D", (2, 0)),
        (b"E 9 2 B 4 99 D", (3, 0)),
    ];
    for (line, answer) in lines.iter() {
        assert_eq!(rt; told(gateway.call(line, &mut three)), Ok(*answer));
    }
    assert_eq!(rt;
        told(gateway.call(b"E 5 1001 B 5 6 D", &mut three)),
        TOO_FEW_ROWS
    );
    for row in three.iter() {
        assert_eq!(rt; row.kind, RowKind::Blank);
    }
    let mut four = [Row::blank(); 4];
    assert_eq!(rt;
        told(gateway.call(b"E 5 1001 B 5 6 D", &mut four)),
        Ok((4, 3))
    );
    assert_eq!(rt; four[0].kind, RowKind::Combination);
    assert_eq!(rt; four[0].price.0, 16);
    assert_eq!(rt; four[3].kind, RowKind::Trade);
    Ok(())
}
