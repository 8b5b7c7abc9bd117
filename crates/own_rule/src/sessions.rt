// A session under the rule of the newest first: its shares are neither those of price/time nor those of pro-rata.
use crate::composed::serve_all;
use crate::newest_first::NewestFirst;
use line::gateway::Gateway;
use market::row::{Row, RowKind};
use std::test::Fail;

// A contract trade or a cancellation, as its row tells it: kind, quantity, buyer, seller.
type Told = (RowKind, u32, u32, u32);

fn told(row: &Row) -> Told {
    (row.kind, row.quantity, row.buyer, row.seller)
}

// A venue in which two buys of three contracts rest at 10.
fn two_buys(rt: &HostRuntime) -> Result<Gateway<NewestFirst>, Fail> {
    let lines: [&[u8]; 3] = [b"P O", b"E 7 1 B 3 10 D", b"E 8 1 B 3 10 D"];
    let mut report = [Row::blank(); 0];
    serve_all(rt.alloc(), NewestFirst, b"O 1 1 99", &lines, &mut report).map_err(|_| Fail::new(
        "no venue is built",
    ))
}

#[test]
fn the_newest_takes_first(rt: HostRuntime) -> Result<(), Fail> {
    let mut gateway = two_buys(&rt)?;
    let mut report = [Row::blank(); 3];
    assert_eq!(rt; gateway.call(b"E 9 1 S 4 10 I", &mut report), Ok((3, 4)));
    assert_eq!(rt; told(&report[0]), (RowKind::Trade, 1, 1, 3));
    assert_eq!(rt; told(&report[1]), (RowKind::Trade, 3, 2, 3));
    assert_eq!(rt; report[2].kind, RowKind::Blank);
    Ok(())
}

#[test]
fn amended_and_quoted(rt: HostRuntime) -> Result<(), Fail> {
    let mut gateway = two_buys(&rt)?;
    let mut report = [Row::blank(); 3];
    // More contracts: the first order arrives anew, behind the second.
    assert_eq!(rt; gateway.call(b"A 7 1 4 10", &mut report), Ok((3, 0)));
    assert_eq!(rt; told(&report[0]), (RowKind::Cancellation, 3, 1, 0));
    assert_eq!(rt; gateway.call(b"Q 9 1 2 10 2 12", &mut report), Ok((4, 5)));
    // Behind both stands the bid of the quote: it takes its two, and the amended order what is left.
    assert_eq!(rt; gateway.call(b"E 6 1 S 5 10 D", &mut report), Ok((6, 5)));
    assert_eq!(rt; told(&report[0]), (RowKind::Trade, 3, 3, 6));
    assert_eq!(rt; told(&report[1]), (RowKind::Trade, 2, 4, 6));
    assert_eq!(rt; report[2].kind, RowKind::Blank);
    Ok(())
}
