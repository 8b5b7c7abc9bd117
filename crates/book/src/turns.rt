// The turns in which the round tries orders: by combination, buy before sell, then the better price, then book order.
ghost use Rattle.std.specs.Prelude.{◌≡◌, ◌<◌, length, IfSome};
ghost use Rattle.market.specs.Round.{side_first, precedes};
ghost use Rattle.book.specs.Rounds.{side_before, group_before, waits, leads, FoundAmong};

use crate::lot::lot_book;
use market::order::{Lot, Order};
use market::side::Side;

// Buy before sell, then the better price.
fn side_first(x: &Order, y: &Order) -> bool
    ensures { result ≡ side_first x.now.side y.now.side x.now.price y.now.price }
{
    match (x.side, y.side) {
        (Side::Buy, Side::Buy) => y.price.0 < x.price.0,
        (Side::Buy, Side::Sell) => true,
        (Side::Sell, Side::Buy) => false,
        (Side::Sell, Side::Sell) => x.price.0 < y.price.0,
    }
}

// One order goes before another wherever they stand in the book.
fn precedes(x: &Order, y: &Order) -> bool
    ensures { result ≡ precedes x.now y.now }
{
    let c = u32::from(lot_book(x.lot));
    let d = u32::from(lot_book(y.lot));
    c < d || (c == d && side_first(x, y))
}

// The order goes before the best so far, or there is none.
fn leads(orders: &[Order], order: &Order, best: Option<usize>) -> bool
    requires { IfSome best (λ i. i < length orders.now) }
    ensures { result ≡ leads orders.now order.now best }
{
    match best {
        None => true,
        Some(i) => precedes(order, &orders[i]),
    }
}

// The combination and the side of one order go before those of another.
fn group_before(x: &Order, y: &Order) -> bool
    ensures { result ≡ group_before x.now y.now }
{
    let c = u32::from(lot_book(x.lot));
    let d = u32::from(lot_book(y.lot));
    c < d || (c == d && side_before(x.side, y.side))
}

// Buy before sell.
fn side_before(x: Side, y: Side) -> bool
    ensures { result ≡ side_before x y }
{
    x == Side::Buy && y == Side::Sell
}

// The order is of a combination, and no quote, and its turn comes after that of the order last tried.
fn waits(order: &Order, tried: Option<Order>) -> bool
    ensures { result ≡ waits tried order.now }
{
    let later = match tried {
        Some(tried) => group_before(&tried, order),
        None => true,
    };
    matches!(order.lot, Lot::Combined { .. }) && !order.quote && later
}

// Of the orders that wait, where the first in turn stands.
pub(crate) fn first_waiting(orders: &[Order], tried: Option<Order>) -> Option<usize>
    ensures { FoundAmong (waits tried) orders.now result }
{
    let mut best = None;
    for i in 0..orders.len() {
        let order = orders[i];
        if waits(&order, tried) && leads(orders, &order, best) {
            best = Some(i);
        }
    }
    best
}
