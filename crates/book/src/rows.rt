// The rows of a call.
ghost use Rattle.std.specs.Prelude.{◌≡◌, ◌≤◌};
ghost use Rattle.market.specs.Combinations.{size};
ghost use Rattle.market.specs.Orders.{lot_book, book_number};
ghost use Rattle.market.specs.Rows.{trade_row, combination_row, leg_row, implied_row, cancel_row, buyer_of};
ghost use Rattle.market.specs.Prices.{opposite};

use crate::compare::opposite;
use crate::fill::Fill;
use crate::legs::{contracts_for, leg_side};
use crate::lot::{lot_book, lot_size};
use market::counts::{Contracts, Units};
use market::leg::Leg;
use market::order::Order;
use market::price::Amount;
use market::row::{Row, RowKind};
use market::side::Side;

// So many contracts of a resting order trade.
pub(crate) fn trade_row(fill: &Fill<'_>, order: &Order, traded: Contracts) -> Row
    ensures { result ≡ trade_row fill.now.number fill.now.taker order.now traded.0 }
{
    Row {
        kind: RowKind::Trade,
        fill: fill.number,
        price: order.price.into(),
        ..order_row(order, traded.0, fill.taker)
    }
}

// So many units of a resting order trade.
pub(crate) fn combination_row(fill: &Fill<'_>, order: &Order, traded: Units) -> Row
    ensures { result ≡ combination_row fill.now.number fill.now.taker order.now traded.0 }
{
    Row {
        kind: RowKind::Combination,
        fill: fill.number,
        price: Amount(i64::from(order.price.0) * i64::from(traded.0)),
        ..order_row(order, traded.0, fill.taker)
    }
}

// A leg of that trade.
pub(crate) fn leg_row(fill: &Fill<'_>, order: &Order, traded: Units, leg: &Leg) -> Row
    requires small { size leg.now ≤ 10 }
    requires few { traded.0 ≤ 10000 }
    ensures { result ≡ leg_row fill.now.number fill.now.taker order.now traded.0 leg.now }
{
    let side = leg_side(order.side, leg);
    Row {
        kind: RowKind::Leg,
        fill: fill.number,
        book: leg.instrument,
        quantity: contracts_for(leg, traded).0,
        price: Amount(0),
        buyer: buyer_of(side, order.number, fill.taker),
        seller: buyer_of(opposite(side), order.number, fill.taker),
    }
}

// So many units of an order trade with the books of the legs, for this amount.
pub(crate) fn implied_row(fill: u32, order: &Order, units: Units, amount: Amount) -> Row
    ensures { result ≡ implied_row fill order.now units.0 amount.0 }
{
    Row {
        kind: RowKind::Combination,
        fill,
        price: amount,
        ..order_row(order, units.0, 0)
    }
}

// What an order has open is cancelled.
pub(crate) fn cancel_row(order: &Order) -> Row
    ensures { result ≡ cancel_row order.now }
{
    Row {
        kind: RowKind::Cancellation,
        fill: 0,
        price: Amount(0),
        ..order_row(order, lot_size(order.lot), 0)
    }
}

// Of two orders, the one that buys: the first is on this side.
fn buyer_of(side: Side, number: u32, other: u32) -> u32
    ensures { result ≡ buyer_of side number other }
{
    match side {
        Side::Buy => number,
        Side::Sell => other,
    }
}

// So much of an order on its side, and the order of that number on the other.
fn order_row(order: &Order, quantity: u32, other: u32) -> Row
    ensures book { result.book ≡ book_number (lot_book order.now.lot) }
    ensures quantity { result.quantity ≡ quantity }
    ensures buyer { result.buyer ≡ buyer_of order.now.side order.now.number other }
    ensures seller { result.seller ≡ buyer_of (opposite order.now.side) order.now.number other }
{
    Row {
        book: lot_book(order.lot).into(),
        quantity,
        buyer: buyer_of(order.side, order.number, other),
        seller: buyer_of(opposite(order.side), order.number, other),
        ..Row::blank()
    }
}
