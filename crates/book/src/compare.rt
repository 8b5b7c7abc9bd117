// Sides and prices compared.
ghost use Rattle.std.specs.Prelude.{◌≡◌};
ghost use Rattle.market.specs.Prices.{opposite, good};
ghost use Rattle.market.specs.Orders.{stands};

use crate::amounts::amount_good;
use crate::lot::lot_book;
use market::book_id::BookId;
use market::order::Order;
use market::price::{Amount, Price};
use market::side::Side;

// The other side. Its natural form is a method, but `Side` is the market's: one more public promise there.
pub(crate) fn opposite(side: Side) -> Side
    ensures { result ≡ opposite side }
{
    match side {
        Side::Buy => Side::Sell,
        Side::Sell => Side::Buy,
    }
}

// To one who trades on this side, `p` is at least as good as `q`.
pub(crate) fn good(side: Side, p: Price, q: Price) -> bool
    ensures { result ≡ good side p q }
{
    amount_good(side, Amount::from(p), Amount::from(q))
}

// The order rests in this book, on this side.
pub(crate) fn stands(order: &Order, book: BookId, side: Side) -> bool
    ensures { result ≡ stands book side order.now }
{
    lot_book(order.lot) == book && order.side == side
}
