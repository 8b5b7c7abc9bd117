// Levels, read off the resting orders.
ghost use Rattle.std.specs.Prelude.{◌≡◌, length};
ghost use Rattle.rules.specs.Domain.{total};
ghost use Rattle.market.specs.Fills.{BestLevel};
ghost use Rattle.market.specs.Levels.{level, quantities};
ghost use Rattle.book.specs.Best.{better};
ghost use Rattle.book.specs.Held.{held};

use crate::compare::{good, opposite, stands};
use crate::lot::lot_size;
use crate::orders::Orders;
use crate::place::Place;
use crate::scratch::Scratch;
use market::book_id::BookId;
use market::order::Order;
use market::price::Price;
use market::side::Side;

// What a level holds: all its quantities together, and how many orders have them.
#[derive(Clone, Copy)]
pub(crate) struct Level {
    pub total: u32,
    // no caller reads it: docs/DECISIONS.md asks for it
    pub count: usize,
}

// Reads one level: collects its quantities, in book order, sums them and counts them.
pub(crate) fn read_level(orders: &Orders, place: Place, scratch: &mut Scratch) -> Level
    ensures total { result.total ≡ total (quantities (level place.book place.side place.price (held orders.now))) }
    ensures count { result.count ≡ length (quantities (level place.book place.side place.price (held orders.now))) }
    ensures collected { scratch.new.quantities.items ≡ quantities (level place.book place.side place.price (held orders.now)) }
{
    let orders = orders.as_slice();
    scratch.quantities.clear();
    let mut total: u32 = 0;
    // By index: docs/DECISIONS.md asks for it.
    for i in 0..orders.len() {
        let order = orders[i];
        if place.holds(&order) {
            let quantity = lot_size(order.lot);
            total += quantity;
            scratch.quantities.push(quantity);
        }
    }
    Level {
        total,
        count: scratch.quantities.len(),
    }
}

// The better of two prices; of two equal ones, the first.
pub(crate) fn better(side: Side, q: Price, p: Price) -> Price
    ensures { result ≡ better side q p }
{
    if good(side, q, p) { q } else { p }
}

// The best price to one who trades on `side`, where the other side has any order.
pub(crate) fn best_price(orders: &[Order], book: BookId, side: Side) -> Option<Price>
    ensures { BestLevel book side orders.now result }
{
    let facing = opposite(side);
    orders
        .iter()
        .filter(|order| stands(order, book, facing))
        .map(|order| order.price)
        .reduce(|best, price| better(side, best, price))
}
