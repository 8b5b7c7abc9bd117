// What an arriving order does next.
ghost use Rattle.std.specs.Prelude.{◌≡◌, ◌<◌, ◌≤◌, option_map};
ghost use Rattle.market.specs.Matching.{level_first};
ghost use Rattle.book.specs.Bounds.{LegsFit};
ghost use Rattle.book.specs.Held.{held};
ghost use Rattle.book.specs.Matched.{Next};
ghost use Rattle.book.specs.Table.{lent};

use crate::amounts::amount_good;
use crate::compare::good;
use crate::level::best_price;
use crate::lot::lot_book;
use crate::orders::Orders;
use crate::scratch::Scratch;
use crate::wanted::{Wanted, first_net_to, wanted_run};
use market::counts::Units;
use market::leg::Leg;
use market::order::Order;
use market::price::{Amount, Price};
use market::side::Side;

// It trades at a level, or takes units from the legs, or its match is over.
#[derive(Clone, Copy)]
pub(crate) enum Step<'a> {
    Level(Price),
    Units(Wanted<'a>),
    Over,
}

// The price of a level is at least as good as the net of unit 1, or unit 1 does not exist.
fn level_first(side: Side, price: Price, net: Option<Amount>) -> bool
    ensures { result ≡ level_first side price (option_map (λ a. a.0) net) }
{
    match net {
        None => true,
        Some(net) => amount_good(side, Amount::from(price), net),
    }
}

// What an order does next, with so much left.
pub(crate) fn next_step<'a>(
    orders: &Orders,
    order: &Order,
    legs: Option<&'a [Leg]>,
    left: u32,
    scratch: &mut Scratch,
) -> Step<'a>
    requires legs { LegsFit (lent legs) }
    requires some { 0 < left }
    requires few { left ≤ 10000 }
    ensures { Next order.now (lent legs.entry) left (held orders.now) result }
{
    let level = best_price(orders.as_slice(), lot_book(order.lot), order.side);
    let net = first_net_to(orders, order, legs, scratch);
    match level {
        Some(price)
            if good(order.side, price, order.price) && level_first(order.side, price, net) =>
            Step::Level(price),
        _ => match wanted_run(orders, order, legs, level, Units(left), scratch) {
            Some(wanted) => Step::Units(wanted),
            None => Step::Over,
        },
    }
}
