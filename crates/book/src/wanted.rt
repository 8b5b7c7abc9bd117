// What an order would take from the books of its legs.
ghost use Rattle.std.specs.Prelude.{◌≡◌, ◌<◌, ◌≤◌, None, option_map};
ghost use Rattle.market.specs.Ladders.{reach, net_to, wanted};
ghost use Rattle.book.specs.Bounds.{LegsFit};
ghost use Rattle.book.specs.Table.{lent};
ghost use Rattle.book.specs.Held.{held};
ghost use Rattle.book.specs.Runs.{RunFound};

use crate::amounts::amount_good;
use crate::orders::Orders;
use crate::run::{Run, Wish, first_net, longest_run};
use crate::scratch::Scratch;
use market::counts::Units;
use market::leg::Leg;
use market::order::Order;
use market::price::{Amount, Price};
use market::side::Side;

// The legs, and the units that are taken from them.
#[derive(Clone, Copy)]
pub(crate) struct Wanted<'a> {
    pub legs: &'a [Leg],
    pub run: Run,
}

// A unit of that net exists and is within the limit.
pub(crate) fn within(side: Side, limit: Price, net: Option<Amount>) -> bool
    ensures { result ≡ wanted side limit None (option_map (λ a. a.0) net) }
{
    match net {
        None => false,
        Some(net) => amount_good(side, net, Amount::from(limit)),
    }
}

// The legs from which an order may take: a quote takes from none.
fn reach<'a>(order: &Order, legs: Option<&'a [Leg]>) -> Option<&'a [Leg]>
    ensures { lent result ≡ reach order.now (lent legs.entry) }
{
    if order.quote { None } else { legs }
}

// The net of unit 1 to an order.
pub(crate) fn first_net_to(
    orders: &Orders,
    order: &Order,
    legs: Option<&[Leg]>,
    scratch: &mut Scratch,
) -> Option<Amount>
    requires { LegsFit (lent legs) }
    ensures { option_map (λ a. a.0) result ≡ net_to order.now (lent legs.entry) (held orders.now) 1 }
{
    let legs = reach(order, legs)?;
    first_net(orders, legs, order.side, scratch)
}

// The longest run of units that an order takes, up to so many; none where it would not take the first.
pub(crate) fn wanted_run<'a>(
    orders: &Orders,
    order: &Order,
    legs: Option<&'a [Leg]>,
    level: Option<Price>,
    most: Units,
    scratch: &mut Scratch,
) -> Option<Wanted<'a>>
    requires legs { LegsFit (lent legs) }
    requires some { 0 < most.0 }
    requires few { most.0 ≤ 10000 }
    ensures { RunFound order.now (lent legs.entry) level most.0 (held orders.now) result }
{
    let wish = Wish {
        limit: order.price,
        level,
        units: most,
    };
    let legs = reach(order, legs)?;
    let run = longest_run(orders, legs, order.side, wish, scratch);
    if run.units.0 > 0 {
        Some(Wanted { legs, run })
    } else {
        None
    }
}
