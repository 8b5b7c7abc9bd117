// An order on entering the book.
ghost use Rattle.std.specs.Prelude.{◌≡◌, ◌≤◌};
ghost use Rattle.market.specs.Orders.{arriving, lot_size, quantity_of};

use market::arrival::Arrival;
use market::call::Duration;
use market::order::Order;

// The order, and how long what it does not trade may stand.
#[derive(Clone, Copy)]
pub(crate) struct Entering {
    pub order: Order,
    pub duration: Duration,
    ghost small: { quantity_of order ≤ 10000 },
}

impl Entering {
    // What arrives, under the number that it is given; no `From`, as that number comes beside it.
    pub(crate) fn new(arrival: Arrival, number: u32) -> Entering
        requires { lot_size arrival.lot ≤ 10000 }
        ensures order { result.order ≡ arriving arrival number }
        ensures duration { result.duration ≡ arrival.duration }
    {
        let order = Order {
            number,
            participant: arrival.participant,
            side: arrival.side,
            price: arrival.price,
            lot: arrival.lot,
            quote: arrival.quote,
        };
        Entering {
            order,
            duration: arrival.duration,
        }
    }
}
