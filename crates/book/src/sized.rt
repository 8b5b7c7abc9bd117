// An order of another quantity. Its natural form is a method of `Order`, which would be public in `market`, with a contract of its own.
ghost use Rattle.std.specs.Prelude.{◌≡◌};
ghost use Rattle.market.specs.Orders.{sized};

use crate::lot::sized_lot;
use market::order::Order;

pub(crate) fn sized(order: Order, quantity: u32) -> Order
    ensures { result ≡ sized order quantity }
{
    Order {
        lot: sized_lot(order.lot, quantity),
        ..order
    }
}
