// Which order the round takes next.
ghost use Rattle.std.specs.Prelude.{◌≡◌};
ghost use Rattle.market.specs.Round.{eligible};
ghost use Rattle.book.specs.Held.{held};
ghost use Rattle.book.specs.Rounds.{EligibleFound};
ghost use Rattle.book.specs.Table.{table};

use crate::legs::legs_of;
use crate::lot::lot_book;
use crate::orders::Orders;
use crate::scratch::Scratch;
use crate::turns::first_waiting;
use crate::wanted::{first_net_to, within};
use market::combination::Combination;
use market::order::Order;

// Unit 1 is within the order's limit.
fn eligible(
    orders: &Orders,
    combinations: &[Combination],
    order: &Order,
    scratch: &mut Scratch,
) -> bool
    ensures { result ≡ eligible (table combinations.now) (held orders.now) order.now }
{
    let legs = legs_of(combinations, lot_book(order.lot));
    within(
        order.side,
        order.price,
        first_net_to(orders, order, legs, scratch),
    )
}

// Where the first eligible order stands: of each combination and side only the order with the best price is asked for its net.
pub(crate) fn first_eligible(
    orders: &Orders,
    combinations: &[Combination],
    scratch: &mut Scratch,
) -> Option<usize>
    ensures { EligibleFound (table combinations.now) (held orders.now) result }
{
    let mut tried = None;
    while let Some(i) = first_waiting(orders.as_slice(), tried) {
        let order = orders.as_slice()[i];
        if eligible(orders, combinations, &order, scratch) {
            return Some(i);
        }
        tried = Some(order);
    }
    None
}
