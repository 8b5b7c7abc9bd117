// The resting orders themselves, in order of arrival.
ghost use Rattle.std.specs.Prelude.{◌≡◌, ◌<◌, ◌≤◌, length, vec_len, vec_capacity, filter, slice_index_or, slice_set};
ghost use Rattle.std.specs.Borrow.{sem, follows};
ghost use Rattle.std.specs.List.{All};
ghost use Rattle.std.specs.Vec.{with_item};
ghost use Rattle.rules.specs.Domain.{Below};
ghost use Rattle.market.specs.declared.order.Order.{Order as OrderT};
ghost use Rattle.market.specs.contracts.order.Order.{the_row as order_row};
ghost use Rattle.market.specs.Levels.{quantities, reduced, still_open};
ghost use Rattle.market.specs.Orders.{quantity_of, less};
ghost use Rattle.book.specs.contracts.resting.Resting.{the_row};
ghost use Rattle.book.specs.Bounds.{LegsFit};
ghost use Rattle.book.specs.Facing.{faces, faced, rows_of};
ghost use Rattle.book.specs.Table.{lent};
ghost use Rattle.book.specs.Reports.{Tells};

use crate::fill::Fill;
use crate::lot::{lot_size, sized_lot};
use crate::told::Told;
use market::order::Order;

// No ghost fields: docs/DECISIONS.md asks for it. So each function that changes the orders says that their capacity stays.
#[derive(Drop)]
pub(crate) struct Resting {
    pub orders: Vec<Order>,
}

fn still_open(order: &Order) -> bool
    ensures { result ≡ still_open order.now }
{
    lot_size(order.lot) > 0
}

impl Resting {
    // One order, lent for a change; all others stay as found.
    fn lend(&mut self, i: usize) -> &mut Order
        requires { i < vec_len self.old.orders }
        ensures* follows { sem 𝓛 (follows the_row order_row self.entry.ghost_name result.ghost_name (λ w. record { orders = with_item self.old.orders i w })) }
        ensures value { result.now ≡ slice_index_or self.old.orders.items i result.now }
    {
        &mut self.orders[i]
    }

    // Takes so much from one order.
    pub(crate) fn reduce(&mut self, i: usize, taken: u32)
        requires within { i < vec_len self.old.orders }
        requires enough { (d : OrderT) → taken ≤ quantity_of (slice_index_or self.old.orders.items i d) }
        ensures orders { (d : OrderT) → self.new.orders.items ≡ slice_set self.old.orders.items i (less (slice_index_or self.old.orders.items i d) taken) }
        ensures capacity { vec_capacity self.new.orders ≡ vec_capacity self.old.orders }
    {
        let order = self.lend(i);
        order.lot = sized_lot(order.lot, lot_size(order.lot) - taken);
    }

    // Takes its share from each order of a level, and writes the rows of each share that is not 0.
    pub(crate) fn take_shares(&mut self, fill: &Fill<'_>, shares: &[u32], told: &mut Told<'_>)
        requires below { Below shares.now (quantities (faced fill.now self.old.orders.items)) }
        requires few { All (λ k. k ≤ 10000) shares.now }
        requires legs { LegsFit (lent fill.now.legs) }
        ensures orders { self.new.orders.items ≡ reduced (faces fill.now) self.old.orders.items shares.now }
        ensures rows { Tells told.old (rows_of fill.now self.old.orders.items shares.now) told.new }
        ensures capacity { vec_capacity self.new.orders ≡ vec_capacity self.old.orders }
    {
        let place = fill.place();
        let mut left = shares.iter();
        // By index, as `lend` takes one: docs/DECISIONS.md asks for it.
        for i in 0..self.orders.len() {
            let order = self.orders[i];
            if place.holds(&order) {
                let taken = *left.next().unwrap();
                told.push_share(fill, &order, taken);
                self.reduce(i, taken);
            }
        }
    }

    // Holds these orders, in the memory that it has.
    pub(crate) fn copy_from(&mut self, from: &[Order])
        requires { length from.now ≤ vec_capacity self.old.orders }
        ensures orders { self.new.orders.items ≡ from.now }
        ensures capacity { vec_capacity self.new.orders ≡ vec_capacity self.old.orders }
    {
        self.orders.clear();
        // One by one: of `extend_from_slice` it is known only that the capacity does not shrink, and no call may take memory.
        for order in from {
            self.orders.push_reserved(*order);
        }
    }

    // The orders with nothing open leave.
    pub(crate) fn drop_spent(&mut self)
        ensures orders { self.new.orders.items ≡ filter still_open self.old.orders.items }
        ensures capacity { vec_capacity self.new.orders ≡ vec_capacity self.old.orders }
    {
        self.orders.retain(still_open);
    }
}
