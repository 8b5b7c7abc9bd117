// What becomes of what an arriving order did not trade.
ghost use Rattle.std.specs.Prelude.{◌≡◌, ◌<◌, ◌≤◌, ℕ, IfOk};
ghost use Rattle.market.specs.declared.arrival.Arrival.{Arrival};
ghost use Rattle.market.specs.Orders.{arriving};
ghost use Rattle.book.specs.Held.{held};
ghost use Rattle.book.specs.Settling.{Rested, Settling, InBounds};

use crate::draft::Draft;
use crate::entering::Entering;
use crate::lot::lot_size;
use crate::orders::{MOST_ORDERS, Orders};
use crate::progress::Progress;
use crate::rows::cancel_row;
use crate::sized::sized;
use crate::told::Told;
use market::call::Duration;
use market::order::Order;
use market::refusal::{Refusal, refuse};

impl Draft {
    // Lets what is left of an order rest, as the last, if there is room. Gives back how far the order has come.
    pub(crate) fn rest(
        &mut self,
        order: Order,
        at: Progress,
        told: &mut Told<'_>,
    ) -> Result<Progress, Refusal>
        requires some { 0 < at.left }
        requires few { at.left ≤ 10000 }
        ensures { Rested order at (held self.old.orders) told.old result (held self.new.orders) told.new }
    {
        if self.orders.as_slice().len() >= MOST_ORDERS {
            return refuse(told.rows, Refusal::BookFull);
        }
        self.orders.push(sized(order, at.left));
        Ok(at)
    }

    // Lets what is left of an order rest, or cancels it; a fill-or-kill order with any left takes back its fills.
    // Gives back how far the order has come.
    pub(crate) fn settle(
        &mut self,
        before: &Orders,
        entering: Entering,
        at: Progress,
        told: &mut Told<'_>,
    ) -> Result<Progress, Refusal>
        requires { InBounds 1 entering.order at }
        ensures settles { (a : Arrival) (n : ℕ) → entering.order ≡ arriving a n → entering.duration ≡ a.duration → Settling (held before.now) n a at (held self.old.orders) told.old result (held self.new.orders) told.new }
        ensures bounds { IfOk result (λ p. InBounds 1 entering.order p) }
    {
        let order = entering.order;
        if at.left == 0 {
            return Ok(at);
        }
        match entering.duration {
            Duration::Day => self.rest(order, at, told),
            Duration::Immediate => {
                told.push_cancelled(&order, at.left);
                Ok(at)
            }
            Duration::FillOrKill => {
                self.orders.copy_from(before);
                told.wipe();
                told.push(cancel_row(&order));
                Ok(Progress {
                    next_fill: 1,
                    left: lot_size(order.lot),
                })
            }
        }
    }
}
