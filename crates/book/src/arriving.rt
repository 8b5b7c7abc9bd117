// The arrival of a day order.
ghost use Rattle.std.specs.Prelude.{◌≤◌, IfOk};
ghost use Rattle.market.specs.Orders.{quantity_of};
ghost use Rattle.book.specs.Held.{held};
ghost use Rattle.book.specs.Settling.{Arrived, InBounds};
ghost use Rattle.book.specs.Table.{table};

use crate::draft::Draft;
use crate::legs::legs_of;
use crate::lot::lot_book;
use crate::progress::Progress;
use crate::told::Told;
use market::combination::Combination;
use market::order::Order;
use market::refusal::Refusal;
use rules::rule::AllocationRule;

impl Draft {
    // A day order arrives: it trades what it can, its first fill under this number, and what is left rests.
    pub(crate) fn arrive<R: AllocationRule>(
        &mut self,
        rule: &R,
        order: &Order,
        combinations: &[Combination],
        next_fill: u32,
        told: &mut Told<'_>,
    ) -> Result<Progress, Refusal>
        requires few { quantity_of order.now ≤ 10000 }
        requires early { next_fill ≤ 10001 }
        ensures arrives { Arrived (R.AllocationRule.shares rule.now) (table combinations.now) next_fill order.now (held self.old.orders) told.old result (held self.new.orders) told.new }
        ensures bounds { IfOk result (λ p. InBounds next_fill order.now p) }
    {
        let legs = legs_of(combinations, lot_book(order.lot));
        let at = self.match_order(rule, order, legs, next_fill, told);
        if at.left == 0 {
            return Ok(at);
        }
        self.rest(*order, at, told)
    }
}
