// The match of an arriving order.
ghost use Rattle.std.specs.Prelude.{◌<◌, ◌≤◌};
ghost use Rattle.market.specs.Orders.{quantity_of};
ghost use Rattle.book.specs.Bounds.{LegsFit};
ghost use Rattle.book.specs.Held.{held};
ghost use Rattle.book.specs.Matched.{Stepped, Matched};
ghost use Rattle.book.specs.Settling.{InBounds};
ghost use Rattle.book.specs.Table.{lent};

use crate::draft::Draft;
use crate::fill::Fill;
use crate::lot::{lot_book, lot_size};
use crate::progress::Progress;
use crate::step::{Step, next_step};
use crate::told::Told;
use market::leg::Leg;
use market::order::Order;
use rules::rule::AllocationRule;

impl Draft {
    // One step of a match, as the fill of this number; gives back what traded, or nothing once the match is over.
    fn take_step<R: AllocationRule>(
        &mut self,
        rule: &R,
        order: &Order,
        legs: Option<&[Leg]>,
        at: Progress,
        told: &mut Told<'_>,
    ) -> Option<u32>
        requires legs { LegsFit (lent legs) }
        requires some { 0 < at.left }
        requires few { at.left ≤ 10000 }
        ensures { Stepped (R.AllocationRule.shares rule.now) (lent legs.entry) order.now at (held self.old.orders) told.old result (held self.new.orders) told.new }
    {
        let scratch = &mut self.scratch;
        match next_step(&self.orders, order, legs, at.left, scratch) {
            Step::Level(price) => {
                let fill = Fill {
                    number: at.next_fill,
                    taker: order.number,
                    book: lot_book(order.lot),
                    side: order.side,
                    price,
                    legs,
                };
                Some(self.fill_level(rule, &fill, at.left, told))
            }
            Step::Units(wanted) => {
                self.fill_units(rule, at.next_fill, order, &wanted, told);
                Some(wanted.run.units.0)
            }
            Step::Over => None,
        }
    }

    // Trades an arriving order until nothing more trades; its first fill has this number.
    pub(crate) fn match_order<R: AllocationRule>(
        &mut self,
        rule: &R,
        order: &Order,
        legs: Option<&[Leg]>,
        next_fill: u32,
        told: &mut Told<'_>,
    ) -> Progress
        requires legs { LegsFit (lent legs) }
        requires few { quantity_of order.now ≤ 10000 }
        requires early { next_fill ≤ 10001 }
        ensures run { Matched (R.AllocationRule.shares rule.now) (lent legs.entry) order.now next_fill (held self.old.orders) told.old result.next_fill result.left (held self.new.orders) told.new }
        ensures bounds { InBounds next_fill order.now result }
    {
        let mut at = Progress {
            next_fill,
            left: lot_size(order.lot),
        };
        while at.left > 0 {
            let Some(traded) = self.take_step(rule, order, legs, at, told) else {
                break;
            };
            at.next_fill += 1;
            at.left -= traded;
        }
        at
    }
}
