// The round: resting combination orders take what the legs now offer.
ghost use Rattle.std.specs.Prelude.{◌≤◌};
ghost use Rattle.book.specs.Held.{held};
ghost use Rattle.book.specs.Rounds.{RoundStepped, Rounded};
ghost use Rattle.book.specs.Table.{table};

use crate::draft::Draft;
use crate::eligible::first_eligible;
use crate::legs::legs_of;
use crate::lot::{lot_book, lot_size};
use crate::told::Told;
use crate::wanted::wanted_run;
use market::combination::Combination;
use market::counts::Units;
use rules::rule::AllocationRule;

impl Draft {
    // The first eligible order takes its units, in one fill; gives back whether there is one.
    fn round_once<R: AllocationRule>(
        &mut self,
        rule: &R,
        combinations: &[Combination],
        fill: u32,
        told: &mut Told<'_>,
    ) -> bool
        ensures { RoundStepped (R.AllocationRule.shares rule.now) (table combinations.now) fill (held self.old.orders) told.old result (held self.new.orders) told.new }
    {
        let scratch = &mut self.scratch;
        let Some(i) = first_eligible(&self.orders, combinations, scratch) else {
            return false;
        };
        let order = self.orders.as_slice()[i];
        let legs = legs_of(combinations, lot_book(order.lot));
        // An eligible order takes one unit at least.
        let wanted = wanted_run(
            &self.orders,
            &order,
            legs,
            None,
            Units(lot_size(order.lot)),
            scratch,
        )
        .unwrap();
        self.orders.take_from(i, wanted.run.units.0);
        self.fill_units(rule, fill, &order, &wanted, told);
        true
    }

    // Until no order is eligible.
    pub(crate) fn round<R: AllocationRule>(
        &mut self,
        rule: &R,
        combinations: &[Combination],
        next_fill: u32,
        told: &mut Told<'_>,
    )
        requires { next_fill ≤ 20001 }
        ensures { Rounded (R.AllocationRule.shares rule.now) (table combinations.now) next_fill (held self.old.orders) told.old (held self.new.orders) told.new }
    {
        let mut fill = next_fill;
        while self.round_once(rule, combinations, fill, told) {
            fill += 1;
        }
    }
}
