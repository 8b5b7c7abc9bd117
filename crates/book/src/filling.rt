// A fill at a level, out of the draft: the level is read, divided by the rule and told.
ghost use Rattle.market.specs.Levels.{Best};
ghost use Rattle.book.specs.Bounds.{LegsFit};
ghost use Rattle.book.specs.Facing.{LevelFilled};
ghost use Rattle.book.specs.Table.{lent};
ghost use Rattle.book.specs.Held.{held};

use crate::draft::Draft;
use crate::fill::Fill;
use crate::level::read_level;
use crate::told::Told;
use rules::rule::AllocationRule;

impl Draft {
    // One fill of what is left, divided once by the rule; gives back what traded.
    pub(crate) fn fill_level<R: AllocationRule>(
        &mut self,
        rule: &R,
        fill: &Fill<'_>,
        left: u32,
        told: &mut Told<'_>,
    ) -> u32
        requires best { Best fill.now.book fill.now.side (held self.old.orders) fill.now.price }
        requires legs { LegsFit (lent fill.now.legs) }
        ensures { LevelFilled (R.AllocationRule.shares rule.now) fill.now left (held self.old.orders) told.old result (held self.new.orders) told.new }
    {
        let scratch = &mut self.scratch;
        let level = read_level(&self.orders, fill.place(), scratch);
        let traded = left.min(level.total);
        scratch.divide(rule, traded);
        let shares = scratch.shares.as_slice();
        self.orders.trade(fill, shares, told);
        traded
    }
}
