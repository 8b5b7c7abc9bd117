// Implied-in fills: an order takes units out of the books of its legs.
ghost use Rattle.std.specs.Prelude.{◌≤◌, length};
ghost use Rattle.market.specs.declared.book_id.BookId.TheVariants.{Instrument};
ghost use Rattle.book.specs.Bounds.{SmallLegs};
ghost use Rattle.book.specs.Held.{held};
ghost use Rattle.market.specs.Ladders.{ladder};
ghost use Rattle.book.specs.Runs.{AllOffered};
ghost use Rattle.book.specs.Taken.{ContractsTaken, UnitsTaken, Implied};

use crate::draft::Draft;
use crate::fill::Fill;
use crate::legs::{contracts_for, leg_side};
use crate::level::best_price;
use crate::rows::implied_row;
use crate::taker::Taker;
use crate::told::Told;
use crate::wanted::Wanted;
use market::book_id::BookId;
use market::counts::{Contracts, Units};
use market::leg::Leg;
use market::order::Order;
use rules::rule::AllocationRule;

impl Draft {
    // Takes so many contracts of an instrument, level after level, best first.
    fn take_leg<R: AllocationRule>(
        &mut self,
        rule: &R,
        taker: Taker,
        instrument: u32,
        quantity: Contracts,
        told: &mut Told<'_>,
    )
        requires { quantity.0 ≤ length (ladder (Instrument instrument) taker.side (held self.old.orders)) }
        ensures { ContractsTaken (R.AllocationRule.shares rule.now) taker instrument quantity.0 (held self.old.orders) told.old (held self.new.orders) told.new }
    {
        let book = BookId::Instrument(instrument);
        let mut left = quantity.0;
        while left > 0 {
            let price = best_price(self.orders.as_slice(), book, taker.side).unwrap();
            let fill = Fill {
                number: taker.fill,
                taker: taker.number,
                book,
                side: taker.side,
                price,
                legs: None,
            };
            left -= self.fill_level(rule, &fill, left, told);
        }
    }

    // Takes so many units, leg by leg.
    fn take_legs<R: AllocationRule>(
        &mut self,
        rule: &R,
        taker: Taker,
        legs: &[Leg],
        units: Units,
        told: &mut Told<'_>,
    )
        requires legs { SmallLegs legs.now }
        requires few { units.0 ≤ 10000 }
        requires enough { AllOffered taker.side units.0 legs.now (held self.old.orders) }
        ensures { UnitsTaken (R.AllocationRule.shares rule.now) taker legs.now units.0 (held self.old.orders) told.old (held self.new.orders) told.new }
    {
        for leg in legs {
            let side = leg_side(taker.side, leg);
            let quantity = contracts_for(leg, units);
            self.take_leg(
                rule,
                Taker { side, ..taker },
                leg.instrument,
                quantity,
                told,
            );
        }
    }

    // One implied-in fill: the order's trade, then those of the legs.
    pub(crate) fn fill_units<R: AllocationRule>(
        &mut self,
        rule: &R,
        fill: u32,
        order: &Order,
        wanted: &Wanted<'_>,
        told: &mut Told<'_>,
    )
        requires legs { SmallLegs wanted.now.legs.now }
        requires few { wanted.now.run.units.0 ≤ 10000 }
        requires enough { AllOffered order.now.side wanted.now.run.units.0 wanted.now.legs.now (held self.old.orders) }
        ensures { Implied (R.AllocationRule.shares rule.now) fill order.now wanted.now (held self.old.orders) told.old (held self.new.orders) told.new }
    {
        let taker = Taker {
            fill,
            number: order.number,
            side: order.side,
        };
        told.push(implied_row(fill, order, wanted.run.units, wanted.run.net));
        self.take_legs(rule, taker, wanted.legs, wanted.run.units, told);
    }
}
