// A resting order that is amended.
ghost use Rattle.std.specs.Prelude.{◌≡◌, length};
ghost use Rattle.market.specs.declared.call.Call.TheVariants.{Amend};
ghost use Rattle.market.specs.Endings.{Follows};
ghost use Rattle.market.specs.Venues.{Does, fault};
ghost use Rattle.gate.specs.Conditions.{Judges};
ghost use Rattle.gate.specs.Views.{view, rule_of};

use super::Venue;
use crate::fault::{check_participant, check_quantity, unless};
use crate::lot::book_number;
use market::order_id::OrderId;
use market::price::Price;
use market::refusal::{Refusal, refuse};
use market::row::Row;
use rules::rule::AllocationRule;

// The fields of an amend line with the quantity and the price.
const QUANTITY_PLACE: u32 = 3;

const PRICE_PLACE: u32 = 4;

impl<R: AllocationRule> Venue<R> {
    // Whether an order may be amended, and if not, why; the price is one for the order's own book.
    fn may_amend(&self, id: OrderId, quantity: u32, price: Price) -> Result<(), Refusal>
        ensures { Judges (fault (view self.now) (Amend id.participant id.number quantity price)) result }
    {
        unless(self.listing.trading.open(), Refusal::Phase)?;
        check_participant(id.participant)?;
        let order = self.book.own_order(id).ok_or(Refusal::Order)?;
        check_quantity(quantity, QUANTITY_PLACE)?;
        unless(
            self.price_fits(book_number(order.lot), price),
            Refusal::Price(PRICE_PLACE),
        )
    }

    pub(super) fn amend(
        &mut self,
        participant: u32,
        number: u32,
        quantity: u32,
        price: Price,
        report: &mut [Row],
    ) -> Result<(u32, u32), Refusal>
        ensures follows { Follows (Does (R.AllocationRule.shares (rule_of self.old)) (view self.old) (Amend participant number quantity price)) (view self.old) (length report.old) result report.new (view self.new) }
        ensures rule { rule_of self.new ≡ rule_of self.old }
    {
        let id = OrderId {
            participant,
            number,
        };
        if let Err(refusal) = self.may_amend(id, quantity, price) {
            return refuse(report, refusal);
        }
        let listing = &self.listing;
        let combinations = listing.combinations.as_slice();
        self.book
            .amend(&self.rule, id, quantity, price, combinations, report)
    }
}
