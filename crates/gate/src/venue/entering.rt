// An order that enters.
ghost use Rattle.std.specs.Prelude.{◌≡◌, length};
ghost use Rattle.market.specs.Endings.{Follows};
ghost use Rattle.market.specs.Venues.{Does, fault};
ghost use Rattle.gate.specs.Asked.{entry_call};
ghost use Rattle.gate.specs.Conditions.{Judges};
ghost use Rattle.gate.specs.Views.{view, rule_of};

use super::Venue;
use crate::entry::Entry;
use crate::fault::{check_participant, check_quantity, unless};
use market::refusal::{Refusal, refuse};
use market::row::Row;
use rules::rule::AllocationRule;

// The fields of an enter line with the instrument or combination, the quantity and the price.
const BOOK_PLACE: u32 = 2;

const QUANTITY_PLACE: u32 = 4;

const PRICE_PLACE: u32 = 5;

impl<R: AllocationRule> Venue<R> {
    // Whether an order may enter, and if not, why.
    fn may_enter(&self, entry: Entry) -> Result<(), Refusal>
        ensures { Judges (fault (view self.now) (entry_call entry)) result }
    {
        unless(self.listing.trading.open(), Refusal::Phase)?;
        check_participant(entry.participant)?;
        unless(self.knows(entry.book), Refusal::Unknown(BOOK_PLACE))?;
        check_quantity(entry.quantity, QUANTITY_PLACE)?;
        unless(
            self.price_fits(entry.book, entry.price),
            Refusal::Price(PRICE_PLACE),
        )
    }

    pub(super) fn enter(&mut self, entry: Entry, report: &mut [Row]) -> Result<(u32, u32), Refusal>
        ensures follows { Follows (Does (R.AllocationRule.shares (rule_of self.old)) (view self.old) (entry_call entry)) (view self.old) (length report.old) result report.new (view self.new) }
        ensures rule { rule_of self.new ≡ rule_of self.old }
    {
        if let Err(refusal) = self.may_enter(entry) {
            return refuse(report, refusal);
        }
        let listing = &self.listing;
        let combinations = listing.combinations.as_slice();
        self.book
            .enter(&self.rule, entry.arrival(), combinations, report)
    }
}
