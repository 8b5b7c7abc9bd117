// A participant that bids and offers.
ghost use Rattle.std.specs.Prelude.{◌≡◌, length};
ghost use Rattle.market.specs.Endings.{Follows};
ghost use Rattle.market.specs.Venues.{Does, fault, side_fits};
ghost use Rattle.gate.specs.Asked.{sides_call};
ghost use Rattle.gate.specs.Conditions.{Judges};
ghost use Rattle.gate.specs.Views.{view, rule_of};

use super::Venue;
use crate::fault::{check_participant, check_side_quantity, unless};
use crate::sides::Sides;
use market::price::Price;
use market::refusal::{Refusal, refuse};
use market::row::Row;
use rules::rule::AllocationRule;

// The fields of a quote line with the instrument or combination, and with the quantity and the price of each side.
const BOOK_PLACE: u32 = 2;

const BID_QUANTITY_PLACE: u32 = 3;

const BID_PLACE: u32 = 4;

const OFFER_QUANTITY_PLACE: u32 = 5;

const OFFER_PLACE: u32 = 6;

impl<R: AllocationRule> Venue<R> {
    // A side's price fits its book, or nothing is wanted.
    fn side_fits(&self, book: u32, quantity: u32, price: Price) -> bool
        ensures { result ≡ side_fits (view self.now) book quantity price }
    {
        quantity == 0 || self.price_fits(book, price)
    }

    // Whether a quote may come to the book, and if not, why.
    fn may_quote(&self, sides: Sides) -> Result<(), Refusal>
        ensures { Judges (fault (view self.now) (sides_call sides)) result }
    {
        unless(self.listing.trading.open(), Refusal::Phase)?;
        check_participant(sides.participant)?;
        unless(self.knows(sides.book), Refusal::Unknown(BOOK_PLACE))?;
        check_side_quantity(sides.bid_quantity, BID_QUANTITY_PLACE)?;
        check_side_quantity(sides.offer_quantity, OFFER_QUANTITY_PLACE)?;
        unless(
            self.side_fits(sides.book, sides.bid_quantity, sides.bid),
            Refusal::Price(BID_PLACE),
        )?;
        unless(
            self.side_fits(sides.book, sides.offer_quantity, sides.offer),
            Refusal::Price(OFFER_PLACE),
        )?;
        unless(sides.bid_below_offer(), Refusal::Crossed)
    }

    pub(super) fn quote(&mut self, sides: Sides, report: &mut [Row]) -> Result<(u32, u32), Refusal>
        ensures follows { Follows (Does (R.AllocationRule.shares (rule_of self.old)) (view self.old) (sides_call sides)) (view self.old) (length report.old) result report.new (view self.new) }
        ensures rule { rule_of self.new ≡ rule_of self.old }
    {
        if let Err(refusal) = self.may_quote(sides) {
            return refuse(report, refusal);
        }
        let quote = sides.quote();
        let listing = &self.listing;
        let combinations = listing.combinations.as_slice();
        self.book.quote(&self.rule, quote, combinations, report)
    }
}
