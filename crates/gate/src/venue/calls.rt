// What may be done with a venue.
ghost use Rattle.std.specs.Prelude.{◌≡◌, ◌≤◌, length};
ghost use Rattle.market.specs.declared.call.Call.TheVariants.{Cancel, Define, Switch};
ghost use Rattle.market.specs.Bands.{BandsJudged};
ghost use Rattle.market.specs.Endings.{Follows};
ghost use Rattle.market.specs.Venues.{Does, fault, tradable, price_fits};
ghost use Rattle.gate.specs.Conditions.{Judges};
ghost use Rattle.gate.specs.Made.{Requests};
ghost use Rattle.gate.specs.Views.{view, rule_of, BuiltWith, refusal_of};

use super::{MOST_INSTRUMENTS, Venue};
use crate::build_error::BuildError;
use crate::combinations::Combinations;
use crate::entry::Entry;
use crate::fault::{check_participant, judge, unless, within_band, within_net_band};
use crate::legs::combine;
use crate::listing::Listing;
use crate::ratios::turns;
use crate::sides::Sides;
use crate::trading::Trading;
use arrayvec::ArrayVec;
use book::book::Book;
use market::acceptance::Acceptance;
use market::call::Call;
use market::combination::{Combination, FIRST_COMBINATION};
use market::leg::Leg;
use market::legs::Legs;
use market::order_id::OrderId;
use market::phase::{Event, Phase};
use market::price::Price;
use market::product::{Band, Product};
use market::refusal::{Refusal, refuse};
use market::row::Row;
use rules::rule::AllocationRule;
use std::alloc::Global;

impl<R: AllocationRule> Venue<R> {
    // A venue in Pre Open with no order, or a refusal where a band is broken; memory is taken only once the bands are judged sound.
    pub fn build(
        heap: Global,
        rule: R,
        product: Product,
        bands: ArrayVec<Band, MOST_INSTRUMENTS>,
    ) -> Result<Venue<R>, BuildError>
    where
        R: Drop,
        ensures built { BuiltWith product bands.items rule result }
        ensures bands { BandsJudged bands.items (refusal_of result) }
    {
        judge(bands.as_slice())?;
        let trading = Trading {
            phase: Phase::PreOpen,
            bands,
        };
        let listing = Listing {
            product,
            trading,
            combinations: Combinations::new(heap)?,
        };
        let book = Book::new(heap)?;
        Ok(Venue {
            book,
            rule,
            listing,
        })
    }

    // There is such an instrument or combination.
    pub(super) fn knows(&self, book: u32) -> bool
        ensures { result ≡ tradable (view self.now) book }
    {
        if book < FIRST_COMBINATION {
            self.listing.trading.knows(book)
        } else {
            self.listing.combinations.contains(book)
        }
    }

    // The price lies in the instrument's band, or a net price in that of net prices.
    pub(super) fn price_fits(&self, book: u32, price: Price) -> bool
        ensures { result ≡ price_fits (view self.now) book price }
    {
        if book < FIRST_COMBINATION {
            let band = self.listing.trading.band(book);
            band.is_some_and(|band| within_band(band, price))
        } else {
            within_net_band(price)
        }
    }

    // Whether an order may be cancelled, and if not, why.
    fn may_cancel(&self, id: OrderId) -> Result<(), Refusal>
        ensures { Judges (fault (view self.now) (Cancel id.participant id.number)) result }
    {
        unless(self.listing.trading.serving(), Refusal::Phase)?;
        check_participant(id.participant)?;
        unless(self.book.own_order(id).is_some(), Refusal::Order)
    }

    fn cancel(
        &mut self,
        participant: u32,
        number: u32,
        report: &mut [Row],
    ) -> Result<(u32, u32), Refusal>
        ensures follows { Follows (Does (R.AllocationRule.shares (rule_of self.old)) (view self.old) (Cancel participant number)) (view self.old) (length report.old) result report.new (view self.new) }
        ensures rule { rule_of self.new ≡ rule_of self.old }
    {
        let id = OrderId {
            participant,
            number,
        };
        if let Err(refusal) = self.may_cancel(id) {
            return refuse(report, refusal);
        }
        self.book.cancel(id, report)
    }

    // The combination that a request names, or why it is refused whichever exist.
    fn requested(&self, participant: u32, legs: &[Leg]) -> Result<Combination, Refusal>
        requires { length legs.now ≤ 10 }
        ensures { Requests (view self.now) participant legs.now result }
    {
        unless(self.listing.trading.open(), Refusal::Phase)?;
        check_participant(participant)?;
        self.listing
            .trading
            .check_known(legs)
            .map_err(Refusal::Unknown)?;
        combine(self.listing.product, legs).map_err(Refusal::Legs)
    }

    fn define(
        &mut self,
        participant: u32,
        legs: &Legs,
        report: &mut [Row],
    ) -> Result<(u32, u32), Refusal>
        ensures follows { Follows (Does (R.AllocationRule.shares (rule_of self.old)) (view self.old) (Define participant legs.now)) (view self.old) (length report.old) result report.new (view self.new) }
        ensures rule { rule_of self.new ≡ rule_of self.old }
    {
        let legs = legs.as_slice();
        let request = match self.requested(participant, legs) {
            Ok(request) => request,
            Err(refusal) => return refuse(report, refusal),
        };
        let Some(combination) = self.listing.combinations.find_or_make(request) else {
            return refuse(report, Refusal::CombinationsSpent);
        };
        report.fill(Row::blank());
        let defined = Acceptance::Defined {
            combination,
            turned: turns(legs),
        };
        Ok(defined.into())
    }

    fn switch(&mut self, event: Event, report: &mut [Row]) -> Result<(u32, u32), Refusal>
        ensures follows { Follows (Does (R.AllocationRule.shares (rule_of self.old)) (view self.old) (Switch event)) (view self.old) (length report.old) result report.new (view self.new) }
        ensures rule { rule_of self.new ≡ rule_of self.old }
    {
        let Some((phase, leaving)) = self.listing.trading.turned(event) else {
            return refuse(report, Refusal::Phase);
        };
        let answer = self.book.withdraw(leaving, report)?;
        self.listing.trading.phase = phase;
        Ok(answer)
    }

    // One call of a member, with a report of any length.
    pub fn call(&mut self, call: Call, report: &mut [Row]) -> Result<(u32, u32), Refusal>
        ensures follows { Follows (Does (R.AllocationRule.shares (rule_of self.old)) (view self.old) call) (view self.old) (length report.old) result report.new (view self.new) }
        ensures rule { rule_of self.new ≡ rule_of self.old }
    {
        match call {
            Call::Enter {
                participant,
                book,
                side,
                quantity,
                price,
                duration,
            } => {
                let entry = Entry::new(participant, book, side, quantity, price, duration);
                self.enter(entry, report)
            }
            Call::Amend {
                participant,
                number,
                quantity,
                price,
            } => self.amend(participant, number, quantity, price, report),
            Call::Cancel {
                participant,
                number,
            } => self.cancel(participant, number, report),
            Call::Quote {
                participant,
                book,
                bid_quantity,
                bid,
                offer_quantity,
                offer,
            } => {
                let sides = Sides::new(participant, book, bid_quantity, bid, offer_quantity, offer);
                self.quote(sides, report)
            }
            Call::Define { participant, legs } => self.define(participant, &legs, report),
            Call::Switch { event } => self.switch(event, report),
        }
    }
}
