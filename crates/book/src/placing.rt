// The sides of a quote, placed one after the other.
ghost use Rattle.std.specs.Prelude.{◌≡◌, ◌+◌, ◌≤◌, IfOk};
ghost use Rattle.market.specs.declared.call.Duration.TheVariants.{Day};
ghost use Rattle.market.specs.Orders.{lot_size};
ghost use Rattle.book.specs.Held.{held};
ghost use Rattle.book.specs.OldSides.{numbers_needed};
ghost use Rattle.book.specs.PlacedSides.{SidePlaced, SidesPlaced};
ghost use Rattle.book.specs.Table.{table};

use crate::draft::Draft;
use crate::entering::Entering;
use crate::quote_sides::{bid_of, offer_of};
use crate::side_numbers::SideNumbers;
use crate::told::Told;
use market::arrival::Arrival;
use market::combination::Combination;
use market::quote::Quote;
use market::refusal::Refusal;
use rules::rule::AllocationRule;

// How far the placing has come: the number of the next order, and that of the next fill.
#[derive(Clone, Copy)]
pub(crate) struct Placing {
    pub next: u32,
    pub next_fill: u32,
}

// The number of a side, and how far the placing has come with it.
#[derive(Clone, Copy)]
pub(crate) struct Placed {
    pub number: u32,
    pub after: Placing,
}

// Both sides, placed.
#[derive(Clone, Copy)]
pub(crate) struct PlacedSides {
    pub bid: Placed,
    pub offer: Placed,
}

impl Draft {
    // A side with a number is placed already; the other is new, and arrives under the next number.
    fn place_side<R: AllocationRule>(
        &mut self,
        rule: &R,
        side: Arrival,
        number: Option<u32>,
        combinations: &[Combination],
        at: Placing,
        told: &mut Told<'_>,
    ) -> Result<Placed, Refusal>
        requires small { lot_size side.lot ≤ 10000 }
        requires day { side.duration ≡ Day }
        requires early { at.next_fill ≤ 10001 }
        requires numbers { at.next + numbers_needed number ≤ 100000 }
        ensures places { SidePlaced (R.AllocationRule.shares rule.now) (table combinations.now) side at (held self.old.orders) told.old number result (held self.new.orders) told.new }
        ensures fills { IfOk result (λ p. p.after.next_fill ≤ at.next_fill + 10000) }
        ensures numbers { IfOk result (λ p. p.after.next ≡ at.next + numbers_needed number) }
    {
        if let Some(number) = number {
            return Ok(Placed { number, after: at });
        }
        let order = Entering::new(side, at.next).order;
        let came = self.arrive(rule, &order, combinations, at.next_fill, told)?;
        let after = Placing {
            next: at.next + 1,
            next_fill: came.next_fill,
        };
        Ok(Placed {
            number: at.next,
            after,
        })
    }

    // First the bid and then the offer.
    pub(crate) fn place_sides<R: AllocationRule>(
        &mut self,
        rule: &R,
        quote: Quote,
        numbers: SideNumbers,
        combinations: &[Combination],
        next: u32,
        told: &mut Told<'_>,
    ) -> Result<PlacedSides, Refusal>
        requires bid { lot_size quote.bid.lot ≤ 10000 }
        requires offer { lot_size quote.offer.lot ≤ 10000 }
        requires numbers { next + (numbers_needed numbers.bid + numbers_needed numbers.offer) ≤ 100000 }
        ensures places { SidesPlaced (R.AllocationRule.shares rule.now) (table combinations.now) quote next (held self.old.orders) told.old numbers result (held self.new.orders) told.new }
        ensures fills { IfOk result (λ p. p.offer.after.next_fill ≤ 20001) }
        ensures numbers { IfOk result (λ p. p.offer.after.next ≤ 100000) }
    {
        let start = Placing { next, next_fill: 1 };
        let side = bid_of(quote);
        let bid = self.place_side(rule, side, numbers.bid, combinations, start, told)?;
        let side = offer_of(quote);
        let offer = self.place_side(rule, side, numbers.offer, combinations, bid.after, told)?;
        Ok(PlacedSides { bid, offer })
    }
}
