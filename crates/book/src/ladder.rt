// The ladder of a leg, read level after level.
ghost use Rattle.std.specs.Prelude.{◌≡◌, ◌≤◌, map, filter};
ghost use Rattle.market.specs.declared.book_id.BookId.TheVariants.{Instrument};
ghost use Rattle.market.specs.Ladders.{leg_side};
ghost use Rattle.book.specs.Best.{best_among};
ghost use Rattle.book.specs.Held.{held};
ghost use Rattle.book.specs.Reading.{awaits, levels_beyond, to_come, NextRung, NextSum};

use crate::amounts::{added, cost};
use crate::compare::{good, opposite, stands};
use crate::legs::leg_side;
use crate::level::{better, read_level};
use crate::orders::Orders;
use crate::place::Place;
use crate::rung::Rung;
use crate::scratch::Scratch;
use market::book_id::BookId;
use market::counts::Contracts;
use market::leg::Leg;
use market::order::Order;
use market::price::{Amount, Price};
use market::side::Side;

// The contracts of a book that one who trades on this side may take.
#[derive(Clone, Copy)]
pub(crate) struct Ladder {
    pub book: BookId,
    pub side: Side,
}

impl Ladder {
    // The ladder of a leg, to one who trades its combination on this side.
    pub(crate) fn of_leg(leg: &Leg, side: Side) -> Ladder
        ensures { result ≡ record { book = Instrument leg.now.instrument; side = leg_side side leg.now } }
    {
        Ladder {
            book: BookId::Instrument(leg.instrument),
            side: leg_side(side, leg),
        }
    }

    // The order stands in the ladder, beyond the level that is being read.
    fn awaits(self, rung: Option<Rung>, order: &Order) -> bool
        ensures { result ≡ awaits self.book self.side rung order.now }
    {
        let worse = match rung {
            Some(rung) => !good(self.side, order.price, rung.price),
            None => true,
        };
        stands(order, self.book, opposite(self.side)) && worse
    }

    // The best price beyond the level that is being read.
    fn next_price(self, orders: &[Order], rung: Option<Rung>) -> Option<Price>
        ensures { result ≡ best_among self.side (map (λ o. o.price) (filter (awaits self.book self.side rung) orders.now)) }
    {
        orders
            .iter()
            .filter(|order| self.awaits(rung, order))
            .map(|order| order.price)
            .reduce(|best, price| better(self.side, best, price))
    }

    // The next level, where there is one.
    fn next_level(self, orders: &Orders, rung: Option<Rung>, scratch: &mut Scratch) -> Option<Rung>
        ensures { NextRung self.book self.side (held orders.now) (levels_beyond self.book self.side (held orders.now) rung) result }
    {
        let price = self.next_price(orders.as_slice(), rung)?;
        let place = Place {
            book: self.book,
            side: opposite(self.side),
            price,
        };
        let left = read_level(orders, place, scratch).total;
        Some(Rung { price, left })
    }

    // The level in which the next contract stands.
    fn settle(self, orders: &Orders, rung: Option<Rung>, scratch: &mut Scratch) -> Option<Rung>
        ensures { NextRung self.book self.side (held orders.now) (to_come self.book self.side (held orders.now) rung) result }
    {
        let left = rung.map_or(0, |level| level.left);
        if left > 0 {
            return rung;
        }
        self.next_level(orders, rung, scratch)
    }

    // The next so many contracts' prices, added up, if there are so many.
    pub(crate) fn next_sum(
        self,
        orders: &Orders,
        count: Contracts,
        rung: &mut Option<Rung>,
        scratch: &mut Scratch,
    ) -> Option<Amount>
        requires { count.0 ≤ 10 }
        ensures { NextSum count.0 (to_come self.book self.side (held orders.now) rung.old) result (to_come self.book self.side (held orders.now) rung.new) }
    {
        let mut sum = Amount(0);
        let mut taken = 0;
        while taken < count.0 {
            let level = self.settle(orders, *rung, scratch)?;
            let more = level.left.min(count.0 - taken);
            *rung = Some(Rung {
                left: level.left - more,
                ..level
            });
            sum = added(sum, cost(level.price, more));
            taken += more;
        }
        Some(sum)
    }
}
