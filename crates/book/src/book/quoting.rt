// A participant quotes both sides of a book.
ghost use Rattle.std.specs.Prelude.{◌≤◌, length};
ghost use Rattle.market.specs.Endings.{Follows};
ghost use Rattle.market.specs.Orders.{lot_size};
ghost use Rattle.market.specs.Quoting.{Quotes};
ghost use Rattle.book.specs.Closing.{book_state};
ghost use Rattle.book.specs.Table.{table};

use super::Book;
use super::calls::LAST_NUMBER;
use crate::told::Told;
use market::acceptance::Acceptance;
use market::combination::Combination;
use market::quote::Quote;
use market::refusal::{Refusal, refuse};
use market::row::Row;
use rules::rule::AllocationRule;

impl Book {
    // The participant's old sides keep their places or are taken out, then each new side arrives, first the bid; the round ends the call.
    pub fn quote<R: AllocationRule>(
        &mut self,
        rule: &R,
        quote: Quote,
        combinations: &[Combination],
        report: &mut [Row],
    ) -> Result<(u32, u32), Refusal>
        requires bid { lot_size quote.bid.lot ≤ 10000 }
        requires offer { lot_size quote.offer.lot ≤ 10000 }
        ensures { Follows (Quotes (R.AllocationRule.shares rule.now) (table combinations.now) (book_state self.old) quote) (book_state self.old) (length report.old) result report.new (book_state self.new) }
    {
        let mut told = Told::start(report);
        let draft = &mut self.draft;
        draft.orders.copy_from(&self.resting);
        let numbers = draft.orders.settle_both(quote, &mut told);
        let next = self.next;
        if next + numbers.needed() > LAST_NUMBER + 1 {
            return refuse(told.rows, Refusal::NumbersSpent);
        }
        let placed = draft.place_sides(rule, quote, numbers, combinations, next, &mut told)?;
        let offer = placed.offer;
        draft.round(rule, combinations, offer.after.next_fill, &mut told);
        let quoted = Acceptance::Quoted {
            bid: placed.bid.number,
            offer: offer.number,
        };
        self.close(quoted, offer.after.next, &mut told)
    }
}
