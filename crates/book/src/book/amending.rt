// An order of the book is amended.
ghost use Rattle.std.specs.Prelude.{◌≡◌, ◌≤◌, true, is_some, length};
ghost use Rattle.market.specs.Amending.{Amends};
ghost use Rattle.market.specs.Endings.{Follows};
ghost use Rattle.market.specs.Orders.{arriving, anew, own_order};
ghost use Rattle.book.specs.Closing.{book_state};
ghost use Rattle.book.specs.Table.{table};

use super::Book;
use super::calls::LAST_NUMBER;
use crate::sized::sized;
use crate::told::Told;
use market::acceptance::Acceptance;
use market::combination::Combination;
use market::order::Order;
use market::order_id::OrderId;
use market::price::Price;
use market::refusal::{Refusal, refuse};
use market::row::Row;
use rules::rule::AllocationRule;

// The order as it arrives anew, under the number that it is given; no arrival is made first, as all else of the order stays.
fn anew(order: Order, quantity: u32, price: Price, number: u32) -> Order
    ensures { result ≡ arriving (anew order quantity price) number }
{
    Order {
        number,
        price,
        ..sized(order, quantity)
    }
}

impl Book {
    // The participant's order of that number gets another quantity and price: it stays, with no more than it had, or arrives anew; the round ends the call.
    pub fn amend<R: AllocationRule>(
        &mut self,
        rule: &R,
        id: OrderId,
        quantity: u32,
        price: Price,
        combinations: &[Combination],
        report: &mut [Row],
    ) -> Result<(u32, u32), Refusal>
        requires few { quantity ≤ 10000 }
        requires own { is_some (own_order id.participant id.number (book_state self.old).orders) ≡ true }
        ensures { Follows (Amends (R.AllocationRule.shares rule.now) (table combinations.now) (book_state self.old) id.participant id.number quantity price) (book_state self.old) (length report.old) result report.new (book_state self.new) }
    {
        let mut told = Told::start(report);
        // The gate has asked whether it is there.
        let i = self.resting.find_own(id).unwrap();
        self.draft.orders.copy_from(&self.resting);
        let Some(order) = self.draft.orders.revise(i, quantity, price, &mut told) else {
            self.draft.round(rule, combinations, 1, &mut told);
            let number = id.number;
            let entered = Acceptance::Entered { number, traded: 0 };
            return self.close(entered, self.next, &mut told);
        };
        let number = self.next;
        if number > LAST_NUMBER {
            return refuse(told.rows, Refusal::NumbersSpent);
        }
        let order = anew(order, quantity, price, number);
        // An order has just left, so there is room, and this is never refused.
        let at = self.draft.arrive(rule, &order, combinations, 1, &mut told)?;
        self.draft
            .round(rule, combinations, at.next_fill, &mut told);
        let traded = quantity - at.left;
        self.close(
            Acceptance::Entered { number, traded },
            number + 1,
            &mut told,
        )
    }
}
