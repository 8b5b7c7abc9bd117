// What may be done with a book.
ghost use Rattle.std.specs.Prelude.{◌≡◌, ◌+◌, ◌≤◌, true, [], is_some, length, IfOk};
ghost use Rattle.market.specs.BookCalls.{Enters, Cancels, withdrawn};
ghost use Rattle.market.specs.Endings.{Follows};
ghost use Rattle.market.specs.Orders.{lot_size, own_order};
ghost use Rattle.book.specs.Closing.{book_state, Closes};
ghost use Rattle.book.specs.Held.{held};
ghost use Rattle.book.specs.Table.{table};

use super::Book;
use crate::draft::Draft;
use crate::entering::Entering;
use crate::legs::legs_of;
use crate::lot::{lot_book, lot_size};
use crate::orders::Orders;
use crate::rows::cancel_row;
use crate::told::Told;
use market::acceptance::Acceptance;
use market::arrival::Arrival;
use market::combination::Combination;
use market::order::Order;
use market::order_id::OrderId;
use market::phase::Withdrawal;
use market::refusal::{Refusal, refuse};
use market::row::Row;
use rules::rule::AllocationRule;
use std::alloc::{AllocError, Global};
use std::mem;

// The last number that an order can have.
pub(super) const LAST_NUMBER: u32 = 99_999;

impl Book {
    // A book with no order.
    pub fn new(heap: Global) -> Result<Book, AllocError>
        ensures { IfOk result (λ b. book_state b ≡ record { orders = []; next = 1 }) }
    {
        Ok(Book {
            resting: Orders::new(heap)?,
            draft: Draft::new(heap)?,
            next: 1,
        })
    }

    // Lets the draft stand, if all rows of the call fit its report.
    pub(super) fn close(
        &mut self,
        acceptance: Acceptance,
        next: u32,
        told: &mut Told<'_>,
    ) -> Result<(u32, u32), Refusal>
        requires { next ≤ 100000 }
        ensures { Closes (book_state self.old) acceptance (held self.old.draft.orders) next told.old result told.new (book_state self.new) }
    {
        if told.count.is_none() {
            return refuse(told.rows, Refusal::ReportFull);
        }
        mem::swap(&mut self.resting, &mut self.draft.orders);
        self.next = next;
        Ok(acceptance.into())
    }

    // The participant's own resting order of that number, quotes apart.
    pub fn own_order(&self, id: OrderId) -> Option<Order>
        ensures { result ≡ own_order id.participant id.number (book_state self.now).orders }
    {
        let i = self.resting.find_own(id)?;
        Some(self.resting.as_slice()[i])
    }

    // An order arrives: it trades what it can, what is left rests or is cancelled, and the round ends the call.
    pub fn enter<R: AllocationRule>(
        &mut self,
        rule: &R,
        arrival: Arrival,
        combinations: &[Combination],
        report: &mut [Row],
    ) -> Result<(u32, u32), Refusal>
        requires { lot_size arrival.lot ≤ 10000 }
        ensures { Follows (Enters (R.AllocationRule.shares rule.now) (table combinations.now) (book_state self.old) arrival) (book_state self.old) (length report.old) result report.new (book_state self.new) }
    {
        let mut told = Told::start(report);
        let number = self.next;
        if number > LAST_NUMBER {
            return Err(Refusal::NumbersSpent);
        }
        self.draft.orders.copy_from(&self.resting);
        let entering = Entering::new(arrival, number);
        let legs = legs_of(combinations, lot_book(arrival.lot));
        let at = self
            .draft
            .match_order(rule, &entering.order, legs, 1, &mut told);
        let at = self.draft.settle(&self.resting, entering, at, &mut told)?;
        self.draft
            .round(rule, combinations, at.next_fill, &mut told);
        let traded = lot_size(arrival.lot) - at.left;
        self.close(
            Acceptance::Entered { number, traded },
            number + 1,
            &mut told,
        )
    }

    // The participant's order of that number is taken out.
    pub fn cancel(&mut self, id: OrderId, report: &mut [Row]) -> Result<(u32, u32), Refusal>
        requires { is_some (own_order id.participant id.number (book_state self.old).orders) ≡ true }
        ensures { Follows (Cancels (book_state self.old) id.participant id.number) (book_state self.old) (length report.old) result report.new (book_state self.new) }
    {
        let mut told = Told::start(report);
        // Asked for before, by `own_order`: whether it is there is a condition of the gate, which is tried among its others.
        let i = self.resting.find_own(id).unwrap();
        self.draft.orders.copy_from(&self.resting);
        let order = self.draft.orders.remove(i);
        told.push(cancel_row(&order));
        let cancelled = Acceptance::Cancelled {
            number: id.number,
            quantity: lot_size(order.lot),
        };
        self.close(cancelled, self.next, &mut told)
    }

    // The quotes, or all orders, are taken out.
    pub fn withdraw(&mut self, which: Withdrawal, report: &mut [Row]) -> Result<(u32, u32), Refusal>
        ensures { Follows (λ e. e ≡ withdrawn which (book_state self.old)) (book_state self.old) (length report.old) result report.new (book_state self.new) }
    {
        let mut told = Told::start(report);
        self.draft.orders.copy_from(&self.resting);
        let orders = self.draft.orders.take_out(which, &mut told);
        self.close(Acceptance::Switched { orders }, self.next, &mut told)
    }
}
