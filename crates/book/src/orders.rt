// Resting orders within the bounds of a book.
ghost use Rattle.std.specs.Prelude.{◌≡◌, ◌+◌, ◌<◌, ◌≤◌, take, drop, ◌++◌, [], ◌∷◌, not, map, filter, length, position, vec_len, vec_capacity, slice_index_or, IfOk};
ghost use Rattle.std.specs.List.{remove};
ghost use Rattle.rules.specs.Domain.{Below};
ghost use Rattle.market.specs.declared.order.Order.{Order as OrderT};
ghost use Rattle.market.specs.BookCalls.{leaves};
ghost use Rattle.market.specs.Levels.{quantities, after_fill};
ghost use Rattle.market.specs.Orders.{own, quotes, quantity_of};
ghost use Rattle.market.specs.Round.{left_of};
ghost use Rattle.market.specs.Rows.{cancel_row};
ghost use Rattle.book.specs.Bounds.{Small, Positive, LegsFit};
ghost use Rattle.book.specs.Facing.{faces, faced, rows_of};
ghost use Rattle.book.specs.Table.{lent};
ghost use Rattle.book.specs.Reports.{Tells};

use crate::compare::stands;
use crate::fill::Fill;
use crate::resting::Resting;
use crate::rows::cancel_row;
use crate::told::Told;
use crate::withdrawal::leaves;
use market::book_id::BookId;
use market::order::Order;
use market::order_id::OrderId;
use market::phase::Withdrawal;
use market::side::Side;
use std::alloc::{AllocError, Global};

// The most orders that rest at once.
pub(crate) const MOST_ORDERS: usize = 256;

// Its memory is taken once, when it is made, and stays as it is (`room`); within a fill an order may have nothing open, so `positive` fails there.
// A `Vec`, as 256 orders in place would be moved with each book.
#[derive(Drop)]
pub(crate) struct Orders {
    inner: Resting,
    ghost small: { Small inner.orders.items },
    ghost positive: { Positive inner.orders.items },
    ghost few: { vec_len inner.orders ≤ 256 },
    ghost room: { vec_capacity inner.orders ≡ 256 },
}

fn own(order: &Order, id: OrderId) -> bool
    ensures { result ≡ own id.participant id.number order.now }
{
    order.number == id.number && order.participant == id.participant && !order.quote
}

fn quotes(order: &Order, participant: u32, book: BookId, side: Side) -> bool
    ensures { result ≡ quotes participant book side order.now }
{
    order.quote && order.participant == participant && stands(order, book, side)
}

impl Orders {
    ghost use Rattle.book.specs.Held.{held};

    pub(crate) fn new(heap: Global) -> Result<Orders, AllocError>
        ensures { IfOk result (λ b. held b ≡ []) }
    {
        let orders = Vec::with_capacity(heap, MOST_ORDERS)?;
        Ok(Orders {
            inner: Resting { orders },
        })
    }

    pub(crate) fn as_slice(&self) -> &[Order]
        ensures { result.now ≡ held self.now }
    {
        self.inner.orders.as_slice()
    }

    // Takes over what another holds, in the memory that it has: no call takes memory, so this is no `clone`.
    pub(crate) fn copy_from(&mut self, from: &Orders)
        ensures { held self.new ≡ held from.now }
    {
        self.inner.copy_from(from.as_slice());
    }

    // Where the participant's order of that number stands, quotes apart.
    pub(crate) fn find_own(&self, id: OrderId) -> Option<usize>
        ensures { result ≡ position (own id.participant id.number) (held self.now) }
    {
        self.as_slice().iter().position(|order| own(order, id))
    }

    // Where the participant's quote on that side of the book stands.
    pub(crate) fn find_quote(&self, participant: u32, book: BookId, side: Side) -> Option<usize>
        ensures { result ≡ position (quotes participant book side) (held self.now) }
    {
        self.as_slice()
            .iter()
            .position(|order| quotes(order, participant, book, side))
    }

    // An order rests, as the last.
    pub(crate) fn push(&mut self, order: Order)
        requires few { length (held self.old) < 256 }
        requires small { quantity_of order ≤ 10000 }
        requires positive { 0 < quantity_of order }
        ensures { held self.new ≡ held self.old ++ order ∷ [] }
    {
        self.inner.orders.push_reserved(order);
    }

    pub(crate) fn remove(&mut self, i: usize) -> Order
        requires { i < length (held self.old) }
        ensures order { result ≡ slice_index_or (held self.old) i result }
        ensures others { held self.new ≡ remove (held self.old) i }
    {
        self.inner.orders.remove(i)
    }

    // An order has so much less open, traded or cancelled, and leaves if it then has nothing.
    pub(crate) fn take_from(&mut self, i: usize, taken: u32)
        requires inside { i < length (held self.old) }
        requires enough { (d : OrderT) → taken ≤ quantity_of (slice_index_or (held self.old) i d) }
        ensures { (d : OrderT) → held self.new ≡ take i (held self.old) ++ left_of (slice_index_or (held self.old) i d) taken ++ drop (i + 1) (held self.old) }
    {
        self.inner.reduce(i, taken);
        self.inner.drop_spent();
    }

    // One fill of a level, by the shares that its orders have in it; those with nothing open then leave.
    pub(crate) fn trade(&mut self, fill: &Fill<'_>, shares: &[u32], told: &mut Told<'_>)
        requires below { Below shares.now (quantities (faced fill.now (held self.old))) }
        requires legs { LegsFit (lent fill.now.legs) }
        ensures orders { held self.new ≡ after_fill (faces fill.now) (held self.old) shares.now }
        ensures rows { Tells told.old (rows_of fill.now (held self.old) shares.now) told.new }
    {
        self.inner.take_shares(fill, shares, told);
        self.inner.drop_spent();
    }

    // Writes a row for each order that leaves, in book order, and keeps the others; gives back how many leave.
    pub(crate) fn take_out(&mut self, which: Withdrawal, told: &mut Told<'_>) -> u32
        ensures count { result ≡ length (filter (leaves which) (held self.old)) }
        ensures orders { held self.new ≡ filter (λ o. not (leaves which o)) (held self.old) }
        ensures rows { Tells told.old (map cancel_row (filter (leaves which) (held self.old))) told.new }
    {
        let before = self.as_slice().len();
        for order in self.as_slice().iter().filter(|order| leaves(which, order)) {
            told.push(cancel_row(order));
        }
        self.inner.orders.retain(|order| !leaves(which, order));
        (before - self.as_slice().len()) as u32
    }
}
