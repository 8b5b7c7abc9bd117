// A resting order that is given another quantity and price.
ghost use Rattle.std.specs.Prelude.{◌≡◌, ◌+◌, ◌<◌, ◌≤◌, take, drop, ◌++◌, ◌∷◌, length, slice_index_or};
ghost use Rattle.market.specs.declared.order.Order.{Order as OrderT};
ghost use Rattle.market.specs.Orders.{quantity_of, sized};
ghost use Rattle.market.specs.Revisions.{stays, cut_rows};
ghost use Rattle.book.specs.Held.{held};
ghost use Rattle.book.specs.Reports.{Tells};
ghost use Rattle.book.specs.Revised.{Revised};

use crate::lot::lot_size;
use crate::orders::Orders;
use crate::rows::cancel_row;
use crate::sized::sized;
use crate::told::Told;
use market::order::Order;
use market::price::Price;

// The order stays where it is: something is wanted, at the same price, and no more than rests.
fn stays(order: &Order, quantity: u32, price: Price) -> bool
    ensures { result ≡ stays quantity price order.now }
{
    quantity > 0 && order.price == price && quantity <= lot_size(order.lot)
}

impl Orders {
    // An order is cut to this quantity, and the difference is cancelled.
    fn cut(&mut self, i: usize, quantity: u32, told: &mut Told<'_>)
        requires inside { i < length (held self.old) }
        requires some { 0 < quantity }
        requires within { (d : OrderT) → quantity ≤ quantity_of (slice_index_or (held self.old) i d) }
        ensures orders { (d : OrderT) → held self.new ≡ take i (held self.old) ++ (sized (slice_index_or (held self.old) i d) quantity ∷ drop (i + 1) (held self.old)) }
        ensures rows { (d : OrderT) → Tells told.old (cut_rows (slice_index_or (held self.old) i d) quantity) told.new }
    {
        let order = self.as_slice()[i];
        let less = lot_size(order.lot) - quantity;
        self.take_from(i, less);
        if less > 0 {
            told.push_cancelled(&order, less);
        }
    }

    // The order at a place gets another quantity and price: it stays with no more than that, or is taken out and given back.
    pub(crate) fn revise(
        &mut self,
        i: usize,
        quantity: u32,
        price: Price,
        told: &mut Told<'_>,
    ) -> Option<Order>
        requires { i < length (held self.old) }
        ensures { Revised i quantity price (held self.old) told.old result (held self.new) told.new }
    {
        let order = self.as_slice()[i];
        if stays(&order, quantity, price) {
            self.cut(i, quantity, told);
            return None;
        }
        told.push(cancel_row(&order));
        Some(self.remove(i))
    }
}
