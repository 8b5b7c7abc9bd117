// The place of a level.
ghost use Rattle.std.specs.Prelude.{◌≡◌};
ghost use Rattle.market.specs.Levels.{in_level};

use crate::compare::stands;
use market::book_id::BookId;
use market::order::Order;
use market::price::Price;
use market::side::Side;

// The book, the side and the price that the orders of a level have.
#[derive(Clone, Copy)]
pub(crate) struct Place {
    pub book: BookId,
    pub side: Side,
    pub price: Price,
}

impl Place {
    // The order rests there.
    pub(crate) fn holds(self, order: &Order) -> bool
        ensures { result ≡ in_level self.book self.side self.price order.now }
    {
        stands(order, self.book, self.side) && order.price == self.price
    }
}
