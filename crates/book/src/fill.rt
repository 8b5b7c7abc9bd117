// One fill at a level.
ghost use Rattle.std.specs.Prelude.{◌≡◌};
ghost use Rattle.market.specs.Prices.{opposite};

use crate::compare::opposite;
use crate::place::Place;
use market::book_id::BookId;
use market::leg::Leg;
use market::price::Price;
use market::side::Side;

// Its number in the call, the number of the order that takes, and the level: the book and the price, the taker's side, and the legs of the combination that it is of, if it is of one.
#[derive(Drop)]
pub(crate) struct Fill<'a> {
    pub number: u32,
    pub taker: u32,
    pub book: BookId,
    pub side: Side,
    pub price: Price,
    pub legs: Option<&'a [Leg]>,
}

impl Fill<'_> {
    // The place of the level.
    pub(crate) fn place(&self) -> Place
        ensures { result ≡ record { book = self.now.book; side = opposite self.now.side; price = self.now.price } }
    {
        Place {
            book: self.book,
            side: opposite(self.side),
            price: self.price,
        }
    }
}
