// Both sides of a quote as a quote line asks for them.
ghost use Rattle.std.specs.Prelude.{◌≡◌};
ghost use Rattle.market.specs.declared.call.Call.TheVariants.{Quote as QuoteCall};
ghost use Rattle.market.specs.Venues.{bid_below_offer};

use crate::lot::lot_of;
use market::price::Price;
use market::quote::{Quote, QuoteSide};

// The book by its number, and bare quantities; a quantity of 0 is a side of which nothing is wanted.
#[derive(Clone, Copy)]
pub(crate) struct Sides {
    pub participant: u32,
    pub book: u32,
    pub bid_quantity: u32,
    pub bid: Price,
    pub offer_quantity: u32,
    pub offer: Price,
}

impl Sides {
    ghost use Rattle.gate.specs.Asked.{sides_call, quote_of};

    // No literal, so that the call which it stands for is said once.
    pub(crate) fn new(
        participant: u32,
        book: u32,
        bid_quantity: u32,
        bid: Price,
        offer_quantity: u32,
        offer: Price,
    ) -> Sides
        ensures { sides_call result ≡ QuoteCall participant book bid_quantity bid offer_quantity offer }
    {
        Sides {
            participant,
            book,
            bid_quantity,
            bid,
            offer_quantity,
            offer,
        }
    }

    // The bid is below the offer, or one of them is not there.
    pub(crate) fn bid_below_offer(self) -> bool
        ensures { result ≡ bid_below_offer self.bid_quantity self.bid self.offer_quantity self.offer }
    {
        self.bid_quantity == 0 || self.offer_quantity == 0 || self.bid.0 < self.offer.0
    }

    // The quote that comes to the book.
    pub(crate) fn quote(self) -> Quote
        ensures { result ≡ quote_of self }
    {
        Quote {
            participant: self.participant,
            bid: QuoteSide {
                lot: lot_of(self.book, self.bid_quantity),
                price: self.bid,
            },
            offer: QuoteSide {
                lot: lot_of(self.book, self.offer_quantity),
                price: self.offer,
            },
        }
    }
}
