// A quote of both sides, as it comes to the book.
use crate::order::Lot;
use crate::price::Price;

// So much at a price; a side of which nothing is wanted has a lot of 0.
#[derive(Clone, Copy)]
pub struct QuoteSide {
    pub lot: Lot,
    pub price: Price,
}

// A participant that bids and offers; both sides are in one instrument or combination.
#[derive(Clone, Copy)]
pub struct Quote {
    pub participant: u32,
    pub bid: QuoteSide,
    pub offer: QuoteSide,
}
