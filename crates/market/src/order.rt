// A resting order.
use crate::counts::{Contracts, Units};
use crate::price::Price;
use crate::side::Side;

// What an order has open: contracts of an instrument, or units of a combination.
#[derive(Clone, Copy)]
pub enum Lot {
    Outright {
        instrument: u32,
        quantity: Contracts,
    },
    Combined {
        combination: u32,
        quantity: Units,
    },
}

// A quote side is an order marked as quote.
#[derive(Clone, Copy)]
pub struct Order {
    pub number: u32,
    pub participant: u32,
    pub side: Side,
    pub price: Price,
    pub lot: Lot,
    pub quote: bool,
}
