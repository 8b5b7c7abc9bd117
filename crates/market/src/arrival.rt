// An order as it arrives, before it has a number.
use crate::call::Duration;
use crate::order::Lot;
use crate::price::Price;
use crate::side::Side;

#[derive(Clone, Copy)]
pub struct Arrival {
    pub participant: u32,
    pub side: Side,
    pub lot: Lot,
    pub price: Price,
    pub duration: Duration,
    // marked as a side of a quote
    pub quote: bool,
}
