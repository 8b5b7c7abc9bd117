// Where a ladder is being read.
use market::price::Price;

// The price of a level, and how many of its contracts are still to come.
#[derive(Clone, Copy)]
pub(crate) struct Rung {
    pub price: Price,
    pub left: u32,
}
