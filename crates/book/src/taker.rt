// One who takes contracts out of the books of legs.
use market::side::Side;

// The number of the fill, the number of the order, and the side: of the combination, or of a leg.
#[derive(Clone, Copy)]
pub(crate) struct Taker {
    pub fill: u32,
    pub number: u32,
    pub side: Side,
}
