// A combination that exists.
ghost use Rattle.market.specs.Combinations.{Normal};

use crate::leg::Leg;
use arrayvec::ArrayVec;

// The number of the first combination.
pub const FIRST_COMBINATION: u32 = 1001;

// The most legs that a combination has.
pub const MOST_LEGS: usize = 10;

#[derive(Drop)]
pub struct Combination {
    pub legs: ArrayVec<Leg, MOST_LEGS>,
    ghost normal: { Normal legs.items },
}
