// The legs that a call names, in the order named: the first `count` of the places, or all ten where `count` is more.
ghost use Rattle.std.specs.Prelude.{◌≡◌, ◌≤◌, length, take};
ghost use Rattle.market.specs.Legs.{listed, legs_named};

use crate::combination::MOST_LEGS;
use crate::leg::Leg;

// Plain fields and no `ArrayVec`, which is not copied, as a call is; so a count can be more than ten.
#[derive(Clone, Copy)]
pub struct Legs {
    pub count: u32,
    pub places: [Leg; MOST_LEGS],
}

impl Legs {
    // These legs, the first ten where there are more; the other places are blank.
    pub fn of(legs: &[Leg]) -> Legs
        ensures value { result ≡ legs_named legs.now }
        ensures kept { listed result ≡ take 10 legs.now }
    {
        let count = legs.len().min(MOST_LEGS);
        let mut places = [Leg::default(); MOST_LEGS];
        places[..count].copy_from_slice(&legs[..count]);
        Legs {
            count: count as u32,
            places,
        }
    }

    // The legs alone, without the places behind them.
    pub fn as_slice(&self) -> &[Leg]
        ensures value { result.now ≡ listed self.now }
        ensures few { length result.now ≤ 10 }
    {
        let count = MOST_LEGS.min(self.count as usize);
        &self.places[..count]
    }
}
