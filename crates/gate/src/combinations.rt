// The combinations of a venue, in the order of making.
ghost use Rattle.std.specs.Prelude.{◌≡◌, ◌≤◌, [], position, vec_len, vec_capacity, IfOk};
ghost use Rattle.market.specs.Combinations.{same_legs, exists};
ghost use Rattle.book.specs.Table.{table};

use market::combination::{Combination, FIRST_COMBINATION};
use market::leg::Leg;
use std::alloc::{AllocError, Global};

// The most combinations that a venue may have.
const MOST_COMBINATIONS: usize = 32;

// Memory is taken once, when it is made, and stays as it is (`room`).
#[derive(Drop)]
pub(crate) struct Combinations {
    made: Vec<Combination>,
    ghost few: { vec_len made ≤ 32 },
    ghost room: { vec_capacity made ≡ 32 },
}

fn has_legs(combination: &Combination, legs: &[Leg]) -> bool
    ensures { result ≡ same_legs legs.now combination.now.legs.items }
{
    legs == combination.legs.as_slice()
}

impl Combinations {
    ghost use Rattle.gate.specs.Made.{all_legs, Numbers};

    pub(crate) fn new(heap: Global) -> Result<Combinations, AllocError>
        ensures { IfOk result (λ cs. all_legs cs ≡ []) }
    {
        let made = Vec::with_capacity(heap, MOST_COMBINATIONS)?;
        Ok(Combinations { made })
    }

    pub(crate) fn as_slice(&self) -> &[Combination]
        ensures { table result.now ≡ all_legs self.now }
    {
        self.made.as_slice()
    }

    // Where the combination with these legs stands.
    pub(crate) fn find(&self, legs: &[Leg]) -> Option<usize>
        ensures { result ≡ position (same_legs legs.now) (all_legs self.now) }
    {
        self.as_slice()
            .iter()
            .position(|combination| has_legs(combination, legs))
    }

    // There is a combination of that number.
    pub(crate) fn contains(&self, number: u32) -> bool
        ensures { result ≡ exists (all_legs self.now) number }
    {
        let end = FIRST_COMBINATION + self.made.len() as u32;
        (FIRST_COMBINATION..end).contains(&number)
    }

    // The number of the combination with these legs, which is made if there is none; none where it would be one too many.
    pub(crate) fn find_or_make(&mut self, combination: Combination) -> Option<u32>
        ensures { Numbers (all_legs self.old) combination.legs.items result (all_legs self.new) }
    {
        if let Some(i) = self.find(combination.legs.as_slice()) {
            return Some(FIRST_COMBINATION + i as u32);
        }
        if self.made.len() == MOST_COMBINATIONS {
            return None;
        }
        let number = FIRST_COMBINATION + self.made.len() as u32;
        self.made.push_reserved(combination);
        Some(number)
    }
}
