// The legs of a combination.
ghost use Rattle.std.specs.Prelude.{◌≡◌, ◌≤◌};
ghost use Rattle.market.specs.Combinations.{size};
ghost use Rattle.market.specs.Ladders.{leg_side, contracts_for, signed};
ghost use Rattle.market.specs.Round.{legs_of};
ghost use Rattle.book.specs.Bounds.{LegsFit};
ghost use Rattle.book.specs.Reading.{Addable};
ghost use Rattle.book.specs.Table.{table, lent};

use crate::compare::opposite;
use market::book_id::BookId;
use market::combination::{Combination, FIRST_COMBINATION};
use market::counts::{Contracts, Units};
use market::leg::Leg;
use market::price::Amount;
use market::side::Side;

// The legs of what a book is for: an instrument has none.
pub(crate) fn legs_of(combinations: &[Combination], book: BookId) -> Option<&[Leg]>
    ensures legs { lent result ≡ legs_of (table combinations.now) book }
    ensures fit { LegsFit (lent result) }
{
    let BookId::Combination(number) = book else {
        return None;
    };
    if number < FIRST_COMBINATION {
        return None;
    }
    let combination = combinations.get((number - FIRST_COMBINATION) as usize)?;
    Some(combination.legs.as_slice())
}

// So many contracts of the leg go into so many units: the two counts meet here and nowhere else.
pub(crate) fn contracts_for(leg: &Leg, units: Units) -> Contracts
    requires small { size leg.now ≤ 10 }
    requires few { units.0 ≤ 10000 }
    ensures { result.0 ≡ contracts_for leg.now units.0 }
{
    Contracts(leg.size() * units.0)
}

// The side on which one who trades the combination on `side` trades the leg.
pub(crate) fn leg_side(side: Side, leg: &Leg) -> Side
    ensures { result ≡ leg_side side leg.now }
{
    if leg.is_minus() { opposite(side) } else { side }
}

// A sum of the leg's prices, with the sign of its ratio.
pub(crate) fn signed(leg: &Leg, sum: Amount) -> Amount
    requires { Addable sum.0 }
    ensures { result.0 ≡ signed leg.now sum.0 }
{
    if leg.is_minus() { Amount(-sum.0) } else { sum }
}
