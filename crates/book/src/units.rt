// The next unit of a combination, read off the ladders of its legs.
ghost use Rattle.std.specs.Prelude.{◌≤◌, length};
ghost use Rattle.std.specs.List.{All};
ghost use Rattle.market.specs.Combinations.{size};
ghost use Rattle.book.specs.Held.{held};
ghost use Rattle.book.specs.Units.{leg_to_come, all_to_come, NextPart, NextUnit};

use crate::amounts::added;
use crate::ladder::Ladder;
use crate::legs::{contracts_for, signed};
use crate::orders::Orders;
use crate::rung::Rung;
use crate::scratch::Scratch;
use market::counts::Units;
use market::leg::Leg;
use market::price::Amount;
use market::side::Side;

// The leg's part of the next unit's net, if so many contracts are to come.
fn next_part(
    orders: &Orders,
    leg: &Leg,
    side: Side,
    rung: &mut Option<Rung>,
    scratch: &mut Scratch,
) -> Option<Amount>
    requires { size leg.now ≤ 10 }
    ensures { NextPart leg.now (leg_to_come side (held orders.now) leg.now rung.old) result (leg_to_come side (held orders.now) leg.now rung.new) }
{
    let ladder = Ladder::of_leg(leg, side);
    let sum = ladder.next_sum(orders, contracts_for(leg, Units(1)), rung, scratch)?;
    Some(signed(leg, sum))
}

// The next unit's net, if each leg has so many contracts to come.
pub(crate) fn next_net(
    orders: &Orders,
    legs: &[Leg],
    side: Side,
    rungs: &mut [Option<Rung>],
    scratch: &mut Scratch,
) -> Option<Amount>
    requires few { length legs.now ≤ 10 }
    requires small { All (λ leg. size leg ≤ 10) legs.now }
    requires rungs { length legs.now ≤ length rungs.old }
    ensures { NextUnit (all_to_come side (held orders.now) legs.now rungs.old) result (all_to_come side (held orders.now) legs.now rungs.new) }
{
    let Some((leg, legs)) = legs.split_first() else {
        return Some(Amount(0));
    };
    let (rung, rungs) = rungs.split_first_mut()?;
    let part = next_part(orders, leg, side, rung, scratch)?;
    let others = next_net(orders, legs, side, rungs, scratch)?;
    Some(added(part, others))
}
