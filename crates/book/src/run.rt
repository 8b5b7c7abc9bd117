// Runs of units, from unit 1 on, that the books of the legs offer.
ghost use Rattle.std.specs.Prelude.{◌≡◌, ◌≤◌, ◌+ℤ◌, ◌+◌, Some, option_map};
ghost use Rattle.market.specs.Ladders.{unit_net, wanted, LongestRun, amount};
ghost use Rattle.book.specs.Bounds.{SmallLegs};
ghost use Rattle.book.specs.Held.{held};
ghost use Rattle.book.specs.Reading.{Addable};

use crate::amounts::{added, amount_good};
use crate::orders::Orders;
use crate::scratch::Scratch;
use crate::units::next_net;
use market::combination::MOST_LEGS;
use market::counts::Units;
use market::leg::Leg;
use market::price::{Amount, Price};
use market::side::Side;

// How many units, and what they cost together.
#[derive(Clone, Copy)]
pub(crate) struct Run {
    pub units: Units,
    pub net: Amount,
}

// What an order wants: units within its limit that beat a level, if there is one, and so many at most.
#[derive(Clone, Copy)]
pub(crate) struct Wish {
    pub limit: Price,
    pub level: Option<Price>,
    pub units: Units,
}

impl Run {
    // One unit more.
    fn with(self, net: Amount) -> Run
        requires units { self.units.0 ≤ 10000 }
        requires sum { Addable self.net.0 }
        requires net { Addable net.0 }
        ensures units { result.units.0 ≡ self.units.0 + 1 }
        ensures net { result.net.0 ≡ self.net.0 +ℤ net.0 }
    {
        Run {
            units: Units(self.units.0 + 1),
            net: added(self.net, net),
        }
    }
}

impl Wish {
    // A unit of that net is within the limit, and better than the level.
    fn holds(self, side: Side, net: Amount) -> bool
        ensures { result ≡ wanted side self.limit self.level (Some net.0) }
    {
        let beats = match self.level {
            Some(level) => !amount_good(side, Amount::from(level), net),
            None => true,
        };
        beats && amount_good(side, net, Amount::from(self.limit))
    }
}

// The net of unit 1, if it exists.
pub(crate) fn first_net(
    orders: &Orders,
    legs: &[Leg],
    side: Side,
    scratch: &mut Scratch,
) -> Option<Amount>
    requires { SmallLegs legs.now }
    ensures { option_map (λ a. a.0) result ≡ unit_net (Some legs.now) side (held orders.now) 1 }
{
    let mut rungs = [None; MOST_LEGS];
    next_net(orders, legs, side, &mut rungs, scratch)
}

// The longest run of units that are wanted.
pub(crate) fn longest_run(
    orders: &Orders,
    legs: &[Leg],
    side: Side,
    wish: Wish,
    scratch: &mut Scratch,
) -> Run
    requires legs { SmallLegs legs.now }
    requires units { wish.units.0 ≤ 10000 }
    ensures run { LongestRun (wanted side wish.limit wish.level) (unit_net (Some legs.now) side (held orders.now)) wish.units.0 result.units.0 }
    ensures net { amount (unit_net (Some legs.now) side (held orders.now)) result.units.0 ≡ Some result.net.0 }
{
    let mut rungs = [None; MOST_LEGS];
    let mut run = Run {
        units: Units(0),
        net: Amount(0),
    };
    while run.units.0 < wish.units.0 {
        match next_net(orders, legs, side, &mut rungs, scratch) {
            Some(net) if wish.holds(side, net) => run = run.with(net),
            _ => return run,
        }
    }
    run
}
