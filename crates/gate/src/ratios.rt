// The ratios of legs: their greatest common divisor, and their normal form.
ghost use Rattle.std.specs.Prelude.{◌≡◌, ◌<◌, ◌≤◌, ◌/◌, length, map};
ghost use Rattle.std.specs.Int.{IsGcd};
ghost use Rattle.std.specs.List.{All};
ghost use Rattle.market.specs.Combinations.{size, is_nonzero, divisor, turns, parts, reduced_leg, normal};

use arrayvec::ArrayVec;
use market::combination::MOST_LEGS;
use market::leg::Leg;

// The ratio is not 0.
pub(crate) fn is_nonzero(leg: &Leg) -> bool
    ensures { result ≡ is_nonzero leg.now }
{
    leg.size() > 0
}

// By Euclid's algorithm.
fn gcd(a: u32, b: u32) -> u32
    ensures { IsGcd a b result }
{
    let mut greater = a;
    let mut lesser = b;
    while lesser != 0 {
        let rest = greater % lesser;
        greater = lesser;
        lesser = rest;
    }
    greater
}

// The greatest common divisor of all ratios.
pub(crate) fn common_divisor(legs: &[Leg]) -> u32
    requires some { 0 < length legs.now }
    requires nonzero { All (λ l. 1 ≤ size l) legs.now }
    ensures value { result ≡ divisor legs.now }
    ensures some { 0 < result }
{
    let mut common = 0;
    for leg in legs {
        common = gcd(common, leg.size());
    }
    common
}

// The sizes of the ratios after division.
pub(crate) fn parts(legs: &[Leg], divisor: u32) -> ArrayVec<u32, MOST_LEGS>
    requires few { length legs.now ≤ 10 }
    requires some { 0 < divisor }
    ensures { result.items ≡ map (λ l. size l / divisor) legs.now }
{
    let mut sizes = ArrayVec::new();
    for leg in legs {
        sizes.push(leg.size() / divisor);
    }
    sizes
}

// The first ratio is minus.
pub(crate) fn turns(legs: &[Leg]) -> bool
    ensures { result ≡ turns legs.now }
{
    legs.first().is_some_and(Leg::is_minus)
}

fn reduced_leg(leg: Leg, divisor: u32, turn: bool) -> Leg
    requires some { 0 < divisor }
    requires small { size leg / divisor ≤ 10 }
    ensures { result ≡ reduced_leg divisor turn leg }
{
    let size = (leg.size() / divisor) as i32;
    let minus = leg.is_minus() != turn;
    Leg {
        instrument: leg.instrument,
        ratio: if minus { -size } else { size },
    }
}

// All ratios divided, and all signs turned if the first is minus.
pub(crate) fn normal_form(legs: &[Leg], divisor: u32) -> ArrayVec<Leg, MOST_LEGS>
    requires few { length legs.now ≤ 10 }
    requires some { 0 < divisor }
    requires small { All (λ l. size l / divisor ≤ 10) legs.now }
    ensures { result.items ≡ map (reduced_leg divisor (turns legs.now)) legs.now }
{
    let turn = turns(legs);
    let mut normal = ArrayVec::new();
    for leg in legs {
        normal.push(reduced_leg(*leg, divisor, turn));
    }
    normal
}
