// Prices and amounts: signed numbers of ticks.
ghost use Rattle.std.specs.Prelude.{◌≡◌};

// What one contract or one unit costs.
#[derive(Clone, Copy, PartialEq, Eq)]
pub struct Price(pub i32);

// A price in a report row, or what several units cost together; wide, and held to no band.
#[derive(Clone, Copy)]
pub struct Amount(pub i64);

impl From<Price> for Amount {
    ghost from_gives = { λ price amount. amount.0 ≡ price.0 };

    fn from(price: Price) -> Amount {
        Amount(i64::from(price.0))
    }
}
