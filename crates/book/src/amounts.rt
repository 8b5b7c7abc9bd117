// Amounts added and compared.
ghost use Rattle.std.specs.Prelude.{◌≡◌, ◌≤◌, ◌+ℤ◌, ◌*ℤ◌, pos};
ghost use Rattle.market.specs.Prices.{good, as_price};
ghost use Rattle.book.specs.Reading.{Addable, Bounded};

use market::price::{Amount, Price};
use market::side::Side;

// What so many contracts of one price come to.
pub(crate) fn cost(price: Price, count: u32) -> Amount
    requires { count ≤ 10 }
    ensures product { result.0 ≡ pos count *ℤ price.0 }
    ensures bounded { Bounded count result.0 }
{
    Amount(i64::from(count) * i64::from(price.0))
}

// Two amounts together.
pub(crate) fn added(one: Amount, other: Amount) -> Amount
    requires one { Addable one.0 }
    requires other { Addable other.0 }
    ensures { result.0 ≡ one.0 +ℤ other.0 }
{
    Amount(one.0 + other.0)
}

// To one who trades on this side, the first amount is at least as good as the second.
pub(crate) fn amount_good(side: Side, one: Amount, other: Amount) -> bool
    ensures { result ≡ good side (as_price one.0) (as_price other.0) }
{
    match side {
        Side::Buy => one.0 <= other.0,
        Side::Sell => other.0 <= one.0,
    }
}
