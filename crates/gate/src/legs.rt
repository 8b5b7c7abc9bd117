// The conditions that the legs of a combination must meet.
ghost use Rattle.std.specs.Prelude.{◌≡◌, ◌≤◌, length};
ghost use Rattle.market.specs.Combinations.{count_fits, neighbours, rises, near, signs_fit};
ghost use Rattle.market.specs.Tables.{first_broken};
ghost use Rattle.gate.specs.Conditions.{Judges};
ghost use Rattle.gate.specs.Made.{Divided, Combines};

use crate::fault::{first_broken, unless};
use crate::ratios::{common_divisor, is_nonzero, normal_form, parts};
use market::combination::{Combination, MOST_LEGS};
use market::leg::Leg;
use market::product::Product;

// The field of a define line with the number of legs.
const COUNT_PLACE: u32 = 2;

// The field of the first leg's instrument.
pub(crate) const FIRST_LEG_PLACE: u32 = 3;

// The field of the second of two ratios.
const SECOND_RATIO_PLACE: u32 = 6;

// The highest size of a ratio after division.
const HIGHEST_RATIO: u32 = 10;

fn count_fits(product: Product, count: usize) -> bool
    ensures { result ≡ count_fits product count }
{
    match product {
        Product::Futures => count == 2,
        Product::Options => (2..=MOST_LEGS).contains(&count),
    }
}

// Each instrument is above the one before it.
fn check_rising(legs: &[Leg]) -> Result<(), u32>
    requires { length legs.now ≤ 10 }
    ensures { Judges (first_broken rises (neighbours legs.now) 4) result }
{
    for i in 1..legs.len() {
        if legs[i].instrument <= legs[i - 1].instrument {
            return Err(FIRST_LEG_PLACE + i as u32);
        }
    }
    Ok(())
}

// The size is at most four times the smallest.
fn near(size: u32, sizes: &[u32]) -> bool
    ensures { result ≡ near sizes.now size }
{
    sizes
        .iter()
        .all(|other| u64::from(size) <= 4 * u64::from(*other))
}

fn signs_fit(product: Product, legs: &[Leg]) -> bool
    ensures { result ≡ signs_fit product legs.now }
{
    match product {
        Product::Futures => {
            legs.iter().any(|leg| !leg.is_minus()) && legs.iter().any(Leg::is_minus)
        }
        Product::Options => true,
    }
}

// The greatest common divisor of legs that no condition holds of, or the field at fault.
fn judged_divisor(product: Product, legs: &[Leg]) -> Result<u32, u32>
    requires { length legs.now ≤ 10 }
    ensures { Divided product legs.now result }
{
    unless(count_fits(product, legs.len()), COUNT_PLACE)?;
    check_rising(legs)?;
    let ratios = FIRST_LEG_PLACE + legs.len() as u32;
    first_broken(legs, ratios, |leg| !is_nonzero(leg))?;
    let divisor = common_divisor(legs);
    let sizes = parts(legs, divisor);
    let sizes = sizes.as_slice();
    first_broken(sizes, ratios, |size| *size > HIGHEST_RATIO)?;
    first_broken(sizes, ratios, |size| !near(*size, sizes))?;
    unless(signs_fit(product, legs), SECOND_RATIO_PLACE)?;
    Ok(divisor)
}

// The combination that a request for these legs names, or the field at fault.
pub(crate) fn combine(product: Product, legs: &[Leg]) -> Result<Combination, u32>
    requires { length legs.now ≤ 10 }
    ensures { Combines product legs.now result }
{
    let divisor = judged_divisor(product, legs)?;
    Ok(Combination {
        legs: normal_form(legs, divisor),
    })
}
