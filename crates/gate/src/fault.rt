// The conditions of the table of refusals.
ghost use Rattle.std.specs.Prelude.{◌≡◌, Bool, not, ◌+◌, ◌^◌, ◌<◌, ◌≤◌, length, Some};
ghost use Rattle.std.specs.Fn.{FnReturnsAt};
ghost use Rattle.market.specs.Bands.{broken_band, build_fault};
ghost use Rattle.market.specs.Tables.{unless, first_broken};
ghost use Rattle.market.specs.declared.refusal.Refusal.TheVariants.{Participant, Quantity};
ghost use Rattle.market.specs.Venues.{between, within_band, within_net_band};
ghost use Rattle.gate.specs.Conditions.{Judges};

use crate::venue::MOST_INSTRUMENTS;
use market::price::Price;
use market::product::Band;
use market::refusal::Refusal;

const LAST_PARTICIPANT: u32 = 999;

// The most contracts or units that an order or a side of a quote may be for.
const MOST_QUANTITY: u32 = 10_000;

// The highest price that a band may reach.
const HIGHEST_PRICE: u32 = 999_999;

// The highest net price; the lowest is as far below 0.
const HIGHEST_NET: i32 = 99_999_900;

// At fault unless the test holds; the fault is a refusal, or the place of a field.
pub(crate) fn unless<E: Drop>(test: bool, fault: E) -> Result<(), E>
    ensures { Judges (unless test fault) result }
{
    if test { Ok(()) } else { Err(fault) }
}

// Participants are numbered 1 to 999.
pub(crate) fn check_participant(participant: u32) -> Result<(), Refusal>
    ensures { Judges (unless (between 1 999 participant) Participant) result }
{
    unless(
        (1..=LAST_PARTICIPANT).contains(&participant),
        Refusal::Participant,
    )
}

// An order is for 1 to 10,000 contracts or units; the field with the quantity is at fault.
pub(crate) fn check_quantity(quantity: u32, place: u32) -> Result<(), Refusal>
    ensures { Judges (unless (between 1 10000 quantity) (Quantity place)) result }
{
    unless(
        (1..=MOST_QUANTITY).contains(&quantity),
        Refusal::Quantity(place),
    )
}

// A side of a quote is for as many, or for none.
pub(crate) fn check_side_quantity(quantity: u32, place: u32) -> Result<(), Refusal>
    ensures { Judges (unless (between 0 10000 quantity) (Quantity place)) result }
{
    unless(quantity <= MOST_QUANTITY, Refusal::Quantity(place))
}

// The price is neither below the band nor above it.
pub(crate) fn within_band(band: Band, price: Price) -> bool
    ensures { result ≡ within_band (Some band) price }
{
    (i64::from(band.low)..=i64::from(band.high)).contains(&i64::from(price.0))
}

// A net price is neither below the lowest nor above the highest.
pub(crate) fn within_net_band(price: Price) -> bool
    ensures { result ≡ within_net_band price }
{
    (-HIGHEST_NET..=HIGHEST_NET).contains(&price.0)
}

// The field of the first element that is broken is at fault; the first of all has its field at that place.
pub(crate) fn first_broken<T, F: Fn(&T) -> bool>(
    elements: &[T],
    place: u32,
    broken: F,
) -> Result<(), u32>
    requires fits { place + length elements.now < 2 ^ 32 }
    requires callable { F.IsAlwaysCallable broken }
    ensures { (p : T → Bool) → ((x : T) (t : Bool) → FnReturnsAt F.Fn broken x t → t ≡ not (p x)) → Judges (first_broken p elements.now place) result }
{
    elements
        .iter()
        .position(broken)
        .map_or(Ok(()), |i| Err(place + i as u32))
}

// The field of a build line's band that is at fault.
fn broken_band(bands: &[Band]) -> Result<(), u32>
    requires { length bands.now ≤ MOST_INSTRUMENTS }
    ensures { Judges (broken_band bands.now) result }
{
    let highs = 2 + bands.len() as u32;
    first_broken(bands, 2, |band| band.low < 1)?;
    first_broken(bands, highs, |band| band.high > HIGHEST_PRICE)?;
    first_broken(bands, 2, |band| band.low > band.high)
}

// Whether a build line's bands are sound, and if not, why.
pub(crate) fn judge(bands: &[Band]) -> Result<(), Refusal>
    requires { length bands.now ≤ MOST_INSTRUMENTS }
    ensures { Judges (build_fault bands.now) result }
{
    broken_band(bands).map_err(Refusal::Band)
}
