// The phase of a venue and the price bands of its instruments.
ghost use Rattle.std.specs.Prelude.{◌≡◌, ◌≤◌, length};
ghost use Rattle.market.specs.Tables.{first_broken};
ghost use Rattle.market.specs.Venues.{trading, serving, band_of, known};
ghost use Rattle.gate.specs.Conditions.{turned, Judges};

use crate::fault::first_broken;
use crate::legs::FIRST_LEG_PLACE;
use crate::venue::MOST_INSTRUMENTS;
use arrayvec::ArrayVec;
use market::leg::Leg;
use market::phase::{Event, Phase, Withdrawal};
use market::product::Band;

#[derive(Drop)]
pub(crate) struct Trading {
    pub phase: Phase,
    pub bands: ArrayVec<Band, MOST_INSTRUMENTS>,
}

impl Trading {
    // Orders may enter.
    pub(crate) fn open(&self) -> bool
        ensures { result ≡ trading self.now.phase }
    {
        matches!(self.phase, Phase::Continuous)
    }

    // Orders may be cancelled.
    pub(crate) fn serving(&self) -> bool
        ensures { result ≡ serving self.now.phase }
    {
        !matches!(self.phase, Phase::Closed)
    }

    // The phase that an event turns this one into, and what it takes out of the book; none where the event is refused.
    pub(crate) fn turned(&self, event: Event) -> Option<(Phase, Withdrawal)>
        ensures { result ≡ turned self.now.phase event }
    {
        match (self.phase, event) {
            (Phase::PreOpen, Event::Open) => Some((Phase::Continuous, Withdrawal::Nothing)),
            (Phase::Continuous, Event::Halt) => Some((Phase::Halted, Withdrawal::Quotes)),
            (Phase::Halted, Event::Resume) => Some((Phase::Continuous, Withdrawal::Nothing)),
            (Phase::Continuous, Event::Close) => Some((Phase::Closed, Withdrawal::Everything)),
            (Phase::Halted, Event::Close) => Some((Phase::Closed, Withdrawal::Everything)),
            _ => None,
        }
    }

    // The band of an instrument, where there is such an instrument.
    pub(crate) fn band(&self, instrument: u32) -> Option<Band>
        ensures { result ≡ band_of self.now.bands.items instrument }
    {
        let i = instrument.checked_sub(1)?;
        self.bands.get(i as usize).copied()
    }

    // There is such an instrument.
    pub(crate) fn knows(&self, instrument: u32) -> bool
        ensures { result ≡ known (band_of self.now.bands.items instrument) }
    {
        self.band(instrument).is_some()
    }

    // The field of the first leg whose instrument does not exist is at fault.
    pub(crate) fn check_known(&self, legs: &[Leg]) -> Result<(), u32>
        requires { length legs.now ≤ 10 }
        ensures { Judges (first_broken (λ l. known (band_of self.now.bands.items l.instrument)) legs.now 3) result }
    {
        first_broken(legs, FIRST_LEG_PLACE, |leg| !self.knows(leg.instrument))
    }
}
