// A leg of a combination: an instrument, and how many of its contracts a unit has, with the sign plus where the combination's buyer buys them.
ghost use Rattle.std.specs.Prelude.{◌≡◌};
ghost use Rattle.market.specs.Combinations.{size, is_minus};

#[derive(Clone, Copy, Default, PartialEq, Eq)]
pub struct Leg {
    pub instrument: u32,
    pub ratio: i32,
}

impl Leg {
    // The size of the ratio, without its sign.
    pub fn size(&self) -> u32
        ensures { result ≡ size self.now }
    {
        self.ratio.unsigned_abs()
    }

    // The combination's buyer sells this leg.
    pub fn is_minus(&self) -> bool
        ensures { result ≡ is_minus self.now }
    {
        self.ratio < 0
    }
}
