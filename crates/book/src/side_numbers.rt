// The numbers of the sides of a quote, once its old sides are settled.
ghost use Rattle.std.specs.Prelude.{◌≡◌, ◌+◌};
ghost use Rattle.book.specs.OldSides.{numbers_needed};

// The number of each side, 0 where nothing is wanted; none where the side is new.
#[derive(Clone, Copy)]
pub(crate) struct SideNumbers {
    pub bid: Option<u32>,
    pub offer: Option<u32>,
}

impl SideNumbers {
    // How many new sides need a number.
    pub(crate) fn needed(self) -> u32
        ensures { result ≡ numbers_needed self.bid + numbers_needed self.offer }
    {
        u32::from(self.bid.is_none()) + u32::from(self.offer.is_none())
    }
}
