// What is traded: an instrument, numbered from 1, or a combination, numbered from 1001.
ghost use Rattle.std.specs.Prelude.{◌≡◌};
ghost use Rattle.market.specs.Orders.{book_number};

#[derive(Clone, Copy, PartialEq, Eq)]
pub enum BookId {
    Instrument(u32),
    Combination(u32),
}

// The number by which a row names it.
impl From<BookId> for u32 {
    ghost from_gives = { λ book n. n ≡ book_number book };

    fn from(book: BookId) -> u32 {
        match book {
            BookId::Instrument(i) => i,
            BookId::Combination(c) => c,
        }
    }
}
