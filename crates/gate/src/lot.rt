// A lot and the number of its book, as lines have it.
ghost use Rattle.std.specs.Prelude.{◌≡◌};
ghost use Rattle.market.specs.Orders.{book_number, lot_book, lot_of};

use market::combination::FIRST_COMBINATION;
use market::counts::{Contracts, Units};
use market::order::Lot;

// So many contracts or units, as the book of that number has it.
pub(crate) fn lot_of(book: u32, quantity: u32) -> Lot
    ensures { result ≡ lot_of book quantity }
{
    if book < FIRST_COMBINATION {
        Lot::Outright {
            instrument: book,
            quantity: Contracts(quantity),
        }
    } else {
        Lot::Combined {
            combination: book,
            quantity: Units(quantity),
        }
    }
}

// The number of the book that a lot rests in; the book has the like for itself, and shows it to none.
pub(crate) fn book_number(lot: Lot) -> u32
    ensures { result ≡ book_number (lot_book lot) }
{
    match lot {
        Lot::Outright { instrument, .. } => instrument,
        Lot::Combined { combination, .. } => combination,
    }
}
