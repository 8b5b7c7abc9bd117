// What the letters of the format name: the types are the market's, and the letters this crate's, so this is no TryFrom<char>.
ghost use Rattle.std.specs.Prelude.{ℕ, List};
ghost use Rattle.line.specs.BuildLines.{product_letters, product_by};
ghost use Rattle.line.specs.CallLines.{side_letters, side_by, duration_letters, duration_by, event_letters, event_by};
ghost use Rattle.line.specs.Kinds.{Means};

use market::call::Duration;
use market::phase::Event;
use market::product::Product;
use market::side::Side;

// A value that a letter names.
pub(crate) trait Named {
    // the letters that name a value
    ghost letters: { List ℕ };

    // the value that each of them names
    ghost by: { ℕ → Self };

    fn from_letter(letter: char) -> Option<Self>
        ensures { Means letters by letter result };
}

impl Named for Product {
    ghost letters = { product_letters };

    ghost by = { product_by };

    fn from_letter(letter: char) -> Option<Product> {
        match letter {
            'F' => Some(Product::Futures),
            'O' => Some(Product::Options),
            _ => None,
        }
    }
}

impl Named for Side {
    ghost letters = { side_letters };

    ghost by = { side_by };

    fn from_letter(letter: char) -> Option<Side> {
        match letter {
            'B' => Some(Side::Buy),
            'S' => Some(Side::Sell),
            _ => None,
        }
    }
}

impl Named for Duration {
    ghost letters = { duration_letters };

    ghost by = { duration_by };

    fn from_letter(letter: char) -> Option<Duration> {
        match letter {
            'D' => Some(Duration::Day),
            'I' => Some(Duration::Immediate),
            'F' => Some(Duration::FillOrKill),
            _ => None,
        }
    }
}

impl Named for Event {
    ghost letters = { event_letters };

    ghost by = { event_by };

    fn from_letter(letter: char) -> Option<Event> {
        match letter {
            'O' => Some(Event::Open),
            'H' => Some(Event::Halt),
            'R' => Some(Event::Resume),
            'X' => Some(Event::Close),
            _ => None,
        }
    }
}
