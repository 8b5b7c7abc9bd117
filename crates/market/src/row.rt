// A row of a report.
ghost use Rattle.std.specs.Prelude.{◌≡◌};
ghost use Rattle.market.specs.Rows.{kind_number, kind_letter, blank_row};

use crate::price::Amount;

// What a row tells of: nothing, a contract trade, a leg of a trade between combinations, a combination trade, a cancellation.
// Blank is a kind, and no None of a row: by its format a report has rows of one form, of which those past the last are zeros.
#[derive(Clone, Copy, PartialEq, Eq, Debug)]
pub enum RowKind {
    Blank,
    Trade,
    Leg,
    Combination,
    Cancellation,
}

// The number of each kind in the format.
impl From<RowKind> for u32 {
    ghost from_gives = { λ kind n. n ≡ kind_number kind };

    fn from(kind: RowKind) -> u32 {
        match kind {
            RowKind::Blank => 0,
            RowKind::Trade => 1,
            RowKind::Leg => 2,
            RowKind::Combination => 3,
            RowKind::Cancellation => 4,
        }
    }
}

// The letter of each kind in the text of a report.
impl From<RowKind> for char {
    ghost from_gives = { λ kind letter. letter ≡ kind_letter kind };

    fn from(kind: RowKind) -> char {
        match kind {
            RowKind::Blank => '-',
            RowKind::Trade => 'T',
            RowKind::Leg => 'U',
            RowKind::Combination => 'N',
            RowKind::Cancellation => 'X',
        }
    }
}

// The book is an instrument's or a combination's number; an absent buyer or seller is 0, and so is the fill of a cancellation, as the format has it.
#[derive(Clone, Copy)]
pub struct Row {
    pub kind: RowKind,
    pub fill: u32,
    pub book: u32,
    pub quantity: u32,
    pub price: Amount,
    pub buyer: u32,
    pub seller: u32,
}

impl Row {
    // The row of zeros that stands past the last; under its own name, which says more than a default.
    pub fn blank() -> Row
        ensures { result ≡ blank_row }
    {
        Row {
            kind: RowKind::Blank,
            fill: 0,
            book: 0,
            quantity: 0,
            price: Amount(0),
            buyer: 0,
            seller: 0,
        }
    }
}
