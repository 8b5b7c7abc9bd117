// Why a call is refused.
ghost use Rattle.std.specs.Prelude.{◌≡◌, length, Err};
ghost use Rattle.market.specs.Refusals.{refusal_code, layer_number};
ghost use Rattle.market.specs.Rows.{blank};

use crate::row::Row;

// The layer of the venue that refuses.
#[derive(Clone, Copy, PartialEq, Eq, Debug)]
pub enum Layer {
    Line,
    Gate,
    Book,
}

// The number of each layer in an answer.
impl From<Layer> for u32 {
    ghost from_gives = { λ layer n. n ≡ layer_number layer };

    fn from(layer: Layer) -> u32 {
        match layer {
            Layer::Line => 1,
            Layer::Gate => 2,
            Layer::Book => 3,
        }
    }
}

// A number with a case is the place of the byte or field at fault; the other cases have one place each.
#[derive(Clone, Copy, PartialEq, Eq, Debug)]
pub enum Refusal {
    Byte(u32),
    Field(u32),
    Band(u32),
    Phase,
    Participant,
    Unknown(u32),
    Order,
    Quantity(u32),
    Price(u32),
    Crossed,
    Legs(u32),
    CombinationsSpent,
    NumbersSpent,
    BookFull,
    ReportFull,
}

// How an answer tells a refusal: its number, the layer that refuses, and the place at fault, 0 where there is none, as the format has it.
#[derive(Clone, Copy, PartialEq, Eq, Debug)]
pub struct RefusalCode {
    pub number: u32,
    pub layer: Layer,
    pub place: u32,
}

impl From<Refusal> for RefusalCode {
    ghost from_gives = { λ refusal code. code ≡ refusal_code refusal };

    fn from(refusal: Refusal) -> RefusalCode {
        let (number, layer, place) = match refusal {
            Refusal::Byte(place) => (1, Layer::Line, place),
            Refusal::Field(place) => (2, Layer::Line, place),
            Refusal::Band(place) => (3, Layer::Gate, place),
            Refusal::Phase => (4, Layer::Gate, 0),
            Refusal::Participant => (5, Layer::Gate, 1),
            Refusal::Unknown(place) => (6, Layer::Gate, place),
            Refusal::Order => (7, Layer::Gate, 2),
            Refusal::Quantity(place) => (8, Layer::Gate, place),
            Refusal::Price(place) => (9, Layer::Gate, place),
            Refusal::Crossed => (10, Layer::Gate, 6),
            Refusal::Legs(place) => (11, Layer::Gate, place),
            Refusal::CombinationsSpent => (12, Layer::Gate, 0),
            Refusal::NumbersSpent => (13, Layer::Book, 0),
            Refusal::BookFull => (14, Layer::Book, 0),
            Refusal::ReportFull => (15, Layer::Book, 0),
        };
        RefusalCode {
            number,
            layer,
            place,
        }
    }
}

// A refusal tells no row: every row of the report is blanked, which `?` alone would not do.
pub fn refuse<T>(report: &mut [Row], why: Refusal) -> Result<T, Refusal>
    ensures answer { result ≡ Err why }
    ensures blank { report.new ≡ blank (length report.old) }
{
    report.fill(Row::blank());
    Err(why)
}
