// The line that builds a venue, with a price band for each instrument.
ghost use Rattle.std.specs.Prelude.{◌≡◌};
ghost use Rattle.line.specs.BuildLines.{build_form};
ghost use Rattle.line.specs.Cursors.{read_rest};

use crate::cursor::Cursor;
use arrayvec::ArrayVec;
use gate::venue::MOST_INSTRUMENTS;
use market::product::{Band, Product};
use market::refusal::Refusal;

// The product, and the bands of the instruments.
#[derive(Drop)]
pub(crate) struct BuildLine {
    pub(crate) product: Product,
    pub(crate) bands: ArrayVec<Band, MOST_INSTRUMENTS>,
}

pub(crate) fn read_build_fields(fields: &mut Cursor<'_>) -> Result<BuildLine, Refusal>
    ensures { result ≡ read_rest build_form fields.old }
{
    let product = fields.named()?;
    let count = fields.number_within(1, MOST_INSTRUMENTS as u32)?;
    let bands = fields.elements(count)?;
    fields.end()?;
    Ok(BuildLine { product, bands })
}
