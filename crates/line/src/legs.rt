// The line that defines a combination.
ghost use Rattle.std.specs.Prelude.{◌≡◌};
ghost use Rattle.line.specs.CallLines.{define_form};
ghost use Rattle.line.specs.Cursors.{read_rest};

use crate::cursor::Cursor;
use arrayvec::ArrayVec;
use market::call::Call;
use market::combination::MOST_LEGS;
use market::leg::Leg;
use market::legs::Legs;
use market::refusal::Refusal;

// The fields after the opening letter.
pub(crate) fn read_define(fields: &mut Cursor<'_>) -> Result<Call, Refusal>
    ensures { result ≡ read_rest define_form fields.old }
{
    let participant = fields.number()?;
    let count = fields.number_within(2, 10)?;
    let legs: ArrayVec<Leg, MOST_LEGS> = fields.elements(count)?;
    fields.end()?;
    let legs = Legs::of(legs.as_slice());
    Ok(Call::Define { participant, legs })
}
