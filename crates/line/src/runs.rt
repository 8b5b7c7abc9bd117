// Elements whose parts stand in two runs of fields: a number of each, and then another field of each.
ghost use Rattle.std.specs.Prelude.{◌≡◌, ℕ, ◌≤◌, List, IfOk};
ghost use Rattle.arrayvec.specs.ArrayVec.{array_vec_len};
ghost use Rattle.line.specs.Numbers.{decimal};
ghost use Rattle.line.specs.Kinds.{Kind, fits, plain_number, signed_number};
ghost use Rattle.line.specs.BuildLines.{band_from};
ghost use Rattle.line.specs.CallLines.{leg_from};
ghost use Rattle.line.specs.Runs.{places};
ghost use Rattle.line.specs.Cursors.{Took};
ghost use Rattle.line.specs.Fills.{Filled, FilledTwice};

use crate::cursor::Cursor;
use arrayvec::ArrayVec;
use market::leg::Leg;
use market::product::Band;
use market::refusal::Refusal;

// An element that is made of a number and a field.
pub(crate) trait Element: Default + Drop {
    // the kind of the second field
    ghost kind: { Kind };

    // the element of a number and a field
    ghost made: { ℕ → List ℕ → Self };

    fn read(number: u32, fields: &mut Cursor<'_>) -> Result<Self, Refusal>
        ensures { Took (fits kind) (made number) fields.old result fields.new };
}

impl Element for Band {
    ghost kind = { plain_number };

    ghost made = { band_from };

    fn read(low: u32, fields: &mut Cursor<'_>) -> Result<Band, Refusal> {
        let high = fields.number()?;
        Ok(Band { low, high })
    }
}

impl Element for Leg {
    ghost kind = { signed_number };

    ghost made = { leg_from };

    fn read(instrument: u32, fields: &mut Cursor<'_>) -> Result<Leg, Refusal> {
        let ratio = fields.signed()?;
        Ok(Leg { instrument, ratio })
    }
}

impl<'a> Cursor<'a> {
    // A run of numbers, 64 at most. Tried with a size of the caller's: that so many numbers fit in memory stays open, since the caller's array holds elements.
    fn numbers(&mut self, count: u32) -> Result<ArrayVec<u32, 64>, Refusal>
        requires { count ≤ 64 }
        ensures filled { Filled plain_number (λ _ f. decimal f) self.old (places count) result self.new }
        ensures many { IfOk result (λ ns. array_vec_len ns ≡ count) }
    {
        let mut numbers = ArrayVec::new();
        for _ in 0..count {
            numbers.push(self.number()?);
        }
        Ok(numbers)
    }

    // So many elements, of two runs. A loop of its own, as in `numbers`: one for both would lend the cursor to a closure, and be no shorter.
    pub(crate) fn elements<T: Element, const N: usize>(
        &mut self,
        count: u32,
    ) -> Result<ArrayVec<T, N>, Refusal>
        requires few { count ≤ 64 }
        requires room { count ≤ N }
        ensures { FilledTwice T.kind T.made count self.old result self.new }
    {
        let numbers = self.numbers(count)?;
        let mut elements = ArrayVec::new();
        for number in numbers.as_slice() {
            elements.push(T::read(*number, self)?);
        }
        Ok(elements)
    }
}
