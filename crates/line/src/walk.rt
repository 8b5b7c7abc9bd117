// The steps of a cursor over the fields of a line.
ghost use Rattle.std.specs.Prelude.{◌≡◌, ℕ, ◌≤◌, Bool, List, length, Option, IfOk};
ghost use Rattle.std.specs.List.{prefix_len};
ghost use Rattle.line.specs.Numbers.{unsigned, decimal, signed, lone_capital, code};
ghost use Rattle.line.specs.Kinds.{fits, letter_among, signed_number, number_within};
ghost use Rattle.line.specs.CallLines.{price_of};
ghost use Rattle.line.specs.Cursors.{solid, Begins, Reads, Gives, Next, Took, Ended};
ghost use Rattle.line.specs.declared.field.Field.{Field as AField};

use crate::clean::clean_len;
use crate::cursor::{Cursor, Placed};
use crate::field::Field;
use crate::named::Named;
use market::price::Price;
use market::refusal::Refusal;

// How many bytes stand before the first space: one chain, as `clean_len`, with its own test and no limit.
fn solid_len(bytes: &[u8]) -> usize
    ensures within { result ≤ length bytes.now }
    ensures value { result ≡ prefix_len solid bytes.now }
{
    bytes.iter().take_while(|b| **b != b' ').count()
}

impl<'a> Cursor<'a> {
    // At the first field of a line, whose bytes are judged first.
    pub(crate) fn new(line: &'a [u8]) -> Result<Cursor<'a>, Refusal>
        ensures { Begins line.now result }
    {
        let sound = clean_len(line);
        if sound < line.len() {
            return Err(Refusal::Byte(sound as u32));
        }
        Ok(Cursor {
            line,
            at: 0,
            index: 0,
        })
    }

    // Not Iterator::next: nothing iterates, since each field is asked for by its kind.
    fn next_field(&mut self) -> Option<Placed<'a>>
        ensures { Next self.old result self.new }
    {
        let offset = self.at;
        if offset > self.line.len() {
            return None;
        }
        let rest = &self.line[offset..];
        let len = solid_len(rest);
        let field = Field::from(&rest[..len]);
        self.at = offset + len + 1;
        self.index += 1;
        Some(Placed { offset, field })
    }

    // The next field as `of` takes it, or a refusal at its place.
    fn take<T, F: FnOnce(Field<'a>) -> Option<T>>(&mut self, of: F) -> Result<T, Refusal>
        requires { F.IsAlwaysCallable of }
        ensures { (p : List ℕ → Bool) (value : List ℕ → T) → ((bs : List ℕ) (f : AField) (o : Option T) → Reads bs f → F.post of f o → Gives p value bs o) → Took p value self.old result self.new }
    {
        let refusal = Refusal::Field(self.index);
        let Some(placed) = self.next_field() else {
            return Err(refusal);
        };
        of(placed.field).ok_or(refusal)
    }

    pub(crate) fn signed(&mut self) -> Result<i32, Refusal>
        ensures { Took (fits signed_number) signed self.old result self.new }
    {
        self.take(|field| field.signed())
    }

    pub(crate) fn number(&mut self) -> Result<u32, Refusal>
        ensures { Took unsigned decimal self.old result self.new }
    {
        let refusal = Refusal::Field(self.index);
        u32::try_from(self.signed()?).map_err(|_| refusal)
    }

    pub(crate) fn number_within(&mut self, low: u32, high: u32) -> Result<u32, Refusal>
        ensures took { Took (fits (number_within low high)) decimal self.old result self.new }
        ensures within { IfOk result (λ n. n ≤ high) }
    {
        let refusal = Refusal::Field(self.index);
        let n = self.number()?;
        if (low..=high).contains(&n) {
            Ok(n)
        } else {
            Err(refusal)
        }
    }

    pub(crate) fn price(&mut self) -> Result<Price, Refusal>
        ensures { Took (fits signed_number) price_of self.old result self.new }
    {
        Ok(Price(self.signed()?))
    }

    pub(crate) fn letter(&mut self) -> Result<char, Refusal>
        ensures { Took lone_capital code self.old result self.new }
    {
        self.take(|field| field.letter())
    }

    // What a letter names.
    pub(crate) fn named<T: Named>(&mut self) -> Result<T, Refusal>
        ensures { Took (fits (letter_among T.letters)) (λ f. T.by (code f)) self.old result self.new }
    {
        self.take(|field| T::from_letter(field.letter()?))
    }

    // No field is left.
    pub(crate) fn end(&self) -> Result<(), Refusal>
        ensures { Ended self.now result }
    {
        if self.at > self.line.len() {
            Ok(())
        } else {
            Err(Refusal::Field(self.index))
        }
    }
}
