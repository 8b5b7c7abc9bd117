// Whole lines: the bytes first, then the fields.
ghost use Rattle.std.specs.Prelude.{◌≡◌, cond, Err};
ghost use Rattle.market.specs.declared.refusal.Refusal.TheVariants.{Field};
ghost use Rattle.line.specs.Kinds.{among};
ghost use Rattle.line.specs.CallLines.{call_letters, form_of_letter, call_form, enter_form, amend_form, cancel_form, quote_form, switch_form};
ghost use Rattle.line.specs.BuildLines.{build_form};
ghost use Rattle.line.specs.Verdicts.{build_line, Read, product_named};
ghost use Rattle.line.specs.Cursors.{read_rest};

use crate::bands::{BuildLine, read_build_fields};
use crate::cursor::Cursor;
use crate::legs::read_define;
use market::call::Call;
use market::product::Product;
use market::refusal::Refusal;

fn read_enter(fields: &mut Cursor<'_>) -> Result<Call, Refusal>
    ensures { result ≡ read_rest enter_form fields.old }
{
    let participant = fields.number()?;
    let book = fields.number()?;
    let side = fields.named()?;
    let quantity = fields.number()?;
    let price = fields.price()?;
    let duration = fields.named()?;
    fields.end()?;
    Ok(Call::Enter {
        participant,
        book,
        side,
        quantity,
        price,
        duration,
    })
}

fn read_amend(fields: &mut Cursor<'_>) -> Result<Call, Refusal>
    ensures { result ≡ read_rest amend_form fields.old }
{
    let participant = fields.number()?;
    let number = fields.number()?;
    let quantity = fields.number()?;
    let price = fields.price()?;
    fields.end()?;
    Ok(Call::Amend {
        participant,
        number,
        quantity,
        price,
    })
}

fn read_cancel(fields: &mut Cursor<'_>) -> Result<Call, Refusal>
    ensures { result ≡ read_rest cancel_form fields.old }
{
    let participant = fields.number()?;
    let number = fields.number()?;
    fields.end()?;
    Ok(Call::Cancel {
        participant,
        number,
    })
}

fn read_quote(fields: &mut Cursor<'_>) -> Result<Call, Refusal>
    ensures { result ≡ read_rest quote_form fields.old }
{
    let participant = fields.number()?;
    let book = fields.number()?;
    let bid_quantity = fields.number()?;
    let bid = fields.price()?;
    let offer_quantity = fields.number()?;
    let offer = fields.price()?;
    fields.end()?;
    Ok(Call::Quote {
        participant,
        book,
        bid_quantity,
        bid,
        offer_quantity,
        offer,
    })
}

fn read_switch(fields: &mut Cursor<'_>) -> Result<Call, Refusal>
    ensures { result ≡ read_rest switch_form fields.old }
{
    let event = fields.named()?;
    fields.end()?;
    Ok(Call::Switch { event })
}

// The fields after the letter that opens the line.
fn read_fields(letter: char, fields: &mut Cursor<'_>) -> Result<Call, Refusal>
    ensures { result ≡ cond (among letter call_letters) (read_rest (form_of_letter letter) fields.old) (Err (Field 0)) }
{
    match letter {
        'E' => read_enter(fields),
        'A' => read_amend(fields),
        'C' => read_cancel(fields),
        'Q' => read_quote(fields),
        'D' => read_define(fields),
        'P' => read_switch(fields),
        _ => Err(Refusal::Field(0)),
    }
}

pub(crate) fn read_call(line: &[u8]) -> Result<Call, Refusal>
    ensures { Read call_form line.now result }
{
    let mut fields = Cursor::new(line)?;
    let letter = fields.letter()?;
    read_fields(letter, &mut fields)
}

pub(crate) fn read_build(line: &[u8]) -> Result<BuildLine, Refusal>
    ensures { Read build_form line.now result }
{
    let mut fields = Cursor::new(line)?;
    read_build_fields(&mut fields)
}

// The product that a build line names, where the line can be read.
pub fn product_named(line: &[u8]) -> Option<Product>
    ensures { result ≡ product_named (build_line line.now) }
{
    read_build(line).map(|request| request.product).ok()
}
