// The text of answers and reports, appended to a buffer line by line: where there is no memory, whole lines stand, and not all of them.
ghost use Rattle.std.specs.Prelude.{◌≡◌, [], ◌∷◌, ◌++◌, decimal, OnErr, OnOk};
ghost use Rattle.console.specs.Text.{field, price_field, answer_text, row_text, report_text, CutShort};

use arrayvec::ArrayVec;
use market::price::Amount;
use market::refusal::{Refusal, RefusalCode};
use market::row::{Row, RowKind};
use std::alloc::AllocError;

// No line has more bytes: a letter, six numbers of at most 20 bytes, each behind a space, and a newline.
const LINE: usize = 128;

// Adds a byte to a line; one that had no room here would be told as a want of memory, but no line is so long.
fn put(line: &mut ArrayVec<u8, LINE>, byte: u8) -> Result<(), AllocError>
    ensures { OnOk result (line.new.items ≡ line.old.items ++ byte ∷ []) }
{
    line.try_push(byte).map_err(|_| AllocError)
}

// Adds a number in decimal. Digit by digit: `write!` was tried, and takes several times as long over a row.
fn put_decimal(line: &mut ArrayVec<u8, LINE>, n: u64) -> Result<(), AllocError>
    ensures { OnOk result (line.new.items ≡ line.old.items ++ decimal n) }
{
    if n >= 10 {
        put_decimal(line, n / 10)?;
    }
    put(line, b'0' + (n % 10) as u8)
}

// Adds a space and a number.
fn put_field(line: &mut ArrayVec<u8, LINE>, n: u32) -> Result<(), AllocError>
    ensures { OnOk result (line.new.items ≡ line.old.items ++ field n) }
{
    put(line, b' ')?;
    put_decimal(line, u64::from(n))
}

// Adds a space and a price with its sign.
fn put_price(line: &mut ArrayVec<u8, LINE>, price: Amount) -> Result<(), AllocError>
    ensures { OnOk result (line.new.items ≡ line.old.items ++ price_field price.0) }
{
    put(line, b' ')?;
    if price.0 < 0 {
        put(line, b'-')?;
    }
    put_decimal(line, price.0.unsigned_abs())
}

fn put_answer(
    line: &mut ArrayVec<u8, LINE>,
    answer: Result<(u32, u32), Refusal>,
) -> Result<(), AllocError>
    ensures { OnOk result (line.new.items ≡ line.old.items ++ answer_text answer) }
{
    match answer {
        Ok((first, second)) => {
            put(line, b'o')?;
            put(line, b'k')?;
            put_field(line, first)?;
            put_field(line, second)?;
        }
        Err(refusal) => {
            let code = RefusalCode::from(refusal);
            put(line, b'n')?;
            put(line, b'o')?;
            put_field(line, code.number)?;
            put_field(line, code.layer.into())?;
            put_field(line, code.place)?;
        }
    }
    put(line, b'\n')
}

fn put_row(line: &mut ArrayVec<u8, LINE>, row: Row) -> Result<(), AllocError>
    ensures { OnOk result (line.new.items ≡ line.old.items ++ row_text row) }
{
    put(line, char::from(row.kind) as u8)?;
    put_field(line, row.fill)?;
    put_field(line, row.book)?;
    put_field(line, row.quantity)?;
    put_price(line, row.price)?;
    put_field(line, row.buyer)?;
    put_field(line, row.seller)?;
    put(line, b'\n')
}

// Appends the line of an answer.
pub fn write_answer(
    out: &mut Vec<u8>,
    answer: Result<(u32, u32), Refusal>,
) -> Result<(), AllocError>
    ensures appended { OnOk result (out.new.items ≡ out.old.items ++ answer_text answer) }
    ensures failed { OnErr result (CutShort out.new.items (out.old.items ++ answer_text answer)) }
{
    let mut line = ArrayVec::new();
    put_answer(&mut line, answer)?;
    out.extend_from_slice(line.as_slice())
}

// Appends the line of a row, whole or not at all.
fn write_row(out: &mut Vec<u8>, row: Row) -> Result<(), AllocError>
    ensures appended { OnOk result (out.new.items ≡ out.old.items ++ row_text row) }
    ensures failed { OnErr result (out.new.items ≡ out.old.items) }
{
    let mut line = ArrayVec::new();
    put_row(&mut line, row)?;
    out.extend_from_slice(line.as_slice())
}

// Appends the lines of a report: its rows up to the first blank one.
pub fn write_report(out: &mut Vec<u8>, rows: &[Row]) -> Result<(), AllocError>
    ensures appended { OnOk result (out.new.items ≡ out.old.items ++ report_text rows.now) }
    ensures failed { OnErr result (CutShort out.new.items (out.old.items ++ report_text rows.now)) }
{
    for row in rows.iter().take_while(|row| row.kind != RowKind::Blank) {
        write_row(out, *row)?;
    }
    Ok(())
}
