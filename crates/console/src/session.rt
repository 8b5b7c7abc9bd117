// A session: its input, cut into lines, its answers, and the wire for both.
ghost use Rattle.std.specs.Prelude.{◌≡◌, OnErr, OnOk};
ghost use Rattle.line.specs.Gateways.{gateway_view, gateway_rule};
ghost use Rattle.console.specs.Sessions.{rule_for, Served, BrokenOff};
ghost use Rattle.console.specs.Serving.{FromStart, FromFirst, FromAnswers, AllAnswered};

use crate::answering::{answer_line, open_venue};
use crate::buffered::BufferedWire;
use crate::reader::LineReader;
use crate::wire::Wire;
use anyhow::anyhow;
use line::gateway::Gateway;
use line::product_named;
use market::product::Product;
use market::row::Row;
use rules::price_time::PriceTime;
use rules::pro_rata::ProRata;
use rules::rule::AllocationRule;
use std::alloc::Global;

// How many rows a report has.
const ROWS: usize = 1024;

// The text that waits is written out once it has this many bytes.
pub(crate) const FULL: usize = 65_536;

#[derive(Drop)]
pub(crate) struct Session<'a, W> {
    pub(crate) heap: Global,
    pub(crate) reader: LineReader,
    pub(crate) wire: BufferedWire<'a, W>,
}

impl<'a, W> Session<'a, W> {
    // Gives the wire back, for a proof alone. Tried: the borrow checker does not cover yet a caller that reads the field.
    pub(crate) fn into_wire(self) -> &'a mut W
        ensures same { result.ghost_name ≡ self.entry.wire.wire.ghost_name }
        ensures value { result.now ≡ self.entry.wire.wire.now }
    {
        let Session { wire, .. } = self;
        wire.wire
    }
}

impl<W: Wire> Session<'_, W> {
    // Serves the whole session: the first line builds the venue, futures under price/time and options under pro rata.
    pub(crate) fn serve(&mut self) -> anyhow::Result<()>
        ensures same { self.new.wire.wire.ghost_name ≡ self.old.wire.wire.ghost_name }
        ensures served { OnOk result (FromStart W.Wire.log self.old (Served rule_for (W.Wire.log self.new.wire.wire.now) (W.Wire.over self.new.wire.wire.now))) }
        ensures failed { OnErr result (FromStart W.Wire.log self.old (BrokenOff rule_for (W.Wire.log self.new.wire.wire.now))) }
    {
        match self.reader.next_line(&mut self.wire)? {
            None => Ok(()),
            // A line that names no product is refused under either rule.
            Some(line) => match product_named(line).unwrap_or(Product::Futures) {
                Product::Futures => self.serve_under(PriceTime),
                Product::Options => self.serve_under(ProRata),
            },
        }
    }

    // Builds the venue from the line just cut, and answers every line after it; ends where the build line is refused.
    fn serve_under<R: AllocationRule + Drop>(&mut self, rule: R) -> anyhow::Result<()>
        ensures same { self.new.wire.wire.ghost_name ≡ self.old.wire.wire.ghost_name }
        ensures served { OnOk result (FromFirst W.Wire.log (R.AllocationRule.shares rule) self.old (λ rules. Served rules (W.Wire.log self.new.wire.wire.now) (W.Wire.over self.new.wire.wire.now))) }
        ensures failed { OnErr result (FromFirst W.Wire.log (R.AllocationRule.shares rule) self.old (λ rules. BrokenOff rules (W.Wire.log self.new.wire.wire.now))) }
    {
        // The line is asked for again, since the session, lent whole, cannot be lent beside a line of its reader.
        match open_venue(self.heap, rule, self.reader.line(), &mut self.wire.text)? {
            None => self.wire.flush(),
            Some(gateway) => self.answer_all(gateway),
        }
    }

    // Answers every line up to the end of the input, each with a report of 1,024 rows.
    fn answer_all<R: AllocationRule + Drop>(
        &mut self,
        mut gateway: Gateway<R>,
    ) -> anyhow::Result<()>
        ensures same { self.new.wire.wire.ghost_name ≡ self.old.wire.wire.ghost_name }
        ensures answered { OnOk result (FromAnswers W.Wire.log (R.AllocationRule.shares (gateway_rule gateway)) (gateway_view gateway) self.old (λ rules used text. AllAnswered rules (R.AllocationRule.shares (gateway_rule gateway)) (gateway_view gateway) W.Wire.log W.Wire.over self.new used text)) }
        ensures failed { OnErr result (FromAnswers W.Wire.log (R.AllocationRule.shares (gateway_rule gateway)) (gateway_view gateway) self.old (λ rules used text. BrokenOff rules (W.Wire.log self.new.wire.wire.now))) }
    {
        let mut report = vec![in self.heap; Row::blank(); ROWS]?;
        // Input has no known end, and each loop is proved to end: a count that no input reaches. This loop answers lines; that of the reader reads blocks until one is cut.
        for _ in 0..u64::MAX {
            match self.reader.next_line(&mut self.wire)? {
                None => return Ok(()),
                Some(line) => {
                    let report = report.as_mut_slice();
                    answer_line(&mut gateway, line, report, &mut self.wire.text)?;
                }
            }
            if self.wire.text.len() >= FULL {
                self.wire.flush()?;
            }
        }
        Err(anyhow!("the input does not end"))
    }
}
