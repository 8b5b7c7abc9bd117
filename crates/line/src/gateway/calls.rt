// One line, one call.
ghost use Rattle.std.specs.Prelude.{◌≡◌, not, length, ◌==◌};
ghost use Rattle.market.specs.Endings.{Follows};
ghost use Rattle.market.specs.Unique.{RulesDetermine};
ghost use Rattle.market.specs.Venues.{Takes};
ghost use Rattle.line.specs.BuildLines.{build_form};
ghost use Rattle.line.specs.CallLines.{call_form};
ghost use Rattle.line.specs.Gateways.{gateway_view, gateway_rule, OpensAs, Opens, CountsBands, JudgesBands, CountsLegs, by_line, GoesOn, turn_of};
ghost use Rattle.line.specs.Verdicts.{line_call, build_line, check_code, Read};

use super::{Gateway, Opening};
use crate::bands::BuildLine;
use crate::reader::{read_build, read_call};
use gate::build_error::BuildError;
use gate::venue::Venue;
use market::acceptance::Acceptance;
use market::refusal::{Refusal, refuse};
use market::row::Row;
use rules::rule::AllocationRule;
use std::alloc::Global;

// Builds a venue as the line's fields say.
fn open<R: AllocationRule>(
    heap: Global,
    rule: R,
    request: BuildLine,
) -> Result<Opening<R>, BuildError>
where
    R: Drop,
    ensures { OpensAs rule request result }
{
    let BuildLine { product, bands } = request;
    let built = Acceptance::Built {
        instruments: bands.len() as u32,
    };
    let venue = Venue::build(heap, rule, product, bands)?;
    Ok(Opening {
        gateway: Gateway { venue },
        answer: built.into(),
    })
}

impl<R: AllocationRule> Gateway<R> {
    // Builds a venue as the line says, under the rule; where there is no memory, that is an error outside the table of refusals, and comes only after the line is judged.
    pub fn build(heap: Global, rule: R, line: &[u8]) -> Result<Opening<R>, BuildError>
    where
        R: Drop,
        ensures opens { Opens R.AllocationRule.shares rule line.now result }
        ensures read { Read build_form line.now (build_line line.now) }
        ensures counted { CountsBands line.now }
        ensures bands { JudgesBands line.now }
    {
        let request = read_build(line)?;
        open(heap, rule, request)
    }

    // One line of a member, with a report of any length: the answer, all rows and the venue after it are those that the market's rules give, which allow no others, and the law over sessions goes on to hold. The line is refused with number 1 or 2 exactly where its check code, which `line_check` gives, is not 0.
    pub fn call(&mut self, line: &[u8], report: &mut [Row]) -> Result<(u32, u32), Refusal>
        ensures follows { Follows (Takes (R.AllocationRule.shares (gateway_rule self.old)) (gateway_view self.old) (line_call line.now)) (gateway_view self.old) (length report.old) result report.new (gateway_view self.new) }
        ensures read { Read call_form line.now (line_call line.now) }
        ensures counted { CountsLegs line.now }
        ensures alone { RulesDetermine }
        ensures rule { gateway_rule self.new ≡ gateway_rule self.old }
        ensures checked { by_line result ≡ not (check_code (line_call line.now) == 0) }
        ensures session { GoesOn (R.AllocationRule.shares (gateway_rule self.old)) (gateway_view self.old) (turn_of line.now (length report.old) result report.new) (gateway_view self.new) }
    {
        // A refusal also blanks the report, which `?` alone would not do.
        match read_call(line) {
            Ok(call) => self.venue.call(call, report),
            Err(refusal) => refuse(report, refusal),
        }
    }
}
