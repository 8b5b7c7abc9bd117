// A line given to a venue, and what it answers as text.
ghost use Rattle.std.specs.Prelude.{◌≡◌, length, IfOk, OnOk};
ghost use Rattle.line.specs.Gateways.{gateway_view, gateway_rule};
ghost use Rattle.console.specs.Answering.{Answered, BuildAnswered};

use crate::text::{write_answer, write_report};
use gate::build_error::BuildError;
use line::gateway::Gateway;
use market::row::Row;
use rules::rule::AllocationRule;
use std::alloc::{AllocError, Global};

// Builds a venue from the line, and writes the answer; no venue where the line is refused.
pub(crate) fn open_venue<R: AllocationRule>(
    heap: Global,
    rule: R,
    line: &[u8],
    out: &mut Vec<u8>,
) -> Result<Option<Gateway<R>>, AllocError>
where
    R: Drop,
    ensures { IfOk result (λ g. BuildAnswered R.AllocationRule.shares rule line.now out.old.items out.new.items g) }
{
    match Gateway::build(heap, rule, line) {
        Ok(opening) => {
            write_answer(out, Ok(opening.answer))?;
            Ok(Some(opening.gateway))
        }
        Err(BuildError::Refused(refusal)) => {
            write_answer(out, Err(refusal))?;
            Ok(None)
        }
        Err(BuildError::OutOfMemory) => Err(AllocError),
    }
}

// Gives a line to the venue, and writes the answer and the rows.
pub(crate) fn answer_line<R: AllocationRule>(
    gateway: &mut Gateway<R>,
    line: &[u8],
    report: &mut [Row],
    out: &mut Vec<u8>,
) -> Result<(), AllocError>
    ensures answered { OnOk result (Answered (R.AllocationRule.shares (gateway_rule gateway.old)) (gateway_view gateway.old) line.now (length report.old) out.old.items out.new.items (gateway_view gateway.new)) }
    ensures rule { gateway_rule gateway.new ≡ gateway_rule gateway.old }
{
    let answer = gateway.call(line, report);
    write_answer(out, answer)?;
    write_report(out, report)
}
