// Several calls, one after the other, on one venue.
ghost use Rattle.std.specs.Prelude.{length};
ghost use Rattle.own_rule.specs.Composed.{bytes, Serves};

use gate::build_error::BuildError;
use line::gateway::Gateway;
use market::row::Row;
use rules::rule::AllocationRule;
use std::alloc::Global;

// Builds a venue under any rule and gives it the lines; whatever it answers, the law over sessions holds at the end. The report is there to be written over.
pub fn serve_all<R: AllocationRule>(
    heap: Global,
    rule: R,
    build: &[u8],
    lines: &[&[u8]],
    report: &mut [Row],
) -> Result<Gateway<R>, BuildError>
where
    R: Drop,
    ensures { Serves R.AllocationRule.shares rule build.now (bytes lines.now) (length report.old) result }
{
    let mut gateway = Gateway::build(heap, rule, build)?.gateway;
    for line in lines {
        let _ = gateway.call(line, report);
    }
    Ok(gateway)
}
