// A stored session: one order of 10,000 units of a ten-leg combination with ratios of 9 and 10, against 250 resting orders.
// The same program as `venue`, in a crate of its own: a crate's program is run once, on the crate's own stdin and stdout.
#![tactic(auto)]

use console::serving::serve_wire;
use console::wire::Streams;

fn main(rt: HostRuntime) -> anyhow::Result<()> {
    let (input, output) = (rt.stdin(), rt.stdout());
    serve_wire(rt.alloc(), &mut Streams { input, output })
}
