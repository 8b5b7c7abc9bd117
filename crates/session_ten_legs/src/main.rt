// A stored session: options, combinations of up to ten legs divided pro rata, their levels and their legs by turns, the round, quantities up to 10,000.
// The same program as `venue`, in a crate of its own: a crate's program is run once, on the crate's own stdin and stdout.
#![tactic(auto)]

use console::serving::serve_wire;
use console::wire::Streams;

fn main(rt: HostRuntime) -> anyhow::Result<()> {
    let (input, output) = (rt.stdin(), rt.stdout());
    serve_wire(rt.alloc(), &mut Streams { input, output })
}
