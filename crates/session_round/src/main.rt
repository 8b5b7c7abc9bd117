// A stored session: futures, definitions and what is refused of them, orders in combinations and what is refused of them, levels and legs by turns, the round, a full book.
// The same program as `venue`, in a crate of its own: a crate's program is run once, on the crate's own stdin and stdout.
#![tactic(auto)]

use console::serving::serve_wire;
use console::wire::Streams;

fn main(rt: HostRuntime) -> anyhow::Result<()> {
    let (input, output) = (rt.stdin(), rt.stdout());
    serve_wire(rt.alloc(), &mut Streams { input, output })
}
