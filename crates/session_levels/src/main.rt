// A stored session: fills through several levels, D, I and F, cancels, phases, refusals 4 to 11, a full book.
// The same program as `venue`, in a crate of its own: a crate's program is run once, on the crate's own stdin and stdout.
#![tactic(auto)]

use console::serving::serve_wire;
use console::wire::Streams;

fn main(rt: HostRuntime) -> anyhow::Result<()> {
    let (input, output) = (rt.stdin(), rt.stdout());
    serve_wire(rt.alloc(), &mut Streams { input, output })
}
