// A stored session: quotes in a single instrument and in a combination; 10/10 refused and 10/11 taken; one side moving while the other keeps its place; every refusal of a quote line; a halt.
// The same program as `venue`, in a crate of its own: a crate's program is run once, on the crate's own stdin and stdout.
#![tactic(auto)]

use console::serving::serve_wire;
use console::wire::Streams;

fn main(rt: HostRuntime) -> anyhow::Result<()> {
    let (input, output) = (rt.stdin(), rt.stdout());
    serve_wire(rt.alloc(), &mut Streams { input, output })
}
