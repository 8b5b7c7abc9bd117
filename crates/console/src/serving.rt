// A whole session over a wire.
ghost use Rattle.std.specs.Prelude.{[], OnErr, OnOk};
ghost use Rattle.console.specs.Sessions.{rule_for, Served, BrokenOff};

use crate::buffered::BufferedWire;
use crate::reader::LineReader;
use crate::session::{FULL, Session};
use crate::wire::Wire;
use std::alloc::Global;

// Serves one session over any wire: the first line builds the venue, futures under price/time and options under pro rata.
pub fn serve_wire<W: Wire>(heap: Global, wire: &mut W) -> anyhow::Result<()>
    ensures served { OnOk result (W.Wire.log wire.old [] → Served rule_for (W.Wire.log wire.new) (W.Wire.over wire.new)) }
    ensures failed { OnErr result (W.Wire.log wire.old [] → BrokenOff rule_for (W.Wire.log wire.new)) }
{
    let reader = LineReader::new(heap)?;
    let text = Vec::with_capacity(heap, FULL)?;
    let wire = BufferedWire { wire, text };
    let mut session = Session { heap, reader, wire };
    let served = session.serve();
    // No effect at run time: the proof reads here what the wire holds. Tried: with no such line nothing is known of the wire.
    let _ = &*session.into_wire();
    served
}
