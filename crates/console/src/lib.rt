// The parts around a venue: lines cut from its input, the text of its answers, and a whole session over a wire.
#![tactic(auto)]

mod answering;
mod buffered;
pub mod cutter;
mod reader;
pub mod serving;
mod session;
pub mod text;
pub mod wire;
