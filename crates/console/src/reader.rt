// The input of a wire, read in blocks and cut into lines.
ghost use Rattle.std.specs.Prelude.{◌<◌, ◌≤◌, vec_len};

use crate::cutter::LineCutter;

pub(crate) mod calls;

// The bytes of the last block from `at` up to `end` are still to be cut; they stand beside the block, which keeps its length for the next read.
// No BufReader: it reads from a std::io::Read, and a Wire is a trait of this crate, whose log the law of a session reads.
#[derive(Drop)]
pub(crate) struct LineReader {
    cutter: LineCutter,
    block: Vec<u8>,
    at: usize,
    end: usize,
    ghost ordered: { at ≤ end },
    ghost inside: { end ≤ vec_len block },
    ghost room: { 0 < vec_len block },
}
