// The calls of a cutter.
ghost use Rattle.std.specs.Prelude.{◌≡◌, ℕ, ◌<◌, ◌≤◌, List, [], ◌++◌, length, take as take_front, position, IfOk, vec_capacity, ◌==◌};
ghost use Rattle.console.specs.Lines.{LinesPart};
ghost use Rattle.console.specs.Cuts.{start, kept, pending, used_by, handed_by, Fed, Cuts};

use crate::cutter::LineCutter;
use std::alloc::{AllocError, Global};

// How many bytes of a line are kept.
const KEPT: usize = 1201;

// Where the first newline of a block stands; beside `take`, whose proof reads this one equation and not the closure.
fn newline(block: &[u8]) -> Option<usize>
    ensures { result ≡ position (λ b. b == 10) block.now }
{
    block.iter().position(|byte| *byte == b'\n')
}

impl LineCutter {
    // A cutter that was fed nothing; no later call takes memory.
    pub fn new(heap: Global) -> Result<LineCutter, AllocError>
        ensures fed { IfOk result (λ c. Fed c [] []) }
        ensures lines { LinesPart }
    {
        let line = Vec::with_capacity(heap, KEPT)?;
        Ok(LineCutter {
            line,
            complete: false,
        })
    }

    // Takes from a block up to and with the first newline, and answers how many bytes these are; takes all of it where there is none.
    pub fn take(&mut self, block: &[u8]) -> Option<usize>
        ensures cuts { Cuts self.old block.now result self.new }
        ensures fed { (input : List ℕ) (handed : List (List ℕ)) → Fed self.old input handed → Fed self.new (input ++ take_front (used_by result block.now) block.now) (handed ++ handed_by result self.new) }
        ensures within { used_by result block.now ≤ length block.now }
        ensures forward { 0 < length block.now → 0 < used_by result block.now }
    {
        self.begin();
        match newline(block) {
            Some(n) => {
                self.keep(&block[..n]);
                self.complete = true;
                Some(n + 1)
            }
            None => {
                self.keep(block);
                self.complete = false;
                None
            }
        }
    }

    // A new line begins after a complete one.
    fn begin(&mut self)
        ensures items { kept self.new ≡ pending self.old }
        ensures capacity { vec_capacity self.new.line ≡ vec_capacity self.old.line }
    {
        if self.complete {
            self.line.clear();
        }
    }

    // Adds to the line at hand, of which no more than its start is kept.
    fn keep(&mut self, more: &[u8])
        ensures items { kept self.new ≡ start (kept self.old ++ more.now) }
        ensures capacity { vec_capacity self.new.line ≡ vec_capacity self.old.line }
    {
        let n = more.len().min(KEPT - self.line.len());
        // Byte by byte, since of extend_from_slice only a capacity that does not shrink is known, and no later call may take memory.
        for byte in &more[..n] {
            self.line.push_reserved(*byte);
        }
    }

    // The line at hand; after a cut that completed it, the whole line, up to its first 1,201 bytes.
    pub fn line(&self) -> &[u8]
        ensures { result.now ≡ kept self.now }
    {
        self.line.as_slice()
    }
}
