// The calls of a reader.
ghost use Rattle.std.specs.Prelude.{◌≡◌, [], IfOk, OnErr, OnOk};
ghost use Rattle.console.specs.Cuts.{kept, pending};
ghost use Rattle.console.specs.Reading.{unread, Keeps, Breaks, AtEnd, Finds};

use super::LineReader;
use crate::buffered::BufferedWire;
use crate::cutter::LineCutter;
use crate::wire::Wire;
use anyhow::anyhow;
use std::alloc::{AllocError, Global};

// How many bytes are read at once.
const BLOCK: usize = 65_536;

impl LineReader {
    ghost use Rattle.std.specs.Borrow.{sem};
    ghost use Rattle.std.specs.Io.BufRead.{Rests};
    ghost use Rattle.console.specs.contracts.reader.LineReader.{the_row};

    // A reader that has read nothing.
    pub(crate) fn new(heap: Global) -> Result<LineReader, AllocError>
        ensures { IfOk result (λ c. (unread c ≡ []) × (pending c.cutter ≡ [])) }
    {
        let cutter = LineCutter::new(heap)?;
        let block = vec![in heap; 0u8; BLOCK]?;
        Ok(LineReader {
            cutter,
            block,
            at: 0,
            end: 0,
        })
    }

    // The line that was cut last.
    pub(crate) fn line(&self) -> &[u8]
        ensures { result.now ≡ kept self.now.cutter }
    {
        self.cutter.line()
    }

    // Reads the next block where all of the last one is cut; only at the end of the input is nothing unread then.
    fn fill<W: Wire>(&mut self, wire: &mut BufferedWire<W>) -> anyhow::Result<()>
        ensures same { wire.new.wire.ghost_name ≡ wire.old.wire.ghost_name }
        ensures keeps { OnOk result (Keeps W.Wire.log self.old wire.old self.new wire.new) }
        ensures ended { OnOk result (self.new.at ≡ self.new.end → AtEnd W.Wire.over self.new wire.new) }
        ensures failed { OnErr result (Breaks W.Wire.log self.old wire.old wire.new) }
    {
        if self.at == self.end {
            let n = wire.read(self.block.as_mut_slice())?;
            self.at = 0;
            self.end = n;
        }
        Ok(())
    }

    // Cuts the next line; none at the end of the input.
    pub(crate) fn next_line<W: Wire>(
        &mut self,
        wire: &mut BufferedWire<W>,
    ) -> anyhow::Result<Option<&[u8]>>
        ensures same { wire.new.wire.ghost_name ≡ wire.old.wire.ghost_name }
        ensures* found { sem 𝓛 (Rests the_row self.entry (λ new. IfOk result (λ line. Finds W.Wire.log W.Wire.over self.old wire.old line new wire.new))) }
        ensures failed { OnErr result (Breaks W.Wire.log self.old wire.old wire.new) }
    {
        // Input has no known end, and each loop is proved to end: a count that no input reaches. This loop reads blocks until a line is cut; that of a session answers lines.
        for _ in 0..u64::MAX {
            self.fill(wire)?;
            if self.at == self.end {
                return Ok(None);
            }
            match self.cutter.take(&self.block[self.at..self.end]) {
                Some(used) => {
                    self.at += used;
                    return Ok(Some(self.cutter.line()));
                }
                None => self.at = self.end,
            }
        }
        Err(anyhow!("the input does not end"))
    }
}
