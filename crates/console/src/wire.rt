// What a session reads its bytes from and writes its text to.
ghost use Rattle.std.specs.Prelude.{◌≡◌, ◌<◌, ◌≤◌, ℕ, List, ◌∷◌, length, take, IfOk, OnErr, OnOk};
ghost use Rattle.std.specs.Io.KnownBytes.{Appends, IsAtEnd, ReadConsumes};
ghost use Rattle.console.specs.Wires.{Event, Took, Gave, PartGiven, Written, given};

use anyhow::anyhow;
use std::io::{ErrorKind, Read, Write};

pub trait Wire {
    // This was read and written so far, the last event first.
    ghost log: { Self → List Event → Type 0 };

    // The input has ended.
    ghost over: { Self → Type 0 };

    // Reads the next bytes into the front of the block; none at the end of the input.
    fn read(&mut self, block: &mut [u8]) -> anyhow::Result<usize>
        ensures within { IfOk result (λ n. n ≤ length block.new) }
        ensures logged { IfOk result (λ n. (events : List Event) → log self.old events → log self.new (Took (take n block.new) ∷ events)) }
        ensures ended { IfOk result (λ n. n ≡ 0 → 0 < length block.new → over self.new) }
        ensures failed { OnErr result ((events : List Event) → log self.old events → log self.new events) };

    // Writes all of the text, or fails with a part of it written.
    fn write(&mut self, text: &[u8]) -> anyhow::Result<()>
        ensures logged { OnOk result ((events : List Event) → log self.old events → log self.new (Gave text.now ∷ events)) }
        ensures failed { OnErr result ((events : List Event) → log self.old events → PartGiven (log self.new) text.now events) };
}

// Standard input and output, or any other reader and writer.
#[derive(Drop)]
pub struct Streams<R, W> {
    pub input: R,
    pub output: W,
}

// Each call says more than its trait asks: what it did to the bytes of its own stream, and that it left the other alone.
impl<R: Read, W: Write> Wire for Streams<R, W> {
    // What the writer holds is known, and ends with all that was given.
    ghost log = { λ s events. Written (W.contents s.output) (given events) };

    // Nothing is known to be left of the input.
    ghost over = { λ s. IsAtEnd (R.remaining s.input) };

    fn read(&mut self, block: &mut [u8]) -> anyhow::Result<usize>
        ensures within { IfOk result (λ n. n ≤ length block.new) }
        ensures consumed { ReadConsumes (R.remaining self.old.input) (R.remaining self.new.input) result block.new }
        ensures output { self.new.output ≡ self.old.output }
    {
        let n = self.input.read(block)?;
        Ok(n)
    }

    fn write(&mut self, text: &[u8]) -> anyhow::Result<()>
        ensures appended { OnOk result (Appends (W.contents self.old.output) (W.contents self.new.output) text.now) }
        ensures failed { OnErr result ((k : ℕ) × (k < length text.now) × Appends (W.contents self.old.output) (W.contents self.new.output) (take k text.now)) }
        ensures input { self.new.input ≡ self.old.input }
    {
        write_whole(&mut self.output, text)
    }
}

// Writes all of the text, or fails with no more than a front part of it written, and not all.
fn write_whole<W: Write>(output: &mut W, text: &[u8]) -> anyhow::Result<()>
    ensures appended { OnOk result (Appends (W.contents output.old) (W.contents output.new) text.now) }
    ensures failed { OnErr result ((k : ℕ) × (k < length text.now) × Appends (W.contents output.old) (W.contents output.new) (take k text.now)) }
{
    let mut done = 0;
    // Each loop is proved to end, and a call that is interrupted brings it no nearer: a count that no writer reaches.
    for _ in 0..u64::MAX {
        if done == text.len() {
            break;
        }
        match output.write(&text[done..]) {
            Ok(0) => return Err(anyhow!("the output takes no more")),
            Ok(n) => done += n,
            Err(e) => {
                if e.kind() != ErrorKind::Interrupted {
                    return Err(e.into());
                }
            }
        }
    }
    if done < text.len() {
        return Err(anyhow!("the output is interrupted without end"));
    }
    Ok(())
}
