// A wire whose text is gathered before it is written.
ghost use Rattle.std.specs.Prelude.{◌≡◌, ◌<◌, ◌≤◌, List, [], ◌∷◌, length, take, IfOk, OnErr, OnOk};
ghost use Rattle.console.specs.Wires.{Event, Took, Gave, PartGiven};

use crate::wire::Wire;

// A wire, and the text that waits to be written to it. Each call says with `same` that it keeps the borrow: a struct that holds a `&mut` could be given another.
#[derive(Drop)]
pub(crate) struct BufferedWire<'a, W> {
    pub(crate) wire: &'a mut W,
    pub(crate) text: Vec<u8>,
}

impl<W: Wire> BufferedWire<'_, W> {
    // Writes out what waits.
    pub(crate) fn flush(&mut self) -> anyhow::Result<()>
        ensures same { self.new.wire.ghost_name ≡ self.old.wire.ghost_name }
        ensures logged { OnOk result ((events : List Event) → W.Wire.log self.old.wire.now events → W.Wire.log self.new.wire.now (Gave self.old.text.items ∷ events)) }
        ensures empty { OnOk result (self.new.text.items ≡ []) }
        ensures failed { OnErr result ((events : List Event) → W.Wire.log self.old.wire.now events → PartGiven (W.Wire.log self.new.wire.now) self.old.text.items events) }
    {
        self.wire.write(self.text.as_slice())?;
        self.text.clear();
        Ok(())
    }

    // Reads the next bytes into the front of the block; all that waits is written out before.
    pub(crate) fn read(&mut self, block: &mut [u8]) -> anyhow::Result<usize>
        ensures same { self.new.wire.ghost_name ≡ self.old.wire.ghost_name }
        ensures within { IfOk result (λ n. n ≤ length block.new) }
        ensures logged { IfOk result (λ n. (events : List Event) → W.Wire.log self.old.wire.now events → W.Wire.log self.new.wire.now (Took (take n block.new) ∷ Gave self.old.text.items ∷ events)) }
        ensures ended { IfOk result (λ n. n ≡ 0 → 0 < length block.new → W.Wire.over self.new.wire.now) }
        ensures empty { OnOk result (self.new.text.items ≡ []) }
        ensures failed { OnErr result ((events : List Event) → W.Wire.log self.old.wire.now events → PartGiven (W.Wire.log self.new.wire.now) self.old.text.items events) }
    {
        self.flush()?;
        self.wire.read(block)
    }
}
