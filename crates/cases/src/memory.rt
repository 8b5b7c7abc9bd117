// Sessions served from memory, which is read and written three bytes at a time.
ghost use Rattle.std.specs.Prelude.{◌≡◌, ◌≤◌, Some, take, vec_len};
ghost use Rattle.console.specs.Wires.{taken, given};

use console::serving::serve_wire;
use console::wire::{Streams, Wire};
use std::alloc::Global;
use std::io::{self, ErrorKind, Write};
use std::test::Fail;

// How many bytes are read or written at once.
const STEP: usize = 3;

// The input stays whole beside its place, since the log tells of it from its start.
#[derive(Drop)]
struct Memory {
    input: Vec<u8>,
    at: usize,
    output: Vec<u8>,
    ghost inside: { at ≤ vec_len input },
}

impl Wire for Memory {
    ghost log = { λ m events. (taken events ≡ take m.at m.input.items) × (given events ≡ m.output.items) };

    ghost over = { λ m. m.at ≡ vec_len m.input };

    fn read(&mut self, block: &mut [u8]) -> anyhow::Result<usize> {
        let n = (self.input.len() - self.at).min(block.len()).min(STEP);
        block[0..n].copy_from_slice(&self.input[self.at..self.at + n]);
        self.at += n;
        Ok(n)
    }

    fn write(&mut self, text: &[u8]) -> anyhow::Result<()> {
        self.output.extend_from_slice(text)?;
        Ok(())
    }
}

// What a session over this input writes.
fn served(heap: Global, bytes: &[u8]) -> Result<Vec<u8>, Fail> {
    let mut input = Vec::new(heap);
    input.extend_from_slice(bytes)?;
    let mut wire = Memory {
        input,
        at: 0,
        output: Vec::new(heap),
    };
    serve_wire(heap, &mut wire)?;
    let Memory { output, .. } = wire;
    Ok(output)
}

#[test]
fn sessions_in_memory(rt: HostRuntime) -> Result<(), Fail> {
    let cases: [(&[u8], &[u8]); 7] = [
        (
            b"F 1 10 20\nP O\nE 1 1 S 5 12 D\nE 2 1 B 3 15 I\n\nC 1 1\nP X",
            b"ok 1 0\nok 0 0\nok 1 0\nok 2 3\nT 1 1 3 12 2 1\nno 2 1 0\nok 1 2\nX 0 1 2 0 0 1\n",
        ),
        (b"", b""),
        (b"F 1 10 20", b""),
        (b"F 1 1O 2o\nF 1 10 20\nP O\n", b"no 1 1 8\n"),
        (b"\nF 1 10 20\nP O\n", b"no 2 1 0\n"),
        (b"O 1 0 20\nP O\n", b"no 3 2 2\n"),
        (b"O 1 10 1000000\nP O\n", b"no 3 2 3\n"),
    ];
    for (input, output) in cases.iter() {
        assert_eq!(rt; served(rt.alloc(), input)?.as_slice(), *output);
    }
    Ok(())
}

// A writer that has room for so many more bytes, and is interrupted before each write.
#[derive(Drop)]
struct Narrow {
    held: Vec<u8>,
    room: usize,
    is_ready: bool,
}

impl Write for Narrow {
    ghost contents = { λ n. Some n.held.items };

    fn write(&mut self, buf: &[u8]) -> io::Result<usize> {
        self.is_ready = !self.is_ready;
        if self.is_ready {
            return Err(io::Error::from(ErrorKind::Interrupted));
        }
        let n = buf.len().min(self.room).min(STEP);
        self.held.extend_from_slice(&buf[..n])?;
        self.room -= n;
        Ok(n)
    }

    fn flush(&mut self) -> io::Result<()> {
        Ok(())
    }
}

// Whether a session over this input ends well, and what a writer with so much room holds then.
fn streamed(heap: Global, input: &[u8], room: usize) -> Result<(bool, Vec<u8>), Fail> {
    let output = Narrow {
        held: Vec::new(heap),
        room,
        is_ready: false,
    };
    let mut streams = Streams { input, output };
    let is_served = serve_wire(heap, &mut streams).is_ok();
    let Streams { output, .. } = streams;
    let Narrow { held, .. } = output;
    Ok((is_served, held))
}

#[test]
fn session_over_streams(rt: HostRuntime) -> Result<(), Fail> {
    let input = b"F 1 10 20\nP O\nE 1 1 S 5 12 D\n";
    let (is_served, held) = streamed(rt.alloc(), input, 21)?;
    assert!(rt; is_served);
    assert_eq!(rt; held.as_slice(), b"ok 1 0\nok 0 0\nok 1 0\n".as_slice());
    Ok(())
}

// A writer that takes no more holds the front of the answers, and the session fails.
#[test]
fn session_out_of_room(rt: HostRuntime) -> Result<(), Fail> {
    let input = b"F 1 10 20\nP O\nE 1 1 S 5 12 D\n";
    let (is_served, held) = streamed(rt.alloc(), input, 10)?;
    assert!(rt; !is_served);
    assert_eq!(rt; held.as_slice(), b"ok 1 0\nok ".as_slice());
    Ok(())
}
