// Cuts input that arrives in blocks into lines.
ghost use Rattle.std.specs.Prelude.{◌≤◌, vec_len, vec_capacity};

mod calls;

// Holds of the line at hand no more than its first 1,201 bytes, and takes no memory after it is made.
#[derive(Drop)]
pub struct LineCutter {
    // A Vec, as `new` is given a heap, and in place these bytes would be moved with each reader.
    line: Vec<u8>,
    // A flag, since the one buffer is held and lent alike whether its line is complete or still open.
    complete: bool,
    ghost short: { vec_len line ≤ 1201 },
    ghost room: { 1201 ≤ vec_capacity line },
}
