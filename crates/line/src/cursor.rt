// A place in a line, between two fields.
ghost use Rattle.std.specs.Prelude.{◌+◌, ◌≤◌, length};

use crate::field::Field;

// A field, and the offset of its first byte in the line: docs/DECISIONS.md asks for offsets, and nothing reads them yet.
#[derive(Clone, Copy)]
pub(crate) struct Placed<'a> {
    pub(crate) offset: usize,
    pub(crate) field: Field<'a>,
}

// The offset and the index of the next field of a line. An offset past the line's end says that no field is left; an Option of it would stand beside the index, which goes on.
#[derive(Drop)]
pub(crate) struct Cursor<'a> {
    pub(crate) line: &'a [u8],
    pub(crate) at: usize,
    pub(crate) index: u32,
    ghost short: { length line.now ≤ 1200 },
    ghost inside: { at ≤ length line.now + 1 },
    ghost counted: { index ≤ at },
}
