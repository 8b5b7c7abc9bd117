// Two counts that nothing adds or compares with each other: two types, as docs/DECISIONS.md asks for, and not one with a parameter.

// Contracts of an instrument.
#[derive(Clone, Copy)]
pub struct Contracts(pub u32);

// Units of a combination.
#[derive(Clone, Copy)]
pub struct Units(pub u32);
