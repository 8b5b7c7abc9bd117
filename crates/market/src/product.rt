// What a venue serves, and the price bands of its instruments.

#[derive(Clone, Copy)]
pub enum Product {
    Futures,
    Options,
}

// The lowest and the highest price that an instrument's orders may have.
#[derive(Clone, Copy, Default)]
pub struct Band {
    pub low: u32,
    pub high: u32,
}
