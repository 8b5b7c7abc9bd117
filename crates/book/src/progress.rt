// How far a match has come.

// The number of the next fill, and what is left of the order.
#[derive(Clone, Copy)]
pub(crate) struct Progress {
    pub next_fill: u32,
    pub left: u32,
}
