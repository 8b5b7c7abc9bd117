// The book of a venue: its resting orders, and a draft that a call works on until it is known to stand.
ghost use Rattle.std.specs.Prelude.{◌≤◌};

use crate::draft::Draft;
use crate::orders::Orders;

mod amending;
mod calls;
mod quoting;

#[derive(Drop)]
pub struct Book {
    resting: Orders,
    draft: Draft,
    next: u32,
    ghost numbers: { next ≤ 100000 },
}
