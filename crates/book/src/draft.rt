// What a call works on until it is known to stand.
use crate::orders::Orders;
use crate::scratch::Scratch;
use std::alloc::{AllocError, Global};

// The orders as the call leaves them, and two lists to work in.
#[derive(Drop)]
pub(crate) struct Draft {
    pub orders: Orders,
    pub scratch: Scratch,
}

impl Draft {
    pub(crate) fn new(heap: Global) -> Result<Draft, AllocError> {
        Ok(Draft {
            orders: Orders::new(heap)?,
            scratch: Scratch::new(),
        })
    }
}
