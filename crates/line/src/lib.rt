// Lines of bytes, read into calls, or refused with the place at fault.
#![tactic(auto)]

mod bands;
mod check;
mod clean;
mod clipping;
mod cursor;
mod field;
pub mod gateway;
mod legs;
mod named;
mod reader;
mod runs;
mod walk;

pub use check::line_check;
pub use clipping::clip;
pub use reader::product_named;
