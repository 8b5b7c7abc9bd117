// A venue as its members meet it: what may enter, in which phase, and what is refused.
#![tactic(auto)]

pub mod build_error;
mod combinations;
mod entry;
mod fault;
mod legs;
mod listing;
mod lot;
mod ratios;
mod sides;
mod trading;
pub mod venue;
