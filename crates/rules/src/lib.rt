// Rules that divide a quantity among orders.
#![tactic(auto)]

pub mod any_length;
pub mod price_time;
pub mod pro_rata;
pub mod rule;
