// The market's plain types; its rules stand in specs/, and what follows from them in proofs/.
#![tactic(auto)]

pub mod acceptance;
pub mod arrival;
pub mod book_id;
pub mod call;
pub mod combination;
pub mod counts;
pub mod figures;
pub mod laws;
pub mod leg;
pub mod legs;
pub mod order;
pub mod order_id;
pub mod phase;
pub mod price;
pub mod product;
pub mod quote;
pub mod refusal;
pub mod row;
pub mod side;
